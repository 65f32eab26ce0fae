//! Propagation of early failure: a node that always fails because a part of it does is replaced by one that fails at
//! once.
ghost use Rattle.std.specs.Prelude.{◌≡◌, true, false, [], ◌||◌};
ghost use Rattle.regress_tree.specs.Reading.{Direction};
ghost use Rattle.regress_tree.specs.Tree.{tree, leaf, char_set};
ghost use Rattle.regress_tree.specs.NodeTests.{match_always_fails};
ghost use Rattle.regress_tree.specs.Shapes.{fails_by_part, has_group, is_failed_away};
ghost use Rattle.regress_rewrite.specs.Law.{IsPart, ObeysLaw};

use regress_rewrite::PassAction;
use regress_tree::ir::Node;
use std::alloc::Global;
use std::mem;

/// Returns whether a node is a `Cat` with a part that always fails, an `Alt` with such a side, or a `Loop` of at least
/// one iteration with such a body. Takes time linear in the parts of a `Cat`.
pub fn fails_by_part(node: &Node) -> bool
    ensures { result ≡ fails_by_part (tree node.now) }
{
    match node {
        Node::Cat(parts) => parts.iter().any(Node::match_always_fails),
        Node::Alt(left, right) => left.match_always_fails() || right.match_always_fails(),
        Node::Loop { loopee, quant, .. } => quant.min > 0 && loopee.match_always_fails(),
        _ => false,
    }
}

/// Replaces an `Alt` with a side that always fails by the other side, and any other node that fails by a part by an
/// empty set. Keeps any other node. It allocates no memory.
///
/// # Preconditions
/// The node is part of a well-formed tree, and contains no capture group.
pub fn propagate_early_fails(alloc: Global, node: &mut Node) -> PassAction
    requires part { IsPart (tree node.old) }
    requires free { has_group (tree node.old) ≡ false }
    ensures { (d : Direction) → ObeysLaw is_failed_away true d (tree node.old) (tree node.new) result }
{
    if !fails_by_part(node) {
        return PassAction::Keep;
    }
    match node {
        Node::Alt(left, right) => PassAction::Replace(take_side(alloc, left, right)),
        _ => PassAction::Replace(Node::make_always_fails(alloc)),
    }
}

/// Takes out a side that does not always fail, the left one first, or returns a node that always fails.
fn take_side(alloc: Global, left: &mut Node, right: &mut Node) -> Node
    ensures left { match_always_fails (tree left.old) ≡ false → tree result ≡ tree left.old }
    ensures right { match_always_fails (tree left.old) ≡ true → match_always_fails (tree right.old) ≡ false →
        tree result ≡ tree right.old }
    ensures neither { match_always_fails (tree left.old) ≡ true → match_always_fails (tree right.old) ≡ true →
        tree result ≡ leaf (char_set []) }
{
    if !left.match_always_fails() {
        return mem::replace(left, Node::Empty);
    }
    if !right.match_always_fails() {
        return mem::replace(right, Node::Empty);
    }
    Node::make_always_fails(alloc)
}
