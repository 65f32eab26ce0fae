//! The spine of an alternation, which is the chain of its right sides: loops that descend it and climb back without
//! allocating. They reverse the links on the way down, since an alternation nests as deep as it has alternatives.
ghost use Rattle.std.specs.Prelude.{◌≡◌, MatchBool, MatchOption, false};
ghost use Rattle.std.specs.Borrow.{LendsSo, sem};
ghost use Rattle.regress_tree.specs.contracts.ir.node.Node.{the_row};
ghost use Rattle.regress_tree.specs.Held.{box_list};
ghost use Rattle.regress_tree.specs.Lefts.{HasLeft, LeftAfter};
ghost use Rattle.regress_tree.specs.Tree.{tree};
ghost use Rattle.regress_tree.specs.Spine.{is_alt, Shifted, reattach};

use crate::ir::Node;
use std::mem;

/// Moves the `Alt` at `from`, if it is one, with its left side to the top of `onto`: afterwards `from` is its former
/// right side, and `onto` is the `Alt` with its left side and, as its right side, the former `onto`. Returns whether
/// `from` is an `Alt`; if not, nothing is changed.
pub fn rotate_right_spine(from: &mut Node, onto: &mut Node) -> bool
    ensures { MatchBool result
        (Shifted (tree from.old) (tree onto.old) (tree from.new) (tree onto.new))
        ((is_alt (tree from.old) ≡ false) × (tree from.new ≡ tree from.old) × (tree onto.new ≡ tree onto.old)) }
{
    let Node::Alt(_, right) = from else {
        return false;
    };
    mem::swap(&mut **right, onto);
    mem::swap(from, onto);
    true
}

/// Puts all `Alt`s that [`rotate_right_spine`] moved to `above` back around `node`.
pub fn restore_spine(node: &mut Node, above: Node)
    ensures { tree node.new ≡ reattach (tree above) (tree node.old) }
{
    let mut above = above;
    while rotate_right_spine(&mut above, node) {}
}

/// Returns the left side of an `Alt` as a mutable reference, and `None` for any other node.
pub fn left_mut(node: &mut Node) -> Option<&mut Box<Node>>
    ensures* writes_back { sem 𝓛 (LendsSo the_row box_list node.entry result (LeftAfter result node.old) (λ n. tree n ≡ tree node.old)) }
    ensures left { MatchOption result (is_alt (tree node.old) ≡ false) (λ left. HasLeft (tree node.old) (tree left.now.value)) }
{
    match node {
        Node::Alt(left, _) => Some(left),
        _ => None,
    }
}
