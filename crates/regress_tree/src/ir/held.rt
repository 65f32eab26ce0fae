//! Access to the body of a node: the one node that a group, a loop or a lookaround contains.
ghost use Rattle.std.specs.Prelude.{◌≡◌, ◌<◌, ◌+◌, min, false, IfSome, MatchOption};
ghost use Rattle.std.specs.Borrow.{LendsSo, sem};
ghost use Rattle.regress_tree.specs.contracts.ir.node.Node.{the_row};
ghost use Rattle.regress_tree.specs.declared.ir.node.Node.{size-Node};
ghost use Rattle.regress_tree.specs.Held.{is_wrapper, HasBody, body_is_backwards, box_list, BodyAfter};
ghost use Rattle.regress_tree.specs.Tree.{tree};

use super::{Node, Walk};

/// Returns the body of a group, loop or lookaround, and `None` for any other node.
pub fn body(node: &Node) -> Option<&Node>
    ensures body { MatchOption result (is_wrapper (tree node.now) ≡ false) (λ body. HasBody (tree node.now) (tree body.now)) }
    ensures smaller { IfSome result (λ body. size-Node body.now < size-Node node.now) }
{
    match node {
        Node::CaptureGroup { contents, .. } => Some(contents),
        Node::Loop { loopee, .. } => Some(loopee),
        Node::Loop1CharBody { loopee, .. } => Some(loopee),
        Node::LookaroundAssertion { contents, .. } => Some(contents),
        _ => None,
    }
}

/// Returns the body of a group, loop or lookaround as a mutable reference, and `None` for any other node.
pub fn body_mut(node: &mut Node) -> Option<&mut Box<Node>>
    ensures* writes_back { sem 𝓛 (LendsSo the_row box_list node.entry result (BodyAfter result node.old) (λ n. tree n ≡ tree node.old)) }
    ensures body { MatchOption result (is_wrapper (tree node.old) ≡ false) (λ body. HasBody (tree node.old) (tree body.now.value)) }
{
    match node {
        Node::CaptureGroup { contents, .. } => Some(contents),
        Node::Loop { loopee, .. } => Some(loopee),
        Node::Loop1CharBody { loopee, .. } => Some(loopee),
        Node::LookaroundAssertion { contents, .. } => Some(contents),
        _ => None,
    }
}

/// Returns the walk at the children of `node`, from the walk at `node`: one deeper, and in a lookaround with its
/// direction.
pub fn walk_inside(walk: &Walk, node: &Node) -> Walk
    ensures children { result.skip_children ≡ false }
    ensures depth { result.depth ≡ min (walk.now.depth + 1) usize.MAX }
    ensures direction { result.in_lookbehind ≡ body_is_backwards (tree node.now) walk.now.in_lookbehind }
    ensures unicode { result.unicode ≡ walk.now.unicode }
{
    match node {
        Node::LookaroundAssertion { backwards, .. } => walk.inside(1).looking(*backwards),
        _ => walk.inside(1),
    }
}
