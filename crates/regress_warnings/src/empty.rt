//! Whether a node can match the empty text.
ghost use Rattle.std.specs.Prelude.{◌≡◌};
ghost use Rattle.regress_tree.specs.Tree.{tree, trees};
ghost use Rattle.regress_warnings.specs.Empty.{is_empty_leaf, can_be_empty, all_can_be_empty};

use regress_tree::ir::Node;

/// Returns whether a match of the node can be empty, as far as its kinds of nodes tell: not whether its assertions can
/// hold together.
///
/// # Complexity
/// Linear in the number of nodes. The depth of recursion is the nesting depth; right sides of alternatives take no
/// stack.
#[cycle(can_be_empty)]
pub(crate) fn can_be_empty(node: &Node) -> bool
    ensures { result ≡ can_be_empty (tree node.now) }
{
    let mut last = node;
    while let Node::Alt(left, right) = last {
        if can_be_empty(left) {
            return true;
        }
        last = right;
    }
    can_be_empty_inside(last)
}

/// Returns the same, without a loop over alternatives.
#[cycle(can_be_empty)]
fn can_be_empty_inside(node: &Node) -> bool
    ensures { result ≡ can_be_empty (tree node.now) }
{
    match node {
        Node::Cat(parts) => all_can_be_empty(parts),
        Node::Alt(left, right) => can_be_empty(left) || can_be_empty(right),
        Node::CaptureGroup { contents, .. } => can_be_empty(contents),
        Node::Loop { loopee, quant, .. } => quant.min == 0 || can_be_empty(loopee),
        Node::Loop1CharBody { loopee, quant } => quant.min == 0 || can_be_empty(loopee),
        Node::LookaroundAssertion { .. } => true,
        _ => leaf_can_be_empty(node),
    }
}

/// Returns the same for a node without parts and body, and false for others.
fn leaf_can_be_empty(node: &Node) -> bool
    ensures { result ≡ is_empty_leaf (tree node.now) }
{
    matches!(
        node,
        Node::Empty
            | Node::Goal
            | Node::Anchor { .. }
            | Node::WordBoundary { .. }
            | Node::BackRef { .. }
    )
}

/// Returns whether a match of each part can be empty.
#[cycle(can_be_empty)]
fn all_can_be_empty(parts: &[Node]) -> bool
    ensures { result ≡ all_can_be_empty (trees parts.now) }
{
    for part in parts {
        if !can_be_empty(part) {
            return false;
        }
    }
    true
}
