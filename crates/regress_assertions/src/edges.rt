//! The characters with which matches begin and end.
ghost use Rattle.std.specs.Prelude.{◌≡◌};
ghost use Rattle.regress_tree.specs.Tree.{tree, trees};
ghost use Rattle.regress_assertions.specs.Characters.{view};
ghost use Rattle.regress_assertions.specs.Edges.{opens, opens_list, closes, closes_list, first_part, first_of};

use crate::set::Set;
use regress_tree::ir::Node;

/// Returns whether each match begins with a character of a set, in the order of the lists of the tree.
///
/// # Complexity
/// Linear in the number of alternatives, and of what contains the first part of each. The depth of recursion is the
/// nesting depth; right sides of alternatives take no stack.
#[cycle(opens)]
pub(crate) fn opens(node: &Node, set: Set<'_>) -> bool
    ensures { result ≡ opens (view set.entry) (tree node.now) }
{
    let mut last = node;
    while let Node::Alt(left, right) = last {
        if !opens(left, set) {
            return false;
        }
        last = right;
    }
    opens_inside(last, set)
}

/// Returns the same, without a loop over alternatives.
#[cycle(opens)]
fn opens_inside(node: &Node, set: Set<'_>) -> bool
    ensures { result ≡ opens (view set.entry) (tree node.now) }
{
    match node {
        Node::Cat(parts) => match parts.as_slice() {
            [first, ..] => opens(first, set),
            [] => false,
        },
        Node::Alt(left, right) => opens(left, set) && opens(right, set),
        Node::CaptureGroup { contents, .. } => opens(contents, set),
        Node::Loop { loopee, quant, .. } => quant.min != 0 && opens(loopee, set),
        Node::Loop1CharBody { loopee, quant } => quant.min != 0 && opens(loopee, set),
        Node::LookaroundAssertion { .. } => false,
        _ => set.has(node),
    }
}

/// Returns whether each match ends with a character of a set, in the order of the lists of the tree.
///
/// # Complexity
/// As for [`opens`].
#[cycle(closes)]
pub(crate) fn closes(node: &Node, set: Set<'_>) -> bool
    ensures { result ≡ closes (view set.entry) (tree node.now) }
{
    let mut last = node;
    while let Node::Alt(left, right) = last {
        if !closes(left, set) {
            return false;
        }
        last = right;
    }
    closes_inside(last, set)
}

/// Returns the same, without a loop over alternatives.
#[cycle(closes)]
#[tactic(auto, using(crate::proofs::LastLemmas::last_part))]
fn closes_inside(node: &Node, set: Set<'_>) -> bool
    ensures { result ≡ closes (view set.entry) (tree node.now) }
{
    match node {
        Node::Cat(parts) => match parts.as_slice() {
            [.., last] => closes(last, set),
            [] => false,
        },
        Node::Alt(left, right) => closes(left, set) && closes(right, set),
        Node::CaptureGroup { contents, .. } => closes(contents, set),
        Node::Loop { loopee, quant, .. } => quant.min != 0 && closes(loopee, set),
        Node::Loop1CharBody { loopee, quant } => quant.min != 0 && closes(loopee, set),
        Node::LookaroundAssertion { .. } => false,
        _ => set.has(node),
    }
}

/// Returns the part that each match begins with, in the order of the lists of the tree.
#[cycle(first_part)]
pub(crate) fn first_part(node: &Node) -> &Node
    ensures { tree result.now ≡ first_part (tree node.now) }
{
    match node {
        Node::Cat(parts) => match parts.as_slice() {
            [first, ..] => first_part(first),
            [] => node,
        },
        Node::CaptureGroup { contents, .. } => first_part(contents),
        _ => node,
    }
}
