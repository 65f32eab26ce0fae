//! Removal of nodes that match only the empty text.
ghost use Rattle.std.specs.Prelude.{◌≡◌, true};
ghost use Rattle.regress_tree.specs.Reading.{Direction};
ghost use Rattle.regress_tree.specs.Tree.{tree, trees};
ghost use Rattle.regress_tree.specs.NodeTests.{is_empty};
ghost use Rattle.regress_tree.specs.Shapes.{is_emptied_away};
ghost use Rattle.regress_rewrite.specs.Law.{IsPart, ObeysLaw};
ghost use Rattle.regress_rewrite.specs.Taken.{list_without};
ghost use Rattle.regress_passes.specs.Emptied.{ReplacesCat};

use regress_rewrite::PassAction;
use regress_rewrite::remove_empties::{collapse, drop_empties};
use regress_tree::ir::{Node, NodeList};

/// Removes a node that is seen to match only the empty text, and the `Empty` parts of a `Cat`. A `Cat` with one part
/// remaining becomes that part, and one with none becomes `Empty`. Keeps any other node.
///
/// # Preconditions
/// The node is part of a well-formed tree.
///
/// # Complexity
/// Linear in the parts of a `Cat`.
pub fn remove_empties(node: &mut Node) -> PassAction
    requires { IsPart (tree node.old) }
    ensures { (d : Direction) → ObeysLaw is_emptied_away true d (tree node.old) (tree node.new) result }
{
    if !has_empties(node) {
        return PassAction::Keep;
    }
    match node {
        Node::Cat(parts) => remove_empty_parts(parts),
        _ => PassAction::Remove,
    }
}

/// Returns whether there is something to remove. An empty set is not `Empty`: it matches nothing.
fn has_empties(node: &Node) -> bool
    ensures { result ≡ is_emptied_away (tree node.now) }
{
    match node {
        Node::ByteSequence(bytes) => bytes.is_empty(),
        Node::Cat(parts) => parts.iter().any(Node::is_empty),
        Node::Alt(left, right) => left.is_empty() && right.is_empty(),
        Node::Loop {
            loopee,
            quant,
            enclosed_groups,
        } => loopee.is_empty() || (quant.max == Some(0) && enclosed_groups.is_empty()),
        Node::LookaroundAssertion {
            negate,
            contents,
            ..
        } => !*negate && contents.is_empty(),
        _ => false,
    }
}

/// Removes the `Empty` parts of a `Cat`, and returns the action, which may replace the `Cat`.
fn remove_empty_parts(parts: &mut NodeList) -> PassAction
    ensures { ReplacesCat result (list_without is_empty (trees parts.old.items)) (trees parts.new.items) }
{
    drop_empties(parts);
    match collapse(parts) {
        Some(node) => PassAction::Replace(node),
        None => PassAction::Modified,
    }
}
