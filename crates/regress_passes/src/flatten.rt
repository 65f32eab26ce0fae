//! Flattening of nested `Cat`s.
ghost use Rattle.std.specs.Prelude.{◌≡◌, true, IfOk, OnErr};
ghost use Rattle.regress_tree.specs.Reading.{Direction};
ghost use Rattle.regress_tree.specs.Tree.{tree, trees};
ghost use Rattle.regress_tree.specs.Shapes.{is_cat, is_flattened_away};
ghost use Rattle.regress_rewrite.specs.Law.{ObeysLaw};
ghost use Rattle.regress_passes.specs.Flatten.{Flattens};

use regress_rewrite::PassAction;
use regress_rewrite::flatten::splice;
use regress_rewrite::remove_empties::collapse;
use regress_tree::ir::{Node, NodeList};
use std::alloc::{AllocError, Global};

/// Flattens a `Cat`: replaces one with no part by `Empty`, and one with a single part by that part, and splices in the
/// parts of each part that is a `Cat`. Keeps any other node.
///
/// # Complexity
/// Linear in the number of parts, including those of the nested `Cat`s.
///
/// # Errors
/// Returns [`AllocError`] if an allocation fails. The node is unchanged.
pub fn flatten(alloc: Global, node: &mut Node) -> Result<PassAction, AllocError>
    ensures lawful { (d : Direction) → IfOk result (ObeysLaw is_flattened_away true d (tree node.old) (tree node.new)) }
    ensures err { OnErr result (tree node.new ≡ tree node.old) }
{
    match node {
        Node::Cat(parts) => flatten_cat(alloc, parts),
        _ => Ok(PassAction::Keep),
    }
}

/// Flattens a `Cat` with these parts, or returns the node that replaces it.
fn flatten_cat(alloc: Global, parts: &mut NodeList) -> Result<PassAction, AllocError>
    ensures action { IfOk result (λ action. Flattens action (trees parts.old.items) (trees parts.new.items)) }
    ensures err { OnErr result (trees parts.new.items ≡ trees parts.old.items) }
{
    if let Some(node) = collapse(parts) {
        return Ok(PassAction::Replace(node));
    }
    if !parts.iter().any(is_cat) {
        return Ok(PassAction::Keep);
    }
    splice(alloc, parts)?;
    Ok(PassAction::Modified)
}

fn is_cat(node: &Node) -> bool
    ensures { result ≡ is_cat (tree node.now) }
{
    matches!(node, Node::Cat(_))
}
