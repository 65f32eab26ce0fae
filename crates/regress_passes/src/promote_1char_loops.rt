//! Promotion of loops over one character.
ghost use Rattle.std.specs.Prelude.{◌≡◌, true, IfOk, OnErr};
ghost use Rattle.regress_tree.specs.Reading.{Direction};
ghost use Rattle.regress_tree.specs.Tree.{tree};
ghost use Rattle.regress_tree.specs.Shapes.{is_promoted_away};
ghost use Rattle.regress_rewrite.specs.Law.{IsPart, ObeysLaw};
ghost use Rattle.regress_passes.specs.Promote.{Promotes};

use regress_rewrite::PassAction;
use regress_rewrite::promote_1char_loops::promoted;
use regress_tree::ir::{Node, Quantifier};
use std::alloc::{AllocError, Global};

/// Replaces a `Loop` whose body passes [`Node::matches_exactly_one_char`] by a `Loop1CharBody` with the same
/// quantifier. Keeps any other node. Takes constant time.
///
/// # Preconditions
/// The node is part of a well-formed tree.
///
/// # Errors
/// Returns [`AllocError`] if an allocation fails. The node is unchanged.
pub fn promote_1char_loops(alloc: Global, node: &mut Node) -> Result<PassAction, AllocError>
    requires { IsPart (tree node.old) }
    ensures lawful { (d : Direction) → IfOk result (ObeysLaw is_promoted_away true d (tree node.old) (tree node.new)) }
    ensures err { OnErr result (tree node.new ≡ tree node.old) }
{
    match node {
        Node::Loop { loopee, quant, .. } => promote_loop(alloc, loopee, *quant),
        _ => Ok(PassAction::Keep),
    }
}

/// Returns the action that promotes a loop with this body, or `Keep`.
fn promote_loop(
    alloc: Global,
    body: &mut Box<Node>,
    quant: Quantifier,
) -> Result<PassAction, AllocError>
    ensures action { IfOk result (λ action. Promotes action quant (tree body.old.value) (tree body.new.value)) }
    ensures err { OnErr result (body.new ≡ body.old) }
{
    if !body.matches_exactly_one_char() {
        return Ok(PassAction::Keep);
    }
    let room = Box::new(alloc, Node::Empty)?;
    Ok(PassAction::Replace(promoted(body, quant, room)))
}
