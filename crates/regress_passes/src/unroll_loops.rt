//! Unrolling of loops: the required iterations become copies of the body.
ghost use Rattle.std.specs.Prelude.{◌≡◌, true, IfOk, OnOk, OnErr};
ghost use Rattle.regress_tree.specs.Reading.{Direction};
ghost use Rattle.regress_tree.specs.Shapes.{is_unrolled_away};
ghost use Rattle.regress_tree.specs.Tree.{tree, trees};
ghost use Rattle.regress_rewrite.specs.Law.{IsPart, ObeysLaw};
ghost use Rattle.regress_passes.specs.Unrolled.{remaining_budget, remaining_budget_of_parts, unrolled_loop};

use regress_rewrite::PassAction;
use regress_rewrite::unroll_loops::{
    MAX_COPIED_SIZE, MAX_NESTING, further_iterations, has_few_iterations, required_copies,
};
use regress_tree::ir::Node;
use std::alloc::{AllocError, Global};
use std::mem;

/// Unrolls a loop that [`may_unroll`] accepts, as [`unroll`] does, and keeps any other node.
///
/// # Preconditions
/// The node is part of a well-formed tree.
///
/// # Errors
/// Returns [`AllocError`] if an allocation fails. The node is unchanged.
pub fn unroll_loops(alloc: Global, node: &mut Node) -> Result<PassAction, AllocError>
    requires { IsPart (tree node.old) }
    ensures lawful { (d : Direction) → IfOk result (ObeysLaw is_unrolled_away true d (tree node.old) (tree node.new)) }
    ensures err { OnErr result (tree node.new ≡ tree node.old) }
{
    if !may_unroll(node) {
        return Ok(PassAction::Keep);
    }
    unroll(alloc, node)?;
    Ok(PassAction::Modified)
}

/// Returns whether a node is a `Loop` to be unrolled. It looks at no more than 257 nodes of the body.
pub fn may_unroll(node: &Node) -> bool
    ensures { result ≡ is_unrolled_away (tree node.now) }
{
    match node {
        Node::Loop {
            loopee,
            quant,
            enclosed_groups,
        } => {
            has_few_iterations(quant, enclosed_groups)
                && remaining_budget(loopee, MAX_NESTING, MAX_COPIED_SIZE).is_some()
        }
        _ => false,
    }
}

/// Replaces a loop that [`may_unroll`] accepts by a `Cat` of a copy of the body for each required iteration and, unless
/// there are no further ones, a loop of these. All memory is allocated before the loop is changed.
///
/// # Preconditions
/// The node is part of a well-formed tree, and [`may_unroll`] accepts it.
///
/// # Errors
/// Returns [`AllocError`] if an allocation fails. The node is unchanged.
pub fn unroll(alloc: Global, node: &mut Node) -> Result<(), AllocError>
    requires part { IsPart (tree node.old) }
    requires shape { is_unrolled_away (tree node.old) ≡ true }
    ensures unrolled { OnOk result (tree node.new ≡ unrolled_loop (tree node.old)) }
    ensures err { OnErr result (tree node.new ≡ tree node.old) }
{
    let Node::Loop { loopee, quant, .. } = node else {
        unreachable!()
    };
    let mut parts = required_copies(alloc, loopee, quant.min)?;
    // The capacity suffices for the loop, so nothing fails from here on.
    *quant = further_iterations(quant);
    if quant.max != Some(0) {
        parts.push(mem::replace(node, Node::Empty))?;
    }
    *node = Node::Cat(parts);
    Ok(())
}

/// Returns the budget that remains after a copy of the node is charged: one for each node, and one more for each byte
/// of a `ByteSequence`. It is `None` if the budget is too small, the nesting is deeper than `nesting`, or the node
/// contains a loop or a `StringSet`.
///
/// The budget is charged from the root down, so at most one node more than the budget is looked at.
#[cycle(remaining_budget)]
fn remaining_budget(node: &Node, nesting: usize, budget: usize) -> Option<usize>
    ensures { result ≡ remaining_budget nesting budget (tree node.now) }
{
    let inside = nesting.checked_sub(1)?;
    let left = budget.checked_sub(1)?;
    match node {
        Node::Cat(parts) => remaining_budget_of_parts(parts, inside, left),
        Node::Alt(first, second) => remaining_budget(
            second,
            inside,
            remaining_budget(first, inside, left)?,
        ),
        Node::CaptureGroup { contents, .. } | Node::LookaroundAssertion { contents, .. } => {
            remaining_budget(contents, inside, left)
        }
        Node::ByteSequence(bytes) => left.checked_sub(bytes.len()),
        Node::Loop { .. } | Node::Loop1CharBody { .. } | Node::StringSet { .. } => None,
        _ => Some(left),
    }
}

/// Returns the budget that remains after copies of all parts are charged.
#[cycle(remaining_budget)]
fn remaining_budget_of_parts(parts: &[Node], nesting: usize, budget: usize) -> Option<usize>
    ensures { result ≡ remaining_budget_of_parts nesting budget (trees parts.now) }
{
    let mut left = budget;
    for part in parts {
        left = remaining_budget(part, nesting, left)?;
    }
    Some(left)
}
