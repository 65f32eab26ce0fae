//! Collects the leaves of a pattern.
ghost use Rattle.std.specs.Prelude.{◌≡◌, ◌++◌, ◌∷◌, [], IfOk, map};
ghost use Rattle.std.specs.Box.{boxed_slice_items};
ghost use Rattle.regress_program.specs.LeavesOf.{leaves_of, leaves_of_parts, leaves_of_strings, tree_of};
ghost use Rattle.regress_tree.specs.Tree.{leaf, string_set, tree, trees};

use crate::loops::is_never;
use regress_leaves::leaves::takes_one;
use regress_leaves::start::start_of;
use regress_leaves::test::Test;
use regress_tree::ir::Node;
use std::alloc::{AllocError, Global};
use std::boxed::BoxedSlice;

/// Returns copies of the leaves of a tree, in the order in which their instructions are emitted.
///
/// # Errors
/// Returns [`AllocError`] if an allocation fails.
pub(crate) fn leaves_of(alloc: Global, node: &Node) -> Result<Vec<Test>, AllocError>
    ensures { IfOk result (λ leaves. map tree_of leaves.items ≡ leaves_of (tree node.now)) }
{
    let mut leaves = Vec::new(alloc);
    collect(alloc, node, &mut leaves)?;
    Ok(leaves)
}

/// Adds the leaves of a node. It follows the right sides of alternatives in a loop.
///
/// # Errors
/// Returns [`AllocError`] if an allocation fails.
#[cycle(collect)]
fn collect(alloc: Global, node: &Node, leaves: &mut Vec<Test>) -> Result<(), AllocError>
    ensures { IfOk result (λ _. map tree_of leaves.new.items ≡ map tree_of leaves.old.items ++ leaves_of (tree node.now)) }
{
    let mut rest = node;
    while let Node::Alt(left, right) = rest {
        collect(alloc, left, leaves)?;
        rest = right;
    }
    collect_other(alloc, rest, leaves)
}

/// Adds the leaves of a node by its kind.
///
/// # Errors
/// Returns [`AllocError`] if an allocation fails.
#[cycle(collect)]
fn collect_other(alloc: Global, node: &Node, leaves: &mut Vec<Test>) -> Result<(), AllocError>
    ensures { IfOk result (λ _. map tree_of leaves.new.items ≡ map tree_of leaves.old.items ++ leaves_of (tree node.now)) }
{
    match node {
        Node::Empty | Node::Goal => Ok(()),
        Node::Cat(parts) => collect_parts(alloc, parts, leaves),
        Node::CaptureGroup { contents, .. } => collect(alloc, contents, leaves),
        Node::LookaroundAssertion { contents, .. } => collect(alloc, contents, leaves),
        Node::Loop { loopee, quant, .. } => {
            if is_never(*quant) {
                Ok(())
            } else {
                collect(alloc, loopee, leaves)
            }
        }
        Node::Loop1CharBody { loopee, quant } => {
            if is_never(*quant) && !takes_one(loopee) {
                Ok(())
            } else {
                collect(alloc, loopee, leaves)
            }
        }
        Node::StringSet {
            alternatives,
            icase,
        } => collect_strings(alloc, alternatives, *icase, leaves),
        Node::Alt(left, right) => {
            collect(alloc, left, leaves)?;
            collect(alloc, right, leaves)
        }
        _ => push_leaf(node.try_clone(alloc)?, leaves),
    }
}

/// Adds the leaves of the parts of a sequence, those of the last one first.
///
/// # Errors
/// Returns [`AllocError`] if an allocation fails.
#[cycle(collect)]
fn collect_parts(alloc: Global, parts: &[Node], leaves: &mut Vec<Test>) -> Result<(), AllocError>
    ensures { IfOk result (λ _. map tree_of leaves.new.items ≡ map tree_of leaves.old.items ++ leaves_of_parts (trees parts.now)) }
{
    let mut i = parts.len();
    while i > 0 {
        i -= 1;
        collect(alloc, &parts[i], leaves)?;
    }
    Ok(())
}

/// Adds each string of a set as a leaf, the last one first.
///
/// # Errors
/// Returns [`AllocError`] if an allocation fails.
fn collect_strings(
    alloc: Global,
    strings: &[BoxedSlice<u32>],
    icase: bool,
    leaves: &mut Vec<Test>,
) -> Result<(), AllocError>
    ensures { IfOk result (λ _. map tree_of leaves.new.items ≡ map tree_of leaves.old.items ++ leaves_of_strings (map boxed_slice_items strings.now) icase) }
{
    let mut i = strings.len();
    while i > 0 {
        i -= 1;
        push_leaf(one_string(alloc, &strings[i], icase)?, leaves)?;
    }
    Ok(())
}

/// Returns a set of this string.
///
/// # Errors
/// Returns [`AllocError`] if an allocation fails.
fn one_string(alloc: Global, characters: &[u32], icase: bool) -> Result<Node, AllocError>
    ensures { IfOk result (λ node. tree node ≡ leaf (string_set (characters.now ∷ []) icase)) }
{
    let mut alternatives = Vec::with_capacity(alloc, 1)?;
    alternatives.push(BoxedSlice::from_slice(alloc, characters)?)?;
    Ok(Node::StringSet {
        alternatives,
        icase,
    })
}

/// Adds a leaf.
///
/// # Errors
/// Returns [`AllocError`] if an allocation fails.
fn push_leaf(node: Node, leaves: &mut Vec<Test>) -> Result<(), AllocError>
    ensures { IfOk result (λ _. map tree_of leaves.new.items ≡ map tree_of leaves.old.items ++ tree node ∷ []) }
{
    let start = start_of(&node);
    leaves.push(Test { node, start })?;
    Ok(())
}
