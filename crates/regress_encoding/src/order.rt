//! The numbers of a tree's nodes in postorder, in the order of its encoding.
ghost use Rattle.std.specs.Prelude.{◌≡◌, ◌+◌, ◌++◌, ◌<◌, ◌≤◌, All, IfOk, OnOk, length, reverse};
ghost use Rattle.regress_tree.specs.Tree.{tree, trees};
ghost use Rattle.regress_tree.specs.Visits.{nodes, nodes_in_list};
ghost use Rattle.regress_encoding.specs.Order.{numbers_in_list, numbers_of};
ghost use Rattle.regress_encoding.specs.Closed.{closed};

use regress_tree::ir::Node;
use regress_tree::ir::held::body;
use std::alloc::{AllocError, Global};

/// Returns the 0-based number of each node in postorder, in the order in which [`encode`](crate::encode) encodes the
/// nodes.
///
/// It finds for each node what is listed in postorder, as the spans of a parsed pattern are.
///
/// # Errors
/// Returns [`AllocError`] if an allocation fails.
///
/// # Complexity
/// As for [`encode`](crate::encode).
pub fn postorder_numbers(alloc: Global, node: &Node) -> Result<Vec<usize>, AllocError>
    ensures { IfOk result (λ numbers. numbers.items ≡ numbers_of 0 (tree node.now)) }
{
    let mut numbers = Vec::new(alloc);
    let mut next = 0;
    push_tree(alloc, node, &mut next, &mut numbers)?;
    Ok(numbers)
}

/// Appends the numbers of the nodes of a tree, of which `next` is the first.
#[cycle(push)]
fn push_tree(
    alloc: Global,
    node: &Node,
    next: &mut usize,
    numbers: &mut Vec<usize>,
) -> Result<(), AllocError>
    requires { next.old ≤ length numbers.old.items }
    ensures numbers { OnOk result (numbers.new.items ≡ numbers.old.items ++ numbers_of next.old (tree node.now)) }
    ensures next { OnOk result (next.new ≡ next.old + nodes (tree node.now)) }
{
    let indices = push_open(alloc, node, next, numbers)?;
    close(indices, next, numbers);
    Ok(())
}

/// Appends the numbers of the nodes of a tree, but those down its right sides and bodies. Returns the indices of these,
/// outermost first.
// A loop follows the right sides of alternatives and single bodies: an alternation nests as deep as it has
// alternatives.
#[cycle(push)]
fn push_open(
    alloc: Global,
    node: &Node,
    next: &mut usize,
    numbers: &mut Vec<usize>,
) -> Result<Vec<usize>, AllocError>
    requires { next.old ≤ length numbers.old.items }
    ensures numbers { IfOk result (λ indices. closed numbers.new.items (reverse indices.items) next.new
        ≡ numbers.old.items ++ numbers_of next.old (tree node.now)) }
    ensures next { IfOk result (λ indices. next.new + length indices.items ≡ next.old + nodes (tree node.now)) }
    ensures within { IfOk result (λ indices. All (λ i. i < length numbers.new.items) indices.items) }
    ensures few { IfOk result (λ indices. next.new + length indices.items ≤ length numbers.new.items) }
{
    let mut indices = Vec::new(alloc);
    let mut node = node;
    loop {
        indices.push(numbers.len())?;
        numbers.push(0)?;
        match node {
            Node::Cat(parts) => {
                push_trees(alloc, parts, next, numbers)?;
                return Ok(indices);
            }
            Node::Alt(left, right) => {
                push_tree(alloc, left, next, numbers)?;
                node = right;
            }
            _ => {
                let Some(body) = body(node) else {
                    return Ok(indices);
                };
                node = body;
            }
        }
    }
}

#[cycle(push)]
fn push_trees(
    alloc: Global,
    parts: &[Node],
    next: &mut usize,
    numbers: &mut Vec<usize>,
) -> Result<(), AllocError>
    requires { next.old ≤ length numbers.old.items }
    ensures numbers { OnOk result (numbers.new.items ≡ numbers.old.items ++ numbers_in_list next.old (trees parts.now)) }
    ensures next { OnOk result (next.new ≡ next.old + nodes_in_list (trees parts.now)) }
{
    for part in parts {
        push_tree(alloc, part, next, numbers)?;
    }
    Ok(())
}

/// Sets the numbers at these indices, the last one first, to consecutive numbers.
fn close(mut indices: Vec<usize>, next: &mut usize, numbers: &mut Vec<usize>)
    requires within { All (λ i. i < length numbers.old.items) indices.items }
    requires few { next.old + length indices.items ≤ length numbers.old.items }
    ensures numbers { numbers.new.items ≡ closed numbers.old.items (reverse indices.items) next.old }
    ensures next { next.new ≡ next.old + length indices.items }
{
    while let Some(index) = indices.pop() {
        numbers[index] = *next;
        *next += 1;
    }
}
