//! The nodes of a tree as a list.
ghost use Rattle.std.specs.Prelude.{◌≡◌, ◌++◌, IfOk, OnOk};
ghost use Rattle.regress_tree.specs.Tree.{tree, trees};
ghost use Rattle.regress_spans.specs.Paired.{postorder};
ghost use Rattle.regress_spans.specs.Children.{body_of, children, parts_of, trees_at};

use regress_tree::ir::Node;
use regress_tree::ir::held::body;
use std::alloc::{AllocError, Global};

/// Returns the nodes of a tree in postorder: the children of a node from left to right, and then the node.
///
/// # Errors
/// Returns [`AllocError`] if an allocation fails.
///
/// # Complexity
/// Linear in the number of nodes. There is no recursion.
pub fn nodes_in_postorder<'a>(alloc: Global, root: &'a Node) -> Result<Vec<&'a Node>, AllocError>
    ensures { IfOk result (λ nodes. trees_at nodes.items ≡ postorder (tree root.now)) }
{
    let mut nodes = Vec::new(alloc);
    let mut waiting = Vec::new(alloc);
    waiting.push(root)?;
    while let Some(node) = waiting.pop() {
        nodes.push(node)?;
        push_children(node, &mut waiting)?;
    }
    nodes.reverse();
    Ok(nodes)
}

/// Appends the children of a node, from left to right.
fn push_children<'a>(node: &'a Node, nodes: &mut Vec<&'a Node>) -> Result<(), AllocError>
    ensures { OnOk result (trees_at nodes.new.items ≡ trees_at nodes.old.items ++ children (tree node.now)) }
{
    match node {
        Node::Cat(parts) => push_all(parts, nodes),
        Node::Alt(left, right) => {
            nodes.push(left)?;
            nodes.push(right)?;
            Ok(())
        }
        _ => push_body(node, nodes),
    }
}

/// Appends the nodes of a list.
fn push_all<'a>(parts: &'a [Node], nodes: &mut Vec<&'a Node>) -> Result<(), AllocError>
    ensures { OnOk result (trees_at nodes.new.items ≡ trees_at nodes.old.items ++ parts_of (trees parts.now)) }
{
    for part in parts {
        nodes.push(part)?;
    }
    Ok(())
}

/// Appends the body of a node, if it has one.
fn push_body<'a>(node: &'a Node, nodes: &mut Vec<&'a Node>) -> Result<(), AllocError>
    ensures { OnOk result (trees_at nodes.new.items ≡ trees_at nodes.old.items ++ body_of (tree node.now)) }
{
    if let Some(body) = body(node) {
        nodes.push(body)?;
    }
    Ok(())
}
