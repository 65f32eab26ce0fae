//! The encoding of a tree, each node before its children.
ghost use Rattle.std.specs.Prelude.{◌≡◌, ◌++◌, IfOk, OnOk};
ghost use Rattle.regress_tree.specs.Tree.{Tree, tree, trees};
ghost use Rattle.regress_encoding.specs.Encoding as words_of;
ghost use Rattle.regress_encoding.specs.Decoded.{decode};

use super::parts::push_node;
use regress_tree::ir::Node;
use regress_tree::ir::held::body;
use std::alloc::{AllocError, Global};

/// Returns the encoding of a tree as 32-bit words: each node before its children, as the number of its kind and then
/// its fields in order. `specs/Encoding.antt` defines it for each kind. Two trees with the same encoding are equal.
///
/// # Errors
/// Returns [`AllocError`] if an allocation fails.
///
/// # Complexity
/// Linear in the size of the tree. The recursion is as deep as nodes are nested, where right sides of alternatives and
/// bodies do not count.
pub fn encode(alloc: Global, node: &Node) -> Result<Vec<u32>, AllocError>
    ensures { IfOk result (λ words. words.items ≡ words_of.encode (tree node.now)) }
{
    let mut words = Vec::new(alloc);
    push_tree(node, &mut words)?;
    Ok(words)
}

/// States the theorem that decoding the encoding of a tree yields the tree, so no two trees have the same encoding. The
/// function does nothing; a function whose proof needs the theorem calls it.
pub fn encoding_determines_the_tree()
    ensures { (t : Tree) → decode (words_of.encode t) ≡ t }
{}

// A loop follows the right sides of alternatives and single bodies: an alternation nests as deep as it has
// alternatives.
#[cycle(push)]
fn push_tree(node: &Node, words: &mut Vec<u32>) -> Result<(), AllocError>
    ensures { OnOk result (words.new.items ≡ words.old.items ++ words_of.encode (tree node.now)) }
{
    let mut node = node;
    loop {
        push_node(node, words)?;
        match node {
            Node::Cat(parts) => return push_trees(parts, words),
            Node::Alt(left, right) => {
                push_tree(left, words)?;
                node = right;
            }
            _ => {
                let Some(body) = body(node) else {
                    return Ok(());
                };
                node = body;
            }
        }
    }
}

#[cycle(push)]
fn push_trees(parts: &[Node], words: &mut Vec<u32>) -> Result<(), AllocError>
    ensures { OnOk result (words.new.items ≡ words.old.items ++ words_of.encode_list (trees parts.now)) }
{
    for part in parts {
        push_tree(part, words)?;
    }
    Ok(())
}
