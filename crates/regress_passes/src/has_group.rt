//! Tests whether a node contains a capture group.
ghost use Rattle.std.specs.Prelude.{◌≡◌, false};
ghost use Rattle.regress_tree.specs.Tree.{tree, trees};
ghost use Rattle.regress_tree.specs.Spine.{is_alt};
ghost use Rattle.regress_tree.specs.Shapes.{has_group, on_wrapper, is_group, some_node_in_list};

use regress_tree::ir::Node;
use regress_tree::ir::held::body;

/// Returns whether the node is a capture group or contains one. The search stops at the first one.
///
/// # Complexity
/// Linear in the nodes. The right sides of alternatives are traversed in a loop, so recursion is not as deep as an
/// alternation is long.
#[cycle(search)]
pub fn has_group(node: &Node) -> bool
    ensures { result ≡ has_group (tree node.now) }
{
    let mut node = node;
    while let Node::Alt(left, right) = node {
        if has_group(left) {
            return true;
        }
        node = right;
    }
    other_has_group(node)
}

/// The same for a node that is no `Alt`.
#[cycle(search)]
fn other_has_group(node: &Node) -> bool
    requires { is_alt (tree node.now) ≡ false }
    ensures { result ≡ has_group (tree node.now) }
{
    match node {
        Node::CaptureGroup { .. } => true,
        Node::Cat(parts) => some_has_group(parts),
        _ => match body(node) {
            Some(body) => has_group(body),
            None => false,
        },
    }
}

/// Returns whether one of the nodes contains a capture group.
#[cycle(search)]
fn some_has_group(nodes: &[Node]) -> bool
    ensures { result ≡ some_node_in_list (on_wrapper is_group) (trees nodes.now) }
{
    for node in nodes {
        if has_group(node) {
            return true;
        }
    }
    false
}
