//! The sides of alternations.
ghost use Rattle.std.specs.Prelude.{◌≡◌, ◌<◌, false, IfSome, MatchOption};
ghost use Rattle.regress_tree.specs.Tree.{tree, alt};
ghost use Rattle.regress_tree.specs.Spine.{is_alt};
ghost use Rattle.regress_tree.specs.declared.ir.node.Node.{size-Node};

use regress_tree::ir::Node;

/// Returns both sides of an `Alt`, or `None` for another node.
pub(crate) fn sides(node: &Node) -> Option<(&Node, &Node)>
    ensures sides { MatchOption result (is_alt (tree node.now) ≡ false)
        (λ sides. tree node.now ≡ alt (tree sides.0.now) (tree sides.1.now)) }
    ensures smaller { IfSome result (λ sides. (size-Node sides.0.now < size-Node node.now) × (size-Node sides.1.now < size-Node node.now)) }
{
    match node {
        Node::Alt(left, right) => Some((left, right)),
        _ => None,
    }
}
