//! Removal of nodes that match only the empty text.
ghost use Rattle.std.specs.Prelude.{◌≡◌, false, IfSome, None};
ghost use Rattle.regress_tree.specs.Tree.{tree, trees};
ghost use Rattle.regress_tree.specs.NodeTests.{is_empty};
ghost use Rattle.regress_tree.specs.Shapes.{is_short};
ghost use Rattle.regress_rewrite.specs.Taken.{list_without, IsOnlyPart};

use regress_tree::ir::{Node, NodeList};

/// Takes out the node that replaces a `Cat` of fewer than two parts: its one part, or `Empty`. Returns `None`, with the
/// parts unchanged, if there are two or more.
pub fn collapse(parts: &mut NodeList) -> Option<Node>
    ensures some { IfSome result (λ node. IsOnlyPart (tree node) (trees parts.old.items)) }
    ensures none { result ≡ None → ((trees parts.new.items ≡ trees parts.old.items) × (is_short (trees parts.old.items) ≡ false)) }
{
    if parts.len() > 1 {
        return None;
    }
    Some(parts.pop().unwrap_or(Node::Empty))
}

/// Removes each part that is `Empty`. Linear in the parts.
pub fn drop_empties(parts: &mut NodeList)
    ensures { trees parts.new.items ≡ list_without is_empty (trees parts.old.items) }
{
    parts.retain(|part| !part.is_empty());
}
