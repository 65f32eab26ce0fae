//! What a rewrite does to a node.

use regress_tree::ir::Node;

/// What a rewrite did to a node.
#[derive(Debug, Drop)]
pub enum PassAction {
    /// The node is unchanged.
    Keep,
    /// The node was changed in place.
    Modified,
    /// The node is to be replaced by `Empty`.
    Remove,
    /// The node is to be replaced by this one.
    Replace(Node),
}

impl PassAction {
    ghost use Rattle.std.specs.Prelude.{◌≡◌, ◌≢◌, MatchBool};
    ghost use Rattle.regress_tree.specs.Tree.{tree};
    ghost use Rattle.regress_rewrite.specs.Law.{after};
    ghost use Rattle.regress_rewrite.specs.declared.action.PassAction.TheVariants.{Keep};

    /// Carries out an action on the node for which it was returned, and returns whether it is other than `Keep`.
    pub fn carry_out(self, node: &mut Node) -> bool
        ensures made { tree node.new ≡ after self (tree node.old) }
        ensures some { MatchBool result (self ≢ Keep) (self ≡ Keep) }
    {
        match self {
            PassAction::Keep => return false,
            PassAction::Modified => {}
            PassAction::Remove => *node = Node::Empty,
            PassAction::Replace(new) => *node = new,
        }
        true
    }
}
