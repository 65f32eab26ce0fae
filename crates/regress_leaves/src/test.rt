//! Leaves of a program.
ghost use Rattle.regress_tree.specs.Tree.{tree};
ghost use Rattle.regress_leaves.specs.Starts.{IsStart, IsStart-prop};

use crate::start::Start;
use regress_tree::ir::Node;

/// A leaf with at most one outcome.
#[derive(Drop)]
pub struct Test {
    /// The leaf.
    pub node: Node,
    /// How a match of it begins.
    pub start: Start,
    ghost begins: { IsStart start (tree node) } by { IsStart-prop start (tree node) },
}
