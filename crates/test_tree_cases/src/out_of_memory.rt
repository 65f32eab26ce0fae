//! A caller's own rewrite, in which an allocation fails at a node.

use regress_passes::Rewrite;
use regress_rewrite::PassAction;
use regress_tree::ir::{Node, Walk};
use std::alloc::AllocError;

/// A rewrite that behaves as another one, but fails after a number of nodes as if an allocation had failed.
#[derive(Drop)]
pub(crate) struct WantsMemory<R: Rewrite> {
    pub(crate) nodes: usize,
    pub(crate) rewrite: R,
}

impl<R: Rewrite> Rewrite for WantsMemory<R> {
    ghost removes = { R.removes };

    ghost is_exact = { R.is_exact };

    fn apply(&mut self, node: &mut Node, walk: &Walk) -> Result<PassAction, AllocError> {
        if self.nodes == 0 {
            return Err(AllocError);
        }
        self.nodes -= 1;
        self.rewrite.apply(node, walk)
    }
}
