//! The rewrites of the Rust crate, as implementations of [`Rewrite`] for callers of `run_pass`. `optimize` does not call
//! them.

use crate::flatten::flatten;
use crate::form_literal_bytes::form_literal_bytes;
use crate::has_group::has_group;
use crate::promote_1char_loops::promote_1char_loops;
use crate::propagate_early_fails::{fails_by_part, propagate_early_fails};
use crate::remove_empties::remove_empties;
use crate::rewrite::Rewrite;
use crate::unroll_loops::unroll_loops;
use regress_rewrite::PassAction;
use regress_rewrite::simplify_brackets::simplify_brackets;
use regress_tree::ir::{Node, Walk};
use std::alloc::{AllocError, Global};

/// Simplification of brackets. A call looks only at the node.
#[derive(Drop)]
pub struct SimplifyBrackets {
    /// The allocator for the lists of code points.
    pub alloc: Global,
}

impl Rewrite for SimplifyBrackets {
    ghost use Rattle.std.specs.Prelude.{true};
    ghost use Rattle.regress_tree.specs.Shapes.{is_simplified_away};

    ghost removes = { is_simplified_away };

    ghost is_exact = { true };

    fn apply(&mut self, node: &mut Node, _walk: &Walk) -> Result<PassAction, AllocError> {
        simplify_brackets(self.alloc, node)
    }
}

/// Flattening of nested `Cat`s. A call looks only at the node.
#[derive(Drop)]
pub struct Flatten {
    /// The allocator for the lists of parts.
    pub alloc: Global,
}

impl Rewrite for Flatten {
    ghost use Rattle.std.specs.Prelude.{true};
    ghost use Rattle.regress_tree.specs.Shapes.{is_flattened_away};

    ghost removes = { is_flattened_away };

    ghost is_exact = { true };

    fn apply(&mut self, node: &mut Node, _walk: &Walk) -> Result<PassAction, AllocError> {
        flatten(self.alloc, node)
    }
}

/// Unrolling of loops. A call looks at no more than 257 nodes of a loop's body.
#[derive(Drop)]
pub struct UnrollLoops {
    /// The allocator for the copies of loop bodies.
    pub alloc: Global,
}

impl Rewrite for UnrollLoops {
    ghost use Rattle.std.specs.Prelude.{true};
    ghost use Rattle.regress_tree.specs.Shapes.{is_unrolled_away};

    ghost removes = { is_unrolled_away };

    ghost is_exact = { true };

    fn apply(&mut self, node: &mut Node, _walk: &Walk) -> Result<PassAction, AllocError> {
        unroll_loops(self.alloc, node)
    }
}

/// Promotion of loops over one character. A call looks only at the node.
#[derive(Drop)]
pub struct Promote1CharLoops {
    /// The allocator for the new nodes.
    pub alloc: Global,
}

impl Rewrite for Promote1CharLoops {
    ghost use Rattle.std.specs.Prelude.{true};
    ghost use Rattle.regress_tree.specs.Shapes.{is_promoted_away};

    ghost removes = { is_promoted_away };

    ghost is_exact = { true };

    fn apply(&mut self, node: &mut Node, _walk: &Walk) -> Result<PassAction, AllocError> {
        promote_1char_loops(self.alloc, node)
    }
}

/// Forming of literal bytes. A call looks only at the node and the direction.
#[derive(Drop)]
pub struct FormLiteralBytes {
    /// The allocator for the bytes.
    pub alloc: Global,
}

impl Rewrite for FormLiteralBytes {
    ghost use Rattle.std.specs.Prelude.{true};
    ghost use Rattle.regress_tree.specs.Shapes.{is_formed_away};

    ghost removes = { is_formed_away };

    ghost is_exact = { true };

    fn apply(&mut self, node: &mut Node, walk: &Walk) -> Result<PassAction, AllocError> {
        form_literal_bytes(self.alloc, node, walk)
    }
}

/// Removal of nodes that match only the empty text. A call looks only at the node.
#[derive(Drop)]
pub struct RemoveEmpties;

impl Rewrite for RemoveEmpties {
    ghost use Rattle.std.specs.Prelude.{true};
    ghost use Rattle.regress_tree.specs.Shapes.{is_emptied_away};

    ghost removes = { is_emptied_away };

    ghost is_exact = { true };

    fn apply(&mut self, node: &mut Node, _walk: &Walk) -> Result<PassAction, AllocError> {
        Ok(remove_empties(node))
    }
}

/// Propagation of early failure.
///
/// A call searches a node for capture groups only if one of its parts always fails. Each alternative that fails is
/// searched with all after it, so the time for an alternation may be quadratic in its length.
#[derive(Drop)]
pub struct PropagateEarlyFails {
    /// The allocator of the empty sets that replace failing nodes.
    pub alloc: Global,
}

impl Rewrite for PropagateEarlyFails {
    ghost use Rattle.std.specs.Prelude.{true};
    ghost use Rattle.regress_tree.specs.Shapes.{is_failed_away};

    ghost removes = { is_failed_away };

    ghost is_exact = { true };

    fn apply(&mut self, node: &mut Node, _walk: &Walk) -> Result<PassAction, AllocError> {
        if !fails_by_part(node) || has_group(node) {
            return Ok(PassAction::Keep);
        }
        Ok(propagate_early_fails(self.alloc, node))
    }
}
