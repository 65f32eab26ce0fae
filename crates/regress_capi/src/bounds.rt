//! Bounds on the number of nodes of a tree.
ghost use Rattle.std.specs.Prelude.{chars};
ghost use Rattle.regress_capi.specs.BoundResults.{BoundResult};
ghost use Rattle.regress_capi.specs.Request.{front_setting, IsRequest, IsTextRequest};

use super::request::{front_flags, is_request, read_points};
use super::results::{BAD_INPUT, MEMORY, OK};
use regress_front::parse::node_bound;
use std::alloc::Global;

/// Writes an upper bound on the number of nodes of the tree of a pattern in code points, at most `usize::MAX`, which is
/// no bound. Returns the status.
///
/// # Errors
/// The status is 4 if the arguments are invalid.
pub fn write_node_bound(pattern: &[u32], bits: u32, bound: &mut usize) -> u32
    ensures status { BoundResult (IsRequest pattern.now bits 0) (front_setting bits).flags pattern.now result bound.new }
{
    *bound = 0;
    if !is_request(pattern, bits, 0) {
        return BAD_INPUT;
    }
    *bound = node_bound(pattern, front_flags(bits));
    OK
}

/// Writes the same bound for a pattern in UTF-8. Returns the status.
///
/// # Errors
/// The status is 2 if an allocation failed, and 4 if the arguments are invalid or the pattern is not UTF-8.
pub fn write_node_bound_of_text(alloc: Global, pattern: &[u8], bits: u32, bound: &mut usize) -> u32
    ensures status { BoundResult (IsTextRequest pattern.now bits 0) (front_setting bits).flags (chars pattern.now) result bound.new }
{
    *bound = 0;
    match read_points(alloc, pattern, bits, 0) {
        Ok(Some(points)) => {
            *bound = node_bound(&points, front_flags(bits));
            OK
        }
        Ok(None) => BAD_INPUT,
        Err(_) => MEMORY,
    }
}
