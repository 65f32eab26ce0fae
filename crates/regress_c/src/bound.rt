//! The functions that C calls to bound the number of nodes of a tree.
ghost use Rattle.std.specs.Prelude.{chars};
ghost use Rattle.regress_capi.specs.BoundResults.{BoundResult};
ghost use Rattle.regress_capi.specs.Request.{front_setting, IsRequest, IsTextRequest};

use regress_capi::bounds::{write_node_bound, write_node_bound_of_text};
use std::alloc::Global;

/// Writes an upper bound on the number of nodes of the tree of a pattern in code points, at most `usize::MAX`, which is
/// no bound. It is defined for any code points, also for those of no pattern.
///
/// # Errors
/// Returns a status: 0 for success, and 4 if the arguments are invalid. `bound` is 0 unless the status is 0.
#[unsafe(no_mangle)]
pub extern "C" fn regress_front_bound_nodes(pattern: &[u32], flags: u32, bound: &mut usize) -> u32
    ensures status { BoundResult (IsRequest pattern.now flags 0) (front_setting flags).flags pattern.now result bound.new }
{
    write_node_bound(pattern, flags, bound)
}

/// As `regress_front_bound_nodes`, for a pattern in UTF-8.
///
/// # Errors
/// As `regress_front_bound_nodes`; a pattern that is not UTF-8 is an invalid argument. The status is 2 if an allocation
/// failed.
#[unsafe(no_mangle)]
pub extern "C" fn regress_front_bound_nodes_of_text(
    alloc: Global,
    pattern: &[u8],
    flags: u32,
    bound: &mut usize,
) -> u32
    ensures status { BoundResult (IsTextRequest pattern.now flags 0) (front_setting flags).flags (chars pattern.now) result bound.new }
{
    write_node_bound_of_text(alloc, pattern, flags, bound)
}
