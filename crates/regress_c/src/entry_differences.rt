//! The functions that C calls for the differences of a pattern. include/regress.h documents them.
ghost use Rattle.std.specs.Prelude.{chars};
ghost use Rattle.regress_capi.specs.DifferencesResults.{DifferencesResult, HasDifferenceKind, IsDifferenceName, IsDifferenceText};
ghost use Rattle.regress_capi.specs.Request.{setting_by, IsDifferencesRequest};
ghost use Rattle.regress_capi.specs.TextResults.{TextResult};

use regress_capi::differing::{self, NumberedDifference};
use std::alloc::Global;

/// Writes the constructs of a pattern in UTF-8 that may match otherwise than in ECMA-262, and their number to `needed`.
///
/// # Errors
/// Returns a status: 0 for success, 2 if an allocation failed, 3 if `differences` is too small, 4 if the arguments are
/// invalid, and 5 if the pattern is rejected. `differences` is changed only with 0, `needed` is 0 unless the status is 0
/// or 3, and `kind` and `position` are 0 unless it is 5.
#[unsafe(no_mangle)]
pub extern "C" fn regress_differences_raw(
    alloc: Global,
    pattern: &[u8],
    flags: u32,
    differences: &mut [NumberedDifference],
    needed: &mut usize,
    kind: &mut u32,
    position: &mut usize,
) -> u32
    ensures status { DifferencesResult (IsDifferencesRequest pattern.now flags) (setting_by flags) (chars pattern.now)
        differences.old result needed.new kind.new position.new differences.new }
{
    let reply = differing::write_differences_of_text(alloc, pattern, flags, differences);
    *needed = reply.needed;
    *kind = reply.kind;
    *position = reply.position;
    reply.status
}

/// Writes the name of a kind of difference, in UTF-8. A zero follows if there is room.
///
/// # Errors
/// Returns a status: 0 for success, 3 if `out` is too small, and 4 if there is no such kind. `out` is changed only with
/// 0, and `needed` is 0 unless the status is 0 or 3.
#[unsafe(no_mangle)]
pub extern "C" fn regress_difference_name_raw(kind: u32, out: &mut [u8], needed: &mut usize) -> u32
    ensures status { TextResult (HasDifferenceKind kind) (IsDifferenceName kind) out.old result needed.new out.new }
{
    differing::write_difference_name(kind, out, needed)
}

/// Writes the text of a kind of difference, in UTF-8. A zero follows if there is room.
///
/// # Errors
/// As `regress_difference_name_raw`.
#[unsafe(no_mangle)]
pub extern "C" fn regress_difference_text_raw(kind: u32, out: &mut [u8], needed: &mut usize) -> u32
    ensures status { TextResult (HasDifferenceKind kind) (IsDifferenceText kind) out.old result needed.new out.new }
{
    differing::write_difference_text(kind, out, needed)
}
