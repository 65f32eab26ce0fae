//! The differences of a pattern from ECMA-262, with their kinds as numbers.
ghost use Rattle.std.specs.Prelude.{◌≡◌, ◌≤◌, All, IfOk, MatchOption, chars, map, IfErr};
ghost use Rattle.regress_front.specs.Intervals.{code_point_max};
ghost use Rattle.regress_front.specs.Meaning.{setting_of};
ghost use Rattle.regress_front.specs.Settled.{IsFaultOf};
ghost use Rattle.regress_differences.specs.Kinds.{number_of};
ghost use Rattle.regress_capi.specs.DifferencesResults.{AreDifferences, AreNumbered, DifferencesResult, HasDifferenceKind, IsDifferenceName, IsDifferenceText, numbered};
ghost use Rattle.regress_capi.specs.Request.{setting_by, IsDifferencesRequest};
ghost use Rattle.regress_capi.specs.TextResults.{TextResult};

use super::buffer::copy_to;
use super::reply::Reply;
use super::request::{is_regress, make_tables, parse_flags, read_points};
use super::results::{BAD_INPUT, MEMORY};
use super::texts::give_terminated;
use regress_differences::{Difference, DifferenceKind, differences};
use regress_front::parse::PlacedFault;
use regress_front::types::Flags;
use regress_front::unicode::Tables;
use std::alloc::{AllocError, Global};

/// A part of a pattern that matches otherwise than in ECMA-262.
#[repr(C)]
#[derive(Clone, Copy)]
pub struct NumberedDifference {
    /// The number of its kind.
    pub kind: u32,
    /// The index of its first code point in the pattern.
    pub start: usize,
    /// The index after its last code point.
    pub end: usize,
}

/// Writes the differences of a pattern in UTF-8, in the dialect `Regress`. Returns their number, or the kind and the
/// position of its syntax error.
///
/// # Errors
/// The status is 2 if an allocation failed, 3 if `buffer` is too small, 4 if the arguments are invalid, and 5 if the
/// pattern is rejected.
pub fn write_differences_of_text(
    alloc: Global,
    pattern: &[u8],
    bits: u32,
    buffer: &mut [NumberedDifference],
) -> Reply
    ensures status { DifferencesResult (IsDifferencesRequest pattern.now bits) (setting_by bits) (chars pattern.now)
        buffer.old result.status result.needed result.kind result.position buffer.new }
{
    if !is_regress(bits) {
        return Reply::bare(BAD_INPUT);
    }
    match read_points(alloc, pattern, bits, 0) {
        Ok(Some(points)) => write_differences(alloc, &points, bits, buffer),
        Ok(None) => Reply::bare(BAD_INPUT),
        Err(_) => Reply::bare(MEMORY),
    }
}

/// Writes the differences of a pattern. Returns their number, or the kind and the position of its syntax error.
fn write_differences(
    alloc: Global,
    pattern: &[u32],
    bits: u32,
    buffer: &mut [NumberedDifference],
) -> Reply
    requires { All (λ c. c ≤ code_point_max) pattern.now }
    ensures status { DifferencesResult (Unit {0}) (setting_by bits) pattern.now
        buffer.old result.status result.needed result.kind result.position buffer.new }
{
    match numbered_differences(alloc, pattern, bits) {
        Ok(items) => {
            let fits = copy_to(&items, buffer);
            Reply::of_items(fits, items.len())
        }
        Err(fault) => Reply::of_fault(&fault),
    }
}

/// Writes the name of a kind of difference. Returns the status.
///
/// # Errors
/// The status is 3 if `out` is too small, and 4 if there is no such kind.
pub fn write_difference_name(number: u32, out: &mut [u8], needed: &mut usize) -> u32
    ensures status { TextResult (HasDifferenceKind number) (IsDifferenceName number) out.old result needed.new out.new }
{
    *needed = 0;
    match kind_with_number(number) {
        Some(kind) => give_terminated(kind.name(), out, needed),
        None => BAD_INPUT,
    }
}

/// Writes the text of a kind of difference. Returns the status.
///
/// # Errors
/// As `write_difference_name`.
pub fn write_difference_text(number: u32, out: &mut [u8], needed: &mut usize) -> u32
    ensures status { TextResult (HasDifferenceKind number) (IsDifferenceText number) out.old result needed.new out.new }
{
    *needed = 0;
    match kind_with_number(number) {
        Some(kind) => give_terminated(kind.text(), out, needed),
        None => BAD_INPUT,
    }
}

fn numbered_differences(
    alloc: Global,
    pattern: &[u32],
    bits: u32,
) -> Result<Vec<NumberedDifference>, PlacedFault>
    requires { All (λ c. c ≤ code_point_max) pattern.now }
    ensures listed { IfOk result (λ items. AreNumbered (setting_by bits) pattern.now items.items) }
    ensures rejected { IfErr result (IsFaultOf (setting_by bits) pattern.now) }
{
    let tables = make_tables(alloc, bits)?;
    let found = find_differences(alloc, pattern, parse_flags(bits), &tables)?;
    Ok(number_all(alloc, &found)?)
}

/// Returns the differences of a pattern.
fn find_differences(
    alloc: Global,
    pattern: &[u32],
    flags: Flags,
    tables: &Tables,
) -> Result<Vec<Difference>, PlacedFault>
    requires { All (λ c. c ≤ code_point_max) pattern.now }
    ensures listed { IfOk result (λ found. AreDifferences (setting_of flags tables.now) pattern.now found.items) }
    ensures rejected { IfErr result (IsFaultOf (setting_of flags tables.now) pattern.now) }
{
    differences(alloc, pattern, flags, tables)
}

/// Returns the differences with their kinds as numbers.
fn number_all(alloc: Global, found: &[Difference]) -> Result<Vec<NumberedDifference>, AllocError>
    ensures { IfOk result (λ items. items.items ≡ map numbered found.now) }
{
    found
        .iter()
        .map(|difference| numbered(*difference))
        .collect(alloc)
}

fn numbered(difference: Difference) -> NumberedDifference
    ensures { result ≡ numbered difference }
{
    NumberedDifference {
        kind: difference.kind.number(),
        start: difference.span.start,
        end: difference.span.end,
    }
}

/// Returns the kind with a number, if there is one.
fn kind_with_number(number: u32) -> Option<DifferenceKind>
    ensures { MatchOption result (HasDifferenceKind number → ⊥) (λ kind. HasDifferenceKind number × (number ≡ number_of kind)) }
{
    match number {
        1 => Some(DifferenceKind::CaseClosure),
        2 => Some(DifferenceKind::StringSet),
        3 => Some(DifferenceKind::SameName),
        4 => Some(DifferenceKind::Grammar),
        _ => None,
    }
}
