//! How many consecutive choices a run skips.
ghost use Rattle.std.specs.Prelude.{◌≡◌, ◌≤◌, ◌<◌, ◌+◌, ◌-◌, ℕ, IfOk, IfSome, IsSomeAnd, List, Some, false, get_or, length, slice_get};
ghost use Rattle.regress_base.specs.ByteBitmap.{contains};
ghost use Rattle.regress_code.specs.Rows.{IsChoiceOf};
ghost use Rattle.regress_code.specs.Skips.{AreCounts, AreSkips, IsPreferred, counts_in};

use crate::choices::preferred_at;
use crate::next_bytes::NextBytes;
use crate::rows::Row;
use regress_base::bytesearch::ByteBitmap;
use regress_program::instruction::Instruction;
use std::alloc::{AllocError, Global};

/// The number of consecutive choices, those tried last, that are tested one by one.
const TESTED: usize = 4;

/// How many choices a run skips at once.
#[derive(Drop)]
pub enum Skip {
    /// It is not known: the instruction is no choice, or one of the last of consecutive choices.
    Unknown,
    /// For each byte next to the position, a number of choices: from the instruction on downwards, each of them is
    /// between an alternative whose next bytes exclude the byte, and the instruction before it.
    Counts(Vec<u8>),
    /// The choice is in the row with this index.
    Row(usize),
}

impl Skip {
    ghost use Rattle.std.specs.Prelude.{◌≡◌};
    ghost use Rattle.regress_code.specs.Skips.{counts_in};

    /// Returns the counts, or none if there are none.
    #[inline(always)]
    pub fn counts(&self) -> &[u8]
        ensures { result.now ≡ counts_in self.now }
    {
        match self {
            Skip::Counts(counts) => counts,
            _ => &[],
        }
    }
}

/// Returns the skips of the instructions of a routine, by their next bytes. The choices of the rows have no counts.
///
/// # Errors
/// Returns [`AllocError`] if an allocation fails.
pub fn skips_of(
    alloc: Global,
    next_bytes: &[NextBytes],
    rows: &[Row],
    instructions: &[Instruction],
) -> Result<Vec<Skip>, AllocError>
    ensures { IfOk result (λ skips. AreSkips skips.items next_bytes.now instructions.now) }
{
    let mut skips = Vec::with_capacity(alloc, instructions.len())?;
    let mut choices = 0usize;
    for pc in 0..instructions.len() {
        let row = row_with(rows, pc);
        let preferred = preferred_next_bytes(next_bytes, instructions, pc);
        choices = if row.is_none() && preferred.is_some() {
            choices.saturating_add(1)
        } else {
            0
        };
        let skip = skip_of(alloc, row, preferred, choices, last_counts(&skips))?;
        skips.push(skip)?;
    }
    Ok(skips)
}

/// Returns the index of the row that has the choice with the index `pc`, or `None` if there is none. The rows are in
/// ascending order.
fn row_with(rows: &[Row], pc: usize) -> Option<usize>
    ensures { IfSome result (λ i. IsSomeAnd (slice_get rows.now i) (λ row. IsChoiceOf row pc)) }
{
    let row = rows.partition_point(|row| row.lowest <= pc).checked_sub(1)?;
    if rows[row].contains(pc) {
        Some(row)
    } else {
        None
    }
}

/// Returns the skip of an instruction, by the row that has it, the next bytes of its preferred alternative, the number of
/// choices up to it that are in no row, and the counts of the instruction before it.
///
/// # Errors
/// Returns [`AllocError`] if an allocation fails.
fn skip_of(
    alloc: Global,
    row: Option<usize>,
    preferred: Option<ByteBitmap>,
    choices: usize,
    before: &[u8],
) -> Result<Skip, AllocError>
    ensures { IfOk result (λ skip. (next_bytes : List NextBytes) (instructions : List Instruction) (pc : ℕ) →
        IfSome preferred (IsPreferred next_bytes pc (slice_get instructions pc)) →
        AreCounts next_bytes instructions (pc - 1) before.now → AreCounts next_bytes instructions pc (counts_in skip)) }
{
    if let Some(row) = row {
        return Ok(Skip::Row(row));
    }
    match preferred {
        Some(set) if choices > TESTED => {
            let counts = counts_of(alloc, &set, before)?;
            Ok(Skip::Counts(counts))
        }
        _ => Ok(Skip::Unknown),
    }
}

/// Returns the next bytes of the preferred alternative, if they are known, and the instruction with the index `pc` is a
/// choice between it and the instruction before.
fn preferred_next_bytes(
    next_bytes: &[NextBytes],
    instructions: &[Instruction],
    pc: usize,
) -> Option<ByteBitmap>
    ensures { IfSome result (IsPreferred next_bytes.now pc (slice_get instructions.now pc)) }
{
    let first = preferred_at(instructions, pc)?;
    match *next_bytes.get(first)? {
        NextBytes::Bytes(set) => Some(set),
        NextBytes::Any => None,
    }
}

/// Returns the counts of the last of the instructions that have these skips, or none if there is none.
fn last_counts(skips: &[Skip]) -> &[u8]
    ensures { (next_bytes : List NextBytes) (instructions : List Instruction) → AreSkips skips.now next_bytes instructions →
        AreCounts next_bytes instructions (length skips.now - 1) result.now }
{
    match skips.last() {
        Some(skip) => skip.counts(),
        None => &[],
    }
}

/// Returns the counts of a choice, by the next bytes of its preferred alternative and the counts of the
/// instruction before it. The byte 255 has none: it does not occur in UTF-8.
///
/// # Errors
/// Returns [`AllocError`] if an allocation fails.
fn counts_of(alloc: Global, set: &ByteBitmap, before: &[u8]) -> Result<Vec<u8>, AllocError>
    ensures { IfOk result (λ counts. (b n : ℕ) → slice_get counts.items b ≡ Some n → 0 < n →
        (contains set.now b ≡ false) × (n ≤ get_or before.now b 0 + 1)) }
{
    let mut counts = Vec::with_capacity(alloc, 255)?;
    for b in 0..255u8 {
        counts.push(next_count(set, before, b))?;
    }
    Ok(counts)
}

/// Returns the count of a choice for a byte: 0, or one more than that of the instruction before it.
fn next_count(set: &ByteBitmap, before: &[u8], b: u8) -> u8
    ensures { 0 < result → (contains set.now b ≡ false) × (result ≤ get_or before.now b 0 + 1) }
{
    if set.contains(b) {
        0
    } else {
        count_at(before, b).saturating_add(1)
    }
}

/// Returns the count for a byte, or 0 if there is none.
#[inline(always)]
pub fn count_at(counts: &[u8], b: u8) -> u8
    ensures { result ≡ get_or counts.now b 0 }
{
    let i = usize::from(b);
    if i < counts.len() { counts[i] } else { 0 }
}
