//! The tests of the parts of a table, each for one error of [`TablesError`].
ghost use Rattle.std.specs.Prelude.{◌≡◌, ◌≢◌, ℕ, ◌+◌, ◌<◌, ◌≤◌, ◌↔◌, ◌⊎◌, true, false, length, slice_index, IsTrue, IfOk, IfErr, MatchResult, MatchBool, All, alloc_error};
ghost use Rattle.std.specs.List.{list_all};
ghost use Rattle.regress_base.specs.Intervals.{is_member};
ghost use Rattle.regress_base.specs.Classes.{word_characters};
ghost use Rattle.regress_unicode.specs.declared.tables_error.TablesError.TheVariants.{RangeOrder, TargetOutOfRange, NotIdempotent, ClassTooLarge, Memory};
ghost use Rattle.regress_unicode.specs.FoldEntries.{mapped as mapped_of};
ghost use Rattle.regress_unicode.specs.ValidEntries.{is_in_order, are_targets_in_range};
ghost use Rattle.regress_unicode.specs.Moves.{codes, targets as targets_of, count_of, HasNoFour};
ghost use Rattle.regress_base.specs.Table.{IsIdempotent, is_string, HasWordAscii, HasCanonicalSets};
ghost use Rattle.regress_unicode.specs.Parts.{sets_of};

use super::mapping::mapped;
use super::{FoldRange, TablesError, Which};
use regress_base::codepointset::CodePointSet;
use regress_base::sets::{are_code_points, set_is_canonical};
use std::alloc::{AllocError, Global};

/// Rejects entries that do not ascend, or that have a code point in common.
pub(super) fn check_order(which: Which, mappings: &[FoldRange]) -> Result<(), TablesError>
    ensures { MatchResult result (λ _. IsTrue (is_in_order mappings.now))
        (λ e. (e ≡ RangeOrder which) × (is_in_order mappings.now ≡ false)) }
{
    let mut low = 0;
    for mapping in mappings {
        if mapping.first() < low {
            return Err(TablesError::RangeOrder(which));
        }
        low = mapping.last() + 1;
    }
    Ok(())
}

/// Rejects an entry whose first or last code point is mapped to a number that is no code point.
pub(super) fn check_targets(which: Which, mappings: &[FoldRange]) -> Result<(), TablesError>
    ensures { MatchResult result (λ _. IsTrue (are_targets_in_range mappings.now))
        (λ e. (e ≡ TargetOutOfRange which) × (are_targets_in_range mappings.now ≡ false)) }
{
    if targets_are_in_range(mappings) {
        Ok(())
    } else {
        Err(TablesError::TargetOutOfRange(which))
    }
}

fn targets_are_in_range(mappings: &[FoldRange]) -> bool
    ensures { result ≡ are_targets_in_range mappings.now }
{
    mappings.iter().all(|mapping| mapping.is_target_in_range())
}

/// Returns what the code points of the entries are mapped to, in order, without those that are mapped to themselves.
/// Takes one binary search for each code point.
pub(super) fn collect_mapped(alloc: Global, mappings: &[FoldRange]) -> Result<Vec<u32>, AllocError>
    requires in_order { IsTrue (is_in_order mappings.now) }
    requires in_range { IsTrue (are_targets_in_range mappings.now) }
    ensures { IfOk result (λ targets. targets.items ≡ targets_of mappings.now) }
{
    mappings
        .iter()
        .flat_map(|mapping| mapping.first()..mapping.last() + 1)
        .filter(|c| mapped(mappings, *c) != *c)
        .map(|c| mapped(mappings, c))
        .collect(alloc)
}

/// Rejects a mapping that is not idempotent: one of `targets` is mapped to another code point. Takes one binary search
/// for each.
pub(super) fn check_idempotent(
    which: Which,
    mappings: &[FoldRange],
    targets: &[u32],
) -> Result<(), TablesError>
    requires in_order { IsTrue (is_in_order mappings.now) }
    requires in_range { IsTrue (are_targets_in_range mappings.now) }
    requires targets { targets.now ≡ targets_of mappings.now }
    ensures { MatchResult result (λ _. IsIdempotent (mapped_of mappings.now))
        (λ e. (e ≡ NotIdempotent which) × ¬ IsIdempotent (mapped_of mappings.now)) }
{
    if are_own_targets(mappings, targets) {
        Ok(())
    } else {
        Err(TablesError::NotIdempotent(which))
    }
}

fn are_own_targets(mappings: &[FoldRange], targets: &[u32]) -> bool
    requires in_order { IsTrue (is_in_order mappings.now) }
    requires in_range { IsTrue (are_targets_in_range mappings.now) }
    ensures { IsTrue result ↔ All (λ c. mapped_of mappings.now c ≡ c) targets.now }
{
    targets.iter().all(|c| mapped(mappings, *c) == *c)
}

/// Rejects `targets` in which a number occurs four times, since with that number itself five code points have the same
/// canonical form. Sorts them.
pub(super) fn check_classes(which: Which, mut targets: Vec<u32>) -> Result<(), TablesError>
    ensures ok { IfOk result (λ _. (d : ℕ) → count_of d targets.items ≤ 3) }
    ensures err { IfErr result (λ e. (e ≡ Memory alloc_error)
        ⊎ (e ≡ ClassTooLarge which) × (d : ℕ) × (4 ≤ count_of d targets.items)) }
{
    targets.sort()?;
    if occurs_four_times(&targets) {
        Err(TablesError::ClassTooLarge(which))
    } else {
        Ok(())
    }
}

/// Returns whether a number occurs four times in a sorted list.
fn occurs_four_times(sorted: &[u32]) -> bool
    ensures some { IsTrue result → (i : ℕ) × (i + 3 < length sorted.now)
        × (slice_index sorted.now i ≡ slice_index sorted.now (i + 3)) }
    ensures none { result ≡ false → HasNoFour sorted.now }
{
    for i in 3..sorted.len() {
        if sorted[i - 3] == sorted[i] {
            return true;
        }
    }
    false
}

/// Returns whether the ASCII members of both sets are letters, digits and the low line.
pub(super) fn have_word_ascii(id_start: &CodePointSet, id_continue: &CodePointSet) -> bool
    ensures { IsTrue result ↔ HasWordAscii id_start.now × HasWordAscii id_continue.now }
{
    has_word_ascii(id_start) && has_word_ascii(id_continue)
}

fn has_word_ascii(set: &CodePointSet) -> bool
    ensures { IsTrue result ↔ HasWordAscii set.now }
{
    for c in 0..0x80 {
        if set.contains(c) && !is_word_character(c) {
            return false;
        }
    }
    true
}

#[tactic(auto, unfolding(regress_base::specs::Intervals::is_member, regress_base::specs::Intervals::is_within))]
fn is_word_character(c: u32) -> bool
    ensures { result ≡ is_member word_characters c }
{
    matches!(c, 0x30..=0x39 | 0x41..=0x5A | 0x5F | 0x61..=0x7A)
}

/// Returns whether every string of every entry is nonempty and has only code points.
pub(super) fn have_strings(entries: &[(String, Vec<Vec<u32>>)]) -> bool
    ensures { result ≡ list_all (λ entry. list_all (λ string. is_string string.items) entry.1.items) entries.now }
{
    entries.iter().all(|(_, strings)| are_strings(strings))
}

fn are_strings(strings: &[Vec<u32>]) -> bool
    ensures { result ≡ list_all (λ string. is_string string.items) strings.now }
{
    strings.iter().all(|string| is_string(string))
}

fn is_string(string: &[u32]) -> bool
    ensures { result ≡ is_string string.now }
{
    !string.is_empty() && are_code_points(string)
}

/// States that the set of every entry is canonical, as [`set_is_canonical`] states it of one set.
pub(super) fn sets_are_canonical(entries: &[(String, CodePointSet)])
    ensures { HasCanonicalSets (sets_of entries.now) }
{
    for (_, set) in entries {
        set_is_canonical(set);
    }
}
