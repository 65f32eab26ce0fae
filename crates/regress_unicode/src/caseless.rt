//! Characters without case.
ghost use Rattle.std.specs.Prelude.{◌≡◌, IsTrue};
ghost use Rattle.std.specs.List.{list_all};
ghost use Rattle.regress_unicode.specs.Caseless.{is_caseless, KeepsCaseless, contain_both, contain_entry, keeps_caseless};
ghost use Rattle.regress_unicode.specs.TableOf.{table_of};
ghost use Rattle.regress_unicode.specs.ValidEntries.{is_target_in_range};

use super::{FoldRange, Tables};
use regress_base::codepointset::Interval;

/// Returns whether the character is outside of a few intervals with all letters that have a case.
#[tactic(auto, unfolding(regress_base::specs::Intervals::is_member, regress_base::specs::Intervals::is_within))]
pub fn is_caseless(c: u32) -> bool
    ensures { result ≡ is_caseless c }
{
    !matches!(c,
        0x24B6..=0x24E9
        | 0x41..=0x5A
        | 0x61..=0x7A
        | 0xB5..=0x1FFF
        | 0x2126..=0x2132
        | 0x214E..=0x2184
        | 0x2C00..=0x2DFF
        | 0xA640..=0xABFF
        | 0xFF00..=0x1EFFF)
}

/// Returns whether no character of the string has a case ([`is_caseless`]).
pub fn are_caseless(string: &[u32]) -> bool
    ensures { result ≡ list_all is_caseless string.now }
{
    string.iter().all(|c| is_caseless(*c))
}

/// Returns whether it is known that a character without case ([`is_caseless`]) has its simple case folding alone, and
/// that the characters with that of a circled letter are circled letters.
///
/// # Complexity
/// Linear in the number of entries.
#[tactic(auto, using(crate::proofs::CaselessLemmas::entries_keep_caseless))]
pub fn fold_keeps_caseless(tables: &Tables) -> bool
    ensures { IsTrue result → KeepsCaseless (table_of tables.now).fold }
{
    keep_caseless(&tables.folds)
}

/// Returns the same of the upper case.
///
/// # Complexity
/// Linear in the number of entries.
#[tactic(auto, using(crate::proofs::CaselessLemmas::entries_keep_caseless))]
pub fn uppercase_keeps_caseless(tables: &Tables) -> bool
    ensures { IsTrue result → KeepsCaseless (table_of tables.now).uppercase }
{
    keep_caseless(&tables.uppers)
}

fn keep_caseless(mappings: &[FoldRange]) -> bool
    ensures { result ≡ list_all keeps_caseless mappings.now }
{
    let circled = [Interval::new(0x24B6, 0x24E9)];
    let cased = [
        Interval::new(0x41, 0x5A),
        Interval::new(0x61, 0x7A),
        Interval::new(0xB5, 0x1FFF),
        Interval::new(0x2126, 0x2132),
        Interval::new(0x214E, 0x2184),
        Interval::new(0x2C00, 0x2DFF),
        Interval::new(0xA640, 0xABFF),
        Interval::new(0xFF00, 0x1EFFF),
    ];
    mappings.iter().all(|mapping| {
        mapping.is_target_in_range()
            && (contain_entry(&cased, mapping) || contain_entry(&circled, mapping))
    })
}

/// Returns whether the intervals contain the range of an entry and what the delta maps it to.
fn contain_entry(intervals: &[Interval], mapping: &FoldRange) -> bool
    requires { IsTrue (is_target_in_range mapping.now) }
    ensures { result ≡ contain_entry intervals.now mapping.now }
{
    let first = mapping.first();
    let last = mapping.last();
    contain_both(intervals, first, last)
        && contain_both(intervals, mapping.shifted(first), mapping.shifted(last))
}

/// Returns whether one of the intervals contains both code points.
fn contain_both(intervals: &[Interval], a: u32, b: u32) -> bool
    ensures { result ≡ contain_both intervals.now a b }
{
    intervals.iter().any(|iv| iv.contains(a) && iv.contains(b))
}
