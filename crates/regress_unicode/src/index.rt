//! An index of the entries of a case mapping by the code points that they map to.
ghost use Rattle.std.specs.Prelude.{◌≡◌, ◌<◌, ◌/◌, ◌==◌, ℕ, false, IsTrue};
ghost use Rattle.std.specs.Int.{bit_at};
ghost use Rattle.regress_base.specs.AsciiBitmap.{ascii_contains};
ghost use Rattle.regress_unicode.specs.FoldEntries.{is_source};
ghost use Rattle.regress_unicode.specs.ValidEntries.{is_target_in_range, are_targets_in_range};
ghost use Rattle.regress_unicode.specs.SourceIndex.{IsIndexOf, HasGroups, has_group};

use super::FoldRange;
use regress_base::bytesearch::{AsciiBitmap, ByteSet};

/// The least code point that is not ASCII.
const ASCII_END: u32 = 0x80;

/// The number of code points in a block.
const BLOCK_LEN: u32 = 64;

/// The number of slots. The blocks have the slots in turn.
const SLOTS: usize = 64;

/// The number of entries with one bit.
pub(super) const GROUP_LEN: usize = 4;

/// The number of entries with a bit.
pub(super) const INDEXED_LEN: usize = 256;

/// Which entries of a case mapping can map a code point to a given one: the target.
#[derive(Debug, Drop)]
pub(super) struct SourceIndex {
    /// The ASCII characters that an entry after the first maps code points to, and perhaps others. Only the first entry
    /// maps code points to most letters.
    later: AsciiBitmap,
    /// For each slot, a bit for each group of four entries. It is set if one of them maps a code point into a block of
    /// the slot.
    groups: [u64; SLOTS],
}

impl SourceIndex {
    /// Returns the index of these entries.
    pub(super) fn new(mappings: &[FoldRange]) -> SourceIndex
        requires { IsTrue (are_targets_in_range mappings.now) }
        ensures { IsIndexOf result mappings.now }
    {
        let mut later = AsciiBitmap::default();
        let mut groups = groups_of_first(mappings);
        for i in 1..mappings.len() {
            let mapping = &mappings[i];
            add_targets(&mut later, mapping);
            add_group(&mut groups, mapping, i);
        }
        SourceIndex { later, groups }
    }

    /// Returns whether no entry after the first maps a code point to `target`. It is false for every character that is
    /// not ASCII.
    pub(super) fn is_first_alone(&self, target: u32) -> bool
        ensures ascii { IsTrue result → target < 128 }
        ensures outside { IsTrue result → ascii_contains self.now.later target ≡ false }
    {
        target < ASCII_END && !self.later.contains(target as u8)
    }

    /// Returns the bits that are set for `target`.
    pub(super) fn groups(&self, target: u32) -> u64
        ensures { (bit : ℕ) → (bit_at result bit == 1) ≡ has_group self.now.groups target bit }
    {
        self.groups[(target / BLOCK_LEN) as usize % SLOTS]
    }
}

/// Returns the bits of the first entry.
fn groups_of_first(mappings: &[FoldRange]) -> [u64; SLOTS]
    requires { IsTrue (are_targets_in_range mappings.now) }
    ensures { HasGroups result mappings.now 1 }
{
    let mut groups = [0; SLOTS];
    if let Some(mapping) = mappings.first() {
        add_group(&mut groups, mapping, 0);
    }
    groups
}

/// Sets the bit of the entry with this index for each code point from what its first one is mapped to up to what the
/// last one is.
fn add_group(groups: &mut [u64; SLOTS], mapping: &FoldRange, index: usize)
    requires { IsTrue (is_target_in_range mapping.now) }
    ensures kept { (target bit : ℕ) → has_group groups.new target bit ≡ false → has_group groups.old target bit ≡ false }
    ensures added { (target c : ℕ) → index < 256 → has_group groups.new target (index / 4) ≡ false → is_source mapping.now target c ≡ false }
{
    if INDEXED_LEN <= index {
        return;
    }
    let bit = 1 << (index / GROUP_LEN);
    let first = mapping.shifted(mapping.first()) / BLOCK_LEN;
    let last = mapping.shifted(mapping.last()) / BLOCK_LEN;
    for block in first..last + 1 {
        groups[block as usize % SLOTS] |= bit;
    }
}

/// Adds the ASCII characters from what the first code point of the range is mapped to up to what the last one is.
fn add_targets(targets: &mut AsciiBitmap, mapping: &FoldRange)
    requires { IsTrue (is_target_in_range mapping.now) }
    ensures kept { (target : ℕ) →
        ascii_contains targets.new target ≡ false → ascii_contains targets.old target ≡ false }
    ensures added { (target c : ℕ) → target < 128 →
        ascii_contains targets.new target ≡ false → is_source mapping.now target c ≡ false }
{
    let first = mapping.shifted(mapping.first());
    let last = mapping.shifted(mapping.last()).min(ASCII_END - 1);
    for target in first..last + 1 {
        targets.set(target as u8);
    }
}
