//! A packed entry of a case mapping table.
ghost use Rattle.std.specs.Prelude.{◌≡◌, ℕ, ◌+◌, ◌-◌, ◌*◌, ◌/◌, ◌%◌, ◌^◌, ◌<◌, ◌≤◌, ◌↔◌, ◌==◌, false, IfSome, IfNone, pos, negsuc, ◌≤ℤ◌, IsTrue};
ghost use Rattle.regress_unicode.specs.FoldEntries.{is_in_mapping, mapped_in_mapping, is_source, moved};
ghost use Rattle.regress_unicode.specs.ValidEntries.{is_target_in_range, stays_in_range as stays_in_range_spec, IsModulo};
ghost use Rattle.regress_base.specs.Intervals.{code_point_max};
ghost use Rattle.std.specs.declared.cmp.Ordering.TheVariants.{Less, Equal, Greater};

use super::range::CodePointRange;
use regress_base::codepointset::CODE_POINT_MAX;
use std::cmp::Ordering;
use std::marker::Model;

/// The number of low bits that contain the modulo minus one. The delta is in the bits above them.
const PREDICATE_MASK_BITS: u32 = 4;

/// An entry of a case mapping table: a range of code points, and the delta by which they are mapped.
///
/// A code point of the range is mapped by the delta if its distance from the start is a multiple of the modulo, and to
/// itself otherwise.
#[derive(Debug, Drop)]
pub struct FoldRange {
    range: CodePointRange,
    /// The delta in the high bits, and the modulo minus one in the low bits.
    extra: i32,
}

impl Model for FoldRange {
    ghost use Rattle.std.specs.Prelude.{◌+◌, pos, unsigned_abs};
    ghost use Rattle.std.specs.Int.{int_div_euclid, int_rem_euclid};
    ghost use Rattle.regress_unicode.specs.FoldEntries.{FoldEntry};
    ghost use Rattle.regress_unicode.specs.ValidEntries.{IsPackableEntry};

    ghost Value = { FoldEntry };

    ghost view = { λ r. record {
      start = r.range.start;
      length = r.range.length;
      delta = int_div_euclid r.extra (pos 16);
      modulo = unsigned_abs (int_rem_euclid r.extra (pos 16)) + 1;
    } };

    ghost invariant = { λ r. IsPackableEntry (record {
      start = r.range.start;
      length = r.range.length;
      delta = int_div_euclid r.extra (pos 16);
      modulo = unsigned_abs (int_rem_euclid r.extra (pos 16)) + 1;
    }) };
}

impl FoldRange {
    /// Returns the entry for the `length` code points from `start` on, of which each one at a distance from `start`
    /// that is a multiple of `modulo` is mapped by `delta`.
    ///
    /// # Preconditions
    /// `length` is from 1 to 4096, `start + length` is below 2^20, `delta` is from -2^27 to 2^27 - 1, and `modulo` is
    /// 1, 2, 4, 8 or 16.
    pub const fn from(start: u32, length: u32, delta: i32, modulo: u8) -> Self
        requires nonempty { 1 ≤ length }
        requires short { length ≤ 4096 }
        requires low { start + length < 2 ^ 20 }
        requires delta_low { negsuc (2 ^ 27 - 1) ≤ℤ delta }
        requires delta_high { delta ≤ℤ pos (2 ^ 27 - 1) }
        requires modulo { IsModulo modulo }
        ensures { result ≡ record { start = start; length = length; delta = delta; modulo = modulo } }
    {
        let mask = (modulo - 1) as i32;
        FoldRange {
            range: CodePointRange::from(start, length),
            extra: (delta << PREDICATE_MASK_BITS) | mask,
        }
    }
    /// Returns the first code point of the range.
    pub(super) fn first(&self) -> u32
        ensures value { result ≡ self.now.start }
        ensures nonempty { 1 ≤ self.now.length }
        ensures low { result + self.now.length < 2 ^ 20 }
    {
        self.range.first()
    }

    /// Returns the last code point of the range, which is in the range.
    pub(super) fn last(&self) -> u32
        ensures value { result + 1 ≡ self.now.start + self.now.length }
        ensures nonempty { 1 ≤ self.now.length }
        ensures low { result < 2 ^ 20 - 1 }
    {
        self.range.last()
    }

    /// Returns the delta by which code points are mapped.
    pub(super) fn delta(&self) -> i32
        ensures value { result ≡ self.now.delta }
        ensures low { negsuc (2 ^ 27 - 1) ≤ℤ result }
        ensures high { result ≤ℤ pos (2 ^ 27 - 1) }
    {
        self.extra.div_euclid(1 << PREDICATE_MASK_BITS)
    }

    /// Returns the modulo: a code point is mapped by the delta if its distance from the start is a multiple of the
    /// modulo.
    pub(super) fn modulo(&self) -> u32
        ensures value { result ≡ self.now.modulo }
        ensures least { 1 ≤ result }
        ensures greatest { result ≤ 16 }
    {
        self.extra.rem_euclid(1 << PREDICATE_MASK_BITS) as u32 + 1
    }

    /// Compares the range with `c`: `Greater` if all of it is above `c`, `Less` if all of it is below, and `Equal` if
    /// it contains `c`.
    pub(super) fn compare(&self, c: u32) -> Ordering
        ensures greater { (result ≡ Greater) ↔ (c < self.now.start) }
        ensures less { (result ≡ Less) ↔ (self.now.start + self.now.length ≤ c) }
        ensures equal { (result ≡ Equal) ↔ IsTrue (is_in_mapping self.now c) }
    {
        if c < self.first() {
            Ordering::Greater
        } else if self.last() < c {
            Ordering::Less
        } else {
            Ordering::Equal
        }
    }

    /// Returns what `c`, a code point of the range, is mapped to.
    pub(super) fn apply(&self, c: u32) -> u32
        requires target { IsTrue (is_target_in_range self.now) }
        requires within { IsTrue (is_in_mapping self.now c) }
        ensures { result ≡ mapped_in_mapping self.now c }
    {
        if (c - self.first()).is_multiple_of(self.modulo()) {
            self.shifted(c)
        } else {
            c
        }
    }

    /// Returns `c` plus the delta.
    pub(super) fn shifted(&self, c: u32) -> u32
        requires low { c < 2 ^ 20 }
        requires target { IsTrue (is_target_in_range self.now) }
        requires within { IsTrue (is_in_mapping self.now c) }
        ensures value { result ≡ moved self.now.delta c }
        ensures in_range { result ≤ code_point_max }
    {
        (c as i32 + self.delta()) as u32
    }

    /// Returns the code point of the range that the delta maps to `target`, or `None`. There is at most one.
    pub(super) fn source(&self, target: u32) -> Option<u32>
        requires code_point { target ≤ code_point_max }
        requires in_range { IsTrue (is_target_in_range self.now) }
        ensures some { IfSome result (λ source. (c : ℕ) → is_source self.now target c ≡ (c == source)) }
        ensures none { IfNone result ((c : ℕ) → is_source self.now target c ≡ false) }
        ensures low { IfSome result (λ source. source ≤ code_point_max) }
    {
        let source = target as i32 - self.delta();
        let first = self.first() as i32;
        let last = self.last() as i32;
        if source < first || last < source {
            return None;
        }
        let source = source as u32;
        if (source - self.first()).is_multiple_of(self.modulo()) {
            Some(source)
        } else {
            None
        }
    }

    /// Returns whether the first and the last code point of the range are mapped to code points.
    pub(super) fn is_target_in_range(&self) -> bool
        ensures { result ≡ is_target_in_range self.now }
    {
        stays_in_range(self.delta(), self.first()) && stays_in_range(self.delta(), self.last())
    }
}

/// Returns whether `c` plus `delta` is a code point.
fn stays_in_range(delta: i32, c: u32) -> bool
    requires low { c < 2 ^ 20 }
    requires delta_low { negsuc (2 ^ 27 - 1) ≤ℤ delta }
    requires delta_high { delta ≤ℤ pos (2 ^ 27 - 1) }
    ensures { result ≡ stays_in_range_spec delta c }
{
    let moved = c as i32 + delta;
    0 <= moved && moved <= CODE_POINT_MAX as i32
}
