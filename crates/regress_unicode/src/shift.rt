//! Ranges of code points that are mapped by one delta.

use super::fold_range::FoldRange;

/// The code points from `first` to `last`, both included. Those at a distance from `first` that is a multiple of
/// `modulo` are mapped by `delta`.
#[derive(Drop)]
pub(super) struct Shift {
    pub(super) first: u32,
    pub(super) last: u32,
    pub(super) delta: i32,
    pub(super) modulo: u32,
}

impl Shift {
    ghost use Rattle.std.specs.Prelude.{◌≡◌, ◌≤◌, IsTrue};
    ghost use Rattle.regress_base.specs.Intervals.{code_point_max};
    ghost use Rattle.regress_unicode.specs.FoldEntries.{moved};
    ghost use Rattle.regress_unicode.specs.ValidEntries.{is_target_in_range};
    ghost use Rattle.regress_unicode.specs.Shifts.{IsShift, is_mapped, forward, backward};

    /// Returns the shift of an entry, from the code points of its range to what they are mapped to.
    pub(super) fn forward(mapping: &FoldRange) -> Shift
        requires { IsTrue (is_target_in_range mapping.now) }
        ensures value { result ≡ forward mapping.now }
        ensures shift { IsShift result }
    {
        Shift {
            first: mapping.first(),
            last: mapping.last(),
            delta: mapping.delta(),
            modulo: mapping.modulo(),
        }
    }

    /// Returns the inverse shift of an entry.
    pub(super) fn backward(mapping: &FoldRange) -> Shift
        requires { IsTrue (is_target_in_range mapping.now) }
        ensures value { result ≡ backward mapping.now }
        ensures shift { IsShift result }
    {
        Shift {
            first: mapping.shifted(mapping.first()),
            last: mapping.shifted(mapping.last()),
            delta: -mapping.delta(),
            modulo: mapping.modulo(),
        }
    }

    /// Returns whether the shift maps `c` by the delta.
    pub(super) fn moves(&self, c: u32) -> bool
        requires { IsShift self.now }
        ensures { result ≡ is_mapped self.now c }
    {
        self.first <= c && c <= self.last && (c - self.first).is_multiple_of(self.modulo)
    }

    /// Returns `c` plus the delta.
    pub(super) fn apply(&self, c: u32) -> u32
        requires shift { IsShift self.now }
        requires first { self.now.first ≤ c }
        requires last { c ≤ self.now.last }
        ensures value { result ≡ moved self.now.delta c }
        ensures in_range { result ≤ code_point_max }
    {
        (c as i32 + self.delta) as u32
    }
}
