//! Intervals of code points.
ghost use Rattle.std.specs.Prelude.{◌≡◌, ℕ, ◌+◌, ◌<◌, ◌≤◌, ◌↔◌, IsTrue};
ghost use Rattle.std.specs.declared.cmp.Ordering.TheVariants.{Less, Equal, Greater};
ghost use Rattle.regress_base.specs.Intervals.{is_within};

use std::cmp::Ordering;
use std::fmt;
use std::marker::Model;
use std::ops::Range;

/// A code point: a number from 0 to [`CODE_POINT_MAX`], surrogates included (Unicode Standard, section 3.4).
pub type CodePoint = u32;

/// The greatest code point, U+10FFFF.
pub const CODE_POINT_MAX: CodePoint = 0x10FFFF;

/// A closed interval of code points: `first <= last <= CODE_POINT_MAX`.
#[derive(Clone, Copy, PartialEq, Eq)]
pub struct Interval {
    pub(crate) first: CodePoint,
    pub(crate) last: CodePoint,
}

impl Model for Interval {
    ghost use Rattle.regress_base.specs.Intervals.{Bounds, IsInterval};

    ghost Value = { Bounds };

    ghost view = { λ iv. record { first = iv.first; last = iv.last } };

    ghost invariant = { λ iv. IsInterval (record { first = iv.first; last = iv.last }) };

    ghost inverse = { λ bounds. record { first = bounds.first; last = bounds.last } };
}

impl Interval {
    /// Returns the interval from `first` to `last`, both included.
    ///
    /// # Preconditions
    /// `first` is at most `last`, and `last` is at most [`CODE_POINT_MAX`].
    pub const fn new(first: CodePoint, last: CodePoint) -> Interval
        requires ordered { first ≤ last }
        requires in_range { last ≤ CODE_POINT_MAX }
        ensures { result ≡ record { first = first; last = last } }
    {
        Interval { first, last }
    }

    /// Returns the first code point.
    pub const fn first(self) -> CodePoint
        ensures value { result ≡ self.first }
        ensures ordered { self.first ≤ self.last }
        ensures in_range { self.last ≤ CODE_POINT_MAX }
    {
        self.first
    }

    /// Returns the last code point, which is in the interval.
    pub const fn last(self) -> CodePoint
        ensures value { result ≡ self.last }
        ensures ordered { self.first ≤ self.last }
        ensures in_range { self.last ≤ CODE_POINT_MAX }
    {
        self.last
    }

    /// Compares the interval with `cp`: `Greater` if all of it is above `cp`, `Less` if all of it is below, and `Equal`
    /// if it contains `cp`.
    #[tactic(auto, using(crate::proofs::WithinLemmas::is_within_reports))]
    pub fn compare(self, cp: u32) -> Ordering
        ensures greater { (result ≡ Greater) ↔ (cp < self.first) }
        ensures less { (result ≡ Less) ↔ (self.last < cp) }
        ensures equal { (result ≡ Equal) ↔ IsTrue (is_within self cp) }
    {
        if self.first > cp {
            Ordering::Greater
        } else if self.last < cp {
            Ordering::Less
        } else {
            Ordering::Equal
        }
    }

    /// Returns whether the interval contains `cp`.
    #[tactic(auto, using(crate::proofs::WithinLemmas::is_within_reports))]
    pub fn contains(self, cp: CodePoint) -> bool
        ensures { result ≡ is_within self cp }
    {
        self.first <= cp && cp <= self.last
    }

    /// Returns whether the two intervals have a code point in common.
    pub fn overlaps(self, other: Interval) -> bool
        ensures ends { IsTrue result ↔ (self.first ≤ other.last) × (other.first ≤ self.last) }
        ensures shared { IsTrue result ↔
            ((c : ℕ) × IsTrue (is_within self c) × IsTrue (is_within other c)) }
    {
        self.first <= other.last && other.first <= self.last
    }

    /// Returns the code points in ascending order, as a half-open range.
    pub fn codepoints(self) -> Range<u32>
        ensures start { result.start ≡ self.first }
        ensures end { result.end ≡ self.last + 1 }
    {
        self.first..self.last + 1
    }

    /// Returns the number of code points, at least 1.
    pub fn count_codepoints(self) -> usize
        ensures { result + self.first ≡ self.last + 1 }
    {
        (self.last - self.first + 1) as usize
    }
}

/// Formats the interval as `U+{first}-U+{last}`, in upper-case hexadecimal of at least four digits.
impl fmt::Debug for Interval {
    fn fmt<W: fmt::Write>(&self, f: &mut fmt::Formatter<W>) -> fmt::Result {
        write!(f, "U+{:04X}-U+{:04X}", self.first, self.last)
    }
}
