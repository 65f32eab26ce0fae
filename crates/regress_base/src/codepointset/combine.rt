//! Union, intersection, difference and equality of sets.
ghost use Rattle.std.specs.Prelude.{◌≡◌, ℕ, ◌≤◌, ◌++◌, ◌||◌, ◌&&◌, ◌↔◌, not, [], IsTrue, IfOk, IfSome, IfNone, OnOk, OnErr};
ghost use Rattle.regress_base.specs.Intervals.{is_within, is_member, bounds_eq, IsCanonical};
ghost use Rattle.regress_base.specs.Overlap.{overlap};
ghost use Rattle.std.proofs.Common.{rules};
ghost use Rattle.std.specs.Cmp.Rules.{comparing};
ghost use Rattle.std.specs.Cmp.Lexicographic.{pointwise};

use super::add::touching;
use super::{CodePointSet, invert};
use crate::interval::{CODE_POINT_MAX, Interval};
use std::alloc::{AllocError, Global};
use std::ops::Range;

impl CodePointSet {
    /// Adds the members of `rhs`.
    ///
    /// # Errors
    /// Returns [`AllocError`] if an allocation fails. The set is unchanged.
    ///
    /// # Complexity
    /// Linear in the number of intervals of both sets.
    pub fn add_set(&mut self, rhs: CodePointSet) -> Result<(), AllocError>
        ensures members { OnOk result ((c : ℕ) →
            is_member self.new c ≡ (is_member self.old c || is_member rhs c)) }
        ensures canonical { IsCanonical self.new }
        ensures err { OnErr result (self.new ≡ self.old) }
    {
        let joined = union(*self.ivs.allocator(), &self.ivs, &rhs.ivs)?;
        self.ivs = joined.ivs;
        Ok(())
    }

    /// Keeps the members that are in one of the intervals, and drops the others.
    ///
    /// # Preconditions
    /// `intervals` is canonical, as [`is_canonical`](crate::codepointset::is_canonical) tests.
    ///
    /// # Errors
    /// Returns [`AllocError`] if an allocation fails. The set is unchanged.
    ///
    /// # Complexity
    /// Linear in the number of intervals of both.
    ///
    /// # Examples
    /// ```
    /// let mut set = CodePointSet::new(alloc);
    /// set.add(Interval::new(0x61, 0x66))?;
    /// let mut other = CodePointSet::new(alloc);
    /// other.add(Interval::new(0x65, 0x7A))?;
    /// set.intersect(other.intervals())?;
    /// assert_eq!(rt; set.intervals(), [Interval::new(0x65, 0x66)].as_slice());
    /// ```
    pub fn intersect(&mut self, intervals: &[Interval]) -> Result<(), AllocError>
        requires { IsCanonical intervals.now }
        ensures members { OnOk result ((c : ℕ) →
            is_member self.new c ≡ (is_member self.old c && is_member intervals.now c)) }
        ensures canonical { IsCanonical self.new }
        ensures err { OnErr result (self.new ≡ self.old) }
    {
        self.ivs = intersection(*self.ivs.allocator(), &self.ivs, intervals)?;
        Ok(())
    }

    /// Drops the members that are in one of the intervals.
    ///
    /// # Preconditions
    /// `intervals` is canonical, as [`is_canonical`](crate::codepointset::is_canonical) tests.
    ///
    /// # Errors
    /// Returns [`AllocError`] if an allocation fails. The set is unchanged.
    ///
    /// # Complexity
    /// A binary search for the part of the set from the first to the last code point of `intervals`, one pass over that
    /// part and over `intervals`, and one move of the intervals after that part.
    pub fn remove(&mut self, intervals: &[Interval]) -> Result<(), AllocError>
        requires { IsCanonical intervals.now }
        ensures members { OnOk result ((c : ℕ) →
            is_member self.new c ≡ (is_member self.old c && not (is_member intervals.now c))) }
        ensures canonical { IsCanonical self.new }
        ensures err { OnErr result (self.new ≡ self.old) }
    {
        let alloc = *self.ivs.allocator();
        let Some(span) = span(intervals) else {
            return Ok(());
        };
        let Range { start, end } = touching(&self.ivs, span);
        if start == end {
            return Ok(());
        }
        let gaps = invert::gaps(alloc, intervals)?;
        let kept = intersection(alloc, &self.ivs[start..end], &gaps)?;
        self.ivs.splice(start..end, kept)?;
        Ok(())
    }
}

/// Returns the interval from the first member to the last, or `None` if there is no member.
fn span(intervals: &[Interval]) -> Option<Interval>
    requires { IsCanonical intervals.now }
    ensures some { IfSome result (λ span. (c : ℕ) →
        IsTrue (is_member intervals.now c) → IsTrue (is_within span c)) }
    ensures none { IfNone result (intervals.now ≡ []) }
{
    match (intervals.first(), intervals.last()) {
        (Some(first), Some(last)) => Some(Interval::new(first.first(), last.last())),
        _ => None,
    }
}

/// Returns the members of either list. The intervals are added in ascending order, so that each is added at the end.
fn union(alloc: Global, left: &[Interval], right: &[Interval]) -> Result<CodePointSet, AllocError>
    ensures { IfOk result (λ set. (c : ℕ) →
        is_member set c ≡ (is_member left.now c || is_member right.now c)) }
{
    let mut joined = CodePointSet::new(alloc);
    let mut i = 0;
    let mut j = 0;
    while i < left.len() || j < right.len() {
        if j == right.len() || (i < left.len() && left[i].first() <= right[j].first()) {
            joined.add(left[i])?;
            i += 1;
        } else {
            joined.add(right[j])?;
            j += 1;
        }
    }
    Ok(joined)
}

/// The maximum initial capacity for common intervals: enough for two lists of usual length.
const USUAL: usize = 8;

/// Returns the common intervals of both lists. Of two intervals, the one that ends first overlaps no later one.
fn intersection(
    alloc: Global,
    left: &[Interval],
    right: &[Interval],
) -> Result<Vec<Interval>, AllocError>
    requires left_canonical { IsCanonical left.now }
    requires right_canonical { IsCanonical right.now }
    ensures members { IfOk result (λ common. (c : ℕ) →
        is_member common.items c ≡ (is_member left.now c && is_member right.now c)) }
    ensures canonical { IfOk result (λ common. IsCanonical common.items) }
{
    let mut common = Vec::with_capacity(alloc, left.len().max(right.len()).min(USUAL))?;
    let mut i = 0;
    let mut j = 0;
    while i < left.len() && j < right.len() {
        let a = left[i];
        let b = right[j];
        push_overlap(&mut common, a, b)?;
        if a.last() <= b.last() {
            i += 1;
        } else {
            j += 1;
        }
    }
    Ok(common)
}

/// Appends the code points that both intervals contain, as one interval, if there are any.
fn push_overlap(list: &mut Vec<Interval>, a: Interval, b: Interval) -> Result<(), AllocError>
    ensures { OnOk result (list.new.items ≡ list.old.items ++ overlap a b) }
{
    if a.overlaps(b) {
        list.push(Interval::new(a.first().max(b.first()), a.last().min(b.last())))?;
    }
    Ok(())
}

/// Compares the intervals: two sets are equal if and only if they have the same members.
impl PartialEq for CodePointSet {
    ghost eq = { pointwise bounds_eq };

    ghost laws = { Prim.search (comparing, rules) };

    fn eq(&self, other: &CodePointSet) -> bool
        ensures value { result ≡ pointwise bounds_eq self.now other.now }
        ensures intervals { IsTrue result ↔ (self.now ≡ other.now) }
        ensures members { IsTrue result ↔
            ((c : ℕ) → c ≤ CODE_POINT_MAX → is_member self.now c ≡ is_member other.now c) }
    {
        self.ivs == other.ivs
    }
}

impl Eq for CodePointSet {
    ghost laws = { Prim.search (comparing, rules) };
}
