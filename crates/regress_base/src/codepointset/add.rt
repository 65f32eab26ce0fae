//! Adding intervals to a set.
ghost use Rattle.std.specs.Prelude.{◌≡◌, ◌==◌, ℕ, ◌+◌, ◌<◌, ◌≤◌, ◌↔◌, ◌||◌, length, IsOk, OnOk, OnErr};
ghost use Rattle.std.specs.List.{insert};
ghost use Rattle.regress_base.specs.Intervals.{is_member, is_within, IsInterval, IsCanonical, TouchesAny, IsTouchingRange};
ghost use Rattle.std.specs.declared.cmp.Ordering.TheVariants.{Less, Greater};

use super::CodePointSet;
use crate::interval::{CODE_POINT_MAX, CodePoint, Interval};
use crate::util::equal_range_by;
use std::alloc::AllocError;
use std::cmp::Ordering;
use std::ops::Range;

impl CodePointSet {
    /// Adds the code points of `new_iv`.
    ///
    /// # Errors
    /// Returns [`AllocError`] if an allocation fails. The set is unchanged. If `new_iv` overlaps or touches an interval
    /// of the set, nothing is allocated and the call succeeds.
    ///
    /// # Complexity
    /// A binary search, and a move of the intervals after the new one. Amortized constant at the end of the list.
    ///
    /// # Examples
    /// ```
    /// let mut set = CodePointSet::new(alloc);
    /// set.add(Interval::new(0x61, 0x66))?;
    /// set.add(Interval::new(0x67, 0x7A))?;
    /// assert!(rt; set.contains(0x62));
    /// // the two intervals touch, and are one
    /// assert_eq!(rt; set.intervals(), [Interval::new(0x61, 0x7A)].as_slice());
    /// ```
    pub fn add(&mut self, new_iv: Interval) -> Result<(), AllocError>
        ensures members { OnOk result ((c : ℕ) →
            is_member self.new c ≡ (is_member self.old c || is_within new_iv c)) }
        ensures canonical { IsCanonical self.new }
        ensures err { OnErr result (self.new ≡ self.old) }
        ensures needs_no_memory { TouchesAny new_iv self.old → IsOk result }
    {
        let Range { start, end } = touching(&self.ivs, new_iv);
        if start == end {
            insert_interval(&mut self.ivs, start, new_iv)?;
            return Ok(());
        }
        let first = self.ivs[start].first().min(new_iv.first());
        let last = self.ivs[end - 1].last().max(new_iv.last());
        self.ivs[start] = Interval::new(first, last);
        self.ivs.drain(start + 1..end);
        Ok(())
    }

    /// Adds the code point `cp`, as [`add`](CodePointSet::add) does.
    ///
    /// # Preconditions
    /// `cp` is at most [`CODE_POINT_MAX`].
    ///
    /// # Errors
    /// Returns [`AllocError`] if an allocation fails. The set is unchanged. If `cp` is a member or is next to one,
    /// nothing is allocated and the call succeeds.
    #[tactic(auto, using(crate::proofs::WithinLemmas::is_within_one))]
    pub fn add_one(&mut self, cp: CodePoint) -> Result<(), AllocError>
        requires { cp ≤ CODE_POINT_MAX }
        ensures members { OnOk result ((c : ℕ) →
            is_member self.new c ≡ (is_member self.old c || (c == cp))) }
        ensures canonical { IsCanonical self.new }
        ensures err { OnErr result (self.new ≡ self.old) }
        ensures needs_no_memory { TouchesAny (record { first = cp; last = cp }) self.old → IsOk result }
    {
        self.add(Interval::new(cp, cp))
    }
}

/// Inserts the interval at index `position`. At the end of the list no element moves.
fn insert_interval(ivs: &mut Vec<Interval>, position: usize, iv: Interval) -> Result<(), AllocError>
    requires { position ≤ length ivs.old.items }
    ensures ok { OnOk result (ivs.new.items ≡ insert ivs.old.items position iv) }
    ensures err { OnErr result (ivs.new.items ≡ ivs.old.items) }
{
    if position == ivs.len() {
        ivs.push(iv)?;
    } else {
        ivs.insert(position, iv)?;
    }
    Ok(())
}

/// Returns the range of indices of the intervals that `new_iv` overlaps or touches, or the empty range at the index at
/// which it would be inserted. Constant if `new_iv` belongs at the end, else a binary search.
pub(super) fn touching(ivs: &[Interval], new_iv: Interval) -> Range<usize>
    requires { IsCanonical ivs.now }
    ensures range { IsTouchingRange ivs.now new_iv result.start result.end }
    ensures interval { IsInterval new_iv }
{
    let len = ivs.len();
    let first = new_iv.first();
    match ivs.last() {
        None => 0..0,
        Some(last) if last.last() + 1 < first => len..len,
        Some(last) if last.first() <= first => len - 1..len,
        Some(_) => touching_inside(ivs, new_iv),
    }
}

/// Returns the same range for any interval. Constant if `new_iv` belongs before the first or the last interval, else a
/// binary search.
fn touching_inside(ivs: &[Interval], new_iv: Interval) -> Range<usize>
    requires { IsCanonical ivs.now }
    ensures { IsTouchingRange ivs.now new_iv result.start result.end }
{
    let len = ivs.len();
    let first = new_iv.first();
    let after = new_iv.last() + 1;
    if len > 0 && after < ivs[0].first() {
        return 0..0;
    }
    if len > 1 && ivs[len - 2].last() + 1 < first && after < ivs[len - 1].first() {
        return len - 1..len - 1;
    }
    equal_range_by(ivs, |iv| merge_order(*iv, new_iv))
}

/// Returns `Less` or `Greater` if `iv` is before or after `other` with a code point between them, and `Equal` if they
/// overlap or touch.
fn merge_order(iv: Interval, other: Interval) -> Ordering
    ensures less { (result ≡ Less) ↔ (iv.last + 1 < other.first) }
    ensures greater { (result ≡ Greater) ↔ (other.last + 1 < iv.first) }
{
    if iv.last() + 1 < other.first() {
        Ordering::Less
    } else if other.last() + 1 < iv.first() {
        Ordering::Greater
    } else {
        Ordering::Equal
    }
}
