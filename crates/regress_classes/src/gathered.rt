//! The members of a class, collected in the order in which they are written.
ghost use Rattle.std.specs.Prelude.{◌≡◌, ℕ, ◌+◌, ◌<◌, ◌≤◌, ◌||◌, max, [], IfOk, MatchBool, OnOk};
ghost use Rattle.regress_base.specs.Intervals.{IsCanonical, IsInterval, is_member, is_within};
ghost use Rattle.std.specs.List.Sorted.{IsNonDecreasingBy};
ghost use Rattle.regress_classes.specs.ClassViews.{HasMembers};

use regress_base::codepointset::{CodePointSet, Interval, is_canonical};
use regress_base::sets::{add_intervals, set_is_canonical};
use std::alloc::{AllocError, Global};
use std::marker::Model;

/// Fewer intervals than this are inserted into a set one by one.
const SINGLE_INSERTION_LIMIT: usize = 32;

/// The initial capacity of a collection with room: most classes have no more intervals.
const USUAL_LENGTH: usize = 8;

/// The first set in a class, and all other intervals in the order in which they are written. They are sorted once all
/// are there: inserting each one in order would move those after it, so a class in descending order would take
/// quadratic time.
#[derive(Drop)]
pub(crate) struct IntervalCollector {
    set: CodePointSet,
    list: Vec<Interval>,
}

impl Model for IntervalCollector {
    ghost use Rattle.std.specs.Prelude.{List, ◌++◌};
    ghost use Rattle.regress_base.specs.Intervals.{Bounds};

    ghost Value = { List Bounds };

    ghost view = { λ g. g.set ++ g.list.items };
}

impl IntervalCollector {
    /// Returns an empty collection.
    pub(crate) fn new(alloc: Global) -> IntervalCollector
        ensures { result ≡ [] }
    {
        IntervalCollector {
            set: CodePointSet::new(alloc),
            list: Vec::new(alloc),
        }
    }

    /// Returns an empty collection with room for the intervals of most classes.
    pub(crate) fn with_room(alloc: Global) -> Result<IntervalCollector, AllocError>
        ensures { IfOk result (λ collector. collector ≡ []) }
    {
        Ok(IntervalCollector {
            set: CodePointSet::new(alloc),
            list: Vec::with_capacity(alloc, USUAL_LENGTH)?,
        })
    }

    /// Adds an interval.
    pub(crate) fn add(&mut self, interval: Interval) -> Result<(), AllocError>
        ensures { OnOk result ((c : ℕ) →
            is_member self.new c ≡ (is_member self.old c || is_within interval c)) }
    {
        self.list.push(interval)?;
        Ok(())
    }

    /// Adds the intervals one by one.
    pub(crate) fn add_all(&mut self, intervals: &[Interval]) -> Result<(), AllocError>
        ensures { OnOk result ((c : ℕ) →
            is_member self.new c ≡ (is_member self.old c || is_member intervals.now c)) }
    {
        for interval in intervals {
            self.add(*interval)?;
        }
        Ok(())
    }

    /// Adds the members of a set. The first set is taken as it is.
    pub(crate) fn add_set(&mut self, set: CodePointSet) -> Result<(), AllocError>
        ensures { OnOk result ((c : ℕ) →
            is_member self.new c ≡ (is_member self.old c || is_member set c)) }
    {
        if self.set.is_empty() {
            self.set = set;
            return Ok(());
        }
        self.add_all(set.intervals())
    }

    /// Returns the set of all members, in linear time if the intervals ascend, else in O(n log n).
    pub(crate) fn into_set(self) -> Result<CodePointSet, AllocError>
        ensures { IfOk result (HasMembers self) }
    {
        let mut set = self.set;
        let list = self.list;
        if set.is_empty() {
            return Ok(set_of_unordered(list));
        }
        if list.len() < SINGLE_INSERTION_LIMIT {
            add_intervals(&mut set, &list)?;
        } else {
            set.add_set(set_of_unordered(list))?;
        }
        set_is_canonical(&set);
        Ok(set)
    }
}

/// Returns the set of intervals in any order, sorted in place.
fn set_of_unordered(list: Vec<Interval>) -> CodePointSet
    ensures { HasMembers list.items result }
{
    if is_canonical(&list) {
        return CodePointSet::from_sorted_disjoint_intervals(list);
    }
    let mut list = list;
    list.sort_unstable_by_key(|interval| interval.first());
    join_neighbours(&mut list);
    CodePointSet::from_sorted_disjoint_intervals(list)
}

/// Merges intervals with no code point between them, in place.
fn join_neighbours(list: &mut Vec<Interval>)
    requires { IsNonDecreasingBy (λ interval. interval.first) list.old.items }
    ensures members { (c : ℕ) → is_member list.new.items c ≡ is_member list.old.items c }
    ensures canonical { IsCanonical list.new.items }
{
    let Some(lowest) = list.first() else {
        return;
    };
    is_interval(*lowest);
    list.dedup_by(|next, last| merge_if_adjacent(last, *next));
}

/// States the bounds of an interval for a proof that needs them. Does nothing else.
fn is_interval(interval: Interval)
    ensures { IsInterval interval }
{
    let _ = interval.first();
}

/// Extends `last` to the end of `next`, which starts no earlier, if no code point is between the two. Returns whether
/// it did.
fn merge_if_adjacent(last: &mut Interval, next: Interval) -> bool
    ensures intervals { IsInterval last.old × IsInterval next }
    ensures reached { MatchBool result
        ((next.first ≤ last.old.last + 1) × (last.new ≡ record { first = last.old.first; last = max last.old.last next.last }))
        ((last.old.last + 1 < next.first) × (last.new ≡ last.old)) }
{
    if next.first() > last.last() + 1 {
        return false;
    }
    if last.last() < next.last() {
        *last = Interval::new(last.first(), next.last());
    }
    true
}
