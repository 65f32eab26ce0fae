//! The closures of a set under simple case folding and under upper case.
ghost use Rattle.std.specs.Prelude.{◌≡◌, ℕ, ◌≤◌, ◌||◌, ◌==◌, Bool, List, All, IsTrue, IfOk, IfSome, OnOk};
ghost use Rattle.regress_base.specs.Intervals.{Bounds, code_point_max, is_within, is_member, IsCanonical};
ghost use Rattle.regress_unicode.specs.ValidEntries.{is_in_order, are_targets_in_range};
ghost use Rattle.regress_unicode.specs.Shifts.{IsShift, maps_to, maps_to_by, forward, backward};
ghost use Rattle.regress_base.specs.Table.{is_in_closure};
ghost use Rattle.regress_unicode.specs.TableOf.{table_of};
ghost use Rattle.regress_unicode.specs.UppercaseClosure.{is_in_uppercase_closure};

use super::shift::Shift;
use super::{FoldRange, Tables};
use regress_base::codepointset::{CodePointSet, Interval};
use regress_base::sets::{add_intervals, set_is_canonical};
use std::alloc::{AllocError, Global};

/// Fewer intervals than this are inserted into a set one by one.
const SINGLE_INSERTION_LIMIT: usize = 32;

/// Returns the closure of `input`: every code point whose simple case folding is the simple case folding of a member
/// (ECMA-262, MaybeSimpleCaseFolding).
///
/// A closed set is returned unchanged.
///
/// # Errors
/// Returns [`AllocError`] if an allocation fails. `input` is dropped.
///
/// # Complexity
/// Two passes over the table and the intervals, with a binary search for each entry. An entry whose range is mapped
/// into one interval adds nothing. An entry that maps every code point of its range adds one interval for each interval
/// that its range overlaps; any other entry adds code points one by one. Many of them are sorted, and merged with the set.
/// Members outside the ranges of the table are never traversed one by one.
///
/// # Examples
/// ```
/// let tables = Tables::small(alloc)?;
/// let mut set = CodePointSet::new(alloc);
/// set.add_one(0x6B)?;
/// let closure = add_icase_code_points(set, &tables)?;
/// assert!(rt; closure.contains(0x4B));
/// assert!(rt; closure.contains(0x212A));
/// ```
pub fn add_icase_code_points(
    input: CodePointSet,
    tables: &Tables,
) -> Result<CodePointSet, AllocError>
    ensures members { IfOk result (λ set. (c : ℕ) →
        is_member set c ≡ is_in_closure (table_of tables.now) input c) }
    ensures canonical { IfOk result IsCanonical }
    ensures twice { IfOk result (λ set. (again : List Bounds) → IsCanonical again →
        ((c : ℕ) → is_member again c ≡ is_in_closure (table_of tables.now) set c) → again ≡ set) }
{
    let alloc = *tables.folds.allocator();
    let mut closure = input;
    add_targets(alloc, &mut closure, &tables.folds)?;
    add_sources(alloc, &mut closure, &tables.folds)?;
    set_is_canonical(&closure);
    Ok(closure)
}

/// Returns the closure of `input` under upper case: every code point whose upper case is the upper case of a member
/// (ECMA-262, CharacterSetMatcher with the flag i and without the flag u).
///
/// # Errors
/// Returns [`AllocError`] if an allocation fails. `input` is dropped.
///
/// # Complexity
/// As of [`add_icase_code_points`].
///
/// # Examples
/// ```
/// let tables = Tables::small(alloc)?;
/// let mut set = CodePointSet::new(alloc);
/// set.add_one(0x6B)?;
/// let closure = add_uppercase_code_points(set, &tables)?;
/// assert!(rt; closure.contains(0x4B));
/// assert!(rt; !closure.contains(0x212A));
/// ```
pub fn add_uppercase_code_points(
    input: CodePointSet,
    tables: &Tables,
) -> Result<CodePointSet, AllocError>
    ensures members { IfOk result (λ set. (c : ℕ) →
        is_member set c ≡ is_in_uppercase_closure (table_of tables.now) input c) }
    ensures canonical { IfOk result IsCanonical }
{
    let alloc = *tables.uppers.allocator();
    let mut closure = input;
    add_targets(alloc, &mut closure, &tables.uppers)?;
    add_sources(alloc, &mut closure, &tables.uppers)?;
    set_is_canonical(&closure);
    Ok(closure)
}

/// Adds the canonical forms of the members.
fn add_targets(
    alloc: Global,
    set: &mut CodePointSet,
    mappings: &[FoldRange],
) -> Result<(), AllocError>
    requires in_order { IsTrue (is_in_order mappings.now) }
    requires in_range { IsTrue (are_targets_in_range mappings.now) }
    ensures { OnOk result ((c : ℕ) →
        is_member set.new c ≡ (is_member set.old c || maps_to_by forward mappings.now (is_member set.old) c)) }
{
    let targets = targets(alloc, mappings, set.intervals())?;
    add_unordered(set, targets)
}

/// Adds the code points that are mapped to a member.
fn add_sources(
    alloc: Global,
    set: &mut CodePointSet,
    mappings: &[FoldRange],
) -> Result<(), AllocError>
    requires { IsTrue (are_targets_in_range mappings.now) }
    ensures members { OnOk result ((c : ℕ) →
        is_member set.new c ≡ (is_member set.old c || maps_to_by backward mappings.now (is_member set.old) c)) }
    ensures nonempty { OnOk result (All (λ mapping. 1 ≤ mapping.length) mappings.now) }
{
    let sources = sources(alloc, mappings, set.intervals())?;
    add_unordered(set, sources)
}

/// Adds the code points of `intervals`, which may be in any order. Many of them are sorted first: adding each one in
/// order would search for its place and move the intervals after it.
fn add_unordered(set: &mut CodePointSet, intervals: Vec<Interval>) -> Result<(), AllocError>
    ensures { OnOk result ((c : ℕ) →
        is_member set.new c ≡ (is_member set.old c || is_member intervals.items c)) }
{
    if intervals.len() < SINGLE_INSERTION_LIMIT {
        return add_intervals(set, &intervals);
    }
    set.add_set(set_of_unordered(intervals)?)
}

/// Returns the set of intervals in any order. In ascending order each one is added at the end.
fn set_of_unordered(intervals: Vec<Interval>) -> Result<CodePointSet, AllocError>
    ensures { IfOk result (λ set. (c : ℕ) → is_member set c ≡ is_member intervals.items c) }
{
    let mut set = CodePointSet::new(*intervals.allocator());
    let mut intervals = intervals;
    intervals.sort_unstable_by_key(|interval| interval.first());
    add_intervals(&mut set, &intervals)?;
    Ok(set)
}

/// Returns the canonical forms of the members that are mapped to another code point, except for members. Traverses the
/// entries and the intervals at once, since both ascend, up to the end of either.
fn targets(
    alloc: Global,
    mappings: &[FoldRange],
    intervals: &[Interval],
) -> Result<Vec<Interval>, AllocError>
    requires in_order { IsTrue (is_in_order mappings.now) }
    requires in_range { IsTrue (are_targets_in_range mappings.now) }
    requires canonical { IsCanonical intervals.now }
    ensures { IfOk result (λ found. (c : ℕ) →
        (is_member intervals.now c || is_member found.items c)
        ≡ (is_member intervals.now c || maps_to_by forward mappings.now (is_member intervals.now) c)) }
{
    let mut found = Vec::new(alloc);
    let mut rest = intervals;
    for mapping in mappings {
        rest = skip_below(rest, mapping.first());
        if rest.is_empty() {
            return Ok(found);
        }
        if rest[0].first() <= mapping.last() {
            push_targets(&mut found, &Shift::forward(mapping), intervals, rest)?;
        }
    }
    Ok(found)
}

/// Returns the code points that are mapped into the intervals, except for members. Traverses the entries, whose
/// canonical forms are in no order, with a binary search for each one whose canonical forms are between the ends of the
/// intervals.
fn sources(
    alloc: Global,
    mappings: &[FoldRange],
    intervals: &[Interval],
) -> Result<Vec<Interval>, AllocError>
    requires in_range { IsTrue (are_targets_in_range mappings.now) }
    requires canonical { IsCanonical intervals.now }
    ensures members { IfOk result (λ found. (c : ℕ) →
        (is_member intervals.now c || is_member found.items c)
        ≡ (is_member intervals.now c || maps_to_by backward mappings.now (is_member intervals.now) c)) }
    ensures nonempty { IfOk result (λ _. All (λ mapping. 1 ≤ mapping.length) mappings.now) }
{
    let mut found = Vec::new(alloc);
    let (low, high) = ends(intervals);
    for mapping in mappings {
        let first = mapping.shifted(mapping.first());
        if first <= high && low <= mapping.shifted(mapping.last()) {
            push_sources(&mut found, &Shift::backward(mapping), intervals)?;
        }
    }
    Ok(found)
}

/// Returns the first and the last member, or zeros if there is none.
fn ends(intervals: &[Interval]) -> (u32, u32)
    requires { IsCanonical intervals.now }
    ensures { (c : ℕ) → IsTrue (is_member intervals.now c) → (result.0 ≤ c) × (c ≤ result.1) }
{
    if intervals.is_empty() {
        return (0, 0);
    }
    (intervals[0].first(), intervals[intervals.len() - 1].last())
}

/// Returns the intervals without those that end below `low`. Linear in the number of intervals that are left out.
fn skip_below(intervals: &[Interval], low: u32) -> &[Interval]
    requires { IsCanonical intervals.now }
    ensures canonical { IsCanonical result.now }
    ensures within { (c : ℕ) → IsTrue (is_member result.now c) → IsTrue (is_member intervals.now c) }
    ensures members { (c : ℕ) → low ≤ c → is_member result.now c ≡ is_member intervals.now c }
{
    let mut position = 0;
    while position < intervals.len() && intervals[position].last() < low {
        position += 1;
    }
    &intervals[position..]
}

/// Returns the intervals without those that end below `low`. A binary search.
fn search(intervals: &[Interval], low: u32) -> &[Interval]
    requires { IsCanonical intervals.now }
    ensures canonical { IsCanonical result.now }
    ensures within { (c : ℕ) → IsTrue (is_member result.now c) → IsTrue (is_member intervals.now c) }
    ensures members { (c : ℕ) → low ≤ c → is_member result.now c ≡ is_member intervals.now c }
{
    &intervals[intervals.partition_point(|interval| interval.last() < low)..]
}

/// Appends what the shift maps the members of the intervals to, unless it maps its whole range to members. Finds the
/// first interval in its range by a binary search.
fn push_sources(
    found: &mut Vec<Interval>,
    shift: &Shift,
    intervals: &[Interval],
) -> Result<(), AllocError>
    requires shift { IsShift shift.now }
    requires canonical { IsCanonical intervals.now }
    ensures { OnOk result ((c : ℕ) → (is_member intervals.now c || is_member found.new.items c) ≡
        ((is_member intervals.now c || is_member found.old.items c) || maps_to shift.now (is_member intervals.now) c)) }
{
    if !maps_into_one(shift, intervals) {
        push_moved(found, shift, search(intervals, shift.first))?;
    }
    Ok(())
}

/// Appends what the shift maps the members of the intervals to, unless it maps its whole range to members. `rest` has
/// the intervals in its range.
fn push_targets(
    found: &mut Vec<Interval>,
    shift: &Shift,
    intervals: &[Interval],
    rest: &[Interval],
) -> Result<(), AllocError>
    requires shift { IsShift shift.now }
    requires canonical { IsCanonical intervals.now }
    requires rest_canonical { IsCanonical rest.now }
    requires rest_within { (c : ℕ) → IsTrue (is_member rest.now c) → IsTrue (is_member intervals.now c) }
    requires rest_members { (c : ℕ) → shift.now.first ≤ c → is_member rest.now c ≡ is_member intervals.now c }
    ensures { OnOk result ((c : ℕ) → (is_member intervals.now c || is_member found.new.items c) ≡
        ((is_member intervals.now c || is_member found.old.items c) || maps_to shift.now (is_member intervals.now) c)) }
{
    if !maps_into_one(shift, intervals) {
        push_moved(found, shift, rest)?;
    }
    Ok(())
}

/// Returns whether one of the intervals contains all that the shift maps its range to. A binary search.
fn maps_into_one(shift: &Shift, intervals: &[Interval]) -> bool
    requires shift { IsShift shift.now }
    requires canonical { IsCanonical intervals.now }
    ensures { IsTrue result → (p : ℕ → Bool) (c : ℕ) → IsTrue (maps_to shift.now p c) → IsTrue (is_member intervals.now c) }
{
    let first = shift.apply(shift.first);
    match search(intervals, first).first() {
        Some(interval) => interval.first() <= first && shift.apply(shift.last) <= interval.last(),
        None => false,
    }
}

/// Appends what the shift maps the code points of the intervals to, and perhaps code points of the intervals. Stops at
/// the first interval after the range of the shift.
fn push_moved(
    found: &mut Vec<Interval>,
    shift: &Shift,
    intervals: &[Interval],
) -> Result<(), AllocError>
    requires shift { IsShift shift.now }
    requires canonical { IsCanonical intervals.now }
    ensures { OnOk result ((c : ℕ) → (is_member intervals.now c || is_member found.new.items c) ≡
        ((is_member intervals.now c || is_member found.old.items c) || maps_to shift.now (is_member intervals.now) c)) }
{
    for interval in intervals {
        if shift.last < interval.first() {
            return Ok(());
        }
        push_overlap(found, shift, *interval)?;
    }
    Ok(())
}

/// Appends what the shift maps the code points of one interval to, and perhaps code points of the interval.
fn push_overlap(
    found: &mut Vec<Interval>,
    shift: &Shift,
    interval: Interval,
) -> Result<(), AllocError>
    requires { IsShift shift.now }
    ensures { OnOk result ((c : ℕ) → (is_within interval c || is_member found.new.items c) ≡
        ((is_within interval c || is_member found.old.items c) || maps_to shift.now (is_within interval) c)) }
{
    let first = shift.first.max(interval.first());
    let last = shift.last.min(interval.last());
    if last < first {
        return Ok(());
    }
    if shift.modulo == 1 {
        found.push(Interval::new(shift.apply(first), shift.apply(last)))?;
        return Ok(());
    }
    for c in first..last + 1 {
        if shift.moves(c) {
            push_target(found, c, shift.apply(c))?;
        }
    }
    Ok(())
}

/// Appends `target`, to which `source` is mapped, and `source` too if it is next to it: so letters in a row, of which
/// every second one is a member, become one interval with their canonical forms.
fn push_target(found: &mut Vec<Interval>, source: u32, target: u32) -> Result<(), AllocError>
    requires source { source ≤ code_point_max }
    requires target { target ≤ code_point_max }
    ensures { OnOk result ((c : ℕ) → ((c == source) || is_member found.new.items c) ≡
        (((c == source) || is_member found.old.items c) || (c == target))) }
{
    if source + 1 == target {
        push_joined(found, Interval::new(source, target))
    } else if target + 1 == source {
        push_joined(found, Interval::new(target, source))
    } else {
        found.push(Interval::new(target, target))?;
        Ok(())
    }
}

/// Appends the interval, or extends the last one by it.
fn push_joined(found: &mut Vec<Interval>, interval: Interval) -> Result<(), AllocError>
    ensures { OnOk result ((c : ℕ) → is_member found.new.items c ≡ (is_member found.old.items c || is_within interval c)) }
{
    match found.pop() {
        Some(last) => push_both(found, last, interval),
        None => {
            found.push(interval)?;
            Ok(())
        }
    }
}

/// Appends both intervals, as one if possible.
fn push_both(found: &mut Vec<Interval>, a: Interval, b: Interval) -> Result<(), AllocError>
    ensures { OnOk result ((c : ℕ) → is_member found.new.items c ≡ (is_member found.old.items c || (is_within a c || is_within b c))) }
{
    match joined(a, b) {
        Some(both) => found.push(both)?,
        None => {
            found.push(a)?;
            found.push(b)?;
        }
    }
    Ok(())
}

/// Returns both as one interval if the second one begins in the first one or right after it.
fn joined(a: Interval, b: Interval) -> Option<Interval>
    ensures { IfSome result (λ both. (c : ℕ) → is_within both c ≡ (is_within a c || is_within b c)) }
{
    if a.first() <= b.first() && b.first() <= a.last() + 1 {
        Some(Interval::new(a.first(), a.last().max(b.last())))
    } else {
        None
    }
}
