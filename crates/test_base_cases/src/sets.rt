//! Calls on sets of code points.

use regress_base::codepointset::{CodePointSet, is_canonical};
use std::alloc::AllocError;
use test_notation::{Call, Fault, Promise};

/// Makes the call with this name, and returns whether there is one.
pub(crate) fn response(call: &mut Call, name: &str) -> bool {
    match name {
        "add" | "add_one" => add(call, name == "add"),
        "add_set" | "intersect" | "remove" => combine(call, name),
        "inverted" => invert(call),
        "members" => members(call),
        "canonical" => copy_canonical(call),
        _ => return false,
    }
    true
}

/// Reports the set after `add` of each interval, or after `add_one` of the first code point of each.
fn add(call: &mut Call, all: bool) {
    let mut set = call.set();
    for interval in &call.intervals() {
        let before = copy_of(call, &set);
        let added = if all {
            set.add(*interval)
        } else {
            set.add_one(interval.first())
        };
        keep(call, added, &set, &before);
    }
    call.report_intervals(set.intervals());
}

/// Reports the set after a call with another set.
fn combine(call: &mut Call, name: &str) {
    let mut set = call.set();
    let other = call.set();
    let before = copy_of(call, &set);
    let combined = match name {
        "add_set" => set.add_set(other),
        "intersect" => set.intersect(other.intervals()),
        _ => set.remove(other.intervals()),
    };
    keep(call, combined, &set, &before);
    call.report_intervals(set.intervals());
}

fn copy_of(call: &mut Call, set: &CodePointSet) -> CodePointSet {
    let alloc = call.alloc();
    call.made(set.try_clone(alloc), CodePointSet::new(alloc))
}

/// Checks that a failed allocation leaves the set unchanged, and records it.
fn keep(call: &mut Call, done: Result<(), AllocError>, set: &CodePointSet, before: &CodePointSet) {
    if done.is_err() {
        call.check(set == before, Promise::SetIsKept);
        call.fail(Fault::Memory);
    }
}

/// Reports the complement, and checks that it has the predicted number of intervals and that its complement is the set.
fn invert(call: &mut Call) {
    let set = call.set();
    let inverted = complement_of(call, &set);
    let again = complement_of(call, &inverted);
    let count = inverted.intervals().len();
    call.check(set.inverted_interval_count() == count, Promise::CopyIsEqual);
    call.check(again == set, Promise::CopyIsEqual);
    call.report_intervals(inverted.intervals());
}

fn complement_of(call: &mut Call, set: &CodePointSet) -> CodePointSet {
    let alloc = call.alloc();
    call.made(set.inverted(), CodePointSet::new(alloc))
}

/// Reports which of the code points are members.
fn members(call: &mut Call) {
    let set = call.set();
    for point in &call.points() {
        if set.contains(*point) {
            call.report(point);
        }
    }
}

/// Reports the `Debug` form of a copy of the set with these intervals, if they are canonical.
fn copy_canonical(call: &mut Call) {
    let intervals = call.intervals();
    if !is_canonical(&intervals) {
        call.say("no");
        return;
    }
    let set = CodePointSet::from_sorted_disjoint_intervals(intervals);
    let copy = copy_of(call, &set);
    call.check(copy == set, Promise::CopyIsEqual);
    call.show(&copy);
}
