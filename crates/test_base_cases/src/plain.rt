//! Calls on plain values: brackets, groups, loops, limits, and classes of characters.

use regress_base::charclasses::{
    digit_intervals, line_terminator_intervals, white_space_intervals, word_intervals,
};
use regress_base::codepointset::{CODE_POINT_MAX, CodePointSet};
use regress_base::types::{
    BracketContents, GroupData, LoopData, MAX_CAPTURE_GROUPS, MAX_CHAR_SET_LENGTH, MAX_LOOPS,
    MAX_NESTING_DEPTH,
};
use test_notation::{Call, Fault, parse_decimal};

/// Makes the call with this name, and returns whether there is one.
pub(crate) fn response(call: &mut Call, name: &str) -> bool {
    match name {
        "class" => class(call),
        "plain" => values(call),
        "bracket" => bracket(call),
        "group" => group(call),
        _ => return false,
    }
    true
}

/// Reports the intervals of a class of characters.
fn class(call: &mut Call) {
    match call.field() {
        "digits" => call.report_intervals(&digit_intervals()),
        "words" => call.report_intervals(&word_intervals()),
        "spaces" => call.report_intervals(&white_space_intervals()),
        "line terminators" => call.report_intervals(&line_terminator_intervals()),
        _ => call.fail(Fault::Line),
    }
}

/// Reports the limits, or a loop that has not begun.
fn values(call: &mut Call) {
    match call.field() {
        "limits" => {
            call.report(&MAX_CAPTURE_GROUPS);
            call.report(&MAX_LOOPS);
            call.report(&MAX_NESTING_DEPTH);
            call.report(&MAX_CHAR_SET_LENGTH);
            call.report(&CODE_POINT_MAX);
        }
        "loop" => {
            let LoopData { iters, entry } = LoopData::new(7u32);
            call.report(&iters);
            call.report(&entry);
        }
        _ => call.fail(Fault::Line),
    }
}

/// Reports whether a bracket and its copy never match, and the copy's `Debug` form. The first field is `^` if it is
/// inverted.
fn bracket(call: &mut Call) {
    let alloc = call.alloc();
    let invert = call.field() == "^";
    let cps = call.set();
    let contents = BracketContents { invert, cps };
    call.report(&contents.is_empty());
    let nothing = BracketContents {
        invert,
        cps: CodePointSet::new(alloc),
    };
    let copy = call.made(contents.try_clone(alloc), nothing);
    call.report(&copy.is_empty());
    call.show(&copy);
}

/// Reports which ends of a group are set, its range, and its range after a reset. An end that is not a number is unset.
fn group(call: &mut Call) {
    let mut group = GroupData::<u32>::new();
    group.start = parse_decimal(call.field());
    group.end = parse_decimal(call.field());
    call.report(&group.start_matched());
    call.report(&group.end_matched());
    call.show(&group.as_range());
    group.reset();
    call.show(&group.as_range());
}
