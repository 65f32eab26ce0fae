//! Calls on intervals, and the range of equal elements in a list.

use regress_base::util::equal_range_by;
use test_notation::Call;

/// Makes the call with this name, and returns whether there is one.
pub(crate) fn response(call: &mut Call, name: &str) -> bool {
    match name {
        "compare" => compare(call),
        "overlap" => overlap(call),
        "points" => count(call),
        "equal" => find_equal(call),
        _ => return false,
    }
    true
}

/// For each number, reports how the interval compares to it, and whether it contains it.
fn compare(call: &mut Call) {
    let interval = call.interval();
    for number in &call.numbers() {
        call.show(&interval.compare(*number));
        call.report(&interval.contains(*number));
    }
}

/// Reports whether two intervals have a common member.
fn overlap(call: &mut Call) {
    let one = call.interval();
    let other = call.interval();
    call.report(&one.overlaps(other));
}

/// Reports the code points of an interval as a range, and their number.
fn count(call: &mut Call) {
    let interval = call.interval();
    call.show(&interval.codepoints());
    call.report(&interval.count_codepoints());
}

/// Reports the range of the elements of an ascending list that are equal to a number.
fn find_equal(call: &mut Call) {
    let wanted = call.number();
    let list = call.numbers();
    call.show(&equal_range_by(&list, |number: &u32| number.cmp(&wanted)));
}
