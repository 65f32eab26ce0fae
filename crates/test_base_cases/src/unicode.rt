//! Calls on the mappings and the names of a table.

use regress_base::codepointset::CodePointSet;
use regress_base::types::Flags;
use regress_unicode::{
    Tables, add_icase_code_points, expand_code_point, fold, unfold_char, unfold_uppercase_char,
    uppercase,
};
use test_notation::{Call, parse_flags};

/// Makes the call with this name, and returns whether there is one.
pub(crate) fn response(call: &mut Call, name: &str, tables: &Tables) -> bool {
    match name {
        "close" => close(call, tables),
        "fold" | "uppercase" => targets(call, tables, name == "fold"),
        "unfold" | "unfold_upper" => unfold(call, tables, name == "unfold"),
        "expand" => expand(call, tables),
        "starts" => members(call, tables.id_start()),
        "continues" => members(call, tables.id_continue()),
        _ => return false,
    }
    true
}

/// Reports the closure of a set under case folding.
fn close(call: &mut Call, tables: &Tables) {
    let set = call.set();
    let alloc = call.alloc();
    let closed = call.made(add_icase_code_points(set, tables), CodePointSet::new(alloc));
    call.report_intervals(closed.intervals());
}

/// Reports the folded characters of code points, or their upper cases.
fn targets(call: &mut Call, tables: &Tables, by_fold: bool) {
    for point in &call.points() {
        let mapped = if by_fold {
            fold(*point, tables)
        } else {
            uppercase(*point, tables)
        };
        call.report(&mapped);
    }
}

/// Reports the code points with the same folding, or the same upper case, as one.
fn unfold(call: &mut Call, tables: &Tables, by_fold: bool) {
    let alloc = call.alloc();
    let point = call.point();
    let points = if by_fold {
        unfold_char(alloc, point, tables)
    } else {
        unfold_uppercase_char(alloc, point, tables)
    };
    let points = call.made(points, Vec::new(alloc));
    call.report_each(&points);
}

/// Reports the code points that a literal matches.
fn expand(call: &mut Call, tables: &Tables) {
    let alloc = call.alloc();
    let letters = call.field();
    let flags = call.read(parse_flags(letters), Flags::default());
    let point = call.point();
    let points = expand_code_point(alloc, point, flags.icase, flags.unicode, tables);
    let points = call.made(points, Vec::new(alloc));
    call.report_each(&points);
}

/// Reports which of the code points are in a set.
fn members(call: &mut Call, set: &CodePointSet) {
    for point in &call.points() {
        if set.contains(*point) {
            call.report(point);
        }
    }
}
