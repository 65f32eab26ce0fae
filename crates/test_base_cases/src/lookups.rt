//! Lookups of names in the lists of a table.

use regress_base::codepointset::CodePointSet;
use regress_unicode::Tables;
use test_notation::{Call, Fault};

/// Makes the call with this name, and returns whether there is one.
pub(crate) fn response(call: &mut Call, name: &str, tables: &Tables) -> bool {
    match name {
        "set" => {
            let list = call.field();
            listed_set(call, list, tables);
        }
        "strings" => strings(call, tables),
        "extent" => extent(call, tables),
        _ => return false,
    }
    true
}

/// Reports the set with a name in a list, or `none`.
pub(crate) fn listed_set(call: &mut Call, list: &str, tables: &Tables) {
    match set_of(call, list, tables) {
        Some(set) => call.report_intervals(set.intervals()),
        None => call.say("none"),
    }
}

/// Returns the set with a name in a list. The two sets of characters of names have the name `all`.
fn set_of(call: &mut Call, list: &str, tables: &Tables) -> Option<CodePointSet> {
    let name = call.field();
    let alloc = call.alloc();
    let found = match list {
        "general_category" => tables.general_category(alloc, name),
        "script" => tables.script(alloc, name),
        "script_extensions" => tables.script_extensions(alloc, name),
        "binary" => tables.binary(alloc, name),
        "id_start" if name == "all" => tables.id_start().try_clone(alloc).map(Some),
        "id_continue" if name == "all" => tables.id_continue().try_clone(alloc).map(Some),
        _ => {
            call.fail(Fault::Line);
            Ok(None)
        }
    };
    call.made(found, None)
}

/// Returns the strings with a name.
fn strings_of(call: &mut Call, tables: &Tables) -> Option<Vec<Vec<u32>>> {
    let name = call.field();
    let found = tables.strings(call.alloc(), name);
    call.made(found, None)
}

/// Reports the strings with a name, with ` | ` after each, or `none`.
fn strings(call: &mut Call, tables: &Tables) {
    match strings_of(call, tables) {
        Some(strings) => {
            for string in &strings {
                report_string(call, string);
                call.say(" | ");
            }
        }
        None => call.say("none"),
    }
}

/// Appends the numbers of a string, without a space before the first.
fn report_string(call: &mut Call, string: &[u32]) {
    let mut between = "";
    for number in string {
        call.say(between);
        call.add(number);
        between = " ";
    }
}

/// Reports the number of code points of the set with a name in a list, its first and its last; or `none`. For the list
/// `strings`: the number of strings, the first and the last.
fn extent(call: &mut Call, tables: &Tables) {
    let list = call.field();
    if list == "strings" {
        extent_of_strings(call, tables);
        return;
    }
    match set_of(call, list, tables) {
        Some(set) => extent_of_set(call, &set),
        None => call.say("none"),
    }
}

fn extent_of_set(call: &mut Call, set: &CodePointSet) {
    let mut count: usize = 0;
    for interval in set.intervals() {
        count = count.saturating_add(interval.count_codepoints());
    }
    call.report(&count);
    if let Some(first) = set.intervals().first() {
        call.report(&first.first());
    }
    if let Some(last) = set.intervals().last() {
        call.report(&last.last());
    }
}

fn extent_of_strings(call: &mut Call, tables: &Tables) {
    let Some(strings) = strings_of(call, tables) else {
        call.say("none");
        return;
    };
    call.report(&strings.len());
    if let Some(first) = strings.first() {
        call.say(" | ");
        report_string(call, first);
    }
    if let Some(last) = strings.last() {
        call.say(" | ");
        report_string(call, last);
    }
}
