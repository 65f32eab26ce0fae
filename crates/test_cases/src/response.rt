//! The result of a test case.

use crate::generated::parts_of_large;
use crate::instructions::report_limits;
use crate::matching::match_difference;
use crate::parsing::{find_fault, report_bound, report_ecma, report_spans};
use crate::replacing::replace_difference;
use crate::tear::parse_all_torn;
use crate::trees::{make_on_tree, report_trees, whole};
use regress_base::types::Flags;
use regress_parse::{Error, ParseFault};
use regress_unicode::{Tables, TablesError};
use std::alloc::{AllocError, Global};
use std::hash::{DefaultHasher, Hash, Hasher};
use std::sync::Arc;
use test_notation::{Call, Fault, parse_flags};
use test_tree_cases::{copy_pieces, lower};

/// Returns the result of a test case over these tables, if it is not the expected one. A test case that begins with
/// flags is about a pattern's trees, one that begins with `match` about the matcher, and one that begins with `replace`,
/// `replace_all` or `split` about what is made of the matches.
pub(crate) fn difference_over(
    alloc: Global,
    line: &str,
    tables: &Arc<Tables>,
) -> Result<Option<String>, Fault> {
    let Some((first, list)) = line.split_once('\t') else {
        return Err(Fault::Line);
    };
    match parse_flags(first) {
        Some(flags) => list_difference(alloc, flags, list, tables),
        None if first == "match" => match_difference(alloc, list, tables),
        None if matches!(first, "replace" | "replace_all" | "split") => {
            replace_difference(alloc, line, tables)
        }
        None => call_difference(alloc, line, tables),
    }
}

fn list_difference(
    alloc: Global,
    flags: Flags,
    list: &str,
    tables: &Tables,
) -> Result<Option<String>, Fault> {
    let Some((pattern, expected)) = list.split_once('\t') else {
        return Err(Fault::Line);
    };
    let mut call = Call::new(alloc, pattern);
    report_trees(&mut call, flags, expected.contains('\t'), tables);
    match expected {
        "accepted" => rejected(call),
        _ => call.difference(expected),
    }
}

/// Returns the syntax error of a pattern that should be accepted, if it is rejected.
fn rejected(call: Call) -> Result<Option<String>, Fault> {
    let found = call.finish()?;
    Ok(if found.starts_with("error: ") {
        Some(found)
    } else {
        None
    })
}

fn call_difference(
    alloc: Global,
    line: &str,
    tables: &Arc<Tables>,
) -> Result<Option<String>, Fault> {
    let Some((fields, expected)) = line.rsplit_once('\t') else {
        return Err(Fault::Line);
    };
    let mut call = Call::new(alloc, fields);
    let name = call.field();
    make(&mut call, name, tables);
    call.difference(expected)
}

/// Makes the call with this name: one of the crates below, or else one of this crate.
fn make(call: &mut Call, name: &str, tables: &Arc<Tables>) {
    if test_base_cases::response(call, name, tables) || test_tree_cases::response(call, name) {
        return;
    }
    match name {
        "out_of_memory" => want(call),
        "mutate" => parse_all_torn(call, tables),
        "errors" => errors(call),
        _ => make_under_flags(call, name, tables),
    }
}

/// Makes a call under flags: on literals, on a large pattern, or on a pattern.
fn make_under_flags(call: &mut Call, name: &str, tables: &Arc<Tables>) {
    let flags = call.flags();
    match name {
        "lower" => lower(call, flags, tables),
        "pieces" => copy_pieces(call, flags, tables),
        "ascend" | "descend" | "named" => parts_of_large(call, name, flags, tables),
        "whole" => whole(call, flags, tables),
        "position" => find_fault(call, flags, tables),
        "ecma" => report_ecma(call, flags, tables),
        "spans" => report_spans(call, flags, tables),
        "bound" => report_bound(call, flags),
        "instructions" => report_limits(call, flags, tables),
        _ => make_on_tree(call, name, flags, tables),
    }
}

/// Reports how one error compares to another, whether they are equal, and whether their hashes are.
fn errors(call: &mut Call) {
    let one = read_error(call);
    let other = read_error(call);
    call.show(&one.cmp(&other));
    call.report(&(one == other));
    call.report(&(hash_of(&one) == hash_of(&other)));
}

fn read_error(call: &mut Call) -> Error {
    let alloc = call.alloc();
    let text = String::from_str(alloc, call.field());
    Error {
        text: call.made(text, String::new(alloc)),
    }
}

fn hash_of(error: &Error) -> u64 {
    let mut hasher = DefaultHasher::new();
    error.hash(&mut hasher);
    hasher.finish()
}

/// Reports how an allocation failure prints, as an error of parsing or of making a table.
fn want(call: &mut Call) {
    match call.field() {
        "parsing" => call.report(&ParseFault::from(AllocError)),
        "a table" => call.report(&TablesError::from(AllocError)),
        _ => call.fail(Fault::Line),
    }
}
