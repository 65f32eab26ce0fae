//! Replacing the matches in a text, and splitting a text at them.
ghost use Rattle.regress_tree.specs.WellFormed.{IsWellFormed};
ghost use Rattle.regress_match.specs.Pattern.{matcher_tree};

use crate::matching::{read_text, split_expected};
use crate::outcome::{STEPS, matcher_of};
use crate::parsing::parse_tree;
use regress_match::{Matcher, MemoryFault, groups};
use regress_replace::{replace_matches, split_with_captures};
use regress_unicode::Tables;
use std::alloc::Global;
use std::sync::Arc;
use test_notation::{Call, Fault, parse_decimal};

/// The number of instructions up to which tables are made.
const TABLES: usize = 4_000;

/// Returns the result of a test case if it is not the expected one.
pub(crate) fn replace_difference(
    alloc: Global,
    line: &str,
    tables: &Arc<Tables>,
) -> Result<Option<String>, Fault> {
    let (fields, expected) = split_expected(alloc, line)?;
    let mut call = Call::new(alloc, fields);
    make(&mut call, tables);
    call.difference(&expected)
}

fn make(call: &mut Call, tables: &Arc<Tables>) {
    let name = call.field();
    let flags = call.flags();
    let read = parse_tree(call, flags, tables);
    let text = read_text(call);
    let Some(regex) = read else {
        return;
    };
    let Some(matcher) = matcher_of(call, regex, tables, TABLES) else {
        return;
    };
    match name {
        "replace" => report_replaced(call, &matcher, &text, 1),
        "replace_all" => report_replaced(call, &matcher, &text, usize::MAX),
        _ => report_parts(call, &matcher, &text),
    }
}

/// Appends the text with its first matches replaced by a template, the next field.
fn report_replaced(call: &mut Call, matcher: &Matcher, text: &str, first: usize)
    requires { IsWellFormed (matcher_tree matcher.now) }
{
    let alloc = call.alloc();
    let template = read_text(call);
    match replaced(alloc, matcher, text, &template, first) {
        Ok(replaced) => call.say(&replaced),
        Err(_) => call.fail(Fault::Memory),
    }
}

fn replaced(
    alloc: Global,
    matcher: &Matcher,
    text: &str,
    template: &str,
    first: usize,
) -> Result<String, MemoryFault>
    requires { IsWellFormed (matcher_tree matcher.now) }
{
    let groups = groups(alloc, matcher.regex())?;
    let Some(mut matches) = matcher.find_all(alloc, text, STEPS)? else {
        return Ok(String::from_str(alloc, "out of steps")?);
    };
    matches.truncate(first);
    Ok(replace_matches(alloc, text, &matches, template, &groups)?)
}

/// Appends the parts of the text, separated by ` | `, within the limit that the next field states.
fn report_parts(call: &mut Call, matcher: &Matcher, text: &str)
    requires { IsWellFormed (matcher_tree matcher.now) }
{
    let alloc = call.alloc();
    let limit = match call.field() {
        "-" => None,
        number => Some(call.read(parse_decimal(number), 0) as usize),
    };
    let Ok(parts) = parts(alloc, matcher, text, limit) else {
        call.fail(Fault::Memory);
        return;
    };
    let Some(parts) = parts else {
        call.say("out of steps");
        return;
    };
    if parts.is_empty() {
        call.say("none");
    }
    for (number, part) in parts.iter().enumerate() {
        if number > 0 {
            call.say(" | ");
        }
        call.say(part.unwrap_or("-"));
    }
}

/// Returns the parts, or `None` if the search takes too many steps.
fn parts<'a>(
    alloc: Global,
    matcher: &Matcher,
    text: &'a str,
    limit: Option<usize>,
) -> Result<Option<Vec<Option<&'a str>>>, MemoryFault>
    requires { IsWellFormed (matcher_tree matcher.now) }
{
    match matcher.find_all(alloc, text, STEPS)? {
        Some(matches) => Ok(Some(split_with_captures(alloc, text, &matches, limit)?)),
        None => Ok(None),
    }
}
