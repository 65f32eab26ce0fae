//! The result of a test case for the matcher.

use crate::linear::{instruction_limit, response_linear};
use crate::outcome::{matcher_of, parse_question, response_question, shortest_matcher};
use crate::parsing::parse_in;
use crate::trees::optimize_watched;
use regress_parse::Dialect;
use regress_unicode::Tables;
use std::alloc::Global;
use std::sync::Arc;
use test_notation::{Call, Fault};

/// How a test case is matched.
#[derive(Clone, Copy, PartialEq, Eq)]
enum Way {
    /// By backtracking in the program of the parsed tree.
    Backtracking,
    /// By backtracking in a program of the parsed tree with few stored instructions: iterations are copied.
    Copies,
    /// By a matcher of the optimized tree, which goes on with tables if its program is linear.
    Matcher,
    /// By the tables of the program of the parsed tree, if it has no back reference.
    Tables,
}

/// Returns the first result that is not the expected one, in the dialect `Regress`, or after `ecma ` in the dialect `Ecma`,
/// or after `both ` in each of them.
pub(crate) fn match_difference(
    alloc: Global,
    line: &str,
    tables: &Arc<Tables>,
) -> Result<Option<String>, Fault> {
    let (fields, expected) = split_expected(alloc, line)?;
    if let Some(fields) = fields.strip_prefix("ecma ") {
        return difference_in(alloc, fields, &expected, tables, Dialect::Ecma);
    }
    let Some(fields) = fields.strip_prefix("both ") else {
        return difference_in(alloc, fields, &expected, tables, Dialect::Regress);
    };
    if let Some(found) = difference_in(alloc, fields, &expected, tables, Dialect::Regress)? {
        return Ok(Some(format!(in alloc; "{found} in the dialect Regress")?));
    }
    match difference_in(alloc, fields, &expected, tables, Dialect::Ecma)? {
        Some(found) => Ok(Some(format!(in alloc; "{found} in the dialect Ecma")?)),
        None => Ok(None),
    }
}

/// Returns the first result that is not the expected one: by backtracking and by copies, unless the question is `linear`; by
/// a matcher of the optimized tree; or by tables if the program has no back reference.
fn difference_in(
    alloc: Global,
    fields: &str,
    expected: &str,
    tables: &Arc<Tables>,
    dialect: Dialect,
) -> Result<Option<String>, Fault> {
    if !fields.starts_with("linear") {
        let found = difference_by(alloc, fields, expected, tables, dialect, Way::Backtracking)?;
        if found.is_some() {
            return Ok(found);
        }
    }
    // with tables there is no limit, and copies have other steps
    if expected == "out of steps" {
        return Ok(None);
    }
    if !fields.starts_with("linear") {
        if let Some(found) = difference_by(alloc, fields, expected, tables, dialect, Way::Copies)? {
            return Ok(Some(format!(in alloc; "{found} by copies")?));
        }
    }
    if let Some(found) = difference_by(alloc, fields, expected, tables, dialect, Way::Matcher)? {
        return Ok(Some(format!(in alloc; "{found} by the optimized tree")?));
    }
    match difference_by(alloc, fields, expected, tables, dialect, Way::Tables)? {
        Some(found) => Ok(Some(format!(in alloc; "{found} by tables")?)),
        None => Ok(None),
    }
}

/// Returns the result of a test case if it is not the expected one.
fn difference_by(
    alloc: Global,
    fields: &str,
    expected: &str,
    tables: &Arc<Tables>,
    dialect: Dialect,
    way: Way,
) -> Result<Option<String>, Fault> {
    let mut call = Call::new(alloc, fields);
    let question = parse_question(&mut call);
    let flags = call.flags();
    let read = parse_in(&mut call, flags, tables, dialect);
    let text = read_text(&mut call);
    if let Some(regex) = read {
        let mut regex = regex;
        match way {
            Way::Backtracking => {
                if let Some(matcher) = matcher_of(&mut call, regex, tables, 0) {
                    response_question(&mut call, question, &matcher, &text);
                }
            }
            Way::Copies => {
                let Some(matcher) = shortest_matcher(&mut call, &regex, tables) else {
                    call.finish()?;
                    return Ok(None);
                };
                response_question(&mut call, question, &matcher, &text);
            }
            Way::Matcher => {
                optimize_watched(&mut call, &mut regex);
                let limit = instruction_limit(&text);
                if let Some(matcher) = matcher_of(&mut call, regex, tables, limit) {
                    response_question(&mut call, question, &matcher, &text);
                }
            }
            Way::Tables => {
                if !response_linear(&mut call, question, &regex, tables, &text) {
                    call.finish()?;
                    return Ok(None);
                }
            }
        }
    }
    call.difference(expected)
}

/// Splits a line into the fields of a call and the expected result, which is a text.
pub(crate) fn split_expected(alloc: Global, line: &str) -> Result<(&str, String), Fault> {
    let Some((fields, expected)) = line.rsplit_once('\t') else {
        return Err(Fault::Line);
    };
    let mut call = Call::new(alloc, expected);
    let expected = read_text(&mut call);
    call.finish()?;
    Ok((fields, expected))
}

/// Parses the next field as a text.
pub(crate) fn read_text(call: &mut Call) -> String {
    let mut text = String::new(call.alloc());
    for point in &call.pattern() {
        let character = call.read(char::from_u32(*point), ' ');
        call.done(text.push(character));
    }
    text
}
