//! The question that a test case asks about a text, and the notation of its outcome.
ghost use Rattle.std.specs.Prelude.{◌≡◌, IfSome};
ghost use Rattle.regress_tree.specs.Tree.{tree};
ghost use Rattle.regress_match.specs.Pattern.{matcher_tree};

use crate::positions::{byte_position, characters_before};
use regress_match::{CompileFault, Found, Limits, Match, Matcher, MemoryFault, Outcome};
use regress_tree::ir::Regex;
use regress_unicode::Tables;
use std::sync::Arc;
use test_notation::{Call, Fault, Promise, parse_decimal};

/// The largest program of a test case. With tables it is this number divided by the positions in the text.
pub(crate) const INSTRUCTIONS: usize = 1_000_000;

/// Limits on stored instructions that are tried in turn.
const FEW_INSTRUCTIONS: [usize; 4] = [8, 16, 32, 64];

/// The number of matches after which a search for all ends.
pub(crate) const MATCHES: u32 = 100;

/// The step limit of a test case that states none.
pub(crate) const STEPS: u64 = 10_000_000;

/// The question about a text.
#[derive(Clone, Copy)]
pub(crate) enum Question {
    /// The first match, with this step limit if the search is not linear.
    First(u64),
    /// The match that starts after this number of characters.
    At(u32),
    /// All matches.
    All,
}

pub(crate) fn parse_question(call: &mut Call) -> Question {
    let field = call.field();
    if field == "find" || field == "linear" {
        return Question::First(STEPS);
    }
    if field == "all" || field == "linear all" {
        return Question::All;
    }
    let (name, number) = field.split_once(' ').unwrap_or((field, ""));
    let number = call.read(parse_decimal(number), 0);
    match name {
        "at" => Question::At(number),
        "find" => Question::First(u64::from(number)),
        _ => {
            call.fail(Fault::Line);
            Question::All
        }
    }
}

/// Returns a matcher that makes tables for programs of at most `linear_instructions` instructions.
pub(crate) fn matcher_of(
    call: &mut Call,
    regex: Regex,
    tables: &Arc<Tables>,
    linear_instructions: usize,
) -> Option<Matcher>
    ensures { IfSome result (λ matcher. matcher_tree matcher ≡ tree regex.node) }
{
    let limits = Limits {
        instructions: INSTRUCTIONS,
        linear_instructions,
        ..Limits::default()
    };
    match Matcher::new(call.alloc(), regex, tables, limits) {
        Ok(matcher) => Some(matcher),
        Err(CompileFault::Memory(_)) => {
            call.fail(Fault::Memory);
            None
        }
        Err(CompileFault::TooLong) => {
            call.say("too long");
            None
        }
    }
}

/// Returns a matcher without tables whose program has few stored instructions, or `None` if the least number of them is above
/// 64.
pub(crate) fn shortest_matcher(
    call: &mut Call,
    regex: &Regex,
    tables: &Arc<Tables>,
) -> Option<Matcher> {
    for instructions in FEW_INSTRUCTIONS {
        let limits = Limits {
            instructions,
            linear_instructions: 0,
            ..Limits::default()
        };
        let Ok(copy) = regex.try_clone(call.alloc()) else {
            call.fail(Fault::Memory);
            return None;
        };
        match Matcher::new(call.alloc(), copy, tables, limits) {
            Ok(matcher) => return Some(matcher),
            Err(CompileFault::Memory(_)) => {
                call.fail(Fault::Memory);
                return None;
            }
            Err(CompileFault::TooLong) => {}
        }
    }
    None
}

/// Appends the outcome of a search.
pub(crate) fn response_question(
    call: &mut Call,
    question: Question,
    matcher: &Matcher,
    text: &str,
) {
    match question {
        Question::First(steps) => {
            let steps = if matcher.is_find_linear() { 0 } else { steps };
            let found = matcher.find(call.alloc(), text, 0, steps);
            report_found(call, text, found, steps);
        }
        Question::At(characters) => {
            let position = call.read(byte_position(text, characters), 0);
            let position = position.min(text.len());
            let found = matcher.match_at(call.alloc(), text, position, STEPS);
            report_found(call, text, found, STEPS);
        }
        Question::All => report_all(call, matcher, text),
    }
}

/// Appends what a search has found. If it is out of steps, all of them have to be used.
fn report_found(call: &mut Call, text: &str, found: Result<Found, MemoryFault>, steps: u64) {
    match found {
        Ok(
            Found {
                outcome,
                steps: used,
            },
        ) => {
            let is_out = matches!(&outcome, Outcome::OutOfSteps);
            call.check(!is_out || used == steps, Promise::StepsAreUsed);
            report(call, text, &outcome);
        }
        Err(_) => call.fail(Fault::Memory),
    }
}

/// Appends all matches, separated by ` | `, at most [`MATCHES`]. A linear search has no step limit.
fn report_all(call: &mut Call, matcher: &Matcher, text: &str) {
    let steps = if matcher.is_linear() { 0 } else { STEPS };
    let mut matches = matcher.find_iter(text, 0, steps);
    for number in 0..MATCHES {
        let Ok(outcome) = matches.next(call.alloc()) else {
            call.fail(Fault::Memory);
            return;
        };
        let is_last = matches!(&outcome, Outcome::NoMatch);
        if is_last && number > 0 {
            return;
        }
        if number > 0 {
            call.say(" | ");
        }
        report(call, text, &outcome);
        if is_last {
            return;
        }
    }
}

/// Appends an outcome in the notation of test cases.
fn report(call: &mut Call, text: &str, outcome: &Outcome) {
    match outcome {
        Outcome::Matched(found) => report_spans(call, text, found),
        Outcome::NoMatch => call.say("none"),
        Outcome::OutOfSteps => call.say("out of steps"),
    }
}

/// Appends the spans of a match and of its groups, counted in characters.
pub(crate) fn report_spans(call: &mut Call, text: &str, found: &Match) {
    report_span(call, text, found.start(), found.end());
    for id in 0..found.group_count() {
        call.say(" ");
        match found.group(id) {
            Some((start, end)) => report_span(call, text, start, end),
            None => call.say("-"),
        }
    }
}

/// Appends a span, counted in characters.
fn report_span(call: &mut Call, text: &str, start: usize, end: usize) {
    call.add(&characters_before(text, start));
    call.say("-");
    call.add(&characters_before(text, end));
}
