//! Searches by the tables of a program, for patterns without a back reference.

use crate::outcome::{INSTRUCTIONS, MATCHES, Question, report_spans};
use regress_code::Code;
use regress_leaves::known::Known;
use regress_program::{CompileFault, Nonlinear};
use regress_tables::{Linear, TextSearch};
use regress_tree::ir::Regex;
use regress_unicode::Tables;
use test_notation::{Call, Fault};

/// Returns the largest number of instructions of a program that is searched by tables in this text.
pub(crate) fn instruction_limit(text: &str) -> usize {
    INSTRUCTIONS / text.len().saturating_add(1)
}

/// Appends the outcome of a search by the tables of a program, as `response_question` does. Returns false if the pattern
/// has no program that is short and without a back reference, or if the question asks for no search. Any other program
/// of a parsed pattern has tables.
pub(crate) fn response_linear(
    call: &mut Call,
    question: Question,
    regex: &Regex,
    tables: &Tables,
    text: &str,
) -> bool {
    let most = match question {
        Question::First(_) => 1,
        Question::All => MATCHES,
        Question::At(_) => return false,
    };
    let alloc = call.alloc();
    let limit = instruction_limit(text);
    let code = match Code::compile(alloc, regex, limit) {
        Ok(code) => code,
        Err(CompileFault::Memory(_)) => {
            call.fail(Fault::Memory);
            return false;
        }
        Err(CompileFault::TooLong) => return false,
    };
    if !code.has_bounded_counts() || code.nonlinear() == Some(Nonlinear::BackReference) {
        return false;
    }
    match Linear::new(&code, Known::new(tables, regex.flags)) {
        Some(linear) => match linear.search(alloc, text, usize::MAX) {
            Ok(search) => report_matches(call, &search, text, most),
            Err(_) => call.fail(Fault::Memory),
        },
        None => call.say("no tables"),
    }
    true
}

/// Appends the first matches, separated by ` | `.
fn report_matches(call: &mut Call, search: &TextSearch<'_>, text: &str, most: u32) {
    let mut from = 0;
    for number in 0..most {
        let Ok(result) = search.find(call.alloc(), from) else {
            call.fail(Fault::Memory);
            return;
        };
        let Some(found) = result.found else {
            if number == 0 {
                call.say("none");
            }
            return;
        };
        if number > 0 {
            call.say(" | ");
        }
        report_spans(call, text, &found);
        from = found.end().max(found.start().saturating_add(1));
    }
}
