//! Parses the patterns of test cases.
ghost use Rattle.std.specs.Prelude.{IfSome};
ghost use Rattle.regress_tree.specs.Tree.{tree};
ghost use Rattle.regress_tree.specs.WellFormed.{IsWellFormed};

use regress_base::types::Flags;
use regress_parse::{
    Dialect, Error, ParseFault, PlacedFault, node_bound, try_parse, try_parse_in,
    try_parse_with_position,
};
use regress_spans::{Span, try_parse_with_spans};
use regress_tree::ir::Regex;
use regress_unicode::Tables;
use test_notation::{Call, Fault, Promise};

/// Returns the tree of a pattern, or reports its syntax error.
pub(crate) fn parse_tree(call: &mut Call, flags: Flags, tables: &Tables) -> Option<Regex>
    ensures { IfSome result (λ regex. IsWellFormed (tree regex.node)) }
{
    let points = call.pattern();
    match try_parse(call.alloc(), &points, flags, tables) {
        Ok(regex) => Some(regex),
        Err(fault) => {
            report_fault(call, fault);
            None
        }
    }
}

/// Appends a syntax error in the notation of test cases, from a copy of it.
pub(crate) fn report_fault(call: &mut Call, fault: ParseFault) {
    match fault {
        ParseFault::Syntax(error) => {
            let copy = copy_of(call, &error);
            call.check(copy == error, Promise::CopyIsEqual);
            call.say("error: ");
            call.add(&ParseFault::Syntax(copy));
        }
        ParseFault::Memory(_) => call.fail(Fault::Memory),
    }
}

fn copy_of(call: &mut Call, error: &Error) -> Error {
    let alloc = call.alloc();
    let nothing = Error {
        text: String::new(alloc),
    };
    call.made(error.try_clone(alloc), nothing)
}

/// Reports the position and the text of a pattern's syntax error.
pub(crate) fn find_fault(call: &mut Call, flags: Flags, tables: &Tables) {
    let points = call.pattern();
    match try_parse_with_position(call.alloc(), &points, flags, tables) {
        Ok(_) => call.say("a tree"),
        Err(
            PlacedFault::Syntax {
                error,
                position,
                ..
            },
        ) => {
            call.report(&position);
            call.report(&error);
        }
        Err(PlacedFault::Memory(_)) => call.fail(Fault::Memory),
    }
}

/// Reports whether a pattern is accepted in the dialect `Ecma`.
pub(crate) fn report_ecma(call: &mut Call, flags: Flags, tables: &Tables) {
    if parse_in(call, flags, tables, Dialect::Ecma).is_some() {
        call.say("accepted");
    }
}

/// Returns the tree of a pattern in a dialect, or reports that it is rejected.
pub(crate) fn parse_in(
    call: &mut Call,
    flags: Flags,
    tables: &Tables,
    dialect: Dialect,
) -> Option<Regex>
    ensures { IfSome result (λ regex. IsWellFormed (tree regex.node)) }
{
    let points = call.pattern();
    match try_parse_in(call.alloc(), &points, flags, tables, dialect) {
        Ok(regex) => Some(regex),
        Err(PlacedFault::Syntax { .. }) => {
            call.say("rejected");
            None
        }
        Err(PlacedFault::Memory(_)) => {
            call.fail(Fault::Memory);
            None
        }
    }
}

/// Reports the span of each node of a pattern's tree, or its syntax error.
pub(crate) fn report_spans(call: &mut Call, flags: Flags, tables: &Tables) {
    let points = call.pattern();
    match try_parse_with_spans(call.alloc(), &points, flags, tables) {
        Ok(found) => {
            for span in &found.spans {
                report_span(call, *span);
            }
        }
        Err(fault) => report_fault(call, ParseFault::from(fault)),
    }
}

fn report_span(call: &mut Call, span: Span) {
    call.report(&span.start);
    call.say("-");
    call.add(&span.end);
}

/// Reports the bound of the number of nodes in the tree of a pattern.
pub(crate) fn report_bound(call: &mut Call, flags: Flags) {
    let points = call.pattern();
    call.report(&node_bound(&points, flags));
}
