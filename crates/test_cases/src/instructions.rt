//! The number of instructions of a pattern's program.

use crate::parsing::parse_tree;
use regress_base::types::Flags;
use regress_match::{CompileFault, Limits, Matcher};
use regress_tree::ir::Regex;
use regress_unicode::Tables;
use std::sync::Arc;
use test_notation::{Call, Fault, Promise};

/// Reports whether the program of a pattern is too long for one stored instruction fewer than the next field states, and
/// for that number.
pub(crate) fn report_limits(call: &mut Call, flags: Flags, tables: &Arc<Tables>) {
    let parsed = parse_tree(call, flags, tables);
    let number = call.number() as usize;
    let Some(regex) = parsed else {
        return;
    };
    match regex.try_clone(call.alloc()) {
        Ok(copy) => {
            report_limit(call, copy, tables, number.saturating_sub(1));
            report_limit(call, regex, tables, number);
        }
        Err(_) => call.fail(Fault::Memory),
    }
}

/// Reports whether a pattern has a program within a limit. A matcher without tables is not linear.
fn report_limit(call: &mut Call, regex: Regex, tables: &Arc<Tables>, instructions: usize) {
    let limits = Limits {
        instructions,
        linear_instructions: 0,
        ..Limits::default()
    };
    match Matcher::new(call.alloc(), regex, tables, limits) {
        Ok(matcher) => {
            call.check(!matcher.is_find_linear(), Promise::NoTables);
            call.report(&"compiled");
        }
        Err(CompileFault::TooLong) => call.report(&"too long"),
        Err(CompileFault::Memory(_)) => call.fail(Fault::Memory),
    }
}
