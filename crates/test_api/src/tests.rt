//! Tests of what test cases in data files cannot express: the callers themselves, walks whose closures write, a caller's
//! own rewrite, and the examples of doc comments. Test cases for patterns and calls are the data of `test_cases`.
ghost use Rattle.std.specs.Prelude.{IfOk};
ghost use Rattle.regress_front.specs.Tree.{tree};
ghost use Rattle.regress_front.specs.WellFormed.{IsWellFormed};

/// As `assert_eq!`, but its message has the expressions in place of the values: so a test is proved in less time.
macro_rules! expect_eq {
    ($rt:expr; $left:expr, $right:expr $(,)?) => {
        assert!($rt; $left == $right)
    };
    ($rt:expr; $left:expr, $right:expr, $($message:tt)+) => {
        assert!($rt; $left == $right, $($message)+)
    };
}

mod calls;
mod candidates;
mod differences;
mod examples;
mod lengths;
mod linting;
mod passes;
mod pictures;
mod search_examples;
mod string_examples;
mod theorems;
mod walks;

use regress_front::ir::Regex;
use regress_front::parse::{ParseFault, try_parse};
use regress_front::types::Flags;
use regress_front::unicode::Tables;
use regress_front::util::code_points;
use std::alloc::Global;

/// Returns the parsed tree of a pattern over the small table, with the flag u or without flags.
fn parsed(alloc: Global, pattern: &str, unicode: bool) -> Result<Regex, ParseFault>
    ensures { IfOk result (λ regex. IsWellFormed (tree regex.node)) }
{
    let points = code_points(alloc, pattern)?;
    let tables = Tables::small(alloc)?;
    let flags = Flags {
        unicode,
        ..Flags::default()
    };
    try_parse(alloc, &points, flags, &tables)
}
