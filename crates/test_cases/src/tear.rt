//! Mutated patterns: cut off, with a code point doubled, with two swapped.
ghost use Rattle.std.specs.Prelude.{◌≤◌, All};

use regress_base::codepointset::CODE_POINT_MAX;
use regress_base::types::Flags;
use regress_front::optimizer::parse_and_optimize;
use regress_parse::ParseFault;
use regress_unicode::Tables;
use std::alloc::{AllocError, Global};
use test_notation::{Call, Fault, Promise};

/// How a pattern is mutated at a position.
#[derive(Clone, Copy)]
enum Tear {
    /// The code points after the position are cut off.
    Cut,
    /// The code point at the position is doubled.
    Double,
    /// The code point at the position and the next one are swapped.
    Swap,
}

/// Checks that each mutation of a pattern, under all flags, has a tree or a syntax error.
pub(crate) fn parse_all_torn(call: &mut Call, tables: &Tables) {
    let points = call.pattern();
    for position in 0..points.len() {
        parse_torn(call, tables, &points, Tear::Cut, position);
        parse_torn(call, tables, &points, Tear::Double, position);
        parse_torn(call, tables, &points, Tear::Swap, position);
    }
    call.say("a tree or a syntax error");
}

fn parse_torn(call: &mut Call, tables: &Tables, points: &[u32], tear: Tear, position: usize) {
    let alloc = call.alloc();
    let torn = call.made(torn_at(alloc, points, tear, position), Vec::new(alloc));
    let torn = call.in_range(torn);
    for number in 0..32u8 {
        parse_under(call, &torn, flags_of(number), tables);
    }
}

/// Returns the pattern mutated at a position.
fn torn_at(
    alloc: Global,
    points: &[u32],
    tear: Tear,
    position: usize,
) -> Result<Vec<u32>, AllocError> {
    let (front, back) = points.split_at_checked(position).unwrap_or((points, &[]));
    let mut torn = Vec::from_slice(alloc, front)?;
    match (tear, back) {
        (Tear::Cut, [first, ..]) => torn.push(*first)?,
        (Tear::Double, [first, ..]) => {
            torn.push(*first)?;
            torn.extend_from_slice(back)?;
        }
        (Tear::Swap, [first, second, rest @ ..]) => {
            torn.push(*second)?;
            torn.push(*first)?;
            torn.extend_from_slice(rest)?;
        }
        _ => {}
    }
    Ok(torn)
}

/// Checks that the pattern has a well-formed optimized tree or a syntax error.
fn parse_under(call: &mut Call, points: &[u32], flags: Flags, tables: &Tables)
    requires { All (λ c. c ≤ CODE_POINT_MAX) points.now }
{
    match parse_and_optimize(call.alloc(), points, flags, tables) {
        Ok((regex, done)) => {
            call.done(done);
            call.check(regex.is_well_formed(), Promise::WellFormed);
        }
        Err(ParseFault::Syntax(error)) => {
            call.check(!error.text.is_empty(), Promise::FaultIsReported);
        }
        Err(ParseFault::Memory(_)) => call.fail(Fault::Memory),
    }
}

/// Returns the flags whose bits are set, in the order of `imsuv`.
fn flags_of(number: u8) -> Flags {
    Flags {
        icase: number & 1 != 0,
        multiline: number & 2 != 0,
        dot_all: number & 4 != 0,
        unicode: number & 8 != 0,
        unicode_sets: number & 16 != 0,
    }
}
