//! Generated patterns.

use crate::trees::optimize_watched;
use regress_base::types::Flags;
use regress_parse::{ParseFault, try_parse};
use regress_unicode::Tables;
use std::alloc::{AllocError, Global};
use test_notation::{Call, Fault, Promise};
use test_tree_cases::parts;

/// Reports the number of parts of the optimized tree of a large pattern, and the size of the first.
pub(crate) fn parts_of_large(call: &mut Call, name: &str, flags: Flags, tables: &Tables) {
    let alloc = call.alloc();
    let number = call.number();
    let points = call.made(generated(alloc, name, number), Vec::new(alloc));
    let points = call.in_range(points);
    match try_parse(alloc, &points, flags, tables) {
        Ok(regex) => {
            let mut regex = regex;
            optimize_watched(call, &mut regex);
            parts(call, &regex.node);
        }
        Err(ParseFault::Syntax(_)) => call.fail(Fault::Broken(Promise::ClassIsRead)),
        Err(ParseFault::Memory(_)) => call.fail(Fault::Memory),
    }
}

/// Returns a class of `number` ranges of two, ascending or descending, or `number` named groups in sequence.
fn generated(alloc: Global, name: &str, number: u32) -> Result<Vec<u32>, AllocError> {
    match name {
        "ascend" => class(alloc, number, false),
        "descend" => class(alloc, number, true),
        _ => groups(alloc, number),
    }
}

fn class(alloc: Global, number: u32, descends: bool) -> Result<Vec<u32>, AllocError> {
    let mut points = vec![in alloc; u32::from('[')]?;
    for index in 0..number {
        let position = if descends { number - index } else { index };
        let first = 0x80000u32.saturating_add(position.saturating_mul(3));
        points.extend_from_slice(&[first, u32::from('-'), first.saturating_add(1)])?;
    }
    points.push(u32::from(']'))?;
    Ok(points)
}

fn groups(alloc: Global, number: u32) -> Result<Vec<u32>, AllocError> {
    let mut points = Vec::new(alloc);
    for index in 0..number {
        for c in format!(in alloc; "(?<a{index}>x)")?.chars() {
            points.push(u32::from(c))?;
        }
    }
    Ok(points)
}
