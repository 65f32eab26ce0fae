//! The recursive function of docs/guide.md. The expected value is the length of the shortest text that matches.

use super::parsed;
use super::walks::alternation;
use example_callers::length::least_length;
use std::test::Fail;

#[test]
fn the_shortest_match_of_a_pattern(rt: HostRuntime) -> Result<(), Fail> {
    let alloc = rt.alloc();
    for (pattern, wanted) in &[
        ("", 0),
        ("abc", 3),
        ("(ab)[cd].", 4),
        ("abc|d|ef", 1),
        ("(?:ab){3,}c*", 6),
        ("(?:a|bcd){2}e?", 2),
        // a lookaround consumes nothing
        ("^(?=abc)d\\b(?<!e)", 1),
    ] {
        let regex = parsed(alloc, pattern, false)?;
        expect_eq!(rt; least_length(&regex.node), *wanted, "{pattern}");
    }
    Ok(())
}

#[test]
fn long_alternations_take_no_stack(rt: HostRuntime) -> Result<(), Fail> {
    let node = alternation(rt.alloc(), 200_000)?;
    expect_eq!(rt; least_length(&node), 0);
    Ok(())
}
