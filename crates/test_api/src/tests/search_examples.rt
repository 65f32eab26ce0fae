//! The examples of the doc comments of searches: each line of an example is here, those that make a `Matcher` once, in
//! `matcher_of`. Expected values are from ECMA-262.

use regress_code::Code;
use regress_front::parse::try_parse;
use regress_front::types::Flags;
use regress_front::unicode::Tables;
use regress_front::util::code_points;
use regress_leaves::known::Known;
use regress_match::{Cache, Limits, Matcher, Outcome};
use regress_tables::Linear;
use std::alloc::Global;
use std::sync::Arc;
use std::test::Fail;

/// Returns the matcher of a pattern's tree.
fn matcher_of(alloc: Global, pattern: &str) -> Result<Matcher, Fail> {
    let tables = Arc::new(alloc, Tables::small(alloc)?)?;
    let points = code_points(alloc, pattern)?;
    let regex = try_parse(alloc, &points, Flags::default(), &tables)?;
    let matcher = Matcher::new(alloc, regex, &tables, Limits::default())?;
    Ok(matcher)
}

#[test]
fn a_match_is_found(rt: HostRuntime) -> Result<(), Fail> {
    let alloc = rt.alloc();
    let tables = Tables::small(alloc)?;
    let points = code_points(alloc, "(a*)*b")?;
    let regex = try_parse(alloc, &points, Flags::default(), &tables)?;
    let code = Code::compile(alloc, &regex, 1000)?;
    let mut end = 0;
    if let Some(linear) = Linear::new(&code, Known::new(&tables, regex.flags)) {
        let search = linear.find(alloc, "xaaab", 0, 1000)?;
        if let Some(found) = &search.found {
            expect_eq!(rt; found.start(), 1);
            expect_eq!(rt; found.group(0), Some((1, 4)));
            end = found.end();
        }
    }
    expect_eq!(rt; end, 5);
    Ok(())
}

#[test]
fn a_program_has_a_back_reference(rt: HostRuntime) -> Result<(), Fail> {
    let alloc = rt.alloc();
    let tables = Tables::small(alloc)?;
    let points = code_points(alloc, "(a)\\1")?;
    let regex = try_parse(alloc, &points, Flags::default(), &tables)?;
    let code = Code::compile(alloc, &regex, 1000)?;
    let known = Known::new(&tables, regex.flags);
    assert!(rt; Linear::new(&code, known).is_none());
    Ok(())
}

#[test]
fn a_search_takes_linear_time(rt: HostRuntime) -> Result<(), Fail> {
    let alloc = rt.alloc();
    let matcher = matcher_of(alloc, "(a*)*b")?;
    assert!(rt; matcher.is_linear());
    let found = matcher.find(alloc, "xaaab", 0, 0)?;
    match &found.outcome {
        Outcome::Matched(found) => {
            expect_eq!(rt; found.start(), 1);
            expect_eq!(rt; found.end(), 5);
        }
        _ => assert!(rt; false, "it matches"),
    }
    Ok(())
}

#[test]
fn one_match_after_another_is_found(rt: HostRuntime) -> Result<(), Fail> {
    let alloc = rt.alloc();
    let matcher = matcher_of(alloc, "a+")?;
    let mut matches = matcher.find_iter("aabxa", 0, 0);
    let mut ends = Vec::new(alloc);
    for _ in 0..10 {
        if let Outcome::Matched(found) = matches.next(alloc)? {
            ends.push(found.end())?;
        }
    }
    expect_eq!(rt; ends.as_slice(), [2, 5].as_slice());
    Ok(())
}

#[test]
fn all_matches_are_listed(rt: HostRuntime) -> Result<(), Fail> {
    let alloc = rt.alloc();
    let matcher = matcher_of(alloc, "a+")?;
    let mut ends = Vec::new(alloc);
    match matcher.find_all(alloc, "aabxa", 0)? {
        Some(all) => {
            for found in &all {
                ends.push(found.end())?;
            }
        }
        None => assert!(rt; false, "it is linear"),
    }
    expect_eq!(rt; ends.as_slice(), [2, 5].as_slice());
    Ok(())
}

#[test]
fn a_pattern_matches_at_an_offset(rt: HostRuntime) -> Result<(), Fail> {
    let alloc = rt.alloc();
    let matcher = matcher_of(alloc, "b+")?;
    match &matcher.match_at(alloc, "abb", 1, 1000)?.outcome {
        Outcome::Matched(found) => expect_eq!(rt; found.end(), 3),
        _ => assert!(rt; false, "it matches"),
    }
    let found = matcher.match_at(alloc, "abb", 0, 1000)?;
    assert!(rt; matches!(&found.outcome, Outcome::NoMatch));
    Ok(())
}

#[test]
fn a_cache_serves_several_searches(rt: HostRuntime) -> Result<(), Fail> {
    let alloc = rt.alloc();
    let matcher = matcher_of(alloc, "(a+)b")?;
    let mut cache = Cache::new(alloc);
    for text in ["xab", "aab"] {
        let found = matcher.find_with(alloc, &mut cache, text, 0, 0)?;
        match found.outcome {
            Outcome::Matched(found) => {
                expect_eq!(rt; found.end(), 3);
                cache.recycle(found);
            }
            _ => assert!(rt; false, "it matches"),
        }
    }
    Ok(())
}
