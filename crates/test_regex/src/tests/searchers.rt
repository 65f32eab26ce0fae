//! Tests of `Searcher`. Expected values are V8's.

use regress::{Flags, Options, Regex, SearchError, Searcher, Tables};
use std::sync::Arc;
use std::test::Fail;

/// The memory of a search with many groups, and of one that failed, has no effect on the next one.
#[test]
fn a_searcher_serves_several_patterns(rt: HostRuntime) -> Result<(), Fail> {
    let alloc = rt.alloc();
    let mut searcher = Searcher::new(alloc);
    let many = Regex::new(alloc, "(?=(a+))(a)(b)?|(c)")?;
    let none = Regex::new(alloc, "b")?;
    let one = Regex::new(alloc, "(b)|a")?;
    for _ in 0..2 {
        if let Some(found) = searcher.find_at(alloc, &many, "aab", 0)? {
            expect_eq!(rt; found.group(1), Some(0..2));
            expect_eq!(rt; found.group(3), None);
            searcher.recycle(found);
        }
        assert!(rt; searcher.find_at(alloc, &none, "aca", 0)?.is_none());
        match searcher.find_at(alloc, &one, "ab", 0)? {
            Some(found) => {
                expect_eq!(rt; found.range(), 0..1);
                expect_eq!(rt; found.group(1), None);
                searcher.recycle(found);
            }
            None => assert!(rt; false, "it matches"),
        }
        assert!(rt; searcher.is_match(alloc, &many, "xc")?);
        assert!(rt; !searcher.is_match(alloc, &many, "xb")?);
    }
    Ok(())
}

#[test]
fn a_searcher_serves_after_it_was_out_of_steps(rt: HostRuntime) -> Result<(), Fail> {
    let alloc = rt.alloc();
    let tables = Arc::new(alloc, Tables::small(alloc)?)?;
    let options = Options {
        steps: 1000,
        ..Options::default()
    };
    let regex = Regex::with_options(alloc, "(a*)*\\1b", Flags::default(), options, &tables)?;
    let mut searcher = Searcher::new(alloc);
    let found = searcher.is_match(alloc, &regex, "aaaaaaaaaaaaaaaaaaaaaaaaaaac");
    assert!(rt; matches!(found, Err(SearchError::OutOfSteps)));
    match searcher.find_at(alloc, &regex, "aab", 0)? {
        Some(found) => {
            expect_eq!(rt; found.range(), 0..3);
            expect_eq!(rt; found.group(1), Some(0..1));
        }
        None => assert!(rt; false, "it matches"),
    }
    Ok(())
}
