//! Tests of the calls of `regress`, each on a pattern whose matches ECMA-262 states.

use regress::{
    Error, Flags, FlagsError, Match, Nonlinear, Options, Regex, SearchError, Tables, parse_flags,
};
use std::alloc::Global;
use std::ops::Range;
use std::sync::Arc;
use std::test::Fail;

#[test]
fn a_regular_expression_has_the_source_and_the_flags_of_its_pattern(
    rt: HostRuntime,
) -> Result<(), Fail> {
    let alloc = rt.alloc();
    let regex = Regex::with_flags(alloc, "(?<x>a)|(c)", "ig")?;
    expect_eq!(rt; regex.source(), "(?<x>a)|(c)");
    let text = regex.to_string(alloc)?;
    expect_eq!(rt; text.as_str(), "(?<x>a)|(c)");
    assert!(rt; regex.flags().icase);
    Ok(())
}

#[test]
fn the_names_of_groups_are_listed(rt: HostRuntime) -> Result<(), Fail> {
    let alloc = rt.alloc();
    let regex = Regex::new(alloc, "(?<x>a)|(?<y>b)|(c)")?;
    expect_eq!(rt; regex.group_count(), 3);
    expect_eq!(rt;
        names_of(alloc, &regex)?.as_slice(),
        [Some("x"), Some("y"), None].as_slice()
    );
    Ok(())
}

fn names_of(alloc: Global, regex: &Regex) -> Result<Vec<Option<&str>>, Fail> {
    let mut names = Vec::new(alloc);
    for name in regex.group_names() {
        names.push(name)?;
    }
    Ok(names)
}

#[test]
fn a_text_is_tested_for_a_match(rt: HostRuntime) -> Result<(), Fail> {
    for (pattern, flags, text, wanted) in &[
        ("a|b", "i", "xB", true),
        ("a|b", "i", "x", false),
        // the simple case folding of U+1E9E is U+00DF
        ("^stra\u{DF}e$", "iu", "STRA\u{1E9E}E", true),
    ] {
        expect_eq!(rt; matches(rt.alloc(), pattern, flags, text)?, *wanted, "{pattern}");
    }
    Ok(())
}

fn matches(alloc: Global, pattern: &str, flags: &str, text: &str) -> Result<bool, Fail> {
    Ok(Regex::with_flags(alloc, pattern, flags)?.is_match(alloc, text)?)
}

#[test]
fn the_groups_of_a_match_are_listed(rt: HostRuntime) -> Result<(), Fail> {
    let alloc = rt.alloc();
    let regex = Regex::new(alloc, "(?<x>a)|(?<y>b)|(c)")?;
    match regex.find_at(alloc, "ab", 1)? {
        Some(found) => {
            let wanted = [Some(1..2), None, Some(1..2), None];
            expect_eq!(rt; groups_of(alloc, &found)?.as_slice(), wanted.as_slice());
            assert!(rt; found.named_group("x").is_none());
            assert!(rt; has_y_alone(&found));
        }
        None => assert!(rt; false, "it matches"),
    }
    Ok(())
}

fn groups_of(alloc: Global, found: &Match<'_>) -> Result<Vec<Option<Range<usize>>>, Fail> {
    let mut groups = Vec::new(alloc);
    for group in found.groups() {
        groups.push(group)?;
    }
    Ok(groups)
}

/// Returns whether the named groups are x, which is unset, and y.
fn has_y_alone(found: &Match<'_>) -> bool {
    let mut named = found.named_groups();
    named.next() == Some(("x", None))
        && named.next() == Some(("y", Some(1..2)))
        && named.next().is_none()
}

#[test]
fn matches_from_an_offset_on_are_found(rt: HostRuntime) -> Result<(), Fail> {
    let alloc = rt.alloc();
    let regex = Regex::new(alloc, "b|c")?;
    expect_eq!(rt; regex.find_all(alloc, "bxc")?.len(), 2);
    expect_eq!(rt; regex.find_from(alloc, "bxc", 1).count(), 1);
    Ok(())
}

#[test]
fn names_of_groups_are_identifiers_of_unicode(rt: HostRuntime) -> Result<(), Fail> {
    let alloc = rt.alloc();
    let regex = Regex::new(alloc, "(?<größe>\\d+)")?;
    match regex.find(alloc, "x12")? {
        Some(found) => expect_eq!(rt; found.named_group("größe"), Some(1..3)),
        None => assert!(rt; false, "it matches"),
    }
    Ok(())
}

#[test]
fn letters_that_specify_no_flags_are_an_error(rt: HostRuntime) -> Result<(), Fail> {
    for (letters, text) in &[
        ("gg", "flag g occurs twice"),
        ("iI", "unknown flag I"),
        ("uv", "flags u and v exclude each other"),
    ] {
        // the pattern is not parsed
        let message = rejection(rt.alloc(), "(", letters)?;
        expect_eq!(rt; message.as_deref(), Some(*text));
    }
    Ok(())
}

/// Returns the message of the error about letters of flags, `None` if there is none.
fn rejection(alloc: Global, pattern: &str, letters: &str) -> Result<Option<String>, Fail> {
    match Regex::with_flags(alloc, pattern, letters) {
        Err(error @ Error::Flags(_)) => Ok(Some(error.to_string(alloc)?)),
        _ => Ok(None),
    }
}

#[test]
fn a_pattern_may_have_lone_surrogates(rt: HostRuntime) -> Result<(), Fail> {
    let alloc = rt.alloc();
    let regex = with_lone_surrogate(alloc)?;
    expect_eq!(rt; regex.source(), "a\u{FFFD}|b\u{1F600}");
    // UTF-8 has no surrogates
    for (text, wanted) in &[("a\u{FFFD} a\u{1F600}", false), ("b\u{1F600}", true)] {
        expect_eq!(rt; regex.is_match(alloc, text)?, *wanted);
    }
    Ok(())
}

/// Compiles `a`, the first half of U+1F600, or `b`, U+1F600.
fn with_lone_surrogate(alloc: Global) -> Result<Regex, Fail> {
    let tables = Arc::new(alloc, Tables::small(alloc)?)?;
    let points = [0x61, 0xD83D, 0x7C, 0x62, 0x1F600];
    let flags = Flags::default();
    Ok(Regex::from_unicode(alloc, &points, flags, Options::default(), &tables)?)
}

#[test]
fn a_syntax_error_has_a_position(rt: HostRuntime) -> Result<(), Fail> {
    match Regex::new(rt.alloc(), "a(") {
        Err(Error::Syntax { position, .. }) => expect_eq!(rt; position, 1),
        _ => assert!(rt; false, "it is rejected"),
    }
    Ok(())
}

#[test]
fn a_pattern_that_is_too_large_is_rejected(rt: HostRuntime) -> Result<(), Fail> {
    let few_nodes = Options {
        nodes: 5,
        ..Options::default()
    };
    let few_instructions = Options {
        instructions: 5,
        ..Options::default()
    };
    assert!(rt; is_too_large(rt.alloc(), "abc", few_nodes)?);
    assert!(rt; is_too_large(rt.alloc(), "[ab]{5}", few_instructions)?);
    Ok(())
}

fn is_too_large(alloc: Global, pattern: &str, options: Options) -> Result<bool, Fail> {
    let tables = Arc::new(alloc, Tables::small(alloc)?)?;
    let result = Regex::with_options(alloc, pattern, Flags::default(), options, &tables);
    Ok(matches!(result, Err(Error::TooLarge)))
}

/// What is stated of the searches of a pattern.
struct Searches {
    nonlinear: Option<Nonlinear>,
    /// Whether searches for all matches are linear.
    are_all_linear: bool,
    /// Whether a search for one match is linear.
    is_one_linear: bool,
    /// Whether there is a match, `None` if the search is out of steps.
    found: Option<bool>,
}

#[test]
fn searches_that_are_not_linear_have_a_step_limit(rt: HostRuntime) -> Result<(), Fail> {
    for (pattern, linear_instructions, wanted) in &[
        (
            "(a*)*b",
            0,
            Searches {
                nonlinear: Some(Nonlinear::TooManyInstructions),
                are_all_linear: false,
                is_one_linear: false,
                found: None,
            },
        ),
        (
            "x{2147483648}x",
            1000,
            Searches {
                nonlinear: Some(Nonlinear::TooManyInstructions),
                are_all_linear: false,
                is_one_linear: false,
                found: Some(false),
            },
        ),
        (
            "(a*)*b",
            1000,
            Searches {
                nonlinear: None,
                are_all_linear: true,
                is_one_linear: true,
                found: Some(false),
            },
        ),
        (
            "(a*)*\\1b",
            1000,
            Searches {
                nonlinear: Some(Nonlinear::BackReference),
                are_all_linear: false,
                is_one_linear: false,
                found: None,
            },
        ),
        (
            "(?=(a))",
            1000,
            Searches {
                nonlinear: Some(Nonlinear::CapturingLookaround),
                are_all_linear: false,
                is_one_linear: true,
                found: Some(true),
            },
        ),
    ] {
        let regex = limited(rt.alloc(), pattern, 10, *linear_instructions)?;
        assert!(rt; are_as_stated(&regex, wanted), "{pattern}");
        expect_eq!(rt; found_in(rt.alloc(), &regex, MANY), wanted.found, "{pattern}");
    }
    Ok(())
}

/// A pattern of more than 1,000 instructions, a text of `start` and a number of times `part`, and where the first match
/// starts and ends.
#[derive(Clone, Copy)]
struct LargeCase {
    pattern: &'static str,
    start: &'static str,
    part: &'static str,
    times: usize,
    wanted: Option<(usize, usize)>,
}

/// The first pattern is one of ModSecurity. The digits of a range can be divided between two iterations in many ways: by
/// backtracking alone the search is out of steps where there are too few ranges.
#[test]
fn searches_with_large_patterns_are_linear(rt: HostRuntime) -> Result<(), Fail> {
    let alloc = rt.alloc();
    for case in &[
        LargeCase {
            pattern: "^bytes=(?:(?:\\d+)?-(?:\\d+)?\\s*,?\\s*){63}",
            start: "bytes=",
            part: "1111111111-",
            times: 62,
            wanted: None,
        },
        LargeCase {
            pattern: "^bytes=(?:(?:\\d+)?-(?:\\d+)?\\s*,?\\s*){63}",
            start: "bytes=",
            part: "1111111111-",
            times: 63,
            wanted: Some((0, 699)),
        },
        LargeCase {
            pattern: "([a-z]){1}([a-z0-9_]){2,254}",
            start: "1_a",
            part: "_0",
            times: 200,
            wanted: Some((2, 257)),
        },
    ] {
        let regex = Regex::new(alloc, case.pattern)?;
        assert!(rt; regex.is_linear(), "{}", case.pattern);
        let mut text = String::new(alloc);
        text.push_str(case.start)?;
        text.push_str(&case.part.repeat(alloc, case.times)?)?;
        let found = match regex.find(alloc, &text)? {
            Some(found) => Some((found.range().start, found.range().end)),
            None => None,
        };
        expect_eq!(rt; found, case.wanted, "{}", case.pattern);
    }
    Ok(())
}

fn are_as_stated(regex: &Regex, wanted: &Searches) -> bool {
    regex.nonlinear() == wanted.nonlinear
        && regex.is_linear() == wanted.are_all_linear
        && regex.steps_per_byte().is_some() == wanted.are_all_linear
        && regex.is_find_linear() == wanted.is_one_linear
        && regex.find_steps_per_byte().is_some() == wanted.is_one_linear
}

/// Returns whether a pattern has a match in a text, `None` if the search is out of steps.
fn found_in(alloc: Global, regex: &Regex, text: &str) -> Option<bool> {
    match regex.find(alloc, text) {
        Ok(found) => Some(found.is_some()),
        Err(_) => None,
    }
}

#[test]
fn an_iteration_ends_after_the_step_limit(rt: HostRuntime) -> Result<(), Fail> {
    let alloc = rt.alloc();
    let regex = limited(alloc, "(a*)*b", 10, 0)?;
    expect_eq!(rt; steps_until_end(alloc, &regex, MANY), Some(10));
    Ok(())
}

/// Returns the steps of an iteration that is out of steps at its first match and then ends, `None` for any other.
fn steps_until_end(alloc: Global, regex: &Regex, text: &str) -> Option<u64> {
    let mut matches = regex.find_iter(alloc, text);
    let is_out = matches!(matches.next(), Some(Err(SearchError::OutOfSteps)));
    if is_out && matches.next().is_none() {
        Some(matches.steps())
    } else {
        None
    }
}

/// For this text the tables of `(a*)*b` store between 40 and 100 bytes.
#[test]
fn tables_have_a_limit_of_memory(rt: HostRuntime) -> Result<(), Fail> {
    let alloc = rt.alloc();
    let small = within_memory(alloc, 40)?;
    assert!(rt; matches!(small.find(alloc, MANY), Err(SearchError::TooMuchMemory)));
    assert!(rt; matches!(small.is_match(alloc, MANY), Err(SearchError::TooMuchMemory)));
    assert!(rt; matches!(small.find_all(alloc, MANY), Err(SearchError::TooMuchMemory)));
    assert!(rt;
        matches!(
            small.replace_all(alloc, MANY, ""),
            Err(SearchError::TooMuchMemory)
        )
    );
    assert!(rt; matches!(small.split(alloc, MANY), Err(SearchError::TooMuchMemory)));
    let mut matches = small.find_iter(alloc, MANY);
    assert!(rt; matches!(matches.next(), Some(Err(SearchError::TooMuchMemory))));
    assert!(rt; matches.next().is_none());
    expect_eq!(rt; small.is_match(alloc, "aab")?, true);
    let large = within_memory(alloc, 100)?;
    expect_eq!(rt; large.is_match(alloc, MANY)?, false);
    expect_eq!(rt; Options::default().memory, 256 << 20);
    Ok(())
}

/// Compiles `(a*)*b` for searches with tables of at most `memory` bytes.
fn within_memory(alloc: Global, memory: usize) -> Result<Regex, Fail> {
    let options = Options {
        memory,
        ..Options::default()
    };
    let small = Arc::new(alloc, Tables::small(alloc)?)?;
    Ok(Regex::with_options(alloc, "(a*)*b", Flags::default(), options, &small)?)
}

/// A text on which nested loops backtrack exponentially.
const MANY: &str = "aaaaaaaaaaaaaaaaaaaaaaaaaaaaaaaaaaaaaaaaaaaa";

/// Compiles a pattern for searches of at most `steps` steps if they are not linear, with tables for programs of at most
/// `linear_instructions` instructions.
fn limited(
    alloc: Global,
    pattern: &str,
    steps: u64,
    linear_instructions: usize,
) -> Result<Regex, Fail> {
    let options = Options {
        steps,
        linear_instructions,
        ..Options::default()
    };
    let small = Arc::new(alloc, Tables::small(alloc)?)?;
    Ok(Regex::with_options(alloc, pattern, Flags::default(), options, &small)?)
}

#[test]
fn flags_are_rejected(rt: HostRuntime) -> Result<(), Fail> {
    assert!(rt; matches!(parse_flags("ii"), Err(FlagsError::Repeated('i'))));
    assert!(rt; matches!(parse_flags("gx"), Err(FlagsError::Unknown('x'))));
    assert!(rt; matches!(parse_flags("uv"), Err(FlagsError::UnicodeAndSets)));
    let flags = parse_flags("v")?;
    assert!(rt; flags.unicode);
    assert!(rt; flags.unicode_sets);
    Ok(())
}
