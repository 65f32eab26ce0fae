//! The examples of the doc comments of `Regex` and `Searcher`: each line of an example is here. Expected values are from ECMA-262.

use regress::{Nonlinear, Regex, Searcher, parse_flags};
use std::test::Fail;

#[test]
fn the_leftmost_match_is_found_with_its_groups(rt: HostRuntime) -> Result<(), Fail> {
    let alloc = rt.alloc();
    let regex = Regex::new(alloc, "(?<month>\\d\\d)-(\\d\\d)")?;
    match regex.find(alloc, "on 12-31")? {
        Some(found) => {
            expect_eq!(rt; found.range(), 3..8);
            expect_eq!(rt; found.named_group("month"), Some(3..5));
            expect_eq!(rt; found.group(2), Some(6..8));
        }
        None => assert!(rt; false, "it matches"),
    }
    let regex = Regex::new(alloc, "(?<month>\\d\\d)-(\\d\\d)")?;
    if let Some(found) = regex.find(alloc, "on 12-31")? {
        let date = regex.expand(alloc, "$2.$<month>.", "on 12-31", &found)?;
        expect_eq!(rt; date.as_str(), "31.12.");
    }
    Ok(())
}

#[test]
fn letters_are_flags(rt: HostRuntime) -> Result<(), Fail> {
    let alloc = rt.alloc();
    let regex = Regex::with_flags(alloc, "\\p{Script=Greek}+", "u")?;
    match regex.find(alloc, "a βγ")? {
        Some(found) => expect_eq!(rt; found.range(), 2..6),
        None => assert!(rt; false, "it matches"),
    }
    assert!(rt; Regex::with_flags(alloc, "a", "gg").is_err());
    Ok(())
}

#[test]
fn all_matches_are_found(rt: HostRuntime) -> Result<(), Fail> {
    let alloc = rt.alloc();
    let regex = Regex::new(alloc, "a+")?;
    let mut ends = Vec::new(alloc);
    for found in regex.find_iter(alloc, "aabxa") {
        ends.push(found?.end())?;
    }
    expect_eq!(rt; ends.as_slice(), [2, 5].as_slice());
    Ok(())
}

#[test]
fn a_full_stop_matches_one_code_unit_without_u_in_javascript(rt: HostRuntime) -> Result<(), Fail> {
    let alloc = rt.alloc();
    let regex = Regex::new(alloc, "^.$")?;
    assert!(rt; regex.is_exact_for("é"));
    assert!(rt; !regex.is_exact_for("😀"));
    assert!(rt; Regex::with_flags(alloc, "^.$", "u")?.is_exact_for("😀"));
    assert!(rt; Regex::new(alloc, "\\bfoo\\b")?.is_exact_for("😀"));
    Ok(())
}

#[test]
fn searches_are_linear(rt: HostRuntime) -> Result<(), Fail> {
    let alloc = rt.alloc();
    assert!(rt; Regex::new(alloc, "(?:a|a)*b")?.is_linear());
    Ok(())
}

#[test]
fn a_search_for_one_match_is_linear_where_a_lookahead_captures(
    rt: HostRuntime,
) -> Result<(), Fail> {
    let alloc = rt.alloc();
    let regex = Regex::new(alloc, "(?=(a*))a*b")?;
    assert!(rt; regex.is_find_linear());
    assert!(rt; !regex.is_linear());
    Ok(())
}

#[test]
fn a_pattern_with_a_back_reference_is_not_linear(rt: HostRuntime) -> Result<(), Fail> {
    let alloc = rt.alloc();
    let regex = Regex::new(alloc, "(a)\\1")?;
    expect_eq!(rt; regex.nonlinear(), Some(Nonlinear::BackReference));
    Ok(())
}

#[test]
fn a_literal_that_each_match_contains_is_found(rt: HostRuntime) -> Result<(), Fail> {
    let alloc = rt.alloc();
    let regex = Regex::new(alloc, "(?:id|name)=x+, user=\\d+")?;
    expect_eq!(rt; regex.required_literal(), Some(", user=".as_bytes()));
    assert!(rt; Regex::new(alloc, "user=|id=")?.required_literal().is_none());
    Ok(())
}

#[test]
fn flags_are_parsed(rt: HostRuntime) -> Result<(), Fail> {
    let flags = parse_flags("gi")?;
    assert!(rt; flags.icase);
    assert!(rt; !flags.unicode);
    assert!(rt; parse_flags("uv").is_err());
    Ok(())
}

#[test]
fn a_template_swaps_two_words(rt: HostRuntime) -> Result<(), Fail> {
    let alloc = rt.alloc();
    let regex = Regex::new(alloc, "(\\w+) (\\w+)")?;
    let swapped = regex.replace(alloc, "one two three four", "$2 $1")?;
    expect_eq!(rt; swapped.as_str(), "two one three four");
    let swapped = regex.replace_all(alloc, "one two three four", "$2 $1")?;
    expect_eq!(rt; swapped.as_str(), "two one four three");
    Ok(())
}

#[test]
fn a_closure_returns_what_replaces_the_leftmost_match(rt: HostRuntime) -> Result<(), Fail> {
    let alloc = rt.alloc();
    let regex = Regex::new(alloc, "a+")?;
    let first = regex.replace_with(alloc, "aab", |m| Ok(format!(in alloc; "{}", m.end())?))?;
    expect_eq!(rt; first.as_str(), "2b");
    Ok(())
}

#[test]
fn a_closure_counts(rt: HostRuntime) -> Result<(), Fail> {
    let alloc = rt.alloc();
    let regex = Regex::new(alloc, "[a-z]")?;
    let mut count = 0_u8;
    let numbered = regex.replace_all_with(alloc, "a-b", |_| {
        count = count.wrapping_add(1);
        Ok(format!(in alloc; "{count}")?)
    })?;
    expect_eq!(rt; numbered.as_str(), "1-2");
    let regex = Regex::new(alloc, "[a-z]")?;
    let (replaced, count) = regex.replacen(alloc, "a-b-c", "<$&>", 2)?;
    expect_eq!(rt; replaced.as_str(), "<a>-<b>-c");
    expect_eq!(rt; count, 2);
    Ok(())
}

#[test]
fn a_text_is_split_at_commas(rt: HostRuntime) -> Result<(), Fail> {
    let alloc = rt.alloc();
    let regex = Regex::new(alloc, ",\\s*")?;
    let pieces = regex.split(alloc, "a, b,c,")?;
    expect_eq!(rt; pieces.as_slice(), ["a", "b", "c", ""].as_slice());
    let pieces = regex.splitn(alloc, "a, b,c", 2)?;
    expect_eq!(rt; pieces.as_slice(), ["a", "b,c"].as_slice());
    Ok(())
}

#[test]
fn captures_are_parts(rt: HostRuntime) -> Result<(), Fail> {
    let alloc = rt.alloc();
    let regex = Regex::new(alloc, "(-)|\\+")?;
    let parts = regex.split_with_captures(alloc, "1-2+3", None)?;
    let expected = [Some("1"), Some("-"), Some("2"), None, Some("3")];
    expect_eq!(rt; parts.as_slice(), expected.as_slice());
    Ok(())
}

#[test]
fn a_searcher_finds_the_match_in_each_text(rt: HostRuntime) -> Result<(), Fail> {
    let alloc = rt.alloc();
    let regex = Regex::new(alloc, "(\\d\\d)-(\\d\\d)")?;
    let mut searcher = Searcher::new(alloc);
    for (text, end) in [("on 12-31", 8), ("01-02", 5)] {
        match searcher.find_at(alloc, &regex, text, 0)? {
            Some(found) => {
                expect_eq!(rt; found.end(), end);
                searcher.recycle(found);
            }
            None => assert!(rt; false, "it matches"),
        }
    }
    Ok(())
}
