//! The linter of docs/guide.md.

use super::parsed;
use example_callers::linter::lint;
use example_callers::remarks::{Remark, remarks};
use regress_front::parse::Span;
use regress_front::types::Flags;
use regress_front::unicode::Tables;
use std::alloc::Global;
use std::test::Fail;

#[test]
fn a_linter_lists_groups_and_warns_of_nested_loops(rt: HostRuntime) -> Result<(), Fail> {
    let alloc = rt.alloc();
    for (pattern, wanted) in &[
        (
            "(?<year>a)|(b(c))",
            "Report { groups: [Group { id: 0, name: Some(\"year\") }, Group { id: 1, name: None }, Group { id: 2, name: None }], loops: 0, lookarounds: 0, nested: false }",
        ),
        (
            "(?:a+b)*(?=c)",
            "Report { groups: [], loops: 2, lookarounds: 1, nested: true }",
        ),
        // loops in sequence, and with a maximum
        (
            "a+b*(?:c+){3}",
            "Report { groups: [], loops: 4, lookarounds: 0, nested: false }",
        ),
    ] {
        let report = lint(alloc, &parsed(alloc, pattern, false)?)?;
        expect_eq!(rt;
            format!(in alloc; "{report:?}")?.as_str(),
            *wanted,
            "{pattern}"
        );
    }
    Ok(())
}

#[test]
fn nested_unbounded_loops_are_reported(rt: HostRuntime) -> Result<(), Fail> {
    let alloc = rt.alloc();
    for (pattern, wanted) in &[
        ("(a*)*", true),
        ("(?:b|(?=a{2,}))+", true),
        ("a*(?:b(?:c+d)?)*", true),
        ("(?:a+){2}", false),
        // the earlier loop is not around
        ("(?:b(?:c(?:a+)))(?:d?)e*", false),
        ("(?:a*|b+)c*", false),
        // two ways to match with one loop
        ("(?:a|a)*", false),
    ] {
        let report = lint(alloc, &parsed(alloc, pattern, false)?)?;
        expect_eq!(rt; report.nested, *wanted, "{pattern}");
    }
    Ok(())
}

// docs/differences.md has the first two patterns. V8 matches the others as this library does.
#[test]
fn what_matches_otherwise_than_in_javascript_is_explained(rt: HostRuntime) -> Result<(), Fail> {
    for (pattern, icase, wanted) in &[
        ("a[k]", true, Some((1, 4, "case-closure", "U+212A"))),
        (
            "(?:(?<a>x)|(?<a>y))\\k<a>",
            false,
            Some((19, 24, "same-name", "y of yy")),
        ),
        ("a[k]", false, None),
        ("a[b]", true, None),
        ("(?:(?<a>x)|(?<b>y))\\k<a>", false, None),
    ] {
        let found = remarked(rt.alloc(), pattern, *icase)?;
        assert!(rt; are_as_wanted(&found, *wanted), "{pattern}");
    }
    Ok(())
}

/// Returns the remarks on a pattern.
fn remarked(alloc: Global, pattern: &str, icase: bool) -> Result<Vec<Remark>, Fail> {
    let tables = Tables::small(alloc)?;
    let flags = Flags {
        icase,
        ..Flags::default()
    };
    Ok(remarks(alloc, pattern, flags, &tables)?)
}

/// Returns whether there is one remark with this span, name and example, or none if none is wanted.
fn are_as_wanted(found: &[Remark], wanted: Option<(usize, usize, &str, &str)>) -> bool {
    match (found, wanted) {
        ([], None) => true,
        ([remark], Some((start, end, name, example))) => {
            remark.span == Span { start, end }
                && remark.name == name
                && remark.text.contains(example)
        }
        _ => false,
    }
}
