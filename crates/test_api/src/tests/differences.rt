//! Calls of `differences`. The patterns that differ, and how, are those of docs/differences.md; what is expected of the
//! others is from ECMA-262.

use regress_differences::DifferenceKind::{CaseClosure, Grammar, SameName, StringSet};
use regress_differences::{Difference, DifferenceKind, PlacedFault, differences};
use regress_front::parse::Span;
use regress_front::types::Flags;
use regress_front::unicode::Tables;
use regress_front::util::code_points;
use regress_ucd::unicode_tables;
use std::alloc::Global;
use std::test::Fail;

/// Returns what is reported of a pattern.
fn reported(
    alloc: Global,
    pattern: &str,
    flags: Flags,
    tables: &Tables,
) -> Result<Vec<Difference>, Fail> {
    let points = code_points(alloc, pattern)?;
    Ok(differences(alloc, &points, flags, tables)?)
}

/// Returns the flags with these letters, of i, u and v.
fn flags_of(letters: &str) -> Flags {
    let unicode_sets = letters.contains('v');
    Flags {
        icase: letters.contains('i'),
        unicode: unicode_sets || letters.contains('u'),
        unicode_sets,
        ..Flags::default()
    }
}

/// Returns whether one construct differs, of this kind and with this span.
fn is_only(found: &[Difference], kind: DifferenceKind, start: usize, end: usize) -> bool {
    match found {
        [one] => one.kind == kind && one.span == Span { start, end },
        _ => false,
    }
}

#[test]
fn constructs_that_differ_are_reported(rt: HostRuntime) -> Result<(), Fail> {
    let alloc = rt.alloc();
    let tables = unicode_tables(alloc)?;
    for (pattern, letters, kind, start, end) in &[
        ("[k]", "i", CaseClosure, 0, 3),
        ("[\u{DF}]", "i", CaseClosure, 0, 3),
        ("[^\u{1FB3}]", "i", CaseClosure, 0, 4),
        ("x\\w", "i", CaseClosure, 1, 3),
        ("[\\W]", "iu", CaseClosure, 0, 4),
        ("\\P{Lu}", "iv", CaseClosure, 0, 6),
        ("[[^A]]", "iv", CaseClosure, 0, 6),
        ("[[A-Z]&&[a-z]]", "iv", CaseClosure, 0, 14),
        ("(?i:[k])", "", CaseClosure, 4, 7),
        // the other class is the same with and without u
        ("[j][k]", "i", CaseClosure, 3, 6),
        ("[\\s\\S][\\W_]", "iu", CaseClosure, 6, 11),
        ("(?:(?<a>x)|(?<a>y))\\k<a>", "", SameName, 19, 24),
        ("(?:(?<a>x)|(?<a>y)|(?<a>z))\\k<a>.", "", SameName, 27, 32),
        // parsed otherwise
        ("x\\u{61}", "", Grammar, 1, 7),
        ("x[\u{1F600}]", "", Grammar, 1, 4),
        ("x[\u{1F600}]", "i", Grammar, 1, 4),
        // rejected, at the place of the syntax error
        ("\\b*", "", Grammar, 2, 3),
        ("(?<a>x)[\\k]", "", Grammar, 8, 9),
        ("[\u{1F600}-\u{1F60E}]", "", Grammar, 1, 2),
    ] {
        let found = reported(alloc, pattern, flags_of(letters), &tables)?;
        assert!(rt; is_only(&found, *kind, *start, *end));
    }
    Ok(())
}

#[test]
fn constructs_that_agree_are_not_reported(rt: HostRuntime) -> Result<(), Fail> {
    let alloc = rt.alloc();
    let tables = unicode_tables(alloc)?;
    for (pattern, letters) in &[
        ("", "i"),
        ("^k|s*?$", "i"),
        // with i: class escapes, and classes without characters whose case variants depend on u
        ("\\d\\D\\s\\S", "i"),
        ("[0-9a-f][^\"\\s][^,]", "i"),
        ("[\u{C0}-\u{C4}][^\u{430}-\u{44F}]", "i"),
        ("[k-s]\\w\\W[^\\w]", "iu"),
        ("(?=.)(?<!\\b)", "i"),
        ("[k]\\w", ""),
        ("(?-i:[k])", ""),
        ("(?m:[k])", ""),
        ("(?<a>x)\\k<a>\\1", "i"),
        ("(.)(.)(?:\\1|\\2)", "i"),
        ("[a\\q{}\\q{bc}]", "v"),
        // with i and u: no `\W`, or what it lacks is written
        ("[\\s\\S][\\D][^\\S\\n][\\w\\W][\\Wks]", "iu"),
        // with i and v: unions and ranges
        ("[a-z0-9_][^\"k][\\w\\s][\\q{ab|}][[k-s]x]", "iv"),
        // the table has the longest strings first
        ("\\p{RGI_Emoji}", "v"),
        // with u, the escapes and the pairs of the other test
        ("\\u{61}[\u{1F600}-\u{1F60E}]", "u"),
        // alternatives without terms
        ("a|()", "iv"),
    ] {
        let found = reported(alloc, pattern, flags_of(letters), &tables)?;
        assert!(rt; found.is_empty());
    }
    Ok(())
}

#[test]
fn kinds_have_a_name_and_a_text(rt: HostRuntime) -> Result<(), Fail> {
    for (kind, name, example) in &[
        (
            CaseClosure,
            "case-closure",
            "[k] without u also matches U+212A",
        ),
        (StringSet, "string-set", "\\p{RGI_Emoji}"),
        (SameName, "same-name", "(?:(?<a>x)|(?<a>y))\\k<a>"),
        (Grammar, "grammar", "\\u{61} is u, 61 times"),
    ] {
        expect_eq!(rt; kind.name(), *name);
        assert!(rt; kind.text().contains(*example));
    }
    Ok(())
}

#[test]
fn a_rejected_pattern_has_no_differences(rt: HostRuntime) -> Result<(), Fail> {
    let alloc = rt.alloc();
    let tables = Tables::small(alloc)?;
    let points = code_points(alloc, "a)")?;
    let result = differences(alloc, &points, Flags::default(), &tables);
    assert!(rt; matches!(result, Err(PlacedFault::Syntax { position: 1, .. })));
    Ok(())
}
