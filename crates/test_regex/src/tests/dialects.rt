//! Tests of the dialects. What holds in `Ecma` is from ECMA-262, and V8 does the same where it has the construct.

use regress::{Dialect, Error, Flags, Options, Regex, Tables, parse_flags};
use std::alloc::Global;
use std::sync::Arc;
use std::test::Fail;

/// A pattern with JavaScript's letters for its flags, and where its match at the start of a text ends in each dialect.
#[derive(Clone, Copy)]
struct Case {
    pattern: &'static str,
    letters: &'static str,
    text: &'static str,
    ecma: Option<usize>,
    regress: Option<usize>,
}

#[test]
fn patterns_match_as_their_dialect_says(rt: HostRuntime) -> Result<(), Fail> {
    let cases = [
        Case {
            pattern: "[\\W_]",
            letters: "i",
            text: "k",
            ecma: None,
            regress: Some(1),
        },
        Case {
            pattern: "[\\W]",
            letters: "iu",
            text: "k",
            ecma: None,
            regress: Some(1),
        },
        Case {
            pattern: "[k]",
            letters: "i",
            text: "\u{212A}",
            ecma: None,
            regress: Some(3),
        },
        Case {
            pattern: "(?:(?<a>x)|(?<a>y))\\k<a>",
            letters: "",
            text: "yy",
            ecma: Some(2),
            regress: Some(1),
        },
        Case {
            pattern: "\\u{3}",
            letters: "",
            text: "uuu",
            ecma: Some(3),
            regress: None,
        },
    ];
    let alloc = rt.alloc();
    for case in &cases {
        let flags = parse_flags(case.letters)?;
        let ecma = compile(alloc, case.pattern, flags, Dialect::Ecma)?;
        expect_eq!(rt; end_in(alloc, &ecma, case.text)?, case.ecma, "{}", case.pattern);
        let regress = compile(alloc, case.pattern, flags, Dialect::Regress)?;
        expect_eq!(rt; end_in(alloc, &regress, case.text)?, case.regress, "{}", case.pattern);
    }
    Ok(())
}

#[test]
fn assertions_take_no_quantifier_in_ecma(rt: HostRuntime) -> Result<(), Fail> {
    let alloc = rt.alloc();
    for pattern in ["\\b+", "\\B{2}"] {
        assert!(rt;
            is_rejected(alloc, pattern, Flags::default(), Dialect::Ecma),
            "{}",
            pattern
        );
        assert!(rt;
            compile(alloc, pattern, Flags::default(), Dialect::Regress).is_ok(),
            "{}",
            pattern
        );
    }
    Ok(())
}

#[test]
fn the_flag_v_implies_u_in_ecma(rt: HostRuntime) -> Result<(), Fail> {
    let alloc = rt.alloc();
    let sets = Flags {
        unicode_sets: true,
        ..Flags::default()
    };
    assert!(rt; compile(alloc, "a", sets, Dialect::Ecma)?.flags().unicode);
    assert!(rt; !compile(alloc, "a", sets, Dialect::Regress)?.flags().unicode);
    assert!(rt; is_rejected(alloc, "\\y", sets, Dialect::Ecma));
    assert!(rt; compile(alloc, "\\y", sets, Dialect::Regress).is_ok());
    Ok(())
}

#[test]
fn the_default_dialect_is_ecma(rt: HostRuntime) -> Result<(), Fail> {
    let alloc = rt.alloc();
    expect_eq!(rt; Options::default().dialect, Dialect::Ecma);
    let regex = Regex::with_flags(alloc, "[\\W_]", "i")?;
    expect_eq!(rt; end_in(alloc, &regex, "k")?, None);
    expect_eq!(rt; end_in(alloc, &regex, "k_")?, Some(2));
    assert!(rt; Regex::new(alloc, "\\b*").is_err());
    assert!(rt; Regex::with_flags(alloc, "\\y", "v").is_err());
    assert!(rt; Regex::with_flags(alloc, "a", "v")?.flags().unicode);
    Ok(())
}

/// Compiles a pattern of a dialect, under the small table.
fn compile(alloc: Global, pattern: &str, flags: Flags, dialect: Dialect) -> Result<Regex, Error> {
    let options = Options {
        dialect,
        ..Options::default()
    };
    let tables = Arc::new(alloc, Tables::small(alloc)?)?;
    Regex::with_options(alloc, pattern, flags, options, &tables)
}

/// Returns whether a pattern has a syntax error.
fn is_rejected(alloc: Global, pattern: &str, flags: Flags, dialect: Dialect) -> bool {
    matches!(
        compile(alloc, pattern, flags, dialect),
        Err(Error::Syntax { .. })
    )
}

/// Returns the end of the leftmost match in a text.
fn end_in(alloc: Global, regex: &Regex, text: &str) -> Result<Option<usize>, Fail> {
    match regex.find(alloc, text)? {
        Some(found) => Ok(Some(found.end())),
        None => Ok(None),
    }
}
