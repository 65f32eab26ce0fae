//! Tests of whether a match in a text is JavaScript's. In UTF-16 a code point above U+FFFF is two code units, and with the
//! flag u or v a pair of surrogates is one code point (ECMA-262, 22.2.3.3 and 22.2.7.2).

use regress::{Flags, Options, Regex, Tables};
use std::alloc::Global;
use std::sync::Arc;
use std::test::Fail;

/// A pattern with JavaScript's letters for its flags, a text, and whether a match is the same in JavaScript.
#[derive(Clone, Copy)]
struct Case {
    pattern: &'static str,
    letters: &'static str,
    text: &'static str,
    is_exact: bool,
}

#[test]
fn code_points_are_read_where_they_are_characters(rt: HostRuntime) -> Result<(), Fail> {
    let cases = [
        Case {
            pattern: "a",
            letters: "",
            text: "",
            is_exact: true,
        },
        Case {
            pattern: "a",
            letters: "i",
            text: "aé\u{FFFF}",
            is_exact: true,
        },
        Case {
            pattern: "a",
            letters: "i",
            text: "a\u{10000}",
            is_exact: true,
        },
        Case {
            pattern: "\\W",
            letters: "",
            text: "😀",
            is_exact: false,
        },
        Case {
            pattern: "[^a]",
            letters: "",
            text: "😀",
            is_exact: false,
        },
        Case {
            pattern: "\\B",
            letters: "",
            text: "a😀",
            is_exact: false,
        },
        Case {
            pattern: "[\\uD83D]",
            letters: "",
            text: "😀",
            is_exact: false,
        },
        Case {
            pattern: "^.$",
            letters: "",
            text: "😀",
            is_exact: false,
        },
        Case {
            pattern: "😀",
            letters: "",
            text: "a",
            is_exact: false,
        },
        Case {
            pattern: "\\uD83D\\uDE00",
            letters: "",
            text: "a",
            is_exact: true,
        },
        Case {
            pattern: "^.$",
            letters: "u",
            text: "😀",
            is_exact: true,
        },
        Case {
            pattern: "^😀{2}$",
            letters: "iu",
            text: "😀😀",
            is_exact: true,
        },
        Case {
            pattern: "[😀-😎]",
            letters: "v",
            text: "a\u{10FFFF}",
            is_exact: true,
        },
    ];
    for case in &cases {
        let regex = Regex::with_flags(rt.alloc(), case.pattern, case.letters)?;
        expect_eq!(rt; regex.is_exact_for(case.text), case.is_exact, "{}", case.pattern);
    }
    Ok(())
}

/// What V8 finds, whose indices of code units are byte offsets here.
#[test]
fn patterns_outside_of_pairs_match_as_in_v8(rt: HostRuntime) -> Result<(), Fail> {
    let alloc = rt.alloc();
    for (pattern, letters, text, start, end) in &[
        ("\\bfoo\\b", "", "😀foo😀", 4, 7),
        ("\\d+", "", "😀😀12", 8, 10),
        ("(\\w+)@(\\w+)", "", "😀ab@cd", 4, 9),
        ("a|b", "i", "😀B", 4, 5),
        ("[x-z]{2}", "", "x😀yz", 5, 7),
    ] {
        let regex = Regex::with_flags(alloc, pattern, letters)?;
        assert!(rt; regex.is_exact_for(text));
        match regex.find(alloc, text)? {
            Some(found) => expect_eq!(rt; found.range(), *start..*end, "{}", pattern),
            None => assert!(rt; false, "{}", pattern),
        }
    }
    Ok(())
}

#[test]
fn a_pair_of_surrogates_is_two_characters_without_u(rt: HostRuntime) -> Result<(), Fail> {
    let alloc = rt.alloc();
    assert!(rt; pair(alloc, false)?.is_exact_for("a"));
    assert!(rt; !pair(alloc, false)?.is_exact_for("😀"));
    assert!(rt; !pair(alloc, true)?.is_exact_for("a"));
    Ok(())
}

/// Compiles the two surrogates that are U+1F600 in UTF-16.
fn pair(alloc: Global, unicode: bool) -> Result<Regex, Fail> {
    let tables = Arc::new(alloc, Tables::small(alloc)?)?;
    let flags = Flags {
        unicode,
        ..Flags::default()
    };
    let points = [0xD83D, 0xDE00];
    Ok(Regex::from_unicode(alloc, &points, flags, Options::default(), &tables)?)
}
