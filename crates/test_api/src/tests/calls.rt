//! The callers of docs/guide.md, and functions that state a theorem and do nothing.
ghost use Rattle.std.specs.Prelude.{IfOk};
ghost use Rattle.regress_front.specs.WellFormed.{IsWellFormed};
ghost use Rattle.regress_match.specs.Pattern.{matcher_tree};

use super::parsed;
use example_callers::caller::optimized_text;
use example_callers::caret::pointed_at;
use example_callers::quickstart::{compile, find_matches, prepare};
use example_callers::slice::{SearchError, first_match};
use example_callers::underline::underlined_loop;
use regress_front::parse::FaultKind;
use regress_front::types::Flags;
use regress_front::unicode::Tables;
use regress_match::Matcher;
use std::alloc::Global;
use std::sync::Arc;
use std::test::Fail;

#[test]
fn another_crate_calls_the_library(rt: HostRuntime) -> Result<(), Fail> {
    let alloc = rt.alloc();
    let text = optimized_text(alloc, "(?:a|\u{E9})", Flags::default())?;
    expect_eq!(rt;
        text.as_str(),
        "Cat\n..Alt\n....ByteSeq1 0x61\n....ByteSeq2 0xc3a9\n..Goal\n"
    );
    match optimized_text(alloc, "a)", Flags::default()) {
        Ok(_text) => assert!(rt; false, "it is accepted"),
        Err(fault) => {
            let message = fault.to_string(alloc)?;
            expect_eq!(rt; message.as_str(), "Unbalanced parenthesis");
        }
    }
    Ok(())
}

#[test]
fn a_caret_is_below_the_position_of_a_syntax_error(rt: HostRuntime) -> Result<(), Fail> {
    for (pattern, wanted) in &[
        (
            "ab[c",
            Some("ab[c\n  ^ Unbalanced bracket: a bracket of the text is `\\[`"),
        ),
        ("a**", Some("a**\n  ^ Invalid atom character")),
        ("ab", None),
    ] {
        let shown = with_caret(rt.alloc(), pattern)?;
        expect_eq!(rt; shown.as_deref(), *wanted, "{pattern}");
    }
    Ok(())
}

fn with_caret(alloc: Global, pattern: &str) -> Result<Option<String>, Fail> {
    let tables = Tables::small(alloc)?;
    Ok(pointed_at(alloc, pattern, Flags::default(), &tables)?)
}

#[test]
fn a_kind_of_error_has_a_name_and_a_number(rt: HostRuntime) -> Result<(), Fail> {
    let name = String::new(rt.alloc());
    expect_eq!(rt;
        FaultKind::UnbalancedParenthesis.name(),
        "UnbalancedParenthesis"
    );
    expect_eq!(rt; FaultKind::UnbalancedParenthesis.number(), 1);
    expect_eq!(rt; FaultKind::UnknownName(name).number(), 31);
    expect_eq!(rt; FaultKind::DuplicateName.number(), 32);
    Ok(())
}

#[test]
fn a_loop_without_a_bound_is_underlined(rt: HostRuntime) -> Result<(), Fail> {
    for (pattern, wanted) in &[("x(?:ab)*y", Some("x(?:ab)*y\n ~~~~~~~")), ("a{2}", None)] {
        let shown = underlined(rt.alloc(), pattern)?;
        expect_eq!(rt; shown.as_deref(), *wanted, "{pattern}");
    }
    Ok(())
}

fn underlined(alloc: Global, pattern: &str) -> Result<Option<String>, Fail> {
    let tables = Tables::small(alloc)?;
    Ok(underlined_loop(alloc, pattern, Flags::default(), &tables)?)
}

#[test]
fn the_matches_of_a_pattern_are_found(rt: HostRuntime) -> Result<(), Fail> {
    match matches_in(rt.alloc(), "a?b", "ab ba aab")? {
        Some(spans) => {
            expect_eq!(rt; spans.len(), 3);
            expect_eq!(rt; spans[2], (7, 9));
        }
        None => assert!(rt; false, "the steps are enough"),
    }
    Ok(())
}

/// Returns the first nine matches of a pattern.
fn matches_in(
    alloc: Global,
    pattern: &str,
    text: &str,
) -> Result<Option<Vec<(usize, usize)>>, Fail> {
    let tables = Arc::new(alloc, Tables::small(alloc)?)?;
    let regex = compile(alloc, pattern, Flags::default(), &tables)?;
    let matcher = prepare(alloc, regex, &tables)?;
    Ok(find_matches(alloc, &matcher, text, 9)?)
}

#[test]
fn a_text_is_sliced_by_its_first_match(rt: HostRuntime) -> Result<(), Fail> {
    let alloc = rt.alloc();
    let matcher = prepared(alloc, "(é)\\1*")?;
    for (text, steps, wanted) in &[
        ("caféé é", 100, Ok(Some("éé"))),
        ("cafe", 100, Ok(None)),
        ("café", 1, Err(SearchError::OutOfSteps)),
    ] {
        expect_eq!(rt; first_match(alloc, &matcher, text, *steps), *wanted, "{text}");
    }
    Ok(())
}

/// Returns a matcher of a pattern, without flags.
fn prepared(alloc: Global, pattern: &str) -> Result<Matcher, Fail>
    ensures { IfOk result (λ matcher. IsWellFormed (matcher_tree matcher)) }
{
    let tables = Arc::new(alloc, Tables::small(alloc)?)?;
    Ok(prepare(alloc, parsed(alloc, pattern, false)?, &tables)?)
}
