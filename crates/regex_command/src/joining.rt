//! The pattern that is searched for, made of those that are given.
ghost use Rattle.std.specs.Prelude.{◌≡◌, ◌++◌, ◌∷◌, IfOk, OnOk, codes, flat_map, map, string_bytes};
ghost use Rattle.regex_command.specs.Joined.{alternatives, enclosed, joined, part};

use regex_options::PatternForm;
use regress_escape::escape;
use std::alloc::{AllocError, Global};

/// Returns the pattern that is searched for.
pub(crate) fn joined(
    alloc: Global,
    form: PatternForm,
    patterns: &[String],
) -> Result<String, AllocError>
    ensures { IfOk result (λ text. string_bytes text ≡ joined form (map string_bytes patterns.now)) }
{
    let text = alternatives(alloc, form.fixed, patterns)?;
    enclosed(alloc, form, text)
}

/// Returns the pattern that matches what one of these matches.
fn alternatives(alloc: Global, fixed: bool, patterns: &[String]) -> Result<String, AllocError>
    ensures { IfOk result (λ text. string_bytes text ≡ alternatives (map (part fixed) (map string_bytes patterns.now))) }
{
    match patterns {
        [] => String::from_str(alloc, "[]"),
        [first, others @ ..] => {
            let mut text = part(alloc, fixed, first.as_str())?;
            add_alternatives(alloc, fixed, others, &mut text)?;
            Ok(text)
        }
    }
}

/// Adds patterns, each after a `|`.
fn add_alternatives(
    alloc: Global,
    fixed: bool,
    patterns: &[String],
    to: &mut String,
) -> Result<(), AllocError>
    ensures { OnOk result (string_bytes to.new
        ≡ string_bytes to.old ++ flat_map (λ other. codes "|" ++ other) (map (part fixed) (map string_bytes patterns.now))) }
{
    for pattern in patterns {
        add_alternative(alloc, fixed, pattern.as_str(), to)?;
    }
    Ok(())
}

/// Adds a `|` and a pattern.
fn add_alternative(
    alloc: Global,
    fixed: bool,
    pattern: &str,
    to: &mut String,
) -> Result<(), AllocError>
    ensures { OnOk result (string_bytes to.new ≡ string_bytes to.old ++ (codes "|" ++ part fixed pattern.now)) }
{
    let other = part(alloc, fixed, pattern)?;
    to.push_str("|")?;
    to.push_str(other.as_str())
}

/// Returns a pattern, or the pattern that matches it as a text.
fn part(alloc: Global, fixed: bool, pattern: &str) -> Result<String, AllocError>
    ensures { IfOk result (λ text. string_bytes text ≡ part fixed pattern.now) }
{
    if fixed {
        escape(alloc, pattern)
    } else {
        String::from_str(alloc, pattern)
    }
}

/// Returns the pattern for whole lines or words, if that is asked for.
fn enclosed(alloc: Global, form: PatternForm, pattern: String) -> Result<String, AllocError>
    ensures { IfOk result (λ text. string_bytes text ≡ enclosed form (string_bytes pattern)) }
{
    if form.lines {
        between(alloc, "^(?:", pattern.as_str(), ")$")
    } else if form.words {
        between(alloc, "(?<!\\w)(?:", pattern.as_str(), ")(?!\\w)")
    } else {
        Ok(pattern)
    }
}

/// Returns a text between two others.
fn between(alloc: Global, before: &str, text: &str, after: &str) -> Result<String, AllocError>
    ensures { IfOk result (λ all. string_bytes all ≡ before.now ++ (text.now ++ after.now)) }
{
    let mut all = String::from_str(alloc, before)?;
    all.push_str(text)?;
    all.push_str(after)?;
    Ok(all)
}
