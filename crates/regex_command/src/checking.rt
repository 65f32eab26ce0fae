//! Checks that patterns can be joined.
ghost use Rattle.std.specs.Prelude.{◌≡◌, ◌⊎◌, All, IfErr, IfOk, chars, false, is_err, is_some, map, string_bytes, true};
ghost use Rattle.std.specs.List.{Any};
ghost use Rattle.regex_command.specs.Joined.{AreJoinable, IsClosed, are_parts, is_reference, refers, takes_several};
ghost use Rattle.regex_command.specs.Printed.{AreUnjoinable, IsSyntaxError};
ghost use Rattle.regex_lines.specs.declared.failure.Failure.TheVariants.{Memory};
ghost use Rattle.regex_options.specs.Request.{action, requested};

use crate::compiling::compile_each;
use regex_lines::Failure;
use regex_options::{Action, PatternForm, Request, Search, Task};
use regress_base::util::code_points;
use std::alloc::Global;

/// Checks that the patterns of a request can be joined: only `match` takes several, of which none may refer to a group,
/// since the groups of the others count too; and each that becomes a part of another pattern is accepted by itself.
pub(crate) fn check_patterns<'f>(
    alloc: Global,
    request: Request<'_>,
    patterns: &[String],
) -> Result<(), Failure<'f>>
    ensures joinable { IfOk result (λ _. AreJoinable (requested request.entry) (map string_bytes patterns.now)) }
    ensures failed { IfErr result (AreUnjoinable (requested request.entry) (map string_bytes patterns.now)) }
{
    if let [_, second, ..] = patterns {
        if !takes_several(request.action) {
            return reject(
                alloc,
                second.as_str(),
                0,
                "only match takes several patterns",
            );
        }
        if !request.form.fixed {
            check_references(alloc, patterns)?;
        }
    }
    if are_parts(request.form, patterns) {
        compile_each(alloc, request.dialect, request.flags, patterns)?;
    }
    Ok(())
}

/// Returns whether several patterns may be given.
fn takes_several(asked: Action<'_>) -> bool
    ensures { result ≡ takes_several (action asked.entry) }
{
    matches!(
        asked,
        Action::Search(Search {
            task: Task::Match(..),
            ..
        },)
    )
}

/// Returns whether patterns become parts of another one as they are.
fn are_parts(form: PatternForm, patterns: &[String]) -> bool
    ensures { result ≡ are_parts form (map string_bytes patterns.now) }
{
    !form.fixed && (form.lines || form.words || patterns.len() > 1)
}

/// Returns an error if a pattern refers to a group.
fn check_references<'f>(alloc: Global, patterns: &[String]) -> Result<(), Failure<'f>>
    ensures none { IfOk result (λ _. All IsClosed (map string_bytes patterns.now)) }
    ensures failed { IfErr result (λ failure. (failure ≡ Memory)
        ⊎ (Any (λ pattern. refers false (chars pattern) ≡ true) (map string_bytes patterns.now) × IsSyntaxError failure)) }
{
    for pattern in patterns {
        check_reference(alloc, pattern.as_str())?;
    }
    Ok(())
}

/// Returns an error if the pattern refers to a group.
fn check_reference<'f>(alloc: Global, pattern: &str) -> Result<(), Failure<'f>>
    ensures none { IfOk result (λ _. IsClosed pattern.now) }
    ensures failed { IfErr result (λ failure. (failure ≡ Memory) ⊎ ((refers false (chars pattern.now) ≡ true) × IsSyntaxError failure)) }
{
    let points = code_points(alloc, pattern)?;
    match reference_in(&points) {
        Some(position) => {
            let text = "back reference in one of several patterns";
            reject(alloc, pattern, position, text)
        }
        None => Ok(()),
    }
}

/// Returns the position of the first reference to a group: a backslash and a digit but 0, or a k.
fn reference_in(points: &[u32]) -> Option<usize>
    ensures { is_some result ≡ refers false points.now }
{
    let mut escaped = false;
    for (position, point) in points.iter().enumerate() {
        if escaped && is_reference(*point) {
            return Some(position.saturating_sub(1));
        }
        escaped = !escaped && *point == u32::from('\\');
    }
    None
}

/// Returns whether a backslash makes a code point a reference to a group.
fn is_reference(point: u32) -> bool
    ensures { result ≡ is_reference point }
{
    (u32::from('1') <= point && point <= u32::from('9')) || point == u32::from('k')
}

/// Returns the failure of a syntax error in a pattern, or that of memory.
fn reject<'f>(alloc: Global, pattern: &str, position: usize, text: &str) -> Result<(), Failure<'f>>
    ensures rejects { IfErr result (λ failure. (failure ≡ Memory) ⊎ IsSyntaxError failure) }
    ensures never { is_err result ≡ true }
{
    Err(Failure::Syntax {
        pattern: String::from_str(alloc, pattern)?,
        text: String::from_str(alloc, text)?,
        position,
    })
}
