//! Shows the position of a syntax error, and what to do about it. docs/guide.md shows parts of it.
use regress_front::parse::{FaultKind, PlacedFault, try_parse_with_position};
use regress_front::types::Flags;
use regress_front::unicode::Tables;
use regress_front::util::code_points;
use std::alloc::{AllocError, Global};

/// Returns the pattern, a caret below the position of its syntax error, the error's text, and for some kinds of errors
/// what to write instead; `None` if the pattern is accepted.
///
/// The position is a code-point index, so that the caret is at the right column if each code point takes one column.
///
/// # Errors
/// Returns [`AllocError`] if an allocation fails.
pub fn pointed_at(
    alloc: Global,
    pattern: &str,
    flags: Flags,
    tables: &Tables,
) -> Result<Option<String>, AllocError> {
    let points = code_points(alloc, pattern)?;
    match try_parse_with_position(alloc, &points, flags, tables) {
        Ok(_) => Ok(None),
        Err(
            PlacedFault::Syntax {
                kind,
                error,
                position,
            },
        ) => {
            let margin = spaces(alloc, position)?;
            let advice = advice(&kind);
            Ok(Some(format!(in alloc; "{pattern}\n{margin}^ {error}{advice}")?))
        }
        Err(PlacedFault::Memory(fault)) => Err(fault),
    }
}

/// Returns what to write instead, for kinds of errors that a character of the text often causes.
fn advice(kind: &FaultKind) -> &'static str {
    match kind {
        FaultKind::UnbalancedParenthesis => ": a parenthesis of the text is `\\(` or `\\)`",
        FaultKind::UnbalancedBracket => ": a bracket of the text is `\\[`",
        _ => "",
    }
}

fn spaces(alloc: Global, count: usize) -> Result<String, AllocError> {
    let mut text = String::new(alloc);
    for _ in 0..count {
        text.push(' ')?;
    }
    Ok(text)
}
