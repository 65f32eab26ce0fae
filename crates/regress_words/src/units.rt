//! Classes that are read as code units.

use crate::source::Source;
use regress_base::codepointset::{CODE_POINT_MAX, Interval};
use regress_base::types::BracketContents;
use regress_labels::set_of;
use regress_parse::Span;
use regress_tree::ir::Node;
use std::alloc::AllocError;

/// Returns whether a node that is written as a class has the members that are written. Without the flag u a character above
/// U+FFFF may be its two code units, and `\u{61}` the letter `u` and what is in braces, as in ECMA-262.
///
/// # Errors
/// Returns [`AllocError`] if an allocation fails.
pub fn is_as_written(node: &Node, span: Span, source: Source<'_>) -> Result<bool, AllocError> {
    let [0x5B, text @ ..] = source.text(span) else {
        return Ok(true);
    };
    let above = text.iter().find(|c| **c > 0xFFFF);
    let has_braces = has_escape_with_braces(text);
    if source.scan.unicode || above.is_none() && !has_braces {
        return Ok(true);
    }
    let Some((negated, set)) = set_of(source.alloc, node)? else {
        return Ok(true);
    };
    // Whether what is written in the class is what the set lacks.
    let is_complement = negated != matches!(text, [0x5E, ..]);
    let are_units = match above {
        Some(c) => set.contains(*c) == is_complement,
        None => false,
    };
    let letters = [0x75_u32, 0x7B, 0x7D];
    let are_letters = letters.iter().all(|c| set.contains(*c) != is_complement);
    Ok(!are_units && !(has_braces && are_letters))
}

/// Returns whether a node that is a character or a set matches a character: it has one that is no surrogate, since no text
/// contains these. `true` for any other node.
pub fn has_character(node: &Node) -> bool {
    match node {
        Node::Char { c } => is_character(*c),
        Node::ByteSet(bytes) => !bytes.is_empty(),
        Node::CharSet(all) => all.iter().any(|c| is_character(*c)),
        Node::Bracket(contents) => is_any_accepted(contents),
        _ => true,
    }
}

fn is_character(c: u32) -> bool {
    char::from_u32(c).is_some()
}

/// Returns whether a bracket accepts a character that is no surrogate.
fn is_any_accepted(contents: &BracketContents) -> bool {
    let intervals = contents.cps.intervals();
    if contents.invert {
        !has_range(intervals, 0, 0xD7FF) || !has_range(intervals, 0xE000, CODE_POINT_MAX)
    } else {
        intervals
            .iter()
            .any(|one| one.first() < 0xD800 || one.last() > 0xDFFF)
    }
}

/// Returns whether one of the intervals contains a range.
fn has_range(intervals: &[Interval], first: u32, last: u32) -> bool {
    intervals
        .iter()
        .any(|one| one.first() <= first && last <= one.last())
}

/// Returns whether a text contains an escape such as `\u{61}`.
fn has_escape_with_braces(text: &[u32]) -> bool {
    let mut escapes = false;
    let mut has_letter = false;
    for c in text {
        if has_letter && *c == 0x7B {
            return true;
        }
        has_letter = escapes && *c == 0x75;
        escapes = !escapes && *c == 0x5C;
    }
    false
}
