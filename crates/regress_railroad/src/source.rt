//! Excerpts of a pattern's source text.
ghost use Rattle.std.specs.Prelude.{◌≡◌, IfOk, option_map, string_bytes, take};
ghost use Rattle.regress_railroad.specs.Excerpt.{IsExcerpt, excerpt_length, points_at};

use regress_labels::Character;
use regress_parse::Span;
use regress_tree::ir::Node;
use regress_words::{shown, text_words, words};
use std::alloc::{AllocError, Global};

/// The maximum length of a title in code points. Parts are nested, so that whole texts could take quadratic space.
const TITLE_LENGTH: usize = 60;

/// The pattern that a diagram shows.
#[derive(Clone, Copy)]
pub(crate) struct Source<'a> {
    pub(crate) written: regress_words::Source<'a>,
    /// The spans of the lines that explain the parts, if the parts are marked.
    pub(crate) lines: Option<&'a [Span]>,
}

impl Source<'_> {
    /// Returns whether the characters at two spans are shown as one text: if groups have modifiers, only if nothing is
    /// between them.
    pub(crate) fn are_adjacent(&self, first: Option<Span>, second: Option<Span>) -> bool {
        match (first, second) {
            (Some(first), Some(second)) => {
                first.end == second.start || self.written.scan.modifiers.is_empty()
            }
            _ => true,
        }
    }

    /// Returns the title of a text: what is written, and in words what it matches. `None` if it is not written.
    pub(crate) fn title(
        &self,
        alloc: Global,
        span: Option<Span>,
        text: &[Character],
    ) -> Result<Option<String>, AllocError> {
        let Some(mut title) = excerpt(alloc, self.written.pattern, span)? else {
            return Ok(None);
        };
        title.push_str("\n")?;
        title.push_str(&text_words(alloc, text)?)?;
        Ok(Some(title))
    }

    /// Returns the title of a node: what is written of it, and in words what it is.
    pub(crate) fn title_of(
        &self,
        alloc: Global,
        span: Option<Span>,
        node: &Node,
    ) -> Result<Option<String>, AllocError> {
        let Some(mut title) = excerpt(alloc, self.written.pattern, span)? else {
            return Ok(None);
        };
        if let Some(span) = span {
            title.push_str("\n")?;
            title.push_str(&words(node, span, self.written)?)?;
        }
        Ok(Some(title))
    }
}

/// Returns the part of a pattern at a span as it is shown, cut off if it is long; `None` if it is empty or not inside the
/// pattern. Invisible characters are shown by their numbers, as `U+000A`, except spaces and those that join emoji.
///
/// # Errors
/// Returns [`AllocError`] if an allocation fails.
pub fn excerpt(
    alloc: Global,
    pattern: &[u32],
    span: Option<Span>,
) -> Result<Option<String>, AllocError>
    ensures { IfOk result (λ excerpt. IsExcerpt (points_at pattern.now span) (option_map string_bytes excerpt)) }
{
    let points = points_at(pattern, span);
    if points.is_empty() {
        return Ok(None);
    }
    let mut text = shown(alloc, front(points))?;
    if points.len() > TITLE_LENGTH {
        text.push('…')?;
    }
    Ok(Some(text))
}

/// Returns the code points at a span of a pattern; none if it is not inside the pattern.
fn points_at(pattern: &[u32], span: Option<Span>) -> &[u32]
    ensures { result.now ≡ points_at pattern.now span }
{
    match span {
        Some(span) => pattern.get(span.start..span.end).unwrap_or(&[]),
        None => &[],
    }
}

/// Returns as many of the first code points as a title may have.
fn front(points: &[u32]) -> &[u32]
    ensures { result.now ≡ take excerpt_length points.now }
{
    match points.get(..TITLE_LENGTH) {
        Some(first) => first,
        None => points,
    }
}

/// Returns the span from the start of the first to the end of the last.
pub(crate) fn joined(first: Option<Span>, last: Option<Span>) -> Option<Span> {
    let (first, last) = (first.or(last)?, last?);
    let (start, end) = (first.start, last.end);
    Some(Span { start, end })
}

/// Returns the number of the line that explains the part with this span: its own, or else that of the innermost part around
/// it. Lines are in the order of their starts, outer ones first.
pub(crate) fn line_of(span: Span, lines: &[Span]) -> Option<usize> {
    let count = lines.partition_point(|line| {
        line.start < span.start || line.start == span.start && line.end >= span.end
    });
    let number = count.checked_sub(1)?;
    let line = lines.get(number)?;
    if line.start <= span.start && line.end >= span.end {
        Some(number)
    } else {
        None
    }
}
