//! The lines of an explanation.
ghost use Rattle.std.specs.Prelude.{◌≡◌, ◌≤◌, ◌+◌, IfOk, OnOk, length};

use crate::parts::{Kind, Part};
use regress_parse::Span;
use std::alloc::{AllocError, Global};

/// The line of a part.
#[derive(Clone, Copy)]
pub struct Line<'a> {
    /// The span of the part.
    pub span: Span,
    /// What the part matches.
    pub words: &'a str,
    /// How many parts are around it.
    pub depth: usize,
}

/// Returns the lines of parts and of those inside, in the order of the pattern, outer ones first.
///
/// # Errors
/// Returns [`AllocError`] if an allocation fails.
pub fn lines_of(alloc: Global, parts: &[Part]) -> Result<Vec<Line<'_>>, AllocError>
    ensures { IfOk result (λ lines. length parts.now ≤ length lines.items) }
{
    let mut lines = Vec::new(alloc);
    add_lines(parts, 0, &mut lines)?;
    Ok(lines)
}

#[cycle(add_lines)]
fn add_lines<'a>(
    parts: &'a [Part],
    depth: usize,
    lines: &mut Vec<Line<'a>>,
) -> Result<(), AllocError>
    ensures { OnOk result (length lines.old.items + length parts.now ≤ length lines.new.items) }
{
    for part in parts {
        add_line(part, depth, lines)?;
    }
    Ok(())
}

/// Adds the line of a part, and those of the parts inside.
#[cycle(add_lines)]
fn add_line<'a>(part: &'a Part, depth: usize, lines: &mut Vec<Line<'a>>) -> Result<(), AllocError>
    ensures { OnOk result (length lines.old.items + 1 ≤ length lines.new.items) }
{
    lines.push(Line {
        span: part.span,
        words: part.words.as_str(),
        depth,
    })?;
    if let Kind::Inline = part.kind {
        return Ok(());
    }
    add_lines(&part.parts, depth.saturating_add(1), lines)
}

/// Returns the spans of lines.
///
/// # Errors
/// Returns [`AllocError`] if an allocation fails.
pub fn spans_of(alloc: Global, lines: &[Line<'_>]) -> Result<Vec<Span>, AllocError>
    ensures { IfOk result (λ spans. length spans.items ≡ length lines.now) }
{
    let mut spans = Vec::new(alloc);
    for line in lines {
        spans.push(line.span)?;
    }
    Ok(spans)
}
