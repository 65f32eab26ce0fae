//! A linter that underlines what it reports. docs/guide.md shows parts of it.
use regress_front::ir::{Node, Walk, walk};
use regress_front::parse::{PlacedFault, try_parse_with_spans};
use regress_front::types::Flags;
use regress_front::unicode::Tables;
use regress_front::util::code_points;
use std::alloc::{AllocError, Global};

/// Returns the pattern and, below it, a line under its first unbounded loop; `None` if it has none. The columns are
/// right if each code point takes one column.
///
/// # Errors
/// Returns [`PlacedFault::Syntax`] if the pattern is rejected, and [`PlacedFault::Memory`] if an allocation fails.
pub fn underlined_loop(
    alloc: Global,
    pattern: &str,
    flags: Flags,
    tables: &Tables,
) -> Result<Option<String>, PlacedFault> {
    let points = code_points(alloc, pattern)?;
    let parsed = try_parse_with_spans(alloc, &points, flags, tables)?;
    let mut spans = parsed.spans.iter();
    let mut found = None;
    let mut look = |node: &Node, _: &mut Walk| {
        let span = spans.next();
        if found.is_none() && is_unbounded(node) {
            found = span.copied();
        }
    };
    walk(true, flags.unicode, &parsed.regex.node, &mut look);
    let Some(span) = found else {
        return Ok(None);
    };
    let margin = list(alloc, ' ', span.start)?;
    let line = list(alloc, '~', span.end.saturating_sub(span.start))?;
    Ok(Some(format!(in alloc; "{pattern}\n{margin}{line}")?))
}

fn is_unbounded(node: &Node) -> bool {
    matches!(node, Node::Loop { quant, .. } if quant.max.is_none())
}

fn list(alloc: Global, c: char, count: usize) -> Result<String, AllocError> {
    let mut text = String::new(alloc);
    for _ in 0..count {
        text.push(c)?;
    }
    Ok(text)
}
