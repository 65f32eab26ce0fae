//! Patterns and other arguments, as messages show them.

use std::io::{self, Write};
use std::ops::Range;
use unicode_segmentation::UnicodeSegmentation;
use unicode_width::UnicodeWidthStr;

/// The number of columns of a pattern that are shown.
const COLUMNS: usize = 72;

/// What is in front of both lines.
const INDENT: &str = "  ";

/// What replaces the parts of a pattern that are not shown.
const CUT: &str = "...";

/// Writes a pattern on a line, and on the next one a caret below the character at a code-point index, or after the
/// last one, as [`write_with_carets`] does.
///
/// # Errors
/// Returns the error of a write.
pub fn write_with_caret<W: Write>(pattern: &str, index: usize, to: &mut W) -> io::Result<()> {
    write_with_carets(pattern, index..index, to)
}

/// Writes a pattern on a line, and on the next one a caret below each column of a span of code points: of all characters
/// of which it has a part. If these have no column, there is one caret at the start of the span.
///
/// The pattern is shown as [`write_visible`] writes it. Of a long one, the columns around the start of the span are
/// shown, and only these have carets.
///
/// # Errors
/// Returns the error of a write.
pub fn write_with_carets<W: Write>(
    pattern: &str,
    span: Range<usize>,
    to: &mut W,
) -> io::Result<()> {
    let marked = columns_of_span(pattern, span);
    let all = columns_of_span(pattern, 0..usize::MAX).end;
    let after = all.saturating_sub(marked.start).min(COLUMNS / 2);
    let start = marked.start.saturating_sub(COLUMNS.saturating_sub(after));
    let end = start.saturating_add(COLUMNS);

    let front = if start > 0 { CUT } else { "" };
    write!(to, "{INDENT}{front}")?;
    let before = write_columns(pattern, start..marked.start, to)?;
    let carets = write_columns(pattern, marked.start..marked.end.min(end), to)?;
    write_columns(pattern, marked.end..end, to)?;
    let back = if all > end { CUT } else { "" };
    write!(to, "{back}\n{INDENT}")?;
    write_copies(b" ", before.saturating_add(front.len()), to)?;
    write_copies(b"^", carets.max(1), to)?;
    to.write_all(b"\n")
}

/// Writes a text with each control character, and each one that formats bidirectional text, as an escape such as
/// `\u{1B}`: a terminal would interpret it.
///
/// # Errors
/// Returns the error of a write.
pub fn write_visible<W: Write>(text: &str, to: &mut W) -> io::Result<()> {
    for c in text.chars() {
        if is_escaped(c) {
            let number = u32::from(c);
            write!(to, "\\u{{{number:X}}}")?;
        } else {
            write!(to, "{c}")?;
        }
    }
    Ok(())
}

/// Returns the columns of a span of code points: those of all grapheme clusters of which it has a part.
fn columns_of_span(pattern: &str, span: Range<usize>) -> Range<usize> {
    let mut point: usize = 0;
    let mut column: usize = 0;
    let mut start: usize = 0;
    for cluster in pattern.graphemes(true) {
        if point >= span.start && point >= span.end {
            break;
        }
        point = point.saturating_add(cluster.chars().count());
        column = column.saturating_add(columns_of(cluster));
        if point <= span.start {
            start = column;
        }
    }
    start..column
}

/// Writes the grapheme clusters in a range of columns, and returns how many columns they have.
fn write_columns<W: Write>(pattern: &str, range: Range<usize>, to: &mut W) -> io::Result<usize> {
    let mut column: usize = 0;
    let mut written: usize = 0;
    for cluster in pattern.graphemes(true) {
        if column >= range.end {
            break;
        }
        let columns = columns_of(cluster);
        let next = column.saturating_add(columns);
        if range.start <= column && next <= range.end {
            write_visible(cluster, to)?;
            written = written.saturating_add(columns);
        }
        column = next;
    }
    Ok(written)
}

/// Returns the number of columns of a grapheme cluster. No cluster but that of a carriage return and a line feed has an
/// escaped character beside others.
fn columns_of(cluster: &str) -> usize {
    match cluster.chars().next() {
        Some(c) if is_escaped(c) => cluster.chars().fold(
            0usize,
            |sum, c| sum.saturating_add(c.escape_unicode().count()),
        ),
        _ => cluster.width(),
    }
}

/// Returns whether a character is shown as an escape: a control character, a line or paragraph separator, or one that
/// formats bidirectional text.
fn is_escaped(c: char) -> bool {
    match c {
        '\u{61C}' | '\u{200E}' | '\u{200F}' | '\u{2028}'..='\u{202E}' | '\u{2066}'..='\u{2069}' =>
            true,
        c => c.is_control(),
    }
}

fn write_copies<W: Write>(text: &[u8], count: usize, to: &mut W) -> io::Result<()> {
    for _ in 0..count {
        to.write_all(text)?;
    }
    Ok(())
}
