//! An explanation as lines of text.

use crate::outline::outline;
use crate::shown::written;
use crate::summary::summary;
use regress_outline::{Line, lines_of};
use regress_parse::SpannedRegex;
use std::alloc::{AllocError, Global};
use std::fmt::Write;

/// The form of the lines.
#[derive(Clone, Copy)]
struct Form<'a> {
    alloc: Global,
    pattern: &'a [u32],
    /// The width of the column of spans.
    width: usize,
}

/// Returns an explanation of a parsed pattern for people: a sentence about what it matches, and a line for each part,
/// with its span, the part as it is written, and what it matches.
///
/// A part is a node of the tree, characters one after the other, a group with modifiers, or what is written as one atom, such
/// as a reference by name to several groups. A sequence has no line of its own, except one of several parts that is an
/// alternative; neither have the end of the pattern, unless the tree has nothing else, and what is in the line of the part
/// around it, as the `\d` of `\d{4}`. Alternatives are in one list. The parts inside follow, indented, in the order of the
/// pattern, also in a lookbehind. Spans are half-open ranges of code-point indices. Classes are described by what is written;
/// one that has other members, as `[\u{61}]` in the dialect `Ecma` without the flag u, by its members. Invisible characters
/// are shown by their numbers, as `U+000A`, and what is longer than 60 characters is cut off.
///
/// The lines for `\d{4}-`:
///
/// ```text
/// Matches 5 characters, with "-" in them.
/// 0..5  \d{4}  exactly 4 times: a digit (0-9)
/// 5..6  -  a hyphen (-)
/// ```
///
/// `pattern` is the parsed pattern as code points, and `parsed` what `try_parse_with_spans` returns for it. A node for
/// which a span is missing has the span 0..0.
///
/// # Errors
/// Returns [`AllocError`] if an allocation fails. The arguments are only read.
///
/// # Complexity
/// Time and memory are linear in the size of the tree. The depth of recursion is the nesting depth; right sides of
/// alternatives take no stack.
pub fn explain(
    alloc: Global,
    pattern: &[u32],
    parsed: &SpannedRegex,
) -> Result<String, AllocError> {
    let parts = outline(alloc, pattern, parsed)?;
    let last = pattern.len();
    let form = Form {
        alloc,
        pattern,
        width: format!(in alloc; "{last}..{last}")?.len(),
    };
    let mut text = summary(alloc, &parsed.regex.node)?;
    text.push('\n')?;
    let lines = lines_of(alloc, &parts)?;
    for line in &lines {
        write_line(*line, form, &mut text)?;
    }
    Ok(text)
}

fn write_line(line: Line<'_>, form: Form<'_>, text: &mut String) -> Result<(), AllocError> {
    let alloc = form.alloc;
    let (start, end) = (line.span.start, line.span.end);
    let place = format!(in alloc; "{start}..{end}")?;
    text.push_str(&place)?;
    for _column in place.len()..form.width {
        text.push(' ')?;
    }
    for _outer in 0..line.depth {
        text.push_str("  ")?;
    }
    let written = written(alloc, form.pattern, line.span)?;
    if !written.is_empty() {
        write!(text, "  {written}")?;
    }
    let words = line.words;
    writeln!(text, "  {words}")
}
