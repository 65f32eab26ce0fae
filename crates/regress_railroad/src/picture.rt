//! Diagrams of patterns as SVG documents.
ghost use Rattle.std.specs.Prelude.{◌≡◌, ◌<◌, All, IfOk, OnOk, length, string_bytes};
ghost use Rattle.regress_svg.specs.Links.{IsLinkedDocument};
ghost use Rattle.regress_svg.specs.Markup.{IsDocument};

use crate::diagram::{Diagram, Point};
use crate::draw::draw;
use crate::layout::layout;
use crate::parts::{draw_circle, draw_text};
use crate::source::Source;
use crate::style::{MARGIN, STYLE, text_width};
use crate::ways::{Drawn, draw_line};
use regress_labels::{columns, flags_text, group_names};
use regress_parse::Span;
use regress_svg::{Element, Linked, Sheet};
use regress_tree::ir::Regex;
use regress_words::scanned;
use std::alloc::{AllocError, Global};

/// Where the flags are written: in the margin above the diagram.
const FLAGS_AT: Point = Point {
    x: MARGIN / 2,
    y: 16,
};

/// Returns a railroad diagram of a pattern, as an SVG 1.1 document with its own style sheet and without references to
/// other files.
///
/// The diagram reads from left to right: the parts of a sequence are matched in order, and of branches one above the
/// other one is taken. Lines that lead back are further iterations of a loop, and lines above a box bypass it. A
/// lookaround consumes nothing, and hangs below the line. Names of groups and characters of the pattern are text;
/// invisible characters are shown by their numbers, as `U+000A`. A long set is cut off, with the number of omitted
/// items. Parts of a lookbehind are in the order of the pattern. The flags are in the upper left corner.
///
/// # Errors
/// Returns [`AllocError`] if an allocation fails. `regex` is only read.
///
/// # Complexity
/// Time and memory are linear in the size of the tree. The depth of recursion is the nesting depth; right sides of
/// alternatives take no stack.
pub fn svg(alloc: Global, regex: &Regex) -> Result<String, AllocError>
    ensures { IfOk result (λ text. IsDocument (string_bytes text)) }
{
    svg_with_titles(alloc, regex, &[], &[])
}

/// Returns the diagram of [`svg`] for a parsed tree, with titles: pointing at a box, a frame or a loop shows the part
/// of the pattern that it came from, up to 60 code points, and in words what it matches. A property, and a class that is
/// shorter than the list of its members, is shown as it is written, and a reference by name to several groups as one box.
///
/// `pattern` is the parsed pattern as code points, and `spans` are the spans that `try_parse_with_spans` returns for
/// it. A node without a span, or with one that is not inside the pattern, has no such title.
///
/// # Errors
/// Returns [`AllocError`] if an allocation fails. The arguments are only read.
///
/// # Complexity
/// As [`svg`].
pub fn svg_with_titles(
    alloc: Global,
    regex: &Regex,
    pattern: &[u32],
    spans: &[Span],
) -> Result<String, AllocError>
    ensures { IfOk result (λ text. IsDocument (string_bytes text)) }
{
    drawn(alloc, regex, pattern, spans, None)?.finish()
}

/// Returns the diagram of [`svg_with_titles`] for a page that explains the parts in a list of lines: `lines` are the spans
/// of what the lines explain, in the order of their starts, outer ones first. A page's style sheet can mark a box, a
/// frame, a loop or alternatives: they are in a group of the class `m`, and `s0-4` for a node with the span 0..4. The boxes
/// of characters one after the other have the class of the span of all. Above each of them is a link to the line that
/// explains it, or else the innermost part around it, with the same classes; the line with the number `n` is to have the id
/// `l` with its number.
///
/// # Errors
/// Returns [`AllocError`] if an allocation fails. The arguments are only read.
///
/// # Complexity
/// As [`svg`], and a binary search in `lines` for each part.
pub fn svg_with_links(
    alloc: Global,
    regex: &Regex,
    pattern: &[u32],
    spans: &[Span],
    lines: &[Span],
) -> Result<Linked, AllocError>
    ensures document { IfOk result (λ picture. IsLinkedDocument picture.lines.items (string_bytes picture.text)) }
    ensures lines { IfOk result (λ picture. All (λ line. line < length lines.now) picture.lines.items) }
{
    drawn(alloc, regex, pattern, spans, Some(lines))?.finish_with_links(lines.len())
}

/// Draws the diagram of a pattern.
fn drawn(
    alloc: Global,
    regex: &Regex,
    pattern: &[u32],
    spans: &[Span],
    lines: Option<&[Span]>,
) -> Result<Sheet, AllocError>
    ensures { IfOk result (λ sheet. sheet.depth ≡ 0) }
{
    let diagram = laid_out(alloc, regex, pattern, spans, lines)?;
    let flags = flags_text(alloc, regex.flags)?;
    on_sheet(alloc, &diagram, &flags)
}

/// Draws a diagram, and the flags above it, on a sheet with room for both.
fn on_sheet(alloc: Global, diagram: &Diagram, flags: &str) -> Result<Sheet, AllocError>
    ensures { IfOk result (λ sheet. sheet.depth ≡ 0) }
{
    let extent = diagram.extent;
    let top = if flags.is_empty() { MARGIN / 2 } else { MARGIN };
    let width = extent
        .width
        .max(text_width(columns(flags)))
        .saturating_add(2 * MARGIN);
    let height = extent.height().saturating_add(top + MARGIN / 2);
    let start = Point {
        x: MARGIN,
        y: extent.above.saturating_add(top),
    };
    let mut sheet = Sheet::new(alloc, width, height);
    draw_paper(width, height, &mut sheet)?;
    draw_whole(diagram, flags, start, &mut sheet)?;
    Ok(sheet)
}

/// Returns the diagram of a pattern.
fn laid_out(
    alloc: Global,
    regex: &Regex,
    pattern: &[u32],
    spans: &[Span],
    lines: Option<&[Span]>,
) -> Result<Diagram, AllocError> {
    let names = group_names(alloc, &regex.node)?;
    let scan = scanned(alloc, pattern, regex.flags)?;
    let written = regress_words::Source {
        alloc,
        pattern,
        names: &names,
        scan: &scan,
    };
    layout(alloc, &regex.node, Source { written, lines }, spans)
}

/// Draws the background, and the title and description of the whole.
fn draw_paper(width: u32, height: u32, sheet: &mut Sheet) -> Drawn
    ensures { OnOk result (sheet.new.depth ≡ sheet.old.depth) }
{
    sheet.draw(Element::Title("Railroad diagram of a regular expression"))?;
    sheet.draw(Element::Description(
        "Follow the lines from left to right. A box is what is matched. Of branches one above the other, one is taken. \
         A line that leads back below is a further iteration of a loop, and a line above bypasses it. What hangs below \
         the line has to match, or must not match, at that place, and consumes nothing.",
    ))?;
    sheet.draw(Element::Style(STYLE))?;
    sheet.draw(Element::Rectangle {
        class: "paper",
        x: 0,
        y: 0,
        width,
        height,
        radius: 0,
    })
}

/// Draws the flags, the start of the line, and the diagram after it.
fn draw_whole(diagram: &Diagram, flags: &str, start: Point, sheet: &mut Sheet) -> Drawn
    ensures { OnOk result (sheet.new.depth ≡ sheet.old.depth) }
{
    draw_text("small", flags, FLAGS_AT, sheet)?;
    draw_line(start.left(MARGIN / 2), start, sheet)?;
    draw_circle("mark", 5, start.left(MARGIN / 2), sheet)?;
    draw(diagram, start, sheet)
}
