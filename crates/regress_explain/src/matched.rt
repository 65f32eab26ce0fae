//! A text with its matches marked.
ghost use Rattle.std.specs.Prelude.{◌≡◌, ◌++◌, ◌↔◌, IsTrue, OnOk};
ghost use Rattle.regress_svg.specs.Escape.{escaped_text};
ghost use Rattle.regress_explain.specs.Page.{Contains, IsMarkable, IsParagraph, ShowsMarked, match_pieces, pieces_bytes};
ghost use Rattle.regress_explain.specs.Shown.{shown_text};
ghost use Rattle.regress_explain.specs.Written.{Adds};

use crate::markup::{Element, Markup, Tag, Written};
use crate::shown::shown_text;
use crate::table::table;
use std::alloc::{AllocError, Global};
use std::ops::Range;

/// A text with the matches of a pattern.
#[derive(Clone, Copy)]
pub struct Matched<'a> {
    /// The text.
    pub text: &'a str,
    /// The ranges of the matches, in byte offsets, in ascending order and without overlaps.
    pub ranges: &'a [Range<usize>],
    /// The ranges of the groups, `None` for an unset one: those of the first match, then those of the next, as many of
    /// each; empty if they are not known.
    pub captures: &'a [Option<Range<usize>>],
}

/// Writes the section of a text: the text, and a table of the matches if there are groups.
pub(crate) fn write_text(
    matched: Matched<'_>,
    names: &[Option<String>],
    page: &mut Markup,
) -> Written
    ensures { OnOk result (Adds (Contains (IsParagraph (ShowsMarked matched.entry.text.now 0 matched.entry.ranges.now))) page.old page.new) }
{
    page.begin_section(&heading(page.alloc(), matched.ranges.len())?)?;
    page.tag(Tag::Open(Element::Paragraph))?;
    write_marked(matched.text, matched.ranges, page)?;
    page.tag(Tag::Close(Element::Paragraph))?;
    page.append(&table(page.alloc(), matched, names)?)?;
    page.tag(Tag::Close(Element::Section))
}

/// Writes a text, with the ranges in it marked.
fn write_marked(text: &str, ranges: &[Range<usize>], page: &mut Markup) -> Written
    ensures { OnOk result (Adds (ShowsMarked text.now 0 ranges.now) page.old page.new) }
{
    let mut at = 0;
    for range in ranges {
        if !is_markable(text, at, range) {
            continue;
        }
        write_match(&text[at..range.start], &text[range.start..range.end], page)?;
        at = range.end;
    }
    write_shown(&text[at..], page)
}

/// Returns whether a range can be marked in a text of which the part before `at` is written.
fn is_markable(text: &str, at: usize, range: &Range<usize>) -> bool
    ensures { IsTrue result ↔ IsMarkable text.now at range.now }
{
    if at > range.start || range.start > range.end {
        return false;
    }
    text.is_char_boundary(range.start) && text.is_char_boundary(range.end)
}

/// Writes a match and the text before it.
fn write_match(before: &str, found: &str, page: &mut Markup) -> Written
    ensures { OnOk result (page.new ≡ page.old ++ pieces_bytes (match_pieces before.now found.now)) }
{
    write_shown(before, page)?;
    page.element(Element::Mark, &shown_text(page.alloc(), found)?)
}

fn write_shown(text: &str, page: &mut Markup) -> Written
    ensures { OnOk result (page.new ≡ page.old ++ escaped_text (shown_text text.now)) }
{
    page.text(&shown_text(page.alloc(), text)?)
}

fn heading(alloc: Global, count: usize) -> Result<String, AllocError> {
    match count {
        0 => String::from_str(alloc, "Text: no match"),
        1 => String::from_str(alloc, "Text: 1 match"),
        _ => Ok(format!(in alloc; "Text: {count} matches")?),
    }
}
