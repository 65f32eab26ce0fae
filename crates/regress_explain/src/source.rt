//! The pattern as it is written, with an element for each part.
ghost use Rattle.std.specs.Prelude.{◌≡◌, ◌≤◌, ℕ, true, OnOk, length, slice_range};
ghost use Rattle.regress_explain.specs.Page.{Contains, IsParagraph, ShowsSource};
ghost use Rattle.regress_explain.specs.Written.{Adds};

use crate::markup::{Element, Markup, Tag, Written};
use regress_base::types::Flags;
use regress_labels::flags_text;
use regress_outline::Part;
use regress_parse::Span;
use regress_words::shown;
use std::alloc::{AllocError, Global};

/// Writes the section of the pattern, with its flags in the heading.
pub(crate) fn write_pattern(
    pattern: &[u32],
    flags: Flags,
    parts: &[Part],
    page: &mut Markup,
) -> Written
    ensures { OnOk result (Adds (Contains (IsParagraph (ShowsSource 0 pattern.now))) page.old page.new) }
{
    page.begin_section(&heading(page.alloc(), flags)?)?;
    page.tag(Tag::Open(Element::Paragraph))?;
    let whole = Span {
        start: 0,
        end: pattern.len(),
    };
    write_range(pattern, whole, parts, page)?;
    page.tag(Tag::Close(Element::Paragraph))?;
    page.tag(Tag::Close(Element::Section))
}

fn heading(alloc: Global, flags: Flags) -> Result<String, AllocError> {
    let flags = flags_text(alloc, flags)?;
    if flags.is_empty() {
        return String::from_str(alloc, "Pattern");
    }
    ["Pattern, ", &flags].concat(alloc)
}

/// Writes a range of the pattern, with an element for each part that begins in it after the part before, is not empty,
/// and does not end after it.
#[cycle(write_range)]
fn write_range(pattern: &[u32], range: Span, parts: &[Part], page: &mut Markup) -> Written
    requires ordered { range.start ≤ range.end }
    requires within { range.end ≤ length pattern.now }
    ensures { OnOk result (Adds (ShowsSource range.start (slice_range pattern.now range.start range.end)) page.old page.new) }
{
    let mut at = range.start;
    for part in parts {
        let span = part.span;
        if !is_between(span, at, range.end) {
            continue;
        }
        write_characters(&pattern[at..span.start], page)?;
        write_part(pattern, span, &part.parts, page)?;
        at = span.end;
    }
    write_characters(&pattern[at..range.end], page)
}

fn is_between(span: Span, start: usize, end: usize) -> bool
    ensures { result ≡ true → (start ≤ span.start) × (span.start ≤ span.end) × (span.end ≤ end) }
{
    start <= span.start && span.start < span.end && span.end <= end
}

/// Writes the element of a part with these parts inside.
#[cycle(write_range)]
fn write_part(pattern: &[u32], span: Span, inside: &[Part], page: &mut Markup) -> Written
    requires ordered { span.start ≤ span.end }
    requires within { span.end ≤ length pattern.now }
    ensures { OnOk result (Adds (ShowsSource span.start (slice_range pattern.now span.start span.end)) page.old page.new) }
{
    page.tag(Tag::Part(span))?;
    write_range(pattern, span, inside, page)?;
    page.tag(Tag::Close(Element::Inline))
}

/// Writes characters of the pattern.
fn write_characters(points: &[u32], page: &mut Markup) -> Written
    ensures { OnOk result ((start : ℕ) → Adds (ShowsSource start points.now) page.old page.new) }
{
    let text = shown(page.alloc(), points)?;
    page.text(&text)
}
