//! The explanation as nested lists.
ghost use Rattle.std.specs.Prelude.{◌≡◌, ◌≢◌, ◌++◌, [], All, IfOk, IfSome, OnOk, Some, map, slice_get};
ghost use Rattle.regress_railroad.specs.Excerpt.{points_at};
ghost use Rattle.regress_explain.specs.declared.markup.Element.TheVariants.{Small};
ghost use Rattle.regress_explain.specs.Page.{AreLines, Contains, IsListTag, LeadsBack, ShowsExcerpt, ShowsPart, element_pieces, pieces_bytes, place};
ghost use Rattle.regress_explain.specs.Written.{Adds, HasNoLead, link_pieces, span_of};

use crate::markup::{Element, Markup, Tag, Written};
use regress_outline::Line;
use regress_parse::Span;
use regress_railroad::excerpt;
use std::alloc::{AllocError, Global};

/// What is known where a list is written.
#[derive(Clone, Copy)]
pub(crate) struct Listing<'a> {
    pub(crate) alloc: Global,
    pub(crate) pattern: &'a [u32],
    /// Of each link in the picture, the line that it leads to.
    pub(crate) leads: &'a [usize],
}

/// Writes a list of lines, each with the list of those inside.
pub(crate) fn write_lines(lines: &[Line<'_>], listing: Listing<'_>, page: &mut Markup) -> Written
    ensures { OnOk result (Adds (AreLines listing.entry.pattern.now listing.entry.leads.now 0 (map span_of lines.now)) page.old page.new) }
{
    let mut level = 0;
    for number in 0..lines.len() {
        let line = lines[number];
        write_between(level, line.depth, page)?;
        page.tag(Tag::Line(line.span, number))?;
        page.append(&content(line, number, listing)?)?;
        page.tag(Tag::Close(Element::Division))?;
        level = line.depth.saturating_add(1);
    }
    close_lists(level, page)
}

/// Writes what is between two lines, from the inside of that many lists to a line with that many parts around it.
fn write_between(level: usize, depth: usize, page: &mut Markup) -> Written
    ensures { OnOk result (Adds (All IsListTag) page.old page.new) }
{
    let next = depth.saturating_add(1);
    if next > level {
        return open_lists(next - level, page);
    }
    close_lists(level - next, page)?;
    page.tag(Tag::Close(Element::Item))?;
    page.tag(Tag::Open(Element::Item))
}

/// Writes the starts of that many lists, each inside the one before.
fn open_lists(count: usize, page: &mut Markup) -> Written
    ensures { OnOk result (Adds (All IsListTag) page.old page.new) }
{
    for _list in 0..count {
        page.tag(Tag::Open(Element::Items))?;
        page.tag(Tag::Open(Element::Item))?;
    }
    Ok(())
}

/// Writes the ends of that many lists.
fn close_lists(count: usize, page: &mut Markup) -> Written
    ensures { OnOk result (Adds (All IsListTag) page.old page.new) }
{
    for _list in 0..count {
        page.tag(Tag::Close(Element::Item))?;
        page.tag(Tag::Close(Element::Items))?;
    }
    Ok(())
}

/// Returns what is in a line: what its part is in the pattern, what it matches, and links to it in the pattern and in the
/// picture, where it is there.
fn content(line: Line<'_>, number: usize, listing: Listing<'_>) -> Result<Markup, AllocError>
    ensures { IfOk result (Adds (ShowsPart listing.entry.pattern.now listing.entry.leads.now number line.entry.span) []) }
{
    let mut page = Markup::new(listing.alloc);
    write_source(line.span, listing, &mut page)?;
    page.text(line.words)?;
    page.text(" ")?;
    write_place(line.span, &mut page)?;
    write_lead(number, listing.leads, &mut page)?;
    Ok(page)
}

/// Writes what a part is in the pattern, and a space, unless it is empty.
fn write_source(span: Span, listing: Listing<'_>, page: &mut Markup) -> Written
    ensures { OnOk result (Adds (HasNoLead (λ pieces. points_at listing.entry.pattern.now (Some span) ≢ [] →
        Contains (ShowsExcerpt (points_at listing.entry.pattern.now (Some span))) pieces)) page.old page.new) }
{
    let Some(written) = excerpt(listing.alloc, listing.pattern, Some(span))? else {
        return Ok(());
    };
    page.element(Element::Code, &written)?;
    page.text(" ")
}

/// Writes a span, as a link to the part of the pattern with that span unless it is empty.
fn write_place(span: Span, page: &mut Markup) -> Written
    ensures { OnOk result (Adds (HasNoLead (Contains (λ shown. shown ≡ element_pieces Small (place span)))) page.old page.new) }
{
    let (start, end) = (span.start, span.end);
    let place = format!(in page.alloc(); "{start}..{end}")?;
    if start == end {
        return page.element(Element::Small, &place);
    }
    write_link(Tag::To(span), &place, page)
}

/// Writes a link from a line to the picture, if the line's part is there.
fn write_lead(number: usize, leads: &[usize], page: &mut Markup) -> Written
    ensures { OnOk result (Adds (All (LeadsBack leads.now number)) page.old page.new) }
{
    let Some(link) = link_to(number, leads) else {
        return Ok(());
    };
    page.text(" ")?;
    write_link(Tag::ToPicture(link), "picture", page)
}

/// Writes a link with a text.
fn write_link(to: Tag, text: &str, page: &mut Markup) -> Written
    ensures { OnOk result (page.new ≡ page.old ++ pieces_bytes (link_pieces to text.now)) }
{
    page.tag(to)?;
    page.element(Element::Small, text)?;
    page.tag(Tag::Close(Element::Link))
}

/// Returns the first link in the picture that leads to a line.
fn link_to(line: usize, leads: &[usize]) -> Option<usize>
    ensures { IfSome result (λ link. slice_get leads.now link ≡ Some line) }
{
    let link = leads.partition_point(|lead| *lead < line);
    if *leads.get(link)? == line {
        Some(link)
    } else {
        None
    }
}
