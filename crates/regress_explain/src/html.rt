//! An explanation as a page.
ghost use Rattle.std.specs.Prelude.{◌<◌, [], All, IfOk, OnOk, length, map, option_map, string_bytes};
ghost use Rattle.regress_svg.specs.Links.{IsLinkedDocument};
ghost use Rattle.regress_explain.specs.Page.{AreLines, Contains, ContainsMatches, IsPageOf, IsPicture};
ghost use Rattle.regress_explain.specs.Written.{Adds, span_of};

use crate::listing::{Listing, write_lines};
use crate::markup::{Element, Markup, Tag, Written};
use crate::matched::{Matched, write_text};
use crate::outline::outline;
use crate::source::write_pattern;
use crate::style::write_style;
use crate::summary::summary;
use regress_labels::group_names;
use regress_outline::{Line, Part, lines_of, spans_of};
use regress_parse::SpannedRegex;
use regress_railroad::svg_with_links;
use regress_svg::Linked;
use regress_tree::ir::Node;
use std::alloc::{AllocError, Global};

/// Returns a page about a parsed pattern, as one HTML document that refers to no other file and needs no script: the
/// pattern, its railroad diagram, its explanation as nested lists, and a text with its matches and a table of what
/// their groups have captured, if one is given.
///
/// Pointing at a part of the pattern or of the diagram, or at a line of the explanation, marks that part everywhere; so
/// does focusing a line or a part of the diagram, or following a link to it. A part of the diagram is a link to its line,
/// and a line has links to its part of the pattern and of the diagram. Colours fit the light or dark scheme that the reader
/// prefers. What the pattern and the text contain is escaped. Invisible characters of the pattern are shown by their
/// numbers, as `U+000A`, and so are, of the text, controls other than tabs and line feeds, and format characters such
/// as those that change its direction.
///
/// The arguments are those of [`explain`]. A range that is not in the rest of the text after the range before it, or
/// does not begin and end between two characters, is not marked.
///
/// # Errors
/// Returns [`AllocError`] if an allocation fails. The arguments are only read.
///
/// # Complexity
/// As [`explain`], and linear in the length of the text and the number of ranges.
pub fn page(
    alloc: Global,
    pattern: &[u32],
    parsed: &SpannedRegex,
    matched: Option<Matched<'_>>,
) -> Result<String, AllocError>
    // Nothing of the pattern or of the text is markup: each text is escaped, and the tags are fixed. The whole pattern is
    // there, each part of it at the span that its element names, a picture, and lines that explain it, one at least: they are
    // numbered in their order, and each has the span of a part and what is written there. Each link in the picture leads to a
    // line, and each link from a line to the picture leads to a link there that leads back. The whole text is there, and the
    // ranges in it are marked, and nothing else.
    ensures { IfOk result (λ page. IsPageOf pattern.now (option_map (λ matched. (matched.text.now, matched.ranges.now)) matched.entry) (string_bytes page)) }
{
    let parts = outline(alloc, pattern, parsed)?;
    let all = lines_of(alloc, &parts)?;
    let lines: &[Line<'_>] = &all;
    let picture = picture(alloc, pattern, parsed, lines)?;
    let mut page = Markup::new(alloc);
    page.append(&head(alloc, &parts)?)?;
    write_pattern(pattern, parsed.regex.flags, &parts, &mut page)?;
    write_diagram(&picture, &mut page)?;
    let listing = Listing {
        alloc,
        pattern,
        leads: &picture.lines,
    };
    page.append(&explanation(lines, &parsed.regex.node, listing)?)?;
    write_matches(matched, &parsed.regex.node, &mut page)?;
    page.append(&foot(alloc)?)?;
    Ok(page.finish())
}

/// Returns what precedes the content.
fn head(alloc: Global, parts: &[Part]) -> Result<Markup, AllocError> {
    let mut page = Markup::new(alloc);
    page.tag(Tag::Head)?;
    page.text("Regular expression")?;
    page.tag(Tag::Style)?;
    write_style(parts, &mut page)?;
    page.tag(Tag::Body)?;
    Ok(page)
}

/// Returns the diagram, with links to lines.
fn picture(
    alloc: Global,
    pattern: &[u32],
    parsed: &SpannedRegex,
    lines: &[Line<'_>],
) -> Result<Linked, AllocError>
    ensures document { IfOk result (λ picture. IsLinkedDocument picture.lines.items (string_bytes picture.text)) }
    ensures lines { IfOk result (λ picture. All (λ line. line < length lines.now) picture.lines.items) }
{
    let spans = spans_of(alloc, lines)?;
    svg_with_links(alloc, &parsed.regex, pattern, &parsed.spans, &spans)
}

/// Writes the diagram.
fn write_diagram(picture: &Linked, page: &mut Markup) -> Written
    requires { IsLinkedDocument picture.now.lines.items (string_bytes picture.now.text) }
    ensures { OnOk result (Adds (Contains (IsPicture picture.now.lines.items)) page.old page.new) }
{
    page.begin_section("Diagram")?;
    page.tag(Tag::Diagram)?;
    page.picture(picture)?;
    page.tag(Tag::Close(Element::Figure))?;
    page.tag(Tag::Close(Element::Section))
}

/// Returns the sentence about the pattern, and its parts.
fn explanation(lines: &[Line<'_>], root: &Node, listing: Listing<'_>) -> Result<Markup, AllocError>
    ensures { IfOk result (Adds (Contains (AreLines listing.entry.pattern.now listing.entry.leads.now 0 (map span_of lines.now))) []) }
{
    let alloc = listing.alloc;
    let mut page = Markup::new(alloc);
    page.begin_section("Explanation")?;
    page.element(Element::Division, &summary(alloc, root)?)?;
    write_lines(lines, listing, &mut page)?;
    page.tag(Tag::Close(Element::Section))?;
    Ok(page)
}

/// Writes the text with its matches, if one is given.
fn write_matches(matched: Option<Matched<'_>>, root: &Node, page: &mut Markup) -> Written
    ensures { OnOk result (Adds (ContainsMatches (option_map (λ matched. (matched.text.now, matched.ranges.now)) matched.entry)) page.old page.new) }
{
    match matched {
        Some(matched) => {
            let names = group_names(page.alloc(), root)?;
            write_text(matched, &names, page)
        }
        None => Ok(()),
    }
}

/// How the page was made.
const MADE: &str = "Made by regex explain --html. This page has no scripts: \
for another pattern, or with --on for the matches in another text, run the program again.";

/// Returns what follows the content.
fn foot(alloc: Global) -> Result<Markup, AllocError> {
    let mut page = Markup::new(alloc);
    page.element(Element::Footer, MADE)?;
    page.tag(Tag::End)?;
    Ok(page)
}
