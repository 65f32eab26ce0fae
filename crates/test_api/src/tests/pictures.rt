//! Tests of pictures and explanations: what the doc comments promise beyond the clauses.

use super::parsed;
use regress_explain::{Matched, explain, page};
use regress_front::parse::{Span, try_parse_with_spans};
use regress_front::types::Flags;
use regress_front::unicode::Tables;
use regress_front::util::code_points;
use regress_railroad::{svg, svg_with_links};
use std::alloc::Global;
use std::test::Fail;

/// Returns the page of a pattern without flags.
fn page_of(alloc: Global, pattern: &str, matched: Option<Matched<'_>>) -> Result<String, Fail> {
    let tables = Tables::small(alloc)?;
    let points = code_points(alloc, pattern)?;
    let parsed = try_parse_with_spans(alloc, &points, Flags::default(), &tables)?;
    Ok(page(alloc, &points, &parsed, matched)?)
}

#[test]
fn a_picture_has_the_characters_and_the_names_of_its_pattern(rt: HostRuntime) -> Result<(), Fail> {
    let alloc = rt.alloc();
    let regex = parsed(alloc, "(?<year>é+)\\n|<", true)?;
    let picture = svg(alloc, &regex)?;
    assert!(rt; picture.starts_with("<svg xmlns=\"http://www.w3.org/2000/svg\""));
    assert!(rt; picture.ends_with("</svg>"));
    for text in &["year", "é", "U+000A", "&lt;"] {
        assert!(rt; picture.contains(*text));
    }
    for reference in &["href", "url("] {
        assert!(rt; !picture.contains(*reference));
    }
    Ok(())
}

#[test]
fn a_pattern_is_explained_and_drawn_part_by_part(rt: HostRuntime) -> Result<(), Fail> {
    let spans = [Span { start: 0, end: 5 }, Span { start: 5, end: 6 }];
    let (text, picture, links) = explained(rt.alloc(), "\\d{4}-", &spans)?;
    let lines =
        "Matches 5 characters, with \"-\" in them.\n0..5  \\d{4}  exactly 4 times: a digit (0-9)\n5..6  -  a hyphen (-)\n";
    expect_eq!(rt; text.as_str(), lines);
    for class in &["s0-2", "s0-5", "s5-6"] {
        assert!(rt; picture.contains(*class));
    }
    expect_eq!(rt; links.as_slice(), [0, 0, 1].as_slice());
    Ok(())
}

/// Returns the explanation of a pattern without flags, its picture with links to lines with these spans, and the lines that
/// the links lead to.
fn explained(
    alloc: Global,
    pattern: &str,
    lines: &[Span],
) -> Result<(String, String, Vec<usize>), Fail> {
    let tables = Tables::small(alloc)?;
    let points = code_points(alloc, pattern)?;
    let parsed = try_parse_with_spans(alloc, &points, Flags::default(), &tables)?;
    let text = explain(alloc, &points, &parsed)?;
    let picture = svg_with_links(alloc, &parsed.regex, &points, &parsed.spans, lines)?;
    Ok((text, picture.text, picture.lines))
}

#[test]
fn a_page_shows_a_pattern_its_diagram_its_explanation_and_the_matches(
    rt: HostRuntime,
) -> Result<(), Fail> {
    let matched = Matched {
        text: "from 2024-05 to 2025-01",
        ranges: &[5..12, 16..23],
        captures: &[Some(5..9), Some(10..12), None, Some(21..23)],
    };
    let page = page_of(rt.alloc(), "(?<year>\\d{4})-(\\d\\d)", Some(matched))?;
    assert!(rt; page.starts_with("<!DOCTYPE html><html lang=\"en\">"));
    assert!(rt; page.ends_with("</main></body></html>"));
    for text in &[
        "<span class=\"m s8-10\" id=\"p8-10\">\\d</span>",
        "<svg xmlns=\"http://www.w3.org/2000/svg\"",
        "<g class=\"m s8-10\">",
        "exactly 4 times: a digit (0-9)",
        "from <mark>2024-05</mark> to <mark>2025-01</mark></p>",
        "<tr><th>match</th><th>group 1 &quot;year&quot;</th><th>group 2</th></tr>",
        "<tr><td>2024-05</td><td>2024</td><td>05</td></tr>",
        "<tr><td>2025-01</td><td><small>unset</small></td><td>01</td></tr>",
    ] {
        assert!(rt; page.contains(*text));
    }
    Ok(())
}

#[test]
fn a_page_without_a_text_has_no_matches(rt: HostRuntime) -> Result<(), Fail> {
    let page = page_of(rt.alloc(), "a", None)?;
    assert!(rt; page.contains("the character &quot;a&quot;"));
    assert!(rt; !page.contains("<h2>Text"));
    Ok(())
}

#[test]
fn no_part_of_a_pattern_or_text_is_markup_in_a_page(rt: HostRuntime) -> Result<(), Fail> {
    // The first range ends inside a character, and the last one is not after the second.
    let matched = Matched {
        text: "</style>é",
        ranges: &[0..9, 8..10, 8..10],
        captures: &[],
    };
    let page = page_of(rt.alloc(), "<script>|(?<name>\"&)", Some(matched))?;
    assert!(rt; page.contains("&lt;script&gt;"));
    assert!(rt; page.contains("<p>&lt;/style&gt;<mark>é</mark></p>"));
    assert!(rt; !page.contains("<script"));
    expect_eq!(rt; page.matches("</style>").count(), 2);
    Ok(())
}
