//! A table of matches with what their groups have captured.

use crate::markup::{Element, Markup, Tag, Written};
use crate::matched::Matched;
use crate::shown::shown_text;
use regress_labels::{group_text, name_of};
use std::alloc::{AllocError, Global};
use std::ops::Range;

/// The maximum number of matches in a table.
const ROWS: usize = 100;

/// The maximum number of groups in a table.
const COLUMNS: usize = 20;

/// The maximum number of characters in a cell.
const CELL_LENGTH: usize = 100;

/// Returns a table of the matches, with a column for each group; nothing if no groups are known.
pub(crate) fn table(
    alloc: Global,
    matched: Matched<'_>,
    names: &[Option<String>],
) -> Result<Markup, AllocError> {
    let mut table = Markup::new(alloc);
    write_table(matched, names, &mut table)?;
    Ok(table)
}

fn write_table(matched: Matched<'_>, names: &[Option<String>], page: &mut Markup) -> Written {
    let count = matched.captures.len().checked_div(matched.ranges.len());
    let groups = match count {
        Some(count) if count > 0 => count,
        _ => return Ok(()),
    };
    page.tag(Tag::Matches)?;
    page.tag(Tag::Open(Element::Table))?;
    write_head(groups, names, page)?;
    for (range, captures) in matched
        .ranges
        .iter()
        .zip(matched.captures.chunks(groups))
        .take(ROWS)
    {
        write_row(matched.text, range, captures, page)?;
    }
    page.tag(Tag::Close(Element::Table))?;
    page.tag(Tag::Close(Element::Figure))?;
    write_rest(matched.ranges.len(), groups, page)
}

/// Writes a match and its captures.
fn write_row(
    text: &str,
    range: &Range<usize>,
    captures: &[Option<Range<usize>>],
    page: &mut Markup,
) -> Written {
    page.tag(Tag::Open(Element::Row))?;
    write_cell(text, Some(range), page)?;
    for capture in captures.iter().take(COLUMNS) {
        write_cell(text, capture.as_ref(), page)?;
    }
    page.tag(Tag::Close(Element::Row))
}

/// Writes the names of the columns.
fn write_head(groups: usize, names: &[Option<String>], page: &mut Markup) -> Written {
    page.tag(Tag::Open(Element::Row))?;
    page.element(Element::ColumnHead, "match")?;
    let mut group = 0_u32;
    for _group in 0..groups.min(COLUMNS) {
        group = group.saturating_add(1);
        let name = group_text(page.alloc(), "group ", group, name_of(group, names))?;
        page.element(Element::ColumnHead, &name)?;
    }
    page.tag(Tag::Close(Element::Row))
}

/// Writes what is at a range of the text, or that a group is unset.
fn write_cell(text: &str, range: Option<&Range<usize>>, page: &mut Markup) -> Written {
    let Some(range) = range else {
        page.tag(Tag::Open(Element::Cell))?;
        page.element(Element::Small, "unset")?;
        return page.tag(Tag::Close(Element::Cell));
    };
    let found = text.get(range.start..range.end).unwrap_or("");
    let shown = shown_text(page.alloc(), &start_of(page.alloc(), found)?)?;
    page.element(Element::Cell, &shown)
}

/// Returns the start of a text, and an ellipsis if it is longer.
fn start_of(alloc: Global, text: &str) -> Result<String, AllocError> {
    let mut start = String::new(alloc);
    let mut rest = CELL_LENGTH;
    for c in text.chars() {
        if rest == 0 {
            start.push('…')?;
            return Ok(start);
        }
        rest -= 1;
        start.push(c)?;
    }
    Ok(start)
}

/// Writes what the table does not have.
fn write_rest(matches: usize, groups: usize, page: &mut Markup) -> Written {
    let (more, columns) = (matches.saturating_sub(ROWS), groups.saturating_sub(COLUMNS));
    if more > 0 {
        let note = format!(in page.alloc(); "and {more} more matches")?;
        page.element(Element::Small, &note)?;
    }
    if columns > 0 {
        let note = format!(in page.alloc(); " and {columns} more groups")?;
        page.element(Element::Small, &note)?;
    }
    Ok(())
}
