//! Assembles sequences of parts.

use crate::boxes::literal;
use crate::diagram::{Diagram, Extent, Marks, NO_EXTENT, Shape, clear};
use crate::source::{Source, joined, line_of};
use crate::style::{GAP, LIST_WIDTH, RADIUS};
use regress_labels::{Character, columns_of, joins_emoji, push_symbol_after};
use regress_parse::Span;
use regress_words::TextEnd;
use std::alloc::{AllocError, Global};
use std::mem;

/// The maximum width of a box of characters, in columns. Longer text continues in the next box.
const LITERAL_COLUMNS: u32 = 40;

/// An element of a sequence before it is boxed.
#[derive(Drop)]
pub(crate) enum Piece {
    Character(Character),
    Text(String),
    Part(Diagram),
}

/// A sequence that is being assembled. Adjacent characters become one box, or several if they are many.
#[derive(Drop)]
pub(crate) struct Row<'a> {
    alloc: Global,
    source: Source<'a>,
    parts: Vec<Diagram>,
    /// The characters of the text at the end.
    text: Vec<Character>,
    end: TextEnd,
    /// Its span in the pattern.
    span: Option<Span>,
    /// The index of its first part.
    first: usize,
    /// The index of its first character that is not boxed yet.
    boxed: usize,
    /// The width of its characters that are not boxed yet.
    columns: u32,
}

impl<'a> Row<'a> {
    pub(crate) fn new(alloc: Global, source: Source<'a>) -> Row<'a> {
        Row {
            alloc,
            source,
            parts: Vec::new(alloc),
            text: Vec::new(alloc),
            end: TextEnd::new(),
            span: None,
            first: 0,
            boxed: 0,
            columns: 0,
        }
    }

    /// Adds a piece with its span in the pattern.
    pub(crate) fn push(&mut self, piece: Piece, span: Option<Span>) -> Result<(), AllocError> {
        match piece {
            Piece::Character(character) => self.push_character(character, span),
            Piece::Text(text) => {
                for c in text.chars() {
                    self.push_character(Character::plain(u32::from(c)), span)?;
                }
                Ok(())
            }
            Piece::Part(part) => {
                self.end_text()?;
                self.push_part(part, span)?;
                self.first = self.parts.len();
                Ok(())
            }
        }
    }

    /// Adds a part, with its marks.
    fn push_part(&mut self, mut part: Diagram, span: Option<Span>) -> Result<(), AllocError> {
        part.marks = self.marks(span)?;
        Ok(self.parts.push(part)?)
    }

    /// Returns the marks of a part with this span; none if it is empty.
    fn marks(&self, span: Option<Span>) -> Result<Option<Marks>, AllocError> {
        let (Some(span), Some(lines)) = (span, self.source.lines) else {
            return Ok(None);
        };
        let Span { start, end } = span;
        if start == end {
            return Ok(None);
        }
        Ok(Some(Marks {
            class: format!(in self.alloc; "m s{start}-{end}")?,
            line: line_of(span, lines),
        }))
    }

    /// Adds a character, to the text at the end if it continues it.
    fn push_character(&mut self, next: Character, span: Option<Span>) -> Result<(), AllocError> {
        if !self.source.are_adjacent(self.span, span) || !self.end.joins(next) {
            self.end_text()?;
        } else if self.columns >= LITERAL_COLUMNS && !self.joins_last(next) {
            self.box_text()?;
        }
        self.columns = self.columns.saturating_add(columns_of(next.c));
        self.span = joined(self.span, span);
        self.end = self.end.with(next);
        Ok(self.text.push(next)?)
    }

    fn joins_last(&self, next: Character) -> bool {
        self.text
            .last()
            .is_some_and(|last| joins_emoji(last.c, next.c))
    }

    /// Boxes the characters that are not boxed yet.
    fn box_text(&mut self) -> Result<(), AllocError> {
        let rest = self.text.get(self.boxed..).unwrap_or(&[]);
        if rest.is_empty() {
            return Ok(());
        }
        let mut text = String::new(self.alloc);
        let mut before = 0;
        for one in rest {
            push_symbol_after(before, one.c, self.alloc, &mut text)?;
            before = one.c;
        }
        let either_case = rest.iter().any(|one| one.either_case);
        self.boxed = self.text.len();
        self.columns = 0;
        Ok(self.parts.push(literal(text, either_case))?)
    }

    /// Ends the text: each of its boxes has its title and its marks.
    fn end_text(&mut self) -> Result<(), AllocError> {
        self.box_text()?;
        let span = self.span.take();
        let text = mem::replace(&mut self.text, Vec::new(self.alloc));
        if !text.is_empty() {
            let title = self.source.title(self.alloc, span, &text)?;
            for index in self.first..self.parts.len() {
                let marks = self.marks(span)?;
                let title = copied(self.alloc, title.as_ref())?;
                if let Some(part) = self.parts.get_mut(index) {
                    part.title = title;
                    part.marks = marks;
                }
            }
        }
        self.end = TextEnd::new();
        self.first = self.parts.len();
        self.boxed = 0;
        Ok(())
    }

    /// Returns the diagram.
    pub(crate) fn finish(mut self) -> Result<Diagram, AllocError> {
        self.end_text()?;
        arranged(self.alloc, self.parts)
    }
}

pub(crate) fn copied(alloc: Global, text: Option<&String>) -> Result<Option<String>, AllocError> {
    match text {
        Some(text) => Ok(Some(String::from_str(alloc, text)?)),
        None => Ok(None),
    }
}

/// Returns the diagram of the parts: a bare line if there are none, and several lines if it is wide.
fn arranged(alloc: Global, mut parts: Vec<Diagram>) -> Result<Diagram, AllocError> {
    if parts.len() < 2 {
        return Ok(parts.pop().unwrap_or(Diagram::line()));
    }
    let mut rows = cut(alloc, parts)?;
    if rows.len() < 2 {
        return Ok(rows.pop().unwrap_or(Diagram::line()));
    }
    Ok(below_each_other(rows))
}

/// Wraps the parts into lines.
fn cut(alloc: Global, all: Vec<Diagram>) -> Result<Vec<Diagram>, AllocError> {
    let mut rows = Vec::new(alloc);
    let mut parts = Vec::new(alloc);
    let mut extent = NO_EXTENT;
    for part in all {
        let wider = adjoin(extent, part.extent);
        if parts.is_empty() {
            extent = part.extent;
        } else if wider.width <= LIST_WIDTH || matches!(part.shape, Shape::End) {
            extent = wider;
        } else {
            let parts = mem::replace(&mut parts, Vec::new(alloc));
            rows.push(Diagram::new(Shape::Row(parts), extent))?;
            extent = part.extent;
        }
        parts.push(part)?;
    }
    rows.push(Diagram::new(Shape::Row(parts), extent))?;
    Ok(rows)
}

/// Returns the extent of two parts with a line between them.
fn adjoin(left: Extent, right: Extent) -> Extent {
    Extent {
        width: left.width.saturating_add(GAP).saturating_add(right.width),
        above: left.above.max(right.above),
        below: left.below.max(right.below),
    }
}

/// Returns the distance between the baselines of two lines, with the connection between them.
pub(crate) fn row_step(upper: Extent, lower: Extent) -> u32 {
    clear(upper.below).saturating_add(clear(lower.above))
}

/// Returns a wrapped sequence, with room for the connections: a corner at the left, a corner at the right, and the way
/// up after the last line.
fn below_each_other(rows: Vec<Diagram>) -> Diagram {
    let mut extent = NO_EXTENT;
    let mut last = NO_EXTENT;
    for (index, row) in rows.iter().enumerate() {
        let next = row.extent;
        if index == 0 {
            extent.above = next.above;
        } else {
            extent.below = extent.below.saturating_add(row_step(last, next));
        }
        extent.width = extent.width.max(next.width);
        last = next;
    }
    extent.width = extent.width.saturating_add(6 * RADIUS);
    extent.below = extent.below.saturating_add(last.below);
    Diagram::new(Shape::Rows(rows), extent)
}
