//! Gathers characters that are one text, and what is inside groups with modifiers.

use regress_labels::Character;
use regress_outline::{Kind, Part, Parts};
use regress_parse::Span;
use regress_words::{Modifier, Source, TextEnd, text_words};
use std::alloc::AllocError;
use std::mem;

/// Returns the parts of a sequence that begins at or after an index, with each text as one part, and those inside a
/// group with modifiers as parts of it.
pub(crate) fn finished(
    parts: Parts,
    start: usize,
    source: Source<'_>,
) -> Result<Parts, AllocError> {
    let mut gatherer = Gatherer {
        source,
        at: start,
        open: Vec::new(source.alloc),
        all: Vec::new(source.alloc),
        text: Vec::new(source.alloc),
        end: TextEnd::new(),
        span: None,
    };
    for part in parts {
        gatherer.begin(part.span)?;
        gatherer.at = part.span.end;
        gatherer.add(part)?;
    }
    gatherer.end(None)?;
    Ok(gatherer.all)
}

/// A list of parts that is being made.
#[derive(Drop)]
struct Gatherer<'a> {
    source: Source<'a>,
    /// The index after the last part.
    at: usize,
    /// The groups with modifiers that the next part may be in, the innermost one last.
    open: Parts,
    /// The parts in none.
    all: Parts,
    /// The characters that are not added yet.
    text: Vec<Character>,
    end: TextEnd,
    /// Their span.
    span: Option<Span>,
}

impl Gatherer<'_> {
    /// Ends the groups with modifiers before a span, and begins those around it.
    fn begin(&mut self, span: Span) -> Result<(), AllocError> {
        let modifiers = &self.source.scan.modifiers;
        if modifiers.is_empty() {
            return Ok(());
        }
        self.end(Some(span.end))?;
        let first = match modifiers.binary_search_by(|one| one.span.start.cmp(&self.at)) {
            Ok(index) => index,
            Err(index) => index,
        };
        for modifier in modifiers.iter().skip(first) {
            if modifier.span.start > span.start {
                break;
            }
            if modifier.span.end >= span.end {
                self.add_text()?;
                let part = opened(modifier, self.source)?;
                self.open.push(part)?;
            }
        }
        Ok(())
    }

    /// Ends the groups with modifiers that end before an index, or all.
    fn end(&mut self, index: Option<usize>) -> Result<(), AllocError> {
        for _open in 0..self.open.len() {
            let ends = match (self.open.last(), index) {
                (Some(open), Some(index)) => open.span.end < index,
                _ => true,
            };
            if !ends {
                return Ok(());
            }
            self.add_text()?;
            if let Some(open) = self.open.pop() {
                self.push(open)?;
            }
        }
        if index.is_none() {
            self.add_text()
        } else {
            Ok(())
        }
    }

    /// Adds a part.
    fn add(&mut self, part: Part) -> Result<(), AllocError> {
        let Kind::Character(next) = part.kind else {
            self.add_text()?;
            return self.push(part);
        };
        let is_next = match self.span {
            Some(span) => span.end == part.span.start || self.source.scan.modifiers.is_empty(),
            None => true,
        };
        if !is_next || !self.end.joins(next) {
            self.add_text()?;
        }
        self.span = Some(Span {
            start: self.span.map_or(part.span.start, |span| span.start),
            end: part.span.end,
        });
        self.end = self.end.with(next);
        Ok(self.text.push(next)?)
    }

    /// Adds the characters that are not added yet, as one part.
    fn add_text(&mut self) -> Result<(), AllocError> {
        let Some(span) = self.span.take() else {
            return Ok(());
        };
        let alloc = self.source.alloc;
        let text = mem::replace(&mut self.text, Vec::new(alloc));
        self.end = TextEnd::new();
        self.push(Part {
            span,
            words: text_words(alloc, &text)?,
            parts: Vec::new(alloc),
            kind: Kind::Short,
        })
    }

    /// Adds a part to the innermost group.
    fn push(&mut self, part: Part) -> Result<(), AllocError> {
        match self.open.last_mut() {
            Some(open) => open.parts.push(part)?,
            None => self.all.push(part)?,
        }
        Ok(())
    }
}

/// Returns the part of a group with modifiers, without those inside.
fn opened(modifier: &Modifier, source: Source<'_>) -> Result<Part, AllocError> {
    Ok(Part {
        span: modifier.span,
        words: String::from_str(source.alloc, &modifier.words)?,
        parts: Vec::new(source.alloc),
        kind: Kind::Whole,
    })
}
