//! One sentence about a pattern.

use crate::conditions::{condition_words, is_zero_width, reason};
use crate::elements::{Element, add_elements};
use crate::lengths::{Length, matched_length};
use crate::subjects::subject;
use regress_assertions::impossible_assertion;
use regress_base::types::AnchorType;
use regress_labels::{Character, is_seen, quoted};
use regress_tree::ir::Node;
use regress_words::{TextEnd, character_words, text_words};
use std::alloc::{AllocError, Global};
use std::mem;

/// Returns a sentence about what a tree matches: what the names of its groups tell, or else a text that each match has;
/// how long a match is; whether it is the whole text; and which assertions have to hold. If an assertion that has to hold
/// never does, the sentence says so.
///
/// # Errors
/// Returns [`AllocError`] if an allocation fails.
pub(crate) fn summary(alloc: Global, root: &Node) -> Result<String, AllocError> {
    if let Some(assertion) = impossible_assertion(root) {
        return ["Never matches: ", reason(assertion), "."].concat(alloc);
    }
    let Some(length) = matched_length(alloc, root)? else {
        return String::from_str(alloc, "Never matches.");
    };
    let mut elements = Vec::new(alloc);
    add_elements(alloc, root, false, &mut elements)?;
    let words = matched_words(alloc, &elements, length)?;
    let conditions = condition_words(alloc, root, &elements)?;
    ["Matches ", &words, place_words(&elements), &conditions, "."].concat(alloc)
}

/// Returns the words of what these elements match.
fn matched_words(
    alloc: Global,
    elements: &[Element<'_>],
    length: Length,
) -> Result<String, AllocError> {
    if let Some(text) = whole_text(alloc, elements)? {
        return text_words(alloc, &text.characters);
    }
    let subject = subject(alloc, elements)?;
    let length_words = length_words(alloc, length)?;
    match subject {
        Some(subject) => [&subject, ": ", &length_words].concat(alloc),
        None => {
            let required = required_words(alloc, elements, length)?;
            [length_words, required].concat(alloc)
        }
    }
}

fn length_words(alloc: Global, length: Length) -> Result<String, AllocError> {
    if let Some(words) = fixed_length(length) {
        return String::from_str(alloc, words);
    }
    match (length.min, length.max) {
        (min, None) => number_of_characters(alloc, "at least ", min),
        (0, Some(max)) => number_of_characters(alloc, "at most ", max),
        (min, Some(max)) if min == max => number_of_characters(alloc, "", min),
        (min, Some(max)) => number_of_characters(alloc, &format!(in alloc; "{min} to ")?, max),
    }
}

fn fixed_length(length: Length) -> Option<&'static str> {
    Some(match (length.min, length.max) {
        (0, Some(0)) => "an empty text",
        (1, Some(1)) => "1 character",
        (0, None) => "any number of characters",
        (1, None) => "at least 1 character",
        (0, Some(1)) => "at most 1 character",
        _ => return None,
    })
}

fn number_of_characters(alloc: Global, front: &str, number: usize) -> Result<String, AllocError> {
    Ok(format!(in alloc; "{front}{number} characters")?)
}

/// A text in a pattern: characters that can be shown as one text.
#[derive(Drop)]
struct Text {
    characters: Vec<Character>,
    end: TextEnd,
}

impl Text {
    fn new(alloc: Global) -> Text {
        Text {
            characters: Vec::new(alloc),
            end: TextEnd::new(),
        }
    }

    /// Returns whether the text with one more character can be shown as one text.
    fn joins(&self, next: Character) -> bool {
        self.characters.is_empty() || self.end.joins(next)
    }

    fn push(&mut self, next: Character) -> Result<(), AllocError> {
        self.characters.push(next)?;
        self.end = self.end.with(next);
        Ok(())
    }
}

/// Returns the text that the pattern is, if it is one.
fn whole_text(alloc: Global, elements: &[Element<'_>]) -> Result<Option<Text>, AllocError> {
    let mut text = Text::new(alloc);
    for element in elements {
        match element {
            Element::Character {
                character,
                optional: false,
            } if text.joins(*character) => text.push(*character)?,
            Element::Anchor { .. } | Element::Assertion(_) | Element::Position => {}
            _ => return Ok(None),
        }
    }
    Ok(if text.characters.is_empty() {
        None
    } else {
        Some(text)
    })
}

/// Returns that each match has the longest text outside of alternatives and loops; nothing if there is none.
fn required_words(
    alloc: Global,
    elements: &[Element<'_>],
    length: Length,
) -> Result<String, AllocError> {
    let text = required_text(alloc, elements)?.characters;
    if text.is_empty() {
        return Ok(String::new(alloc));
    }
    let words = quoted_text(alloc, &text)?;
    let is_one = length.min == 1 && length.max.unwrap_or(1) == 1;
    [", with ", &words, in_them(is_one, &text)].concat(alloc)
}

/// Returns that a text is in the one character of a match or in its characters, and whether its case matters.
fn in_them(is_one: bool, text: &[Character]) -> &'static str {
    match (is_one, text.iter().any(|one| one.either_case)) {
        (true, false) => " in it",
        (true, true) => " in it, in either case",
        (false, false) => " in them",
        (false, true) => " in them, in either case",
    }
}

/// Returns the longest text that each match has, the first one if several are as long.
fn required_text(alloc: Global, elements: &[Element<'_>]) -> Result<Text, AllocError> {
    let mut longest = Text::new(alloc);
    let mut text = Text::new(alloc);
    for element in elements {
        match element {
            Element::Character {
                character,
                optional: false,
            } => {
                if !text.joins(*character) {
                    longest = longer(longest, mem::replace(&mut text, Text::new(alloc)));
                }
                text.push(*character)?;
            }
            Element::Other | Element::Character { .. } => {
                longest = longer(longest, mem::replace(&mut text, Text::new(alloc)));
            }
            _ => {}
        }
    }
    Ok(longer(longest, text))
}

fn longer(first: Text, second: Text) -> Text {
    if second.characters.len() > first.characters.len() {
        second
    } else {
        first
    }
}

/// Returns a text in quotation marks, or the words of an invisible character.
fn quoted_text(alloc: Global, text: &[Character]) -> Result<String, AllocError> {
    if let [only] = text
        && !is_seen(only.c)
    {
        return character_words(alloc, only.c, false);
    }
    let mut characters = Vec::new(alloc);
    for one in text {
        characters.push(one.c)?;
    }
    quoted(alloc, &characters)
}

/// What an anchor is the start or the end of.
#[derive(Clone, Copy)]
enum Extent {
    Text,
    Line,
}

/// Returns where a match is, if the pattern begins or ends with an anchor.
fn place_words(elements: &[Element<'_>]) -> &'static str {
    let first = elements.iter().find(|one| !is_zero_width(*one));
    let last = elements.iter().rev().find(|one| !is_zero_width(*one));
    let start = anchored(first, AnchorType::StartOfLine);
    match (start, anchored(last, AnchorType::EndOfLine)) {
        (Some(Extent::Text), Some(Extent::Text)) => ", the whole text",
        (Some(_), Some(_)) => ", whole lines",
        (Some(Extent::Text), None) => ", at the start of the text",
        (Some(Extent::Line), None) => ", at the start of a line",
        (None, Some(Extent::Text)) => ", at the end of the text",
        (None, Some(Extent::Line)) => ", at the end of a line",
        (None, None) => "",
    }
}

/// Returns what an element is the start or the end of, if it is that anchor.
fn anchored(element: Option<&Element<'_>>, wanted: AnchorType) -> Option<Extent> {
    let Element::Anchor { end, multiline } = element? else {
        return None;
    };
    let is_wanted = match wanted {
        AnchorType::StartOfLine => matches!(end, AnchorType::StartOfLine),
        AnchorType::EndOfLine => matches!(end, AnchorType::EndOfLine),
    };
    if !is_wanted {
        return None;
    }
    Some(if *multiline {
        Extent::Line
    } else {
        Extent::Text
    })
}
