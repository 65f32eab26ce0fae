//! Characters and sets, from what is written.

use crate::characters::{case_words, is_cased};
use crate::class::read_class;
use crate::escape::character_at;
use crate::properties::property_words;
use crate::source::Source;
use crate::units::is_as_written;
use regress_labels::{Character, single_character};
use regress_parse::Span;
use regress_tree::ir::Node;
use std::alloc::AllocError;

/// Returns the character that a node is written as, if it is written as one, also by an escape such as `\u` that means
/// its letter. If the source text is not known, it is the only character that the node matches.
///
/// # Errors
/// Returns [`AllocError`] if an allocation fails.
pub fn literal(
    node: &Node,
    span: Span,
    source: Source<'_>,
) -> Result<Option<Character>, AllocError> {
    let text = source.text(span);
    match (node, text) {
        (Node::Char { c }, _) => Ok(Some(Character::plain(*c))),
        (Node::CharSet(_) | Node::ByteSet(_) | Node::Bracket(_), [_, ..]) => {
            if !is_as_written(node, span, source)? {
                return Ok(None);
            }
            let text = match text {
                [0x5B, 0x5E, ..] => return Ok(None),
                [0x5B, inner @ .., 0x5D] => inner,
                text => text,
            };
            match character_at(text, 0).filter(|found| found.end == text.len()) {
                Some(found) => Ok(Some(Character {
                    c: found.c,
                    either_case: is_cased(found.c) && source.scan.ignores_case(span.start),
                })),
                None if is_escape_of_one(source.text(span)) => single_character(source.alloc, node),
                None => Ok(None),
            }
        }
        (Node::CharSet(_) | Node::ByteSet(_) | Node::Bracket(_), []) => {
            single_character(source.alloc, node)
        }
        _ => Ok(None),
    }
}

/// Returns whether a text is an escape that is no class escape and no property.
fn is_escape_of_one(text: &[u32]) -> bool {
    match text {
        [0x5C, 0x70 | 0x50, 0x7B, ..] => false,
        [0x5C, letter] => escape_words(*letter).is_none(),
        [0x5C, ..] => true,
        _ => false,
    }
}

/// Returns whether several nodes are written as one atom: a class or a property with strings, or a reference by name.
///
/// # Errors
/// Returns [`AllocError`] if an allocation fails.
pub fn is_one_atom(node: &Node, span: Span, source: Source<'_>) -> Result<bool, AllocError> {
    let text = source.text(span);
    match node {
        Node::Cat(parts) => Ok(match parts.as_slice() {
            [Node::BackRef { .. }, ..] => is_reference_by_name(text),
            _ => false,
        }),
        // An alternative of several nodes may be written as one atom by itself.
        Node::Alt(left, _) if has_parts(left) => Ok(false),
        Node::Alt(..) => match text {
            [0x5C, 0x6B, ..] => Ok(is_reference_by_name(text)),
            [0x5C, 0x70 | 0x50, ..] => Ok(is_property(text)),
            [0x5B, ..] => Ok(written_set(span, source)?.is_some()),
            _ => Ok(false),
        },
        _ => Ok(false),
    }
}

/// Returns whether alternatives that follow others are written as one atom, such as a class with strings: the first of
/// them, `left`, and the node after it have the same span, and it is not in the atom of the span `before`, that of a node
/// of the alternative before. `spans` are those of `left` and the nodes after it.
pub fn is_atom_after(before: Span, left: &Node, spans: &[Span]) -> bool {
    match spans {
        [first, second, ..] => first == second && *first != before && !has_parts(left),
        _ => false,
    }
}

/// Returns whether other nodes are parts of a node.
fn has_parts(node: &Node) -> bool {
    matches!(
        node,
        Node::Cat(_)
            | Node::Alt(..)
            | Node::CaptureGroup { .. }
            | Node::Loop { .. }
            | Node::Loop1CharBody { .. }
            | Node::LookaroundAssertion { .. }
    )
}

/// Returns whether a text is one reference by name: it ends where the name ends.
pub(crate) fn is_reference_by_name(text: &[u32]) -> bool {
    matches!(text, [0x5C, 0x6B, ..]) && ends_at_first(text, 0x3E)
}

/// Returns whether a text is one escape of a property: it ends where the name ends.
fn is_property(text: &[u32]) -> bool {
    ends_at_first(text, 0x7D)
}

/// Returns whether a character is in a text at its end only.
fn ends_at_first(text: &[u32], last: u32) -> bool {
    match text.iter().position(|c| *c == last) {
        Some(end) => end.saturating_add(1) == text.len(),
        None => false,
    }
}

/// Returns what a set matches, from its source text: a class, a class escape or a property; `None` if it is no such text.
pub(crate) fn written_set(span: Span, source: Source<'_>) -> Result<Option<String>, AllocError> {
    let alloc = source.alloc;
    let ignores_case = source.scan.ignores_case(span.start);
    match source.text(span) {
        text @ [0x5B, ..] => match read_class(alloc, text, source.scan.sets)? {
            Some(class) => {
                let mut words = class.words;
                words.push_str(case_words(ignores_case && class.is_cased))?;
                Ok(Some(words))
            }
            None => Ok(None),
        },
        text @ [0x5C, letter @ (0x70 | 0x50), 0x7B, name @ .., 0x7D] => {
            if !is_property(text) {
                return Ok(None);
            }
            property(*letter == 0x50, name, source).map(Some)
        }
        [0x5C, letter] => match escape_words(*letter) {
            Some(words) => Ok(Some(String::from_str(alloc, words)?)),
            None => Ok(None),
        },
        _ => Ok(None),
    }
}

/// Returns what a property matches, from the text in its braces.
fn property(inverted: bool, name: &[u32], source: Source<'_>) -> Result<String, AllocError> {
    let alloc = source.alloc;
    let mut text = String::new(alloc);
    for c in name {
        text.push(char::from_u32(*c).unwrap_or(char::REPLACEMENT_CHARACTER))?;
    }
    let nouns = property_words(alloc, &text)?;
    if !inverted {
        return Ok(nouns.one);
    }
    ["any character except ", &nouns.many].concat(alloc)
}

/// Returns what a class escape matches.
fn escape_words(letter: u32) -> Option<&'static str> {
    Some(match letter {
        0x64 => "a digit (0-9)",
        0x44 => "any character except digits (0-9)",
        0x77 => "a word character (a letter a-z or A-Z, a digit or _)",
        0x57 => "any character except word characters (letters a-z and A-Z, digits and _)",
        0x73 => "white space",
        0x53 => "any character except white space",
        _ => return None,
    })
}
