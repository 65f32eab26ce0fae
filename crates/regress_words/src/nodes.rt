//! What nodes match, in words.

use crate::atoms::{is_reference_by_name, literal, written_set};
use crate::characters::{case_words, character_words};
use crate::counts::count_words;
use crate::source::Source;
use crate::units::{has_character, is_as_written};
use regress_base::types::AnchorType;
use regress_labels::{name_of, set_words};
use regress_parse::Span;
use regress_tree::ir::Node;
use std::alloc::AllocError;

/// Returns what a node is or matches, without the parts inside, such as `a digit (0-9)`, `group 1` or `exactly 4 times`.
///
/// # Errors
/// Returns [`AllocError`] if an allocation fails.
pub fn words(node: &Node, span: Span, source: Source<'_>) -> Result<String, AllocError> {
    let alloc = source.alloc;
    if let Some(words) = fixed_words(node) {
        return String::from_str(alloc, words);
    }
    match node {
        Node::CaptureGroup { id, .. } => group_words(u32::from(*id) + 1, source),
        Node::Loop { quant, .. } | Node::Loop1CharBody { quant, .. } => count_words(alloc, quant),
        Node::BackRef { group, icase } => {
            let group = group_words(*group, source)?;
            ["the same text as ", &group, case_words(*icase)].concat(alloc)
        }
        Node::ByteSequence(bytes) => {
            let text = String::from_utf8_lossy(alloc, bytes)?;
            ["the text \"", &text, "\""].concat(alloc)
        }
        Node::Cat(parts) => sequence(parts, span, source),
        Node::Alt(left, _) => alternatives(left, span, source),
        node => set_or_character(node, span, source),
    }
}

/// Returns what a node is or matches if that depends on its kind only.
fn fixed_words(node: &Node) -> Option<&'static str> {
    Some(match node {
        Node::Empty => "nothing",
        Node::Goal => "the end of the pattern",
        Node::MatchAny => "any character",
        Node::MatchAnyExceptLineTerminator => "any character except a line end",
        Node::Anchor {
            anchor_type,
            multiline,
        } => anchor_words(*anchor_type, *multiline),
        Node::WordBoundary { invert: false, .. } => "a word boundary",
        Node::WordBoundary { invert: true, .. } => "not a word boundary",
        Node::LookaroundAssertion {
            negate,
            backwards,
            ..
        } => lookaround_words(*negate, *backwards),
        _ => return None,
    })
}

fn anchor_words(end: AnchorType, multiline: bool) -> &'static str {
    match (end, multiline) {
        (AnchorType::StartOfLine, false) => "the start of the text",
        (AnchorType::StartOfLine, true) => "the start of a line",
        (AnchorType::EndOfLine, false) => "the end of the text",
        (AnchorType::EndOfLine, true) => "the end of a line",
    }
}

fn lookaround_words(negate: bool, backwards: bool) -> &'static str {
    match (negate, backwards) {
        (false, false) => "followed by",
        (true, false) => "not followed by",
        (false, true) => "preceded by",
        (true, true) => "not preceded by",
    }
}

/// Returns the number of a group, from 1, and its name.
fn group_words(group: u32, source: Source<'_>) -> Result<String, AllocError> {
    let words = format!(in source.alloc; "group {group}")?;
    match name_of(group, source.names) {
        Some(name) => [&words, ", named ", name].concat(source.alloc),
        None => Ok(words),
    }
}

/// Returns the words of a sequence, which may be written as one reference by name: of its groups at most one is set.
fn sequence(parts: &[Node], span: Span, source: Source<'_>) -> Result<String, AllocError> {
    let words = match parts {
        [first, ..] => reference_words(first, " that is set", span, source)?,
        [] => None,
    };
    match words {
        Some(words) => Ok(words),
        None => String::from_str(source.alloc, "one after the other"),
    }
}

/// Returns the words of alternatives, which may be written as one atom.
fn alternatives(left: &Node, span: Span, source: Source<'_>) -> Result<String, AllocError> {
    if let Some(words) = reference_words(left, "", span, source)? {
        return Ok(words);
    }
    match written_set(span, source)? {
        Some(words) => Ok(words),
        None => String::from_str(source.alloc, "one of these, tried in this order"),
    }
}

/// Returns the words of a reference by name to several groups, and which of them is meant; `None` if it is none. `first` is
/// the reference to the first group.
fn reference_words(
    first: &Node,
    which: &str,
    span: Span,
    source: Source<'_>,
) -> Result<Option<String>, AllocError> {
    let Node::BackRef { group, icase } = first else {
        return Ok(None);
    };
    if is_reference_by_name(source.text(span))
        && let Some(name) = name_of(*group, source.names)
    {
        let case = case_words(*icase);
        return Ok(Some(format!(in source.alloc;
            "the same text as the group named {name}{which}{case}"
        )?));
    }
    Ok(None)
}

/// Returns what a node matches that is a character or a set.
fn set_or_character(node: &Node, span: Span, source: Source<'_>) -> Result<String, AllocError> {
    let alloc = source.alloc;
    if let Some(character) = literal(node, span, source)? {
        return character_words(alloc, character.c, character.either_case);
    }
    if is_as_written(node, span, source)?
        && let Some(words) = written_set(span, source)?
    {
        return Ok(words);
    }
    let members = set_words(alloc, node)?.unwrap_or(String::new(alloc));
    if matches!(members.as_str(), "any character" | "no character") || is_strings(node) {
        return Ok(members);
    }
    if has_character(node) {
        ["a character: ", &members].concat(alloc)
    } else {
        ["a surrogate: ", &members, ", which no text contains"].concat(alloc)
    }
}

fn is_strings(node: &Node) -> bool {
    matches!(node, Node::StringSet { .. })
}
