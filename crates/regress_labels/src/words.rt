//! What a set matches, in words.

use crate::labels::Label;
use crate::sets::{
    Character, only_character, set_label, set_of_bytes, set_of_characters, strings_label, written,
};
use regress_base::codepointset::CodePointSet;
use regress_tree::ir::Node;
use std::alloc::{AllocError, Global};

/// Returns the only character that a node matches, or the ASCII letter that it matches in both cases.
///
/// # Errors
/// Returns [`AllocError`] if an allocation fails.
pub fn single_character(alloc: Global, node: &Node) -> Result<Option<Character>, AllocError> {
    if let Node::Char { c } = node {
        return Ok(Some(Character::plain(*c)));
    }
    Ok(match set_of(alloc, node)? {
        Some((false, set)) => only_character(set.intervals()),
        _ => None,
    })
}

/// Returns the members of a set of characters or strings as its box in a diagram lists them, such as `one of \d _`,
/// `not a-z` or `no character`; `None` for a node that is no set.
///
/// # Errors
/// Returns [`AllocError`] if an allocation fails.
pub fn set_words(alloc: Global, node: &Node) -> Result<Option<String>, AllocError> {
    let label = match node {
        Node::StringSet {
            alternatives,
            icase,
        } => strings_label(alloc, alternatives, *icase)?,
        _ => match set_of(alloc, node)? {
            Some((negated, set)) => set_label(alloc, negated, set)?,
            None => return Ok(None),
        },
    };
    Ok(Some(match label {
        Some(label) => joined(alloc, &label)?,
        None => String::from_str(alloc, "no character")?,
    }))
}

/// Returns the parts of a label, with spaces between them.
fn joined(alloc: Global, label: &Label) -> Result<String, AllocError> {
    let mut text = String::from_str(alloc, label.front)?;
    push_word(&label.text, &mut text)?;
    push_word(label.after, &mut text)?;
    Ok(text)
}

/// Appends words, after a space if there are any before.
fn push_word(words: &str, text: &mut String) -> Result<(), AllocError> {
    if !text.is_empty() && !words.is_empty() {
        text.push(' ')?;
    }
    text.push_str(words)
}

/// Returns the set of characters that a node lists, and whether it matches those outside of it; `None` for a node that
/// is no set of characters.
///
/// # Errors
/// Returns [`AllocError`] if an allocation fails.
pub fn set_of(alloc: Global, node: &Node) -> Result<Option<(bool, CodePointSet)>, AllocError> {
    Ok(Some(match node {
        Node::ByteSet(bytes) => (false, set_of_bytes(alloc, bytes)?),
        Node::CharSet(all) => (false, set_of_characters(alloc, all)?),
        Node::Bracket(contents) => written(alloc, contents)?,
        _ => return Ok(None),
    }))
}
