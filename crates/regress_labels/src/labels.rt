//! Labels of boxes, frames and loops.

use crate::symbols::columns;
use regress_base::types::{AnchorType, Flags, Quantifier};
use std::alloc::{AllocError, Global};

/// The label of a box: words before, a text from the pattern, and words after.
#[derive(Drop)]
pub struct Label {
    /// The words before.
    pub front: &'static str,
    /// The text from the pattern.
    pub text: String,
    /// The words after.
    pub after: &'static str,
}

impl Label {
    /// Returns a label of words only.
    pub fn words(alloc: Global, words: &'static str) -> Label {
        Label {
            front: words,
            text: String::new(alloc),
            after: "",
        }
    }

    /// Returns the column at which the text begins.
    pub fn text_column(&self) -> u32 {
        column_after(self.front)
    }

    /// Returns the column at which the words after the text begin.
    pub fn after_column(&self) -> u32 {
        self.text_column().saturating_add(column_after(&self.text))
    }

    /// Returns the width in columns.
    pub fn columns(&self) -> u32 {
        self.after_column()
            .saturating_add(column_after(self.after))
            .saturating_sub(1)
    }
}

/// Returns the column after a text and a space, or the first column if the text is empty.
fn column_after(text: &str) -> u32 {
    if text.is_empty() {
        0
    } else {
        columns(text).saturating_add(1)
    }
}

/// Returns the words of `^` or `$`.
pub fn anchor_words(end: AnchorType, multiline: bool) -> &'static str {
    match (end, multiline) {
        (AnchorType::StartOfLine, false) => "start of text",
        (AnchorType::StartOfLine, true) => "start of line",
        (AnchorType::EndOfLine, false) => "end of text",
        (AnchorType::EndOfLine, true) => "end of line",
    }
}

/// Returns the words of a lookaround.
pub fn lookaround_words(negate: bool, backwards: bool) -> &'static str {
    match (negate, backwards) {
        (false, false) => "followed by",
        (true, false) => "not followed by",
        (false, true) => "preceded by",
        (true, true) => "not preceded by",
    }
}

/// Returns the label of a group, numbered from 1, with its quoted name.
///
/// # Errors
/// Returns [`AllocError`] if an allocation fails.
pub fn group_text(
    alloc: Global,
    front: &str,
    group: u32,
    name: Option<&String>,
) -> Result<String, AllocError> {
    let mut text = format!(in alloc; "{front}{group}")?;
    if let Some(name) = name {
        text.push(' ')?;
        text.push_str(name)?;
    }
    Ok(text)
}

/// Returns how many iterations a loop takes, and whether it is lazy. The label is empty if the lines show that.
///
/// # Errors
/// Returns [`AllocError`] if an allocation fails.
pub fn iterations_text(alloc: Global, quant: &Quantifier) -> Result<String, AllocError> {
    let mut text = times(alloc, quant.min, quant.max)?;
    if !quant.greedy && quant.max != Some(quant.min) {
        text.push_str(if text.is_empty() { "lazy" } else { ", lazy" })?;
    }
    Ok(text)
}

fn times(alloc: Global, min: usize, max: Option<usize>) -> Result<String, AllocError> {
    match (min, max) {
        (0, None | Some(1)) => Ok(String::new(alloc)),
        (1, None) => String::from_str(alloc, "1 or more"),
        (min, None) => numbered(alloc, "at least ", min),
        (0, Some(max)) if max > 0 => numbered(alloc, "at most ", max),
        (min, Some(max)) if min == max => numbered(alloc, "exactly ", min),
        (min, Some(max)) => one_to_another(alloc, min, max),
    }
}

fn numbered(alloc: Global, front: &str, number: usize) -> Result<String, AllocError> {
    Ok(format!(in alloc; "{front}{number}")?)
}

fn one_to_another(alloc: Global, min: usize, max: usize) -> Result<String, AllocError> {
    let between = if min.saturating_add(1) == max {
        "or"
    } else {
        "to"
    };
    Ok(format!(in alloc; "{min} {between} {max}")?)
}

/// Returns the letters of flags as JavaScript writes them, where `v` includes `u`; an empty text if there are none.
///
/// # Errors
/// Returns [`AllocError`] if an allocation fails.
pub fn flags_text(alloc: Global, flags: Flags) -> Result<String, AllocError> {
    let mut text = String::new(alloc);
    for (is_set, letter) in [
        (flags.icase, " i"),
        (flags.multiline, " m"),
        (flags.dot_all, " s"),
        (flags.unicode && !flags.unicode_sets, " u"),
        (flags.unicode_sets, " v"),
    ] {
        if is_set {
            text.push_str(if text.is_empty() { "flags" } else { "" })?;
            text.push_str(letter)?;
        }
    }
    Ok(text)
}
