//! Characters in words.

use regress_labels::{is_seen, push_symbol, quoted};
use std::alloc::{AllocError, Global};

/// The words of a character that has a name: one, and several.
#[derive(Clone, Copy)]
struct Name(&'static str, &'static str);

/// The control characters, spaces and punctuation marks that have names, with their words.
const NAMES: [(u32, &str, &str); 47] = [
    (0x00, "a null character", "null characters"),
    (0x08, "a backspace", "backspaces"),
    (0x09, "a tab", "tabs"),
    (0x0A, "a line feed", "line feeds"),
    (0x0B, "a vertical tab", "vertical tabs"),
    (0x0C, "a form feed", "form feeds"),
    (0x0D, "a carriage return", "carriage returns"),
    (0x1B, "an escape character", "escape characters"),
    (0x20, "a space", "spaces"),
    (0x7F, "a delete character", "delete characters"),
    (0xA0, "a no-break space", "no-break spaces"),
    (0x200D, "a zero width joiner", "zero width joiners"),
    (0x2028, "a line separator", "line separators"),
    (0x2029, "a paragraph separator", "paragraph separators"),
    (0xFEFF, "a byte order mark", "byte order marks"),
    (0x21, "an exclamation mark", "exclamation marks"),
    (0x22, "a double quote", "double quotes"),
    (0x23, "a number sign", "number signs"),
    (0x24, "a dollar sign", "dollar signs"),
    (0x25, "a percent sign", "percent signs"),
    (0x26, "an ampersand", "ampersands"),
    (0x27, "an apostrophe", "apostrophes"),
    (0x28, "an opening parenthesis", "opening parentheses"),
    (0x29, "a closing parenthesis", "closing parentheses"),
    (0x2A, "an asterisk", "asterisks"),
    (0x2B, "a plus sign", "plus signs"),
    (0x2C, "a comma", "commas"),
    (0x2D, "a hyphen", "hyphens"),
    (0x2E, "a dot", "dots"),
    (0x2F, "a slash", "slashes"),
    (0x3A, "a colon", "colons"),
    (0x3B, "a semicolon", "semicolons"),
    (0x3C, "a less-than sign", "less-than signs"),
    (0x3D, "an equals sign", "equals signs"),
    (0x3E, "a greater-than sign", "greater-than signs"),
    (0x3F, "a question mark", "question marks"),
    (0x40, "an at sign", "at signs"),
    (0x5B, "an opening bracket", "opening brackets"),
    (0x5C, "a backslash", "backslashes"),
    (0x5D, "a closing bracket", "closing brackets"),
    (0x5E, "a caret", "carets"),
    (0x5F, "an underscore", "underscores"),
    (0x60, "a backtick", "backticks"),
    (0x7B, "an opening brace", "opening braces"),
    (0x7C, "a vertical bar", "vertical bars"),
    (0x7D, "a closing brace", "closing braces"),
    (0x7E, "a tilde", "tildes"),
];

/// Returns the name of a character, if it has one.
fn full_name(c: u32) -> Option<Name> {
    for (named, one, many) in &NAMES {
        if *named == c {
            return Some(Name(*one, *many));
        }
    }
    None
}

/// Returns one such character by its name, or several, without the character itself.
pub fn name_of_character(c: u32, several: bool) -> Option<&'static str> {
    let Name(one, many) = full_name(c)?;
    Some(if several { many } else { one })
}

/// Returns the words of a character, matched exactly or in either case, such as `a hyphen (-)`, `a line feed (U+000A)`
/// or `the character "a"`.
///
/// # Errors
/// Returns [`AllocError`] if an allocation fails.
pub fn character_words(alloc: Global, c: u32, either_case: bool) -> Result<String, AllocError> {
    let mut shown = String::new(alloc);
    push_symbol(c, alloc, &mut shown)?;
    match (full_name(c), c) {
        (Some(Name(one, _)), 0x20) => String::from_str(alloc, one),
        (Some(Name(one, _)), _) => [one, " (", &shown, ")"].concat(alloc),
        (None, 0xD800..=0xDFFF) => {
            ["the surrogate ", &shown, ", which no text contains"].concat(alloc)
        }
        (None, c) if is_seen(c) => {
            let text = quoted(alloc, &[c])?;
            ["the character ", &text, case_words(either_case)].concat(alloc)
        }
        _ => ["the character ", &shown].concat(alloc),
    }
}

/// Returns what is added to the words of what is matched in either case.
pub(crate) fn case_words(either_case: bool) -> &'static str {
    if either_case { ", in either case" } else { "" }
}

/// Returns a character as a list has it: itself in quotation marks, or its name if it is invisible or such a mark.
pub(crate) fn listed(alloc: Global, c: u32, several: bool) -> Result<String, AllocError> {
    let is_quoted = is_seen(c) && c != 0x22;
    if !is_quoted && let Some(name) = name_of_character(c, several) {
        return String::from_str(alloc, name);
    }
    if is_quoted {
        return quoted(alloc, &[c]);
    }
    let mut text = String::new(alloc);
    push_symbol(c, alloc, &mut text)?;
    Ok(text)
}

/// Returns whether a character may have another one in the other case: a letter, or any that is not ASCII.
pub(crate) fn is_cased(c: u32) -> bool {
    matches!(c, 0x41..=0x5A | 0x61..=0x7A) || c > 0x7F
}
