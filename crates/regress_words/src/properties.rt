//! Unicode properties in words.

use std::alloc::{AllocError, Global};

/// The words of a property: one character that has it, and several.
#[derive(Drop)]
pub(crate) struct Nouns {
    pub(crate) one: String,
    pub(crate) many: String,
}

/// Returns the words of a property, from the text in its braces.
pub(crate) fn property_words(alloc: Global, text: &str) -> Result<Nouns, AllocError> {
    let (name, value) = text.split_once('=').unwrap_or(("", text));
    match name {
        "Script" | "sc" => with_name(alloc, "of the script", value),
        "Script_Extensions" | "scx" => with_name(alloc, "used in the script", value),
        _ => match plain(value) {
            Some((one, many)) => Ok(Nouns {
                one: String::from_str(alloc, one)?,
                many: String::from_str(alloc, many)?,
            }),
            None if is_of_emoji(value) => Ok(Nouns {
                one: format!(in alloc; "an emoji ({value})")?,
                many: format!(in alloc; "emoji ({value})")?,
            }),
            None if name.is_empty() => with_name(alloc, "with the property", value),
            None => with_name(alloc, "of the general category", value),
        },
    }
}

fn with_name(alloc: Global, words: &str, name: &str) -> Result<Nouns, AllocError> {
    Ok(Nouns {
        one: format!(in alloc; "a character {words} {name}")?,
        many: format!(in alloc; "characters {words} {name}")?,
    })
}

/// Returns whether this is a property of strings, all of which are emoji.
fn is_of_emoji(name: &str) -> bool {
    name == "Basic_Emoji" || name == "Emoji_Keycap_Sequence" || name.starts_with("RGI_")
}

/// The general categories and binary properties that have plain words: two of their names, and one character and
/// several. A property with a third name is there twice.
const PROPERTIES: [(&str, &str, &str, &str); 28] = [
    ("L", "Letter", "a letter", "letters"),
    (
        "Lu",
        "Uppercase_Letter",
        "an upper-case letter",
        "upper-case letters",
    ),
    (
        "Ll",
        "Lowercase_Letter",
        "a lower-case letter",
        "lower-case letters",
    ),
    (
        "Lt",
        "Titlecase_Letter",
        "a title-case letter",
        "title-case letters",
    ),
    (
        "Lm",
        "Modifier_Letter",
        "a modifier letter",
        "modifier letters",
    ),
    (
        "Lo",
        "Other_Letter",
        "a letter without case",
        "letters without case",
    ),
    ("M", "Mark", "a combining mark", "combining marks"),
    (
        "Combining_Mark",
        "Combining_Mark",
        "a combining mark",
        "combining marks",
    ),
    ("N", "Number", "a numeric character", "numeric characters"),
    ("Nd", "Decimal_Number", "a decimal digit", "decimal digits"),
    ("digit", "digit", "a decimal digit", "decimal digits"),
    ("Nl", "Letter_Number", "a letter number", "letter numbers"),
    (
        "P",
        "Punctuation",
        "a punctuation mark",
        "punctuation marks",
    ),
    ("punct", "punct", "a punctuation mark", "punctuation marks"),
    ("Pd", "Dash_Punctuation", "a dash", "dashes"),
    ("S", "Symbol", "a symbol", "symbols"),
    (
        "Sc",
        "Currency_Symbol",
        "a currency symbol",
        "currency symbols",
    ),
    (
        "Sm",
        "Math_Symbol",
        "a mathematical symbol",
        "mathematical symbols",
    ),
    ("Z", "Separator", "a separator", "separators"),
    (
        "Zs",
        "Space_Separator",
        "a space of any kind",
        "spaces of any kind",
    ),
    ("Cc", "Control", "a control character", "control characters"),
    (
        "cntrl",
        "cntrl",
        "a control character",
        "control characters",
    ),
    ("Any", "Any", "any character", "all characters"),
    ("ASCII", "ASCII", "an ASCII character", "ASCII characters"),
    (
        "Alphabetic",
        "Alpha",
        "an alphabetic character",
        "alphabetic characters",
    ),
    (
        "Uppercase",
        "Upper",
        "an upper-case character",
        "upper-case characters",
    ),
    (
        "Lowercase",
        "Lower",
        "a lower-case character",
        "lower-case characters",
    ),
    ("White_Space", "space", "white space", "white space"),
];

/// Returns the words of a general category or a binary property.
fn plain(value: &str) -> Option<(&'static str, &'static str)> {
    for (name, other, one, many) in &PROPERTIES {
        if value == *name || value == *other {
            return Some((*one, *many));
        }
    }
    None
}
