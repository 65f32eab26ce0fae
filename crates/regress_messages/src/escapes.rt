//! Escapes as other engines write them.

use crate::hint::Hint;
use crate::source::{Place, character_at, first_that_begins};

/// Escapes of other engines, and what to write.
const ESCAPES: [(&str, &str); 35] = [
    ("\\A", "write `^` without the flag m"),
    ("\\Z", "write `$` without the flag m"),
    ("\\z", "write `$` without the flag m"),
    ("\\h", "write `[ \\t]`"),
    ("\\H", "write `[^ \\t]`"),
    ("\\R", "write `\\r?\\n`"),
    ("\\V", "write `.`"),
    ("\\N{", "write `\\u{..}`"),
    ("\\N", "write `.` without the flag s"),
    ("\\K", "write a lookbehind, `(?<=..)`"),
    ("\\G", "JavaScript has no `\\G`"),
    ("\\X", "JavaScript has no `\\X`"),
    (
        "\\Q",
        "JavaScript has no `\\Q..\\E`: escape each syntax character, as `\\.`",
    ),
    (
        "\\E",
        "JavaScript has no `\\Q..\\E`: escape each syntax character, as `\\.`",
    ),
    ("\\a", "write `\\x07`"),
    ("\\e", "write `\\x1B`"),
    ("\\x{", "write `\\u{..}`"),
    ("\\x", "two hexadecimal digits follow `\\x`"),
    ("\\U", "write `\\u{..}`"),
    ("\\o", "write `\\u{..}` with a hexadecimal number"),
    ("\\g", "a back reference is written `\\1` or `\\k<name>`"),
    ("\\c", "a letter follows `\\c`, as in `\\cJ`"),
    ("\\p", "a property of strings can't be inverted"),
    ("\\P", "a property of strings can't be inverted"),
    ("\\k", "write `k`"),
    ("\\<", "a word boundary is written `\\b`, the character `<`"),
    ("\\>", "a word boundary is written `\\b`, the character `>`"),
    ("\\y", "a word boundary is written `\\b`"),
    ("\\m", "a word boundary is written `\\b`"),
    ("\\M", "a word boundary is written `\\b`"),
    (
        "\\0",
        "no digit may follow `\\0`: write `\\x` and two hexadecimal digits",
    ),
    ("\\l", "write the letter in the case that it has"),
    ("\\L", "write the letters in the case that they have"),
    (
        "\\_",
        "write `_`: with the flag u only syntax characters are escaped",
    ),
    ("\\B", "a class can't contain `\\B`"),
];

/// Returns what to write for an unknown escape.
pub(crate) fn escape_hint(place: Place<'_>) -> Hint {
    match first_that_begins(&ESCAPES, place.rest) {
        Some(words) => Hint::Words(words),
        None => character_hint(character_at(place.rest, 1)),
    }
}

/// Returns what to write for a backslash before a character.
fn character_hint(escaped: Option<char>) -> Hint {
    match escaped {
        Some('1'..='9') => {
            Hint::Words(
                "no group has this number; a character is written `\\x` and two hexadecimal digits",
            )
        }
        Some('a'..='z' | 'A'..='Z') => Hint::Words("the letter has no meaning after a backslash"),
        Some(c) => Hint::Bare(c),
        None => Hint::None,
    }
}
