//! What to write instead, by topic.

use crate::escapes::escape_hint;
use crate::groups::{group_hint, name_hint};
use crate::hint::Hint;
use crate::properties::property_hint;
use crate::quantifiers::quantifier_hint;
use crate::source::{Place, begins_with};
use crate::topic::Topic;

/// Returns what to write instead.
pub(crate) fn hint(topic: Topic, place: Place<'_>) -> Hint {
    match topic {
        Topic::Parenthesis => parenthesis(place),
        Topic::Backslash => Hint::Words("write `\\\\` for the character"),
        Topic::Escape => escape_hint(place),
        Topic::UnicodeEscape => {
            Hint::Words("four hexadecimal digits follow `\\u`, or a code point in braces")
        }
        Topic::Atom => atom(place),
        Topic::Quantifier => quantifier_hint(place),
        Topic::Property => property_hint(place),
        Topic::BareProperty => Hint::Words("write `\\p{L}`"),
        Topic::GroupName => name_hint(place),
        Topic::Group => group_hint(place),
        Topic::Reference => Hint::Words("write `\\k<name>`"),
        _ => class_hint(topic, place),
    }
}

/// Returns what to write in a class.
fn class_hint(topic: Topic, place: Place<'_>) -> Hint {
    match topic {
        Topic::Class | Topic::Operand => Hint::Words("write `\\[` for the character"),
        Topic::Set => set(place),
        Topic::ReversedRange | Topic::ClassInRange => {
            Hint::Words("write `\\-` for the character `-`")
        }
        Topic::SetRange => {
            Hint::Words("a range has two characters, the lesser first; write `\\-` for `-`")
        }
        Topic::Intersection => Hint::Words("write operands in brackets, as in `[[ab]&&[bc]]`"),
        Topic::Subtraction => Hint::Words("write operands in brackets, as in `[[ab]--[bc]]`"),
        Topic::BareStrings => Hint::Words("write `\\q{abc|d}`"),
        Topic::SetCharacter => set_character(place),
        _ => Hint::None,
    }
}

fn parenthesis(place: Place<'_>) -> Hint {
    match (place.character(), place.character_before()) {
        (Some('('), Some('$')) => Hint::Words("write `\\$\\(` for the characters `$(`"),
        (Some(c), _) => Hint::Escaped(c),
        (None, _) => Hint::None,
    }
}

fn atom(place: Place<'_>) -> Hint {
    if place.follows(":]") {
        return Hint::Words("JavaScript has no `[[:alpha:]]`: write `[A-Za-z]`");
    }
    match (place.character_before(), place.character()) {
        (Some('*' | '+' | '?' | '}'), Some('+')) => {
            Hint::Words("JavaScript has no possessive quantifiers")
        }
        (None, Some('*')) => Hint::Words("write `.*` for any text, `\\*` for the character"),
        (_, Some(c)) => Hint::Escaped(c),
        (_, None) => Hint::None,
    }
}

fn set(place: Place<'_>) -> Hint {
    if begins_with(place.rest, "&") {
        Hint::Words("write `&&` for an intersection, `\\&` for the character")
    } else if begins_with(place.rest, "-") {
        Hint::Words("write `--` for a subtraction, `\\-` for the character")
    } else {
        Hint::Words("write `\\[` for the character")
    }
}

fn set_character(place: Place<'_>) -> Hint {
    match place.character() {
        Some(c) => Hint::Escaped(c),
        None => Hint::None,
    }
}
