//! What is wrong, in a few words.

use crate::quantifiers::quantifier_sentence;
use crate::source::{Place, begins_with};
use crate::topic::Topic;

/// Returns what is wrong, in a few words. A subject may follow them.
pub(crate) fn sentence(topic: Topic, place: Place<'_>) -> &'static str {
    match topic {
        Topic::Parenthesis => parenthesis(place),
        Topic::Depth => "groups or classes are nested too deeply",
        Topic::Groups => "more than 65,535 groups",
        Topic::Loops => "more than 65,535 quantifiers",
        Topic::Backslash => "a backslash at the end of the pattern",
        Topic::Escape => "unknown escape",
        Topic::UnicodeEscape => "invalid Unicode escape",
        Topic::Atom => atom(place),
        Topic::Assertion => "an assertion can't be repeated",
        Topic::Quantifier => quantifier_sentence(place),
        Topic::Property => "unknown property",
        Topic::BareProperty => "a property has its name in braces",
        Topic::GroupName => "invalid group name",
        Topic::Group => "unknown kind of group",
        Topic::Reference => "`\\k` is followed by no group name",
        Topic::UnknownName => "no group has the name",
        Topic::SameName => "two groups have the name",
        Topic::Other => "invalid pattern",
        _ => class_sentence(topic, place),
    }
}

/// Returns what is wrong in a class.
fn class_sentence(topic: Topic, place: Place<'_>) -> &'static str {
    match topic {
        Topic::Set => set(place),
        Topic::ReversedRange => "a range ends before it begins",
        Topic::ClassInRange => "a range begins or ends with a class",
        Topic::SetRange => "invalid range",
        Topic::Intersection => "unexpected character in an intersection",
        Topic::Subtraction => "unexpected character in a subtraction",
        Topic::BareStrings => "`\\q` is followed by no `{`",
        Topic::OpenStrings => "unterminated `\\q{`",
        Topic::SetCharacter => "a class with the flag v can't contain",
        Topic::InvertedStrings => "an inverted class can't contain strings",
        _ => "unterminated class",
    }
}

fn parenthesis(place: Place<'_>) -> &'static str {
    match place.character() {
        Some(')') => "unmatched `)`",
        _ => "unterminated group",
    }
}

fn atom(place: Place<'_>) -> &'static str {
    match place.character() {
        Some(']') => "unmatched `]`",
        Some('}') => "unmatched `}`",
        _ => "nothing to repeat",
    }
}

fn set(place: Place<'_>) -> &'static str {
    if begins_with(place.rest, "[") || place.rest.is_empty() {
        "unterminated class"
    } else {
        "half an operator"
    }
}
