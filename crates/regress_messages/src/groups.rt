//! Groups as other engines write them.

use crate::hint::Hint;
use crate::source::{Place, before, begins_with, character_at, first_that_begins};

/// What other engines have after `(?`, and what to write.
const GROUPS: [(&str, &str); 22] = [
    ("P<", "a named group is written `(?<name>..)`"),
    ("'", "a named group is written `(?<name>..)`"),
    ("P=", "a reference to a named group is written `\\k<name>`"),
    ("P>", "JavaScript has no recursion"),
    ("&", "JavaScript has no recursion"),
    ("R", "JavaScript has no recursion"),
    ("0", "JavaScript has no recursion"),
    ("1", "JavaScript has no recursion"),
    ("2", "JavaScript has no recursion"),
    (
        ">",
        "JavaScript has no atomic groups, but `(?=(..))\\1` matches the same",
    ),
    ("#", "JavaScript has no comments in patterns"),
    (
        "|",
        "JavaScript has no branch reset, but groups of different alternatives may have one name",
    ),
    ("(", "JavaScript has no conditionals"),
    ("{", "JavaScript has no code in patterns"),
    ("^", "JavaScript has no `(?^..)`"),
    ("i)", "write `(?i:..)`, or set the flag i"),
    ("m)", "write `(?m:..)`, or set the flag m"),
    ("s)", "write `(?s:..)`, or set the flag s"),
    ("-i)", "write `(?-i:..)`"),
    ("-m)", "write `(?-m:..)`"),
    ("-s)", "write `(?-s:..)`"),
    ("u)", "u is a flag of the whole pattern"),
];

/// Returns what to write for an unknown kind of group.
pub(crate) fn group_hint(place: Place<'_>) -> Hint {
    match first_that_begins(&GROUPS, place.rest) {
        Some(words) => Hint::Words(words),
        None => modifiers_hint(place.rest),
    }
}

/// Returns what to write for modifiers that are not allowed.
fn modifiers_hint(rest: &[u32]) -> Hint {
    let letters = rest.iter().take_while(|c| is_modifier(**c)).count();
    match character_at(rest, letters) {
        Some('x') => Hint::Words("JavaScript has no flag x: spaces and comments are not ignored"),
        Some('a'..='z' | 'A'..='Z') => Hint::Words("the modifiers are i, m and s"),
        _ if letters == 0 => Hint::None,
        Some(')') => Hint::Words("modifiers are those of a group, as in `(?i:..)`, or flags"),
        Some(':') => Hint::Words("each of the modifiers i, m and s is set or unset once"),
        _ => Hint::Words("the modifiers are i, m and s"),
    }
}

fn is_modifier(c: u32) -> bool {
    matches!(char::from_u32(c), Some('i' | 'm' | 's' | '-'))
}

/// Returns what to write for the name of a group.
pub(crate) fn name_hint(place: Place<'_>) -> Hint {
    if !begins_with(place.rest, "<") {
        return Hint::Words("nothing follows `(?`");
    }
    match (character_at(place.rest, 1), before(place.rest, '>')) {
        (_, None) => Hint::Words("no `>` follows"),
        (Some('0'..='9'), _) => Hint::Words("a name can't begin with a digit"),
        _ => Hint::Words("a name has letters, digits, `_` and `$`"),
    }
}
