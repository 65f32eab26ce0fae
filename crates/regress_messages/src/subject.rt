//! The part of a pattern that an error is about.

use crate::source::{Place, before};
use crate::topic::Topic;
use std::fmt::{self, Formatter, Write};

/// The maximum number of code points of a subject that is shown.
const SHOWN: usize = 40;

/// Returns the part of the pattern that the error is about, empty if there is none to show.
pub(crate) fn subject(topic: Topic, place: Place<'_>) -> &[u32] {
    let part = match topic {
        Topic::Escape => place.rest.get(..2),
        Topic::SetCharacter => place.rest.get(..1),
        Topic::UnknownName | Topic::SameName => before(place.rest, '>'),
        Topic::Property => before(place.rest, '}'),
        _ => None,
    };
    match part {
        Some(part) if part.len() <= SHOWN => part,
        _ => &[],
    }
}

/// Writes code points after a space and in backquotes, or nothing if there are none.
pub(crate) fn write_subject<W: Write>(points: &[u32], f: &mut Formatter<W>) -> fmt::Result {
    if points.is_empty() {
        return Ok(());
    }
    f.write_str(" `")?;
    for c in points {
        write_character(char::from_u32(*c).unwrap_or(char::REPLACEMENT_CHARACTER), f)?;
    }
    f.write_char('`')
}

/// Writes a character, or an escape of it if it is a control character, a separator of lines, or formats bidirectional text.
pub(crate) fn write_character<W: Write>(c: char, f: &mut Formatter<W>) -> fmt::Result {
    match c {
        '\0'..='\u{1F}'
        | '\u{7F}'..='\u{9F}'
        | '\u{61C}'
        | '\u{200E}'
        | '\u{200F}'
        | '\u{2028}'..='\u{202E}'
        | '\u{2066}'..='\u{2069}' => { write!(f, "\\u{{{:X}}}", u32::from(c)) }
        c => f.write_char(c),
    }
}
