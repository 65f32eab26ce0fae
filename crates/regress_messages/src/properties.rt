//! Properties as other engines name them.

use crate::hint::Hint;
use crate::source::{Place, before, first_that_begins};

/// How names of properties begin in other engines, and what to write.
const PROPERTIES: [(&str, &str); 21] = [
    ("^", "write `\\P{..}`"),
    (
        "Is",
        "write the name without `Is`, as `\\p{Letter}` or `\\p{Script=Greek}`",
    ),
    (
        "In",
        "a script is written `\\p{Script=Greek}`, and there are no blocks",
    ),
    ("Latin", "write `\\p{Script=Latin}`"),
    ("Greek", "write `\\p{Script=Greek}`"),
    ("Cyrillic", "write `\\p{Script=Cyrillic}`"),
    ("Han", "write `\\p{Script=Han}`"),
    ("Hiragana", "write `\\p{Script=Hiragana}`"),
    ("Katakana", "write `\\p{Script=Katakana}`"),
    ("Arabic", "write `\\p{Script=Arabic}`"),
    ("Hebrew", "write `\\p{Script=Hebrew}`"),
    ("Alnum", "write `[\\p{Alphabetic}\\p{Nd}]`"),
    ("alnum", "write `[\\p{Alphabetic}\\p{Nd}]`"),
    ("alpha", "write `\\p{Alphabetic}`"),
    ("digit", "write `\\p{Nd}`"),
    ("lower", "write `\\p{Lowercase}`"),
    ("upper", "write `\\p{Uppercase}`"),
    ("punct", "write `\\p{P}`"),
    ("Punct", "write `\\p{P}`"),
    ("space", "write `\\s`"),
    ("Space", "write `\\s`"),
];

/// Returns what to write for an unknown property.
pub(crate) fn property_hint(place: Place<'_>) -> Hint {
    if before(place.rest, '}').is_none() {
        return Hint::Words("no `}` follows");
    }
    match first_that_begins(&PROPERTIES, place.rest) {
        Some(words) => Hint::Words(words),
        None => Hint::Words("names are as in `\\p{Letter}` and `\\p{Script=Greek}`"),
    }
}
