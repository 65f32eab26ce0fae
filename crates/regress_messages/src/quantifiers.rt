//! Quantifiers in braces.

use crate::hint::Hint;
use crate::source::{Place, before, first_that_begins};

/// How a quantifier of another engine may begin, and what to write.
const QUANTIFIERS: [(&str, &str); 2] = [
    ("{,", "write the minimum too, as in `{0,5}`"),
    ("{ ", "a quantifier has no spaces"),
];

/// Returns what is wrong with a quantifier in braces.
pub(crate) fn quantifier_sentence(place: Place<'_>) -> &'static str {
    if is_quantifier(place.rest) {
        "a quantifier's minimum exceeds its maximum"
    } else {
        "unmatched `{`"
    }
}

/// Returns what to write for a brace that begins no quantifier.
pub(crate) fn quantifier_hint(place: Place<'_>) -> Hint {
    if is_quantifier(place.rest) {
        return Hint::None;
    }
    match first_that_begins(&QUANTIFIERS, place.rest) {
        Some(words) => Hint::Words(words),
        None => Hint::Escaped('{'),
    }
}

/// Returns whether code points begin with numbers in braces.
fn is_quantifier(points: &[u32]) -> bool {
    match before(points, '}') {
        Some([_, first, rest @ ..]) => is_digit(*first) && rest.iter().all(|c| is_number_part(*c)),
        _ => false,
    }
}

fn is_digit(c: u32) -> bool {
    matches!(char::from_u32(c), Some('0'..='9'))
}

fn is_number_part(c: u32) -> bool {
    is_digit(c) || c == u32::from(',')
}
