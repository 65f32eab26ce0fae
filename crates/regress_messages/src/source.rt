//! Parts of a pattern.

/// Where a syntax error is: the pattern before it, and from it on.
#[derive(Clone, Copy)]
pub(crate) struct Place<'a> {
    pub(crate) before: &'a [u32],
    pub(crate) rest: &'a [u32],
}

impl<'a> Place<'a> {
    /// Returns the place of a position in a pattern, its end if the position is past it.
    pub(crate) fn at(pattern: &'a [u32], position: usize) -> Place<'a> {
        let position = position.min(pattern.len());
        Place {
            before: &pattern[..position],
            rest: &pattern[position..],
        }
    }

    /// Returns the character at the place, `None` at the end.
    pub(crate) fn character(self) -> Option<char> {
        character_at(self.rest, 0)
    }

    /// Returns whether a text is right before the place.
    pub(crate) fn follows(self, text: &str) -> bool {
        let start = self.before.len().saturating_sub(text.chars().count());
        begins_with(&self.before[start..], text)
    }

    /// Returns the character before the place, `None` at the start.
    pub(crate) fn character_before(self) -> Option<char> {
        match self.before.last() {
            Some(c) => char::from_u32(*c),
            None => None,
        }
    }
}

/// Returns the character with an index, `None` if there is none or a surrogate.
pub(crate) fn character_at(points: &[u32], index: usize) -> Option<char> {
    match points.get(index) {
        Some(c) => char::from_u32(*c),
        None => None,
    }
}

/// Returns whether code points begin with a text.
pub(crate) fn begins_with(points: &[u32], text: &str) -> bool {
    let mut rest = points.iter();
    for c in text.chars() {
        if rest.next() != Some(&u32::from(c)) {
            return false;
        }
    }
    true
}

/// Returns the value of the first entry of a table with which code points begin.
pub(crate) fn first_that_begins(
    table: &[(&'static str, &'static str)],
    points: &[u32],
) -> Option<&'static str> {
    for (beginning, value) in table {
        if begins_with(points, beginning) {
            return Some(*value);
        }
    }
    None
}

/// Returns the code points before the first `end`, `None` if there is no `end`.
pub(crate) fn before(points: &[u32], end: char) -> Option<&[u32]> {
    match points.iter().position(|c| *c == u32::from(end)) {
        Some(length) => points.get(..length),
        None => None,
    }
}
