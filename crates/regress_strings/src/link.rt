//! Which strings are equal, and which begin with others.

/// For a place in the order of strings, where the strings are that the string there begins with.
#[derive(Clone, Copy)]
pub(crate) struct Link {
    /// The first place of an equal string.
    pub(crate) first: usize,
    /// One more than the last place of a shorter string that it begins with, or 0 if there is none.
    pub(crate) prefix: usize,
}
