//! A range of the pattern.

/// A half-open range of code-point indices of a pattern, from 0: `start` is included and `end` is not. It is empty if
/// the two are equal.
#[derive(Clone, Copy, Debug, PartialEq, Eq)]
pub struct Span {
    /// The index of the first code point.
    pub start: usize,
    /// The index after the last code point, at least `start`.
    pub end: usize,
}
