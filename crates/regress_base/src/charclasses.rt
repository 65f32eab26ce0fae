//! The character classes that a pattern names by an escape, as canonical lists of intervals.

ghost use Rattle.std.specs.Prelude.{◌≡◌};
ghost use Rattle.regress_base.specs.Classes.{digits, word_characters, white_space, line_terminators};
ghost use Rattle.regress_base.specs.Intervals.{IsCanonical};

use crate::interval::Interval;

/// A class with an escape: `\d`, `\s` or `\w` (ECMA-262, CharacterClassEscape).
#[derive(Clone, Copy, Debug, PartialEq, Eq)]
pub enum CharacterClassType {
    /// `\d`: [`DIGITS`].
    Digits,
    /// `\s`: [`WHITESPACE`] and [`LINE_TERMINATOR`].
    Spaces,
    /// `\w`: [`WORD_CHARS`].
    Words,
}

/// The characters of `\w`: 0 to 9, A to Z, the low line, a to z (basicWordChars of WordCharacters in ECMA-262, section
/// 22.2.2.9).
pub const WORD_CHARS: [Interval; 4] = [
    Interval {
        first: 0x30,
        last: 0x39,
    },
    Interval {
        first: 0x41,
        last: 0x5A,
    },
    Interval {
        first: 0x5F,
        last: 0x5F,
    },
    Interval {
        first: 0x61,
        last: 0x7A,
    },
];

/// The characters of `\d`: 0 to 9 (ECMA-262, section 22.2.2.9).
pub const DIGITS: [Interval; 1] = [Interval {
    first: 0x30,
    last: 0x39,
}];

/// White space (ECMA-262, section 12.2). The first interval also contains the line feed.
pub const WHITESPACE: [Interval; 9] = [
    Interval {
        first: 0x9,
        last: 0xC,
    },
    Interval {
        first: 0x20,
        last: 0x20,
    },
    Interval {
        first: 0xA0,
        last: 0xA0,
    },
    Interval {
        first: 0x1680,
        last: 0x1680,
    },
    Interval {
        first: 0x2000,
        last: 0x200A,
    },
    Interval {
        first: 0x202F,
        last: 0x202F,
    },
    Interval {
        first: 0x205F,
        last: 0x205F,
    },
    Interval {
        first: 0x3000,
        last: 0x3000,
    },
    Interval {
        first: 0xFEFF,
        last: 0xFEFF,
    },
];

/// Line terminators (ECMA-262, section 12.3).
pub const LINE_TERMINATOR: [Interval; 3] = [
    Interval {
        first: 0xA,
        last: 0xA,
    },
    Interval {
        first: 0xD,
        last: 0xD,
    },
    Interval {
        first: 0x2028,
        last: 0x2029,
    },
];

/// Returns [`WORD_CHARS`], the characters of `\w`, with a proof that they are as defined and canonical.
pub fn word_intervals() -> [Interval; 4]
    ensures value { result ≡ word_characters }
    ensures canonical { IsCanonical result }
{
    WORD_CHARS
}

/// Returns [`DIGITS`], the characters of `\d`, with a proof that they are as defined and canonical.
pub fn digit_intervals() -> [Interval; 1]
    ensures value { result ≡ digits }
    ensures canonical { IsCanonical result }
{
    DIGITS
}

/// Returns [`WHITESPACE`], with a proof that it is as defined and canonical.
pub fn white_space_intervals() -> [Interval; 9]
    ensures value { result ≡ white_space }
    ensures canonical { IsCanonical result }
{
    WHITESPACE
}

/// Returns [`LINE_TERMINATOR`], with a proof that it is as defined and canonical.
pub fn line_terminator_intervals() -> [Interval; 3]
    ensures value { result ≡ line_terminators }
    ensures canonical { IsCanonical result }
{
    LINE_TERMINATOR
}
