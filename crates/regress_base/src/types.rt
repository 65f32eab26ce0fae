//! Plain values that every layer shares: flags, anchors, quantifiers, ids, limits, brackets, groups and loops.

ghost use Rattle.std.specs.Prelude.{◌≡◌};
ghost use Rattle.regress_base.specs.Intervals.{code_point_max};
ghost use Rattle.regress_base.specs.Limits.{max_capture_groups, max_loops, max_nesting_depth, max_char_set_length};

pub use crate::charclasses::CharacterClassType;
use crate::interval::CODE_POINT_MAX;
pub use bracket::BracketContents;
pub use captures::{GroupData, LoopData};

mod bracket;
mod captures;

/// The flags of a pattern.
///
/// Each flag has its effect independently: `unicode_sets` does not imply `unicode`. A caller who wants the meaning of
/// JavaScript's flag v sets both (dialect).
#[derive(Clone, Copy, Debug, Default, PartialEq, Eq)]
pub struct Flags {
    /// Flag i, ignoreCase: a character matches each character with the same canonical form.
    pub icase: bool,
    /// Flag m, multiline: `^` and `$` also match next to a line terminator.
    pub multiline: bool,
    /// Flag s, dotAll: `.` also matches a line terminator.
    pub dot_all: bool,
    /// Flag u, unicode: the stricter grammar, and simple case folding in place of upper case.
    pub unicode: bool,
    /// Flag v, unicodeSets: classes with strings and set operators.
    pub unicode_sets: bool,
}

/// The kind of an anchor: the start or the end of the text, or of a line with the flag m.
#[derive(Clone, Copy, Debug)]
pub enum AnchorType {
    /// `^`: the start.
    StartOfLine,
    /// `$`: the end.
    EndOfLine,
}

/// The number of iterations of a loop, and which of them are preferred (ECMA-262, Quantifier).
#[derive(Clone, Copy, Debug)]
pub struct Quantifier {
    /// The minimum number of iterations.
    pub min: usize,
    /// The maximum number of iterations, or `None` if there is no maximum.
    pub max: Option<usize>,
    /// Whether another iteration is tried before what follows the loop (greedy), or after it (lazy).
    pub greedy: bool,
}

/// The id of a capture group in a node: 0-based, in order of opening parentheses.
pub type CaptureGroupID = u16;

/// The name of a capture group.
pub type CaptureGroupName = String;

/// The id of a loop, 0-based.
pub type LoopID = u16;

/// A position in a compiled program, 0-based.
pub type IP = usize;

/// The maximum number of capture groups in a pattern (dialect).
pub const MAX_CAPTURE_GROUPS: usize = 65535;

/// The maximum number of loops (quantified terms) in a pattern (dialect).
pub const MAX_LOOPS: usize = 65535;

/// The maximum nesting depth of a pattern (dialect). The whole pattern has depth 1. Each group adds 1, and so does,
/// with the flag v, each class inside another class.
pub const MAX_NESTING_DEPTH: u32 = 256;

/// The maximum number of members of a small set of bytes or code points (dialect).
pub const MAX_CHAR_SET_LENGTH: usize = 4;

/// States that the limits and the greatest code point are the numbers of the definitions.
///
/// The function has no effect: a function whose proof needs the fact calls it.
pub fn limits_are_as_defined()
    ensures capture_groups { MAX_CAPTURE_GROUPS ≡ max_capture_groups }
    ensures loops { MAX_LOOPS ≡ max_loops }
    ensures nesting_depth { MAX_NESTING_DEPTH ≡ max_nesting_depth }
    ensures char_set_length { MAX_CHAR_SET_LENGTH ≡ max_char_set_length }
    ensures code_points { CODE_POINT_MAX ≡ code_point_max }
{}
