//! The dialect of patterns, and limits for untrusted patterns and texts.
use regress_front::parse::Dialect;
use regress_match::Limits;

/// The dialect of a regular expression, and its limits.
#[derive(Clone, Copy, Debug, PartialEq, Eq)]
pub struct Options {
    /// The dialect of the pattern. `Dialect::Ecma` by default, the language of ECMA-262; `docs/syntax.md` has the rules in
    /// which the dialects differ.
    pub dialect: Dialect,
    /// The number of steps that one search may take if it is not linear, counted as in `Backtracker::find` of
    /// `regress_backtrack`. All matches that an iterator returns are one search. A billion by default; how long that takes
    /// depends on the pattern (`docs/performance.md`).
    pub steps: u64,
    /// The number of nodes that the tree of the pattern may have, as `node_bound` of `regress_front` bounds it before
    /// the pattern is parsed. A million by default.
    pub nodes: usize,
    /// The number of instructions of the pattern's program that may be stored, where the body of a loop `{n,m}` counts m
    /// times, or if it is one character, about m / 64 times; but if that is too much, at most four times, or a few times.
    /// 250,000 by default: up to some 100 MiB.
    pub instructions: usize,
    /// The number of instructions up to which a program is searched in linear time, where it can be. A body of one character
    /// always counts about m / 64 times here. The tables that this needs take up to two bits for each instruction and byte
    /// of the text. 4,000 by default, so at most 1,000 times the length of the text.
    pub linear_instructions: usize,
    /// The number of steps that a search may take that takes linear time; `None` by default: no limit. Where the bound for
    /// a text exceeds it ([`Regex::steps_per_byte`](crate::Regex::steps_per_byte) for each byte and once more, for one match
    /// [`Regex::find_steps_per_byte`](crate::Regex::find_steps_per_byte)), the search only backtracks, within this number of
    /// steps. Searches with a pattern that is not linear have the limit `steps`.
    pub linear_steps: Option<u64>,
    /// The memory in bytes that the tables of one search may take; also each backtrack stack, and a list of matches. 256 MiB
    /// by default. A search that needs more ends with [`SearchError::TooMuchMemory`](crate::SearchError::TooMuchMemory), but
    /// one whose stack is full goes on by tables, if it takes linear time.
    ///
    /// There is a backtrack stack for the pattern, and one for each level of nested lookarounds, with 40 bytes for each
    /// entry. Tables take at most a quarter of a byte for each instruction, and 8 bytes, for each byte of the text, and once
    /// more: a search by tables never ends so if that is within the limit. It takes less where positions are alike, and up to
    /// 4 bytes more for each lookaround and byte of the text. A match in a list counts 56 bytes, and 24 for each group of the
    /// pattern.
    pub memory: usize,
}

impl Default for Options {
    ghost use Rattle.std.specs.Prelude.{◌≡◌};
    ghost use Rattle.regress.specs.Limits.{default_options};

    ghost is_default = { λ options. options ≡ default_options };

    fn default() -> Options {
        Options {
            dialect: Dialect::Ecma,
            steps: 1_000_000_000,
            nodes: 1_000_000,
            instructions: 250_000,
            linear_instructions: 4_000,
            linear_steps: None,
            memory: Limits::default().memory,
        }
    }
}
