//! The matches of a matcher in a text.
ghost use Rattle.std.specs.Prelude.{◌≤◌, ◌<◌, ◌+◌, ◌*◌, IfSome, length};
ghost use Rattle.std.proofs.Props.{props};
ghost use Rattle.regress_match.specs.Kept.{IfKept, IfKept-prop, IsBacktrackerOf, IsBacktrackerOf-prop};
ghost use Rattle.regress_match.specs.Matcher.{before_tables, factor_in};
ghost use Rattle.regress_match.specs.Memory.{AreStacksWithin, instructions_of, memory_of};
ghost use Rattle.regress_tables.specs.Memory.{table_bytes};
ghost use Rattle.regress_tables.specs.TextSearch.{searched_bytes, searched_size};

use crate::matcher::Matcher;
use regress_backtrack::{Backtracker, Cache};
use regress_tables::TextSearch;

/// The non-overlapping matches of a [`Matcher`] in a text, from left to right: each starts at the end of the one before
/// or later.
#[derive(Drop)]
pub struct MatcherMatches<'m> {
    pub(crate) matcher: &'m Matcher,
    pub(crate) text: &'m str,
    /// What backtracks in the text with the program of the matcher.
    pub(crate) backtracker: Backtracker<'m, 'm>,
    pub(crate) from: usize,
    /// The largest number of steps of backtracking.
    pub(crate) limit: u64,
    /// How many of them remain.
    pub(crate) remaining: u64,
    /// The number of steps of making the tables, and of searches in them.
    pub(crate) searched: u64,
    /// The memory of backtracking, after the first call of `next`.
    pub(crate) cache: Option<Cache>,
    /// The tables, once backtracking has used up its steps or filled a stack.
    pub(crate) search: Option<TextSearch<'m>>,
    ghost runs: { IsBacktrackerOf matcher.now text.now backtracker } by { IsBacktrackerOf-prop matcher.now text.now backtracker },
    ghost within: { remaining ≤ limit },
    ghost short: { IfSome (factor_in matcher.now text.now) (λ _. limit ≤ before_tables (instructions_of matcher.now) * (length text.now + 1)) } by { Prim.hlevel props },
    ghost fits: { IfSome search (λ s. memory_of matcher.now < table_bytes (searched_size s) text.now → searched_bytes s ≤ memory_of matcher.now) } by { Prim.hlevel props },
    ghost held: { IfSome cache (AreStacksWithin matcher.now) } by { Prim.hlevel props },
    ghost kept: { IfKept matcher.now text.now from searched search } by { IfKept-prop matcher.now text.now from searched search },
}
