//! What a search finds.

use crate::Match;

/// The result of a search.
#[derive(Debug, Drop)]
pub enum Outcome {
    /// The program matches: the first outcome in order of preference.
    Matched(Match),
    /// The program does not match.
    NoMatch,
    /// The step limit was reached before the result was known.
    OutOfSteps,
}

/// The result of a search, with the steps that it took.
#[derive(Debug, Drop)]
pub struct Found {
    /// The result.
    pub outcome: Outcome,
    /// The number of steps, at most the limit.
    pub steps: u64,
}
