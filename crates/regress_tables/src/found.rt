//! What a search finds.

use regress_found::Match;

/// The result of a search.
#[derive(Debug, Drop)]
pub struct Search {
    /// The leftmost match, or `None` if there is none.
    pub found: Option<Match>,
    /// The number of steps: of bits that were evaluated, positions that were tried, instructions of walks, and 64 captures
    /// of the match or of an instruction.
    pub steps: u64,
}
