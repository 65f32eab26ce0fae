//! The numbers of the matches that a search has found.
ghost use Rattle.std.specs.Prelude.{◌≤◌, length};

use super::results::{OK, ROOM};
use super::searches::NO_MATCH;

/// The numbers of matches, the ends of each and of its groups, of which some were returned.
#[derive(Drop)]
pub struct MatchList {
    pub(crate) ends: Vec<usize>,
    /// How many of them were returned.
    pub(crate) returned: usize,
    /// How many a match has.
    pub(crate) width: usize,
    ghost within: { returned ≤ length ends.items },
}

impl MatchList {
    ghost use Rattle.std.specs.Prelude.{◌≡◌};
    ghost use Rattle.regress_capi.specs.ListResults.{NextResult, left};

    /// Returns how many numbers are left.
    pub fn left(&self) -> usize
        ensures { result ≡ length (left self.now) }
    {
        self.ends.len() - self.returned
    }

    /// Writes the numbers of the next match. Returns the status.
    ///
    /// # Errors
    /// The status is 1 if no match is left, and 3 if `spans` is too small.
    pub fn write_next(&mut self, spans: &mut [usize], needed: &mut usize) -> u32
        ensures status { NextResult self.old spans.old needed.new self.new spans.new result }
    {
        let next = self.width.min(self.ends.len() - self.returned);
        *needed = next;
        if next == 0 {
            return NO_MATCH;
        }
        if spans.len() < next {
            return ROOM;
        }
        let end = self.returned + next;
        spans[..next].copy_from_slice(&self.ends[self.returned..end]);
        self.returned = end;
        OK
    }
}
