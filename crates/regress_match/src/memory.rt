//! The memory of lists of matches.
ghost use Rattle.std.specs.Prelude.{◌+◌, ◌*◌, ◌<◌, ◌≤◌};
ghost use Rattle.regress_match.specs.Memory.{match_bytes, memory_of};

use crate::matcher::Matcher;

/// The number of bytes that a match counts in a list, with a reference to the names of its groups.
const MATCH_BYTES: usize = 56;

/// The number of bytes that the capture of a group counts.
const GROUP_BYTES: usize = 24;

impl Matcher {
    /// Returns the number of matches that a list may have room for, by [`Limits::memory`](crate::Limits::memory).
    pub fn most_matches(&self) -> usize
        ensures within { match_bytes self.now * result ≤ memory_of self.now }
        ensures most { memory_of self.now < match_bytes self.now * (result + 1) }
    {
        let memory = self.memory;
        let Some(groups) = self.code.groups().checked_mul(GROUP_BYTES) else {
            return 0;
        };
        match groups.checked_add(MATCH_BYTES) {
            Some(bytes) => memory / bytes,
            None => 0,
        }
    }
}
