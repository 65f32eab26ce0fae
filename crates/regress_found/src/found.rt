//! Matches.
ghost use Rattle.std.specs.Prelude.{◌≡◌, None, length, slice_index_or};
ghost use Rattle.regress_found.specs.Found.{start_of, state_of};

/// A match: a span of the text, and the captures of the groups, in byte offsets.
#[derive(Debug, Drop)]
pub struct Match {
    start: usize,
    end: usize,
    /// The capture of each group by its id, as a half-open range of byte offsets; `None` if the group is unset.
    groups: Vec<Option<(usize, usize)>>,
}

impl Match {
    /// Returns a match with this span and these captures. It is for the matchers of this repository.
    pub fn new(start: usize, end: usize, groups: Vec<Option<(usize, usize)>>) -> Match
        ensures start { start_of result ≡ start }
        ensures state { state_of result ≡ record { position = end; captures = groups.items } }
    {
        Match { start, end, groups }
    }

    /// Returns the captures of the groups by their ids. Their memory may be used for another match.
    pub fn into_groups(self) -> Vec<Option<(usize, usize)>>
        ensures { result.items ≡ (state_of self).captures }
    {
        self.groups
    }

    /// Returns the byte offset at which the match starts.
    pub fn start(&self) -> usize
        ensures { result ≡ start_of self.now }
    {
        self.start
    }

    /// Returns the byte offset at which the match ends, which is not part of it.
    pub fn end(&self) -> usize
        ensures { result ≡ (state_of self.now).position }
    {
        self.end
    }

    /// Returns the number of capture groups of the pattern.
    pub fn group_count(&self) -> usize
        ensures { result ≡ length (state_of self.now).captures }
    {
        self.groups.len()
    }

    /// Returns the span that a group has captured last, as a half-open range of byte offsets.
    ///
    /// Ids count from 0, in the order of the opening parentheses; the group that a pattern calls 1 has the id 0. The
    /// result is `None` if the group is unset, or if the pattern has no group with this id.
    pub fn group(&self, id: usize) -> Option<(usize, usize)>
        ensures { result ≡ slice_index_or (state_of self.now).captures id None }
    {
        if id < self.groups.len() {
            self.groups[id]
        } else {
            None
        }
    }
}
