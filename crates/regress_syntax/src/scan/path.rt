//! The path of a position: the disjunctions that contain it.
ghost use Rattle.std.specs.Prelude.{◌≡◌, ◌<◌, ◌≤◌, ◌+◌, ◌∷◌, [], ◌^◌, length, reverse, IfOk, OnOk};
ghost use Rattle.regress_syntax.specs.Paths.{at_the_start, are_alternatives, outside, next_alternative};
ghost use Rattle.regress_syntax.specs.Scanning.{path_of, highest};

use std::alloc::{AllocError, Global};

/// The initial capacity of a path, in disjunctions: most paths need one allocation.
const USUAL_DEPTH: usize = 8;

/// A disjunction that contains a position: that of the whole pattern, or that inside a pair of parentheses.
#[derive(Clone, Copy, PartialEq, Eq)]
pub(super) struct Level {
    /// The number of its opening parenthesis, from 1; 0 for the whole pattern.
    opening: u64,
    /// The index, from 0, of its alternative that contains the position.
    alternative: u64,
}

/// The disjunctions that contain a position.
#[derive(Drop)]
pub(super) struct Path {
    /// The disjunctions, outermost first.
    nesting: Vec<Level>,
}

impl Path {
    /// Returns the path of the start of a pattern.
    pub(super) fn new(alloc: Global) -> Result<Path, AllocError>
        ensures { IfOk result (λ path. path_of path ≡ at_the_start.path) }
    {
        let whole = Level {
            opening: 0,
            alternative: 0,
        };
        let mut nesting = Vec::with_capacity(alloc, USUAL_DEPTH)?;
        nesting.push(whole)?;
        Ok(Path { nesting })
    }

    /// Enters the disjunction after the opening parenthesis of this number.
    pub(super) fn enter(&mut self, opening: u64) -> Result<(), AllocError>
        ensures { OnOk result (path_of self.new ≡ record { opening = opening; alternative = 0 } ∷ path_of self.old) }
    {
        self.nesting.push(Level {
            opening,
            alternative: 0,
        })?;
        Ok(())
    }

    /// Leaves the innermost disjunction, but never the whole pattern: an unmatched `)` closes nothing.
    pub(super) fn leave(&mut self)
        ensures { path_of self.new ≡ outside (path_of self.old) }
    {
        if self.nesting.len() > 1 {
            self.nesting.pop();
        }
    }

    /// Moves to the next alternative of the innermost disjunction.
    pub(super) fn next_alternative(&mut self)
        requires { highest (path_of self.old) + 1 < 2 ^ 64 }
        ensures { path_of self.new ≡ next_alternative (path_of self.old) }
    {
        if let Some(level) = self.nesting.last_mut() {
            level.alternative += 1;
        }
    }

    /// Returns the number of disjunctions that contain the position.
    pub(super) fn depth(&self) -> usize
        ensures { result ≡ length (path_of self.now) }
    {
        self.nesting.len()
    }

    /// Returns a copy of the outermost disjunctions, at most `limit` of them.
    pub(super) fn outermost(&self, alloc: Global, limit: usize) -> Result<Path, AllocError>
        ensures { length (path_of self.now) ≤ limit → IfOk result (λ copy. path_of copy ≡ path_of self.now) }
    {
        let kept = self.nesting.len().min(limit);
        Ok(Path {
            nesting: Vec::from_slice(alloc, &self.nesting[..kept])?,
        })
    }

    /// Returns whether some disjunction has the two positions in different alternatives. The first disjunction at which
    /// the paths differ decides: inside different parentheses, or different alternatives, no disjunction contains both
    /// positions.
    pub(super) fn is_alternative_to(&self, other: &Path) -> bool
        ensures { result ≡ are_alternatives (reverse (path_of self.now)) (reverse (path_of other.now)) }
    {
        self.nesting
            .iter()
            .zip(&other.nesting)
            .find(|(level, beside)| level != beside)
            .is_some_and(|(level, beside)| level.opening == beside.opening)
    }
}
