//! Slices a text by a match. docs/guide.md shows parts of it.
ghost use Rattle.std.specs.Prelude.{◌≡◌, None, IfOk, IfSome};
ghost use Rattle.regress_front.specs.WellFormed.{IsWellFormed};
ghost use Rattle.regress_found.specs.Results.{IsSearchResult};
ghost use Rattle.regress_match.specs.Pattern.{matcher_outcomes, matcher_tree};
ghost use Rattle.example_callers.specs.MatchedText.{IsMatchedText};

use regress_match::{Found, Matcher, MemoryFault, Outcome};
use std::alloc::Global;

/// Why it is not known whether a text has a match.
#[derive(Clone, Copy, Debug, PartialEq, Eq)]
pub enum SearchError {
    /// An allocation failed.
    Memory,
    /// The step limit was reached.
    OutOfSteps,
    /// The search needs too much memory.
    TooMuchMemory,
}

impl From<MemoryFault> for SearchError {
    fn from(fault: MemoryFault) -> SearchError {
        match fault {
            MemoryFault::Memory => SearchError::Memory,
            MemoryFault::TooMuchMemory => SearchError::TooMuchMemory,
        }
    }
}

/// Returns the part of `text` that the leftmost match of a pattern spans; `None` if there is no match.
///
/// # Preconditions
/// The tree of the pattern is well formed, as parsed and optimized trees are.
///
/// # Errors
/// Returns [`SearchError::OutOfSteps`] if the search takes more than `steps` steps, and never if it takes linear time;
/// [`SearchError::TooMuchMemory`] if it needs more memory than the matcher's limit; and [`SearchError::Memory`] if an
/// allocation fails.
pub fn first_match<'a>(
    alloc: Global,
    matcher: &Matcher,
    text: &'a str,
    steps: u64,
) -> Result<Option<&'a str>, SearchError>
    requires { IsWellFormed (matcher_tree matcher.now) }
    ensures found { IfOk result (λ found. IfSome found (λ part. IsMatchedText text.now (matcher_outcomes matcher.now text.now) part.now)) }
    ensures none { IfOk result (λ found. found ≡ None → IsSearchResult text.now (matcher_outcomes matcher.now text.now) 0 Outcome.NoMatch) }
{
    let Found { outcome, .. } = matcher.find(alloc, text, 0, steps)?;
    match outcome {
        Outcome::Matched(found) => Ok(Some(&text[found.start()..found.end()])),
        Outcome::NoMatch => Ok(None),
        Outcome::OutOfSteps => Err(SearchError::OutOfSteps),
    }
}
