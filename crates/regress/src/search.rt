//! Searches, in linear time or within a step limit.
ghost use Rattle.std.specs.Prelude.{◌≡◌, ◌≤◌, ◌*◌, All, IfErr, IfOk, IfSome, None};
ghost use Rattle.std.specs.Vec.{vec_capacity};
ghost use Rattle.regress_front.specs.WellFormed.{IsWellFormed};
ghost use Rattle.regress_match.specs.AllCosts.{CostsOfMatches};
ghost use Rattle.regress_match.specs.Costs.{IsWithinFindCost};
ghost use Rattle.regress_match.specs.Iterated.{iterated_matcher};
ghost use Rattle.regress_match.specs.Memory.{AllNeedMore, SearchNeedsMore, match_bytes, memory_of};
ghost use Rattle.regress_found.specs.Found.{IsInside, Finds};
ghost use Rattle.regress_match.specs.Matcher.{factor_in, find_factor_in, find_limit_in, limit_in};
ghost use Rattle.regress_match.specs.Pattern.{matcher_outcomes, matcher_tree};
ghost use Rattle.regress_found.specs.Repeated.{AreAllMatches};
ghost use Rattle.regress_replace.specs.Order.{AreInOrder};
ghost use Rattle.regress.specs.declared.failure.SearchError.TheVariants.{OutOfSteps, TooMuchMemory};

use crate::failure::SearchError;
use crate::found::Match;
use regress_match::{Cache, Group, Match as Found, Matcher, MatcherMatches, Outcome};
use std::alloc::Global;

/// Returns the leftmost match of a pattern that starts at the byte offset `from` or later, searched for in the memory of a
/// cache.
pub(crate) fn find(
    alloc: Global,
    cache: &mut Cache,
    matcher: &Matcher,
    text: &str,
    from: usize,
    steps: u64,
) -> Result<Option<Found>, SearchError>
    ensures finds { IfOk result (λ found. Finds text.now (matcher_outcomes matcher.now text.now) from found) }
    ensures inside { IsWellFormed (matcher_tree matcher.now) → IfOk result (λ found. IfSome found (IsInside text.now)) }
    ensures linear { IfErr result (λ error. error ≡ OutOfSteps → factor_in matcher.now text.now ≡ None) }
    ensures bounded { IfErr result (λ error. error ≡ OutOfSteps → find_factor_in matcher.now text.now ≡ None) }
    ensures costs { IfErr result (λ error. error ≡ OutOfSteps → IsWithinFindCost matcher.now text.now from (find_limit_in matcher.now steps)) }
    ensures too_much { IfErr result (λ error. error ≡ TooMuchMemory → SearchNeedsMore matcher.now text.now from) }
{
    let found = matcher.find_with(alloc, cache, text, from, steps)?;
    match found.outcome {
        Outcome::Matched(found) => Ok(Some(found)),
        Outcome::NoMatch => Ok(None),
        Outcome::OutOfSteps => Err(SearchError::OutOfSteps),
    }
}

/// Returns all non-overlapping matches of a pattern, from left to right.
pub(crate) fn find_all(
    alloc: Global,
    matcher: &Matcher,
    text: &str,
    steps: u64,
) -> Result<Vec<Found>, SearchError>
    ensures all { IfOk result (λ all. AreAllMatches text.now (matcher_outcomes matcher.now text.now) all.items) }
    ensures inside { IsWellFormed (matcher_tree matcher.now) → IfOk result (λ all. All (IsInside text.now) all.items) }
    ensures order { IfOk result (λ all. AreInOrder 0 all.items) }
    ensures held { IfOk result (λ all. match_bytes matcher.now * vec_capacity all ≤ memory_of matcher.now) }
    ensures linear { IfErr result (λ error. error ≡ OutOfSteps → factor_in matcher.now text.now ≡ None) }
    ensures costs { IfErr result (λ error. error ≡ OutOfSteps → CostsOfMatches matcher.now text.now 0 (limit_in matcher.now steps)) }
    ensures too_much { IfErr result (λ error. error ≡ TooMuchMemory → AllNeedMore matcher.now text.now 0) }
{
    match matcher.find_all(alloc, text, steps)? {
        Some(all) => Ok(all),
        None => Err(SearchError::OutOfSteps),
    }
}

/// The non-overlapping matches in a text, from left to right. [`Regex::find_iter`](crate::Regex::find_iter) returns it.
///
/// Each match starts at the end of the one before or later, and after an empty match the search goes on one character
/// further. An error ends the iteration.
#[derive(Drop)]
pub struct Matches<'r> {
    matches: MatcherMatches<'r>,
    groups: &'r [Group],
    alloc: Global,
    /// Whether an error was returned.
    failed: bool,
    ghost well_formed: { ∥ IsWellFormed (matcher_tree (iterated_matcher matches)) ∥₁ },
}

impl<'r> Matches<'r> {
    ghost use Rattle.std.specs.Prelude.{◌≡◌, ◌≤◌, ◌+◌, ◌*◌, IfNone, false, length, map, min};
    ghost use Rattle.regress_match.specs.Pattern.{capture_of};
    ghost use Rattle.regress.specs.Searched.{Proceeds, has_failed, next_from, search_limit, search_remaining, search_taken, searched_factor, searched_groups, searched_matcher, searched_outcomes, searched_text};

    pub(crate) fn new(
        alloc: Global,
        matcher: &'r Matcher,
        groups: &'r [Group],
        text: &'r str,
        from: usize,
        steps: u64,
    ) -> Matches<'r>
        requires { ∥ IsWellFormed (matcher_tree matcher.now) ∥₁ }
        ensures from { next_from result ≡ from }
        ensures text { searched_text result ≡ text.now }
        ensures outcomes { searched_outcomes result ≡ matcher_outcomes matcher.now text.now }
        ensures groups { searched_groups result ≡ map capture_of groups.now }
        ensures linear { searched_factor result ≡ factor_in matcher.now text.now }
        ensures matcher { searched_matcher result ≡ matcher.now }
        ensures limit { IfNone (factor_in matcher.now text.now) (search_limit result ≡ limit_in matcher.now steps) }
        ensures remaining { search_remaining result ≡ search_limit result }
        ensures taken { search_taken result ≡ 0 }
        ensures failed { has_failed result ≡ false }
    {
        Matches {
            matches: matcher.find_iter(text, from, steps),
            groups,
            alloc,
            failed: false,
        }
    }

    /// Returns the number of steps that the search took so far. Of a call of `next` that returned
    /// [`SearchError::Memory`] or [`SearchError::TooMuchMemory`] some are not counted, nor are those of backtracking until a
    /// stack is full and tables are made.
    pub fn steps(&self) -> u64
        ensures taken { result ≡ min (search_taken self.now) u64.MAX }
        ensures linear { IfSome (searched_factor self.now) (λ n. result ≤ n * (length (searched_text self.now) + 1)) }
        ensures limited { IfNone (searched_factor self.now) (result ≤ search_limit self.now) }
    {
        self.matches.steps()
    }

    /// Returns the next match.
    fn find_next(&mut self) -> Result<Option<Match<'r>>, SearchError>
        ensures { Proceeds self.old result self.new }
    {
        match self.matches.next(self.alloc)? {
            Outcome::Matched(found) => Ok(Some(Match {
                found,
                groups: self.groups,
            })),
            Outcome::NoMatch => Ok(None),
            Outcome::OutOfSteps => Err(SearchError::OutOfSteps),
        }
    }
}

impl<'r> Iterator for Matches<'r> {
    ghost use Rattle.std.specs.Prelude.{◌+◌, ◌-◌, if◌then◌else◌, length};
    ghost use Rattle.std.specs.Iterator.{at_most};
    ghost use Rattle.regress.specs.Searched.{Advances, has_failed, next_from, searched_text};

    type Item = Result<Match<'r>, SearchError>;

    ghost next_gives = { Advances };

    ghost remaining = { λ s. at_most (if has_failed s then 0 else 1 + (length (searched_text s) + 1 - next_from s)) };

    fn next(&mut self) -> Option<Result<Match<'r>, SearchError>> {
        if self.failed {
            return None;
        }
        match self.find_next() {
            Ok(Some(found)) => Some(Ok(found)),
            Ok(None) => None,
            Err(error) => {
                self.failed = true;
                Some(Err(error))
            }
        }
    }
}
