//! Searches that keep their memory.

use crate::failure::SearchError;
use crate::found::Match;
use crate::pattern::Regex;
use crate::search;
use regress_match::Cache;
use std::alloc::Global;

/// The memory of searches for one match, which is kept from one search to the next, with any regular expressions in any
/// texts. It keeps what the largest search needed, so that a search that needs no more, and no tables, allocates nothing.
///
/// No match depends on the searches before. A search may use a stack that one before has made, also where that is larger
/// than its own `memory` allows.
///
/// # Examples
/// ```
/// let regex = Regex::new(alloc, "(\\d\\d)-(\\d\\d)")?;
/// let mut searcher = Searcher::new(alloc);
/// for (text, end) in [("on 12-31", 8), ("01-02", 5)] {
///     match searcher.find_at(alloc, &regex, text, 0)? {
///         Some(found) => {
///             assert_eq!(rt; found.end(), end);
///             searcher.recycle(found);
///         }
///         None => assert!(rt; false, "it matches"),
///     }
/// }
/// ```
#[derive(Drop)]
pub struct Searcher {
    cache: Cache,
}

impl Searcher {
    ghost use Rattle.std.specs.Prelude.{◌≡◌, ◌↔◌, IsTrue, IfErr, IfOk, IfSome, None, option_map};
    ghost use Rattle.regress_found.specs.Found.{IsInside, Finds};
    ghost use Rattle.regress.specs.Compiled.{groups_in, groups_of, match_of, outcomes_of};
    ghost use Rattle.regress.specs.Costs.{CostsLimit, factor_in, find_factor_in};
    ghost use Rattle.regress.specs.Memory.{SearchNeedsMore};
    ghost use Rattle.regress.specs.Searched.{MatchesSomewhere};
    ghost use Rattle.regress.specs.declared.failure.SearchError.TheVariants.{OutOfSteps, TooMuchMemory};

    /// Returns a searcher without memory. It allocates nothing.
    pub fn new(alloc: Global) -> Searcher {
        Searcher {
            cache: Cache::new(alloc),
        }
    }

    /// Returns the match of [`Regex::find_at`]. [`Searcher::recycle`] takes its memory back.
    ///
    /// # Errors
    /// As for [`Regex::find_at`].
    ///
    /// # Complexity
    /// As for [`Regex::find_at`].
    pub fn find_at<'r>(
        &mut self,
        alloc: Global,
        regex: &'r Regex,
        text: &str,
        start: usize,
    ) -> Result<Option<Match<'r>>, SearchError>
        ensures finds { IfOk result (λ found. Finds text.now (outcomes_of regex.now text.now) start (option_map match_of found)) }
        ensures inside { IfOk result (λ found. IfSome found (λ m. IsInside text.now (match_of m))) }
        ensures groups { IfOk result (λ found. IfSome found (λ m. groups_in m ≡ groups_of regex.now)) }
        ensures linear { IfErr result (λ error. error ≡ OutOfSteps → factor_in regex.now text.now ≡ None) }
        ensures bounded { IfErr result (λ error. error ≡ OutOfSteps → find_factor_in regex.now text.now ≡ None) }
        ensures costs { IfErr result (λ error. error ≡ OutOfSteps → CostsLimit regex.now text.now start) }
        ensures too_much { IfErr result (λ error. error ≡ TooMuchMemory → SearchNeedsMore regex.now text.now start) }
    {
        let found = search::find(
            alloc,
            &mut self.cache,
            &regex.matcher,
            text,
            start,
            regex.steps,
        )?;
        match found {
            Some(found) => Ok(Some(Match {
                found,
                groups: &regex.groups,
            })),
            None => Ok(None),
        }
    }

    /// Returns whether the pattern matches somewhere in `text`.
    ///
    /// # Errors
    /// As for [`Regex::find_at`].
    pub fn is_match(
        &mut self,
        alloc: Global,
        regex: &Regex,
        text: &str,
    ) -> Result<bool, SearchError>
        ensures is { IfOk result (λ is. IsTrue is ↔ MatchesSomewhere text.now (outcomes_of regex.now text.now)) }
        ensures linear { IfErr result (λ error. error ≡ OutOfSteps → factor_in regex.now text.now ≡ None) }
        ensures bounded { IfErr result (λ error. error ≡ OutOfSteps → find_factor_in regex.now text.now ≡ None) }
        ensures costs { IfErr result (λ error. error ≡ OutOfSteps → CostsLimit regex.now text.now 0) }
        ensures too_much { IfErr result (λ error. error ≡ TooMuchMemory → SearchNeedsMore regex.now text.now 0) }
    {
        match self.find_at(alloc, regex, text, 0)? {
            Some(found) => {
                self.recycle(found);
                Ok(true)
            }
            None => Ok(false),
        }
    }

    /// Takes the memory of a match, for that of the next search.
    pub fn recycle(&mut self, found: Match<'_>) {
        self.cache.recycle(found.found);
    }
}
