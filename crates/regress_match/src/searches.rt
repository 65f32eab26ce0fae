//! Searches with a matcher, in linear time or within a step limit.
ghost use Rattle.std.specs.Prelude.{◌≡◌, ◌+◌, ◌*◌, ◌≤◌, IfErr, IfNone, IfOk, IfSome, IsNone, IsSome, length};
ghost use Rattle.std.specs.Vec.{vec_capacity};
ghost use Rattle.regress_tree.specs.WellFormed.{IsWellFormed};
ghost use Rattle.regress_match.specs.Costs.{IsWithinFindCost, IsWithinMatchCost};
ghost use Rattle.regress_match.specs.AllCosts.{CostsOfMatches};
ghost use Rattle.regress_match.specs.Iterated.{iterated_from, iterated_matcher, iterated_text, step_limit, steps_remaining, steps_taken};
ghost use Rattle.regress_found.specs.Results.{IsSearchResult, IfMatched, IsMatchResult};
ghost use Rattle.regress_found.specs.Found.{IsInside};
ghost use Rattle.regress_found.specs.declared.fault.MemoryFault.TheVariants.{TooMuchMemory};
ghost use Rattle.regress_match.specs.Memory.{AllNeedMore, AreStacksWithin, MayFillStackAt, SearchNeedsMore, instructions_of, match_bytes, memory_of};
ghost use Rattle.regress_match.specs.Matcher.{IsLimited, IsLinear, before_tables, factor_in, find_factor_in, find_limit_in, limit_in};
ghost use Rattle.regress_match.specs.Pattern.{matcher_outcomes, matcher_tree};
ghost use Rattle.regress_found.specs.Repeated.{AreAllMatches};

use crate::matcher::Matcher;
use crate::matcher_matches::MatcherMatches;
use regress_backtrack::{Cache, match_at};
use regress_found::{Found, Match, MemoryFault, Outcome, push_within};
use std::alloc::Global;

/// The least and the largest number of steps of backtracking for each byte of a text, and once more, after which tables are
/// made.
const LEAST_STEPS: u64 = 4;

const MOST_STEPS: u64 = 64;

/// How many more there are, so that a short text is searched without tables where a long one is not.
const MORE_STEPS: u64 = 4096;

/// The number of instructions above which a program is large: where rows of its tables differ, they are slow to fill.
const SMALL_PROGRAM: usize = 1_000;

/// The largest number of steps that a large program has on top.
const MOST_STEPS_IF_LARGE: u64 = 1 << 22;

impl Matcher {
    /// Returns the leftmost match in `text` that starts at the byte offset `from` or later, on a character boundary, and
    /// of those at its offset the preferred one.
    ///
    /// `from` may be off a character boundary; past the end of `text` there is no match. If the tree is well formed, as
    /// parsed and optimized trees are, the spans of the match and of its groups are inside `text`, on character
    /// boundaries, so that `text` may be sliced by them.
    ///
    /// # Complexity
    /// If [`Matcher::is_find_linear`], and [`Matcher::find_steps_per_byte`] for each byte of the text, and once more, is
    /// within [`Limits::linear_steps`](crate::Limits::linear_steps), the result is never [`Outcome::OutOfSteps`], and the
    /// steps are at most that. The search first backtracks within some steps for each byte; once they are used up, or a
    /// stack is full, it makes tables, whose memory is proportional to the number of instructions and the length of the
    /// text.
    ///
    /// Any other search only backtracks. Its step limit is `steps`, or if [`Matcher::is_find_linear`],
    /// [`Limits::linear_steps`](crate::Limits::linear_steps), counted as in
    /// [`Backtracker::find`](regress_backtrack::Backtracker::find). A search takes at most its cost, the steps that
    /// following every outcome takes, and one for each byte of the text and once more.
    ///
    /// # Errors
    /// - [`MemoryFault::TooMuchMemory`] if the search needs tables that take more memory than [`Limits`](crate::Limits)
    ///   allow; or if it only backtracks, and a backtrack stack needs more. Then 64 times its cost is at least the number of
    ///   entries for which the stack may have room.
    /// - [`MemoryFault::Memory`] if an allocation fails.
    ///
    /// # Examples
    /// ```
    /// let tables = Arc::new(alloc, Tables::small(alloc)?)?;
    /// let points = code_points(alloc, "(a*)*b")?;
    /// let regex = try_parse(alloc, &points, Flags::default(), &tables)?;
    /// let matcher = Matcher::new(alloc, regex, &tables, Limits::default())?;
    /// assert!(rt; matcher.is_linear());
    /// let found = matcher.find(alloc, "xaaab", 0, 0)?;
    /// match &found.outcome {
    ///     Outcome::Matched(found) => {
    ///         assert_eq!(rt; found.start(), 1);
    ///         assert_eq!(rt; found.end(), 5);
    ///     }
    ///     _ => assert!(rt; false, "it matches"),
    /// }
    /// ```
    pub fn find(
        &self,
        alloc: Global,
        text: &str,
        from: usize,
        steps: u64,
    ) -> Result<Found, MemoryFault>
        ensures finds { IfOk result (λ found. IsSearchResult text.now (matcher_outcomes self.now text.now) from found.outcome) }
        ensures inside { IfOk result (λ found. IsWellFormed (matcher_tree self.now) → IfMatched found.outcome (IsInside text.now)) }
        ensures linear { IfOk result (λ found. IfSome (factor_in self.now text.now) (λ n. IsLinear n text.now found.outcome found.steps)) }
        ensures bounded { IfOk result (λ found. IfSome (find_factor_in self.now text.now) (λ n. IsLinear n text.now found.outcome found.steps)) }
        ensures limited { IfOk result (λ found. IfNone (find_factor_in self.now text.now) (IsLimited (find_limit_in self.now steps) found.outcome found.steps)) }
        ensures costs { IfOk result (λ found. IfNone (find_factor_in self.now text.now) (IsWithinFindCost self.now text.now from found.steps)) }
        ensures too_much { IfErr result (λ fault. fault ≡ TooMuchMemory → SearchNeedsMore self.now text.now from) }
    {
        let mut cache = Cache::new(alloc);
        self.find_with(alloc, &mut cache, text, from, steps)
    }

    /// Returns the same match, searched for in the memory of a cache, which is kept for the next search. A search that needs
    /// no tables allocates only where it needs more memory than the cache has. If an allocation fails, the cache may be
    /// empty after it.
    ///
    /// # Errors
    /// As for [`Matcher::find`].
    ///
    /// # Examples
    /// ```
    /// let tables = Arc::new(alloc, Tables::small(alloc)?)?;
    /// let points = code_points(alloc, "(a+)b")?;
    /// let regex = try_parse(alloc, &points, Flags::default(), &tables)?;
    /// let matcher = Matcher::new(alloc, regex, &tables, Limits::default())?;
    /// let mut cache = Cache::new(alloc);
    /// for text in ["xab", "aab"] {
    ///     let found = matcher.find_with(alloc, &mut cache, text, 0, 0)?;
    ///     match found.outcome {
    ///         Outcome::Matched(found) => {
    ///             assert_eq!(rt; found.end(), 3);
    ///             cache.recycle(found);
    ///         }
    ///         _ => assert!(rt; false, "it matches"),
    ///     }
    /// }
    /// ```
    pub fn find_with(
        &self,
        alloc: Global,
        cache: &mut Cache,
        text: &str,
        from: usize,
        steps: u64,
    ) -> Result<Found, MemoryFault>
        ensures finds { IfOk result (λ found. IsSearchResult text.now (matcher_outcomes self.now text.now) from found.outcome) }
        ensures inside { IfOk result (λ found. IsWellFormed (matcher_tree self.now) → IfMatched found.outcome (IsInside text.now)) }
        ensures linear { IfOk result (λ found. IfSome (factor_in self.now text.now) (λ n. IsLinear n text.now found.outcome found.steps)) }
        ensures bounded { IfOk result (λ found. IfSome (find_factor_in self.now text.now) (λ n. IsLinear n text.now found.outcome found.steps)) }
        ensures limited { IfOk result (λ found. IfNone (find_factor_in self.now text.now) (IsLimited (find_limit_in self.now steps) found.outcome found.steps)) }
        ensures costs { IfOk result (λ found. IfNone (find_factor_in self.now text.now) (IsWithinFindCost self.now text.now from found.steps)) }
        ensures within { AreStacksWithin self.now cache.old → AreStacksWithin self.now cache.new }
        ensures too_much { IfErr result (λ fault. fault ≡ TooMuchMemory → SearchNeedsMore self.now text.now from) }
    {
        if self.is_find_linear_in(text) {
            self.find_in_linear_time(alloc, cache, text, from)
        } else {
            self.find_within(alloc, cache, text, from, self.find_step_limit(steps))
        }
    }

    /// Matches at exactly the byte offset `position`, with every group unset at first, within `steps` steps.
    ///
    /// # Complexity
    /// It backtracks, also if [`Matcher::is_find_linear`]. The steps are counted as in
    /// [`Backtracker::find`](regress_backtrack::Backtracker::find), and at most the cost of the match.
    ///
    /// # Preconditions
    /// The position is inside the text, or at its end.
    ///
    /// # Errors
    /// - [`MemoryFault::TooMuchMemory`] if a backtrack stack needs more memory than [`Limits`](crate::Limits) allow.
    /// - [`MemoryFault::Memory`] if an allocation fails.
    ///
    /// # Examples
    /// ```
    /// let tables = Arc::new(alloc, Tables::small(alloc)?)?;
    /// let points = code_points(alloc, "b+")?;
    /// let regex = try_parse(alloc, &points, Flags::default(), &tables)?;
    /// let matcher = Matcher::new(alloc, regex, &tables, Limits::default())?;
    /// match &matcher.match_at(alloc, "abb", 1, 1000)?.outcome {
    ///     Outcome::Matched(found) => assert_eq!(rt; found.end(), 3),
    ///     _ => assert!(rt; false, "it matches"),
    /// }
    /// let found = matcher.match_at(alloc, "abb", 0, 1000)?;
    /// assert!(rt; matches!(&found.outcome, Outcome::NoMatch));
    /// ```
    pub fn match_at(
        &self,
        alloc: Global,
        text: &str,
        position: usize,
        steps: u64,
    ) -> Result<Found, MemoryFault>
        requires { position ≤ length text.now }
        ensures first { IfOk result (λ found. IsMatchResult position (matcher_outcomes self.now text.now position) found.outcome) }
        ensures limited { IfOk result (λ found. IsLimited steps found.outcome found.steps) }
        ensures costs { IfOk result (λ found. IsWithinMatchCost self.now text.now position found.steps) }
        ensures too_much { IfErr result (λ fault. fault ≡ TooMuchMemory → MayFillStackAt self.now text.now position) }
    {
        match_at(
            alloc,
            &self.code,
            self.known(),
            text,
            position,
            steps,
            self.memory,
        )
    }

    /// Returns a search for the non-overlapping matches that start at the byte offset `from` or later.
    ///
    /// If [`Matcher::is_linear`], `steps` has no meaning: the step limit is
    /// [`Limits::linear_steps`](crate::Limits::linear_steps), and the search is never out of steps if
    /// [`Matcher::steps_per_byte`] for each byte of the text, and once more, is within that. For any other pattern `steps`
    /// is the step limit of all calls of [`MatcherMatches::next`] together.
    pub fn find_iter<'m>(&'m self, text: &'m str, from: usize, steps: u64) -> MatcherMatches<'m>
        ensures matcher { iterated_matcher result ≡ self.now }
        ensures text { iterated_text result ≡ text.now }
        ensures from { iterated_from result ≡ from }
        ensures limit { IfNone (factor_in self.now text.now) (step_limit result ≡ limit_in self.now steps) }
        ensures remaining { steps_remaining result ≡ step_limit result }
        ensures taken { steps_taken result ≡ 0 }
    {
        let limit = self.backtracking_steps(text, steps);
        let backtracker = self.backtracker(text);
        MatcherMatches {
            matcher: self,
            text,
            backtracker,
            from,
            limit,
            remaining: limit,
            searched: 0,
            cache: None,
            search: None,
        }
    }

    /// Returns all non-overlapping matches in `text`, from left to right, as [`MatcherMatches`] finds them.
    ///
    /// The result is `None` only if the search is out of steps, as for [`Matcher::find_iter`]. Then the searches for the
    /// matches up to there cost at least its step limit, each as [`MatcherMatches::next`] states.
    ///
    /// # Errors
    /// - [`MemoryFault::TooMuchMemory`] as for [`Matcher::find`], and if the list would have more than
    ///   [`Matcher::most_matches`].
    /// - [`MemoryFault::Memory`] if an allocation fails.
    ///
    /// # Examples
    /// ```
    /// let tables = Arc::new(alloc, Tables::small(alloc)?)?;
    /// let points = code_points(alloc, "a+")?;
    /// let regex = try_parse(alloc, &points, Flags::default(), &tables)?;
    /// let matcher = Matcher::new(alloc, regex, &tables, Limits::default())?;
    /// let mut ends = Vec::new(alloc);
    /// match matcher.find_all(alloc, "aabxa", 0)? {
    ///     Some(all) => {
    ///         for found in &all {
    ///             ends.push(found.end())?;
    ///         }
    ///     }
    ///     None => assert!(rt; false, "it is linear"),
    /// }
    /// assert_eq!(rt; ends.as_slice(), [2, 5].as_slice());
    /// ```
    pub fn find_all(
        &self,
        alloc: Global,
        text: &str,
        steps: u64,
    ) -> Result<Option<Vec<Match>>, MemoryFault>
        ensures all { IfOk result (λ found. IfSome found (λ all. AreAllMatches text.now (matcher_outcomes self.now text.now) all.items)) }
        ensures linear { IfOk result (λ found. IfSome (factor_in self.now text.now) (λ _. IsSome found)) }
        ensures costs { IfOk result (λ found. IsNone found → CostsOfMatches self.now text.now 0 (limit_in self.now steps)) }
        ensures held { IfOk result (λ found. IfSome found (λ all. match_bytes self.now * vec_capacity all ≤ memory_of self.now)) }
        ensures too_much { IfErr result (λ fault. fault ≡ TooMuchMemory → AllNeedMore self.now text.now 0) }
    {
        let most = self.most_matches();
        let mut all = Vec::new(alloc);
        let mut matches = self.find_iter(text, 0, steps);
        loop {
            match matches.next(alloc)? {
                Outcome::Matched(found) => push_within(&mut all, found, most)?,
                Outcome::NoMatch => return Ok(Some(all)),
                Outcome::OutOfSteps => return Ok(None),
            }
        }
    }

    /// Returns the step limit of backtracking: that of the caller or of [`Limits`](crate::Limits), or where the search takes
    /// linear time some steps for each byte.
    fn backtracking_steps(&self, text: &str, steps: u64) -> u64
        ensures linear { IfSome (factor_in self.now text.now) (λ _. result ≤ before_tables (instructions_of self.now) * (length text.now + 1)) }
        ensures limited { IfNone (factor_in self.now text.now) (result ≡ limit_in self.now steps) }
    {
        if self.is_linear_in(text) {
            self.steps_before_tables(text)
        } else {
            self.step_limit(steps)
        }
    }

    /// Returns the number of steps of backtracking after which tables are made. It grows with the number of leaves, as the
    /// number of rows that differ does.
    pub(crate) fn steps_before_tables(&self, text: &str) -> u64
        ensures { result ≤ before_tables (instructions_of self.now) * (length text.now + 1) }
    {
        let bytes = text.len() as u64 + 1;
        let each = LEAST_STEPS.max(self.code.program.leaves.len() as u64);
        let steps = bytes.saturating_mul(each).saturating_add(MORE_STEPS);
        steps
            .min(bytes.saturating_mul(MOST_STEPS))
            .saturating_add(self.steps_if_large(bytes))
    }

    /// Returns how many more there are if the program is large: at most as many as it takes to fill rows that all differ.
    fn steps_if_large(&self, bytes: u64) -> u64
        ensures { result ≤ 2 * instructions_of self.now * bytes }
    {
        let instructions = self.code.instructions();
        if instructions <= SMALL_PROGRAM {
            return 0;
        }
        (instructions as u64)
            .saturating_mul(2)
            .saturating_mul(bytes)
            .min(MOST_STEPS_IF_LARGE)
    }
}
