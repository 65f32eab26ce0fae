//! The next match of a matcher: by backtracking, and then by tables.
ghost use Rattle.std.specs.Prelude.{◌≡◌, ◌<◌, ◌≤◌, ◌+◌, ◌-◌, ◌*◌, ℕ, IfErr, IfNone, IfOk, IfSome, IsNone, IsSome, OnErr, Some, false, length, min, true};
ghost use Rattle.regress_tree.specs.WellFormed.{IsWellFormed};
ghost use Rattle.regress_program.specs.Cost.{Cost};
ghost use Rattle.regress_program.specs.Program.{Out};
ghost use Rattle.regress_code.specs.Code.{captures_cost};
ghost use Rattle.regress_match.specs.Costs.{AreCosts, IsWithinFindCost, find_cost};
ghost use Rattle.regress_match.specs.Iterated.{HasCounted, IsSameIteration, Spends, iterated_from, iterated_matcher, iterated_text, step_limit, steps_remaining, steps_taken};
ghost use Rattle.regress_found.specs.Results.{IsSearchResult, IfMatched, IfOutOfSteps};
ghost use Rattle.regress_found.specs.Found.{IsInside, start_of};
ghost use Rattle.regress_match.specs.Matcher.{factor_in, outcome_if};
ghost use Rattle.regress_match.specs.Pattern.{matcher_outcomes, matcher_tree};
ghost use Rattle.regress_found.specs.declared.fault.MemoryFault.TheVariants.{TooMuchMemory};
ghost use Rattle.regress_match.specs.Memory.{MayFillStack, SearchNeedsMore, StackNeedsMore, TablesNeedMore};
ghost use Rattle.regress_found.specs.Repeated.{EndsHere, offset_after};
ghost use Rattle.regress_found.specs.Tried.{positions_tried};

use crate::matcher::Matcher;
use crate::matcher_matches::MatcherMatches;
use crate::runs::find_by_kept;
use regress_backtrack::Cache;
use regress_found::{Match, MemoryFault, Outcome};
use regress_tables::Linear;
use std::alloc::Global;

impl<'m> MatcherMatches<'m> {
    /// Returns the next match.
    ///
    /// After an empty match the search goes on one character further. After the last match each call returns
    /// [`Outcome::NoMatch`]. Only a search that is not known to take linear time can be out of steps; then the position of
    /// the search stays as it is. The spans of a match are as [`Matcher::find`] states.
    ///
    /// # Complexity
    /// If [`Matcher::is_linear`], all calls together take at most [`Matcher::steps_per_byte`] steps for each byte of
    /// the text, and once more, where that is within [`Limits::linear_steps`](crate::Limits::linear_steps). Else the step
    /// limit is for all calls together, and a call takes at most the cost of its search, and one step for each byte of the
    /// text and once more. Steps are only spent, also by a call that returns an error; a match takes at least one for each
    /// byte offset up to its start and one for each 64 groups, or all that remain. A call that returns an error may not
    /// count its steps, nor may the one in which a backtrack stack is full and tables are made.
    ///
    /// # Errors
    /// The position of the search stays as it is, so that the call may be repeated.
    /// - [`MemoryFault::TooMuchMemory`] as for [`Matcher::find`].
    /// - [`MemoryFault::Memory`] if an allocation fails.
    ///
    /// # Examples
    /// ```
    /// let tables = Arc::new(alloc, Tables::small(alloc)?)?;
    /// let points = code_points(alloc, "a+")?;
    /// let regex = try_parse(alloc, &points, Flags::default(), &tables)?;
    /// let matcher = Matcher::new(alloc, regex, &tables, Limits::default())?;
    /// let mut matches = matcher.find_iter("aabxa", 0, 0);
    /// let mut ends = Vec::new(alloc);
    /// for _ in 0..10 {
    ///     if let Outcome::Matched(found) = matches.next(alloc)? {
    ///         ends.push(found.end())?;
    ///     }
    /// }
    /// assert_eq!(rt; ends.as_slice(), [2, 5].as_slice());
    /// ```
    pub fn next(&mut self, alloc: Global) -> Result<Outcome, MemoryFault>
        ensures finds { IfOk result (IsSearchResult (iterated_text self.old) (matcher_outcomes (iterated_matcher self.old) (iterated_text self.old)) (iterated_from self.old)) }
        ensures inside { IfOk result (λ outcome. IsWellFormed (matcher_tree (iterated_matcher self.old)) → IfMatched outcome (IsInside (iterated_text self.old))) }
        ensures goes_on { IfOk result (λ outcome. iterated_from self.new ≡ offset_after (iterated_text self.old) (iterated_from self.old) outcome) }
        ensures stays { OnErr result (iterated_from self.new ≡ iterated_from self.old) }
        ensures same { IsSameIteration self.old self.new }
        ensures linear { IfOk result (λ outcome. IfSome (factor_in (iterated_matcher self.old) (iterated_text self.old)) (λ _. IfOutOfSteps outcome ⊥)) }
        ensures limited { IfOk result (λ outcome. IfNone (factor_in (iterated_matcher self.old) (iterated_text self.old)) (IfOutOfSteps outcome (steps_remaining self.new ≡ 0))) }
        ensures costs { IfOk result (λ _. IsWithinFindCost (iterated_matcher self.old) (iterated_text self.old) (iterated_from self.old) (steps_remaining self.old - steps_remaining self.new)) }
        ensures spent { Spends self.old self.new }
        ensures counted { IfOk result (λ outcome. IfMatched outcome (HasCounted self.old self.new)) }
        ensures too_much { IfErr result (λ fault. fault ≡ TooMuchMemory → SearchNeedsMore (iterated_matcher self.old) (iterated_text self.old) (iterated_from self.old)) }
    {
        if self.search.is_some() {
            return self.find_in_tables(alloc);
        }
        if self.skip_to_end() {
            return Ok(Outcome::NoMatch);
        }
        match self.backtrack_before_tables(alloc)? {
            Outcome::OutOfSteps => {
                self.make_tables(alloc)?;
                self.find_in_tables(alloc)
            }
            outcome => Ok(outcome),
        }
    }

    /// Returns the text that is searched.
    pub fn text(&self) -> &'m str
        ensures { result.now ≡ iterated_text self.now }
    {
        self.text
    }

    /// Returns the number of steps that all calls of [`MatcherMatches::next`] together took. Of a call that returned an
    /// error some are not counted, nor are those of backtracking until a stack is full and tables are made.
    pub fn steps(&self) -> u64
        ensures taken { result ≡ min (steps_taken self.now) u64.MAX }
        ensures linear { IfSome (factor_in (iterated_matcher self.now) (iterated_text self.now)) (λ n. result ≤ n * (length (iterated_text self.now) + 1)) }
        ensures limited { IfNone (factor_in (iterated_matcher self.now) (iterated_text self.now)) (result + steps_remaining self.now ≡ step_limit self.now) }
    {
        (self.limit - self.remaining).saturating_add(self.searched)
    }

    /// Moves the search past the text if a byte that each match contains does not follow, and returns whether it did.
    ///
    /// It looks for the byte before the first match only, so that all searches together look at each byte of the text
    /// once. Each byte looked at is a step.
    fn skip_to_end(&mut self) -> bool
        requires { IsNone self.old.search }
        ensures ends { result ≡ true → EndsHere (iterated_text self.old) (matcher_outcomes (iterated_matcher self.old) (iterated_text self.old)) (iterated_from self.old) (iterated_from self.new) }
        ensures stays { result ≡ false → iterated_from self.new ≡ iterated_from self.old }
        ensures same { IsSameIteration self.old self.new }
        ensures costs { steps_remaining self.old ≤ steps_remaining self.new + (length (iterated_text self.old) + 1) }
        ensures search { IsNone self.new.search }
        ensures spent { Spends self.old self.new }
        ensures searched { self.new.searched ≡ self.old.searched }
    {
        if self.cache.is_some() {
            return false;
        }
        let mut left = self.remaining;
        let lacks = self
            .matcher
            .lacks_required_byte(self.text, self.from, &mut left);
        self.remaining = left;
        if !lacks {
            return false;
        }
        self.from = self.text.len() + 1;
        true
    }

    /// Returns the next match by backtracking, or [`Outcome::OutOfSteps`] if its steps are used up, or if a backtrack stack
    /// is full and tables may be made; then the memory of the cache is given back.
    fn backtrack_before_tables(&mut self, alloc: Global) -> Result<Outcome, MemoryFault>
        requires { IsNone self.old.search }
        ensures finds { IfOk result (IsSearchResult (iterated_text self.old) (matcher_outcomes (iterated_matcher self.old) (iterated_text self.old)) (iterated_from self.old)) }
        ensures inside { IfOk result (λ outcome. IsWellFormed (matcher_tree (iterated_matcher self.old)) → IfMatched outcome (IsInside (iterated_text self.old))) }
        ensures goes_on { IfOk result (λ outcome. iterated_from self.new ≡ offset_after (iterated_text self.old) (iterated_from self.old) outcome) }
        ensures stays { OnErr result (iterated_from self.new ≡ iterated_from self.old) }
        ensures same { IsSameIteration self.old self.new }
        ensures used_up { IfOk result (λ outcome. IfNone (factor_in (iterated_matcher self.old) (iterated_text self.old)) (IfOutOfSteps outcome (steps_remaining self.new ≡ 0))) }
        ensures costs { IfOk result (λ _. (outs : ℕ → Out) (costs : ℕ → Cost) → AreCosts (iterated_matcher self.old) (iterated_text self.old) outs costs →
            steps_remaining self.old ≤ steps_remaining self.new + find_cost (iterated_matcher self.old) (iterated_text self.old) costs (iterated_from self.old)) }
        ensures search { IsNone self.new.search }
        ensures spent { Spends self.old self.new }
        ensures searched { self.new.searched ≡ self.old.searched }
        ensures tried { IfOk result (λ outcome. IfMatched outcome (λ m.
            steps_remaining self.new ≤ steps_remaining self.old
            - (captures_cost (iterated_matcher self.old).code + positions_tried (iterated_text self.old) (iterated_from self.old) (Some m)))) }
        ensures too_much { IfErr result (λ fault. fault ≡ TooMuchMemory → StackNeedsMore (iterated_matcher self.old) (iterated_text self.old) (iterated_from self.old)) }
    {
        let matcher = self.matcher;
        let text = self.text;
        match self.backtrack(alloc) {
            Err(MemoryFault::TooMuchMemory) => {
                if !matcher.is_linear_in(text) {
                    return Err(MemoryFault::TooMuchMemory);
                }
                self.cache = Some(Cache::new(alloc));
                Ok(Outcome::OutOfSteps)
            }
            Err(MemoryFault::Memory) => Err(MemoryFault::Memory),
            Ok(outcome) => Ok(outcome),
        }
    }

    /// Returns the next match by backtracking, or [`Outcome::OutOfSteps`] if its steps are used up.
    fn backtrack(&mut self, alloc: Global) -> Result<Outcome, MemoryFault>
        requires { IsNone self.old.search }
        ensures finds { IfOk result (IsSearchResult (iterated_text self.old) (matcher_outcomes (iterated_matcher self.old) (iterated_text self.old)) (iterated_from self.old)) }
        ensures inside { IfOk result (λ outcome. IsWellFormed (matcher_tree (iterated_matcher self.old)) → IfMatched outcome (IsInside (iterated_text self.old))) }
        ensures goes_on { IfOk result (λ outcome. iterated_from self.new ≡ offset_after (iterated_text self.old) (iterated_from self.old) outcome) }
        ensures stays { OnErr result (iterated_from self.new ≡ iterated_from self.old) }
        ensures same { IsSameIteration self.old self.new }
        ensures used_up { IfOk result (λ outcome. IfOutOfSteps outcome (steps_remaining self.new ≡ 0)) }
        ensures costs { IfOk result (λ _. (outs : ℕ → Out) (costs : ℕ → Cost) → AreCosts (iterated_matcher self.old) (iterated_text self.old) outs costs →
            steps_remaining self.old ≤ steps_remaining self.new + find_cost (iterated_matcher self.old) (iterated_text self.old) costs (iterated_from self.old)) }
        ensures search { IsNone self.new.search }
        ensures spent { Spends self.old self.new }
        ensures searched { self.new.searched ≡ self.old.searched }
        ensures tried { IfOk result (λ outcome. IfMatched outcome (λ m.
            steps_remaining self.new ≤ steps_remaining self.old
            - (captures_cost (iterated_matcher self.old).code + positions_tried (iterated_text self.old) (iterated_from self.old) (Some m)))) }
        ensures unspent { OnErr result (steps_remaining self.new ≡ steps_remaining self.old) }
        ensures too_much { IfErr result (λ fault. fault ≡ TooMuchMemory → MayFillStack (iterated_matcher self.old) (iterated_text self.old) (iterated_from self.old)) }
    {
        let text = self.text();
        let mut remaining = self.remaining;
        let outcome = find_by_kept(
            alloc,
            &self.backtracker,
            &mut self.cache,
            self.from,
            &mut remaining,
        )?;
        let from = offset_after(text, self.from, &outcome);
        self.remaining = remaining;
        self.from = from;
        Ok(outcome)
    }

    /// Makes the tables of the text, if searches for all matches take linear time.
    fn make_tables(&mut self, alloc: Global) -> Result<(), MemoryFault>
        requires { IsNone self.old.search }
        ensures from { iterated_from self.new ≡ iterated_from self.old }
        ensures same { IsSameIteration self.old self.new }
        ensures remaining { steps_remaining self.new ≡ steps_remaining self.old }
        ensures made { IfOk result (λ _. IfSome (factor_in (iterated_matcher self.old) (iterated_text self.old)) (λ _. IsSome self.new.search)) }
        ensures spent { Spends self.old self.new }
        ensures too_much { IfErr result (λ fault. fault ≡ TooMuchMemory → TablesNeedMore (iterated_matcher self.old) (iterated_text self.old)) }
    {
        let matcher = self.matcher;
        if matcher.is_linear_in(self.text) {
            if let Some(linear) = Linear::new(&matcher.code, matcher.known()) {
                let search = linear.search(alloc, self.text, matcher.memory)?;
                self.searched = search.steps();
                self.search = Some(search);
            }
        }
        Ok(())
    }

    /// Returns the next match by the tables, or [`Outcome::OutOfSteps`] if there are none.
    fn find_in_tables(&mut self, alloc: Global) -> Result<Outcome, MemoryFault>
        ensures finds { IfOk result (IsSearchResult (iterated_text self.old) (matcher_outcomes (iterated_matcher self.old) (iterated_text self.old)) (iterated_from self.old)) }
        ensures inside { IfOk result (λ outcome. IsWellFormed (matcher_tree (iterated_matcher self.old)) → IfMatched outcome (IsInside (iterated_text self.old))) }
        ensures goes_on { IfOk result (λ outcome. iterated_from self.new ≡ offset_after (iterated_text self.old) (iterated_from self.old) outcome) }
        ensures stays { OnErr result (iterated_from self.new ≡ iterated_from self.old) }
        ensures same { IsSameIteration self.old self.new }
        ensures remaining { steps_remaining self.new ≡ steps_remaining self.old }
        ensures made { IfOk result (λ outcome. IsSome self.old.search → IfOutOfSteps outcome ⊥) }
        ensures spent { Spends self.old self.new }
        ensures tried { IfOk result (λ outcome. IfMatched outcome (λ m.
            min (self.old.searched
            + (captures_cost (iterated_matcher self.old).code + positions_tried (iterated_text self.old) (iterated_from self.old) (Some m))) u64.MAX ≤ self.new.searched)) }
        ensures made_before { IfErr result (λ fault. fault ≡ TooMuchMemory → ⊥) }
    {
        let text = self.text();
        let Some(search) = &self.search else {
            return Ok(Outcome::OutOfSteps);
        };
        let found = search.find(alloc, self.from)?;
        let searched = self.searched.saturating_add(found.steps);
        let outcome = outcome_of(found.found);
        let from = offset_after(text, self.from, &outcome);
        self.searched = searched;
        self.from = from;
        Ok(outcome)
    }
}

/// Returns the result of a search by tables.
pub(crate) fn outcome_of(found: Option<Match>) -> Outcome
    ensures { result ≡ outcome_if found }
{
    match found {
        Some(found) => Outcome::Matched(found),
        None => Outcome::NoMatch,
    }
}

/// Returns the byte offset from which the next match is searched, after a search from the byte offset `from`.
fn offset_after(text: &str, from: usize, outcome: &Outcome) -> usize
    requires { IfMatched outcome.now (λ m. start_of m ≤ length text.now) }
    ensures { result ≡ offset_after text.now from outcome.now }
{
    match outcome {
        Outcome::Matched(found) => found.end().max(found.start() + 1),
        Outcome::NoMatch => text.len() + 1,
        Outcome::OutOfSteps => from,
    }
}
