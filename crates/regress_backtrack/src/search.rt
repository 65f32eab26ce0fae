//! Searching a text from left to right.
ghost use Rattle.std.specs.Prelude.{◌≡◌, ◌≤◌, ◌+◌, ◌-◌, ◌*◌, ℕ, IfErr, IfOk, IfSome, None, Some, length, min, replicate};
ghost use Rattle.regress_tree.specs.Tree.{Tree};
ghost use Rattle.regress_program.specs.Compiled.{IsPattern};
ghost use Rattle.regress_program.specs.Cost.{Cost, IsCost};
ghost use Rattle.regress_program.specs.Program.{IsSolution, Out};
ghost use Rattle.regress_backtrack.specs.Backtracker.{AreCosts, AreOutcomes, IfGoesOn, IsAttempt, Skipped, captures_cost_of, cost_at, outcomes_at, run_code, run_room, run_text, runs_cost_at, search_cost_at, tree_outcomes_at};
ghost use Rattle.regress_backtrack.specs.declared.search.Attempt.TheVariants as attempts;
ghost use Rattle.regress_code.specs.Code.{captures_cost, code_groups, code_routines, match_cost, outcomes_from, setting_with, tree_outcomes_from};
ghost use Rattle.regress_found.specs.Results.{IfMatched, IsSearchResult, IsMatchResult};
ghost use Rattle.regress_found.specs.Tried.{positions_tried};
ghost use Rattle.regress_found.specs.declared.fault.MemoryFault.TheVariants.{TooMuchMemory};
ghost use Rattle.regress_backtrack.specs.Memory.{AreWithin, IsWithin, entries_in};
ghost use Rattle.regress_backtrack.specs.Beginning.{BeginsWithAssertion};
ghost use Rattle.regress_backtrack.specs.Lead.{IsLead};
ghost use Rattle.regress_found.specs.declared.outcome.Outcome.TheVariants.{OutOfSteps};

use crate::backtracker::Backtracker;
use crate::beginning::{Beginning, next_possible};
use crate::cache::Cache;
use crate::input::next_bytes_at;
use crate::lead::{Lead, lead_of, next_after, passed};
use crate::machine::Machine;
use regress_code::Code;
use regress_found::{Found, Match, MemoryFault, Outcome};
use regress_leaves::known::Known;
use regress_prefilter::candidates::next_candidate_from;
use std::alloc::Global;

/// What an attempt to match at a position says.
#[derive(Drop)]
pub(crate) enum Attempt {
    /// This match starts there.
    Matched(Match),
    /// No match starts there, as a run has shown.
    Failed,
    /// No match starts from there on and before this byte offset, as is known without a run.
    Passed(usize),
    /// The step limit was reached.
    OutOfSteps,
}

/// Matches at exactly the byte offset `position`, with every group unset at first.
///
/// # Complexity
/// The steps are counted as in [`Backtracker::find`].
///
/// # Preconditions
/// The position is inside the text.
///
/// # Errors
/// - [`MemoryFault::TooMuchMemory`] if a backtrack stack needs more bytes than `memory`.
/// - [`MemoryFault::Memory`] if an allocation fails.
pub fn match_at(
    alloc: Global,
    code: &Code,
    known: Known<'_>,
    text: &str,
    position: usize,
    steps: u64,
    memory: usize,
) -> Result<Found, MemoryFault>
    requires { position ≤ length text.now }
    ensures solved { IfOk result (λ found. (outs : ℕ → Out) →
        IsSolution (setting_with code.now known.entry.tables.now) text.now (code_routines code.now) outs →
        IsMatchResult position (outcomes_from code.now known.entry.tables.now text.now outs position) found.outcome) }
    ensures first { IfOk result (λ found. (t : Tree) → IsPattern (code_routines code.now) t →
        IsMatchResult position (tree_outcomes_from code.now known.entry.tables.now text.now t position) found.outcome) }
    ensures steps { IfOk result (λ found. found.steps ≤ steps) }
    ensures costs { IfOk result (λ found. (outs : ℕ → Out) (costs : ℕ → Cost) →
        IsCost (setting_with code.now known.entry.tables.now) text.now (code_routines code.now) outs costs →
        found.steps ≤ match_cost code.now known.entry.tables.now text.now costs position) }
    ensures charged { IfOk result (λ found. min (captures_cost code.now) steps ≤ found.steps) }
    ensures out_of_steps { IfOk result (λ found. found.outcome ≡ OutOfSteps → found.steps ≡ steps) }
    ensures too_much { IfErr result (λ fault. fault ≡ TooMuchMemory → (outs : ℕ → Out) (costs : ℕ → Cost) →
        IsCost (setting_with code.now known.entry.tables.now) text.now (code_routines code.now) outs costs →
        entries_in memory ≤ 64 * match_cost code.now known.entry.tables.now text.now costs position) }
{
    let mut remaining = steps;
    let mut cache = Cache::new(alloc);
    let backtracker = Backtracker::new(code, known, text, memory);
    let outcome = backtracker.match_at(alloc, &mut cache, position, &mut remaining)?;
    Ok(Found {
        outcome,
        steps: steps - remaining,
    })
}

impl Backtracker<'_, '_> {
    /// Returns the leftmost match that starts at the byte offset `from` or later, on a character boundary, and subtracts
    /// the steps from `remaining`.
    ///
    /// # Complexity
    /// A step is an instruction. It counts 1, and 1 more for each 64 bytes by which it moves the position, for each 64
    /// bytes of the capture that a back reference is compared with (with `icase` for each byte), but no more of them
    /// than the text has from there on, for each 64 characters before one that fails in a loop that is one instruction,
    /// and for each 64 groups that it unsets. A loop over ASCII characters whose iterations are run at once counts 1
    /// for each of them. A search counts 1 for each 64 groups of the pattern, and 1 for each byte offset up to the
    /// match, also where no match is known to begin: by the first byte, since an attempt that failed has passed there
    /// in the loop at the start of the pattern, or since what follows this loop cannot begin where its characters end.
    /// The result is [`Outcome::OutOfSteps`] as soon as `remaining` is used up, and with 0 for each `from` in the text.
    /// A step that is begun is completed, even if it counts more than remains. If the first bytes show that no match
    /// begins in the rest of the text, that rest counts nothing.
    ///
    /// A search that finds a match takes at least a step for each byte offset up to its start and one for each 64 groups,
    /// or all steps that remain. It takes at most its cost: the steps that following every outcome from every byte offset
    /// takes. Every program has a cost in every text, and with more steps than that the result is not
    /// [`Outcome::OutOfSteps`].
    ///
    /// So the limit bounds the time: it is at most `remaining` and the length of the text together, times a factor that depends
    /// only on the program. Recursion is as deep as lookarounds are nested.
    ///
    /// The memory is bounded too. No backtrack stack of the cache grows beyond the bytes that the backtracker was given, and
    /// the cache keeps what they have: there is one for the pattern, and one for each level of nested lookarounds. A search
    /// that needs a larger one is refused. Its cost is then at least 1 for each 64 entries for which there is room in those
    /// bytes.
    ///
    /// # Errors
    /// - [`MemoryFault::TooMuchMemory`] if a backtrack stack needs more bytes than the backtracker allows.
    /// - [`MemoryFault::Memory`] if an allocation fails.
    pub fn find(
        &self,
        alloc: Global,
        cache: &mut Cache,
        from: usize,
        remaining: &mut u64,
    ) -> Result<Outcome, MemoryFault>
        ensures solved { IfOk result (λ outcome. (outs : ℕ → Out) → AreOutcomes self.now outs →
            IsSearchResult (run_text self.now) (outcomes_at self.now outs) from outcome) }
        ensures finds { IfOk result (λ outcome. (t : Tree) → IsPattern (code_routines (run_code self.now)) t →
            IsSearchResult (run_text self.now) (tree_outcomes_at self.now t) from outcome) }
        ensures remaining { IfOk result (λ _. remaining.new ≤ remaining.old) }
        ensures costs { IfOk result (λ _. (outs : ℕ → Out) (costs : ℕ → Cost) → AreCosts self.now outs costs →
            remaining.old ≤ remaining.new + search_cost_at self.now costs from) }
        ensures spent { IfOk result (λ outcome. outcome ≡ OutOfSteps → remaining.new ≡ 0) }
        ensures counted { IfOk result (λ outcome. IfMatched outcome (λ m.
            remaining.new ≤ remaining.old - (captures_cost_of self.now + positions_tried (run_text self.now) from (Some m)))) }
        ensures within { IsWithin (run_room self.now) cache.old → IsWithin (run_room self.now) cache.new }
        ensures too_much { IfErr result (λ fault. fault ≡ TooMuchMemory → (outs : ℕ → Out) (costs : ℕ → Cost) → AreCosts self.now outs costs →
            run_room self.now ≤ 64 * search_cost_at self.now costs from) }
    {
        *remaining = remaining.saturating_sub(self.captures_cost());
        self.run_from(alloc, cache, from, remaining)
    }

    /// Returns the leftmost match as [`Backtracker::find`]. The captures of the match are counted before.
    ///
    /// # Errors
    /// - [`MemoryFault::TooMuchMemory`] if a backtrack stack needs more bytes than the backtracker allows.
    /// - [`MemoryFault::Memory`] if an allocation fails.
    fn run_from(
        &self,
        alloc: Global,
        cache: &mut Cache,
        from: usize,
        remaining: &mut u64,
    ) -> Result<Outcome, MemoryFault>
        ensures solved { IfOk result (λ outcome. (outs : ℕ → Out) → AreOutcomes self.now outs →
            IsSearchResult (run_text self.now) (outcomes_at self.now outs) from outcome) }
        ensures finds { IfOk result (λ outcome. (t : Tree) → IsPattern (code_routines (run_code self.now)) t →
            IsSearchResult (run_text self.now) (tree_outcomes_at self.now t) from outcome) }
        ensures remaining { IfOk result (λ _. remaining.new ≤ remaining.old) }
        ensures costs { IfOk result (λ _. (outs : ℕ → Out) (costs : ℕ → Cost) → AreCosts self.now outs costs →
            remaining.old ≤ remaining.new + runs_cost_at self.now costs from) }
        ensures spent { IfOk result (λ outcome. outcome ≡ OutOfSteps → remaining.new ≡ 0) }
        ensures tried { IfOk result (λ outcome. IfMatched outcome (λ m. remaining.new ≤ remaining.old - positions_tried (run_text self.now) from (Some m))) }
        ensures within { IsWithin (run_room self.now) cache.old → IsWithin (run_room self.now) cache.new }
        ensures too_much { IfErr result (λ fault. fault ≡ TooMuchMemory → (outs : ℕ → Out) (costs : ℕ → Cost) → AreCosts self.now outs costs →
            run_room self.now ≤ 64 * runs_cost_at self.now costs from) }
    {
        let input = &self.input;
        let text = input.text;
        cache.machine.unset_all(input.code.program.groups)?;
        // many searches match at the first attempt, and need no lead
        let mut lead = None;
        let mut has_failed = false;
        let mut counted = from;
        let mut start = from;
        while start <= text.len() {
            if *remaining == 0 {
                return Ok(Outcome::OutOfSteps);
            }
            let Some(position) = self.next_start(start) else {
                return Ok(Outcome::NoMatch);
            };
            // the bytes that are skipped, and the position that is tried
            *remaining = remaining.saturating_sub((position - counted) as u64 + 1);
            counted = position + 1;
            match self.attempt(alloc, &mut cache.machine, &lead, position, remaining)? {
                Attempt::Matched(found) => return Ok(Outcome::Matched(found)),
                Attempt::Failed => {
                    if !has_failed {
                        lead = lead_of(input);
                        has_failed = true;
                    }
                    start = next_after(input, &lead, text, position);
                }
                Attempt::Passed(to) => start = to,
                Attempt::OutOfSteps => return Ok(Outcome::OutOfSteps),
            }
        }
        Ok(Outcome::NoMatch)
    }

    /// Matches at a position, unless no match is known to start there.
    ///
    /// # Preconditions
    /// The lead is one of the input, every group is unset, and the position is inside the text.
    ///
    /// # Errors
    /// - [`MemoryFault::TooMuchMemory`] if a backtrack stack needs more bytes than the backtracker allows.
    /// - [`MemoryFault::Memory`] if an allocation fails.
    #[inline(always)]
    fn attempt(
        &self,
        alloc: Global,
        machine: &mut Machine,
        lead: &Option<Lead<'_>>,
        position: usize,
        remaining: &mut u64,
    ) -> Result<Attempt, MemoryFault>
        requires lead { IfSome lead.now (IsLead self.now.input) }
        requires unset { machine.old.captures.items ≡ replicate (code_groups (run_code self.now)) None }
        requires position { position ≤ length (run_text self.now) }
        ensures attempt { IfOk result (IsAttempt self.now position) }
        ensures unset { IfOk result (λ attempt. IfGoesOn attempt (machine.new.captures.items ≡ machine.old.captures.items)) }
        ensures remaining { IfOk result (λ _. remaining.new ≤ remaining.old) }
        ensures costs { IfOk result (λ _. (outs : ℕ → Out) (costs : ℕ → Cost) → AreCosts self.now outs costs →
            remaining.old ≤ remaining.new + cost_at self.now costs position) }
        ensures spent { IfOk result (λ attempt. attempt ≡ attempts.OutOfSteps → remaining.new ≡ 0) }
        ensures within { AreWithin (run_room self.now) machine.old → AreWithin (run_room self.now) machine.new }
        ensures too_much { IfErr result (λ fault. fault ≡ TooMuchMemory → (outs : ℕ → Out) (costs : ℕ → Cost) → AreCosts self.now outs costs →
            run_room self.now ≤ 64 * cost_at self.now costs position) }
    {
        let text = self.input.text;
        if !text.is_char_boundary(position) {
            return Ok(Attempt::Passed(position + 1));
        }
        if let Some(to) = passed(&self.input, lead, text, position) {
            return Ok(Attempt::Passed(to));
        }
        match self.match_in(alloc, machine, position, remaining)? {
            Outcome::Matched(found) => Ok(Attempt::Matched(found)),
            Outcome::NoMatch => Ok(Attempt::Failed),
            Outcome::OutOfSteps => Ok(Attempt::OutOfSteps),
        }
    }

    /// Returns the least byte offset, `from` or later, at which a match is not known to fail, or `None`.
    ///
    /// # Preconditions
    /// `from` is inside the text.
    #[inline(always)]
    fn next_start(&self, from: usize) -> Option<usize>
        requires { from ≤ length (run_text self.now) }
        ensures within { IfSome result (λ position. (from ≤ position) × (position ≤ length (run_text self.now))) }
        ensures skipped { Skipped self.now from result }
    {
        match self.beginning {
            Some(beginning) => self.next_start_with(beginning, from),
            None => self.next_by_bytes(from),
        }
    }

    /// Returns the same for a pattern that begins with an assertion.
    ///
    /// # Preconditions
    /// The pattern begins with `beginning`, and `from` is inside the text.
    fn next_start_with(&self, beginning: Beginning, from: usize) -> Option<usize>
        requires beginning { BeginsWithAssertion self.now.input beginning }
        requires from { from ≤ length (run_text self.now) }
        ensures within { IfSome result (λ position. (from ≤ position) × (position ≤ length (run_text self.now))) }
        ensures skipped { Skipped self.now from result }
    {
        let text = self.input.text;
        let mut position = self.next_by_bytes(from)?;
        let mut possible = next_possible(beginning, text, position);
        while position < possible {
            position = self.next_by_bytes(possible)?;
            possible = next_possible(beginning, text, position);
        }
        Some(position)
    }

    /// Returns the same by the first bytes alone.
    ///
    /// # Preconditions
    /// `from` is inside the text.
    #[inline(always)]
    fn next_by_bytes(&self, from: usize) -> Option<usize>
        requires { from ≤ length (run_text self.now) }
        ensures within { IfSome result (λ position. (from ≤ position) × (position ≤ length (run_text self.now))) }
        ensures skipped { Skipped self.now from result }
    {
        match next_candidate_from(&self.input.code.candidates, self.input.text, from) {
            Some(position) => Some(self.next_by_first_bytes(position)),
            None => None,
        }
    }

    /// Returns the same by the next bytes of the first instruction alone.
    ///
    /// # Preconditions
    /// `from` is inside the text.
    #[inline(always)]
    fn next_by_first_bytes(&self, from: usize) -> usize
        requires { from ≤ length (run_text self.now) }
        ensures low { from ≤ result }
        ensures high { result ≤ length (run_text self.now) }
        ensures skipped { Skipped self.now from (Some result) }
    {
        match next_bytes_at(&self.input, self.input.first) {
            Some(next_byte) => next_byte.next_from(self.input.text, from),
            None => from,
        }
    }
}
