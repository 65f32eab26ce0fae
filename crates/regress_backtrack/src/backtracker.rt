//! Runs from many positions of a text.
ghost use Rattle.std.specs.Prelude.{◌≡◌, ◌≤◌, ◌+◌, ◌-◌, ◌*◌, ℕ, IfErr, IfOk, IfSome, List, None, length, replicate};
ghost use Rattle.std.proofs.Props.{props};
ghost use Rattle.regress_tree.specs.Steps.{MatchState};
ghost use Rattle.regress_tree.specs.Tree.{Tree};
ghost use Rattle.regress_program.specs.Compiled.{IsPattern};
ghost use Rattle.regress_program.specs.Cost.{Cost};
ghost use Rattle.regress_program.specs.Program.{Out};
ghost use Rattle.regress_code.specs.Code.{code_groups, code_routines};
ghost use Rattle.regress_backtrack.specs.Run.{IsResponseOf};
ghost use Rattle.regress_backtrack.specs.declared.run.Response.TheVariants as responses;
ghost use Rattle.regress_found.specs.Results.{IsMatchResult};
ghost use Rattle.regress_found.specs.declared.outcome.Outcome.TheVariants.{NoMatch, OutOfSteps};
ghost use Rattle.regress_found.specs.declared.fault.MemoryFault.TheVariants.{TooMuchMemory};
ghost use Rattle.regress_backtrack.specs.Memory.{AreWithin, IsWithin, entries_in};
ghost use Rattle.regress_backtrack.specs.Beginning.{BeginsWithAssertion};
ghost use Rattle.regress_backtrack.specs.Searched.{IsFor, IsFor-prop};

use crate::beginning::{Beginning, beginning_of};
use crate::cache::Cache;
use crate::input::{Input, input_for};
use crate::machine::{ENTRY_BYTES, Machine};
use crate::run::{Response, run};
use regress_code::Code;
use regress_found::{Match, MemoryFault, Outcome};
use regress_leaves::known::Known;
use regress_leaves::rules::MatchContext;
use regress_program::blocks::blocks;
use std::alloc::Global;
use std::mem;

/// A program and a text, for runs from many positions. The memory of a run is that of a [`Cache`].
#[derive(Drop)]
pub struct Backtracker<'c, 'x> {
    /// What a run of the pattern reads.
    pub(crate) input: Input<'c, 'x>,
    /// The assertion with which the pattern begins, if there is one.
    pub(crate) beginning: Option<Beginning>,
    ghost for_pattern: { IsFor input.code.now input.rules.known.tables.now input.text.now input } by { IsFor-prop input.code.now input.rules.known.tables.now input.text.now input },
    ghost begins: { IfSome beginning (BeginsWithAssertion input) } by { Prim.hlevel props },
}

impl<'c, 'x> Backtracker<'c, 'x> {
    ghost use Rattle.regress_backtrack.specs.Backtracker.{AreCosts, AreOutcomes, captures_cost_of, cost_at, match_cost_at, outcomes_at, run_code, run_room, run_tables, run_text, tree_outcomes_at};

    /// Returns a backtracker for a program and a text, under case mappings. The program has a cost in the text. Each
    /// backtrack stack may take at most `memory` bytes: there is one for the pattern, and one for each level of nested
    /// lookarounds.
    pub fn new(
        code: &'c Code,
        known: Known<'x>,
        text: &'x str,
        memory: usize,
    ) -> Backtracker<'c, 'x>
        ensures code { run_code result ≡ code.now }
        ensures tables { run_tables result ≡ known.entry.tables.now }
        ensures text { run_text result ≡ text.now }
        ensures room { run_room result ≡ entries_in memory }
        ensures has_cost { (outs : ℕ → Out) → AreOutcomes result outs → (costs : ℕ → Cost) × AreCosts result outs costs }
    {
        let rules = MatchContext {
            flags: code.program.flags,
            known,
            backwards: false,
        };
        let pattern = code.program.routines.len() - 1;
        let input = input_for(text, rules, code, pattern, memory / ENTRY_BYTES);
        let beginning = beginning_of(&input);
        Backtracker { input, beginning }
    }

    /// Matches at exactly the byte offset `position`, with every group unset at first, and subtracts the steps from
    /// `remaining`.
    ///
    /// # Complexity
    /// The steps are counted as in [`Backtracker::find`]. It allocates only where it needs more memory than the cache has.
    ///
    /// # Preconditions
    /// The position is inside the text.
    ///
    /// # Errors
    /// - [`MemoryFault::TooMuchMemory`] if a backtrack stack needs more bytes than the backtracker allows.
    /// - [`MemoryFault::Memory`] if an allocation fails.
    pub fn match_at(
        &self,
        alloc: Global,
        cache: &mut Cache,
        position: usize,
        remaining: &mut u64,
    ) -> Result<Outcome, MemoryFault>
        requires { position ≤ length (run_text self.now) }
        ensures solved { IfOk result (λ outcome. (outs : ℕ → Out) → AreOutcomes self.now outs →
            IsMatchResult position (outcomes_at self.now outs position) outcome) }
        ensures first { IfOk result (λ outcome. (t : Tree) → IsPattern (code_routines (run_code self.now)) t →
            IsMatchResult position (tree_outcomes_at self.now t position) outcome) }
        ensures remaining { IfOk result (λ _. remaining.new ≤ remaining.old) }
        ensures costs { IfOk result (λ _. (outs : ℕ → Out) (costs : ℕ → Cost) → AreCosts self.now outs costs →
            remaining.old ≤ remaining.new + match_cost_at self.now costs position) }
        ensures spent { IfOk result (λ outcome. outcome ≡ OutOfSteps → remaining.new ≡ 0) }
        ensures charged { IfOk result (λ _. remaining.new ≤ remaining.old - captures_cost_of self.now) }
        ensures within { IsWithin (run_room self.now) cache.old → IsWithin (run_room self.now) cache.new }
        ensures too_much { IfErr result (λ fault. fault ≡ TooMuchMemory → (outs : ℕ → Out) (costs : ℕ → Cost) → AreCosts self.now outs costs →
            run_room self.now ≤ 64 * match_cost_at self.now costs position) }
    {
        *remaining = remaining.saturating_sub(self.captures_cost());
        cache.machine.unset_all(self.input.code.program.groups)?;
        self.match_in(alloc, &mut cache.machine, position, remaining)
    }

    /// Returns the number of steps for the captures of a match.
    pub(crate) fn captures_cost(&self) -> u64
        ensures { result ≡ captures_cost_of self.now }
    {
        blocks(self.input.code.program.groups)
    }

    /// Matches at exactly the byte offset `position`, as [`Backtracker::match_at`]. If there is no match, every group is
    /// unset after it too.
    ///
    /// # Preconditions
    /// The position is inside the text, and every group is unset.
    ///
    /// # Errors
    /// - [`MemoryFault::TooMuchMemory`] if a backtrack stack needs more bytes than the backtracker allows.
    /// - [`MemoryFault::Memory`] if an allocation fails.
    #[inline(always)]
    pub(crate) fn match_in(
        &self,
        alloc: Global,
        machine: &mut Machine,
        position: usize,
        remaining: &mut u64,
    ) -> Result<Outcome, MemoryFault>
        requires unset { machine.old.captures.items ≡ replicate (code_groups (run_code self.now)) None }
        requires position { position ≤ length (run_text self.now) }
        ensures solved { IfOk result (λ outcome. (outs : ℕ → Out) → AreOutcomes self.now outs →
            IsMatchResult position (outcomes_at self.now outs position) outcome) }
        ensures first { IfOk result (λ outcome. (t : Tree) → IsPattern (code_routines (run_code self.now)) t →
            IsMatchResult position (tree_outcomes_at self.now t position) outcome) }
        ensures unset { IfOk result (λ outcome. outcome ≡ NoMatch → machine.new.captures.items ≡ machine.old.captures.items) }
        ensures remaining { IfOk result (λ _. remaining.new ≤ remaining.old) }
        ensures costs { IfOk result (λ _. (outs : ℕ → Out) (costs : ℕ → Cost) → AreCosts self.now outs costs →
            remaining.old ≤ remaining.new + cost_at self.now costs position) }
        ensures spent { IfOk result (λ outcome. outcome ≡ OutOfSteps → remaining.new ≡ 0) }
        ensures within { AreWithin (run_room self.now) machine.old → AreWithin (run_room self.now) machine.new }
        ensures too_much { IfErr result (λ fault. fault ≡ TooMuchMemory → (outs : ℕ → Out) (costs : ℕ → Cost) → AreCosts self.now outs costs →
            run_room self.now ≤ 64 * cost_at self.now costs position) }
    {
        let response = self.run_at(alloc, machine, position, remaining)?;
        Ok(outcome_of(alloc, machine, response, position))
    }

    /// Runs the pattern from a position.
    ///
    /// # Preconditions
    /// As for [`Backtracker::match_in`].
    ///
    /// # Errors
    /// - [`MemoryFault::TooMuchMemory`] if a backtrack stack needs more bytes than the backtracker allows.
    /// - [`MemoryFault::Memory`] if an allocation fails.
    #[inline(always)]
    fn run_at(
        &self,
        alloc: Global,
        machine: &mut Machine,
        position: usize,
        remaining: &mut u64,
    ) -> Result<Response, MemoryFault>
        requires unset { machine.old.captures.items ≡ replicate (code_groups (run_code self.now)) None }
        requires position { position ≤ length (run_text self.now) }
        ensures solved { IfOk result (λ response. (outs : ℕ → Out) → AreOutcomes self.now outs →
            IsResponseOf (outcomes_at self.now outs position) machine.new response) }
        ensures first { IfOk result (λ response. (t : Tree) → IsPattern (code_routines (run_code self.now)) t →
            IsResponseOf (tree_outcomes_at self.now t position) machine.new response) }
        ensures unset { IfOk result (λ response. response ≡ responses.NoMatch → machine.new.captures.items ≡ machine.old.captures.items) }
        ensures remaining { IfOk result (λ _. remaining.new ≤ remaining.old) }
        ensures costs { IfOk result (λ _. (outs : ℕ → Out) (costs : ℕ → Cost) → AreCosts self.now outs costs →
            remaining.old ≤ remaining.new + cost_at self.now costs position) }
        ensures spent { IfOk result (λ response. response ≡ responses.OutOfSteps → remaining.new ≡ 0) }
        ensures within { AreWithin (run_room self.now) machine.old → AreWithin (run_room self.now) machine.new }
        ensures too_much { IfErr result (λ fault. fault ≡ TooMuchMemory → (outs : ℕ → Out) (costs : ℕ → Cost) → AreCosts self.now outs costs →
            run_room self.now ≤ 64 * cost_at self.now costs position) }
    {
        run(alloc, &self.input, position, machine, remaining)
    }
}

/// Returns the result of a run from a position, by its response and the captures after it, whose memory goes to the match.
fn outcome_of(alloc: Global, machine: &mut Machine, response: Response, position: usize) -> Outcome
    ensures first { (states : List MatchState) → IsResponseOf states machine.old response → IsMatchResult position states result }
    ensures none { result ≡ NoMatch → response ≡ responses.NoMatch }
    ensures kept { result ≡ NoMatch → machine.new ≡ machine.old }
    ensures within { (room : ℕ) → AreWithin room machine.old → AreWithin room machine.new }
    ensures spent { result ≡ OutOfSteps → response ≡ responses.OutOfSteps }
{
    match response {
        Response::Matched(end) => {
            let captures = mem::replace(&mut machine.captures, Vec::new(alloc));
            let found = Match::new(position, end, captures);
            Outcome::Matched(found)
        }
        Response::NoMatch => Outcome::NoMatch,
        Response::OutOfSteps => Outcome::OutOfSteps,
    }
}
