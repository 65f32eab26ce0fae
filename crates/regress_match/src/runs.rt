//! Backtracking with the program of a matcher.
ghost use Rattle.std.specs.Prelude.{◌≡◌, ◌≤◌, ◌+◌, ◌-◌, ◌*◌, ℕ, IfErr, IfOk, IfSome, Some};
ghost use Rattle.regress_program.specs.Cost.{Cost};
ghost use Rattle.regress_program.specs.Program.{Out};
ghost use Rattle.regress_code.specs.Code.{captures_cost};
ghost use Rattle.regress_found.specs.Results.{IsSearchResult, IfMatched, IfOutOfSteps};
ghost use Rattle.regress_found.specs.Tried.{positions_tried};
ghost use Rattle.regress_found.specs.declared.fault.MemoryFault.TheVariants.{TooMuchMemory};
ghost use Rattle.regress_backtrack.specs.Backtracker as runs;
ghost use Rattle.regress_backtrack.specs.Backtracker.{AreOutcomes, outcomes_at, run_code, run_room, run_text, search_cost_at};
ghost use Rattle.regress_backtrack.specs.Memory.{IsWithin};
ghost use Rattle.regress_match.specs.Costs.{AreCosts, find_cost};
ghost use Rattle.regress_match.specs.Kept.{IsBacktrackerOf};
ghost use Rattle.regress_match.specs.Memory.{AreStacksWithin, MayFillStack};
ghost use Rattle.regress_match.specs.Pattern.{matcher_outcomes};

use crate::matcher::Matcher;
use regress_backtrack::{Backtracker, Cache};
use regress_found::{MemoryFault, Outcome};
use std::alloc::Global;

impl Matcher {
    /// Returns what backtracks in a text with the program of the matcher.
    pub(crate) fn backtracker<'m>(&'m self, text: &'m str) -> Backtracker<'m, 'm>
        ensures { IsBacktrackerOf self.now text.now result }
    {
        Backtracker::new(&self.code, self.known(), text, self.memory)
    }

    /// Returns the leftmost match that starts at the byte offset `from` or later, by backtracking in the memory of a cache.
    /// It subtracts the steps from `remaining`.
    ///
    /// # Errors
    /// - [`MemoryFault::TooMuchMemory`] if a backtrack stack needs more memory than [`Limits`](crate::Limits) allow.
    /// - [`MemoryFault::Memory`] if an allocation fails.
    pub(crate) fn find_by_backtracking(
        &self,
        alloc: Global,
        cache: &mut Cache,
        text: &str,
        from: usize,
        remaining: &mut u64,
    ) -> Result<Outcome, MemoryFault>
        ensures finds { IfOk result (IsSearchResult text.now (matcher_outcomes self.now text.now) from) }
        ensures remaining { IfOk result (λ _. remaining.new ≤ remaining.old) }
        ensures used_up { IfOk result (λ outcome. IfOutOfSteps outcome (remaining.new ≡ 0)) }
        ensures costs { IfOk result (λ _. (outs : ℕ → Out) (costs : ℕ → Cost) → AreCosts self.now text.now outs costs →
            remaining.old ≤ remaining.new + find_cost self.now text.now costs from) }
        ensures tried { IfOk result (λ outcome. IfMatched outcome (λ m.
            remaining.new ≤ remaining.old - (captures_cost self.now.code + positions_tried text.now from (Some m)))) }
        ensures within { AreStacksWithin self.now cache.old → AreStacksWithin self.now cache.new }
        ensures too_much { IfErr result (λ fault. fault ≡ TooMuchMemory → MayFillStack self.now text.now from) }
    {
        let backtracker = self.backtracker(text);
        backtracker.find(alloc, cache, from, remaining)
    }
}

/// Returns the same as [`Backtracker::find`], in the memory of the cache that is kept, or of a new one, which is kept then.
///
/// # Errors
/// - [`MemoryFault::TooMuchMemory`] if a backtrack stack needs more bytes than the backtracker allows.
/// - [`MemoryFault::Memory`] if an allocation fails.
pub(crate) fn find_by_kept(
    alloc: Global,
    backtracker: &Backtracker<'_, '_>,
    kept: &mut Option<Cache>,
    from: usize,
    remaining: &mut u64,
) -> Result<Outcome, MemoryFault>
    ensures solved { IfOk result (λ outcome. (outs : ℕ → Out) → AreOutcomes backtracker.now outs →
        IsSearchResult (run_text backtracker.now) (outcomes_at backtracker.now outs) from outcome) }
    ensures remaining { IfOk result (λ _. remaining.new ≤ remaining.old) }
    ensures used_up { IfOk result (λ outcome. IfOutOfSteps outcome (remaining.new ≡ 0)) }
    ensures costs { IfOk result (λ _. (outs : ℕ → Out) (costs : ℕ → Cost) → runs.AreCosts backtracker.now outs costs →
        remaining.old ≤ remaining.new + search_cost_at backtracker.now costs from) }
    ensures tried { IfOk result (λ outcome. IfMatched outcome (λ m.
        remaining.new ≤ remaining.old - (captures_cost (run_code backtracker.now) + positions_tried (run_text backtracker.now) from (Some m)))) }
    ensures within { IfSome kept.old (IsWithin (run_room backtracker.now)) → IfSome kept.new (IsWithin (run_room backtracker.now)) }
    ensures too_much { IfErr result (λ fault. fault ≡ TooMuchMemory → (outs : ℕ → Out) (costs : ℕ → Cost) → runs.AreCosts backtracker.now outs costs →
        run_room backtracker.now ≤ 64 * search_cost_at backtracker.now costs from) }
{
    match kept {
        Some(cache) => backtracker.find(alloc, cache, from, remaining),
        None => {
            let mut cache = Cache::new(alloc);
            let outcome = backtracker.find(alloc, &mut cache, from, remaining)?;
            *kept = Some(cache);
            Ok(outcome)
        }
    }
}
