//! A search for one match: by backtracking, and then by tables.
ghost use Rattle.std.specs.Prelude.{◌≡◌, ◌+◌, ◌*◌, ◌≤◌, IfErr, IfOk, IfSome, length};
ghost use Rattle.regress_tree.specs.WellFormed.{IsWellFormed};
ghost use Rattle.regress_found.specs.Results.{IsSearchResult, IfMatched, IfOutOfSteps};
ghost use Rattle.regress_found.specs.Found.{IsInside};
ghost use Rattle.regress_found.specs.declared.fault.MemoryFault.TheVariants.{TooMuchMemory};
ghost use Rattle.regress_match.specs.Memory.{AreStacksWithin, MayFillStack, TablesNeedMore, instructions_of};
ghost use Rattle.regress_match.specs.Costs.{IsWithinFindCost};
ghost use Rattle.regress_match.specs.Matcher.{IsLimited, IsLinear, before_tables, find_factor_in};
ghost use Rattle.regress_match.specs.Pattern.{matcher_outcomes, matcher_tree};

use crate::iteration::outcome_of;
use crate::matcher::Matcher;
use regress_backtrack::Cache;
use regress_found::{Found, MemoryFault, Outcome};
use regress_tables::Linear;
use std::alloc::Global;

impl Matcher {
    /// Returns the leftmost match that starts at the byte offset `from` or later: by backtracking, and by tables once its
    /// steps are used up or a stack is full.
    ///
    /// # Errors
    /// As for [`Matcher::find`].
    pub(crate) fn find_in_linear_time(
        &self,
        alloc: Global,
        cache: &mut Cache,
        text: &str,
        from: usize,
    ) -> Result<Found, MemoryFault>
        ensures finds { IfOk result (λ found. IsSearchResult text.now (matcher_outcomes self.now text.now) from found.outcome) }
        ensures inside { IfOk result (λ found. IsWellFormed (matcher_tree self.now) → IfMatched found.outcome (IsInside text.now)) }
        ensures bounded { IfOk result (λ found. IfSome (find_factor_in self.now text.now) (λ n. IsLinear n text.now found.outcome found.steps)) }
        ensures within { AreStacksWithin self.now cache.old → AreStacksWithin self.now cache.new }
        ensures too_much { IfErr result (λ fault. fault ≡ TooMuchMemory → TablesNeedMore self.now text.now) }
    {
        let first = self.find_before_tables(alloc, cache, text, from)?;
        let steps = first.steps;
        match first.outcome {
            Outcome::OutOfSteps => {
                let found = self.find_by_tables(alloc, text, from)?;
                Ok(Found {
                    outcome: found.outcome,
                    steps: steps.saturating_add(found.steps),
                })
            }
            outcome => Ok(Found { outcome, steps }),
        }
    }

    /// Returns the same by backtracking, within some steps for each byte. Where a backtrack stack is full, all of them count
    /// as taken, and the memory of the cache is given back, for tables.
    ///
    /// # Errors
    /// Returns [`MemoryFault::Memory`] if an allocation fails.
    fn find_before_tables(
        &self,
        alloc: Global,
        cache: &mut Cache,
        text: &str,
        from: usize,
    ) -> Result<Found, MemoryFault>
        ensures finds { IfOk result (λ found. IsSearchResult text.now (matcher_outcomes self.now text.now) from found.outcome) }
        ensures inside { IfOk result (λ found. IsWellFormed (matcher_tree self.now) → IfMatched found.outcome (IsInside text.now)) }
        ensures few { IfOk result (λ found. found.steps ≤ before_tables (instructions_of self.now) * (length text.now + 1)) }
        ensures within { AreStacksWithin self.now cache.old → AreStacksWithin self.now cache.new }
        ensures not_full { IfErr result (λ fault. fault ≡ TooMuchMemory → ⊥) }
    {
        let limit = self.steps_before_tables(text);
        match self.find_within(alloc, cache, text, from, limit) {
            Err(MemoryFault::TooMuchMemory) => {
                *cache = Cache::new(alloc);
                Ok(Found {
                    outcome: Outcome::OutOfSteps,
                    steps: limit,
                })
            }
            Err(MemoryFault::Memory) => Err(MemoryFault::Memory),
            Ok(found) => Ok(found),
        }
    }

    /// Returns the leftmost match that starts at the byte offset `from` or later, by backtracking within `limit` steps, in the
    /// memory of the cache.
    ///
    /// # Errors
    /// - [`MemoryFault::TooMuchMemory`] if a backtrack stack needs more memory than [`Limits`](crate::Limits) allow.
    /// - [`MemoryFault::Memory`] if an allocation fails.
    pub(crate) fn find_within(
        &self,
        alloc: Global,
        cache: &mut Cache,
        text: &str,
        from: usize,
        limit: u64,
    ) -> Result<Found, MemoryFault>
        ensures finds { IfOk result (λ found. IsSearchResult text.now (matcher_outcomes self.now text.now) from found.outcome) }
        ensures inside { IfOk result (λ found. IsWellFormed (matcher_tree self.now) → IfMatched found.outcome (IsInside text.now)) }
        ensures limited { IfOk result (λ found. IsLimited limit found.outcome found.steps) }
        ensures costs { IfOk result (λ found. IsWithinFindCost self.now text.now from found.steps) }
        ensures within { AreStacksWithin self.now cache.old → AreStacksWithin self.now cache.new }
        ensures too_much { IfErr result (λ fault. fault ≡ TooMuchMemory → MayFillStack self.now text.now from) }
    {
        let mut remaining = limit;
        if self.lacks_required_byte(text, from, &mut remaining) {
            return Ok(Found {
                outcome: Outcome::NoMatch,
                steps: limit - remaining,
            });
        }
        let outcome = self.find_by_backtracking(alloc, cache, text, from, &mut remaining)?;
        Ok(Found {
            outcome,
            steps: limit - remaining,
        })
    }

    /// Returns the leftmost match by tables, or [`Outcome::OutOfSteps`] if they do not lead to it.
    ///
    /// # Errors
    /// As for [`Matcher::find`].
    fn find_by_tables(&self, alloc: Global, text: &str, from: usize) -> Result<Found, MemoryFault>
        ensures finds { IfOk result (λ found. IsSearchResult text.now (matcher_outcomes self.now text.now) from found.outcome) }
        ensures inside { IfOk result (λ found. IsWellFormed (matcher_tree self.now) → IfMatched found.outcome (IsInside text.now)) }
        ensures bounded { IfOk result (λ found. IfSome (find_factor_in self.now text.now) (λ n.
            (found.steps + before_tables (instructions_of self.now) * (length text.now + 1) ≤ n * (length text.now + 1)) × IfOutOfSteps found.outcome ⊥)) }
        ensures too_much { IfErr result (λ fault. fault ≡ TooMuchMemory → TablesNeedMore self.now text.now) }
    {
        let Some(linear) = Linear::new(&self.code, self.known()) else {
            return Ok(Found {
                outcome: Outcome::OutOfSteps,
                steps: 0,
            });
        };
        let search = linear.find(alloc, text, from, self.memory)?;
        Ok(Found {
            outcome: outcome_of(search.found),
            steps: search.steps,
        })
    }
}
