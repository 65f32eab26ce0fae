//! The leftmost match, by the tables of a program.
ghost use Rattle.std.specs.Prelude.{◌≡◌, ◌≤◌, ◌<◌, ◌+◌, ◌-◌, ◌*◌, ◌^◌, ℕ, IfOk, IfSome, None, Some, false, length, true};
ghost use Rattle.std.specs.Str.{IsCharBoundary};
ghost use Rattle.regress_program.specs.Compiled.{total};
ghost use Rattle.regress_program.specs.Cost.{blocks};
ghost use Rattle.regress_found.specs.Found.{Finds, state_of};
ghost use Rattle.regress_found.specs.Tried.{positions_tried};
ghost use Rattle.regress_program.specs.Program.{Out};
ghost use Rattle.regress_tables.specs.Search.{capturing_steps, steps_up_to, walk_weight};
ghost use Rattle.regress_tables.specs.Searchable.{HasNoneInAny, IsFirstOutcome, IsSearchable, Solves, outcomes_in, program_in};

use crate::filled::Filled;
use crate::first::{first_outcome, has_first};
use crate::found::Search;
use crate::resolve::resolve;
use crate::row_set::RowSet;
use crate::slots::captures_of;
use regress_found::Match;
use regress_program::blocks::blocks;
use std::alloc::{AllocError, Global};

/// Returns the leftmost match that starts at the byte offset `from` or later.
///
/// # Errors
/// Returns [`AllocError`] if an allocation fails.
pub(crate) fn find_leftmost(
    alloc: Global,
    filled: Filled<'_, '_>,
    groups: usize,
    from: usize,
) -> Result<Search, AllocError>
    requires searchable { IsSearchable filled }
    ensures solved { IfOk result (λ search. (outs : ℕ → Out) → Solves filled.entry outs → Finds filled.entry.input.text.now
        (outcomes_in filled.entry outs (length (program_in filled.entry) - 1) groups) from search.found) }
    ensures inside { IfOk result (λ search. IfSome search.found (λ m. (state_of m).position ≤ length filled.entry.input.text.now)) }
    ensures steps { IfOk result (λ search. search.steps ≤ steps_up_to (total (program_in filled.entry)) (walk_weight groups) filled.entry.input.text.now from search.found
        + capturing_steps (total (program_in filled.entry)) filled.entry.inner (walk_weight groups) * (length filled.entry.input.text.now + 1)) }
    ensures tried { IfOk result (λ search. positions_tried filled.entry.input.text.now from search.found ≤ search.steps) }
    ensures charged { IfOk result (λ search. IfSome search.found (λ m.
        blocks groups + positions_tried filled.entry.input.text.now from (Some m) ≤ search.steps)) }
{
    let last = filled.input.code.program.routines.len() - 1;
    let mut tried: u64 = 0;
    let mut walked = 0;
    let mut failed = RowSet::new();
    for start in from..filled.input.text.len() + 1 {
        tried += 1;
        if may_start(filled, last, start, &mut failed) {
            if let Some(mut first) = first_outcome(
                alloc,
                filled,
                last,
                start,
                groups,
                &mut walked,
            )? {
                resolve(alloc, filled, last, &mut first.slots, &mut walked)?;
                let captures = captures_of(alloc, &first.slots)?;
                return Ok(Search {
                    found: Some(Match::new(start, first.end, captures)),
                    steps: steps_of_match(tried, walked, groups),
                });
            }
        }
    }
    Ok(Search {
        found: None,
        steps: tried,
    })
}

/// Returns whether a match may start at a position: on a character boundary, where the last routine has an outcome. Rows
/// without one are added to `failed`.
#[inline(always)]
fn may_start(filled: Filled<'_, '_>, last: usize, position: usize, failed: &mut RowSet) -> bool
    requires searchable { IsSearchable filled }
    requires last { last < length (program_in filled) }
    requires position { position ≤ length filled.input.text.now }
    requires failed { HasNoneInAny filled last failed.old }
    ensures boundary { result ≡ true → IsCharBoundary filled.entry.input.text.now position }
    ensures none { result ≡ false → IsCharBoundary filled.entry.input.text.now position →
        (groups : ℕ) → IsFirstOutcome filled.entry last groups position None }
    ensures failed { HasNoneInAny filled.entry last failed.new }
{
    has_first(filled, last, position, failed) && filled.input.text.is_char_boundary(position)
}

/// Returns the steps of a search that has found a match: the positions that it tried, the captures of the match, and the
/// instructions of the walks, each of which may have written a capture for each group.
fn steps_of_match(tried: u64, walked: u64, groups: usize) -> u64
    requires { tried ≤ 2 ^ 63 }
    ensures within { result ≤ tried + blocks groups + walk_weight groups * walked }
    ensures charged { tried + blocks groups ≤ result }
{
    let captures = blocks(groups);
    let weight = captures.saturating_add(1);
    let walks = weight.saturating_mul(walked);
    tried.saturating_add(captures).saturating_add(walks)
}
