//! Searching a text whose tables are filled.
ghost use Rattle.std.specs.Prelude.{◌≡◌, ◌≤◌, ◌+◌, ◌*◌, ℕ, IfOk, IfSome, Some, length, min};
ghost use Rattle.regress_tree.specs.Tree.{Tree};
ghost use Rattle.regress_program.specs.Compiled.{IsPattern, total};
ghost use Rattle.regress_found.specs.Found.{Finds, state_of};
ghost use Rattle.regress_found.specs.Tried.{positions_tried};
ghost use Rattle.regress_program.specs.Program.{IsSolution, Out};
ghost use Rattle.regress_program.specs.Ranges.{inner_groups};
ghost use Rattle.regress_code.specs.Code.{captures_cost, code_groups, code_routines, outcomes_from, setting_with, tree_outcomes_from};
ghost use Rattle.regress_tables.specs.Filled.{AreFilled};
ghost use Rattle.regress_tables.specs.Search.{capturing_steps, steps_up_to, walk_weight};
ghost use Rattle.regress_tables.specs.TextSearch.{searched_code, searched_groups, searched_size, searched_tables, searched_text};

use crate::evaluate::Input;
use crate::filled::Filled;
use crate::found::Search;
use crate::leftmost::find_leftmost;
use crate::linear::Linear;
use crate::table::Table;
use crate::text::TextSearch;
use regress_leaves::rules::MatchContext;
use std::alloc::{AllocError, Global};

impl<'p> TextSearch<'p> {
    /// Returns the leftmost match that starts at the byte offset `from` or later, on a character boundary.
    ///
    /// # Complexity
    /// A step is a position that is tried, an instruction of the walk along the match, or 64 captures: a match counts one
    /// for each 64 groups, and so does each instruction of the walk, which may set or unset them. Without a match the steps
    /// are at most one for each byte from `from` on, and once more. With a match they are at most twice the number of
    /// instructions and one for each byte from `from` to its end, and once more, times 1 for each 64 groups and once more.
    /// If lookarounds capture, the steps that find what they have captured come on top: at most twice the number of
    /// instructions for each group that they may set and each byte of the text, and once more, times the same. A step
    /// takes constant time, but for literals and sets.
    ///
    /// # Errors
    /// Returns [`AllocError`] if an allocation fails.
    pub fn find(&self, alloc: Global, from: usize) -> Result<Search, AllocError>
        ensures solved { IfOk result (λ search. (let code = searched_code self.now in let tables = searched_tables self.now in let text = searched_text self.now in
            (outs : ℕ → Out) → IsSolution (setting_with code tables) text (code_routines code) outs → Finds text (outcomes_from code tables text outs) from search.found)) }
        ensures finds { IfOk result (λ search. (let code = searched_code self.now in let tables = searched_tables self.now in let text = searched_text self.now in
            (t : Tree) → IsPattern (code_routines code) t → Finds text (tree_outcomes_from code tables text t) from search.found)) }
        ensures inside { IfOk result (λ search. IfSome search.found (λ m. (state_of m).position ≤ length (searched_text self.now))) }
        ensures steps { IfOk result (λ search. (let size = searched_size self.now in let text = searched_text self.now in
            let weight = walk_weight (searched_groups self.now) in
            search.steps ≤ steps_up_to size weight text from search.found
            + capturing_steps size (inner_groups (code_routines (searched_code self.now))) weight * (length text + 1))) }
        ensures tried { IfOk result (λ search. positions_tried (searched_text self.now) from search.found ≤ search.steps) }
        ensures charged { IfOk result (λ search. IfSome search.found (λ m.
            captures_cost (searched_code self.now) + positions_tried (searched_text self.now) from (Some m) ≤ search.steps)) }
    {
        find_filled(alloc, &self.linear, self.text, &self.tables, from)
    }

    /// Returns the number of steps that it took to prepare the search, at most `u64::MAX`: of states that were evaluated,
    /// two for each instruction at each byte of the text, and once more.
    pub fn steps(&self) -> u64
        ensures counted { result ≡ min (2 * searched_size self.now * (length (searched_text self.now) + 1)) u64.MAX }
        ensures within { result ≤ 2 * searched_size self.now * (length (searched_text self.now) + 1) }
    {
        self.steps
    }
}

/// Returns the leftmost match that starts at the byte offset `from` or later, by the tables of a text.
///
/// # Preconditions
/// The tables are those of the program and of the text.
///
/// # Errors
/// Returns [`AllocError`] if an allocation fails.
pub(crate) fn find_filled(
    alloc: Global,
    linear: &Linear<'_, '_>,
    text: &str,
    tables: &[Table],
    from: usize,
) -> Result<Search, AllocError>
    requires filled { AreFilled (setting_with linear.now.code.now linear.now.known.tables.now) text.now (code_routines linear.now.code.now) tables.now }
    ensures solved { IfOk result (λ search. (let code = linear.now.code.now in let mappings = linear.now.known.tables.now in
        (outs : ℕ → Out) → IsSolution (setting_with code mappings) text.now (code_routines code) outs →
        Finds text.now (outcomes_from code mappings text.now outs) from search.found)) }
    ensures finds { IfOk result (λ search. (let code = linear.now.code.now in let mappings = linear.now.known.tables.now in
        (t : Tree) → IsPattern (code_routines code) t → Finds text.now (tree_outcomes_from code mappings text.now t) from search.found)) }
    ensures inside { IfOk result (λ search. IfSome search.found (λ m. (state_of m).position ≤ length text.now)) }
    ensures steps { IfOk result (λ search. (let program = code_routines linear.now.code.now in
        let weight = walk_weight (code_groups linear.now.code.now) in
        search.steps ≤ steps_up_to (total program) weight text.now from search.found
        + capturing_steps (total program) (inner_groups program) weight * (length text.now + 1))) }
    ensures tried { IfOk result (λ search. positions_tried text.now from search.found ≤ search.steps) }
    ensures charged { IfOk result (λ search. IfSome search.found (λ m.
        captures_cost linear.now.code.now + positions_tried text.now from (Some m) ≤ search.steps)) }
{
    let input = Input {
        text,
        rules: MatchContext {
            flags: linear.code.program.flags,
            known: linear.known,
            backwards: false,
        },
        code: linear.code,
        tables,
    };
    let filled = Filled {
        input,
        inner: linear.inner,
    };
    find_leftmost(alloc, filled, linear.code.program.groups, from)
}
