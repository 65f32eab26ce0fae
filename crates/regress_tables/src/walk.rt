//! The walk through the instructions of the first outcome.
ghost use Rattle.std.specs.Prelude.{◌≡◌, ◌+◌, ◌≤◌, ◌<◌, ◌∷◌, ℕ, IfOk, List, length, true};
ghost use Rattle.regress_leaves.specs.Subject.{subject};
ghost use Rattle.regress_tree.specs.Steps.{MatchState};
ghost use Rattle.regress_program.specs.Program.{IsSolution, Out};
ghost use Rattle.regress_program.specs.Ranges.{inner_groups};
ghost use Rattle.regress_program.specs.Tidy.{is_tabled};
ghost use Rattle.regress_code.specs.Code.{code_routines, code_tidy};
ghost use Rattle.regress_program.specs.Views.{routine_in};
ghost use Rattle.regress_tables.specs.Evaluated.{CanFill};
ghost use Rattle.regress_tables.specs.Slots.{AreInside, IsClean, capture_in};
ghost use Rattle.regress_tables.specs.Table.{IsFull, IsRight, has_outcome, index};
ghost use Rattle.regress_tables.specs.Walked.{at_of};

use crate::evaluate::Input;
use crate::step::step;
use crate::table::Table;
use crate::walker::Walker;
use regress_program::instruction::{Instruction, Routine};
use std::alloc::AllocError;

/// Walks to the end of the first outcome, and adds the number of steps to `steps`. Returns false if there is no outcome.
///
/// # Errors
/// Returns [`AllocError`] if an allocation fails.
pub(crate) fn walk(
    input: Input<'_, '_>,
    table: &Table,
    routine: &Routine,
    walker: &mut Walker,
    steps: &mut u64,
) -> Result<bool, AllocError>
    requires tabled { is_tabled (code_tidy input.code.now) (code_routines input.code.now) ≡ true }
    requires can { CanFill input (routine_in input.code.now.program.leaves.items routine.now) table.now }
    requires pc { walker.old.pc < table.now.width }
    requires position { walker.old.position ≤ table.now.length }
    requires clean { IsClean (code_routines input.code.now) (routine_in input.code.now.program.leaves.items routine.now) walker.old.pc walker.old.slots.items }
    ensures count { IfOk result (λ _. length walker.new.slots.items ≡ length walker.old.slots.items) }
    ensures ends { IfOk result (λ ended. (outs : ℕ → Out) → (let u = subject input.entry.rules input.entry.text.now in
        let out = outs (length input.entry.tables.now) in
        let program = code_routines input.entry.code.now in
        let capture_of = capture_in u.setting u.bytes program outs (length walker.old.slots.items) in
        IsSolution u.setting u.bytes program outs → IsFull table.now → IsRight out table.now →
        has_outcome (out (at_of capture_of walker.old)) ≡ true →
        (ended ≡ true) × ((rest : List MatchState) × (out (at_of capture_of walker.old) ≡ (at_of capture_of walker.new).state ∷ rest)))) }
    ensures captures { IfOk result (λ _. (inner : ℕ) → inner_groups (code_routines input.entry.code.now) ≤ inner →
        AreInside (length input.entry.tables.now) table.now.length inner walker.old.slots.items →
        AreInside (length input.entry.tables.now) table.now.length inner walker.new.slots.items) }
    ensures inside { IfOk result (λ ended. ended ≡ true → walker.new.position ≤ table.now.length) }
    ensures falls { IfOk result (λ ended. ended ≡ true → index table.now walker.new.pc walker.new.moved walker.new.position
        ≤ index table.now walker.old.pc walker.old.moved walker.old.position) }
    ensures steps { IfOk result (λ ended. ended ≡ true → steps.new + index table.now walker.new.pc walker.new.moved walker.new.position
        ≤ steps.old + index table.now walker.old.pc walker.old.moved walker.old.position + 1) }
{
    'walk: loop {
        *steps = steps.saturating_add(1);
        let instruction = routine.at(walker.pc);
        if let Instruction::Accept = instruction {
            return Ok(true);
        }
        if !step(input, table, instruction, walker)? {
            return Ok(false);
        }
    }
}
