//! One step of a walk.
ghost use Rattle.std.specs.Prelude.{◌≡◌, ◌≢◌, ◌≤◌, ℕ, IfOk, Some, length, slice_get, true};
ghost use Rattle.regress_leaves.specs.Subject.{subject};
ghost use Rattle.regress_tree.specs.Reading.{direction_if};
ghost use Rattle.regress_program.specs.Below.{Below};
ghost use Rattle.regress_program.specs.Program.{IsSolution, Out, Routine, accept, matcher_of, outcomes_by};
ghost use Rattle.regress_program.specs.Ranges.{inner_groups};
ghost use Rattle.regress_program.specs.Tidy.{is_tabled};
ghost use Rattle.regress_code.specs.Code.{code_routines, code_tidy};
ghost use Rattle.regress_program.specs.Views.{op_in};
ghost use Rattle.regress_tables.specs.Slots.{AreInside, IsClean, capture_in};
ghost use Rattle.regress_tables.specs.Table.{IsFull, IsRight, has_outcome};
ghost use Rattle.regress_tables.specs.Walked.{CanWalk, Leads, StepsAt, at_of, place_of};

use crate::characters::characters_end;
use crate::evaluate::{Input, end_after};
use crate::table::Table;
use crate::walker::Walker;
use regress_leaves::reading::next_read;
use regress_program::instruction::Instruction;
use regress_program::ranges::changed_by_look;
use std::alloc::AllocError;

/// Goes on to the next instruction of the first outcome. Returns false at the end, or if there is no outcome.
///
/// # Errors
/// Returns [`AllocError`] if an allocation fails.
pub(crate) fn step(
    input: Input<'_, '_>,
    table: &Table,
    instruction: Instruction,
    walker: &mut Walker,
) -> Result<bool, AllocError>
    requires tabled { is_tabled (code_tidy input.code.now) (code_routines input.code.now) ≡ true }
    requires can { CanWalk input table.now (op_in input.code.now.program.leaves.items instruction) (place_of walker.old) }
    requires at { StepsAt input (op_in input.code.now.program.leaves.items instruction) walker.old }
    ensures count { IfOk result (λ _. length walker.new.slots.items ≡ length walker.old.slots.items) }
    ensures below { IfOk result (λ goes. goes ≡ true →
        Below table.now.width table.now.length (direction_if table.now.backwards) (place_of walker.old) (place_of walker.new)) }
    ensures clean { IfOk result (λ goes. (r : Routine) → slice_get (code_routines input.entry.code.now) (length input.entry.tables.now) ≡ Some r →
        goes ≡ true → IsClean (code_routines input.entry.code.now) r walker.new.pc walker.new.slots.items) }
    ensures inside { IfOk result (λ _. (inner : ℕ) → inner_groups (code_routines input.entry.code.now) ≤ inner →
        AreInside (length input.entry.tables.now) table.now.length inner walker.old.slots.items →
        AreInside (length input.entry.tables.now) table.now.length inner walker.new.slots.items) }
    ensures leads { IfOk result (λ goes. (outs : ℕ → Out) → (let u = subject input.entry.rules input.entry.text.now in
        let out = outs (length input.entry.tables.now) in
        let program = code_routines input.entry.code.now in
        let capture_of = capture_in u.setting u.bytes program outs (length walker.old.slots.items) in
        let states = outcomes_by u.setting u.bytes u.direction (matcher_of u.setting u.bytes program outs) out (op_in input.entry.code.now.program.leaves.items instruction) (at_of capture_of walker.old) in
        IsSolution u.setting u.bytes program outs → IsFull table.now → IsRight out table.now → op_in input.entry.code.now.program.leaves.items instruction ≢ accept →
        has_outcome states ≡ true → (goes ≡ true) × Leads states out (at_of capture_of walker.new))) }
{
    let position = walker.position;
    match instruction {
        Instruction::Accept => return Ok(false),
        Instruction::Fail => return Ok(false),
        Instruction::Leaf { leaf, next } => {
            let Some(test) = input.test(leaf) else {
                return Ok(false);
            };
            let read = next_read(input.text, input.rules.backwards, position);
            let to = end_after(input.text, input.rules, &test.node, position, read);
            return Ok(walker.reach(next, to));
        }
        Instruction::Characters { leaf, count, next } => {
            let Some(test) = input.test(leaf) else {
                return Ok(false);
            };
            let to = characters_end(input.text, input.rules, test, count, 0, position);
            return Ok(walker.reach(next, to));
        }
        Instruction::Split { first, second } => walker.split(table, first, second),
        Instruction::BeginLoop { greedy, body, next } => walker.choose(table, greedy, body, next),
        Instruction::Repeat { greedy, body, next } => {
            if !walker.moved {
                return Ok(false);
            }
            walker.choose(table, greedy, body, next);
        }
        Instruction::EndLoop { next } => {
            if !walker.moved {
                return Ok(false);
            }
            walker.pc = next;
        }
        Instruction::Unset { start, end, next } => walker.begin_iteration(start, end, next),
        Instruction::BeginGroup { next } => walker.begin_group(next)?,
        Instruction::EndGroup { id, next } => walker.end_group(id, next),
        // It holds: otherwise there would be no outcome.
        Instruction::Look {
            negate,
            routine,
            next,
        } => {
            let range = changed_by_look(&input.code.program.ranges, negate, routine);
            walker.pass(routine, range, next);
        }
    }
    Ok(true)
}
