//! Instructions that set or reset a capture.
ghost use Rattle.std.specs.Prelude.{◌≡◌, slice_get, List};
ghost use Rattle.std.specs.List.{list_any};
ghost use Rattle.regress_leaves.specs.declared.test.Test.{Test};
ghost use Rattle.regress_program.specs.Linear.{changes_captures, is_capturing};
ghost use Rattle.regress_program.specs.Views.{op_in, ops_in, program_in};

use crate::instruction::{Instruction, Routine};

/// Returns whether an instruction of the routine with that index sets or resets a capture.
pub(crate) fn is_capturing(routines: &[Routine], index: usize) -> bool
    ensures { (leaves : List Test) → result ≡ is_capturing (slice_get (program_in leaves routines.now) index) }
{
    if index < routines.len() {
        any_changes(routines[index].instructions.stored())
    } else {
        false
    }
}

/// Returns whether one of the instructions sets or resets a capture.
fn any_changes(instructions: &[Instruction]) -> bool
    ensures { (leaves : List Test) → result ≡ list_any changes_captures (ops_in leaves instructions.now) }
{
    for instruction in instructions {
        if changes_captures(instruction) {
            return true;
        }
    }
    false
}

/// Returns whether the instruction sets or resets a capture.
fn changes_captures(instruction: &Instruction) -> bool
    ensures { (leaves : List Test) → result ≡ changes_captures (op_in leaves instruction.now) }
{
    match instruction {
        Instruction::EndGroup { .. } => true,
        Instruction::Unset { start, end, .. } => start < end,
        _ => false,
    }
}
