//! The groups that lookarounds set.
ghost use Rattle.std.specs.Prelude.{◌≡◌, List};
ghost use Rattle.regress_leaves.specs.declared.test.Test.{Test};
ghost use Rattle.regress_program.specs.Ranges.{captured_by, captured_by_all, captured_in};
ghost use Rattle.regress_program.specs.Views.{op_in, ops_in, program_in};

use crate::instruction::{Instruction, Routine};
use crate::ranges::{GroupRange, changed_by};

/// Returns an upper bound for the number of groups that lookarounds set: the groups up to the last one in a lookaround
/// that is not negated.
pub(crate) fn inner_groups(ranges: &[GroupRange], routines: &[Routine]) -> usize
    ensures { (leaves : List Test) → result ≡ captured_in ranges.now (program_in leaves routines.now) }
{
    let mut groups = 0;
    for routine in routines {
        groups = groups.max(captured_by_all(ranges, routine.instructions.stored()));
    }
    groups
}

/// Returns the same for the instructions of a routine.
fn captured_by_all(ranges: &[GroupRange], instructions: &[Instruction]) -> usize
    ensures { (leaves : List Test) → result ≡ captured_by_all ranges.now (ops_in leaves instructions.now) }
{
    let mut groups = 0;
    for instruction in instructions {
        groups = groups.max(captured_by(ranges, instruction));
    }
    groups
}

/// Returns the same for an instruction.
fn captured_by(ranges: &[GroupRange], instruction: &Instruction) -> usize
    ensures { (leaves : List Test) → result ≡ captured_by ranges.now (op_in leaves instruction.now) }
{
    match instruction {
        Instruction::Look { negate: false, .. } => changed_by(ranges, instruction).end,
        _ => 0,
    }
}
