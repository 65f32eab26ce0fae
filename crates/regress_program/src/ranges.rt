//! Which groups the routines of a program change.
ghost use Rattle.std.specs.Prelude.{◌≡◌, ℕ, IfOk, List};
ghost use Rattle.regress_leaves.specs.declared.test.Test.{Test};
ghost use Rattle.regress_program.specs.Program.{look};
ghost use Rattle.regress_program.specs.Ranges.{changed_by, changed_by_all, hull, ranges_of};
ghost use Rattle.regress_program.specs.Views.{op_in, ops_in, program_in};

use crate::instruction::{Instruction, Routine};
use std::alloc::{AllocError, Global};

/// A half-open range of ids of groups.
#[derive(Clone, Copy)]
pub struct GroupRange {
    /// The first id.
    pub start: usize,
    /// The id after the last one.
    pub end: usize,
}

/// The range without ids.
pub(crate) const NO_GROUPS: GroupRange = GroupRange { start: 0, end: 0 };

impl GroupRange {
    /// Returns the least range with the ids of both.
    pub(crate) fn hull(self, other: GroupRange) -> GroupRange
        ensures { result ≡ hull self other }
    {
        if self.start >= self.end {
            other
        } else if other.start >= other.end {
            self
        } else {
            GroupRange {
                start: self.start.min(other.start),
                end: self.end.max(other.end),
            }
        }
    }
}

/// Returns for each routine the least range of the groups that it changes.
///
/// # Complexity
/// Linear in the number of stored instructions.
///
/// # Errors
/// Returns [`AllocError`] if an allocation fails.
pub(crate) fn ranges_of(alloc: Global, routines: &[Routine]) -> Result<Vec<GroupRange>, AllocError>
    ensures { IfOk result (λ ranges. (leaves : List Test) → ranges.items ≡ ranges_of (program_in leaves routines.now)) }
{
    let mut ranges = Vec::with_capacity(alloc, routines.len())?;
    for routine in routines {
        let range = changed_by_all(&ranges, routine.instructions.stored());
        ranges.push(range)?;
    }
    Ok(ranges)
}

/// Returns the least range of the groups that the instructions change.
fn changed_by_all(earlier: &[GroupRange], instructions: &[Instruction]) -> GroupRange
    ensures { (leaves : List Test) → result ≡ changed_by_all earlier.now (ops_in leaves instructions.now) }
{
    let mut range = NO_GROUPS;
    for i in (0..instructions.len()).rev() {
        range = changed_by(earlier, &instructions[i]).hull(range);
    }
    range
}

/// Returns the range of the groups that an instruction changes, by those of the routines before its own.
pub(crate) fn changed_by(earlier: &[GroupRange], instruction: &Instruction) -> GroupRange
    ensures { (leaves : List Test) → result ≡ changed_by earlier.now (op_in leaves instruction.now) }
{
    match *instruction {
        Instruction::Unset { start, end, .. } => {
            if start < end {
                GroupRange { start, end }
            } else {
                NO_GROUPS
            }
        }
        Instruction::EndGroup { id, .. } => GroupRange {
            start: usize::from(id),
            end: usize::from(id) + 1,
        },
        Instruction::Look {
            negate,
            routine,
            ..
        } => changed_by_look(earlier, negate, routine),
        _ => NO_GROUPS,
    }
}

/// Returns the range of the groups that a lookaround changes: those of its routine, or none if it is negated.
pub fn changed_by_look(earlier: &[GroupRange], negate: bool, routine: usize) -> GroupRange
    ensures { (next : ℕ) → result ≡ changed_by earlier.now (look negate routine next) }
{
    if !negate && routine < earlier.len() {
        earlier[routine]
    } else {
        NO_GROUPS
    }
}
