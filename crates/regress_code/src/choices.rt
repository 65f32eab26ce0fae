//! Choices between an alternative and the instruction before.
ghost use Rattle.std.specs.Prelude.{◌≡◌, slice_get};
ghost use Rattle.regress_code.specs.Choices.{preferred};

use regress_program::instruction::Instruction;

/// Returns the preferred alternative of the instruction with the index `pc`, if it is a choice between that alternative and
/// the instruction before it.
pub(crate) fn preferred_at(instructions: &[Instruction], pc: usize) -> Option<usize>
    ensures { result ≡ preferred pc (slice_get instructions.now pc) }
{
    match *instructions.get(pc)? {
        Instruction::Split { first, second } if pc > 0 && second == pc - 1 => Some(first),
        _ => None,
    }
}
