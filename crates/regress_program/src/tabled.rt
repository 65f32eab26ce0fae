//! Programs whose tables lead to their first outcome.
ghost use Rattle.std.specs.Prelude.{◌≡◌, List};
ghost use Rattle.regress_leaves.specs.declared.test.Test.{Test};
ghost use Rattle.regress_program.specs.Linear.{reason};
ghost use Rattle.regress_program.specs.Ranges.{ranges_of};
ghost use Rattle.regress_program.specs.Tidy.{table_groups};
ghost use Rattle.regress_program.specs.Views.{program_in};

use crate::inner::inner_groups;
use crate::instruction::Routine;
use crate::nonlinear::Nonlinear;
use crate::ranges::GroupRange;

/// Returns an upper bound for the number of groups that lookarounds set, if the tables of a program with these routines
/// lead to its first outcome: if it has no back reference, and each lookaround that captures begins with its groups
/// unset, as `tidy` states. Otherwise the result is `None`.
///
/// # Preconditions
/// The ranges are those of [`ranges_of`](crate::ranges::ranges_of).
///
/// # Complexity
/// Linear in the number of stored instructions.
pub(crate) fn table_groups(
    ranges: &[GroupRange],
    routines: &[Routine],
    nonlinear: Option<Nonlinear>,
    tidy: bool,
) -> Option<usize>
    requires { (leaves : List Test) → ranges.now ≡ ranges_of (program_in leaves routines.now) }
    ensures { (leaves : List Test) → nonlinear ≡ reason (program_in leaves routines.now) →
        result ≡ table_groups tidy (program_in leaves routines.now) }
{
    match nonlinear {
        None => Some(0),
        Some(Nonlinear::BackReference) => None,
        Some(Nonlinear::CapturingLookaround) => {
            if tidy {
                Some(inner_groups(ranges, routines))
            } else {
                None
            }
        }
    }
}
