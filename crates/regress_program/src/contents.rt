//! What a program contains.
ghost use Rattle.std.specs.Prelude.{◌≡◌, ◌<◌, List, length, min};
ghost use Rattle.regress_leaves.specs.declared.test.Test.{Test};
ghost use Rattle.regress_program.specs.Compiled.{total};
ghost use Rattle.regress_program.specs.Linear.{reason};
ghost use Rattle.regress_program.specs.Search.{counts_of, groups_of, instructions_of, is_known_tidy, routines_of};
ghost use Rattle.regress_program.specs.Size.{is_bounded};
ghost use Rattle.regress_program.specs.Tidy.{table_groups as groups_by_tables};
ghost use Rattle.regress_program.specs.Views.{program_in};

use crate::counts::Counts;
use crate::instruction::Routine;
use crate::nonlinear::Nonlinear;
use crate::program::Program;

impl Program {
    /// Returns the number of instructions, copies included, at most `usize::MAX`.
    pub fn instructions(&self) -> usize
        ensures { result ≡ min (instructions_of self.now) usize.MAX }
    {
        self.instructions
    }

    /// Returns whether each instruction was compiled to match at most 64 characters, so that a step takes constant time.
    /// Otherwise the program of such instructions is longer than the limit on its length.
    pub fn has_bounded_counts(&self) -> bool
        ensures { result ≡ is_bounded (counts_of self.now) }
    {
        match self.counts {
            Counts::Bounded => true,
            Counts::Unbounded | Counts::Copied => false,
        }
    }

    /// Returns the number of capture groups of the pattern, at most `usize::MAX`.
    pub fn groups(&self) -> usize
        ensures { result ≡ groups_of self.now }
    {
        self.groups
    }

    /// Returns why searches for all matches may take more than linear time: a back reference, or if it has none, a
    /// lookaround that is not negated and sets or resets captures. The result is `None` if they take linear time, by
    /// tables.
    pub fn nonlinear(&self) -> Option<Nonlinear>
        ensures { result ≡ reason (routines_of self.now) }
    {
        self.nonlinear
    }

    /// Returns an upper bound for the number of groups that lookarounds set, if the program is searched by tables;
    /// otherwise `None`.
    ///
    /// Tables lead to the matches also of a program whose lookarounds capture, if each begins with its groups unset, as
    /// in the program of a well-formed tree. A back reference rules them out.
    pub fn table_groups(&self) -> Option<usize>
        ensures { result ≡ groups_by_tables (is_known_tidy self.now) (routines_of self.now) }
    {
        self.table_groups
    }
}

/// Returns the number of instructions of these routines, at most `usize::MAX`.
pub(crate) fn instruction_count(routines: &[Routine]) -> usize
    ensures { (leaves : List Test) → result ≡ min (total (program_in leaves routines.now)) usize.MAX }
{
    let mut count: usize = 0;
    for routine in routines {
        count = count.saturating_add(routine.len());
    }
    count
}
