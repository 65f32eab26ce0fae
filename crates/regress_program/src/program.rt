//! Programs.
ghost use Rattle.std.specs.Prelude.{◌≡◌, ◌<◌, IfOk, length, min, true};
ghost use Rattle.regress_tree.specs.Tree.{tree};
ghost use Rattle.regress_tree.specs.WellFormed.{IsWellFormed, captures};
ghost use Rattle.regress_program.specs.Compiled.{total};
ghost use Rattle.regress_program.specs.Linear.{reason};
ghost use Rattle.regress_program.specs.Ranges.{GroupRanges-set, ranges_of};
ghost use Rattle.regress_program.specs.Shape.{IsForwards, IsProgram};
ghost use Rattle.regress_program.specs.Tidy.{IsTidy, table_groups as groups_by_tables};
ghost use Rattle.regress_program.specs.Unique.{forwards-prop, program-prop, tidy_if-prop};
ghost use Rattle.regress_program.specs.Views.{program_in};

use crate::contents::instruction_count;
use crate::counts::Counts;
use crate::groups::group_count;
use crate::instruction::Routine;
use crate::nonlinear::{Nonlinear, reason};
use crate::ranges::{GroupRange, ranges_of};
use crate::tabled::table_groups;
use regress_base::types::Flags;
use regress_leaves::test::Test;
use regress_tree::ir::Regex;
use std::alloc::{AllocError, Global};

/// A pattern that is compiled into instructions. It refers neither to the tree nor to case mappings.
#[derive(Drop)]
pub struct Program {
    /// The leaves, which the instructions name by their indices.
    pub leaves: Vec<Test>,
    /// The routines: those of lookarounds, each after the ones that it refers to, and as the last one that of the pattern.
    pub routines: Vec<Routine>,
    /// The flags of the pattern.
    pub flags: Flags,
    /// The number of groups.
    pub groups: usize,
    /// The number of instructions, copies included, at most `usize::MAX`.
    pub(crate) instructions: usize,
    /// How loops are compiled.
    pub(crate) counts: Counts,
    /// Why searches for all matches may take more than linear time.
    pub(crate) nonlinear: Option<Nonlinear>,
    /// For each routine the least range of the groups that it changes.
    pub ranges: Vec<GroupRange>,
    /// Whether each lookaround that captures is known to begin with its groups unset, as in a program of a well-formed
    /// tree.
    pub(crate) tidy: bool,
    /// The number of groups that lookarounds may set, if the program is searched by tables.
    pub(crate) table_groups: Option<usize>,
    ghost some: { 0 < length routines.items },
    ghost is_program: { IsProgram (program_in leaves.items routines.items) } by { program-prop (program_in leaves.items routines.items) },
    ghost forwards: { IsForwards (program_in leaves.items routines.items) } by { forwards-prop (program_in leaves.items routines.items) },
    ghost counted: { instructions ≡ min (total (program_in leaves.items routines.items)) 18446744073709551615 },
    ghost linear_unless: { nonlinear ≡ reason (program_in leaves.items routines.items) },
    ghost ranged: { ranges.items ≡ ranges_of (program_in leaves.items routines.items) } by { GroupRanges-set ranges.items (ranges_of (program_in leaves.items routines.items)) },
    ghost tidy_if: { tidy ≡ true → IsTidy (program_in leaves.items routines.items) } by { tidy_if-prop tidy (program_in leaves.items routines.items) },
    ghost tabled: { table_groups ≡ groups_by_tables tidy (program_in leaves.items routines.items) },
}

impl Program {
    ghost use Rattle.regress_program.specs.Search.{counts_of, flags_of, groups_of, is_known_tidy, routines_of, stored_instructions_of};
    ghost use Rattle.regress_program.specs.Listed.{stored_total};

    /// Returns a program of these leaves and routines, for a pattern, with such counts.
    ///
    /// # Preconditions
    /// The leaves and the routines are what compiling the pattern yields.
    ///
    /// # Complexity
    /// Linear in the number of stored instructions.
    ///
    /// # Errors
    /// Returns [`AllocError`] if an allocation fails.
    pub(crate) fn new(
        alloc: Global,
        leaves: Vec<Test>,
        routines: Vec<Routine>,
        regex: &Regex,
        counts: Counts,
    ) -> Result<Program, AllocError>
        requires program { IsProgram (program_in leaves.items routines.items) }
        requires some { 0 < length routines.items }
        requires forwards { IsForwards (program_in leaves.items routines.items) }
        requires tidy { IsWellFormed (tree regex.now.node) → IsTidy (program_in leaves.items routines.items) }
        ensures routines { IfOk result (λ p. routines_of p ≡ program_in leaves.items routines.items) }
        ensures stored { IfOk result (λ p. stored_instructions_of p ≡ stored_total routines.items) }
        ensures flags { IfOk result (λ p. flags_of p ≡ regex.now.flags) }
        ensures counts { IfOk result (λ p. counts_of p ≡ counts) }
        ensures groups { IfOk result (λ p. groups_of p ≡ min (length (captures (tree regex.now.node))) usize.MAX) }
        ensures known { IfOk result (λ p. IsWellFormed (tree regex.now.node) → is_known_tidy p ≡ true) }
    {
        let instructions = instruction_count(&routines);
        let nonlinear = reason(&leaves, &routines);
        let ranges = ranges_of(alloc, &routines)?;
        let tidy = regex.is_well_formed();
        let table_groups = table_groups(&ranges, &routines, nonlinear, tidy);
        Ok(Program {
            leaves,
            routines,
            flags: regex.flags,
            groups: group_count(&regex.node),
            instructions,
            counts,
            nonlinear,
            ranges,
            tidy,
            table_groups,
        })
    }
}
