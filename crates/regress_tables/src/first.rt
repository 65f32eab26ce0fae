//! The first outcome of a routine.
ghost use Rattle.std.specs.Prelude.{◌≡◌, ◌≤◌, ◌<◌, ◌+◌, ◌-◌, ◌*◌, ℕ, IfOk, IfSome, None, Some, false, length, slice_get};
ghost use Rattle.regress_tree.specs.Reading.{forwards};
ghost use Rattle.regress_program.specs.Program.{Routine as Code};
ghost use Rattle.regress_tables.specs.Searchable.{HasNoneInAny, IsEnd, IsFirstOutcome, IsSearchable, program_in, width_at};

use crate::cells::row_of;
use crate::evaluate::Input;
use crate::filled::Filled;
use crate::row_set::RowSet;
use crate::slots::{Slot, unset_slots};
use crate::walk::walk;
use crate::walker::Walker;
use regress_leaves::rules::MatchContext;
use std::alloc::{AllocError, Global};

/// The first outcome of a routine.
#[derive(Drop)]
pub(crate) struct FirstOutcome {
    /// The position at which it ends.
    pub(crate) end: usize,
    /// What is known of the capture of each group.
    pub(crate) slots: Vec<Slot>,
}

/// Returns whether a routine has an outcome from a position. Rows without one are added to `failed`.
#[inline(always)]
pub(crate) fn has_first(
    filled: Filled<'_, '_>,
    index: usize,
    position: usize,
    failed: &mut RowSet,
) -> bool
    requires searchable { IsSearchable filled }
    requires index { index < length (program_in filled) }
    requires position { position ≤ length filled.input.text.now }
    requires failed { HasNoneInAny filled index failed.old }
    ensures none { result ≡ false → (groups : ℕ) → IsFirstOutcome filled.entry index groups position None }
    ensures failed { HasNoneInAny filled.entry index failed.new }
{
    let entry = filled.input.code.program.routines[index].entry;
    let table = &filled.input.tables[index];
    let number = table.number_of(row_of(table.backwards, table.length, position));
    if failed.contains(number) {
        return false;
    }
    if table.cell(entry, true, position) {
        return true;
    }
    failed.insert(number);
    false
}

/// Returns the first outcome of a routine from a position, with all groups unset, or `None` if there is none.
///
/// # Errors
/// Returns [`AllocError`] if an allocation fails.
pub(crate) fn first_outcome(
    alloc: Global,
    filled: Filled<'_, '_>,
    index: usize,
    position: usize,
    groups: usize,
    steps: &mut u64,
) -> Result<Option<FirstOutcome>, AllocError>
    requires searchable { IsSearchable filled }
    requires index { index < length (program_in filled) }
    requires position { position ≤ length filled.input.text.now }
    ensures first { IfOk result (IsFirstOutcome filled.entry index groups position) }
    ensures end { IfOk result (λ first. IfSome first (IsEnd filled.entry index groups)) }
    ensures steps { IfOk result (λ _. steps.new ≤ steps.old + 2 * width_at (program_in filled.entry) index * (length filled.entry.input.text.now + 1)) }
    ensures none { IfOk result (λ first. first ≡ None → steps.new ≡ steps.old) }
    ensures forwards { IfOk result (λ first. IfSome first (λ o. (r : Code) → slice_get (program_in filled.entry) index ≡ Some r → r.direction ≡ forwards →
        (position ≤ o.end) × (steps.new ≤ steps.old + 2 * length r.ops * (o.end + 1 - position)))) }
{
    let routine = &filled.input.code.program.routines[index];
    let table = &filled.input.tables[index];
    if !table.cell(routine.entry, true, position) {
        return Ok(None);
    }
    let input = Input {
        rules: MatchContext {
            backwards: routine.backwards,
            ..filled.input.rules
        },
        tables: &filled.input.tables[..index],
        ..filled.input
    };
    let mut walker = Walker {
        pc: routine.entry,
        moved: true,
        position,
        slots: unset_slots(alloc, groups)?,
        begins: Vec::new(alloc),
    };
    walk(input, table, routine, &mut walker, steps)?;
    Ok(Some(FirstOutcome {
        end: walker.position,
        slots: walker.slots,
    }))
}
