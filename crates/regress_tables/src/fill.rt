//! Filling the table of a routine.
ghost use Rattle.std.specs.Prelude.{◌≡◌, ◌≤◌, ◌+◌, ◌*◌, ◌^◌, ◌<◌, Bool, IfErr, IfOk, IfSome, IsSome, List, Some, false, length, slice_get, true};
ghost use Rattle.regress_found.specs.declared.fault.MemoryFault.TheVariants.{TooMuchMemory};
ghost use Rattle.regress_leaves.specs.Subject.{subject};
ghost use Rattle.regress_tree.specs.Reading.{direction_if};
ghost use Rattle.regress_program.specs.Below.{row_of};
ghost use Rattle.regress_program.specs.Tidy.{has_no_back_reference};
ghost use Rattle.regress_code.specs.Code.{code_routines};
ghost use Rattle.regress_program.specs.Views.{routine_in};
ghost use Rattle.regress_tables.specs.Bits.{bits_of};
ghost use Rattle.regress_tables.specs.Evaluated.{CanFill, IsFilled};
ghost use Rattle.regress_tables.specs.Memo.{IsKnown, SameRows};
ghost use Rattle.regress_tables.specs.Memory.{stored_in};
ghost use Rattle.regress_tables.specs.Numbers.{numbers_of};
ghost use Rattle.regress_tables.specs.Repetitions.{IsCoded};
ghost use Rattle.regress_tables.specs.Runs.{AreRuns};
ghost use Rattle.regress_tables.specs.Table.{AreTables, Grows, IsFull, IsTableOf, SameShape, evaluated, index, row_bits};

use crate::cells::row_of;
use crate::evaluate::{Input, evaluate};
use crate::keys::{direct_row, key_at};
use crate::memo::{Memo, slot_of};
use crate::memory::test_positions;
use crate::runs::Runs;
use crate::table::Table;
use regress_found::MemoryFault;
use regress_leaves::reading::next_read;
use regress_leaves::rules::MatchContext;
use regress_program::instruction::Routine;
use std::alloc::{AllocError, Global};

/// Returns the full table of a routine: the one after those whose tables are full. It stores at most as many bytes as there
/// is room for.
///
/// # Errors
/// - [`MemoryFault::TooMuchMemory`] if it would store more.
/// - [`MemoryFault::Memory`] if an allocation fails.
pub(crate) fn fill(
    alloc: Global,
    input: Input<'_, '_>,
    routine: &Routine,
    room: Option<usize>,
) -> Result<Table, MemoryFault>
    requires no_reference { has_no_back_reference (code_routines input.code.now) ≡ true }
    requires tables { AreTables input.text.now (code_routines input.code.now) input.tables.now }
    requires routine { slice_get (code_routines input.code.now) (length input.tables.now) ≡ Some (routine_in input.code.now.program.leaves.items routine.now) }
    ensures of { IfOk result (IsTableOf input.entry.text.now (routine_in input.entry.code.now.program.leaves.items routine.now)) }
    ensures full { IfOk result IsFull }
    ensures filled { IfOk result (IsFilled input.entry) }
    ensures stored { IfOk result (λ table. IfSome room (λ most. stored_in table ≤ most)) }
    ensures too_much { IfErr result (λ fault. fault ≡ TooMuchMemory → IsSome room) }
{
    let input = Input {
        rules: MatchContext {
            backwards: routine.backwards,
            ..input.rules
        },
        ..input
    };
    let length = input.text.len();
    test_positions(length, room)?;
    let mut memo = Memo::new(alloc, input, routine)?;
    let mut table = Table::new(alloc, routine.len(), length, routine.backwards, room)?;
    for row in 0..length + 1 {
        let position = row_of(routine.backwards, length, row);
        fill_row(&input, routine, &mut table, &mut memo, position)?;
        table.test_room(room)?;
    }
    Ok(table)
}

/// Adds the row of a position.
///
/// # Errors
/// Returns [`AllocError`] if an allocation fails.
fn fill_row(
    input: &Input<'_, '_>,
    routine: &Routine,
    table: &mut Table,
    memo: &mut Memo<'_>,
    position: usize,
) -> Result<(), AllocError>
    requires no_reference { has_no_back_reference (code_routines input.now.code.now) ≡ true }
    requires tables { AreTables input.now.text.now (code_routines input.now.code.now) input.now.tables.now }
    requires can { CanFill input.now (routine_in input.now.code.now.program.leaves.items routine.now) table.old }
    requires position { position ≤ table.old.length }
    requires at { index table.old 0 false position ≡ length (evaluated table.old) }
    requires known { IsKnown input.now (routine_in input.now.code.now.program.leaves.items routine.now) table.old memo.old }
    requires digits { IsCoded table.old memo.old.repetitions }
    requires runs { AreRuns (subject input.now.rules input.now.text.now) input.now.code.now.program.leaves.items memo.old.runs }
    ensures shape { IfOk result (λ _. SameShape table.old table.new) }
    ensures more { IfOk result (λ _. length (evaluated table.new) ≡ length (evaluated table.old) + 2 * table.old.width) }
    ensures known { IfOk result (λ _. IsKnown input.now (routine_in input.now.code.now.program.leaves.items routine.now) table.new memo.new) }
    ensures digits { IfOk result (λ _. IsCoded table.new memo.new.repetitions) }
    ensures runs { AreRuns (subject input.now.rules input.now.text.now) input.now.code.now.program.leaves.items memo.new.runs }
{
    if table.rows.len() == row_of(table.backwards, table.length, position) {
        if let Some(number) = direct_row(input, routine, table, memo, position) {
            table.repeat(number)?;
            return Ok(());
        }
        return fill_shared(input, routine, table, memo, position);
    }
    fill_both(*input, routine, table, &memo.runs, position)?;
    Ok(())
}

/// Adds the row of a position to a table whose other rows all have a number: the number of an equal row, if one is found.
///
/// # Errors
/// Returns [`AllocError`] if an allocation fails.
fn fill_shared(
    input: &Input<'_, '_>,
    routine: &Routine,
    table: &mut Table,
    memo: &mut Memo<'_>,
    position: usize,
) -> Result<(), AllocError>
    requires no_reference { has_no_back_reference (code_routines input.now.code.now) ≡ true }
    requires tables { AreTables input.now.text.now (code_routines input.now.code.now) input.now.tables.now }
    requires can { CanFill input.now (routine_in input.now.code.now.program.leaves.items routine.now) table.old }
    requires position { position ≤ table.old.length }
    requires at { index table.old 0 false position ≡ length (evaluated table.old) }
    requires numbered { length (numbers_of table.old.rows) ≡ row_of (direction_if table.old.backwards) table.old.length position }
    requires known { IsKnown input.now (routine_in input.now.code.now.program.leaves.items routine.now) table.old memo.old }
    requires digits { IsCoded table.old memo.old.repetitions }
    requires runs { AreRuns (subject input.now.rules input.now.text.now) input.now.code.now.program.leaves.items memo.old.runs }
    ensures shape { IfOk result (λ _. SameShape table.old table.new) }
    ensures more { IfOk result (λ _. length (evaluated table.new) ≡ length (evaluated table.old) + 2 * table.old.width) }
    ensures known { IfOk result (λ _. IsKnown input.now (routine_in input.now.code.now.program.leaves.items routine.now) table.new memo.new) }
    ensures digits { IfOk result (λ _. IsCoded table.new memo.new.repetitions) }
    ensures runs { AreRuns (subject input.now.rules input.now.text.now) input.now.code.now.program.leaves.items memo.new.runs }
{
    let key = key_at(input, routine, table, memo, position);
    if let Some(number) = memo.find(key, table.distinct) {
        table.repeat(number)?;
        return Ok(());
    }
    fill_both(*input, routine, table, &memo.runs, position)?;
    if table.distinct > u32::MAX as usize {
        return Ok(());
    }
    let number = first_equal(table, memo);
    table.share(number)?;
    memo.add(key, number);
    Ok(())
}

/// Returns the number of a row that is equal to the last one of a table: an earlier one, if one is found.
fn first_equal(table: &Table, memo: &mut Memo<'_>) -> usize
    requires one { length (bits_of table.now.bits) ≡ (table.now.distinct + 1) * (2 * table.now.width) }
    requires inside { table.now.distinct ≤ table.now.length }
    ensures rows { SameRows memo.old memo.new }
    ensures repetitions { memo.new.repetitions ≡ memo.old.repetitions }
    ensures runs { memo.new.runs ≡ memo.old.runs }
    ensures earlier { result ≤ table.now.distinct }
    ensures same { row_bits table.now result ≡ row_bits table.now table.now.distinct }
{
    let last = table.distinct;
    let start = table.start_of(last);
    let slot = slot_of(table.hash_of(start), memo.heads.len());
    if slot >= memo.heads.len() {
        return last;
    }
    let head = memo.heads[slot];
    if head < last {
        if table.are_equal(table.start_of(head), start) {
            return head;
        }
    }
    memo.heads[slot] = last;
    last
}

/// Adds the row of a position: the bits of all instructions, first those without an advance.
///
/// # Errors
/// Returns [`AllocError`] if an allocation fails.
fn fill_both(
    input: Input<'_, '_>,
    routine: &Routine,
    table: &mut Table,
    runs: &Runs,
    position: usize,
) -> Result<(), AllocError>
    requires no_reference { has_no_back_reference (code_routines input.code.now) ≡ true }
    requires tables { AreTables input.text.now (code_routines input.code.now) input.tables.now }
    requires can { CanFill input (routine_in input.code.now.program.leaves.items routine.now) table.old }
    requires position { position ≤ table.old.length }
    requires at { index table.old 0 false position ≡ length (evaluated table.old) }
    requires runs { AreRuns (subject input.rules input.text.now) input.code.now.program.leaves.items runs.now }
    ensures more { IfOk result (λ _. length (evaluated table.new) ≡ length (evaluated table.old) + 2 * table.old.width) }
    ensures shape { IfOk result (λ _. SameShape table.old table.new) }
    ensures grows { IfOk result (λ _. (extra : List Bool) × Grows table.old table.new extra) }
    ensures filled { IfOk result (λ _. IsFilled input.entry table.old → IsFilled input.entry table.new) }
{
    fill_half(input, routine, table, runs, false, position)?;
    fill_half(input, routine, table, runs, true, position)?;
    Ok(())
}

/// Adds the bits of all instructions at a position.
///
/// # Errors
/// Returns [`AllocError`] if an allocation fails.
fn fill_half(
    input: Input<'_, '_>,
    routine: &Routine,
    table: &mut Table,
    runs: &Runs,
    moved: bool,
    position: usize,
) -> Result<(), AllocError>
    requires no_reference { has_no_back_reference (code_routines input.code.now) ≡ true }
    requires tables { AreTables input.text.now (code_routines input.code.now) input.tables.now }
    requires can { CanFill input (routine_in input.code.now.program.leaves.items routine.now) table.old }
    requires position { position ≤ table.old.length }
    requires at { index table.old 0 moved position ≡ length (evaluated table.old) }
    requires runs { AreRuns (subject input.rules input.text.now) input.code.now.program.leaves.items runs.now }
    ensures more { IfOk result (λ _. length (evaluated table.new) ≡ length (evaluated table.old) + table.old.width) }
    ensures shape { IfOk result (λ _. SameShape table.old table.new) }
    ensures grows { IfOk result (λ _. (extra : List Bool) × Grows table.old table.new extra) }
    ensures filled { IfOk result (λ _. IsFilled input.entry table.old → IsFilled input.entry table.new) }
{
    let read = next_read(input.text, input.rules.backwards, position);
    for pc in 0..routine.len() {
        let bit = evaluate(input, table, runs, routine.at(pc), moved, position, read);
        table.push(bit)?;
    }
    Ok(())
}
