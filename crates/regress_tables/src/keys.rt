//! What rows are computed from.
ghost use Rattle.std.specs.Prelude.{◌≡◌, ◌≤◌, ◌<◌, ℕ, IfSome, Some, false, length, slice_get, true};
ghost use Rattle.regress_leaves.specs.Subject.{subject};
ghost use Rattle.regress_tree.specs.Reading.{direction_if};
ghost use Rattle.regress_program.specs.Below.{row_of};
ghost use Rattle.regress_program.specs.Program.{Op, Out, matcher_of};
ghost use Rattle.regress_program.specs.Tidy.{has_no_back_reference};
ghost use Rattle.regress_program.specs.Views.{routine_in};
ghost use Rattle.regress_code.specs.Code.{code_routines};
ghost use Rattle.regress_tables.specs.Evaluated.{CanFill};
ghost use Rattle.regress_tables.specs.Memo.{AreFarBytes, HasKey, IsKept, SameRows};
ghost use Rattle.regress_tables.specs.Numbers.{numbers_of};
ghost use Rattle.regress_tables.specs.Probes.{Coded, IsProbe};
ghost use Rattle.regress_tables.specs.Repetitions.{AreRepetitions, IsCoded};
ghost use Rattle.regress_tables.specs.Runs.{AreRuns};
ghost use Rattle.regress_tables.specs.Table.{AreRight, AreTables, IsRight, evaluated, index};

use crate::evaluate::Input;
use crate::memo::{Key, Memo};
use crate::probe::{Probe, probe_at, with_digit};
use crate::runs::Runs;
use crate::table::Table;
use regress_leaves::ascii::next_ascii;
use regress_leaves::reading::next_read;
use regress_program::instruction::Routine;

/// Returns what the next row is computed from, or `None` if that is not known or does not fit.
pub(crate) fn key_at(
    input: &Input<'_, '_>,
    routine: &Routine,
    table: &Table,
    memo: &mut Memo<'_>,
    position: usize,
) -> Option<Key>
    requires no_reference { has_no_back_reference (code_routines input.now.code.now) ≡ true }
    requires tables { AreTables input.now.text.now (code_routines input.now.code.now) input.now.tables.now }
    requires can { CanFill input.now (routine_in input.now.code.now.program.leaves.items routine.now) table.now }
    requires position { position ≤ table.now.length }
    requires at { index table.now 0 false position ≡ length (evaluated table.now) }
    requires tests { memo.old.symbols.tests.now ≡ input.now.code.now.program.leaves.items }
    requires repetitions { AreRepetitions input.now.code.now.program.leaves.items
        (routine_in input.now.code.now.program.leaves.items routine.now).ops memo.old.far.items memo.old.repetitions }
    requires digits { IsCoded table.now memo.old.repetitions }
    requires runs { AreRuns (subject input.now.rules input.now.text.now) input.now.code.now.program.leaves.items memo.old.runs }
    ensures same { SameRows memo.old memo.new }
    ensures digits { IsCoded table.now memo.new.repetitions }
    ensures runs { AreRuns (subject input.now.rules input.now.text.now) input.now.code.now.program.leaves.items memo.new.runs }
    ensures key { IfSome result (λ key. (outs : ℕ → Out) → AreRight outs input.now.tables.now →
        (let ops = (routine_in input.now.code.now.program.leaves.items routine.now).ops in
        IsRight (outs (length input.now.tables.now)) table.now → HasKey input.now outs ops table.now memo.old.far.items position key)) }
{
    let probes = probes_at(input, routine, table, memo, position)?;
    match next_read(input.text, input.rules.backwards, position) {
        None => Some(Key {
            symbol: 0,
            from: 0,
            probes,
        }),
        Some((c, to)) => {
            if to == position {
                return None;
            }
            let from = table.number_at(to)?;
            Some(Key {
                symbol: u64::from(memo.symbols.symbol_of(c)) + 1,
                from,
                probes,
            })
        }
    }
}

/// Returns the number of the next row, below that of the rows of the table, if it is found directly: by the number of the row
/// that was filled last and an ASCII character, at which no far instruction has an outcome. Each row so far has a number.
pub(crate) fn direct_row(
    input: &Input<'_, '_>,
    routine: &Routine,
    table: &Table,
    memo: &Memo<'_>,
    position: usize,
) -> Option<usize>
    requires can { CanFill input.now (routine_in input.now.code.now.program.leaves.items routine.now) table.now }
    requires position { position ≤ table.now.length }
    requires numbered { length (numbers_of table.now.rows) ≡ row_of (direction_if table.now.backwards) table.now.length position }
    requires bytes { let u = subject input.now.rules input.now.text.now in
        AreFarBytes u.setting u.bytes u.direction (routine_in input.now.code.now.program.leaves.items routine.now).ops memo.now.far.items memo.now.far_bytes }
    requires tests { memo.now.symbols.tests.now ≡ input.now.code.now.program.leaves.items }
    ensures number { IfSome result (λ number. number < table.now.distinct) }
    ensures kept { IfSome result (λ number. (key : Key) × IsKept memo.now (Some key) number × ((outs : ℕ → Out) → AreRight outs input.now.tables.now →
        (let ops = (routine_in input.now.code.now.program.leaves.items routine.now).ops in
        IsRight (outs (length input.now.tables.now)) table.now → HasKey input.now outs ops table.now memo.now.far.items position key))) }
{
    let rows = table.rows.len();
    if rows == 0 {
        return None;
    }
    if !memo
        .far_bytes
        .excludes(input.text, input.rules.backwards, position)
    {
        return None;
    }
    let (c, _) = next_ascii(input.text, input.rules.backwards, position)?;
    let symbol = memo.symbols.known_symbol(c)?;
    let from = table.rows.get(rows - 1)?;
    let index = from * 128 + usize::from(symbol);
    if index >= memo.direct.len() {
        return None;
    }
    let next = memo.direct[index] as usize;
    if next == 0 || next > table.distinct {
        return None;
    }
    Some(next - 1)
}

/// Returns what the far instructions lead to from a position, as digits, or `None` if there are too many.
fn probes_at(
    input: &Input<'_, '_>,
    routine: &Routine,
    table: &Table,
    memo: &mut Memo<'_>,
    position: usize,
) -> Option<u64>
    requires no_reference { has_no_back_reference (code_routines input.now.code.now) ≡ true }
    requires tables { AreTables input.now.text.now (code_routines input.now.code.now) input.now.tables.now }
    requires can { CanFill input.now (routine_in input.now.code.now.program.leaves.items routine.now) table.now }
    requires position { position ≤ table.now.length }
    requires at { index table.now 0 false position ≡ length (evaluated table.now) }
    requires repetitions { AreRepetitions input.now.code.now.program.leaves.items
        (routine_in input.now.code.now.program.leaves.items routine.now).ops memo.old.far.items memo.old.repetitions }
    requires digits { IsCoded table.now memo.old.repetitions }
    requires runs { AreRuns (subject input.now.rules input.now.text.now) input.now.code.now.program.leaves.items memo.old.runs }
    ensures same { SameRows memo.old memo.new }
    ensures digits { IsCoded table.now memo.new.repetitions }
    ensures runs { AreRuns (subject input.now.rules input.now.text.now) input.now.code.now.program.leaves.items memo.new.runs }
    ensures coded { IfSome result (λ code. (outs : ℕ → Out) → AreRight outs input.now.tables.now → IsRight (outs (length input.now.tables.now)) table.now →
        (let u = subject input.now.rules input.now.text.now in
        Coded u.setting u.bytes u.direction (matcher_of u.setting u.bytes (code_routines input.now.code.now) outs) (outs (length input.now.tables.now))
        (routine_in input.now.code.now.program.leaves.items routine.now).ops memo.old.far.items position code)) }
{
    if !memo
        .repetitions
        .find_ends(*input, table, &mut memo.runs, position)
    {
        return None;
    }
    let mut code = memo.repetitions.code(table)?;
    let others = memo.far.len() - memo.repetitions.uses.len();
    for k in (0..others).rev() {
        let pc = memo.far[k];
        let probe = far_probe(input, routine, table, &mut memo.runs, pc, position)?;
        let next = with_digit(code, probe)?;
        code = next;
    }
    Some(code)
}

/// Returns what a far instruction leads to from a position, or `None` if there is no instruction with this index.
fn far_probe(
    input: &Input<'_, '_>,
    routine: &Routine,
    table: &Table,
    runs: &mut Runs,
    pc: usize,
    position: usize,
) -> Option<Probe>
    requires no_reference { has_no_back_reference (code_routines input.now.code.now) ≡ true }
    requires tables { AreTables input.now.text.now (code_routines input.now.code.now) input.now.tables.now }
    requires can { CanFill input.now (routine_in input.now.code.now.program.leaves.items routine.now) table.now }
    requires position { position ≤ table.now.length }
    requires at { index table.now 0 false position ≡ length (evaluated table.now) }
    requires runs { AreRuns (subject input.now.rules input.now.text.now) input.now.code.now.program.leaves.items runs.old }
    ensures runs { AreRuns (subject input.now.rules input.now.text.now) input.now.code.now.program.leaves.items runs.new }
    ensures probe { IfSome result (λ probe. (outs : ℕ → Out) → AreRight outs input.now.tables.now → IsRight (outs (length input.now.tables.now)) table.now →
        (let u = subject input.now.rules input.now.text.now in
        (op : Op) → slice_get (routine_in input.now.code.now.program.leaves.items routine.now).ops pc ≡ Some op →
        IsProbe u.setting u.bytes u.direction (matcher_of u.setting u.bytes (code_routines input.now.code.now) outs) (outs (length input.now.tables.now)) op position probe)) }
{
    if pc >= routine.len() {
        return None;
    }
    Some(probe_at(*input, table, runs, routine.at(pc), position))
}
