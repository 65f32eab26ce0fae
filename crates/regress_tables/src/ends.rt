//! Where repetitions end.
ghost use Rattle.std.specs.Prelude.{◌≡◌, ◌≢◌, ℕ, ◌<◌, ◌≤◌, ◌+◌, IfSome, None, Some, length, slice_index_or, true};
ghost use Rattle.regress_leaves.specs.Subject.{subject};
ghost use Rattle.regress_prefilter.specs.OneCharacter.{takes_one};
ghost use Rattle.regress_program.specs.Views.{leaf_in};
ghost use Rattle.regress_tables.specs.Repetitions.{AreEnds, EndsIn, IsCode, IsCoded, IsRowFrom, IsStored, RepeatOne, SameRepetitions, probe_by, repetition_tree};
ghost use Rattle.regress_tables.specs.Rows.{row_bit};
ghost use Rattle.regress_tables.specs.Runs.{AreRuns};
ghost use Rattle.regress_tables.specs.declared.table.Table.{Table};

use crate::characters::characters_end;
use crate::evaluate::Input;
use crate::probe::{Probe, with_digit};
use crate::repetitions::{Repeated, Repetition, Repetitions};
use crate::runs::Runs;
use crate::table::Table;

impl Repetitions {
    /// Finds where the repetitions end from a position. Returns whether the rows there have numbers.
    pub(crate) fn find_ends(
        &mut self,
        input: Input<'_, '_>,
        table: &Table,
        runs: &mut Runs,
        position: usize,
    ) -> bool
        requires position { position ≤ length input.text.now }
        requires one { RepeatOne input.code.now.program.leaves.items self.old.distinct.items }
        requires runs { AreRuns (subject input.rules input.text.now) input.code.now.program.leaves.items runs.old }
        ensures runs { AreRuns (subject input.entry.rules input.entry.text.now) input.entry.code.now.program.leaves.items runs.new }
        ensures same { SameRepetitions self.old self.new }
        ensures digits { (t : Table) → IsCoded t self.old → IsCoded t self.new }
        ensures ends { result ≡ true → AreEnds (subject input.entry.rules input.entry.text.now) input.entry.code.now.program.leaves.items table.now position self.new }
    {
        for k in 0..self.distinct.len() {
            let Some(row) = end_of(input, table, runs, self.distinct[k], position) else {
                return false;
            };
            self.set_end(k, row);
        }
        true
    }

    /// Stores where a repetition ends. If it ended elsewhere before, the digits are no longer known.
    fn set_end(&mut self, k: usize, row: usize)
        requires { k < length self.old.distinct.items }
        ensures same { SameRepetitions self.old self.new }
        ensures digits { (t : Table) → IsCoded t self.old → IsCoded t self.new }
        ensures at { slice_index_or self.new.ends.items k 0 ≡ row }
        ensures others { (j : ℕ) → j ≢ k → slice_index_or self.new.ends.items j 0 ≡ slice_index_or self.old.ends.items j 0 }
    {
        if self.ends[k] == row {
            return;
        }
        self.ends[k] = row;
        self.code = None;
    }

    /// Returns the digits of what the instructions lead to that match repetitions, from the last position. It is `None` if
    /// there are too many, or if a row is not stored.
    pub(crate) fn code(&mut self, table: &Table) -> Option<u64>
        requires digits { IsCoded table.now self.old }
        ensures same { SameRepetitions self.old self.new }
        ensures ends { self.new.ends.items ≡ self.old.ends.items }
        ensures digits { IsCoded table.now self.new }
        ensures code { IfSome result (IsCode table.now self.new) }
    {
        if self.code.is_none() {
            self.code = self.code_by(table);
        }
        self.code
    }

    /// Returns these digits by the rows where the repetitions end.
    fn code_by(&self, table: &Table) -> Option<u64>
        ensures { IfSome result (IsCode table.now self.now) }
    {
        let mut code: u64 = 0;
        for k in (0..self.uses.len()).rev() {
            let probe = self.probe(table, self.uses[k])?;
            let next = with_digit(code, probe)?;
            code = next;
        }
        Some(code)
    }

    /// Returns what an instruction leads to that matches a repetition, from the last position. It is `None` if that row is not
    /// stored.
    fn probe(&self, table: &Table, repeated: Repeated) -> Option<Probe>
        ensures probe { IfSome result (λ probe. probe ≡ probe_by table.now repeated.next (slice_index_or self.now.ends.items repeated.repetition 0)) }
        ensures stored { IfSome result (λ _. IsStored table.now self.now.ends.items repeated) }
    {
        if repeated.repetition >= self.ends.len() || repeated.next >= table.width {
            return None;
        }
        let row = self.ends[repeated.repetition];
        if row == 0 {
            return Some(Probe::Fails);
        }
        if row > table.distinct {
            return None;
        }
        if row_bit(table, row - 1, repeated.next) {
            Some(Probe::Jumps)
        } else {
            Some(Probe::Fails)
        }
    }
}

/// Returns the bit of an instruction in the row with a number, after an advance.
fn row_bit(table: &Table, number: usize, pc: usize) -> bool
    requires number { number ≤ table.now.length }
    requires pc { pc < table.now.width }
    ensures { result ≡ row_bit table.now number pc true }
{
    let index = table.start_of(number) + table.width + pc;
    if index < table.bits.len() {
        table.bits.get(index)
    } else {
        false
    }
}

/// Returns 1 more than the number of the row where a repetition ends from a position, or 0 if it fails. It is `None` if that
/// row has no number.
fn end_of(
    input: Input<'_, '_>,
    table: &Table,
    runs: &mut Runs,
    repetition: Repetition,
    position: usize,
) -> Option<usize>
    requires position { position ≤ length input.text.now }
    requires one { takes_one (leaf_in input.code.now.program.leaves.items repetition.leaf) ≡ true }
    requires runs { AreRuns (subject input.rules input.text.now) input.code.now.program.leaves.items runs.old }
    ensures runs { AreRuns (subject input.entry.rules input.entry.text.now) input.entry.code.now.program.leaves.items runs.new }
    ensures ends { IfSome result (EndsIn (subject input.entry.rules input.entry.text.now) table.now
        (repetition_tree input.entry.code.now.program.leaves.items repetition) position) }
{
    let test = input.test(repetition.leaf)?;
    let run = runs.length_at(input, test, repetition.leaf, position);
    let to = characters_end(
        input.text,
        input.rules,
        test,
        repetition.count,
        run,
        position,
    );
    row_from(table, position, to)
}

/// Returns 1 more than the number of the row at a position, or 0 if there is no position. It is `None` if that row has no
/// number, or if the position is `from`.
fn row_from(table: &Table, from: usize, to: Option<usize>) -> Option<usize>
    ensures { IfSome result (IsRowFrom table.now from to) }
{
    let Some(to) = to else {
        return Some(0);
    };
    if to == from {
        return None;
    }
    let number = table.number_at(to)?;
    Some(number + 1)
}
