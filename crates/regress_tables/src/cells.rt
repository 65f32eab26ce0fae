//! The bits of a table.
ghost use Rattle.std.specs.Prelude.{◌≡◌, ◌<◌, ◌≤◌, ◌*◌, ◌^◌, [], ◌∷◌, IfOk, IfSome, length};
ghost use Rattle.regress_tree.specs.Reading.{direction_if};
ghost use Rattle.regress_program.specs.Below.{column, row_of};
ghost use Rattle.regress_tables.specs.Table.{Grows, IsNumberAt, cell, evaluated, number_of, size};

use crate::bits::Bits;
use crate::memory::most_words;
use crate::numbers::Numbers;
use crate::table::Table;
use std::alloc::{AllocError, Global};

/// The largest number of positions of a table, and of pairs of states.
const MOST: usize = 0x0800_0000_0000_0000;

impl Table {
    /// Returns an empty table for a routine, with memory for the numbers of all rows, which stores about as many bytes as
    /// there is room for, or any number.
    ///
    /// # Errors
    /// Returns [`AllocError`] if no memory can hold the table.
    pub(crate) fn new(
        alloc: Global,
        width: usize,
        length: usize,
        backwards: bool,
        room: Option<usize>,
    ) -> Result<Table, AllocError>
        requires { length < 2 ^ 63 }
        ensures width { IfOk result (λ t. t.width ≡ width) }
        ensures length { IfOk result (λ t. t.length ≡ length) }
        ensures backwards { IfOk result (λ t. t.backwards ≡ backwards) }
        ensures empty { IfOk result (λ t. evaluated t ≡ []) }
    {
        let Some(half) = width.checked_mul(length + 1) else {
            return Err(AllocError);
        };
        if half > MOST || length > MOST {
            return Err(AllocError);
        }
        let words = (2 * half).div_ceil(64);
        Ok(Table {
            bits: Bits::new(alloc, length / 4, most_words(room, words, width)),
            rows: Numbers::with_capacity(alloc, length + 1)?,
            distinct: 0,
            width,
            length,
            backwards,
        })
    }

    /// Returns the number of states: two for each instruction and position.
    pub(crate) fn size(&self) -> usize
        ensures { result ≡ size self.now }
    {
        (self.length + 1) * (2 * self.width)
    }

    /// Adds the bit of the next state.
    ///
    /// # Preconditions
    /// The table is not full.
    ///
    /// # Errors
    /// Returns [`AllocError`] if an allocation fails.
    pub(crate) fn push(&mut self, bit: bool) -> Result<(), AllocError>
        requires { length (evaluated self.old) < size self.old }
        ensures { IfOk result (λ _. Grows self.old self.new (bit ∷ [])) }
    {
        self.bits.push(bit)
    }

    /// Returns whether there is an outcome from a state, or false if it was not evaluated yet.
    #[inline(always)]
    pub(crate) fn cell(&self, pc: usize, moved: bool, position: usize) -> bool
        requires pc { pc < self.now.width }
        requires position { position ≤ self.now.length }
        ensures { result ≡ cell self.now pc moved position }
    {
        let row = row_of(self.backwards, self.length, position);
        let column = column(self.width, moved, pc);
        let index = self.number_of(row) * (2 * self.width) + column;
        if index < self.bits.len() {
            self.bits.get(index)
        } else {
            false
        }
    }

    /// Returns the number of the row at a position, or `None` if that row has none.
    pub(crate) fn number_at(&self, position: usize) -> Option<usize>
        ensures number { IfSome result (IsNumberAt self.now position) }
        ensures within { IfSome result (λ number. number ≤ self.now.length) }
    {
        if position > self.length {
            return None;
        }
        let row = row_of(self.backwards, self.length, position);
        if row >= self.rows.len() {
            return None;
        }
        Some(self.number_of(row))
    }

    /// Returns the number of a row, or the number that it would have if none of the rows after those with a number were equal.
    #[inline(always)]
    pub(crate) fn number_of(&self, row: usize) -> usize
        requires { row ≤ self.now.length }
        ensures value { result ≡ number_of self.now row }
        ensures within { result ≤ self.now.length }
    {
        match self.rows.get(row) {
            Some(number) => number,
            None => self.distinct + (row - self.rows.len()),
        }
    }
}

/// Returns the number of rows before that of a position.
pub(crate) fn row_of(backwards: bool, length: usize, position: usize) -> usize
    requires { position ≤ length }
    ensures value { result ≡ row_of (direction_if backwards) length position }
    ensures within { result ≤ length }
{
    if backwards {
        position
    } else {
        length - position
    }
}

/// Returns the index of a state in its row.
fn column(width: usize, moved: bool, pc: usize) -> usize
    requires pc { pc < width }
    requires small { 2 * width < 2 ^ 62 }
    ensures value { result ≡ column width moved pc }
    ensures within { result < 2 * width }
{
    if moved { width + pc } else { pc }
}
