//! A table with a bit for each state of a routine.
ghost use Rattle.std.specs.Prelude.{◌≡◌, ◌+◌, ◌*◌, ◌<◌, ◌≤◌, ◌^◌, All};
ghost use Rattle.std.specs.Int.{div_ceil};
ghost use Rattle.regress_tables.specs.Bits.{words_of};
ghost use Rattle.regress_tables.specs.Numbers.{count_of, numbers_of};

use crate::bits::Bits;
use crate::numbers::Numbers;

/// Tells for the states of a routine whether there is an outcome from there.
///
/// A row has the states at one position. First come those whose innermost iteration has not advanced, then the others.
/// The rows are in the order in which positions are filled: against the direction of the routine.
///
/// Equal rows are stored once. The first positions have the number of their row, and the rows of the positions after them
/// are stored in order. The bits take no more words than those of all rows would.
#[derive(Drop)]
pub struct Table {
    /// The bits of the rows that have a number, and those of the rows of the other positions so far.
    pub(crate) bits: Bits,
    /// For the first positions the number of their row: how many rows are stored before it.
    pub(crate) rows: Numbers,
    /// The number of rows that have a number.
    pub(crate) distinct: usize,
    /// The number of instructions.
    pub(crate) width: usize,
    /// The length of the text.
    pub(crate) length: usize,
    /// Whether the routine matches backwards.
    pub(crate) backwards: bool,
    ghost short: { length < 2 ^ 60 },
    ghost small: { (length + 1) * (2 * width) < 2 ^ 62 },
    ghost words: { words_of bits ≤ div_ceil ((length + 1) * (2 * width)) 64 },
    ghost numbers: { All (λ n. n < distinct) (numbers_of rows) },
    ghost filled: { distinct * (2 * width) ≤ bits.len },
    ghost few: { distinct ≤ count_of rows },
    ghost inside: { count_of rows ≤ length + 1 },
    ghost narrow: { distinct ≤ 2 ^ 32 },
}
