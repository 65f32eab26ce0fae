//! Rows of a table.
ghost use Rattle.std.specs.Prelude.{◌≡◌, ◌≤◌, ◌<◌, ◌+◌, ◌*◌, ◌^◌, ◌++◌, [], ◌∷◌, ℕ, IfOk, false, length, slice_index_or, take, true};
ghost use Rattle.regress_tables.specs.Bits.{bits_of};
ghost use Rattle.regress_tables.specs.Numbers.{numbers_of};
ghost use Rattle.regress_tables.specs.Table.{SameShape, evaluated, row_bits, size};

use crate::table::Table;
use crate::words::low_bits;
use std::alloc::AllocError;

impl Table {
    /// Returns the index of the first bit of the row with a number.
    pub(crate) fn start_of(&self, number: usize) -> usize
        requires { number ≤ self.now.length }
        ensures value { result ≡ number * (2 * self.now.width) }
        ensures within { result + 2 * self.now.width ≤ size self.now }
        ensures small { result + 2 * self.now.width < 2 ^ 62 }
    {
        number * (2 * self.width)
    }

    /// Returns whether two rows have the same bits. They begin at these indices.
    pub(crate) fn are_equal(&self, a: usize, b: usize) -> bool
        requires a { a + 2 * self.now.width ≤ length (bits_of self.now.bits) }
        requires b { b + 2 * self.now.width ≤ length (bits_of self.now.bits) }
        requires small { length (bits_of self.now.bits) < 2 ^ 62 }
        ensures { result ≡ true → (k : ℕ) → k < 2 * self.now.width →
            slice_index_or (bits_of self.now.bits) (a + k) false ≡ slice_index_or (bits_of self.now.bits) (b + k) false }
    {
        let count = 2 * self.width;
        for k in 0..count.div_ceil(64) {
            let before = 64 * k;
            let x = low_bits(self.bits.word_at(a + before), count - before);
            let y = low_bits(self.bits.word_at(b + before), count - before);
            if x != y {
                return false;
            }
        }
        true
    }

    /// Returns the hash of the bits of a row that begins at this index.
    pub(crate) fn hash_of(&self, start: usize) -> u64
        requires start { start + 2 * self.now.width ≤ length (bits_of self.now.bits) }
        requires small { length (bits_of self.now.bits) < 2 ^ 62 }
    {
        let count = 2 * self.width;
        let mut hash: u64 = 0;
        for k in 0..count.div_ceil(64) {
            let before = 64 * k;
            let word = low_bits(self.bits.word_at(start + before), count - before);
            hash = hash.wrapping_add(word).wrapping_mul(0x9E37_79B9_7F4A_7C15);
        }
        hash
    }

    /// Gives the next row the number of an equal one.
    ///
    /// # Errors
    /// Returns [`AllocError`] if an allocation fails.
    pub(crate) fn repeat(&mut self, number: usize) -> Result<(), AllocError>
        requires number { number < self.old.distinct }
        requires whole { length (bits_of self.old.bits) ≡ self.old.distinct * (2 * self.old.width) }
        requires room { length (numbers_of self.old.rows) ≤ self.old.length }
        ensures shape { IfOk result (λ _. SameShape self.old self.new) }
        ensures rows { IfOk result (λ _. numbers_of self.new.rows ≡ numbers_of self.old.rows ++ number ∷ []) }
        ensures bits { IfOk result (λ _. bits_of self.new.bits ≡ bits_of self.old.bits) }
        ensures evaluated { IfOk result (λ _. evaluated self.new ≡ evaluated self.old ++ row_bits self.old number) }
    {
        self.rows.push(number as u32)?;
        Ok(())
    }

    /// Gives the row that was evaluated last the number of an equal one, or the next number.
    ///
    /// # Errors
    /// Returns [`AllocError`] if an allocation fails.
    pub(crate) fn share(&mut self, number: usize) -> Result<(), AllocError>
        requires number { number ≤ self.old.distinct }
        requires narrow { self.old.distinct < 2 ^ 32 }
        requires one { length (bits_of self.old.bits) ≡ (self.old.distinct + 1) * (2 * self.old.width) }
        requires room { length (numbers_of self.old.rows) ≤ self.old.length }
        requires same { row_bits self.old number ≡ row_bits self.old self.old.distinct }
        ensures shape { IfOk result (λ _. SameShape self.old self.new) }
        ensures rows { IfOk result (λ _. numbers_of self.new.rows ≡ numbers_of self.old.rows ++ number ∷ []) }
        ensures bits { IfOk result (λ _. bits_of self.new.bits ≡ take (self.new.distinct * (2 * self.old.width)) (bits_of self.old.bits)) }
        ensures distinct { IfOk result (λ _. self.old.distinct ≤ self.new.distinct) }
        ensures evaluated { IfOk result (λ _. evaluated self.new ≡ evaluated self.old) }
    {
        self.rows.push(number as u32)?;
        self.distinct = self.distinct.max(number + 1);
        self.bits.truncate(self.distinct * (2 * self.width));
        Ok(())
    }
}
