//! Reading and writing bits in words.
ghost use Rattle.std.specs.Prelude.{◌≡◌, ◌≢◌, ◌<◌, ◌≤◌, ◌+◌, ◌-◌, ◌*◌, ◌/◌, ◌^◌, ◌++◌, ◌==◌, ℕ, [], ◌∷◌, IfErr, IfOk, false, length, max, slice_index_or, take, if◌then◌else◌};
ghost use Rattle.std.specs.Int.{bit_at};
ghost use Rattle.regress_tables.specs.Bits.{bits_of, words_of};

use crate::bits::Bits;
use std::alloc::{AllocError, Global};

impl Bits {
    /// Returns an empty list, whose words double while they are few, and then have room for `most`. So no more than twice
    /// `few` are ever copied.
    pub(crate) fn new(alloc: Global, few: usize, most: usize) -> Bits
        ensures empty { bits_of result ≡ [] }
        ensures words { words_of result ≡ 0 }
    {
        Bits {
            words: Vec::new(alloc),
            len: 0,
            few,
            most,
        }
    }

    /// Returns the number of bits.
    pub(crate) fn len(&self) -> usize
        ensures { result ≡ length (bits_of self.now) }
    {
        self.len
    }

    /// Returns the number of bytes of the words.
    #[inline(always)]
    pub(crate) fn bytes(&self) -> usize
        ensures { result ≡ 8 * words_of self.now }
    {
        8 * self.words.len()
    }

    /// Returns a bit.
    pub(crate) fn get(&self, index: usize) -> bool
        requires { index < length (bits_of self.now) }
        ensures { result ≡ slice_index_or (bits_of self.now) index false }
    {
        (self.words[index / 64] >> (index % 64)) & 1 == 1
    }

    /// Returns 64 bits of which the lowest is the one at an index. Those after the end of the list may be anything.
    pub(crate) fn word_at(&self, index: usize) -> u64
        requires { index < length (bits_of self.now) }
        ensures { (i : ℕ) → i < 64 → index + i < length (bits_of self.now) → slice_index_or (bits_of self.now) (index + i) false ≡ (bit_at result i == 1) }
    {
        let word = index / 64;
        let at = index % 64;
        let low = self.words[word];
        if at == 0 || word + 1 >= self.words.len() {
            return low >> at;
        }
        joined(low, self.words[word + 1], at)
    }

    /// Adds a bit.
    ///
    /// # Errors
    /// Returns [`AllocError`] if an allocation fails. Then the bits are as before.
    pub(crate) fn push(&mut self, bit: bool) -> Result<(), AllocError>
        requires { length (bits_of self.old) < 2 ^ 62 }
        ensures bits { IfOk result (λ _. bits_of self.new ≡ bits_of self.old ++ bit ∷ []) }
        ensures kept { IfErr result (λ _. bits_of self.new ≡ bits_of self.old) }
        ensures words { words_of self.new ≤ max (words_of self.old) (length (bits_of self.old) / 64 + 1) }
    {
        self.make_room()?;
        let index = self.len / 64;
        self.words[index] = with_bit(self.words[index], self.len % 64, bit);
        self.len += 1;
        Ok(())
    }

    /// Makes room for one more bit.
    ///
    /// # Errors
    /// Returns [`AllocError`] if an allocation fails.
    fn make_room(&mut self) -> Result<(), AllocError>
        requires { length (bits_of self.old) < 2 ^ 62 }
        ensures bits { bits_of self.new ≡ bits_of self.old }
        ensures room { IfOk result (λ _. length (bits_of self.old) < 64 * words_of self.new) }
        ensures words { words_of self.new ≤ max (words_of self.old) (length (bits_of self.old) / 64 + 1) }
    {
        if self.len / 64 < self.words.len() {
            return Ok(());
        }
        self.grow()?;
        self.words.push(0)?;
        Ok(())
    }

    /// Makes room for one more word.
    ///
    /// # Errors
    /// Returns [`AllocError`] if an allocation fails.
    fn grow(&mut self) -> Result<(), AllocError>
        ensures bits { bits_of self.new ≡ bits_of self.old }
        ensures words { words_of self.new ≡ words_of self.old }
    {
        let words = self.words.len();
        if words < self.words.capacity() {
            return Ok(());
        }
        let more = if words < self.few {
            words
        } else {
            self.most.saturating_sub(words)
        };
        self.words.reserve_exact(more.max(1))
    }

    /// Keeps only the first `count` bits.
    pub(crate) fn truncate(&mut self, count: usize)
        requires { count ≤ length (bits_of self.old) }
        ensures bits { bits_of self.new ≡ take count (bits_of self.old) }
        ensures words { words_of self.new ≡ words_of self.old }
    {
        self.len = count;
    }
}

/// Returns the bits of a word from one on, and after them the first bits of another.
fn joined(word: u64, next: u64, at: usize) -> u64
    requires some { 0 < at }
    requires inside { at < 64 }
    ensures near { (i : ℕ) → at + i < 64 → bit_at result i ≡ bit_at word (at + i) }
    ensures far { (i : ℕ) → i < 64 → 64 ≤ at + i → bit_at result i ≡ bit_at next (at + i - 64) }
{
    (word >> at) | (next << (64 - at))
}

/// Returns the first `count` bits of a word, or all.
pub(crate) fn low_bits(word: u64, count: usize) -> u64
    ensures { (i : ℕ) → i < 64 → i < count → bit_at result i ≡ bit_at word i }
{
    if count < 64 {
        word & ((1u64 << count) - 1)
    } else {
        word
    }
}

/// Returns a word with one bit changed.
pub(crate) fn with_bit(word: u64, at: usize, bit: bool) -> u64
    requires { at < 64 }
    ensures same { bit_at result at ≡ (if bit then 1 else 0) }
    ensures other { (i : ℕ) → i < 64 → i ≢ at → bit_at result i ≡ bit_at word i }
{
    let mask = 1u64 << at;
    if bit { word | mask } else { word & !mask }
}
