//! A set of bytes as a bitmap of 32 bytes.

ghost use Rattle.std.specs.Prelude.{◌≡◌, ℕ, ◌<◌, ◌≤◌, ◌-◌, ◌==◌, ◌||◌, ◌&&◌, ◌++◌, ◌↔◌, false, not, nat_le, nat_lt, IsTrue, replicate};
ghost use Rattle.std.proofs.Common.{rules};
ghost use Rattle.std.specs.Int.{bit_at};
ghost use Rattle.std.specs.Cmp.Rules.{comparing};
ghost use Rattle.regress_base.specs.ByteBitmap.{contains, same_members};
ghost use Rattle.regress_base.specs.ByteSets.{bytes_of, members_of, member_count, SameMembers};
ghost use Rattle.regress_base.specs.Positions.{IsMemberAt};

use super::debug_list::write_members;
use super::find::find_byte;
use super::searcher::ByteSearcher;
use std::fmt;

/// The number of words in the bitmap.
const WORDS: usize = 16;

/// The number of bits in a word.
const WORD_BITS: u8 = 16;

/// A set of bytes. Bit `b % 16` of word `b / 16` is set if and only if byte `b` is a member.
#[derive(Clone, Copy)]
pub struct ByteBitmap {
    words: [u16; WORDS],
}

impl ByteBitmap {
    /// Returns the set of the bytes of a list, which may contain a byte more than once.
    pub fn new(bytes: &[u8]) -> ByteBitmap
        ensures { SameMembers (contains result) (bytes_of bytes.now) }
    {
        let mut bitmap = ByteBitmap::default();
        for b in bytes {
            bitmap.set(*b);
        }
        bitmap
    }

    /// Returns whether `val` is a member.
    pub fn contains(&self, val: u8) -> bool
        ensures { result ≡ contains self.now val }
    {
        self.words[(val / WORD_BITS) as usize] & (1 << (val % WORD_BITS)) != 0
    }

    /// Adds one byte.
    pub fn set(&mut self, val: u8)
        ensures { (b : ℕ) → contains self.new b ≡ (b == val || contains self.old b) }
    {
        self.words[(val / WORD_BITS) as usize] |= 1 << (val % WORD_BITS);
    }

    /// Adds the bytes from `first` to `last`, both included: whole words at a time, with a mask at each end.
    pub(crate) fn set_run(&mut self, first: u8, last: u8)
        ensures { (b : ℕ) → contains self.new b ≡ ((nat_le first b && nat_le b last) || contains self.old b) }
    {
        let (start, end) = (first / WORD_BITS, last / WORD_BITS);
        for word in start..end + 1 {
            let low = if word == start { first % WORD_BITS } else { 0 };
            let high = if word == end {
                last % WORD_BITS
            } else {
                WORD_BITS - 1
            };
            self.words[word as usize] |= bits_between(low, high);
        }
    }

    /// Adds the members of `rhs`.
    pub fn bitor(&mut self, rhs: &ByteBitmap)
        ensures { (b : ℕ) → contains self.new b ≡ (contains self.old b || contains rhs.now b) }
    {
        for i in 0..WORDS {
            self.words[i] |= rhs.words[i];
        }
    }

    /// Replaces the set by its complement within all bytes, and returns a reference to it.
    pub fn bitnot(&mut self) -> &mut Self
        ensures same_bitmap { result.ghost_name ≡ self.entry.ghost_name }
        ensures complement { (b : ℕ) → contains result.now b ≡ (nat_lt b 256 && not (contains self.old b)) }
    {
        for i in 0..WORDS {
            self.words[i] = !self.words[i];
        }
        self
    }

    /// Returns the number of members, at most 256.
    pub fn count_bits(&self) -> u32
        ensures members { result ≡ member_count (contains self.now) }
        ensures bound { result ≤ 256 }
    {
        let mut count = 0;
        for word in self.words.iter() {
            count += word.count_ones();
        }
        count
    }

    /// Returns the members, ascending, followed by zeros.
    ///
    /// # Preconditions
    /// The set has at most `N` members.
    pub fn as_array<const N: usize>(&self) -> [u8; N]
        requires { member_count (contains self.now) ≤ N }
        ensures { result ≡ members_of (contains self.now) ++ replicate (N - member_count (contains self.now)) 0 }
    {
        let mut array = [0; N];
        let mut len = 0;
        for b in 0..=u8::MAX {
            if self.contains(b) {
                array[len] = b;
                len += 1;
            }
        }
        array
    }
}

// Returns the word with exactly the bits from `low` to `high` set, both included.
fn bits_between(low: u8, high: u8) -> u16
    requires low { low < 16 }
    requires high { high < 16 }
    ensures { (k : ℕ) → k < 16 → (bit_at result k == 1) ≡ (nat_le low k && nat_le k high) }
{
    (u16::MAX << low) & (u16::MAX >> (WORD_BITS - 1 - high))
}

impl Default for ByteBitmap {
    ghost is_default = { λ s. (b : ℕ) → contains s b ≡ false };

    /// Returns the empty set.
    fn default() -> ByteBitmap {
        ByteBitmap { words: [0; WORDS] }
    }
}

impl PartialEq for ByteBitmap {
    ghost eq = { same_members };

    ghost laws = { Prim.search (comparing, rules) };

    /// Returns whether both sets have the same members.
    fn eq(&self, other: &ByteBitmap) -> bool
        ensures value { result ≡ same_members self.now other.now }
        ensures members { IsTrue result ↔ SameMembers (contains self.now) (contains other.now) }
    {
        for i in 0..WORDS {
            if self.words[i] != other.words[i] {
                return false;
            }
        }
        true
    }
}

impl Eq for ByteBitmap {
    ghost laws = { Prim.search (comparing, rules) };
}

impl ByteSearcher for ByteBitmap {
    ghost has_bytes_at = { λ set. IsMemberAt (contains set) };

    fn find_in(&self, rhs: &[u8]) -> Option<usize> {
        find_byte(rhs, |b| self.contains(b))
    }
}

impl fmt::Debug for ByteBitmap {
    fn fmt<W: fmt::Write>(&self, f: &mut fmt::Formatter<W>) -> fmt::Result {
        write_members(f, "ByteBitmap", |b| self.contains(b))
    }
}
