//! A set of ASCII characters as a bitmap of 16 bytes.

ghost use Rattle.std.specs.Prelude.{◌≡◌, ℕ, ◌≤◌, ◌==◌, ◌||◌, false};
ghost use Rattle.regress_base.specs.AsciiBitmap.{ascii_contains};
ghost use Rattle.regress_base.specs.AsciiLemmas.{ascii_contains-bytes_only};

use super::debug_list::write_members;
use super::searcher::ByteSet;
use std::fmt;

/// The number of bits in a cell of the bitmap.
const CELL_BITS: u8 = 8;

/// The greatest byte that is an ASCII character.
const ASCII_MAX: u8 = 0x7F;

/// A set of ASCII characters. Bit `b % 8` of cell `b / 8` is set if and only if byte `b` is a member. No byte above 127
/// is a member.
#[derive(Clone, Copy)]
pub struct AsciiBitmap(pub [u8; 16]);

impl AsciiBitmap {
    /// Adds one character.
    ///
    /// # Preconditions
    /// `val` is at most 127.
    pub fn set(&mut self, val: u8)
        requires { val ≤ 127 }
        ensures { (b : ℕ) → ascii_contains self.new b ≡ (b == val || ascii_contains self.old b) }
    {
        self.0[(val / CELL_BITS) as usize] |= 1 << (val % CELL_BITS);
    }
}

impl Default for AsciiBitmap {
    ghost is_default = { λ s. (b : ℕ) → ascii_contains s b ≡ false };

    /// Returns the empty set.
    fn default() -> AsciiBitmap {
        AsciiBitmap([0; 16])
    }
}

impl ByteSet for AsciiBitmap {
    ghost members = { ascii_contains };

    fn contains(&self, val: u8) -> bool {
        val <= ASCII_MAX && self.0[(val / CELL_BITS) as usize] & (1 << (val % CELL_BITS)) != 0
    }

    ghost bytes_only = { ascii_contains-bytes_only };
}

impl fmt::Debug for AsciiBitmap {
    fn fmt<W: fmt::Write>(&self, f: &mut fmt::Formatter<W>) -> fmt::Result {
        write_members(f, "AsciiBitmap", |b| self.contains(b))
    }
}
