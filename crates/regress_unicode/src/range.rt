//! A range of code points in one word.
ghost use Rattle.std.specs.Prelude.{◌≡◌, ℕ, ◌+◌, ◌-◌, ◌*◌, ◌/◌, ◌%◌, ◌^◌, ◌<◌, ◌≤◌};

use std::marker::Model;

/// The number of low bits that contain the number of code points minus one. The first code point is in the bits above
/// them.
const LENGTH_BITS: u32 = 12;

/// A range of code points, packed into one word: the first one, and the number of them, from 1 to 4096.
///
/// The end of the range, exclusive, is below 2^20, so no code point of plane 16 can be in it.
#[derive(Clone, Copy, Debug)]
pub struct CodePointRange(u32);

impl Model for CodePointRange {
    ghost use Rattle.std.specs.Prelude.{◌+◌, ◌-◌, ◌*◌, ◌/◌, ◌%◌};
    ghost use Rattle.std.proofs.Common.{ap, arith};
    ghost use Rattle.regress_unicode.specs.ValidEntries.{IsPackable};
    ghost use Rattle.regress_unicode.specs.FoldEntries.{Span};

    ghost Value = { Span };

    ghost view = { λ r. record { start = r.0 / 4096; length = r.0 % 4096 + 1 } };

    ghost invariant = { λ r. IsPackable (r.0 / 4096) (r.0 % 4096 + 1) };

    ghost inverse = { λ span. record { 0 = span.start * 4096 + (span.length - 1) } };

    ghost inverse_ok = { λ r h. ap (λ n. record { 0 = n }) (Prim.omega arith) };
}

impl CodePointRange {
    /// Returns the range of `len` code points from `start` on.
    ///
    /// # Preconditions
    /// `len` is from 1 to 4096, and `start + len` is below 2^20.
    pub const fn from(start: u32, len: u32) -> Self
        requires nonempty { 1 ≤ len }
        requires short { len ≤ 4096 }
        requires low { start + len < 2 ^ 20 }
        ensures { result ≡ record { start = start; length = len } }
    {
        CodePointRange((start << LENGTH_BITS) | (len - 1))
    }

    /// Returns the first code point.
    pub const fn first(self) -> u32
        ensures value { result ≡ self.start }
        ensures low { result + self.length < 2 ^ 20 }
    {
        self.0 >> LENGTH_BITS
    }

    /// Returns the last code point, which is in the range.
    pub const fn last(self) -> u32
        ensures value { result + 1 ≡ self.start + self.length }
        ensures low { result < 2 ^ 20 - 1 }
    {
        self.first() + self.len_minus_1()
    }

    /// Returns the number of code points minus one.
    const fn len_minus_1(self) -> u32
        ensures { result + 1 ≡ self.length }
    {
        self.0 & ((1 << LENGTH_BITS) - 1)
    }
}
