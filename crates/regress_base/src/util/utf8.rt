//! The bytes of UTF-8 (RFC 3629, section 3). Surrogates are encoded by the rule for three bytes.
ghost use Rattle.std.specs.Prelude.{◌≡◌, ℕ, ◌<◌, ◌≤◌, ◌+◌, ◌*◌, ◌%◌, ◌^◌, IsTrue, [], ◌∷◌, Some, slice_get, encode_utf8, if◌then◌else◌};
ghost use Rattle.regress_base.specs.Utf8.{is_scalar, is_continuation, IsLeadOfTwo, IsLeadOfThree, IsLeadOfFour, value_of_two, value_of_three, value_of_four};

use crate::interval::CODE_POINT_MAX;

/// Returns the character with code point `c`, or U+10FFFF if `c` is no Unicode scalar value.
pub fn to_char_sat(c: u32) -> char
    ensures { result ≡ (if is_scalar c then c else CODE_POINT_MAX) }
{
    char::from_u32(c).unwrap_or(char::MAX)
}

/// Returns the first byte of the UTF-8 encoding of `cp`. A surrogate is encoded by the rule for three bytes.
///
/// # Preconditions
/// `cp` is at most U+10FFFF.
#[tactic(auto, using(crate::proofs::Utf8Lemmas::first_of_two, crate::proofs::Utf8Lemmas::first_of_three, crate::proofs::Utf8Lemmas::first_of_four))]
pub fn utf8_first_byte(cp: u32) -> u8
    requires { cp ≤ CODE_POINT_MAX }
    ensures { slice_get (encode_utf8 cp) 0 ≡ Some result }
{
    if cp < 0x80 {
        cp as u8
    } else if cp < 0x800 {
        (0xC0 | cp >> 6) as u8
    } else if cp < 0x10000 {
        (0xE0 | cp >> 12) as u8
    } else {
        (0xF0 | cp >> 18) as u8
    }
}

/// Returns whether `b` is a continuation byte of UTF-8: its bits are 10xxxxxx.
pub fn is_utf8_continuation(b: u8) -> bool
    ensures { result ≡ is_continuation b }
{
    b & 0xC0 == 0x80
}

/// Decodes a sequence of two bytes of UTF-8.
///
/// # Preconditions
/// `b0` has the bits 110xxxxx, and `b1` is a continuation byte.
pub fn utf8_w2(b0: u8, b1: u8) -> u32
    requires lead { IsLeadOfTwo b0 }
    requires second { IsTrue (is_continuation b1) }
    ensures value { result ≡ value_of_two b0 b1 }
    ensures decodes { (c : ℕ) → encode_utf8 c ≡ b0 ∷ b1 ∷ [] → result ≡ c }
{
    continued(low_bits(b0, 5), b1)
}

/// Decodes a sequence of three bytes of UTF-8.
///
/// # Preconditions
/// `b0` has the bits 1110xxxx, and `b1` and `b2` are continuation bytes.
pub fn utf8_w3(b0: u8, b1: u8, b2: u8) -> u32
    requires lead { IsLeadOfThree b0 }
    requires second { IsTrue (is_continuation b1) }
    requires third { IsTrue (is_continuation b2) }
    ensures value { result ≡ value_of_three b0 b1 b2 }
    ensures decodes { (c : ℕ) → encode_utf8 c ≡ b0 ∷ b1 ∷ b2 ∷ [] → result ≡ c }
{
    continued(continued(low_bits(b0, 4), b1), b2)
}

/// Decodes a sequence of four bytes of UTF-8.
///
/// # Preconditions
/// `b0` has the bits 11110xxx, and `b1`, `b2` and `b3` are continuation bytes.
pub fn utf8_w4(b0: u8, b1: u8, b2: u8, b3: u8) -> u32
    requires lead { IsLeadOfFour b0 }
    requires second { IsTrue (is_continuation b1) }
    requires third { IsTrue (is_continuation b2) }
    requires fourth { IsTrue (is_continuation b3) }
    ensures value { result ≡ value_of_four b0 b1 b2 b3 }
    ensures decodes { (c : ℕ) → encode_utf8 c ≡ b0 ∷ b1 ∷ b2 ∷ b3 ∷ [] → result ≡ c }
{
    continued(continued(continued(low_bits(b0, 3), b1), b2), b3)
}

/// Appends the six low bits of a continuation byte to `bits`.
fn continued(bits: u32, b: u8) -> u32
    requires { bits < 2 ^ 24 }
    ensures { result ≡ bits * 64 + b % 64 }
{
    bits << 6 | low_bits(b, 6)
}

/// Returns the lowest `count` bits of the byte.
fn low_bits(b: u8, count: u32) -> u32
    requires { count < 8 }
    ensures { result ≡ b % 2 ^ count }
{
    u32::from(b) & ((1 << count) - 1)
}
