//! The request that a call's arguments make.
ghost use Rattle.std.specs.Prelude.{◌≡◌, ◌≤◌, ◌↔◌, All, chars, IsTrue, IfOk, OnErr, MatchOption};
ghost use Rattle.regress_front.specs.Intervals.{code_point_max};
ghost use Rattle.regress_front.specs.TableOf.{table_of};
ghost use Rattle.regress_lexer.specs.declared.dialect.Dialect.TheVariants.{Regress};
ghost use Rattle.regress_capi.specs.Request.{dialect_of, flags_of, front_dialect, front_setting, table_by, AreCompileBits, AreOptions, IsRequest, IsTextRequest};

use regress::Dialect;
use regress_front::codepointset::CODE_POINT_MAX;
use regress_front::types::Flags;
use regress_front::unicode::Tables;
use regress_front::util::code_points;
use regress_ucd::unicode_tables;
use std::alloc::{AllocError, Global};

const ICASE: u32 = 1;

const MULTILINE: u32 = 2;

const DOT_ALL: u32 = 4;

const UNICODE: u32 = 8;

const UNICODE_SETS: u32 = 16;

const SMALL_TABLE: u32 = 32;

const DIALECT_REGRESS: u32 = 0x2_0000;

const DIALECT_ECMA: u32 = 0x4_0000;

const FRONT_BITS: u32 = 0x4_003F;

const COMPILE_BITS: u32 = 0x2_003F;

/// Returns whether `pattern` consists of code points, `bits` of known flags and the dialect, and `choice` is 0 or 1.
pub(crate) fn is_request(pattern: &[u32], bits: u32, choice: u32) -> bool
    ensures { IsTrue result ↔ IsRequest pattern.now bits choice }
{
    pattern.iter().all(|c| *c <= CODE_POINT_MAX) && are_options(bits, choice)
}

/// Returns whether `bits` consists of known flags and the dialect, and `choice` is 0 or 1.
pub(crate) fn are_options(bits: u32, choice: u32) -> bool
    ensures { IsTrue result ↔ AreOptions bits choice }
{
    bits & FRONT_BITS == bits && choice < 2
}

/// Returns whether `bits` consists of known flags and the dialect, for a call that compiles.
pub(crate) fn are_compile_bits(bits: u32) -> bool
    ensures { IsTrue result ↔ AreCompileBits bits }
{
    bits & COMPILE_BITS == bits
}

/// Returns the code points of a pattern in UTF-8; `None` if it is not UTF-8 or the options are invalid.
pub(crate) fn read_points(
    alloc: Global,
    pattern: &[u8],
    bits: u32,
    choice: u32,
) -> Result<Option<Vec<u32>>, AllocError>
    ensures points { IfOk result (λ found. MatchOption found (IsTextRequest pattern.now bits choice → ⊥) (λ points.
        IsTextRequest pattern.now bits choice × (points.items ≡ chars pattern.now) × All (λ c. c ≤ code_point_max) points.items)) }
    ensures out_of_memory { OnErr result (IsTextRequest pattern.now bits choice) }
{
    if !are_options(bits, choice) {
        return Ok(None);
    }
    match str::from_utf8(pattern) {
        Ok(text) => Ok(Some(code_points(alloc, text)?)),
        Err(_) => Ok(None),
    }
}

/// Returns the flags that are set in `bits`.
pub(crate) fn parse_flags(bits: u32) -> Flags
    ensures { result ≡ flags_of bits }
{
    Flags {
        icase: bits & ICASE != 0,
        multiline: bits & MULTILINE != 0,
        dot_all: bits & DOT_ALL != 0,
        unicode: bits & UNICODE != 0,
        unicode_sets: bits & UNICODE_SETS != 0,
    }
}

/// Returns the dialect that `bits` specifies for a call that parses.
pub(crate) fn front_dialect(bits: u32) -> Dialect
    ensures { result ≡ front_dialect bits }
{
    if bits & DIALECT_ECMA != 0 {
        Dialect::Ecma
    } else {
        Dialect::Regress
    }
}

/// Returns whether that dialect is `Regress`.
pub(crate) fn is_regress(bits: u32) -> bool
    ensures { IsTrue result ↔ (front_dialect bits ≡ Regress) }
{
    bits & DIALECT_ECMA == 0
}

/// Returns the flags in force in that dialect.
pub(crate) fn front_flags(bits: u32) -> Flags
    ensures { result ≡ (front_setting bits).flags }
{
    front_dialect(bits).flags_in_force(parse_flags(bits))
}

/// Returns the dialect that `bits` specifies for a call that compiles.
pub(crate) fn dialect_of(bits: u32) -> Dialect
    ensures { result ≡ dialect_of bits }
{
    if bits & DIALECT_REGRESS != 0 {
        Dialect::Regress
    } else {
        Dialect::Ecma
    }
}

/// Returns the table that `bits` selects.
pub(crate) fn make_tables(alloc: Global, bits: u32) -> Result<Tables, AllocError>
    ensures { IfOk result (λ tables. table_of tables ≡ table_by bits) }
{
    if bits & SMALL_TABLE != 0 {
        Tables::small(alloc)
    } else {
        unicode_tables(alloc)
    }
}
