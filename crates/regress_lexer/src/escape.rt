//! Parses escapes of one character.
ghost use Rattle.std.specs.Prelude.{◌≡◌, ◌≤◌, true, false, not, ◌∷◌, length, drop, Some, None, if◌then◌else◌, ◌&&◌, ◌+◌, nat_le, All, IfSome};
ghost use Rattle.regress_lexer.specs.Escapes.{
  braced_hex_at,
  unit_at,
  trail_surrogate_at,
  with_trail_surrogate,
  unicode_at,
  or_identity_escape,
  octal_digits,
  is_syntax_character,
  letter_escape,
  begins_with_digit,
  control_at,
  other_escape,
  escape_at,
  character_escape_at,
};
ghost use Rattle.regress_lexer.specs.Dialects.{has_braces};
ghost use Rattle.regress_lexer.specs.Source.{IsCodePoint, char, is_at};
ghost use Rattle.regress_lexer.specs.Fault.{is_limit};
ghost use Rattle.regress_lexer.specs.Digits as digits_spec;
ghost use Rattle.regress_lexer.specs.Reads.{returned};

use crate::dialect::Dialect;
use crate::digits::{
    Read, control, digit, hex_length, is_decimal, is_letter, is_octal, number_from, octal_length,
    parse_hex, strip_char,
};
use crate::fault::FaultKind;

/// The code points that a backslash makes literal (ECMA-262, IdentityEscape with the flag u).
const SYNTAX_CHARACTERS: [u32; 15] = [
    '^' as u32,
    '$' as u32,
    '\\' as u32,
    '.' as u32,
    '*' as u32,
    '+' as u32,
    '?' as u32,
    '(' as u32,
    ')' as u32,
    '[' as u32,
    ']' as u32,
    '{' as u32,
    '}' as u32,
    '|' as u32,
    '/' as u32,
];

/// Whether a backslash makes the code point literal.
fn is_syntax_character(c: u32) -> bool
    ensures { result ≡ is_syntax_character c }
{
    SYNTAX_CHARACTERS.contains(&c)
}

/// Parses at least one hexadecimal digit and `}`, after a `{`. The value is a code point.
#[tactic(auto, using(crate::proofs::lemmas::Digits::front_taken, crate::proofs::lemmas::Digits::after_dropped))]
fn read_braced_hex<'a>(source: &'a [u32]) -> Read<'a, u32>
    ensures { returned result ≡ braced_hex_at source.now }
{
    let (digits, rest) = source.split_at(hex_length(source));
    let rest = strip_char(rest, '}')?;
    let number = number_from(16, 0, digits);
    if digits.is_empty() || number > 0x10FFFF {
        return None;
    }
    Some((number as u32, rest))
}

/// Parses `\u` and four hexadecimal digits.
#[tactic(auto, using(crate::proofs::lemmas::Digits::drop_one_more))]
fn read_unit<'a>(source: &'a [u32]) -> Read<'a, u32>
    ensures { returned result ≡ unit_at source.now }
{
    parse_hex(strip_char(strip_char(source, '\\')?, 'u')?, 4)
}

/// Parses `\u` and four hexadecimal digits with the value of a trailing surrogate.
fn parse_trail_surrogate<'a>(source: &'a [u32]) -> Read<'a, u32>
    ensures value { returned result ≡ trail_surrogate_at source.now }
    ensures first { IfSome result (λ found. 0xDC00 ≤ found.0) }
    ensures last { IfSome result (λ found. found.0 ≤ 0xDFFF) }
{
    let (low, rest) = read_unit(source)?;
    if low < 0xDC00 || 0xDFFF < low {
        return None;
    }
    Some((low, rest))
}

/// Combines a leading surrogate with a trailing one if its escape follows (ECMA-262, UTF16SurrogatePairToCodePoint).
fn with_trail_surrogate(high: u32, source: &[u32]) -> (u32, &[u32])
    ensures { Some (result.0, result.1.now) ≡ with_trail_surrogate (high, source.now) }
{
    if high < 0xD800 || 0xDBFF < high {
        return (high, source);
    }
    match parse_trail_surrogate(source) {
        Some((low, rest)) => (0x10000 + (high - 0xD800) * 0x400 + (low - 0xDC00), rest),
        None => (high, source),
    }
}

/// Parses the rest of an escape with `\u`, after its `u` (ECMA-262, RegExpUnicodeEscapeSequence with the flag u).
///
/// The value is a code point, which may be an unpaired surrogate. The result is `None` if there is no valid escape.
#[tactic(auto, unfolding(crate::specs::Escapes::unicode_at))]
pub fn read_unicode<'a>(source: &'a [u32]) -> Read<'a, u32>
    ensures { returned result ≡ unicode_at source.now }
{
    if let Some(rest) = strip_char(source, '{') {
        return read_braced_hex(rest);
    }
    let (high, rest) = parse_hex(source, 4)?;
    Some(with_trail_surrogate(high, rest))
}

/// Returns the letter of an escape without a value: the letter itself without the flag u, and `None` with it.
fn itself<'a>(c: u32, source: &'a [u32], unicode: bool) -> Read<'a, u32>
    ensures { returned result ≡ or_identity_escape unicode c source.now None }
{
    if unicode {
        return None;
    }
    Some((c, source))
}

/// Returns how many octal digits may follow the first one, so that the value stays below 256.
fn more_octal_digits(first: u32) -> usize
    ensures { result + 1 ≡ (if nat_le first (char "3") then 3 else 2) }
{
    if first <= u32::from('3') { 2 } else { 1 }
}

/// Parses an octal number whose first digit is `c`. It has at most three digits, and its value is at most 255.
fn read_octal(c: u32, source: &[u32]) -> (u32, &[u32])
    requires { digits_spec.is_octal c ≡ true }
    ensures value { result.0 ≡ digits_spec.number 8 (octal_digits c source.now) }
    ensures rest { result.1.now ≡ drop (length (octal_digits c source.now)) (c ∷ source.now) }
{
    let (digits, rest) = source.split_at(octal_length(
        &source[..source.len().min(more_octal_digits(c))],
    ));
    (number_from(8, digit(c) as usize, digits) as u32, rest)
}

/// Returns the value of an escape of one letter (ECMA-262, ControlEscape).
fn letter_escape(c: u32) -> Option<u32>
    ensures { result ≡ letter_escape c }
{
    match char::from_u32(c)? {
        'f' => Some(0xC),
        'n' => Some(0xA),
        'r' => Some(0xD),
        't' => Some(0x9),
        'v' => Some(0xB),
        _ => None,
    }
}

fn begins_with_digit(source: &[u32]) -> bool
    ensures { result ≡ begins_with_digit source.now }
{
    match source {
        [c, ..] => is_decimal(*c),
        [] => false,
    }
}

/// Parses a letter after `\c`.
fn read_control<'a>(source: &'a [u32]) -> Read<'a, u32>
    ensures { returned result ≡ control_at source.now }
{
    match source {
        [c, rest @ ..] if is_letter(*c) => Some((control(*c), rest)),
        _ => None,
    }
}

/// Parses an escape that begins with `c` and is no control escape.
fn read_other<'a>(c: u32, source: &'a [u32], unicode: bool) -> Read<'a, u32>
    ensures { returned result ≡ other_escape unicode c source.now }
{
    if c == u32::from('c') {
        read_control(source)
    } else if c == u32::from('0') && !begins_with_digit(source) {
        Some((0, source))
    } else if c == u32::from('x') {
        parse_hex(source, 2).or(itself(c, source, unicode))
    } else if c == u32::from('u') {
        read_unicode(source).or(itself(c, source, unicode))
    } else if !unicode && is_octal(c) {
        Some(read_octal(c, source))
    } else if is_syntax_character(c) || !unicode {
        Some((c, source))
    } else {
        None
    }
}

/// Parses an escape of one character, after its backslash, and returns the code point that it denotes (ECMA-262,
/// CharacterEscape, with Annex B).
///
/// `unicode` is the flag u. The result is `None` if there is no valid escape.
#[tactic(auto, unfolding(crate::specs::Escapes::escape_at))]
pub fn parse_escape<'a>(source: &'a [u32], unicode: bool) -> Read<'a, u32>
    ensures value { returned result ≡ escape_at unicode source.now }
    ensures in_range { All IsCodePoint source.now → IfSome result (λ found. IsCodePoint found.0) }
{
    let (c, rest) = source.split_first()?;
    match letter_escape(*c) {
        Some(value) => Some((value, rest)),
        None => read_other(*c, rest, unicode),
    }
}

/// Returns whether `source`, which follows `\\u`, starts with a brace that makes no escape: then the `u` is a letter.
fn begins_lone_brace(source: &[u32], dialect: Dialect, unicode: bool) -> bool
    ensures { result ≡ (not (has_braces dialect unicode) && is_at (char "{") source.now) }
{
    match source {
        [c, ..] if *c == u32::from('{') => !dialect.has_braces(unicode),
        _ => false,
    }
}

/// Parses an escape as [`parse_escape`] does, in a dialect: where braces make no escape, a `u` before them is a letter.
pub fn parse_character_escape<'a>(
    source: &'a [u32],
    dialect: Dialect,
    unicode: bool,
) -> Read<'a, u32>
    ensures value { returned result ≡ character_escape_at dialect unicode source.now }
    ensures in_range { All IsCodePoint source.now → IfSome result (λ found. IsCodePoint found.0) }
{
    let (c, rest) = source.split_first()?;
    if *c == u32::from('u') && begins_lone_brace(rest, dialect, unicode) {
        return Some((*c, rest));
    }
    parse_escape(source, unicode)
}

/// Returns the kind of syntax error for a backslash that begins no valid escape; `source` is what follows the
/// backslash.
pub fn escape_fault(source: &[u32]) -> FaultKind
    ensures { is_limit result ≡ false }
{
    match source {
        [c, ..] if *c == u32::from('u') => FaultKind::InvalidUnicodeEscape,
        _ => FaultKind::InvalidEscape,
    }
}
