//! Characters of a class with the flag v.
ghost use Rattle.std.specs.Prelude.{◌≡◌, ◌||◌, not, IfOk};
ghost use Rattle.regress_classes.specs.ClassSets.{is_set_syntax, is_double, begins_double, begins_pair, is_reserved, escaped_character_at, set_character_at};
ghost use Rattle.regress_lexer.specs.Fault.{FailsByNoLimit};
ghost use Rattle.regress_lexer.specs.Reads.{ParsesWithoutAllocating};
ghost use Rattle.regress_lexer.specs.Source.{IsCodePoint};
ghost use Rattle.regress_lexer.specs.Views.{source};

use crate::parameters::Parameters;
use regress_lexer::Dialect;
use regress_lexer::cursor::Cursor;
use regress_lexer::digits::is_letter;
use regress_lexer::escape::{escape_fault, parse_escape};
use regress_lexer::fault::{Fault, FaultKind, rejected};

/// Parses a character (dialect of ECMA-262, ClassSetCharacter). Fails if the code point is no literal, or if the
/// backslash starts no character escape.
pub(super) fn parse_set_character(
    cursor: &mut Cursor,
    parameters: &Parameters,
) -> Result<u32, Fault>
    ensures value { ParsesWithoutAllocating (λ c. c) (source cursor.new) result (set_character_at parameters.now (source cursor.old)) }
    ensures in_range { IfOk result IsCodePoint }
    ensures kind { FailsByNoLimit result }
{
    let begin = cursor.rest.len();
    if cursor.try_consume('\\') {
        return read_escaped_character(cursor, parameters.unicode, begin);
    }
    match cursor.rest.split_first() {
        Some((c, rest)) if is_literal(*c, rest, parameters.dialect) => {
            cursor.rest = rest;
            Ok(*c)
        }
        _ => Err(cursor.reject(FaultKind::InvalidSetCharacter)),
    }
}

/// Returns whether the code point is a literal before `rest`.
fn is_literal(c: u32, rest: &[u32], dialect: Dialect) -> bool
    ensures { result ≡ not (is_set_syntax c || begins_pair dialect c rest.now) }
{
    !is_set_syntax(c) && !begins_pair(c, rest, dialect)
}

/// Returns whether `c` before `rest` begins two literals that may not follow each other.
fn begins_pair(c: u32, rest: &[u32], dialect: Dialect) -> bool
    ensures { result ≡ begins_pair dialect c rest.now }
{
    if !is_double(c) {
        return false;
    }
    if dialect.reserves_pairs() {
        begins_double(rest)
    } else {
        rest.first() == Some(&c)
    }
}

/// Parses a character escape after its backslash. `begin` is the number of code points that remained before the
/// backslash.
pub(super) fn read_escaped_character(
    cursor: &mut Cursor,
    unicode: bool,
    begin: usize,
) -> Result<u32, Fault>
    ensures value { ParsesWithoutAllocating (λ c. c) (source cursor.new) result (escaped_character_at unicode (source cursor.old)) }
    ensures in_range { IfOk result IsCodePoint }
    ensures kind { FailsByNoLimit result }
{
    let Some((c, rest)) = cursor.rest.split_first() else {
        return Err(rejected(begin, FaultKind::IncompleteSetEscape));
    };
    let c = *c;
    if c == u32::from('b') {
        cursor.rest = rest;
        return Ok(8);
    }
    if is_reserved(c) {
        cursor.rest = rest;
        return Ok(c);
    }
    let Some((point, after)) = parse_escape(cursor.rest, unicode) else {
        return Err(rejected(begin, escape_fault(cursor.rest)));
    };
    cursor.rest = after;
    Ok(point)
}

/// Returns whether the code point is a literal only after a backslash, or never.
pub(super) fn is_set_syntax(c: u32) -> bool
    ensures { result ≡ is_set_syntax c }
{
    !is_letter(c)
        && matches!(
            char::from_u32(c),
            Some('(' | ')' | '[' | ']' | '{' | '}' | '/' | '-' | '|' | '\\')
        )
}

/// Returns whether the code point is a literal that may not be followed by itself, and in some dialects by no other of
/// these.
pub(super) fn is_double(c: u32) -> bool
    ensures { result ≡ is_double c }
{
    !is_letter(c)
        && matches!(
            char::from_u32(c),
            Some(
                '&' | '!'
                    | '#'
                    | '$'
                    | '%'
                    | '*'
                    | '+'
                    | ','
                    | '.'
                    | ':'
                    | ';'
                    | '<'
                    | '='
                    | '>'
                    | '?'
                    | '@'
                    | '^'
                    | '`'
                    | '~'
            )
        )
}

fn begins_double(source: &[u32]) -> bool
    ensures { result ≡ begins_double source.now }
{
    match source {
        [c, ..] => is_double(*c),
        [] => false,
    }
}

/// Returns whether the code point is a literal after a backslash, besides the escapes outside classes (ECMA-262,
/// ClassSetReservedPunctuator).
fn is_reserved(c: u32) -> bool
    ensures { result ≡ is_reserved c }
{
    matches!(
        char::from_u32(c),
        Some('&' | '-' | '!' | '#' | '%' | ',' | ':' | ';' | '<' | '=' | '>' | '@' | '`' | '~')
    )
}
