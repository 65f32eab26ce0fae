//! Strings of a class with the flag v.
ghost use Rattle.std.specs.Prelude.{◌≡◌, ◌+◌, [], length};
ghost use Rattle.regress_classes.specs.ClassSets.{value_of_strings, strings_by, quoted_at};
ghost use Rattle.regress_lexer.specs.Fault.{FailsByNoLimit};
ghost use Rattle.regress_lexer.specs.Reads.{ParsesAs};
ghost use Rattle.regress_classes.specs.ClassViews.{IsValue, IsOperand};
ghost use Rattle.regress_lexer.specs.Views.{source};

use super::character::parse_set_character;
use super::operand::Operand;
use super::value::Value;
use crate::parameters::Parameters;
use regress_lexer::cursor::Cursor;
use regress_lexer::fault::{Fault, FaultKind, rejected};

/// Parses the strings after `\q` (ECMA-262, ClassStringDisjunction). `begin` is the number of code points that remained
/// before the backslash.
pub(super) fn read_quoted(
    cursor: &mut Cursor,
    parameters: &Parameters,
    begin: usize,
) -> Result<Operand, Fault>
    ensures value { ParsesAs IsOperand (source cursor.new) result (quoted_at parameters.now (source cursor.old)) }
    ensures kind { FailsByNoLimit result }
{
    if !cursor.try_consume('{') {
        return Err(cursor.reject(FaultKind::StringsWithoutBrace));
    }
    Ok(Operand::Class(read_strings(cursor, parameters, begin)?))
}

/// Parses strings with `|` between them, up to `}`.
fn read_strings(cursor: &mut Cursor, parameters: &Parameters, begin: usize) -> Result<Value, Fault>
    ensures value { let t = source cursor.old in
        ParsesAs (λ held strings. IsValue held (value_of_strings strings)) (source cursor.new) result (strings_by (length t + 1) parameters.now [] t) }
    ensures kind { FailsByNoLimit result }
{
    let mut value = Value::new(cursor.alloc);
    let mut string = Vec::new(cursor.alloc);
    while !cursor.is_at('}') {
        if cursor.try_consume('|') {
            value.add_string(string)?;
            string = Vec::new(cursor.alloc);
        } else if cursor.rest.is_empty() {
            return Err(rejected(begin, FaultKind::UnbalancedStrings));
        } else {
            string.push(parse_set_character(cursor, parameters)?)?;
        }
    }
    cursor.try_consume('}');
    value.add_string(string)?;
    Ok(value)
}
