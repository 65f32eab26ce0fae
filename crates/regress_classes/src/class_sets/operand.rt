//! Operands of a class with the flag v.
ghost use Rattle.std.specs.Prelude.{◌≡◌, true, All, IfOk, List};
ghost use Rattle.regress_base.specs.Intervals.{Bounds};
ghost use Rattle.regress_classes.specs.ClassProductions.{class_members, closed_members, complement_if};
ghost use Rattle.regress_classes.specs.ClassSets.{Operand as Written, only, value_of, closed_value_of, value_of_strings, property_operand_at, escaped_operand_at};
ghost use Rattle.regress_lexer.specs.Fault.{FailsByNoLimit};
ghost use Rattle.regress_lexer.specs.Reads.{ParsesAs};
ghost use Rattle.regress_lexer.specs.Source.{IsCodePoint};
ghost use Rattle.regress_classes.specs.ClassViews.{HasMembers, strings_of, IsValue, IsOperand};
ghost use Rattle.regress_lexer.specs.Views.{source};
ghost use Rattle.regress_unicode.specs.TableOf.{table_of};

use super::OperandContext;
use super::character::read_escaped_character;
use super::strings::read_quoted;
use super::value::Value;
use crate::class_escape::{class_escape_set, class_letter};
use crate::closing::close;
use crate::property::{Property, is_property_letter, parse_property};
use regress_base::charclasses::CharacterClassType;
use regress_base::codepointset::CodePointSet;
use regress_base::sets::set_is_canonical;
use regress_lexer::cursor::Cursor;
use regress_lexer::fault::{Fault, FaultKind, rejected};
use std::alloc::{AllocError, Global};

/// A character, which may be an end of a range, or a set of code points and strings.
#[derive(Drop)]
pub enum Operand {
    /// One code point.
    Character(u32),
    /// A set: a nested class, a class escape, a property, or the strings of `\q{..}`.
    Class(Value),
}

impl Operand {
    /// Returns the contents of the operand.
    fn into_value(self, alloc: Global) -> Result<Value, AllocError>
        requires { (operand : Written) × IsOperand self operand }
        ensures { IfOk result (λ held. (operand : Written) → IsOperand self operand → IsValue held (value_of operand)) }
    {
        match self {
            Operand::Character(c) => Value::of_point(alloc, c),
            Operand::Class(value) => Ok(value),
        }
    }

    /// Returns the contents of the operand as operators have them.
    #[inline(always)]
    pub(super) fn into_closed_value(
        self,
        alloc: Global,
        around: &OperandContext,
    ) -> Result<Value, AllocError>
        requires { (operand : Written) × IsOperand self operand }
        ensures { IfOk result (λ held. (operand : Written) → IsOperand self operand →
            IsValue held (closed_value_of (table_of around.now.tables.now) around.now.parameters.now operand)) }
    {
        self.into_value(alloc)?
            .into_closed(around.tables, around.parameters)
    }
}

/// Parses an escape after its backslash. `begin` is the number of code points that remained before the backslash.
pub(super) fn read_escaped_operand(
    cursor: &mut Cursor,
    around: &OperandContext,
    begin: usize,
) -> Result<Operand, Fault>
    ensures value { ParsesAs IsOperand (source cursor.new) result
        (escaped_operand_at (table_of around.now.tables.now) around.now.parameters.now around.now.negated (source cursor.old)) }
    ensures kind { FailsByNoLimit result }
{
    let Some((c, rest)) = cursor.rest.split_first() else {
        return Err(rejected(begin, FaultKind::IncompleteSetEscape));
    };
    let c = *c;
    if let Some((kind, negated)) = class_letter(c) {
        cursor.rest = rest;
        Ok(Operand::Class(class_value(cursor.alloc, kind, negated, around)?))
    } else if c == u32::from('q') {
        cursor.rest = rest;
        read_quoted(cursor, around.parameters, begin)
    } else if is_property_letter(c) {
        cursor.rest = rest;
        read_property_operand(cursor, around, c == u32::from('P'), begin)
    } else {
        let character = read_escaped_character(cursor, around.parameters.unicode, begin)?;
        Ok(Operand::Character(character))
    }
}

/// Returns a class escape, or its complement if `negated`.
fn class_value(
    alloc: Global,
    kind: CharacterClassType,
    negated: bool,
    around: &OperandContext,
) -> Result<Value, AllocError>
    ensures { IfOk result (λ held. IsValue held (only (class_members (table_of around.now.tables.now) around.now.parameters.now (kind, negated)))) }
{
    point_value(alloc, class_escape_set(alloc, kind)?, negated, around)
}

/// Parses a property after its `\p` or `\P`.
fn read_property_operand(
    cursor: &mut Cursor,
    around: &OperandContext,
    negated: bool,
    begin: usize,
) -> Result<Operand, Fault>
    ensures value { ParsesAs IsOperand (source cursor.new) result
        (property_operand_at (table_of around.now.tables.now) around.now.parameters.now around.now.negated negated (source cursor.old)) }
    ensures kind { FailsByNoLimit result }
{
    match parse_property(cursor, true, around.tables)? {
        Property::Points(set) => {
            set_is_canonical(&set);
            let value = point_value(cursor.alloc, set, negated, around)?;
            Ok(Operand::Class(value))
        }
        Property::Strings(strings) => {
            if around.negated || negated {
                return Err(rejected(begin, FaultKind::InvalidEscape));
            }
            let value = string_value(cursor.alloc, &strings)?;
            Ok(Operand::Class(value))
        }
    }
}

/// Returns these code points, or their complement if `negated`. They are closed before.
fn point_value(
    alloc: Global,
    set: CodePointSet,
    negated: bool,
    around: &OperandContext,
) -> Result<Value, AllocError>
    ensures { IfOk result (λ held. (members : List Bounds) → HasMembers members set →
        IsValue held (only (complement_if negated (closed_members (table_of around.now.tables.now) around.now.parameters.now members)))) }
{
    let closed = close(set, around.tables, around.parameters)?;
    let set = complement_if(closed, negated)?;
    Ok(Value::of_set(alloc, set))
}

/// Returns the set, or its complement if `negated`.
#[inline(always)]
fn complement_if(set: CodePointSet, negated: bool) -> Result<CodePointSet, AllocError>
    ensures { IfOk result (λ other. (members : List Bounds) → HasMembers members set → HasMembers (complement_if negated members) other) }
{
    if negated { set.inverted() } else { Ok(set) }
}

/// Returns a property of strings.
fn string_value(alloc: Global, strings: &[Vec<u32>]) -> Result<Value, AllocError>
    requires { All (All IsCodePoint) (strings_of strings.now) }
    ensures { IfOk result (λ held. IsValue held (value_of_strings (strings_of strings.now))) }
{
    let mut value = Value::new(alloc);
    for string in strings {
        value.add_string(Vec::from_slice(alloc, string.as_slice())?)?;
    }
    Ok(value)
}
