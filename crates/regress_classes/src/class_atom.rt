//! Parses the atoms of a class without the flag v.
ghost use Rattle.std.specs.Prelude.{◌≡◌, ◌∷◌, ◌&&◌, ◌==◌, Some, IfOk};
ghost use Rattle.regress_lexer.specs.Dialects.{reserves_k};
ghost use Rattle.regress_classes.specs.ClassProductions.{set, class_members, class_atom_at, class_escape_at, class_control_at, class_property_at};
ghost use Rattle.regress_lexer.specs.Source.{char};
ghost use Rattle.regress_lexer.specs.Fault.{FailsByNoLimit};
ghost use Rattle.regress_lexer.specs.Reads.{Reads};
ghost use Rattle.regress_classes.specs.ClassViews.{class_atom_of, IsClassAtomInRange};
ghost use Rattle.regress_lexer.specs.Views.{source};
ghost use Rattle.regress_unicode.specs.TableOf.{table_of};

use crate::class_escape::{class_escape_set, class_letter};
use crate::closing::close;
use crate::parameters::Parameters;
use crate::property::{Property, is_property_letter, parse_property};
use regress_base::charclasses::CharacterClassType;
use regress_base::codepointset::CodePointSet;
use regress_lexer::cursor::Cursor;
use regress_lexer::digits::{control, is_decimal, is_letter};
use regress_lexer::escape::{escape_fault, parse_character_escape};
use regress_lexer::fault::{Fault, FaultKind, rejected};
use regress_unicode::Tables;
use std::alloc::{AllocError, Global};

/// An atom of a class.
#[derive(Drop)]
pub enum ClassAtom {
    /// A code point.
    Point(u32),
    /// A class escape, or its complement.
    Class {
        /// The kind of class: digits, white space or word characters.
        kind: CharacterClassType,
        /// Whether the escape is that of the complement: `\D`, `\S` or `\W`.
        negated: bool,
    },
    /// A set of code points, or its complement: a property, or a class escape that is closed under case folding.
    Set {
        /// The code points.
        set: CodePointSet,
        /// Whether the escape is that of the complement, as `\P`.
        negated: bool,
    },
}

/// Parses an atom of a class (ECMA-262, ClassAtom, with annex B).
///
/// `opened` is the number of code points that remained before the `[` of the class.
///
/// # Errors
/// - [`Fault::Rejected`] if the next code point is `]`, if none remains, or if an escape or a property is invalid.
/// - [`Fault::Memory`] if an allocation fails.
///
/// After an error the position of `cursor` is unspecified.
pub fn read_class_atom(
    cursor: &mut Cursor,
    tables: &Tables,
    parameters: &Parameters,
    opened: usize,
) -> Result<ClassAtom, Fault>
    ensures value { Reads class_atom_of (source cursor.new) result (class_atom_at (table_of tables.now) parameters.now (source cursor.old)) }
    ensures in_range { IfOk result IsClassAtomInRange }
    ensures kind { FailsByNoLimit result }
{
    let begin = cursor.rest.len();
    match cursor.next() {
        Some(c) if c == u32::from('\\') => read_escaped_atom(cursor, tables, parameters, begin),
        Some(c) if c != u32::from(']') => Ok(ClassAtom::Point(c)),
        _ => Err(rejected(opened, FaultKind::UnbalancedBracket)),
    }
}

/// Parses an escape after its backslash (ECMA-262, ClassEscape, with annex B). `begin` is the number of code points
/// that remained before the backslash.
fn read_escaped_atom(
    cursor: &mut Cursor,
    tables: &Tables,
    parameters: &Parameters,
    begin: usize,
) -> Result<ClassAtom, Fault>
    ensures value { Reads class_atom_of (source cursor.new) result (class_escape_at (table_of tables.now) parameters.now (source cursor.old)) }
    ensures in_range { IfOk result IsClassAtomInRange }
    ensures kind { FailsByNoLimit result }
{
    let Some((c, rest)) = cursor.rest.split_first() else {
        return Err(rejected(begin, FaultKind::UnterminatedEscape));
    };
    let c = *c;
    let unicode = parameters.unicode;
    if let Some((kind, negated)) = class_letter(c) {
        cursor.rest = rest;
        Ok(escape_atom(cursor.alloc, kind, negated, tables, parameters)?)
    } else if c == u32::from('b') {
        cursor.rest = rest;
        Ok(ClassAtom::Point(8))
    } else if c == u32::from('-') && unicode {
        cursor.rest = rest;
        Ok(ClassAtom::Point(c))
    } else if c == u32::from('c') && !unicode {
        let (atom, after) = class_control(cursor.rest, rest);
        cursor.rest = after;
        Ok(atom)
    } else if is_property_letter(c) && unicode {
        cursor.rest = rest;
        read_class_property(cursor, tables, c == u32::from('P'))
    } else if is_reserved(c, parameters) {
        Err(rejected(begin, FaultKind::InvalidEscape))
    } else {
        let Some((point, after)) = parse_character_escape(cursor.rest, parameters.dialect, unicode)
        else {
            return Err(rejected(begin, escape_fault(cursor.rest)));
        };
        cursor.rest = after;
        Ok(ClassAtom::Point(point))
    }
}

/// Returns the atom of a class escape, or of its complement if `negated`.
fn escape_atom(
    alloc: Global,
    kind: CharacterClassType,
    negated: bool,
    tables: &Tables,
    parameters: &Parameters,
) -> Result<ClassAtom, AllocError>
    ensures value { IfOk result (λ atom. class_atom_of atom ≡ set (class_members (table_of tables.now) parameters.now (kind, negated))) }
    ensures in_range { IfOk result IsClassAtomInRange }
{
    if !parameters.closes() {
        return Ok(ClassAtom::Class { kind, negated });
    }
    let set = close(class_escape_set(alloc, kind)?, tables, parameters)?;
    Ok(ClassAtom::Set { set, negated })
}

/// Returns whether `c` is the `k` of `\k`, and that is an error in a class.
fn is_reserved(c: u32, parameters: &Parameters) -> bool
    ensures { result ≡ (c == char "k" && parameters.now.named && reserves_k parameters.now.dialect) }
{
    c == u32::from('k') && parameters.named && parameters.dialect.reserves_k()
}

/// Parses a property of code points after its `\p` or `\P`.
fn read_class_property(
    cursor: &mut Cursor,
    tables: &Tables,
    negated: bool,
) -> Result<ClassAtom, Fault>
    ensures value { Reads class_atom_of (source cursor.new) result
        (class_property_at (table_of tables.now) negated (source cursor.old)) }
    ensures in_range { IfOk result IsClassAtomInRange }
    ensures kind { FailsByNoLimit result }
{
    match parse_property(cursor, false, tables)? {
        Property::Points(set) => Ok(ClassAtom::Set { set, negated }),
        Property::Strings(_) => Err(cursor.reject(FaultKind::InvalidProperty)),
    }
}

/// Returns the atom that `\c` starts: with a letter, a digit or `_` the low five bits of its code, else a literal
/// backslash.
fn class_control<'a>(source: &'a [u32], rest: &'a [u32]) -> (ClassAtom, &'a [u32])
    requires { source.now ≡ char "c" ∷ rest.now }
    ensures value { Some (class_atom_of result.0, result.1.now) ≡ class_control_at rest.now }
    ensures in_range { IsClassAtomInRange result.0 }
{
    match rest.split_first() {
        Some((d, after)) if is_letter(*d) || is_decimal(*d) || *d == u32::from('_') => {
            (ClassAtom::Point(control(*d)), after)
        }
        _ => (ClassAtom::Point(u32::from('\\')), source),
    }
}
