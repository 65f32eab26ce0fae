//! Parses properties by name.
ghost use Rattle.std.specs.Prelude.{◌≡◌, ◌==◌, ◌||◌, true, [], ◌∷◌, string_bytes, option_map, IfOk, IfSome, IfNone};
ghost use Rattle.regress_lexer.specs.Digits.{front};
ghost use Rattle.regress_classes.specs.Properties.{is_property_character, lone_value, list_named, value_in, closed_property, property_word_at, braced_property_at, property_at};
ghost use Rattle.regress_lexer.specs.Fault.{FailsByNoLimit};
ghost use Rattle.regress_lexer.specs.Reads.{Reads};
ghost use Rattle.regress_classes.specs.ClassViews.{property_of};
ghost use Rattle.regress_lexer.specs.Views.{source};
ghost use Rattle.regress_unicode.specs.TableOf.{table_of};

use regress_base::codepointset::CodePointSet;
use regress_lexer::cursor::Cursor;
use regress_lexer::digits::{Read, is_decimal, is_letter};
use regress_lexer::fault::{Fault, FaultKind, rejected};
use regress_unicode::Tables;
use std::alloc::{AllocError, Global};

/// The capacity for a word: nearly all names of Unicode fit, so a word seldom grows.
const WORD_CAPACITY: usize = 32;

/// The property that a name denotes.
#[derive(Drop)]
pub enum Property {
    /// A property of code points.
    Points(CodePointSet),
    /// A property of strings, which needs the flag v.
    Strings(Vec<Vec<u32>>),
}

/// Returns whether `c` is `p` or `P`, with which a property starts after its backslash.
pub fn is_property_letter(c: u32) -> bool
    ensures { result ≡ (c == 112 || c == 80) }
{
    c == u32::from('p') || c == u32::from('P')
}

/// Parses a property after its `\p` or `\P` (ECMA-262, UnicodePropertyValueExpression).
///
/// `sets` is the flag v, with which properties of strings are allowed. Names are looked up in `tables`. Afterwards
/// `cursor` is after the `}`.
///
/// # Errors
/// - [`Fault::Rejected`] if no `{` follows, if the braces are not closed, or if `tables` has no property of that name.
/// - [`Fault::Memory`] if an allocation fails.
///
/// After an error the position of `cursor` is unspecified.
#[tactic(auto, unfolding(crate::specs::Properties::property_at))]
pub fn parse_property(cursor: &mut Cursor, sets: bool, tables: &Tables) -> Result<Property, Fault>
    ensures value { Reads property_of (source cursor.new) result (property_at sets (table_of tables.now) (source cursor.old)) }
    ensures kind { FailsByNoLimit result }
{
    if !cursor.try_consume('{') {
        return Err(cursor.reject(FaultKind::PropertyWithoutBrace));
    }
    let name = cursor.rest.len();
    match read_braced(cursor, sets, tables)? {
        Some(property) if cursor.try_consume('}') => Ok(property),
        _ => Err(rejected(name, FaultKind::InvalidProperty)),
    }
}

/// Parses the text between the braces, and looks it up.
fn read_braced(
    cursor: &mut Cursor,
    sets: bool,
    tables: &Tables,
) -> Result<Option<Property>, AllocError>
    ensures { IfOk result (λ found. closed_property (option_map property_of found) (source cursor.new)
        ≡ braced_property_at sets (table_of tables.now) (source cursor.old)) }
{
    let Some(word) = read_word(cursor)? else {
        return Ok(None);
    };
    if !cursor.try_consume('=') {
        return Ok(lone_value(cursor.alloc, sets, tables, &word)?);
    }
    let Some(value) = read_word(cursor)? else {
        return Ok(None);
    };
    Ok(listed_value(cursor.alloc, tables, &word, &value)?)
}

/// Parses the letters, digits and low lines at the start, if there are any.
fn read_word(cursor: &mut Cursor) -> Result<Option<String>, AllocError>
    ensures { IfOk result (λ word. option_map (λ word. (string_bytes word, source cursor.new)) word ≡ property_word_at (source cursor.old)) }
{
    let mut word = Vec::with_capacity(cursor.alloc, WORD_CAPACITY)?;
    while let Some((c, rest)) = property_character(cursor.rest) {
        word.push(c)?;
        cursor.rest = rest;
    }
    if word.is_empty() {
        return Ok(None);
    }
    match String::from_utf8(word) {
        Ok(word) => Ok(Some(word)),
        Err(_) => unreachable!(),
    }
}

/// Splits off the first character, if it is a letter, a digit or a low line.
#[tactic(auto, unfolding(regress_lexer::specs::Digits::front))]
fn property_character<'a>(text: &'a [u32]) -> Read<'a, u8>
    ensures some { IfSome result (λ found. (text.now ≡ found.0 ∷ found.1.now) × (is_property_character found.0 ≡ true)) }
    ensures none { IfNone result (front is_property_character text.now ≡ []) }
{
    let (c, rest) = text.split_first()?;
    if !is_property_character(*c) {
        return None;
    }
    Some((*c as u8, rest))
}

/// Returns whether `c` is a letter, a digit or a low line.
fn is_property_character(c: u32) -> bool
    ensures { result ≡ is_property_character c }
{
    is_letter(c) || is_decimal(c) || c == u32::from('_')
}

/// Looks up a binary property, with the flag v one of strings, or a general category.
fn lone_value(
    alloc: Global,
    sets: bool,
    tables: &Tables,
    name: &str,
) -> Result<Option<Property>, AllocError>
    ensures { IfOk result (λ found. option_map property_of found ≡ lone_value sets (table_of tables.now) name.now) }
{
    if let Some(set) = tables.binary(alloc, name)? {
        return Ok(Some(Property::Points(set)));
    }
    if sets && let Some(strings) = tables.strings(alloc, name)? {
        return Ok(Some(Property::Strings(strings)));
    }
    Ok(tables.general_category(alloc, name)?.map(Property::Points))
}

/// Looks up the value in the list with this name.
fn listed_value(
    alloc: Global,
    tables: &Tables,
    list: &str,
    value: &str,
) -> Result<Option<Property>, AllocError>
    ensures { IfOk result (λ found. option_map property_of found ≡ value_in value.now (list_named (table_of tables.now) list.now)) }
{
    let set = match list {
        "General_Category" | "gc" => tables.general_category(alloc, value)?,
        "Script" | "sc" => tables.script(alloc, value)?,
        "Script_Extensions" | "scx" => tables.script_extensions(alloc, value)?,
        _ => None,
    };
    Ok(set.map(Property::Points))
}
