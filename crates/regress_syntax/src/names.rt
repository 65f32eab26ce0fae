//! Parses the names of groups.
ghost use Rattle.std.specs.Prelude.{◌≡◌, ◌+◌, ◌++◌, length, Some, None, if◌then◌else◌, option_map, IfOk, string_bytes, encode_utf8_all};
ghost use Rattle.regress_lexer.specs.Source.{found_map};
ghost use Rattle.regress_syntax.specs.Names.{is_dollar_or_underscore, begins_name, continues_name, literal_or_escape_at, name_character_at, rest_of_name_by, name_at, group_name_at};
ghost use Rattle.regress_unicode.specs.TableOf.{table_of};
ghost use Rattle.regress_lexer.specs.Reads.{returned};

use regress_lexer::digits::{Read, strip_char};
use regress_lexer::escape::read_unicode;
use regress_unicode::Tables;
use std::alloc::{AllocError, Global};

/// The name of a capture group, as a list of characters.
pub type Name = Vec<char>;

/// The initial capacity of a name, in characters: most names need one allocation.
const USUAL_LENGTH: usize = 8;

/// Whether `c` is `$` or `_`.
fn is_dollar_or_underscore(c: u32) -> bool
    ensures { result ≡ is_dollar_or_underscore c }
{
    c == u32::from('$') || c == u32::from('_')
}

/// Returns `c` as a character if it may begin a name (ECMA-262, RegExpIdentifierStart).
fn first_character(c: u32, tables: &Tables) -> Option<char>
    ensures { result ≡ (if begins_name (table_of tables.now) c then Some c else None) }
{
    if is_dollar_or_underscore(c) || tables.id_start().contains(c) {
        char::from_u32(c)
    } else {
        None
    }
}

/// Returns `c` as a character if it may continue a name (ECMA-262, RegExpIdentifierPart). U+200C and U+200D may.
fn further_character(c: u32, tables: &Tables) -> Option<char>
    ensures { result ≡ (if continues_name (table_of tables.now) c then Some c else None) }
{
    if is_dollar_or_underscore(c)
        || c == 0x200C
        || c == 0x200D
        || tables.id_continue().contains(c)
    {
        char::from_u32(c)
    } else {
        None
    }
}

/// Parses one character of a name: a literal one, or an escape with `\u` that has a value.
fn parse_literal_or_escape<'a>(source: &'a [u32]) -> Read<'a, u32>
    ensures { returned result ≡ literal_or_escape_at source.now }
{
    let (c, rest) = source.split_first()?;
    if *c == u32::from('\\') {
        read_unicode(strip_char(rest, 'u')?)
    } else {
        Some((*c, rest))
    }
}

/// Parses a character that may begin a name.
fn parse_first_character<'a>(source: &'a [u32], tables: &Tables) -> Read<'a, char>
    ensures { returned result ≡ name_character_at (begins_name (table_of tables.now)) source.now }
{
    let (c, rest) = parse_literal_or_escape(source)?;
    Some((first_character(c, tables)?, rest))
}

/// Parses a character that may continue a name.
fn parse_further_character<'a>(source: &'a [u32], tables: &Tables) -> Read<'a, char>
    ensures { returned result ≡ name_character_at (continues_name (table_of tables.now)) source.now }
{
    let (c, rest) = parse_literal_or_escape(source)?;
    Some((further_character(c, tables)?, rest))
}

/// Parses the rest of a name, up to an unescaped `>`, and appends it to `name`.
fn parse_rest_of_name<'a>(
    source: &'a [u32],
    tables: &Tables,
    mut name: Name,
) -> Result<Read<'a, Name>, AllocError>
    ensures { IfOk result (λ found. option_map (λ whole. (whole.0.items, whole.1.now)) found
        ≡ found_map (λ cs. name.items ++ cs) (rest_of_name_by (length source.now + 1) (table_of tables.now) source.now)) }
{
    let mut left = source;
    loop {
        if let Some(rest) = strip_char(left, '>') {
            return Ok(Some((name, rest)));
        }
        let Some((c, rest)) = parse_further_character(left, tables) else {
            return Ok(None);
        };
        name.push(c)?;
        left = rest;
    }
}

/// Parses a name in angle brackets (ECMA-262, GroupName). The result is `None` if there is no well-formed name.
#[tactic(auto, unfolding(crate::specs::Names::name_at))]
pub(crate) fn parse_group_name<'a>(
    alloc: Global,
    source: &'a [u32],
    tables: &Tables,
) -> Result<Read<'a, Name>, AllocError>
    ensures { IfOk result (λ found. option_map (λ name. (name.0.items, name.1.now)) found ≡ group_name_at (table_of tables.now) source.now) }
{
    let Some(source) = strip_char(source, '<') else {
        return Ok(None);
    };
    let Some((c, rest)) = parse_first_character(source, tables) else {
        return Ok(None);
    };
    let mut name = Vec::with_capacity(alloc, USUAL_LENGTH)?;
    name.push(c)?;
    parse_rest_of_name(rest, tables, name)
}

/// Returns the name in UTF-8.
///
/// # Errors
/// Returns [`AllocError`] if the allocation fails.
pub fn name_text(alloc: Global, name: &[char]) -> Result<String, AllocError>
    ensures { IfOk result (λ text. string_bytes text ≡ encode_utf8_all name.now) }
{
    let mut text = String::with_capacity(alloc, name.len())?;
    for c in name {
        text.push(*c)?;
    }
    Ok(text)
}
