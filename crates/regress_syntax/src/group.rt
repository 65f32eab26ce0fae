//! What follows an opening parenthesis: the kind of group that it begins.
ghost use Rattle.regress_lexer.specs.Fault.{FailsByNoLimit};
ghost use Rattle.regress_lexer.specs.Reads.{Reads, ParsesWithoutAllocating};
ghost use Rattle.regress_syntax.specs.Productions.{opens, named_group_at, modified_at, angle_at, after_question_mark_at, group_at};
ghost use Rattle.regress_syntax.specs.Views.{group_of};
ghost use Rattle.regress_lexer.specs.Views.{source};
ghost use Rattle.regress_unicode.specs.TableOf.{table_of};

use crate::names::{Name, parse_group_name};
use regress_lexer::cursor::Cursor;
use regress_lexer::fault::{Fault, FaultKind};
use regress_lexer::modifiers::{Change, parse_modifiers};
use regress_unicode::Tables;

/// The kind of group that an opening parenthesis begins.
#[derive(Drop)]
pub enum Group {
    /// `(?:`: a group that captures nothing.
    Grouping,
    /// `(?`, modifiers and `:`: a group that changes flags for its body.
    Modified(Change),
    /// `(`, or `(?<`, a name and `>`: a capture group, with its name if it has one.
    Capture(Option<Name>),
    /// `(?=`, `(?!`, `(?<=` or `(?<!`: a lookaround. `negate` means that it is negated, `backwards` that it is a
    /// lookbehind.
    Look { negate: bool, backwards: bool },
}

impl Group {
    ghost use Rattle.std.specs.Prelude.{◌≡◌};
    ghost use Rattle.regress_syntax.specs.Productions.{group_allows};
    ghost use Rattle.regress_syntax.specs.Views.{group_of};

    /// Returns whether a quantifier may follow a group of this kind. `unicode` is the flag u.
    ///
    /// A lookahead takes a quantifier only without the flag u (ECMA-262, QuantifiableAssertion), a lookbehind takes
    /// none, and every other group takes one.
    pub fn allows_quantifier(&self, unicode: bool) -> bool
        ensures { result ≡ group_allows unicode (group_of self.now) }
    {
        match self {
            Group::Look { backwards, .. } => !*backwards && !unicode,
            Group::Grouping | Group::Modified(_) | Group::Capture(_) => true,
        }
    }
}

/// Parses what follows an opening parenthesis, up to the group's body, and returns the kind of group.
///
/// `cursor` is just after the `(`; on success it ends at the start of the group's body.
///
/// # Errors
/// After an error the position of `cursor` is unspecified.
/// - [`FaultKind::InvalidGroupName`] if `(?` is at the end of the pattern, or if `(?<` begins neither a lookbehind nor
///   a name.
/// - [`FaultKind::InvalidModifier`] if what follows `(?` is neither `:`, `=`, `!`, `<`, a list of modifiers with its
///   `:`, nor the end of the pattern.
/// - [`Fault::Memory`] if an allocation fails.
pub fn parse_group(cursor: &mut Cursor, tables: &Tables) -> Result<Group, Fault>
    ensures value { Reads (λ kind. opens (group_of kind)) (source cursor.new) result (group_at (table_of tables.now) (source cursor.old)) }
    ensures kind { FailsByNoLimit result }
{
    if cursor.try_consume('?') {
        parse_after_question_mark(cursor, tables)
    } else {
        Ok(Group::Capture(None))
    }
}

/// Parses what follows `(?`.
fn parse_after_question_mark(cursor: &mut Cursor, tables: &Tables) -> Result<Group, Fault>
    ensures value { Reads (λ kind. opens (group_of kind)) (source cursor.new) result (after_question_mark_at (table_of tables.now) (source cursor.old)) }
    ensures kind { FailsByNoLimit result }
{
    if cursor.try_consume(':') {
        Ok(Group::Grouping)
    } else if cursor.try_consume('=') {
        Ok(Group::Look {
            negate: false,
            backwards: false,
        })
    } else if cursor.try_consume('!') {
        Ok(Group::Look {
            negate: true,
            backwards: false,
        })
    } else if cursor.is_at('<') {
        parse_after_angle(cursor, tables)
    } else {
        parse_modified_group(cursor)
    }
}

/// Parses a lookbehind or a named group, starting at its `<`.
fn parse_after_angle(cursor: &mut Cursor, tables: &Tables) -> Result<Group, Fault>
    ensures value { Reads (λ kind. opens (group_of kind)) (source cursor.new) result (angle_at (table_of tables.now) (source cursor.old)) }
    ensures kind { FailsByNoLimit result }
{
    match cursor.rest {
        [_, next, rest @ ..] if *next == u32::from('=') => {
            cursor.rest = rest;
            Ok(Group::Look {
                negate: false,
                backwards: true,
            })
        }
        [_, next, rest @ ..] if *next == u32::from('!') => {
            cursor.rest = rest;
            Ok(Group::Look {
                negate: true,
                backwards: true,
            })
        }
        _ => parse_named_group(cursor, tables),
    }
}

/// Parses the name of a capture group, starting at its `<`.
fn parse_named_group(cursor: &mut Cursor, tables: &Tables) -> Result<Group, Fault>
    ensures value { Reads (λ kind. opens (group_of kind)) (source cursor.new) result (named_group_at (table_of tables.now) (source cursor.old)) }
    ensures kind { FailsByNoLimit result }
{
    match parse_group_name(cursor.alloc, cursor.rest, tables)? {
        Some((name, rest)) => {
            cursor.rest = rest;
            Ok(Group::Capture(Some(name)))
        }
        None => Err(cursor.reject(FaultKind::InvalidGroupName)),
    }
}

/// Parses modifiers and their `:`. At the end of the pattern the error is that of a missing name.
fn parse_modified_group(cursor: &mut Cursor) -> Result<Group, Fault>
    ensures value { ParsesWithoutAllocating (λ kind. opens (group_of kind)) (source cursor.new) result (modified_at (source cursor.old)) }
    ensures kind { FailsByNoLimit result }
{
    match parse_modifiers(cursor.rest) {
        Some((change, rest)) => {
            cursor.rest = rest;
            Ok(Group::Modified(change))
        }
        None if cursor.rest.is_empty() => Err(cursor.reject(FaultKind::InvalidGroupName)),
        None => Err(cursor.reject(FaultKind::InvalidModifier)),
    }
}
