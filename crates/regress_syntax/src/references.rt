//! Backreferences, by number and by name.
ghost use Rattle.std.specs.Prelude.{◌≡◌, ◌||◌, true};
ghost use Rattle.regress_lexer.specs.Escapes.{begins_with_digit};
ghost use Rattle.regress_lexer.specs.Fault.{FailsByNoLimit};
ghost use Rattle.regress_lexer.specs.Reads.{returned, ParsesAs};
ghost use Rattle.regress_syntax.specs.Numbering.{group_number_at};
ghost use Rattle.regress_syntax.specs.Productions.{has_names, name_reference_at};
ghost use Rattle.regress_syntax.specs.Views.{context_of, AreReferences};
ghost use Rattle.regress_lexer.specs.Views.{source};

use crate::names::{name_text, parse_group_name};
use crate::scope::Scope;
use regress_lexer::cursor::Cursor;
use regress_lexer::digits::{Read, parse_number};
use regress_lexer::fault::{Fault, FaultKind, rejected};

/// Parses a decimal group number, which is the longest run of digits at the start of `source`.
///
/// Returns the number and the source after it, or `None` if the number exceeds `groups`, the number of capture groups
/// (at most `u16::MAX`).
///
/// # Preconditions
/// `source` begins with a decimal digit.
pub fn parse_group_number<'a>(source: &'a [u32], groups: u16) -> Read<'a, u32>
    requires { begins_with_digit source.now ≡ true }
    ensures { returned result ≡ group_number_at groups source.now }
{
    let (number, rest) = parse_number(source)?;
    if number > usize::from(groups) {
        return None;
    }
    Some((number as u32, rest))
}

/// Returns whether `\k` begins a reference by name: always with the flag u, and otherwise if some group has a name
/// (ECMA-262, B.1.2, NamedCaptureGroups).
pub fn has_references_by_name(scope: &Scope) -> bool
    ensures { result ≡ (scope.now.flags.unicode || has_names (context_of scope.now).names) }
{
    scope.flags.unicode || scope.groups.has_names()
}

/// Parses the name of a reference, after its `\k`, and returns the numbers of the groups of that name.
///
/// The numbers start at 1 and are ascending; there is at least one. On success `cursor` ends after the name's `>`.
/// `begin` is the number of code points that remained before the backslash; an invalid name is reported at that
/// position.
///
/// # Errors
/// After an error the position of `cursor` is unspecified.
/// - [`FaultKind::InvalidReference`] if no well-formed name in angle brackets follows.
/// - [`FaultKind::UnknownName`] if no group has the name; its position is that of the name.
/// - [`Fault::Memory`] if an allocation fails.
pub fn parse_reference<'a>(
    cursor: &mut Cursor,
    scope: &Scope<'a>,
    begin: usize,
) -> Result<&'a [u32], Fault>
    ensures value { ParsesAs (λ numbers. AreReferences (context_of scope.now) numbers.now) (source cursor.new) result (name_reference_at (context_of scope.now) (source cursor.old)) }
    ensures kind { FailsByNoLimit result }
{
    let Some((name, rest)) = parse_group_name(cursor.alloc, cursor.rest, scope.tables)? else {
        return Err(rejected(begin, FaultKind::InvalidReference));
    };
    let numbers = scope.groups.numbers_of(&name);
    if numbers.is_empty() {
        let name = name_text(cursor.alloc, &name)?;
        // The position of the name itself, after its `<`.
        let left = cursor.rest.len().saturating_sub(1);
        return Err(rejected(left, FaultKind::UnknownName(name)));
    }
    cursor.rest = rest;
    Ok(numbers)
}
