//! Parses what opens a group, with the lengths that the parser's recursion needs.
ghost use Rattle.std.specs.Prelude.{◌≡◌, ◌≤◌, ◌+◌, OnOk, drop, length, if◌then◌else◌};
ghost use Rattle.regress_lexer.specs.Fault.{FailsByNoLimit};
ghost use Rattle.regress_lexer.specs.Reads.{Reads};
ghost use Rattle.regress_lexer.specs.Source.{opening, is_at};
ghost use Rattle.regress_lexer.specs.Views.{source};
ghost use Rattle.regress_syntax.specs.Productions.{opens, group_at};
ghost use Rattle.regress_syntax.specs.Views.{group_of};
ghost use Rattle.regress_unicode.specs.TableOf.{table_of};

use regress_syntax::{Cursor, Fault, Group, Scope, parse_group};

/// Moves past a `(` if it is next, and returns whether it was.
#[inline(always)]
pub(crate) fn try_open(cursor: &mut Cursor) -> bool
    ensures found { result ≡ is_at opening (source cursor.old) }
    ensures moves { source cursor.new ≡ (if result then drop 1 (source cursor.old) else source cursor.old) }
    ensures lengths { length (source cursor.old) ≡ length (source cursor.new) + (if result then 1 else 0) }
{
    cursor.try_consume('(')
}

/// Parses what follows the `(` of a group, up to its contents.
#[inline(always)]
pub(crate) fn parse_head(cursor: &mut Cursor, scope: &Scope) -> Result<Group, Fault>
    ensures value { Reads (λ kind. opens (group_of kind)) (source cursor.new) result (group_at (table_of scope.now.tables.now) (source cursor.old)) }
    ensures kind { FailsByNoLimit result }
    ensures lengths { OnOk result (length (source cursor.new) ≤ length (source cursor.old)) }
{
    parse_group(cursor, scope.tables)
}
