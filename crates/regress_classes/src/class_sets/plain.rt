//! Plain parts of a class with the flag v: most parts are such, and need no test of the other productions.
ghost use Rattle.std.specs.Prelude.{◌≡◌, ◌||◌, not, ℕ, true, false, Bool, [], ◌∷◌, Some, IfSome, OnOk};
ghost use Rattle.std.specs.List.{All};
ghost use Rattle.regress_base.specs.Table.{Table};
ghost use Rattle.regress_lexer.specs.Source.{Source, Found, IsCodePoint, char, is_at};
ghost use Rattle.regress_classes.specs.declared.parameters.Parameters.{Parameters as Settings};
ghost use Rattle.regress_classes.specs.ClassSets.{Value as Written, Operand as WrittenOperand, only, is_set_syntax, is_double, are_at, operand_at, part_after};
ghost use Rattle.regress_classes.specs.ClassViews.{Joins};
ghost use Rattle.regress_lexer.specs.Views.{source};

use super::are_at;
use super::character::{is_double, is_set_syntax};
use super::union::Union;
use regress_base::codepointset::Interval;
use regress_lexer::cursor::Cursor;
use regress_lexer::digits::Read;
use std::alloc::AllocError;

/// Returns the part at the start of `source` and the source after it, if the part is a plain character or a range of two.
#[inline(always)]
pub(super) fn read_plain_part(source: &[u32]) -> Read<'_, Interval>
    requires { All IsCodePoint source.now }
    ensures part { IfSome result (λ read. (table : Table) (parameters : Settings) (inner : Source → Found (Bool × Written)) (in_negated : Bool) →
        (first : WrittenOperand × Source) × (operand_at table parameters inner in_negated source.now ≡ Some first)
        × (part_after table parameters inner in_negated first ≡ Some (only (read.0 ∷ []), read.1.now))) }
    ensures in_range { IfSome result (λ read. All IsCodePoint read.1.now) }
{
    let (first, after) = split_plain(source)?;
    match after.split_first() {
        Some((hyphen, rest)) if *hyphen == u32::from('-') => {
            let (last, rest) = split_plain(rest)?;
            if first > last {
                return None;
            }
            Some((Interval::new(first, last), rest))
        }
        _ => Some((Interval::new(first, first), after)),
    }
}

/// Moves past a part that was read at `cursor`, and adds it to `union`.
#[inline(always)]
pub(super) fn add_plain_part<'a>(
    cursor: &mut Cursor<'a>,
    union: &mut Union,
    read: (Interval, &'a [u32]),
) -> Result<(), AllocError>
    requires { All IsCodePoint read.1.now }
    ensures moves { source cursor.new ≡ read.entry.1.now }
    ensures joins { OnOk result (Joins (only (read.entry.0 ∷ [])) union.old union.new) }
{
    let (part, rest) = read;
    cursor.rest = rest;
    union.add(part)
}

/// Returns whether the contents of a class start with a plain character that no operator follows, so that they are a
/// union.
#[inline(always)]
pub(super) fn begins_plain_union(source: &[u32]) -> bool
    ensures { result ≡ true → (c : ℕ) × (after : Source) × (source.now ≡ c ∷ after) × (not (is_set_syntax c || is_double c) ≡ true)
        × (is_at (char "&") after ≡ false) × (are_at (char "-") after ≡ false) }
{
    match split_plain(source) {
        Some((_, after)) => !begins_with(after, '&') && !are_at(after, '-'),
        None => false,
    }
}

/// Splits off the first code point, if it is plain.
#[inline(always)]
fn split_plain(source: &[u32]) -> Read<'_, u32>
    ensures { IfSome result (λ found. (source.now ≡ found.0 ∷ found.1.now) × (not (is_set_syntax found.0 || is_double found.0) ≡ true)) }
{
    let (c, rest) = source.split_first()?;
    is_plain(*c).then_some((*c, rest))
}

/// Returns whether the code point is a literal whatever follows it.
fn is_plain(c: u32) -> bool
    ensures { result ≡ not (is_set_syntax c || is_double c) }
{
    !is_set_syntax(c) && !is_double(c)
}

/// Returns whether `source` starts with `c`.
fn begins_with(source: &[u32], c: char) -> bool
    ensures { result ≡ is_at c source.now }
{
    match source {
        [first, ..] => *first == u32::from(c),
        [] => false,
    }
}
