//! Parses classes without the flag v.
ghost use Rattle.std.specs.Prelude.{◌≡◌, ◌+◌, ◌==◌, ◌&&◌, not, true, false, drop, if◌then◌else◌, Some, None, List, [], ◌∷◌, length, IfOk, OnOk, IfSome, IfNone};
ghost use Rattle.regress_base.specs.Intervals.{Bounds};
ghost use Rattle.regress_classes.specs.ClassProductions.{point, is_pair, splits, complement_if, atom_members, units_between, begins_range, range_of, range_end_at, range_at, class_part_at, class_parts_by, class_at};
ghost use Rattle.regress_base.specs.Table.{Table};
ghost use Rattle.regress_unicode.specs.TableOf.{table_of};
ghost use Rattle.regress_lexer.specs.Source.{IsCodePoint, char};
ghost use Rattle.regress_lexer.specs.Fault.{FailsByNoLimit, FailsOnlyIf};
ghost use Rattle.regress_lexer.specs.Reads.{ParsesAs};
ghost use Rattle.regress_classes.specs.declared.parameters.Parameters.{Parameters};
ghost use Rattle.regress_classes.specs.ClassViews.{class_atom_of, IsClassAtomInRange, HasMembers, Adds, IsClassRead};
ghost use Rattle.regress_lexer.specs.Views.{source};

use crate::class_atom::{ClassAtom, read_class_atom};
use crate::class_escape::class_escape_set;
use crate::code_units::{add_point, add_units_after, add_units_before, first_unit, last_unit};
use crate::gathered::IntervalCollector;
use crate::parameters::Parameters;
use regress_base::codepointset::{CodePointSet, Interval};
use regress_lexer::cursor::Cursor;
use regress_lexer::fault::{Fault, FaultKind, rejected};
use regress_unicode::Tables;
use std::alloc::{AllocError, Global};

/// A class without the flag v: the set of its members as written, and whether the class is inverted.
#[derive(Drop)]
pub struct Class {
    /// Whether the class begins with `[^`: it then matches the characters that are not in `set`.
    pub inverted: bool,
    /// The members as written, without the characters that only the flag i adds, and not complemented.
    pub set: CodePointSet,
}

/// The context of a part of a class.
#[derive(Clone, Copy)]
struct ClassContext<'a> {
    tables: &'a Tables,
    parameters: &'a Parameters,
    /// The number of code points that remained before the `[` of the class.
    opened: usize,
}

/// Parses a class after its `[` (ECMA-262, CharacterClass, with annex B).
///
/// `opened` is the number of code points that remained before the `[`. Afterwards `cursor` is
/// after the `]`.
///
/// # Errors
/// - [`Fault::Rejected`] if the class is not closed, or if it has an invalid escape, property or range.
/// - [`Fault::Memory`] if an allocation fails.
///
/// After an error the position of `cursor` is unspecified.
///
/// # Complexity
/// Linear in the number of intervals if they are written in ascending order, else O(n log n).
pub fn parse_class(
    cursor: &mut Cursor,
    tables: &Tables,
    parameters: &Parameters,
    opened: usize,
) -> Result<Class, Fault>
    ensures value { ParsesAs IsClassRead (source cursor.new) result (class_at (table_of tables.now) parameters.now (source cursor.old)) }
    ensures kind { FailsByNoLimit result }
{
    let inverted = cursor.try_consume('^');
    let around = ClassContext {
        tables,
        parameters,
        opened,
    };
    let set = parse_parts(cursor, &around)?;
    Ok(Class { inverted, set })
}

/// Parses the parts of a class and the `]` after them.
fn parse_parts(cursor: &mut Cursor, around: &ClassContext) -> Result<CodePointSet, Fault>
    ensures value { let t = source cursor.old in
        ParsesAs (λ set members. HasMembers members set) (source cursor.new) result (class_parts_by (table_of around.now.tables.now) around.now.parameters.now (length t + 1) t) }
    ensures kind { FailsByNoLimit result }
{
    let mut gathered = collector(cursor)?;
    while !cursor.is_at(']') {
        parse_part(cursor, around, &mut gathered)?;
    }
    cursor.try_consume(']');
    Ok(gathered.into_set()?)
}

/// Returns an empty collection, with room for the intervals of most classes, unless the class has no part.
fn collector(cursor: &Cursor) -> Result<IntervalCollector, AllocError>
    ensures { IfOk result (λ collector. collector ≡ []) }
{
    if cursor.is_at(']') {
        return Ok(IntervalCollector::new(cursor.alloc));
    }
    IntervalCollector::with_room(cursor.alloc)
}

/// Parses an atom or a range, and adds its members.
fn parse_part(
    cursor: &mut Cursor,
    around: &ClassContext,
    set: &mut IntervalCollector,
) -> Result<(), Fault>
    ensures value { ParsesAs (λ _ members. Adds members set.old set.new) (source cursor.new) result (class_part_at (table_of around.now.tables.now) around.now.parameters.now (source cursor.old)) }
    ensures kind { FailsByNoLimit result }
{
    if let Some(interval) = take_plain_part(cursor, around.parameters) {
        set.add(interval)?;
        return Ok(());
    }
    read_any_part(cursor, around, set)
}

/// Consumes a literal code point, or a range of two literal code points, if one is next whose code points are one member
/// each. Most parts are such.
fn take_plain_part(cursor: &mut Cursor, parameters: &Parameters) -> Option<Interval>
    ensures some { IfSome result (λ part. (table : Table) →
        class_part_at table parameters.now (source cursor.old) ≡ Some (part ∷ [], source cursor.new)) }
    ensures none { IfNone result (source cursor.new ≡ source cursor.old) }
{
    let (first, after) = split_plain(cursor.rest)?;
    match after.split_first() {
        Some((hyphen, rest)) if *hyphen == u32::from('-') => {
            let (last, rest) = split_plain(rest)?;
            if first > last || parameters.splits_point(last) {
                return None;
            }
            cursor.rest = rest;
            Some(Interval::new(first, last))
        }
        _ => {
            if parameters.splits_point(first) {
                return None;
            }
            cursor.rest = after;
            Some(Interval::new(first, first))
        }
    }
}

/// Splits off the first code point, if it is a literal.
fn split_plain(source: &[u32]) -> Option<(u32, &[u32])>
    ensures { IfSome result (λ found. (source.now ≡ found.0 ∷ found.1.now) × ((not (found.0 == char "]") && not (found.0 == char "\\")) ≡ true)) }
{
    let (c, rest) = source.split_first()?;
    is_literal(*c).then_some((*c, rest))
}

/// Returns whether the code point is a literal in a class.
fn is_literal(c: u32) -> bool
    ensures { result ≡ (not (c == char "]") && not (c == char "\\")) }
{
    c != u32::from(']') && c != u32::from('\\')
}

/// Parses an atom or a range of any kind, and adds its members.
fn read_any_part(
    cursor: &mut Cursor,
    around: &ClassContext,
    set: &mut IntervalCollector,
) -> Result<(), Fault>
    ensures value { ParsesAs (λ _ members. Adds members set.old set.new) (source cursor.new) result (class_part_at (table_of around.now.tables.now) around.now.parameters.now (source cursor.old)) }
    ensures kind { FailsByNoLimit result }
{
    let left = cursor.rest.len();
    let first = read_class_atom(cursor, around.tables, around.parameters, around.opened)?;
    if try_consume_hyphen(cursor) {
        read_range(cursor, around, first, left, set)
    } else {
        add_atom(set, cursor.alloc, around.parameters, first)?;
        Ok(())
    }
}

/// Consumes a hyphen, if one is next that starts a range.
fn try_consume_hyphen(cursor: &mut Cursor) -> bool
    ensures found { result ≡ begins_range (source cursor.old) }
    ensures moves { source cursor.new ≡ (if result then drop 1 (source cursor.old) else source cursor.old) }
{
    begins_range(cursor.rest) && cursor.try_consume('-')
}

/// Returns whether `source` starts with a hyphen that starts a range: one that is not before `]`.
fn begins_range(source: &[u32]) -> bool
    ensures { result ≡ begins_range source.now }
{
    match source {
        [hyphen, rest @ ..] => {
            *hyphen == u32::from('-') && rest.first() != Some(&u32::from(']'))
        }
        [] => false,
    }
}

/// Parses the last atom of a range after its hyphen, and adds the members of the range. If this atom begins another
/// range, that is parsed too. `left` is the number of code points that remained at the first atom.
fn read_range(
    cursor: &mut Cursor,
    around: &ClassContext,
    first: ClassAtom,
    left: usize,
    set: &mut IntervalCollector,
) -> Result<(), Fault>
    requires { IsClassAtomInRange first }
    ensures value { ParsesAs (λ _ members. Adds members set.old set.new) (source cursor.new) result (range_at (table_of around.now.tables.now) around.now.parameters.now (class_atom_of first) (source cursor.old)) }
    ensures kind { FailsByNoLimit result }
{
    let begin = cursor.rest.len();
    let last = read_class_atom(cursor, around.tables, around.parameters, around.opened)?;
    let pair = split_point(&last, around.parameters);
    let range = ClassRange { first, last };
    add_range(set, cursor.alloc, around.parameters, left, range)?;
    let Some(c) = pair else {
        return Ok(());
    };
    if !try_consume_hyphen(cursor) {
        return Ok(());
    }
    read_range_end(cursor, around, ClassAtom::Point(c), begin, set)
}

/// Returns the code point of an atom that is two code units.
fn split_point(atom: &ClassAtom, parameters: &Parameters) -> Option<u32>
    requires { IsClassAtomInRange atom.now }
    ensures some { IfSome result (λ c. (class_atom_of atom.now ≡ point c) × ((splits parameters.now && is_pair (point c)) ≡ true) × IsCodePoint c) }
    ensures none { IfNone result ((splits parameters.now && is_pair (class_atom_of atom.now)) ≡ false) }
{
    let ClassAtom::Point(c) = atom else {
        return None;
    };
    parameters.splits_point(*c).then_some(*c)
}

/// Parses the last atom of a range after its hyphen, where it begins no other range, and adds the members of the range.
fn read_range_end(
    cursor: &mut Cursor,
    around: &ClassContext,
    first: ClassAtom,
    left: usize,
    set: &mut IntervalCollector,
) -> Result<(), Fault>
    requires { IsClassAtomInRange first }
    ensures value { ParsesAs (λ _ members. Adds members set.old set.new) (source cursor.new) result (range_end_at (table_of around.now.tables.now) around.now.parameters.now (class_atom_of first) (source cursor.old)) }
    ensures kind { FailsByNoLimit result }
{
    let last = read_class_atom(cursor, around.tables, around.parameters, around.opened)?;
    let range = ClassRange { first, last };
    add_range(set, cursor.alloc, around.parameters, left, range)
}

/// Two atoms with a hyphen between them.
#[derive(Drop)]
struct ClassRange {
    first: ClassAtom,
    last: ClassAtom,
}

/// Adds the members of a range. `left` is the number of code points that remained at its first atom.
fn add_range(
    set: &mut IntervalCollector,
    alloc: Global,
    parameters: &Parameters,
    left: usize,
    range: ClassRange,
) -> Result<(), Fault>
    requires first_in_range { IsClassAtomInRange range.first }
    requires last_in_range { IsClassAtomInRange range.last }
    ensures ok { OnOk result ((members : List Bounds)
        × (range_of (splits parameters.now) parameters.now.unicode (class_atom_of range.first) (class_atom_of range.last) ≡ Some members) × Adds members set.old set.new) }
    ensures err { FailsOnlyIf result (range_of (splits parameters.now) parameters.now.unicode (class_atom_of range.first) (class_atom_of range.last) ≡ None) }
    ensures kind { FailsByNoLimit result }
{
    let ClassRange { first, last } = range;
    if let (ClassAtom::Point(a), ClassAtom::Point(b)) = (&first, &last) {
        return add_points(set, parameters, left, *a, *b);
    }
    if parameters.unicode {
        return Err(rejected(left, FaultKind::InvalidRange));
    }
    add_atom(set, alloc, parameters, first)?;
    let hyphen = u32::from('-');
    set.add(Interval::new(hyphen, hyphen))?;
    add_atom(set, alloc, parameters, last)?;
    Ok(())
}

/// Adds the members of a range of code points. `left` is the number of code points that remained at its first atom.
fn add_points(
    set: &mut IntervalCollector,
    parameters: &Parameters,
    left: usize,
    a: u32,
    b: u32,
) -> Result<(), Fault>
    requires a_in_range { IsCodePoint a }
    requires b_in_range { IsCodePoint b }
    ensures ok { OnOk result ((members : List Bounds) × (units_between (splits parameters.now) a b ≡ Some members) × Adds members set.old set.new) }
    ensures err { FailsOnlyIf result (units_between (splits parameters.now) a b ≡ None) }
    ensures kind { FailsByNoLimit result }
{
    let first = last_unit(parameters, a);
    let last = first_unit(parameters, b);
    if first > last {
        return Err(rejected(left, FaultKind::ReversedRange));
    }
    add_units_before(set, parameters, a)?;
    set.add(Interval::new(first, last))?;
    add_units_after(set, parameters, b)?;
    Ok(())
}

/// Adds the members of an atom.
fn add_atom(
    set: &mut IntervalCollector,
    alloc: Global,
    parameters: &Parameters,
    atom: ClassAtom,
) -> Result<(), AllocError>
    requires { IsClassAtomInRange atom }
    ensures { OnOk result (Adds (atom_members (splits parameters.now) (class_atom_of atom)) set.old set.new) }
{
    match atom {
        ClassAtom::Point(c) => add_point(set, parameters, c),
        ClassAtom::Class { kind, negated } => {
            add_members(set, &class_escape_set(alloc, kind)?, negated)
        }
        ClassAtom::Set {
            set: members,
            negated,
        } => add_members(set, &members, negated),
    }
}

/// Adds the members of a set, or of its complement if `negated`.
fn add_members(
    set: &mut IntervalCollector,
    members: &CodePointSet,
    negated: bool,
) -> Result<(), AllocError>
    ensures { OnOk result (Adds (complement_if negated members.now) set.old set.new) }
{
    if negated {
        set.add_all(members.inverted()?.intervals())
    } else {
        set.add_all(members.intervals())
    }
}
