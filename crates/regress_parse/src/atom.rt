//! Parses items that contain no pattern: every item but a group.
ghost use Rattle.std.specs.Prelude.{◌≡◌, ◌∷◌, true, false, not, ◌&&◌, ◌||◌, ◌==◌, ◌≤◌, ◌<◌, length, drop, Some, None, IfOk, IfSome, IfNone, MatchBool};
ghost use Rattle.regress_lexer.specs.Digits.{is_between};
ghost use Rattle.regress_lexer.specs.Escapes.{begins_with_letter};
ghost use Rattle.regress_base.specs.Limits.{max_nesting_depth};
ghost use Rattle.regress_lexer.specs.Fault.{FailsByNoLimit, FailsByDepthOnlyIf};
ghost use Rattle.regress_lexer.specs.Reads.{ParsesAs};
ghost use Rattle.regress_lexer.specs.Source.{IsCodePoint, char, is_one_of};
ghost use Rattle.regress_lexer.specs.Views.{source};
ghost use Rattle.regress_syntax.specs.Productions.{atom_by, brace_by, is_lone_backslash, begins_number, has_names, escaped_at, number_reference_at, name_reference_at, character_at, brackets_at, property_atom_at};
ghost use Rattle.regress_syntax.specs.Syntax.{atom, back_reference, by_number};
ghost use Rattle.regress_syntax.specs.Views.{context_of};
ghost use Rattle.regress_parse.specs.Parsing.{atom_at, begins_lone, is_lone_boundary, IsNode, ReadsAtom, TakesOneAtom};
ghost use Rattle.regress_parse.specs.Reader.{term_at};

use crate::build::{
    make_anchor, make_boundary, make_class, make_class_escape, make_class_set, make_dot,
    make_literal, make_property, make_references, make_strings, order_strings, push_literal,
};
use regress_base::types::MAX_NESTING_DEPTH;
use regress_classes::class::parse_class;
use regress_classes::class_escape::class_letter;
use regress_classes::class_sets::parse_class_set;
use regress_classes::property::{Property, is_property_letter, parse_property};
use regress_lexer::cursor::is_plain;
use regress_lexer::digits::{is_between, is_letter};
use regress_lexer::escape::{escape_fault, parse_character_escape};
use regress_lexer::quantifier::{may_begin, parse_quantifier};
use regress_syntax::fault::{FaultKind, rejected};
use regress_syntax::{
    Cursor, Dialect, Fault, Scope, has_references_by_name, parse_group_number, parse_reference,
};
use regress_tree::ir::{AnchorType, Node, NodeList};
use std::alloc::AllocError;

/// Parses an item that contains no pattern, and returns its node (ECMA-262, Atom without groups, and `^`, `$`, `\b` and
/// `\B` of Assertion).
///
/// `left` is the remaining nesting depth for classes. Afterwards `cursor` is after the item.
///
/// # Preconditions
/// `left` is at most [`MAX_NESTING_DEPTH`].
///
/// # Errors
/// - [`Fault::Rejected`] if no item starts at `cursor`, or if its classes nest deeper than `left`.
/// - [`Fault::Memory`] if an allocation fails.
///
/// After an error the position of `cursor` is unspecified.
///
/// # Complexity
/// With the flag `v`, the depth of recursion is at most the nesting depth of the classes, and at most
/// [`MAX_NESTING_DEPTH`].
pub(crate) fn parse_atom(cursor: &mut Cursor, scope: &Scope, left: u32) -> Result<Node, Fault>
    requires { left ≤ max_nesting_depth }
    ensures value { ReadsAtom (context_of scope.now) left (not (begins_lone scope.now.dialect (source cursor.old))) (source cursor.new) result
        (atom_at (context_of scope.now) (source cursor.old)) }
    ensures kind { FailsByDepthOnlyIf result (left < length (source cursor.old)) }
{
    let front = cursor.rest;
    let Some(c) = cursor.next() else {
        return Err(cursor.reject(FaultKind::InvalidAtom));
    };
    if c == u32::from('[') {
        read_brackets(cursor, scope, left, front.len())
    } else {
        read_other(cursor, scope, c, front)
    }
}

/// Adds the node of the next term to `parts` and returns `true`, if the term is a literal character or a reference by
/// number that no quantifier can follow. Else returns `false` and changes nothing.
///
/// Most terms are such, and need no test of the other productions.
#[inline(always)]
pub(crate) fn push_simple_term(
    cursor: &mut Cursor,
    scope: &Scope,
    parts: &mut NodeList,
) -> Result<bool, AllocError>
    ensures { IfOk result (λ taken. MatchBool taken
        (TakesOneAtom (context_of scope.now) (source cursor.old) (source cursor.new) parts.old.items parts.new.items)
        ((source cursor.new ≡ source cursor.old) × (parts.new.items ≡ parts.old.items))) }
{
    if let Some(c) = cursor.next_plain() {
        push_literal(parts, c, scope)?;
        return Ok(true);
    }
    let Some(group) = next_reference(cursor, scope) else {
        return Ok(false);
    };
    let icase = scope.flags.icase;
    parts.push(Node::BackRef { group, icase })?;
    Ok(true)
}

/// Consumes a reference by number that no quantifier can follow, if one is next, and returns its group.
fn next_reference(cursor: &mut Cursor, scope: &Scope) -> Option<u32>
    ensures some { IfSome result (λ group. term_at (context_of scope.now) (source cursor.old)
        ≡ Some ((atom (back_reference scope.now.flags (by_number group)), None), source cursor.new)) }
    ensures none { IfNone result (source cursor.new ≡ source cursor.old) }
{
    let Some((backslash, escaped)) = cursor.rest.split_first() else {
        return None;
    };
    if *backslash != u32::from('\\') {
        return None;
    }
    let Some((digit, _)) = escaped.split_first() else {
        return None;
    };
    if !begins_number(*digit) {
        return None;
    }
    let Some((group, rest)) = parse_group_number(escaped, scope.groups.count()) else {
        return None;
    };
    if may_begin(rest) {
        return None;
    }
    cursor.rest = rest;
    Some(group)
}

/// Returns whether `source` starts with an item that no quantifier may follow: `^` or `$`, or in some dialects `\b` or
/// `\B`.
pub(crate) fn begins_lone(source: &[u32], dialect: Dialect) -> bool
    ensures { result ≡ begins_lone dialect source.now }
{
    match source {
        [c, rest @ ..] => {
            *c == u32::from('^')
                || *c == u32::from('$')
                || (*c == u32::from('\\') && is_lone_boundary(rest, dialect))
        }
        [] => false,
    }
}

/// Returns whether `source`, which follows a backslash, starts with a `b` or `B` that no quantifier may follow.
fn is_lone_boundary(source: &[u32], dialect: Dialect) -> bool
    ensures { result ≡ is_lone_boundary dialect source.now }
{
    if dialect.quantifies_boundaries() {
        return false;
    }
    match source {
        [c, ..] => *c == u32::from('b') || *c == u32::from('B'),
        [] => false,
    }
}

/// Parses an item other than a class in brackets, after its first code point `c`. `front` is the source from `c` on.
fn read_other(cursor: &mut Cursor, scope: &Scope, c: u32, front: &[u32]) -> Result<Node, Fault>
    requires code_point { IsCodePoint c }
    requires no_class { (c == char "[") ≡ false }
    requires front { front.now ≡ c ∷ source cursor.now }
    ensures value { ParsesAs (IsNode (context_of scope.now) 0 (not (begins_lone scope.now.dialect (c ∷ source cursor.old)))) (source cursor.new) result
        (atom_by (context_of scope.now) c (source cursor.old)) }
    ensures kind { FailsByNoLimit result }
{
    if c == u32::from('.') {
        Ok(make_dot(scope))
    } else if c == u32::from('^') {
        Ok(make_anchor(AnchorType::StartOfLine, scope))
    } else if c == u32::from('$') {
        Ok(make_anchor(AnchorType::EndOfLine, scope))
    } else if c == u32::from('\\') {
        read_escaped(cursor, scope, front.len())
    } else if c == u32::from('{') || c == u32::from(']') || c == u32::from('}') {
        read_brace(cursor, scope, c, front)
    } else if is_plain(c) {
        Ok(make_literal(cursor.alloc, c, scope)?)
    } else {
        Err(rejected(front.len(), FaultKind::InvalidAtom))
    }
}

/// Parses a class after its `[`. `opened` is the number of code points that remained before the `[`.
fn read_brackets(
    cursor: &mut Cursor,
    scope: &Scope,
    left: u32,
    opened: usize,
) -> Result<Node, Fault>
    requires { left ≤ max_nesting_depth }
    ensures value { ReadsAtom (context_of scope.now) left true (source cursor.new) result (brackets_at (context_of scope.now) (source cursor.old)) }
    ensures kind { FailsByDepthOnlyIf result (left ≤ length (source cursor.old)) }
{
    let parameters = scope.class_parameters();
    if !scope.flags.unicode_sets {
        let class = parse_class(cursor, scope.tables, &parameters, opened)?;
        return Ok(make_class(class.inverted, class.set, scope)?);
    }
    let class = parse_class_set(cursor, scope.tables, &parameters, MAX_NESTING_DEPTH, opened)?;
    // The scan before parsing has rejected these already.
    if class.value.others.nesting > left {
        return Err(rejected(opened, FaultKind::TooDeep));
    }
    Ok(make_class_set(cursor.alloc, class.negated, class.value, scope)?)
}

/// Returns the node of a literal `{`, `}` or `]`. A `{` is a literal only if it starts no quantifier, so all of it is
/// tested.
fn read_brace(cursor: &mut Cursor, scope: &Scope, c: u32, front: &[u32]) -> Result<Node, Fault>
    requires code_point { IsCodePoint c }
    requires front { front.now ≡ c ∷ source cursor.now }
    ensures value { ParsesAs (IsNode (context_of scope.now) 0 true) (source cursor.new) result (brace_by (context_of scope.now) c (source cursor.old)) }
    ensures kind { FailsByNoLimit result }
{
    if scope.flags.unicode {
        Err(rejected(front.len(), FaultKind::InvalidAtom))
    } else if parse_quantifier(front).is_some() {
        Err(rejected(front.len(), FaultKind::InvalidBracedQuantifier))
    } else {
        Ok(make_literal(cursor.alloc, c, scope)?)
    }
}

/// Parses an escape after its backslash. `begin` is the number of code points that remained before the backslash.
fn read_escaped(cursor: &mut Cursor, scope: &Scope, begin: usize) -> Result<Node, Fault>
    ensures value { ParsesAs (IsNode (context_of scope.now) 0 (not (is_lone_boundary scope.now.dialect (source cursor.old)))) (source cursor.new) result
        (escaped_at (context_of scope.now) (source cursor.old)) }
    ensures kind { FailsByNoLimit result }
{
    let Some((c, rest)) = cursor.rest.split_first() else {
        return Err(rejected(begin, FaultKind::IncompleteEscape));
    };
    let c = *c;
    if let Some((kind, negated)) = class_letter(c) {
        cursor.rest = rest;
        Ok(make_class_escape(cursor.alloc, kind, negated, scope)?)
    } else if c == u32::from('b') {
        cursor.rest = rest;
        Ok(make_boundary(false, scope))
    } else if c == u32::from('B') {
        cursor.rest = rest;
        Ok(make_boundary(true, scope))
    } else if is_lone_backslash(c, rest, scope.flags.unicode) {
        // The `c` is an item of its own.
        Ok(make_literal(cursor.alloc, u32::from('\\'), scope)?)
    } else if begins_property(c, scope) {
        cursor.rest = rest;
        read_property_atom(cursor, scope, c == u32::from('P'), begin)
    } else if begins_number(c) {
        read_numbered(cursor, scope, c, begin)
    } else if begins_name(c, scope) {
        cursor.rest = rest;
        read_named(cursor, scope, begin)
    } else {
        read_character(cursor, scope, c, begin)
    }
}

/// Returns whether the escape is a property, which needs the flag u or v.
fn begins_property(c: u32, scope: &Scope) -> bool
    ensures { result ≡ (is_one_of "pP" c && (scope.now.flags.unicode || scope.now.flags.unicode_sets)) }
{
    is_property_letter(c) && (scope.flags.unicode || scope.flags.unicode_sets)
}

/// Returns whether the escape is a reference by name. Without the flag u and without named groups, `\k` is a literal
/// `k`.
fn begins_name(c: u32, scope: &Scope) -> bool
    ensures { result ≡ (c == char "k" && (scope.now.flags.unicode || has_names (context_of scope.now).names)) }
{
    c == u32::from('k') && has_references_by_name(scope)
}

/// Returns whether `c` is a digit from 1 to 9.
fn begins_number(c: u32) -> bool
    ensures { result ≡ begins_number c }
{
    is_between('1', '9', c)
}

/// Parses a reference by number, which starts with `c`, or a character escape if the number is greater than the number
/// of groups.
fn read_numbered(cursor: &mut Cursor, scope: &Scope, c: u32, begin: usize) -> Result<Node, Fault>
    requires front { source cursor.now ≡ c ∷ drop 1 (source cursor.now) }
    requires digit { begins_number c ≡ true }
    ensures value { ParsesAs (IsNode (context_of scope.now) 0 true) (source cursor.new) result
        (number_reference_at (context_of scope.now) c (drop 1 (source cursor.old))) }
    ensures kind { FailsByNoLimit result }
{
    if let Some((group, rest)) = parse_group_number(cursor.rest, scope.groups.count()) {
        cursor.rest = rest;
        return Ok(Node::BackRef {
            group,
            icase: scope.flags.icase,
        });
    }
    if scope.flags.unicode {
        return Err(rejected(begin, FaultKind::InvalidEscape));
    }
    read_character(cursor, scope, c, begin)
}

/// Parses a reference by name after its `\k`.
fn read_named(cursor: &mut Cursor, scope: &Scope, begin: usize) -> Result<Node, Fault>
    ensures value { ParsesAs (IsNode (context_of scope.now) 0 true) (source cursor.new) result (name_reference_at (context_of scope.now) (source cursor.old)) }
    ensures kind { FailsByNoLimit result }
{
    let groups = parse_reference(cursor, scope, begin)?;
    Ok(make_references(cursor.alloc, groups, scope)?)
}

/// Returns whether the escape is a `c` without a letter after it, and without the flag u: then the backslash is a
/// literal.
fn is_lone_backslash(c: u32, rest: &[u32], unicode: bool) -> bool
    ensures { result ≡ is_lone_backslash unicode c rest.now }
{
    c == u32::from('c') && !unicode && !begins_with_letter(rest)
}

/// Returns whether `source` starts with a letter.
fn begins_with_letter(source: &[u32]) -> bool
    ensures { result ≡ begins_with_letter source.now }
{
    match source {
        [c, ..] => is_letter(*c),
        [] => false,
    }
}

/// Parses a character escape, which starts with `c` (ECMA-262, CharacterEscape).
fn read_character(cursor: &mut Cursor, scope: &Scope, c: u32, begin: usize) -> Result<Node, Fault>
    requires { source cursor.now ≡ c ∷ drop 1 (source cursor.now) }
    ensures value { ParsesAs (IsNode (context_of scope.now) 0 true) (source cursor.new) result
        (character_at (context_of scope.now) c (drop 1 (source cursor.old))) }
    ensures kind { FailsByNoLimit result }
{
    let Some((found, rest)) = parse_character_escape(
        cursor.rest,
        scope.dialect,
        scope.flags.unicode,
    ) else {
        return Err(rejected(begin, escape_fault(cursor.rest)));
    };
    cursor.rest = rest;
    Ok(make_literal(cursor.alloc, found, scope)?)
}

/// Parses a property after its `\p` or `\P`.
fn read_property_atom(
    cursor: &mut Cursor,
    scope: &Scope,
    negated: bool,
    begin: usize,
) -> Result<Node, Fault>
    ensures value { ParsesAs (IsNode (context_of scope.now) 0 true) (source cursor.new) result
        (property_atom_at (context_of scope.now) negated (source cursor.old)) }
    ensures kind { FailsByNoLimit result }
{
    match parse_property(cursor, scope.flags.unicode_sets, scope.tables)? {
        Property::Points(set) => Ok(make_property(set, negated, scope)?),
        Property::Strings(_) if negated => Err(rejected(begin, FaultKind::InvalidEscape)),
        Property::Strings(mut strings) => {
            order_strings(&mut strings, scope)?;
            Ok(make_strings(cursor.alloc, strings, scope.flags.icase)?)
        }
    }
}
