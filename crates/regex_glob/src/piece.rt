//! The pieces of a glob.
ghost use Rattle.std.specs.Prelude.{◌≡◌, ◌+◌, ◌≤◌, IfOk, drop, length, map};
ghost use Rattle.std.specs.List.{list_any};
ghost use Rattle.regex_glob.specs.Glob.{characters, class_end, class_of, class_start, closing, has, in_range, inverts, is_class, literal, more_at, piece_at, piece_of, pieces_after, ranges_of};

use crate::token::{Token, is_mark};
use std::alloc::{AllocError, Global};

/// What a part of a glob matches.
#[derive(Drop)]
pub enum Piece {
    /// Any characters, also none.
    Anything,
    /// One of these characters.
    One(Characters),
}

/// Characters in one of these ranges, whose ends are included, or with `inverted` all others.
#[derive(Drop)]
pub struct Characters {
    pub(crate) inverted: bool,
    pub(crate) ranges: Vec<(u32, u32)>,
}

/// Returns the pieces of a glob with these tokens.
pub(crate) fn pieces(alloc: Global, tokens: &[Token]) -> Result<Vec<Piece>, AllocError>
    ensures { IfOk result (λ pieces. map piece_of pieces.items ≡ pieces_after 0 tokens.now) }
{
    let mut pieces = Vec::new(alloc);
    let mut more = 0;
    let mut rest = tokens;
    while let [first, after @ ..] = rest {
        if more > 0 {
            more -= 1;
        } else {
            pieces.push(piece_at(alloc, *first, after)?)?;
            more = more_at(*first, after);
        }
        rest = after;
    }
    Ok(pieces)
}

/// Returns the piece that begins with a token in front of others.
fn piece_at(alloc: Global, first: Token, after: &[Token]) -> Result<Piece, AllocError>
    ensures { IfOk result (λ piece. piece_of piece ≡ piece_at first after.now) }
{
    if is_mark(first, '*') {
        Ok(Piece::Anything)
    } else if is_mark(first, '?') {
        Ok(Piece::One(Characters {
            inverted: true,
            ranges: Vec::new(alloc),
        }))
    } else if is_class(first, after) {
        Ok(Piece::One(class_of(alloc, after)?))
    } else {
        Ok(Piece::One(literal(alloc, first.c)?))
    }
}

/// Returns how many tokens of `after` belong to the piece that begins with `first`.
fn more_at(first: Token, after: &[Token]) -> usize
    ensures { result ≡ more_at first after.now }
{
    if is_class(first, after) {
        class_end(after) + 1
    } else {
        0
    }
}

/// Returns whether a token and those after it begin with a class.
fn is_class(first: Token, after: &[Token]) -> bool
    ensures { result ≡ is_class first after.now }
{
    is_mark(first, '[') && class_end(after) < after.len()
}

/// Returns the position of the `]` of a class in the tokens after its `[`, or a position at their end or later.
fn class_end(after: &[Token]) -> usize
    ensures { result ≡ class_end after.now }
{
    let start = class_start(after) + 1;
    if start > after.len() {
        return start;
    }
    start + closing(&after[start..])
}

/// Returns the position of the first `]`, or the number of tokens.
fn closing(tokens: &[Token]) -> usize
    ensures is { result ≡ closing tokens.now }
    ensures within { result ≤ length tokens.now }
{
    let mut rest = tokens;
    let mut before = 0;
    while let [first, after @ ..] = rest {
        if is_mark(*first, ']') {
            return before;
        }
        before += 1;
        rest = after;
    }
    before
}

/// Returns whether a class is inverted.
fn inverts(after: &[Token]) -> bool
    ensures { result ≡ inverts after.now }
{
    match after {
        [first, ..] => is_mark(*first, '!') || is_mark(*first, '^'),
        [] => false,
    }
}

/// Returns the position of the first member of a class.
fn class_start(after: &[Token]) -> usize
    ensures { result ≡ class_start after.now }
{
    if inverts(after) { 1 } else { 0 }
}

/// Returns the characters of a class whose tokens are after its `[`.
fn class_of(alloc: Global, after: &[Token]) -> Result<Characters, AllocError>
    requires { class_end after.now ≤ length after.now }
    ensures { IfOk result (λ found. characters found ≡ class_of after.now) }
{
    let start = class_start(after);
    let end = class_end(after);
    Ok(Characters {
        inverted: inverts(after),
        ranges: ranges_of(alloc, &after[start..end])?,
    })
}

/// Returns the ranges of the members of a class.
fn ranges_of(alloc: Global, members: &[Token]) -> Result<Vec<(u32, u32)>, AllocError>
    ensures { IfOk result (λ ranges. ranges.items ≡ ranges_of members.now) }
{
    let mut ranges = Vec::new(alloc);
    let mut rest = members;
    while let [first, after @ ..] = rest {
        match after {
            [dash, last, others @ ..] if is_mark(*dash, '-') => {
                ranges.push((first.c, last.c))?;
                rest = others;
            }
            _ => {
                ranges.push((first.c, first.c))?;
                rest = after;
            }
        }
    }
    Ok(ranges)
}

/// Returns one character.
fn literal(alloc: Global, c: u32) -> Result<Characters, AllocError>
    ensures { IfOk result (λ found. characters found ≡ literal c) }
{
    let mut ranges = Vec::new(alloc);
    ranges.push((c, c))?;
    Ok(Characters {
        inverted: false,
        ranges,
    })
}

impl Characters {
    ghost use Rattle.std.specs.Prelude.{◌≡◌};
    ghost use Rattle.regex_glob.specs.Glob.{characters, has};

    /// Returns whether a code point is among them.
    pub(crate) fn has(&self, c: u32) -> bool
        ensures { result ≡ has (characters self.now) c }
    {
        let inside = any_range(&self.ranges, c);
        if self.inverted { !inside } else { inside }
    }
}

/// Returns whether a code point is in one of these ranges.
fn any_range(ranges: &[(u32, u32)], c: u32) -> bool
    ensures { result ≡ list_any (in_range c) ranges.now }
{
    for (first, last) in ranges {
        if *first <= c && c <= *last {
            return true;
        }
    }
    false
}
