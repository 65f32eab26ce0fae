//! Which ends of a text a part of a glob matches.
ghost use Rattle.std.specs.Prelude.{◌≡◌, ◌+◌, ◌||◌, IfOk, length};
ghost use Rattle.regex_glob.specs.Glob.{characters, piece_of};
ghost use Rattle.regex_glob.specs.Row.{first_row, head, in_slashes, ors, steps, with_piece};

use crate::piece::{Characters, Piece};
use std::alloc::{AllocError, Global};
use std::collections::VecDeque;

/// Returns the row of no pieces: of the ends of a text of this length, the longest first, they match the empty one.
pub(crate) fn first_row(alloc: Global, length: usize) -> Result<VecDeque<bool>, AllocError>
    ensures { IfOk result (λ row. row.items ≡ first_row length) }
{
    let mut row = VecDeque::new(alloc);
    row.push_front(true)?;
    for _ in 0..length {
        row.push_front(false)?;
    }
    Ok(row)
}

/// Returns the row of one more piece in front of those that have this row.
pub(crate) fn with_piece(
    alloc: Global,
    piece: &Piece,
    text: &[u32],
    row: &VecDeque<bool>,
) -> Result<VecDeque<bool>, AllocError>
    requires { length row.now.items ≡ length text.now + 1 }
    ensures { IfOk result (λ next. next.items ≡ with_piece (piece_of piece.now) text.now row.now.items) }
{
    match piece {
        Piece::Anything => with_anything(alloc, row),
        Piece::One(set) => with_one(alloc, set, text, row),
    }
}

/// Returns whether one of the values from each position on holds.
fn with_anything(alloc: Global, row: &VecDeque<bool>) -> Result<VecDeque<bool>, AllocError>
    ensures { IfOk result (λ next. next.items ≡ ors row.now.items) }
{
    let mut next = VecDeque::new(alloc);
    let mut some = false;
    let mut index = row.len();
    while index > 0 {
        index -= 1;
        some |= row[index];
        next.push_front(some)?;
    }
    Ok(next)
}

/// Returns for each end of the text whether it begins with one of the characters, and the value after that holds.
fn with_one(
    alloc: Global,
    set: &Characters,
    text: &[u32],
    row: &VecDeque<bool>,
) -> Result<VecDeque<bool>, AllocError>
    requires { length row.now.items ≡ length text.now + 1 }
    ensures { IfOk result (λ next. next.items ≡ steps (characters set.now) text.now row.now.items) }
{
    let mut next = VecDeque::new(alloc);
    next.push_front(false)?;
    let mut index = text.len();
    while index > 0 {
        index -= 1;
        let has = set.has(text[index]);
        next.push_front(has & row[index + 1])?;
    }
    Ok(next)
}

/// Returns whether the value of the whole text holds, or the one after a slash.
pub(crate) fn in_name(text: &[u32], row: &VecDeque<bool>) -> bool
    requires { length row.now.items ≡ length text.now + 1 }
    ensures { result ≡ (head row.now.items || in_slashes text.now row.now.items) }
{
    row[0] || in_slashes(text, row)
}

/// Returns whether the value after a slash holds.
fn in_slashes(text: &[u32], row: &VecDeque<bool>) -> bool
    requires { length row.now.items ≡ length text.now + 1 }
    ensures { result ≡ in_slashes text.now row.now.items }
{
    for index in 0..text.len() {
        let found = (text[index] == u32::from('/')) & row[index + 1];
        if found {
            return true;
        }
    }
    false
}
