//! Globs.
ghost use Rattle.std.specs.Prelude.{◌≡◌, ◌+◌, IfOk, length, map};
ghost use Rattle.regex_glob.specs.Glob.{matches, piece_of};
ghost use Rattle.regex_glob.specs.Row.{ends};

use crate::piece::{Piece, pieces};
use crate::row::{first_row, in_name, with_piece};
use crate::token::tokens;
use regress_base::util::code_points;
use std::alloc::{AllocError, Global};
use std::collections::VecDeque;

/// A glob: `*` matches any characters, `?` one, `[..]` one of a class, and a backslash quotes the next character.
#[derive(Drop)]
pub struct Glob {
    pub(crate) pieces: Vec<Piece>,
}

impl Glob {
    ghost use Rattle.std.specs.Prelude.{◌≡◌, IfOk, chars};
    ghost use Rattle.regex_glob.specs.Glob.{matches_name, pieces, pieces_of};

    /// Parses a glob. Each text is one.
    ///
    /// # Errors
    /// Returns an error if an allocation fails.
    pub fn new(alloc: Global, text: &str) -> Result<Glob, AllocError>
        ensures { IfOk result (λ glob. pieces glob ≡ pieces_of (chars text.now)) }
    {
        let points = code_points(alloc, text)?;
        let tokens = tokens(alloc, &points)?;
        Ok(Glob {
            pieces: pieces(alloc, &tokens)?,
        })
    }

    /// Returns whether the glob matches the name with these code points, or what is after a slash in it. The time is at most
    /// proportional to the length of the glob times that of the name.
    ///
    /// # Errors
    /// Returns an error if an allocation fails.
    pub fn matches_name(&self, alloc: Global, name: &[u32]) -> Result<bool, AllocError>
        ensures { IfOk result (λ is. is ≡ matches_name (pieces self.now) name.now) }
    {
        let row = row_of(alloc, &self.pieces, name)?;
        Ok(in_name(name, &row))
    }
}

/// Returns for each end of a text, the longest first, whether these pieces match it.
fn row_of(alloc: Global, pieces: &[Piece], text: &[u32]) -> Result<VecDeque<bool>, AllocError>
    ensures row { IfOk result (λ row. row.items ≡ ends (matches (map piece_of pieces.now)) text.now) }
    ensures length { IfOk result (λ row. length row.items ≡ length text.now + 1) }
{
    let mut row = first_row(alloc, text.len())?;
    let mut count = pieces.len();
    while count > 0 {
        count -= 1;
        row = with_piece(alloc, &pieces[count], text, &row)?;
    }
    Ok(row)
}
