//! Lowering of literals to bytes and small sets.
ghost use Rattle.std.specs.Prelude.{◌≡◌, ◌≢◌, ℕ, ◌≤◌, ◌++◌, [], ◌∷◌, map, All, IfOk, IfSome, OnOk, is_some, string_bytes};
ghost use Rattle.regress_base.specs.Intervals.{code_point_max};
ghost use Rattle.regress_literal.specs.Literal.{piece, is_character, bytes_piece, piece_of as piece_of_class, lowered, NoAdjacentSequences, MatchLiterals};
ghost use Rattle.regress_unicode.specs.TableOf.{table_of};

use regress_tree::ir::Node;
use regress_tree::small_sets::ascii;
use regress_unicode::{Tables, expand_code_point};
use std::alloc::{AllocError, Global};
use std::mem;

/// A leaf to which literals are lowered. Each variant is the kind of [`Node`] with the same name.
#[derive(Debug, Drop, PartialEq, Eq)]
pub enum Piece {
    /// A surrogate that matches only itself. It has no UTF-8, so it matches no character of a text.
    Char(u32),
    /// The UTF-8 of one or more characters in order, at least one byte.
    ByteSequence(Vec<u8>),
    /// One of two to four ASCII characters, in ascending order.
    ByteSet(Vec<u8>),
    /// One of two to four code points, in ascending order, at least one of which is not ASCII.
    CharSet(Vec<u32>),
}

impl Piece {
    ghost use Rattle.std.specs.Prelude.{◌≡◌, map, IfOk};
    ghost use Rattle.regress_literal.specs.Literal.{piece};
    ghost use Rattle.regress_tree.specs.Tree.{leaf, list, trees};

    /// Returns the nodes of the pieces, in order.
    ///
    /// # Errors
    /// Returns [`AllocError`] if an allocation fails. The pieces are dropped.
    pub fn into_nodes(alloc: Global, pieces: Vec<Piece>) -> Result<Vec<Node>, AllocError>
        ensures { IfOk result (λ nodes. trees nodes.items ≡ list (map (λ p. leaf (piece p)) pieces.items)) }
    {
        pieces.into_iter().map(Node::from).collect(alloc)
    }

    /// Returns an equal piece that owns all of its memory.
    ///
    /// # Errors
    /// Returns [`AllocError`] if an allocation fails.
    pub fn try_clone(&self, alloc: Global) -> Result<Piece, AllocError>
        ensures { IfOk result (λ copy. piece copy ≡ piece self.now) }
    {
        Ok(match self {
            Piece::Char(c) => Piece::Char(*c),
            Piece::ByteSequence(bytes) => Piece::ByteSequence(Vec::from_slice(alloc, bytes)?),
            Piece::ByteSet(bytes) => Piece::ByteSet(Vec::from_slice(alloc, bytes)?),
            Piece::CharSet(characters) => Piece::CharSet(Vec::from_slice(alloc, characters)?),
        })
    }
}

impl From<Piece> for Node {
    ghost use Rattle.std.specs.Prelude.{◌≡◌};
    ghost use Rattle.regress_literal.specs.Literal.{piece};
    ghost use Rattle.regress_tree.specs.Tree.{leaf, tree};

    ghost from_gives = { λ p node. tree node ≡ leaf (piece p) };

    fn from(piece: Piece) -> Node {
        match piece {
            Piece::Char(c) => Node::Char { c },
            Piece::ByteSequence(bytes) => Node::ByteSequence(bytes),
            Piece::ByteSet(bytes) => Node::ByteSet(bytes),
            Piece::CharSet(characters) => Node::CharSet(characters),
        }
    }
}

/// Returns the pieces of a list of literals, to be matched forwards in order.
///
/// The class of a literal is the set of code points that match it: the literal itself, and with `icase` all code points
/// with the same canonical form (ECMA-262, Canonicalize), by the simple case folding with `unicode` and else by the
/// upper case. If the class is a single character, the UTF-8 of that is appended to a byte sequence, which is joined
/// with the one directly before it. If it is a single surrogate, or two to four code points, it is a piece by itself.
/// No two adjacent pieces are byte sequences.
///
/// # Preconditions
/// Each element of `cps` is a code point, at most U+10FFFF.
///
/// # Errors
/// Returns [`AllocError`] if an allocation fails.
///
/// # Complexity
/// Linear in the number of literals; with `icase` each of them takes at most one pass over the entries of the case
/// table.
///
/// # Examples
/// ```
/// let tables = Tables::small(alloc)?;
/// let points = code_points(alloc, "12éK")?;
/// let pieces = lower_code_point_sequence(alloc, &points, true, false, &tables)?;
/// let printed = format!(in alloc; "{pieces:?}")?;
/// assert_eq!(rt;
///     printed.as_str(),
///     "[ByteSequence([49, 50]), CharSet([201, 233]), ByteSet([75, 107])]"
/// );
/// ```
pub fn lower_code_point_sequence(
    alloc: Global,
    cps: &[u32],
    icase: bool,
    unicode: bool,
    tables: &Tables,
) -> Result<Vec<Piece>, AllocError>
    requires { All (λ c. c ≤ code_point_max) cps.now }
    ensures pieces { IfOk result (λ pieces. map piece pieces.items ≡ lowered (table_of tables.now) icase unicode cps.now) }
    ensures apart { IfOk result (λ pieces. NoAdjacentSequences (map piece pieces.items)) }
    ensures meaning { IfOk result (λ pieces. MatchLiterals (table_of tables.now) icase unicode cps.now (map piece pieces.items)) }
{
    let mut pieces = Vec::new(alloc);
    let mut text = String::new(alloc);
    for c in cps {
        let class = expand_code_point(alloc, *c, icase, unicode, tables)?;
        match character(&class) {
            Some(c) => text.push(c)?,
            None => {
                push_text(&mut pieces, mem::replace(&mut text, String::new(alloc)))?;
                pieces.push(piece_of(alloc, class)?)?;
            }
        }
    }
    push_text(&mut pieces, text)?;
    Ok(pieces)
}

/// Returns the character of a class that is a single character.
fn character(class: &[u32]) -> Option<char>
    ensures one { is_some result ≡ is_character class.now }
    ensures itself { IfSome result (λ c. class.now ≡ c ∷ []) }
{
    match class {
        [c] => char::from_u32(*c),
        _ => None,
    }
}

/// Adds the bytes of the text as a piece, if there are any.
fn push_text(pieces: &mut Vec<Piece>, text: String) -> Result<(), AllocError>
    ensures { OnOk result (map piece pieces.new.items ≡ map piece pieces.old.items ++ bytes_piece (string_bytes text)) }
{
    if !text.is_empty() {
        pieces.push(Piece::ByteSequence(text.into_bytes()))?;
    }
    Ok(())
}

/// Returns the piece of a class that is not a single character.
fn piece_of(alloc: Global, class: Vec<u32>) -> Result<Piece, AllocError>
    requires { class.items ≢ [] }
    ensures { IfOk result (λ p. piece p ≡ piece_of_class class.items) }
{
    if let [c] = class.as_slice() {
        return Ok(Piece::Char(*c));
    }
    match ascii(alloc, &class)? {
        Some(bytes) => Ok(Piece::ByteSet(bytes)),
        None => Ok(Piece::CharSet(class)),
    }
}
