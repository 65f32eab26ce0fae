//! What leaves match.
ghost use Rattle.std.specs.Prelude.{◌≡◌, ◌<◌, [], ◌∷◌, true, None, Some, drop, length, nat_eq, option_map, slice_index, if◌then◌else◌};
ghost use Rattle.std.specs.List.{starts_with};
ghost use Rattle.regress_base.specs.Listing.{lists};
ghost use Rattle.regress_base.specs.Table.{denotes};
ghost use Rattle.regress_base.specs.declared.types.Quantifier.{Quantifier};
ghost use Rattle.regress_tree.specs.Assertions.{at_anchor, at_boundary, is_line_terminator, is_word_character, passes};
ghost use Rattle.regress_tree.specs.Matching.{steps};
ghost use Rattle.regress_tree.specs.Reading.{backwards, forwards, of_bytes, direction_if};
ghost use Rattle.regress_tree.specs.References.{all_of, back_reference, in_order};
ghost use Rattle.regress_tree.specs.Steps.{MatchState, these_bytes};
ghost use Rattle.regress_tree.specs.Tree.{loop_one, tree, wrapped};
ghost use Rattle.regress_unicode.specs.TableOf.{table_of};
ghost use Rattle.regress_prefilter.specs.OneCharacter.{sole_character, takes_one, test_of};
ghost use Rattle.regress_leaves.specs.Leaves.{put, read_of, is_simple, GoesTo, one_of};
ghost use Rattle.regress_leaves.specs.Subject.{subject};

use crate::characters::{denotes, is_line_terminator, is_word_character};
use crate::known::Known;
use crate::reading::{next_read, read_after, read_before};
use crate::rules::MatchContext;
use regress_tree::ir::{AnchorType, Node};

/// Returns the position at which a leaf ends that is matched from `position`, or `None` if it fails. The leaf is neither a
/// backreference nor a set of strings.
pub fn simple_leaf(
    text: &str,
    rules: MatchContext<'_>,
    node: &Node,
    position: usize,
) -> Option<usize>
    ensures { is_simple (tree node.now) ≡ true → GoesTo (subject rules.entry text.now) position (tree node.now) result }
{
    match node {
        Node::Empty | Node::Goal => Some(position),
        Node::ByteSequence(bytes) => these_bytes(text.as_bytes(), rules.backwards, bytes, position),
        Node::Anchor {
            anchor_type,
            multiline,
        } => if_holds(
            at_anchor(text, *anchor_type, *multiline, position),
            position,
        ),
        Node::WordBoundary {
            invert,
            unicode_icase,
        } => if_holds(
            at_boundary(text, rules.known, *invert, *unicode_icase, position),
            position,
        ),
        _ => one_character(text, rules, node, position),
    }
}

/// Returns the position if the test holds.
fn if_holds(holds: bool, position: usize) -> Option<usize>
    ensures { (s : MatchState) → s.position ≡ position → put s result ≡ (if holds then s ∷ [] else []) }
{
    if holds { Some(position) } else { None }
}

/// Returns the position after the bytes `written`, in the direction of matching, or `None` if the text does not have
/// them.
pub(crate) fn these_bytes(
    bytes: &[u8],
    backwards: bool,
    written: &[u8],
    position: usize,
) -> Option<usize>
    ensures { (s : MatchState) → s.position ≡ position → put s result ≡ these_bytes (direction_if backwards) bytes.now written.now s }
{
    if backwards {
        bytes_before(bytes, written, position)
    } else {
        bytes_after(bytes, written, position)
    }
}

/// Returns the position after the bytes `written`, if the text has them from `position` on.
fn bytes_after(bytes: &[u8], written: &[u8], position: usize) -> Option<usize>
    ensures { (s : MatchState) → s.position ≡ position → put s result ≡ these_bytes forwards bytes.now written.now s }
{
    if has_bytes_at(bytes, written, position) {
        Some(position + written.len())
    } else {
        None
    }
}

/// Returns the position before the bytes `written`, if the text has them up to `position`.
fn bytes_before(bytes: &[u8], written: &[u8], position: usize) -> Option<usize>
    ensures { (s : MatchState) → s.position ≡ position → put s result ≡ these_bytes backwards bytes.now written.now s }
{
    let count = written.len();
    if count > position {
        return None;
    }
    if has_bytes_at(bytes, written, position - count) {
        Some(position - count)
    } else {
        None
    }
}

/// Returns whether the text has the bytes `written` from `position` on.
fn has_bytes_at(bytes: &[u8], written: &[u8], position: usize) -> bool
    ensures { result ≡ starts_with nat_eq (drop position bytes.now) written.now }
{
    if position <= bytes.len() {
        bytes[position..].starts_with(written)
    } else {
        written.is_empty()
    }
}

/// Returns the position after one character that the leaf accepts (CharacterSetMatcher), or `None` if it fails.
pub fn one_character(
    text: &str,
    rules: MatchContext<'_>,
    node: &Node,
    position: usize,
) -> Option<usize>
    ensures { (s : MatchState) → s.position ≡ position → put s result ≡ one_of (direction_if rules.entry.backwards) text.now (tree node.now) s }
{
    let (c, to) = next_read(text, rules.backwards, position)?;
    if accepts(node, c) { Some(to) } else { None }
}

/// Returns the position after exactly `count` characters, each of which the leaf accepts, in the direction of matching, or
/// `None` if there are fewer. The leaf matches one character.
pub fn exactly(
    text: &str,
    rules: MatchContext<'_>,
    node: &Node,
    count: usize,
    position: usize,
) -> Option<usize>
    ensures { takes_one (tree node.now) ≡ true → (q : Quantifier) → q.min ≡ count → q.max ≡ Some q.min →
        GoesTo (subject rules.entry text.now) position (wrapped (loop_one q) (tree node.now)) result }
{
    let mut here = position;
    for _i in 0..count {
        here = simple_leaf(text, rules, node, here)?;
    }
    Some(here)
}

/// Returns whether a node is a leaf that matches exactly one character.
pub fn takes_one(node: &Node) -> bool
    ensures { result ≡ takes_one (tree node.now) }
{
    match node {
        Node::Char { .. }
        | Node::ByteSet(_)
        | Node::CharSet(_)
        | Node::MatchAny
        | Node::MatchAnyExceptLineTerminator
        | Node::Bracket(_) => true,
        Node::ByteSequence(bytes) => sole_character(bytes).is_some(),
        _ => false,
    }
}

/// Returns the character whose UTF-8 these bytes are, or `None` if they are not the UTF-8 of exactly one.
pub(crate) fn sole_character(bytes: &[u8]) -> Option<u32>
    ensures { result ≡ sole_character bytes.now }
{
    // no character has more bytes, so a long literal is not checked
    if bytes.len() > 4 {
        return None;
    }
    let text = str::from_utf8(bytes).ok()?;
    let (c, to) = read_after(text, 0)?;
    if to == text.len() { Some(c) } else { None }
}

/// Returns whether a leaf that matches one character accepts `c`; false for any other node.
pub fn accepts(node: &Node, c: u32) -> bool
    ensures { result ≡ test_of (tree node.now) c }
{
    match node {
        Node::Char { c: literal } => c == *literal,
        Node::ByteSequence(bytes) => sole_character(bytes) == Some(c),
        Node::ByteSet(bytes) => lists_byte(bytes, c),
        Node::CharSet(characters) => lists(characters, c),
        Node::MatchAny => true,
        Node::MatchAnyExceptLineTerminator => !is_line_terminator(c),
        Node::Bracket(contents) => contents.cps.contains(c) != contents.invert,
        _ => false,
    }
}

/// Returns whether `c` is one of the bytes.
fn lists_byte(bytes: &[u8], c: u32) -> bool
    ensures { result ≡ lists bytes.now c }
{
    for b in bytes {
        if u32::from(*b) == c {
            return true;
        }
    }
    false
}

/// Returns whether `c` is one of the characters.
fn lists(characters: &[u32], c: u32) -> bool
    ensures { result ≡ lists characters.now c }
{
    for x in characters {
        if *x == c {
            return true;
        }
    }
    false
}

/// Returns whether an anchor holds at a position: at the start or end of the text, or with `multiline` of a line
/// (CompileAssertion).
fn at_anchor(text: &str, anchor_type: AnchorType, multiline: bool, position: usize) -> bool
    ensures { result ≡ at_anchor (of_bytes text.now) anchor_type multiline position }
{
    match anchor_type {
        AnchorType::StartOfLine => {
            position == 0 || (multiline && ends_line(read_before(text, position)))
        }
        AnchorType::EndOfLine => {
            position == text.len() || (multiline && ends_line(read_after(text, position)))
        }
    }
}

/// Returns whether the neighbouring character is a LineTerminator.
fn ends_line(neighbour: Option<(u32, usize)>) -> bool
    ensures { result ≡ passes is_line_terminator (option_map read_of neighbour) }
{
    match neighbour {
        Some((c, _)) => is_line_terminator(c),
        None => false,
    }
}

/// Returns whether exactly one neighbour of the position is a word character, or with `invert` both or neither
/// (CompileAssertion, IsWordChar).
fn at_boundary(
    text: &str,
    known: Known<'_>,
    invert: bool,
    unicode_icase: bool,
    position: usize,
) -> bool
    ensures { result ≡ at_boundary (of_bytes text.now) (is_word_character (table_of known.entry.tables.now) unicode_icase) invert position }
{
    let before = is_word(known, unicode_icase, read_before(text, position));
    let after = is_word(known, unicode_icase, read_after(text, position));
    (before != after) != invert
}

/// Returns whether the neighbouring character is a word character.
fn is_word(known: Known<'_>, unicode_icase: bool, neighbour: Option<(u32, usize)>) -> bool
    ensures { result ≡ passes (is_word_character (table_of known.entry.tables.now) unicode_icase) (option_map read_of neighbour) }
{
    match neighbour {
        Some((c, _)) => is_word_character(known, unicode_icase, c),
        None => false,
    }
}

/// Returns the position after the characters, in the direction of matching, or `None` if the text does not match them.
/// With `icase` canonical forms are compared.
pub fn all_of(
    text: &str,
    rules: MatchContext<'_>,
    icase: bool,
    characters: &[u32],
    position: usize,
) -> Option<usize>
    ensures { (s : MatchState) → s.position ≡ position → (let u = subject rules.entry text.now in
        put s result ≡ all_of u.direction (of_bytes u.bytes) (denotes u.setting.table icase u.setting.flags.unicode) (in_order u.direction characters.now) s) }
{
    let mut here = position;
    for i in 0..characters.len() {
        let c = character_in_order(characters, rules.backwards, i);
        let (x, to) = next_read(text, rules.backwards, here)?;
        if !denotes(rules, icase, c, x) {
            return None;
        }
        here = to;
    }
    Some(here)
}

/// Returns the `i`-th character in the order of matching, which is backwards in a lookbehind.
fn character_in_order(characters: &[u32], backwards: bool, i: usize) -> u32
    requires { i < length characters.now }
    ensures { result ≡ slice_index (in_order (direction_if backwards) characters.now) i }
{
    if backwards {
        characters[characters.len() - 1 - i]
    } else {
        characters[i]
    }
}
