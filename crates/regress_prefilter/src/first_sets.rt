//! The first bytes of the matches of a tree.
ghost use Rattle.std.specs.Box.{boxed_slice_items};
ghost use Rattle.std.specs.Prelude.{◌≡◌, ◌∷◌, ℕ, List, [], map, IfSome, IsTrue, false, true};
ghost use Rattle.regress_base.specs.ByteBitmap.{contains};
ghost use Rattle.regress_base.specs.Intervals.{is_member};
ghost use Rattle.regress_base.specs.Listing.{lists};
ghost use Rattle.regress_base.specs.declared.types.Quantifier.{Quantifier};
ghost use Rattle.regress_tree.specs.Repetition.{repeat_matcher};
ghost use Rattle.regress_tree.specs.Steps.{Matcher, ◌then_◌, ◌or_◌};
ghost use Rattle.regress_tree.specs.Tree.{tree, trees, cat, leaf, byte_sequence, string_set};
ghost use Rattle.regress_prefilter.specs.OneCharacter.{takes_one, test_of};
ghost use Rattle.regress_prefilter.specs.FirstSets.{IsCovered, IsFirstSetOf, IsFirstSet, BeginsWithByteOf, IsNextMember};

use regress_base::bytesearch::{ByteBitmap, ByteSearcher};
use regress_base::codepointset::{CODE_POINT_MAX, Interval};
use regress_base::util::add_utf8_first_bytes_to_bitmap;
use regress_tree::ir::Node;
use std::boxed::BoxedSlice;

/// Returns the first set of a tree: bytes, one of which is at the start of every match in the forward direction.
///
/// Returns `None` if a match can be empty. It may also give up and return `None`, and does so if a part with which a
/// match can begin is any character (`.`), an inverted bracket, a backreference, a set of strings that ignores case or
/// an empty byte sequence. So `None` does not state that there is no such set, and the set may contain bytes with which
/// no match begins.
///
/// # Complexity
/// At most one pass over the tree, without allocations. The depth of recursion is the depth of the tree, where the
/// right sides of alternations do not count.
pub fn first_bytes(node: &Node) -> Option<ByteBitmap>
    ensures { IfSome result (λ set. BeginsWithByteOf set (tree node.now)) }
{
    let front = first_set_of(node)?;
    if front.through {
        None
    } else {
        Some(front.bytes)
    }
}

/// Returns the least byte offset, `from` or later, with a byte of `set`, or `None`.
///
/// # Complexity
/// Linear in the number of bytes from `from` to the result.
pub fn next_candidate(set: &ByteBitmap, bytes: &[u8], from: usize) -> Option<usize>
    ensures { IsNextMember set.now bytes.now from result }
{
    if from >= bytes.len() {
        return None;
    }
    let ahead = set.find_in(&bytes[from..])?;
    Some(from + ahead)
}

/// The first set of a part of a tree. Every match begins with one of `bytes`, except that it can be empty if `through`
/// holds.
#[derive(Clone, Copy)]
pub struct FirstSet {
    /// Bytes, one of which is at the start of every nonempty match.
    pub bytes: ByteBitmap,
    /// Whether a match can be empty at an offset without one of these bytes.
    pub through: bool,
}

impl FirstSet {
    /// Returns the first set of a part that matches the empty string alone.
    fn empty() -> FirstSet
        ensures bytes { (b : ℕ) → contains result.bytes b ≡ false }
        ensures through { result.through ≡ true }
    {
        FirstSet {
            bytes: ByteBitmap::default(),
            through: true,
        }
    }

    /// Returns the first set of a part that matches nowhere.
    fn nowhere() -> FirstSet
        ensures bytes { (b : ℕ) → contains result.bytes b ≡ false }
        ensures through { result.through ≡ false }
    {
        FirstSet {
            bytes: ByteBitmap::default(),
            through: false,
        }
    }

    /// Returns the first set of one part followed by another.
    fn then(self, next: FirstSet) -> FirstSet
        ensures { (bytes : List ℕ) (f g : Matcher) → IsFirstSetOf self bytes f → IsFirstSetOf next bytes g → IsFirstSetOf result bytes (f then_ g) }
    {
        let mut bytes = self.bytes;
        bytes.bitor(&next.bytes);
        FirstSet {
            bytes,
            through: self.through && next.through,
        }
    }

    /// Returns the first set of one part or another.
    fn or(self, other: FirstSet) -> FirstSet
        ensures { (bytes : List ℕ) (f g : Matcher) → IsFirstSetOf self bytes f → IsFirstSetOf other bytes g → IsFirstSetOf result bytes (f or_ g) }
    {
        let mut bytes = self.bytes;
        bytes.bitor(&other.bytes);
        FirstSet {
            bytes,
            through: self.through || other.through,
        }
    }

    /// Returns the first set of at least `least` iterations.
    fn repeated(self, least: usize) -> FirstSet
        ensures { (bytes : List ℕ) (f : Matcher) (q : Quantifier) (bound start end : ℕ) → q.min ≡ least → IsFirstSetOf self bytes f →
            IsFirstSetOf result bytes (repeat_matcher bound q start end f) }
    {
        FirstSet {
            bytes: self.bytes,
            through: self.through || least == 0,
        }
    }
}

/// Returns the first set of a node, or `None` if it is not determined. Iterates over the right sides of alternations,
/// whose depth can be the number of alternatives.
#[cycle(first_set_of)]
fn first_set_of(node: &Node) -> Option<FirstSet>
    ensures { IfSome result (λ front. IsFirstSet front (tree node.now)) }
{
    let mut node = node;
    let mut all = FirstSet::nowhere();
    while let Node::Alt(left, right) = node {
        all = all.or(first_set_of(left)?);
        node = right;
    }
    Some(all.or(first_set_of_other(node)?))
}

/// Returns the first set of a sequence of parts. Stops after the first part that is never empty.
#[cycle(first_set_of)]
fn first_set_of_list(parts: &[Node]) -> Option<FirstSet>
    ensures { IfSome result (λ front. IsFirstSet front (cat (trees parts.now))) }
{
    let mut all = FirstSet::empty();
    for part in parts {
        if !all.through {
            return Some(all);
        }
        all = all.then(first_set_of(part)?);
    }
    Some(all)
}

/// Returns the first set of a node that is no `Alt`.
#[cycle(first_set_of)]
fn first_set_of_other(node: &Node) -> Option<FirstSet>
    ensures { IfSome result (λ front. IsFirstSet front (tree node.now)) }
{
    match node {
        Node::Cat(parts) => first_set_of_list(parts),
        Node::CaptureGroup { contents, .. } => first_set_of(contents),
        Node::Loop { loopee, quant, .. } => Some(first_set_of(loopee)?.repeated(quant.min)),
        Node::Loop1CharBody { loopee, quant } => Some(first_set_of(loopee)?.repeated(quant.min)),
        Node::LookaroundAssertion { .. } => Some(FirstSet::empty()),
        _ => first_set_of_leaf(node),
    }
}

/// Returns the first set of a node without children.
fn first_set_of_leaf(node: &Node) -> Option<FirstSet>
    ensures { IfSome result (λ front. IsFirstSet front (tree node.now)) }
{
    match node {
        Node::Empty | Node::Goal | Node::Anchor { .. } | Node::WordBoundary { .. } => {
            Some(FirstSet::empty())
        }
        Node::ByteSequence(written) => first_set_of_bytes(written),
        Node::Char { .. } | Node::ByteSet(_) | Node::CharSet(_) | Node::Bracket(_) => {
            Some(FirstSet {
                bytes: set_of(node)?,
                through: false,
            })
        }
        Node::StringSet {
            alternatives,
            icase: false,
        } => Some(first_set_of_strings(alternatives)),
        _ => None,
    }
}

/// Returns the first set of a sequence of bytes.
fn first_set_of_bytes(written: &[u8]) -> Option<FirstSet>
    ensures { IfSome result (λ front. IsFirstSet front (leaf (byte_sequence written.now))) }
{
    let Some((first, _)) = written.split_first() else {
        return None;
    };
    let mut bytes = ByteBitmap::default();
    bytes.set(*first);
    Some(FirstSet {
        bytes,
        through: false,
    })
}

/// Returns the first set of strings, one of which is matched exactly.
fn first_set_of_strings(strings: &[BoxedSlice<u32>]) -> FirstSet
    ensures { IsFirstSet result (leaf (string_set (map boxed_slice_items strings.now) false)) }
{
    let mut all = FirstSet::nowhere();
    for string in strings {
        all = all.or(first_set_of_string(string));
    }
    all
}

/// Returns the first set of a string that is matched exactly.
fn first_set_of_string(string: &[u32]) -> FirstSet
    ensures { IsFirstSet result (leaf (string_set (string.now ∷ []) false)) }
{
    let Some(first) = string.first() else {
        return FirstSet::empty();
    };
    let mut bytes = ByteBitmap::default();
    add_character(*first, &mut bytes);
    FirstSet {
        bytes,
        through: false,
    }
}

/// Returns the first bytes of a leaf that matches one character, if the leaf lists its characters.
pub(crate) fn set_of(node: &Node) -> Option<ByteBitmap>
    ensures { IfSome result (λ set. (takes_one (tree node.now) ≡ true) × ((c : ℕ) → test_of (tree node.now) c ≡ true → IsCovered (contains set) c)) }
{
    let mut set = ByteBitmap::default();
    match node {
        Node::Char { c } => add_character(*c, &mut set),
        Node::ByteSet(bytes) => add_bytes(bytes, &mut set),
        Node::CharSet(characters) => add_characters(characters, &mut set),
        Node::Bracket(contents) if !contents.invert => {
            add_intervals(contents.cps.intervals(), &mut set)
        }
        _ => return None,
    }
    Some(set)
}

/// Adds the first byte of the UTF-8 encoding of `c`, if `c` is a code point.
fn add_character(c: u32, set: &mut ByteBitmap)
    ensures kept { (b : ℕ) → IsTrue (contains set.old b) → IsTrue (contains set.new b) }
    ensures covered { IsCovered (contains set.new) c }
{
    if c <= CODE_POINT_MAX {
        add_utf8_first_bytes_to_bitmap(Interval::new(c, c), set);
    }
}

fn add_bytes(bytes: &[u8], set: &mut ByteBitmap)
    ensures { (c : ℕ) → lists bytes.now c ≡ true → IsCovered (contains set.new) c }
{
    for b in bytes {
        add_character(u32::from(*b), set);
    }
}

fn add_characters(characters: &[u32], set: &mut ByteBitmap)
    ensures { (c : ℕ) → lists characters.now c ≡ true → IsCovered (contains set.new) c }
{
    for c in characters {
        add_character(*c, set);
    }
}

fn add_intervals(intervals: &[Interval], set: &mut ByteBitmap)
    ensures { (c : ℕ) → is_member intervals.now c ≡ true → IsCovered (contains set.new) c }
{
    for interval in intervals {
        add_utf8_first_bytes_to_bitmap(*interval, set);
    }
}
