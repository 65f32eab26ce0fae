//! The first two bytes of the matches of a tree.
ghost use Rattle.std.specs.Prelude.{◌≡◌, ◌≤◌, ◌&&◌, ◌||◌, ℕ, List, IfSome, true, false, length};
ghost use Rattle.regress_base.specs.ByteBitmap.{contains};
ghost use Rattle.regress_base.specs.declared.types.Quantifier.{Quantifier};
ghost use Rattle.regress_tree.specs.Repetition.{repeat_matcher};
ghost use Rattle.regress_tree.specs.Steps.{Matcher, ◌then_◌, ◌or_◌};
ghost use Rattle.regress_tree.specs.Tree.{tree, trees, cat, leaf, byte_sequence};
ghost use Rattle.regress_prefilter.specs.FirstPairs.{BeginsWithPair, IsFirstPair, IsFirstPairOf, IsNextPair, is_second};

use crate::first_sets::set_of;
use regress_base::bytesearch::ByteBitmap;
use regress_tree::ir::Node;

/// Bytes with which matches begin.
#[derive(Clone, Copy)]
pub struct Pair {
    /// The first byte of each match is one of these.
    pub first: ByteBitmap,
    /// The second byte of each match is one of these, or no ASCII character.
    pub second: ByteBitmap,
}

/// Returns a pair of sets of a tree: every match in the forward direction has two bytes or more, of which the first is
/// in one of the sets, and the second in the other, or no ASCII character.
///
/// Returns `None` if a match can have less than two bytes. It may also give up and return `None`, and does so if a part
/// to which the first two bytes of a match can belong is one of those for which [`first_bytes`] gives up.
///
/// # Complexity
/// At most one pass over the tree, without allocations. The depth of recursion is the depth of the tree, where the
/// right sides of alternations do not count.
///
/// [`first_bytes`]: crate::first_sets::first_bytes
pub fn first_pair(node: &Node) -> Option<Pair>
    ensures { IfSome result (λ pair. BeginsWithPair pair (tree node.now)) }
{
    let front = pair_of(node)?;
    if front.empty || front.single {
        return None;
    }
    Some(Pair {
        first: front.first,
        second: front.second,
    })
}

/// Returns the least byte offset, `from` or later, of a byte of `pair.first` before one of `pair.second` or one that is
/// no ASCII character, or `None`.
///
/// # Complexity
/// Linear in the number of bytes from `from` to the result.
pub fn next_pair(pair: &Pair, bytes: &[u8], from: usize) -> Option<usize>
    ensures { IsNextPair pair.now bytes.now from result }
{
    for k in from..bytes.len().saturating_sub(1) {
        if pair.first.contains(bytes[k]) && is_second(&pair.second, bytes[k + 1]) {
            return Some(k);
        }
    }
    None
}

/// Returns whether a byte is in the set, or no ASCII character.
#[inline(always)]
fn is_second(set: &ByteBitmap, b: u8) -> bool
    ensures { result ≡ is_second (contains set.now) b }
{
    set.contains(b) || b >= 128
}

/// How the matches of a part of a tree begin. Every match is empty, if `empty` holds, or has one byte, if `single` holds,
/// or has two or more.
#[derive(Clone, Copy)]
pub struct FirstPair {
    /// The first byte of each match that is not empty is one of these.
    pub first: ByteBitmap,
    /// The second byte of each match of two bytes or more is one of these, or no ASCII character.
    pub second: ByteBitmap,
    /// Whether a match can be empty.
    pub empty: bool,
    /// Whether a match can have one byte.
    pub single: bool,
}

impl FirstPair {
    /// Returns that of a part that matches the empty string alone.
    fn empty() -> FirstPair
        ensures first { (b : ℕ) → contains result.first b ≡ false }
        ensures second { (b : ℕ) → contains result.second b ≡ false }
        ensures empty { result.empty ≡ true }
        ensures single { result.single ≡ false }
    {
        FirstPair {
            first: ByteBitmap::default(),
            second: ByteBitmap::default(),
            empty: true,
            single: false,
        }
    }

    /// Returns that of a part that matches nowhere.
    fn nowhere() -> FirstPair
        ensures first { (b : ℕ) → contains result.first b ≡ false }
        ensures second { (b : ℕ) → contains result.second b ≡ false }
        ensures empty { result.empty ≡ false }
        ensures single { result.single ≡ false }
    {
        FirstPair {
            first: ByteBitmap::default(),
            second: ByteBitmap::default(),
            empty: false,
            single: false,
        }
    }

    /// Returns that of one part followed by another.
    fn then(self, next: FirstPair) -> FirstPair
        ensures { (bytes : List ℕ) (f g : Matcher) → IsFirstPairOf self bytes f → IsFirstPairOf next bytes g → IsFirstPairOf result bytes (f then_ g) }
    {
        let second = union_if(self.second, self.single, &next.first);
        FirstPair {
            first: union_if(self.first, self.empty, &next.first),
            second: union_if(second, self.empty, &next.second),
            empty: self.empty & next.empty,
            single: (self.single & next.empty) | (self.empty & next.single),
        }
    }

    /// Returns that of one part or another.
    fn or(self, other: FirstPair) -> FirstPair
        ensures { (bytes : List ℕ) (f g : Matcher) → IsFirstPairOf self bytes f → IsFirstPairOf other bytes g → IsFirstPairOf result bytes (f or_ g) }
    {
        FirstPair {
            first: union_if(self.first, true, &other.first),
            second: union_if(self.second, true, &other.second),
            empty: self.empty | other.empty,
            single: self.single | other.single,
        }
    }

    /// Returns that of at least `least` iterations.
    fn repeated(self, least: usize) -> FirstPair
        ensures { (bytes : List ℕ) (f : Matcher) (q : Quantifier) (bound start end : ℕ) → q.min ≡ least → IsFirstPairOf self bytes f →
            IsFirstPairOf result bytes (repeat_matcher bound q start end f) }
    {
        FirstPair {
            first: self.first,
            second: union_if(self.second, self.single, &self.first),
            empty: self.empty | (least == 0),
            single: self.single & (self.empty | (least < 2)),
        }
    }
}

/// Returns the union of two sets if `joins`, else the first.
fn union_if(set: ByteBitmap, joins: bool, other: &ByteBitmap) -> ByteBitmap
    ensures { (b : ℕ) → contains result b ≡ (contains set b || (joins && contains other.now b)) }
{
    let mut union = set;
    if joins {
        union.bitor(other);
    }
    union
}

/// Returns how the matches of a node begin, or `None` if it is not determined. Iterates over the right sides of
/// alternations, whose depth can be the number of alternatives.
#[cycle(pair_of)]
fn pair_of(node: &Node) -> Option<FirstPair>
    ensures { IfSome result (λ front. IsFirstPair front (tree node.now)) }
{
    let mut node = node;
    let mut all = FirstPair::nowhere();
    while let Node::Alt(left, right) = node {
        all = all.or(pair_of(left)?);
        node = right;
    }
    Some(all.or(pair_of_other(node)?))
}

/// Returns the same for a sequence of parts. Stops after the first two bytes.
#[cycle(pair_of)]
fn pair_of_list(parts: &[Node]) -> Option<FirstPair>
    ensures { IfSome result (λ front. IsFirstPair front (cat (trees parts.now))) }
{
    let mut all = FirstPair::empty();
    for part in parts {
        if !all.empty && !all.single {
            return Some(all);
        }
        all = all.then(pair_of(part)?);
    }
    Some(all)
}

/// Returns the same for a node that is no `Alt`.
#[cycle(pair_of)]
fn pair_of_other(node: &Node) -> Option<FirstPair>
    ensures { IfSome result (λ front. IsFirstPair front (tree node.now)) }
{
    match node {
        Node::Cat(parts) => pair_of_list(parts),
        Node::CaptureGroup { contents, .. } => pair_of(contents),
        Node::Loop { loopee, quant, .. } => Some(pair_of(loopee)?.repeated(quant.min)),
        Node::Loop1CharBody { loopee, quant } => Some(pair_of(loopee)?.repeated(quant.min)),
        Node::LookaroundAssertion { .. } => Some(FirstPair::empty()),
        _ => pair_of_leaf(node),
    }
}

/// Returns the same for a node without children.
fn pair_of_leaf(node: &Node) -> Option<FirstPair>
    ensures { IfSome result (λ front. IsFirstPair front (tree node.now)) }
{
    match node {
        Node::Empty | Node::Goal | Node::Anchor { .. } | Node::WordBoundary { .. } => {
            Some(FirstPair::empty())
        }
        Node::ByteSequence(written) => pair_of_bytes(written),
        Node::Char { .. } | Node::ByteSet(_) | Node::CharSet(_) | Node::Bracket(_) => {
            Some(FirstPair {
                first: set_of(node)?,
                second: ByteBitmap::default(),
                empty: false,
                single: true,
            })
        }
        _ => None,
    }
}

/// Returns the same for a sequence of bytes.
fn pair_of_bytes(written: &[u8]) -> Option<FirstPair>
    ensures { IfSome result (λ front. IsFirstPair front (leaf (byte_sequence written.now))) }
{
    let mut first = ByteBitmap::default();
    let mut second = ByteBitmap::default();
    match written {
        [] => None,
        [a] => {
            first.set(*a);
            Some(FirstPair {
                first,
                second,
                empty: false,
                single: true,
            })
        }
        [a, b, ..] => {
            first.set(*a);
            second.set(*b);
            Some(FirstPair {
                first,
                second,
                empty: false,
                single: false,
            })
        }
    }
}
