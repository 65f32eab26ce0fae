//! The positions in a text at which matches can begin.
ghost use Rattle.std.specs.Prelude.{◌≡◌, ◌≤◌, [], ℕ, List, true, IfSome, Some, length};
ghost use Rattle.regress_tree.specs.Tree.{tree, trees, cat};
ghost use Rattle.regress_tree.specs.Matching.{steps};
ghost use Rattle.regress_tree.specs.Reading.{forwards};
ghost use Rattle.regress_tree.specs.Steps.{MatchState, Setting};
ghost use Rattle.regress_prefilter.specs.Candidates.{AreCandidates, CanBegin, IsAnchored, IsCandidate, IsNext, is_start};

use crate::first_pairs::{Pair, first_pair, next_pair};
use crate::first_sets::{first_bytes, next_candidate};
use crate::near::{Near, near_byte, next_nearby};
use regress_base::bytesearch::ByteBitmap;
use regress_tree::ir::{AnchorType, Node};

/// The byte offsets at which matches in the forward direction can begin, as far as a tree determines them.
#[derive(Clone, Copy)]
pub struct Candidates {
    /// What the first bytes of a match can be.
    pub first: FirstBytes,
    /// A byte that each match contains near its start, or has before it.
    pub near: Option<Near>,
}

/// The byte offsets at which matches can begin by their first bytes.
#[derive(Clone, Copy)]
pub enum FirstBytes {
    /// Every byte offset: nothing is known about the start of a match.
    Anywhere,
    /// Only offset 0: each alternative of the tree begins with a `^` that is not multiline.
    Start,
    /// Each offset with one of these bytes.
    Bytes(ByteBitmap),
    /// Each offset with two bytes of the pair.
    Pair(Pair),
}

/// Returns the candidates of a tree: a match of `node` in the forward direction begins at one of them, for any flags
/// and any text.
///
/// It may give up: the first bytes are [`FirstBytes::Anywhere`] if an alternative does not begin with a `^` that is not
/// multiline, and [`first_bytes`] returns `None`, and [`FirstBytes::Pair`] where [`first_pair`] returns one. The byte near
/// the start is that of [`near_byte`], but with [`FirstBytes::Start`] there is none. No match has to begin at a candidate.
///
/// # Complexity
/// At most four passes over the tree, without allocations. The depth of recursion is the depth of the tree, where the
/// right sides of alternations do not count.
pub fn candidates_of(node: &Node) -> Candidates
    ensures { AreCandidates result (tree node.now) }
{
    if is_anchored(node) {
        return Candidates {
            first: FirstBytes::Start,
            near: None,
        };
    }
    Candidates {
        first: first_bytes_of(node),
        near: near_byte(node),
    }
}

/// Returns what the first bytes of a match can be, if the tree is not known to match at the start of a text only.
fn first_bytes_of(node: &Node) -> FirstBytes
    ensures { (setting : Setting) (bytes : List ℕ) (s : MatchState) → (CanBegin result bytes s.position → ⊥) →
        steps setting bytes forwards (tree node.now) s ≡ [] }
{
    if let Some(pair) = first_pair(node) {
        return FirstBytes::Pair(pair);
    }
    match first_bytes(node) {
        Some(set) => FirstBytes::Bytes(set),
        None => FirstBytes::Anywhere,
    }
}

/// Returns the least candidate of `text` that is at byte offset `from` or later, or `None`.
///
/// No match of the tree begins from `from` up to the result, exclusive. If the result is `None`, no match begins at
/// `from` or later.
///
/// # Preconditions
/// `from` is at most the length of `text`.
///
/// # Complexity
/// Linear in the number of bytes from `from` to the result, times the distance of a byte near the start, which is at most
/// 64.
pub fn next_candidate_from(candidates: &Candidates, text: &str, from: usize) -> Option<usize>
    requires { from ≤ length text.now }
    ensures next { IsNext (IsCandidate candidates.now text.now) from result }
    ensures within { IfSome result (λ position. (from ≤ position) × (position ≤ length text.now)) }
{
    match &candidates.near {
        Some(near) => next_near(candidates, near, text, from),
        None => next_first(&candidates.first, text, from),
    }
}

/// Returns the same where a byte near the start is known.
fn next_near(candidates: &Candidates, near: &Near, text: &str, from: usize) -> Option<usize>
    requires from { from ≤ length text.now }
    requires near { candidates.now.near ≡ Some near.now }
    ensures next { IsNext (IsCandidate candidates.now text.now) from result }
    ensures within { IfSome result (λ position. (from ≤ position) × (position ≤ length text.now)) }
{
    let bytes = text.as_bytes();
    let mut position = next_first(&candidates.first, text, from)?;
    let mut nearby = next_nearby(near, bytes, position)?;
    while position < nearby {
        position = next_first(&candidates.first, text, nearby)?;
        nearby = next_nearby(near, bytes, position)?;
    }
    Some(position)
}

/// Returns the least byte offset, `from` or later, at which a match can begin by its first bytes, or `None`.
///
/// # Preconditions
/// `from` is at most the length of `text`.
#[inline(always)]
fn next_first(first: &FirstBytes, text: &str, from: usize) -> Option<usize>
    requires { from ≤ length text.now }
    ensures next { IsNext (CanBegin first.now text.now) from result }
    ensures within { IfSome result (λ position. (from ≤ position) × (position ≤ length text.now)) }
{
    match first {
        FirstBytes::Anywhere => Some(from),
        FirstBytes::Start => { if from == 0 { Some(0) } else { None } }
        FirstBytes::Bytes(set) => next_candidate(set, text.as_bytes(), from),
        FirstBytes::Pair(pair) => next_pair(pair, text.as_bytes(), from),
    }
}

/// Returns true only if each alternative begins with a `^` that is not multiline: at the start of a sequence or of a
/// capture group, but not of a loop. Iterates over the right sides of alternations, whose depth can be the number of
/// alternatives.
#[cycle(is_anchored)]
fn is_anchored(node: &Node) -> bool
    ensures { result ≡ true → IsAnchored (tree node.now) }
{
    let mut node = node;
    while let Node::Alt(left, right) = node {
        if !is_anchored(left) {
            return false;
        }
        node = right;
    }
    is_anchored_other(node)
}

/// Returns the same for a node that is no `Alt`.
#[cycle(is_anchored)]
fn is_anchored_other(node: &Node) -> bool
    ensures { result ≡ true → IsAnchored (tree node.now) }
{
    match node {
        Node::Anchor {
            anchor_type,
            multiline,
        } => is_start(*anchor_type, *multiline),
        Node::Cat(parts) => is_anchored_list(parts),
        Node::CaptureGroup { contents, .. } => is_anchored(contents),
        _ => false,
    }
}

#[cycle(is_anchored)]
fn is_anchored_list(parts: &[Node]) -> bool
    ensures { result ≡ true → IsAnchored (cat (trees parts.now)) }
{
    match parts.split_first() {
        Some((first, _)) => is_anchored(first),
        None => false,
    }
}

fn is_start(anchor_type: AnchorType, multiline: bool) -> bool
    ensures { result ≡ is_start anchor_type multiline }
{
    match anchor_type {
        AnchorType::StartOfLine => !multiline,
        AnchorType::EndOfLine => false,
    }
}
