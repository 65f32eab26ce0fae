//! A byte that each match of a tree contains near its start.
ghost use Rattle.std.specs.Prelude.{◌≡◌, ◌≤◌, ◌<◌, ℕ, List, IfSome, false, true, length, nat_lt};
ghost use Rattle.std.specs.Char.{len_utf8};
ghost use Rattle.std.specs.List.{list_all};
ghost use Rattle.regress_base.specs.Intervals.{Bounds};
ghost use Rattle.regress_tree.specs.Onward.{Advances};
ghost use Rattle.regress_tree.specs.Repetition.{repeat_matcher};
ghost use Rattle.regress_tree.specs.Lookaround.{lookaround_matcher};
ghost use Rattle.regress_tree.specs.Matching.{steps};
ghost use Rattle.regress_tree.specs.Reading.{backwards, forwards};
ghost use Rattle.regress_tree.specs.Steps.{Matcher, Setting, these_bytes, ◌then_◌, ◌or_◌};
ghost use Rattle.regress_tree.specs.Tree.{tree, trees, cat};
ghost use Rattle.regress_prefilter.specs.Candidates.{IsNext};
ghost use Rattle.regress_prefilter.specs.Near.{AdvancesAtMost, BeginsNear, IsNearby, IsReach, IsReachOf};
ghost use Rattle.regress_prefilter.specs.OneCharacter.{takes_one, test_of};
ghost use Rattle.regress_prefilter.specs.Required.{Needs};

use memchr::memchr;
use regress_base::codepointset::Interval;
use regress_base::types::Quantifier;
use regress_tree::ir::Node;

/// The greatest distance of the byte, in bytes.
const FARTHEST: usize = 64;

/// The number of bytes of the longest character.
const WIDEST: usize = 4;

/// A byte that each match contains near its start, or has before it.
#[derive(Clone, Copy)]
pub struct Near {
    /// The byte.
    pub byte: u8,
    /// How many bytes before the start of a match it can be.
    pub before: usize,
    /// How many bytes after the start of a match it can be.
    pub within: usize,
}

/// Returns a byte that each match in the forward direction contains at most 64 bytes after its start, or has at most 64
/// bytes before it. Returns `None` if none was found, or only the first byte of each match.
///
/// It is a byte of a literal that is no letter, no digit and no space, outside alternations and of loops with a minimum
/// above 0: the first one of the tree, if what is before it has a maximum length.
///
/// # Complexity
/// At most one pass over the tree, without allocations. The depth of recursion is the depth of the tree, where the right
/// sides of alternations do not count.
pub fn near_byte(node: &Node) -> Option<Near>
    ensures { IfSome result (λ near. BeginsNear near (tree node.now)) }
{
    let near = reach_of(node).near?;
    let farthest = near.before.max(near.within);
    if farthest > 0 && farthest <= FARTHEST {
        Some(near)
    } else {
        None
    }
}

/// Returns the least byte offset, `from` or later, near which the byte is, or `None`.
///
/// # Complexity
/// Linear in the number of bytes from `from` to the result, and how far the byte may be from there.
pub fn next_nearby(near: &Near, bytes: &[u8], from: usize) -> Option<usize>
    ensures next { IsNext (IsNearby near.now bytes.now) from result }
    ensures within { from ≤ length bytes.now → IfSome result (λ i. i ≤ length bytes.now) }
{
    let start = from.saturating_sub(near.before);
    if start >= bytes.len() {
        return None;
    }
    let ahead = memchr(near.byte, &bytes[start..])?;
    Some(from.max((start + ahead).saturating_sub(near.within)))
}

/// How far the matches of a part of a tree reach.
#[derive(Clone, Copy)]
pub struct Reach {
    /// A number of bytes that no match exceeds, if there is one.
    pub width: Option<usize>,
    /// A byte near the start of each match, if one is known.
    pub near: Option<Near>,
}

impl Reach {
    /// Returns what is known of each part.
    fn unknown() -> Reach
        ensures { (bytes : List ℕ) (f : Matcher) → Advances 0 f → IsReachOf result bytes f }
    {
        Reach {
            width: None,
            near: None,
        }
    }

    /// Returns that of a part of which no match exceeds a number of bytes.
    fn up_to(width: usize) -> Reach
        ensures { (bytes : List ℕ) (f : Matcher) → Advances 0 f → AdvancesAtMost width f → IsReachOf result bytes f }
    {
        Reach {
            width: Some(width),
            near: None,
        }
    }

    /// Returns that of one part followed by another.
    fn then(self, next: Reach) -> Reach
        ensures { (bytes : List ℕ) (f g : Matcher) → IsReachOf self bytes f → IsReachOf next bytes g → IsReachOf result bytes (f then_ g) }
    {
        let near = match self.near {
            Some(near) => Some(near),
            None => near_after(self.width, next.near),
        };
        Reach {
            width: width_of_both(self.width, next.width),
            near,
        }
    }

    /// Returns that of one part or another.
    fn or(self, other: Reach) -> Reach
        ensures { (bytes : List ℕ) (f g : Matcher) → IsReachOf self bytes f → IsReachOf other bytes g → IsReachOf result bytes (f or_ g) }
    {
        Reach {
            width: width_of_either(self.width, other.width),
            near: None,
        }
    }

    /// Returns that of the iterations that a quantifier allows.
    fn repeated(self, quant: Quantifier) -> Reach
        ensures { (bytes : List ℕ) (f : Matcher) (bound start end : ℕ) → IsReachOf self bytes f →
            IsReachOf result bytes (repeat_matcher bound quant start end f) }
    {
        Reach {
            width: width_of_iterations(self.width, quant),
            near: if quant.min > 0 { self.near } else { None },
        }
    }
}

/// Returns the byte near the start of what follows, as seen from the start of a part of at most `width` bytes.
fn near_after(width: Option<usize>, near: Option<Near>) -> Option<Near>
    ensures { IfSome result (λ whole. (bytes : List ℕ) (f g : Matcher) → Advances 0 f → IfSome width (λ n. AdvancesAtMost n f) →
        IfSome near (λ part. Needs (λ position. IsNearby part bytes position → ⊥) g) →
        Needs (λ position. IsNearby whole bytes position → ⊥) (f then_ g)) }
{
    let near = near?;
    let within = near.within.checked_add(width?)?;
    Some(Near {
        byte: near.byte,
        before: near.before,
        within,
    })
}

/// Returns a number of bytes that one part followed by another does not exceed.
fn width_of_both(first: Option<usize>, second: Option<usize>) -> Option<usize>
    ensures { IfSome result (λ n. (f g : Matcher) → IfSome first (λ x. AdvancesAtMost x f) → IfSome second (λ y. AdvancesAtMost y g) →
        AdvancesAtMost n (f then_ g)) }
{
    first?.checked_add(second?)
}

/// Returns a number of bytes that neither of two parts exceeds.
fn width_of_either(one: Option<usize>, other: Option<usize>) -> Option<usize>
    ensures { IfSome result (λ n. (f g : Matcher) → IfSome one (λ x. AdvancesAtMost x f) → IfSome other (λ y. AdvancesAtMost y g) →
        AdvancesAtMost n (f or_ g)) }
{
    Some(one?.max(other?))
}

/// Returns a number of bytes that the iterations that a quantifier allows do not exceed.
fn width_of_iterations(width: Option<usize>, quant: Quantifier) -> Option<usize>
    ensures { IfSome result (λ n. (f : Matcher) (bound start end : ℕ) → IfSome width (λ x. AdvancesAtMost x f) →
        AdvancesAtMost n (repeat_matcher bound quant start end f)) }
{
    let most = quant.max?.max(quant.min);
    width?.checked_mul(most)
}

/// Returns how far the matches of a node reach. Iterates over the right sides of alternations, whose depth can be the
/// number of alternatives.
#[cycle(reach_of)]
fn reach_of(node: &Node) -> Reach
    ensures { IsReach result (tree node.now) }
{
    let Node::Alt(left, right) = node else {
        return reach_of_other(node);
    };
    let mut all = reach_of(left);
    let mut last: &Node = right;
    while let Node::Alt(left, right) = last {
        all = all.or(reach_of(left));
        last = right;
    }
    all.or(reach_of_other(last))
}

/// Returns the same for a sequence of parts.
#[cycle(reach_of)]
fn reach_of_list(parts: &[Node]) -> Reach
    ensures { IsReach result (cat (trees parts.now)) }
{
    let mut all = Reach::up_to(0);
    for part in parts {
        all = all.then(reach_of(part));
    }
    all
}

/// Returns the same for a node that is no `Alt`.
#[cycle(reach_of)]
fn reach_of_other(node: &Node) -> Reach
    ensures { IsReach result (tree node.now) }
{
    match node {
        Node::Cat(parts) => reach_of_list(parts),
        Node::CaptureGroup { contents, .. } => reach_of(contents),
        Node::Loop { loopee, quant, .. } => reach_of(loopee).repeated(*quant),
        Node::Loop1CharBody { loopee, quant } => reach_of(loopee).repeated(*quant),
        Node::LookaroundAssertion {
            negate: false,
            backwards: true,
            contents,
            ..
        } => reach_of_lookbehind(contents),
        Node::LookaroundAssertion { .. } => Reach::up_to(0),
        _ => reach_of_leaf(node),
    }
}

/// Returns the same for a lookbehind that is not negated, by its body.
fn reach_of_lookbehind(body: &Node) -> Reach
    ensures { (setting : Setting) (bytes : List ℕ) → IsReachOf result bytes (lookaround_matcher false (steps setting bytes backwards (tree body.now))) }
{
    let near = match body {
        Node::ByteSequence(written) => near_before(written),
        _ => None,
    };
    Reach {
        width: Some(0),
        near,
    }
}

/// Returns a byte before each match that a literal precedes.
fn near_before(written: &[u8]) -> Option<Near>
    ensures { IfSome result (λ near. (bytes : List ℕ) → Needs (λ position. IsNearby near bytes position → ⊥) (these_bytes backwards bytes written.now)) }
{
    let index = first_rare(written)?;
    Some(Near {
        byte: written[index],
        before: written.len() - index,
        within: 0,
    })
}

/// Returns the same for a node without children.
fn reach_of_leaf(node: &Node) -> Reach
    ensures { IsReach result (tree node.now) }
{
    match node {
        Node::Empty | Node::Goal | Node::Anchor { .. } | Node::WordBoundary { .. } => {
            Reach::up_to(0)
        }
        Node::ByteSequence(written) => Reach {
            width: Some(written.len()),
            near: near_in(written),
        },
        Node::Char { .. }
        | Node::ByteSet(_)
        | Node::CharSet(_)
        | Node::Bracket(_)
        | Node::MatchAny
        | Node::MatchAnyExceptLineTerminator => Reach::up_to(width_of(node)),
        _ => Reach::unknown(),
    }
}

/// Returns a byte near the start of a literal.
fn near_in(written: &[u8]) -> Option<Near>
    ensures { IfSome result (λ near. (bytes : List ℕ) → Needs (λ position. IsNearby near bytes position → ⊥) (these_bytes forwards bytes written.now)) }
{
    let index = first_rare(written)?;
    Some(Near {
        byte: written[index],
        before: 0,
        within: index,
    })
}

/// Returns the index of the first byte that is an ASCII character, and no letter, no digit and no space.
fn first_rare(written: &[u8]) -> Option<usize>
    ensures { IfSome result (λ index. index < length written.now) }
{
    written.iter().position(|b| is_rare(*b))
}

/// Returns whether a byte is an ASCII character, and no letter, no digit and no space.
fn is_rare(b: u8) -> bool {
    b.is_ascii() && !b.is_ascii_alphanumeric() && b != b' '
}

/// Returns the number of bytes of the longest character that a leaf matches, or a greater one.
///
/// # Preconditions
/// The leaf matches one character, and is no literal.
fn width_of(node: &Node) -> usize
    ensures { (c : ℕ) → test_of (tree node.now) c ≡ true → len_utf8 c ≤ result }
{
    if is_ascii(node) { 1 } else { WIDEST }
}

/// Returns whether a leaf is known to match characters of ASCII only.
fn is_ascii(node: &Node) -> bool
    ensures { result ≡ true → (c : ℕ) → test_of (tree node.now) c ≡ true → c < 128 }
{
    match node {
        Node::Char { c } => *c < 128,
        Node::ByteSet(bytes) => are_ascii(bytes),
        Node::Bracket(contents) => !contents.invert && end_in_ascii(contents.cps.intervals()),
        _ => false,
    }
}

/// Returns whether all bytes are characters of ASCII.
fn are_ascii(bytes: &[u8]) -> bool
    ensures { result ≡ list_all (λ b. nat_lt b 128) bytes.now }
{
    bytes.iter().all(|b| *b < 128)
}

/// Returns whether all intervals have characters of ASCII only.
fn end_in_ascii(intervals: &[Interval]) -> bool
    ensures { result ≡ list_all (λ (i : Bounds). nat_lt i.last 128) intervals.now }
{
    intervals.iter().all(|interval| interval.last() < 128)
}
