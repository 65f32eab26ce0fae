//! Whether a pattern matches outside of surrogate pairs, by its tree before it is optimized.
ghost use Rattle.std.specs.Prelude.{◌≡◌};
ghost use Rattle.std.specs.List.{list_all};
ghost use Rattle.regress_tree.specs.Tree.{tree, trees};
ghost use Rattle.regress_ecma.specs.SurrogatePairs.{are_outside_pairs, is_interval_outside, is_outside_pairs};
ghost use Rattle.regress.specs.OutsidePairs.{is_consuming_leaf, is_outside_leaf, some_tree_consumes, tree_consumes, tree_is_outside, tree_matches_outside_pairs, trees_are_outside};

use regress_front::codepointset::Interval;
use regress_front::ir::Node;

/// Returns whether each leaf matches only characters that are no surrogates and at most U+FFFF, and each match has one.
///
/// # Complexity
/// Linear in the number of nodes and intervals. The depth of recursion is the nesting depth; right sides of alternatives
/// take no stack.
pub(crate) fn matches_outside_pairs(node: &Node) -> bool
    ensures { result ≡ tree_matches_outside_pairs (tree node.now) }
{
    is_outside(node) && consumes(node)
}

/// Returns whether each leaf matches only such characters.
#[cycle(is_outside)]
fn is_outside(node: &Node) -> bool
    ensures { result ≡ tree_is_outside (tree node.now) }
{
    let mut last = node;
    while let Node::Alt(left, right) = last {
        if !is_outside(left) {
            return false;
        }
        last = right;
    }
    is_outside_inside(last)
}

/// Returns the same, without a loop over alternatives.
#[cycle(is_outside)]
fn is_outside_inside(node: &Node) -> bool
    ensures { result ≡ tree_is_outside (tree node.now) }
{
    match node {
        Node::Cat(parts) => are_outside(parts),
        Node::Alt(left, right) => is_outside(left) && is_outside(right),
        Node::CaptureGroup { contents, .. } => is_outside(contents),
        Node::Loop { loopee, .. } => is_outside(loopee),
        Node::Loop1CharBody { loopee, .. } => is_outside(loopee),
        Node::LookaroundAssertion { contents, .. } => is_outside(contents),
        _ => is_outside_leaf(node),
    }
}

#[cycle(is_outside)]
fn are_outside(parts: &[Node]) -> bool
    ensures { result ≡ trees_are_outside (trees parts.now) }
{
    for part in parts {
        if !is_outside(part) {
            return false;
        }
    }
    true
}

/// Returns the same for a node without parts and body, and false for others.
fn is_outside_leaf(node: &Node) -> bool
    ensures { result ≡ is_outside_leaf (tree node.now) }
{
    match node {
        Node::Empty | Node::Goal | Node::Anchor { .. } => true,
        Node::WordBoundary { unicode_icase, .. } => !*unicode_icase,
        Node::Char { c } => is_outside_pairs(*c),
        Node::CharSet(characters) => all_outside_pairs(characters),
        Node::Bracket(contents) => {
            !contents.invert && are_outside_pairs(contents.cps.intervals())
        }
        _ => false,
    }
}

fn all_outside_pairs(characters: &[u32]) -> bool
    ensures { result ≡ list_all is_outside_pairs characters.now }
{
    characters.iter().all(|c| is_outside_pairs(*c))
}

fn is_outside_pairs(c: u32) -> bool
    ensures { result ≡ is_outside_pairs c }
{
    c < 0xD800 || (0xE000 <= c && c <= 0xFFFF)
}

fn are_outside_pairs(intervals: &[Interval]) -> bool
    ensures { result ≡ are_outside_pairs intervals.now }
{
    let mut rest = intervals;
    while let [interval, others @ ..] = rest {
        if !is_interval_outside(interval) {
            return false;
        }
        rest = others;
    }
    true
}

fn is_interval_outside(interval: &Interval) -> bool
    ensures { result ≡ is_interval_outside interval.now }
{
    interval.last() < 0xD800 || (0xE000 <= interval.first() && interval.last() <= 0xFFFF)
}

/// Returns whether each match has at least one character, as far as the kinds of nodes tell.
#[cycle(consumes)]
fn consumes(node: &Node) -> bool
    ensures { result ≡ tree_consumes (tree node.now) }
{
    let mut last = node;
    while let Node::Alt(left, right) = last {
        if !consumes(left) {
            return false;
        }
        last = right;
    }
    consumes_inside(last)
}

/// Returns the same, without a loop over alternatives.
#[cycle(consumes)]
fn consumes_inside(node: &Node) -> bool
    ensures { result ≡ tree_consumes (tree node.now) }
{
    match node {
        Node::Cat(parts) => some_consumes(parts),
        Node::Alt(left, right) => consumes(left) && consumes(right),
        Node::CaptureGroup { contents, .. } => consumes(contents),
        Node::Loop { loopee, quant, .. } => quant.min != 0 && consumes(loopee),
        Node::Loop1CharBody { loopee, quant } => quant.min != 0 && consumes(loopee),
        Node::LookaroundAssertion { .. } => false,
        _ => is_consuming_leaf(node),
    }
}

#[cycle(consumes)]
fn some_consumes(parts: &[Node]) -> bool
    ensures { result ≡ some_tree_consumes (trees parts.now) }
{
    for part in parts {
        if consumes(part) {
            return true;
        }
    }
    false
}

/// Returns the same for a node without parts and body, and false for others.
fn is_consuming_leaf(node: &Node) -> bool
    ensures { result ≡ is_consuming_leaf (tree node.now) }
{
    matches!(
        node,
        Node::Char { .. }
            | Node::ByteSequence(_)
            | Node::ByteSet(_)
            | Node::CharSet(_)
            | Node::MatchAny
            | Node::MatchAnyExceptLineTerminator
            | Node::Bracket(_)
            | Node::StringSet { .. }
    )
}
