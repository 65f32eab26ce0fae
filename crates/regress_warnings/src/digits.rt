//! A `.` between digits.
ghost use Rattle.std.specs.Prelude.{◌≡◌};
ghost use Rattle.std.specs.List.{list_all};
ghost use Rattle.regress_tree.specs.Tree.{tree, trees};
ghost use Rattle.regress_warnings.specs.Digits.{are_digits, is_digit, is_digits, is_dot, begins_with_digits, begins_with_dot, contains_dot_first, has_dot_between_digits};

use regress_base::codepointset::Interval;
use regress_tree::ir::Node;

/// Returns whether somewhere in a list digits, a `.` and digits follow one another.
///
/// # Complexity
/// Linear in the number of parts, and for each in the number of loops and groups directly around a digit, or around what
/// begins with a `.`.
pub(crate) fn has_dot_between_digits(parts: &[Node]) -> bool
    ensures { result ≡ has_dot_between_digits (trees parts.now) }
{
    let mut rest = parts;
    while let [part, others @ ..] = rest {
        if begins_with_dot(others) && is_digits(part) {
            return true;
        }
        rest = others;
    }
    false
}

/// Returns whether a list begins with a `.` and digits, which a group or a loop may contain.
#[cycle(begins_with_dot)]
fn begins_with_dot(parts: &[Node]) -> bool
    ensures { result ≡ begins_with_dot (trees parts.now) }
{
    match parts {
        [first, others @ ..] => {
            is_dot(first) && begins_with_digits(others) || contains_dot_first(first)
        }
        [] => false,
    }
}

/// Returns whether a group or a loop contains a list that begins so, as `(?:.\d+)?`.
#[cycle(begins_with_dot)]
fn contains_dot_first(node: &Node) -> bool
    ensures { result ≡ contains_dot_first (tree node.now) }
{
    match node {
        Node::Cat(parts) => begins_with_dot(parts),
        Node::CaptureGroup { contents, .. } => contains_dot_first(contents),
        Node::Loop { loopee, .. } => contains_dot_first(loopee),
        Node::Loop1CharBody { loopee, .. } => contains_dot_first(loopee),
        _ => false,
    }
}

/// Returns whether a list begins with digits.
fn begins_with_digits(parts: &[Node]) -> bool
    ensures { result ≡ begins_with_digits (trees parts.now) }
{
    match parts {
        [digits, ..] => is_digits(digits),
        [] => false,
    }
}

/// Returns whether a node is that of `.`.
fn is_dot(node: &Node) -> bool
    ensures { result ≡ is_dot (tree node.now) }
{
    matches!(node, Node::MatchAny | Node::MatchAnyExceptLineTerminator)
}

/// Returns whether a node matches a digit, with or without quantifiers and capture groups around it.
#[cycle(is_digits)]
fn is_digits(node: &Node) -> bool
    ensures { result ≡ is_digits (tree node.now) }
{
    match node {
        Node::Char { c } => is_digit(*c),
        Node::Bracket(contents) => !contents.invert && are_digits(contents.cps.intervals()),
        Node::CaptureGroup { contents, .. } => is_digits(contents),
        Node::Loop { loopee, .. } => is_digits(loopee),
        Node::Loop1CharBody { loopee, .. } => is_digits(loopee),
        _ => false,
    }
}

fn is_digit(c: u32) -> bool
    ensures { result ≡ is_digit c }
{
    u32::from('0') <= c && c <= u32::from('9')
}

/// Returns whether all intervals have only digits.
fn are_digits(intervals: &[Interval]) -> bool
    ensures { result ≡ list_all are_digits intervals.now }
{
    let mut rest = intervals;
    while let [interval, others @ ..] = rest {
        if interval.first() < u32::from('0') || interval.last() > u32::from('9') {
            return false;
        }
        rest = others;
    }
    true
}
