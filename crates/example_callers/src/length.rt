//! A recursive function over a tree. docs/guide.md shows parts of it.
ghost use Rattle.std.specs.Prelude.{◌≡◌};
ghost use Rattle.regress_front.specs.Tree.{tree, trees, cat};
ghost use Rattle.regress_tree.specs.Onward.{TakesAtLeast};
ghost use Rattle.example_callers.specs.Least.{least_here};

use regress_front::ir::Node;

/// Returns a lower bound of the length in bytes of each match of the tree, if it is matched forwards, saturating at
/// `usize::MAX`.
///
/// The bound is not the greatest one, and may be 0 although no match is empty: a character counts as one byte, and a
/// backreference or a set of strings as none.
///
/// # Complexity
/// Linear in the size of the tree. The depth of recursion is the nesting depth; right sides of alternatives take no
/// stack.
#[cycle(least_length)]
pub fn least_length(node: &Node) -> usize
    ensures { TakesAtLeast result (tree node.now) }
{
    let mut least = usize::MAX;
    let mut last = node;
    while let Node::Alt(left, right) = last {
        least = least.min(least_length(left));
        last = right;
    }
    least.min(least_length_inside(last))
}

/// Returns the lower bound for a node that is not an `Alt`.
#[cycle(least_length)]
fn least_length_inside(node: &Node) -> usize
    ensures { TakesAtLeast result (tree node.now) }
{
    match node {
        Node::Cat(parts) => least_length_of_all(parts),
        Node::CaptureGroup { contents, .. } => least_length(contents),
        Node::Loop { loopee, quant, .. } => least_length(loopee).saturating_mul(quant.min),
        Node::Loop1CharBody { loopee, quant } => least_length(loopee).saturating_mul(quant.min),
        _ => least_length_here(node),
    }
}

/// Returns the sum of the lower bounds of all parts.
#[cycle(least_length)]
fn least_length_of_all(parts: &[Node]) -> usize
    ensures { TakesAtLeast result (cat (trees parts.now)) }
{
    let mut least = 0_usize;
    for part in parts {
        least = least.saturating_add(least_length(part));
    }
    least
}

/// Returns the lower bound for a leaf.
fn least_length_here(node: &Node) -> usize
    ensures { result ≡ least_here (tree node.now) }
{
    match node {
        Node::ByteSequence(bytes) => bytes.len(),
        Node::Char { .. }
        | Node::ByteSet(_)
        | Node::CharSet(_)
        | Node::Bracket(_)
        | Node::MatchAny
        | Node::MatchAnyExceptLineTerminator => 1,
        _ => 0,
    }
}
