//! Whether a lookaround captures.
ghost use Rattle.std.specs.Prelude.{◌≡◌};
ghost use Rattle.regress_program.specs.Linear.{changes_some, changes_some_of, is_never};
ghost use Rattle.regress_tree.specs.Tree.{tree, trees};

use regress_base::types::Quantifier;
use regress_tree::ir::Node;

/// Returns whether a part has a capture group, other than in a lookaround or in a loop without iterations.
///
/// # Complexity
/// Linear in the number of nodes outside of lookarounds. The depth of recursion is the nesting depth; right sides of
/// alternatives take no stack.
#[cycle(captures)]
pub(crate) fn captures(node: &Node) -> bool
    ensures { result ≡ changes_some (tree node.now) }
{
    let mut last = node;
    while let Node::Alt(left, right) = last {
        if captures(left) {
            return true;
        }
        last = right;
    }
    captures_inside(last)
}

/// Returns the same, without a loop over alternatives.
#[cycle(captures)]
fn captures_inside(node: &Node) -> bool
    ensures { result ≡ changes_some (tree node.now) }
{
    match node {
        Node::Cat(parts) => some_captures(parts),
        Node::Alt(left, right) => captures(left) || captures(right),
        Node::CaptureGroup { .. } => true,
        Node::Loop {
            enclosed_groups,
            loopee,
            quant,
        } => {
            !is_never(*quant) && (enclosed_groups.start < enclosed_groups.end || captures(loopee))
        }
        Node::Loop1CharBody { loopee, quant } => !is_never(*quant) && captures(loopee),
        _ => false,
    }
}

/// Returns whether one of the parts has one.
#[cycle(captures)]
fn some_captures(parts: &[Node]) -> bool
    ensures { result ≡ changes_some_of (trees parts.now) }
{
    for part in parts {
        if captures(part) {
            return true;
        }
    }
    false
}

/// Returns whether a loop has no iterations.
fn is_never(quantifier: Quantifier) -> bool
    ensures { result ≡ is_never quantifier }
{
    quantifier.min == 0 && quantifier.max == Some(0)
}
