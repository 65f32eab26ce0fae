//! The literal without which a tree has no match.
ghost use Rattle.std.specs.Prelude.{◌≡◌, ◌⊎◌, ◌<◌, IfSome, length};
ghost use Rattle.regress_tree.specs.Tree.{tree, trees, cat};
ghost use Rattle.regress_prefilter.specs.Literals.{bytes_in, literals, literals_of_trees, longer, longest};
ghost use Rattle.regress_prefilter.specs.Required.{IsRequiredLiteral};

use regress_tree::ir::Node;

/// Returns the longest literal that was found of those that each match in the forward direction contains, `None` if
/// none was found; of several the first one. It is not empty.
///
/// Literals are found outside lookarounds and alternations, and of loops with a minimum above 0.
///
/// # Complexity
/// One pass over the tree, without allocations. The depth of recursion is the depth of the tree.
#[cycle(required_literal)]
pub fn required_literal(node: &Node) -> Option<&[u8]>
    ensures required { IfSome result (λ literal. IsRequiredLiteral literal.now (tree node.now)) }
    ensures not_empty { IfSome result (λ literal. 0 < length literal.now) }
    ensures longest { bytes_in result ≡ longest (literals (tree node.now)) }
{
    match node {
        Node::Cat(parts) => longest_literal(parts),
        Node::CaptureGroup { contents, .. } => required_literal(contents),
        Node::Loop { loopee, quant, .. } if quant.min > 0 => required_literal(loopee),
        Node::Loop1CharBody { loopee, quant } if quant.min > 0 => required_literal(loopee),
        Node::ByteSequence(bytes) if !bytes.is_empty() => Some(bytes.as_slice()),
        _ => None,
    }
}

/// Returns the longest literal that some part requires.
#[cycle(required_literal)]
fn longest_literal(parts: &[Node]) -> Option<&[u8]>
    ensures required { IfSome result (λ literal. IsRequiredLiteral literal.now (cat (trees parts.now))) }
    ensures not_empty { IfSome result (λ literal. 0 < length literal.now) }
    ensures longest { bytes_in result ≡ longest (literals_of_trees (trees parts.now)) }
{
    let mut longest: Option<&[u8]> = None;
    for part in parts {
        longest = longer(longest, required_literal(part));
    }
    longest
}

/// Returns the longer one of two literals, the first one if they are of the same length.
fn longer<'a>(one: Option<&'a [u8]>, two: Option<&'a [u8]>) -> Option<&'a [u8]>
    ensures one_of { (result ≡ one.entry) ⊎ (result ≡ two.entry) }
    ensures longer { bytes_in result ≡ longer (bytes_in one.entry) (bytes_in two.entry) }
{
    match (one, two) {
        (Some(first), Some(second)) if first.len() >= second.len() => one,
        (Some(_), None) => one,
        _ => two,
    }
}
