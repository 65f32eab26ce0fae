//! Whether a pattern never matches, since assertions of it never hold.
ghost use Rattle.std.specs.Prelude.{◌≡◌, false, is_some};
ghost use Rattle.regress_tree.specs.Tree.{tree, trees};
ghost use Rattle.regress_assertions.specs.Holding.{unknown};
ghost use Rattle.regress_assertions.specs.Never.{never, some_never};

use crate::marks::{after_first, first_or};
use crate::place::Place;
use regress_tree::ir::Node;

/// Returns an assertion that never holds, if each way to match a tree has such a one: the first that is found. Then the
/// tree never matches.
///
/// # Complexity
/// As for [`impossible_assertions`](crate::impossible_assertions).
pub fn impossible_assertion(root: &Node) -> Option<&Node>
    ensures { is_some result ≡ never false unknown unknown (tree root.now) }
{
    let empty = Node::Empty;
    never(root, Place::unknown(false, &empty))
}

/// Returns an assertion because of which a node never matches.
#[cycle(never)]
fn never<'a>(node: &'a Node, place: Place<'_>) -> Option<&'a Node>
    ensures { is_some result ≡ never place.entry.backwards (tree place.entry.previous.now) (tree place.entry.next.now) (tree node.now) }
{
    match node {
        Node::Cat(parts) => some_never(parts, place),
        Node::Alt(left, right) => {
            let found = never(left, place)?;
            never(right, place)?;
            Some(found)
        }
        Node::CaptureGroup { contents, .. } => never(contents, place),
        Node::Loop { loopee, quant, .. } | Node::Loop1CharBody { loopee, quant } => {
            if quant.min == 0 {
                return None;
            }
            never_inside(loopee, place.backwards)
        }
        Node::LookaroundAssertion {
            negate,
            backwards,
            contents,
            ..
        } => {
            if place.fails(node) {
                return Some(node);
            }
            if *negate {
                return None;
            }
            never_inside(contents, *backwards)
        }
        _ => place.fails(node).then_some(node),
    }
}

/// Returns such an assertion of a node of whose neighbors nothing is known.
#[cycle(never)]
fn never_inside(node: &Node, backwards: bool) -> Option<&Node>
    ensures { is_some result ≡ never backwards unknown unknown (tree node.now) }
{
    let empty = Node::Empty;
    never(node, Place::unknown(backwards, &empty))
}

/// Returns such an assertion of one of the parts of a list.
#[cycle(never)]
fn some_never<'a>(parts: &'a [Node], place: Place<'_>) -> Option<&'a Node>
    ensures { is_some result ≡ some_never place.entry.backwards (tree place.entry.previous.now) (tree place.entry.next.now) (trees parts.now) }
{
    let mut previous = place.previous;
    let mut rest = parts;
    for part in parts {
        rest = after_first(rest);
        let here = Place {
            backwards: place.backwards,
            previous,
            next: first_or(place.next, rest),
        };
        if let Some(found) = never(part, here) {
            return Some(found);
        }
        previous = part;
    }
    None
}
