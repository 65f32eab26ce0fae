//! Equality of trees.

use regress_base::types::BracketContents;
use regress_tree::ir::{AnchorType, Node, Quantifier};
use std::boxed::BoxedSlice;

/// Returns whether two trees are equal, node by node.
#[cycle(same)]
pub fn is_same(left: &Node, right: &Node) -> bool {
    match (left, right) {
        (Node::Cat(left), Node::Cat(right)) => are_same(left, right),
        (Node::Alt(left, after), Node::Alt(right, other)) => {
            is_same(left, right) && is_same(after, other)
        }
        (
            Node::CaptureGroup { id, contents, name },
            Node::CaptureGroup {
                id: other_id,
                contents: other,
                name: other_name,
            },
        ) => id == other_id && name == other_name && is_same(contents, other),
        (
            Node::Loop {
                loopee,
                quant,
                enclosed_groups,
            },
            Node::Loop {
                loopee: other,
                quant: other_quant,
                enclosed_groups: other_groups,
            },
        ) => {
            enclosed_groups.start == other_groups.start
                && enclosed_groups.end == other_groups.end
                && are_same_iterations(quant, other_quant)
                && is_same(loopee, other)
        }
        (
            Node::Loop1CharBody { loopee, quant },
            Node::Loop1CharBody {
                loopee: other,
                quant: other_quant,
            },
        ) => are_same_iterations(quant, other_quant) && is_same(loopee, other),
        (
            Node::LookaroundAssertion {
                negate,
                backwards,
                start_group,
                end_group,
                contents,
            },
            Node::LookaroundAssertion {
                negate: other_negate,
                backwards: other_backwards,
                start_group: other_start,
                end_group: other_end,
                contents: other,
            },
        ) => {
            negate == other_negate
                && backwards == other_backwards
                && start_group == other_start
                && end_group == other_end
                && is_same(contents, other)
        }
        _ => is_same_leaf(left, right),
    }
}

#[cycle(same)]
fn are_same(left: &[Node], right: &[Node]) -> bool {
    let mut others = right.iter();
    for one in left {
        match others.next() {
            Some(other) if is_same(one, other) => {}
            _ => return false,
        }
    }
    others.next().is_none()
}

fn are_same_iterations(left: &Quantifier, right: &Quantifier) -> bool {
    left.min == right.min && left.max == right.max && left.greedy == right.greedy
}

/// Returns whether two leaves are equal.
fn is_same_leaf(left: &Node, right: &Node) -> bool {
    match (left, right) {
        (Node::Empty, Node::Empty)
        | (Node::Goal, Node::Goal)
        | (Node::MatchAny, Node::MatchAny)
        | (Node::MatchAnyExceptLineTerminator, Node::MatchAnyExceptLineTerminator) => true,
        (Node::Char { c }, Node::Char { c: other }) => c == other,
        (Node::ByteSequence(bytes), Node::ByteSequence(others))
        | (Node::ByteSet(bytes), Node::ByteSet(others)) => bytes.as_slice() == others.as_slice(),
        (Node::CharSet(points), Node::CharSet(others)) => points.as_slice() == others.as_slice(),
        (Node::Bracket(contents), Node::Bracket(other)) => accept_same(contents, other),
        (
            Node::Anchor {
                anchor_type,
                multiline,
            },
            Node::Anchor {
                anchor_type: other_type,
                multiline: other,
            },
        ) => is_start(anchor_type) == is_start(other_type) && multiline == other,
        (
            Node::WordBoundary {
                invert,
                unicode_icase,
            },
            Node::WordBoundary {
                invert: other_invert,
                unicode_icase: other,
            },
        ) => invert == other_invert && unicode_icase == other,
        (
            Node::BackRef { group, icase },
            Node::BackRef {
                group: other_group,
                icase: other,
            },
        ) => group == other_group && icase == other,
        (
            Node::StringSet {
                alternatives,
                icase,
            },
            Node::StringSet {
                alternatives: others,
                icase: other,
            },
        ) => icase == other && are_same_strings(alternatives, others),
        _ => false,
    }
}

fn are_same_strings(left: &[BoxedSlice<u32>], right: &[BoxedSlice<u32>]) -> bool {
    let mut others = right.iter();
    for one in left {
        match others.next() {
            Some(other) if one[..] == other[..] => {}
            _ => return false,
        }
    }
    others.next().is_none()
}

fn accept_same(left: &BracketContents, right: &BracketContents) -> bool {
    left.invert == right.invert && left.cps == right.cps
}

fn is_start(anchor_type: &AnchorType) -> bool {
    matches!(anchor_type, AnchorType::StartOfLine)
}
