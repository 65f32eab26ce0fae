//! Normal form: the shapes that no node of an optimized tree has, found by walks.

use regress_base::types::BracketContents;
use regress_tree::ir::{Node, Quantifier, Walk, walk};

/// Returns whether a tree is in normal form.
pub fn is_normal(node: &Node) -> bool {
    let mut found = false;
    walk(
        false,
        false,
        node,
        &mut |n: &Node, _w: &mut Walk| {
            found = found || has_shape(n);
        },
    );
    !found
}

fn has_shape(node: &Node) -> bool {
    match node {
        Node::Bracket(contents) => can_be_simplified(contents),
        Node::Cat(parts) => is_loose(parts) || (parts.iter().any(fails) && !has_group(node)),
        Node::ByteSequence(bytes) => bytes.is_empty(),
        Node::Char { c } => char::from_u32(*c).is_some(),
        Node::CharSet(points) => points.iter().all(|c| *c < 0x80),
        Node::Alt(left, right) => {
            (left.is_empty() && right.is_empty())
                || ((fails(left) || fails(right)) && !has_group(node))
        }
        Node::Loop { loopee, quant, .. } => is_loop_to_rewrite(loopee, quant),
        Node::LookaroundAssertion {
            negate,
            contents,
            ..
        } => !*negate && contents.is_empty(),
        _ => false,
    }
}

fn fails(node: &Node) -> bool {
    node.match_always_fails()
}

/// Returns whether a set has a smaller form.
fn can_be_simplified(contents: &BracketContents) -> bool {
    let mut points: usize = 0;
    for interval in contents.cps.intervals() {
        points = points.saturating_add(interval.count_codepoints());
    }
    (!contents.invert && points <= 4)
        || contents.cps.intervals().len() > contents.cps.inverted_interval_count()
}

/// Returns whether a `Cat` has fewer than two parts, a part that could be spliced in or removed, or two that could be
/// joined.
fn is_loose(parts: &[Node]) -> bool {
    let mut was_bytes = false;
    for part in parts {
        let is_bytes = matches!(part, Node::ByteSequence(bytes) if !bytes.is_empty());
        if (was_bytes && is_bytes) || matches!(part, Node::Cat(_) | Node::Empty) {
            return true;
        }
        was_bytes = is_bytes;
    }
    parts.len() < 2
}

/// Returns whether a loop could be removed, replaced by a node that fails, promoted or unrolled.
fn is_loop_to_rewrite(body: &Node, quant: &Quantifier) -> bool {
    body.is_empty()
        || body.matches_exactly_one_char()
        || (!has_group(body)
            && (quant.max == Some(0)
                || (quant.min > 0 && body.match_always_fails())
                || (1 <= quant.min && quant.min <= 5 && can_be_copied(body))))
}

/// Returns whether a body without groups is small enough to be copied.
fn can_be_copied(body: &Node) -> bool {
    let mut charge: usize = 0;
    let mut deepest: usize = 0;
    let mut stays = false;
    walk(
        false,
        false,
        body,
        &mut |n: &Node, w: &mut Walk| {
            let bytes = match n {
                Node::ByteSequence(bytes) => bytes.len(),
                _ => 0,
            };
            charge = charge.saturating_add(1).saturating_add(bytes);
            deepest = deepest.max(w.depth);
            stays = stays || stays_alone(n);
        },
    );
    charge <= 256 && deepest <= 100 && !stays
}

fn stays_alone(node: &Node) -> bool {
    matches!(
        node,
        Node::Loop { .. } | Node::Loop1CharBody { .. } | Node::StringSet { .. }
    )
}

fn has_group(node: &Node) -> bool {
    let mut found = false;
    walk(
        false,
        false,
        node,
        &mut |n: &Node, _w: &mut Walk| {
            found = found || matches!(n, Node::CaptureGroup { .. });
        },
    );
    found
}
