//! What is warned of in alternations.
ghost use Rattle.std.specs.Prelude.{◌≡◌, ◌-◌, drop};
ghost use Rattle.regress_lexer.specs.Source.{is_at, bar};
ghost use Rattle.regress_tree.specs.Tree.{tree, trees};
ghost use Rattle.regress_warnings.specs.Alternatives.{has_empty_alternative, first_alternative, parts_of, same_first, are_same_literal, begins_with, hides_next, same_anchor, is_anchor, some_part_is_anchor, has_anchor, has_only, ends_with_anchor, splits_anchors};

use regress_parse::Span;
use regress_tree::ir::{AnchorType, Node};
use std::slice;

/// Returns whether an alternation with this span and this right side has an empty alternative first or last.
pub(crate) fn has_empty_alternative(pattern: &[u32], span: Span, right: &Node) -> bool
    ensures { result ≡ has_empty_alternative pattern.now span (tree right.now) }
{
    is_bar(pattern, span.start) || right.is_empty() && is_bar(pattern, span.end.saturating_sub(1))
}

/// Returns whether the code point at that index is `|`.
fn is_bar(pattern: &[u32], index: usize) -> bool
    ensures { result ≡ is_at bar (drop index pattern.now) }
{
    match pattern.get(index..) {
        Some([c, ..]) => *c == u32::from('|'),
        _ => false,
    }
}

/// Returns whether the alternative after the left side begins with all of it, which consists of literals.
///
/// # Complexity
/// Linear in the number of parts of the shorter one.
pub(crate) fn hides_next(left: &Node, right: &Node) -> bool
    ensures { result ≡ hides_next (tree left.now) (tree right.now) }
{
    begins_with(parts_of(left), parts_of(first_alternative(right)))
}

/// Returns the first alternative of a right side.
fn first_alternative(right: &Node) -> &Node
    ensures { tree result.now ≡ first_alternative (tree right.now) }
{
    match right {
        Node::Alt(left, _) => left,
        _ => right,
    }
}

/// Returns the parts of an alternative.
fn parts_of(node: &Node) -> &[Node]
    ensures { trees result.now ≡ parts_of (tree node.now) }
{
    match node {
        Node::Cat(parts) => parts,
        _ => slice::from_ref(node),
    }
}

/// Returns whether the first list has only literals, and the second one begins with them.
fn begins_with(literals: &[Node], parts: &[Node]) -> bool
    ensures { result ≡ begins_with (trees literals.now) (trees parts.now) }
{
    let mut literals = literals;
    let mut parts = parts;
    while let [literal, other_literals @ ..] = literals {
        match parts {
            [part, other_parts @ ..] if are_same_literal(literal, part) => {
                literals = other_literals;
                parts = other_parts;
            }
            _ => return false,
        }
    }
    true
}

/// Returns whether both nodes are literals that match the same characters.
fn are_same_literal(node: &Node, other: &Node) -> bool
    ensures { result ≡ are_same_literal (tree node.now) (tree other.now) }
{
    match (node, other) {
        (Node::Char { c }, Node::Char { c: d }) => c == d,
        (Node::CharSet(characters), Node::CharSet(others)) => { same_first(characters, others) }
        _ => false,
    }
}

/// Returns whether both lists have the same first element.
fn same_first(characters: &[u32], others: &[u32]) -> bool
    ensures { result ≡ same_first characters.now others.now }
{
    match (characters, others) {
        ([c, ..], [d, ..]) => c == d,
        _ => false,
    }
}

/// Returns whether the left side has `^` and no `$`, the last alternative `$` and no `^`, and those between neither.
///
/// # Complexity
/// Linear in the number of parts of the left side, and of the alternatives up to the first one that has an anchor. So
/// it is linear for all the alternations `a|(b|c)` of an alternation `a|b|c` together: if the left side has `^`, no call
/// for an earlier alternative goes past it.
pub(crate) fn splits_anchors(left: &Node, right: &Node) -> bool
    ensures { result ≡ splits_anchors (tree left.now) (tree right.now) }
{
    has_only(AnchorType::StartOfLine, AnchorType::EndOfLine, left) && ends_with_anchor(right)
}

/// Returns whether the last alternative has `$` and no `^`, and the others have neither.
fn ends_with_anchor(node: &Node) -> bool
    ensures { result ≡ ends_with_anchor (tree node.now) }
{
    let mut last = node;
    while let Node::Alt(left, right) = last {
        if has_anchor(AnchorType::StartOfLine, left) || has_anchor(AnchorType::EndOfLine, left) {
            return false;
        }
        last = right;
    }
    has_only(AnchorType::EndOfLine, AnchorType::StartOfLine, last)
}

/// Returns whether an alternative has the one anchor and not the other one.
fn has_only(kind: AnchorType, other: AnchorType, node: &Node) -> bool
    ensures { result ≡ has_only kind other (tree node.now) }
{
    has_anchor(kind, node) && !has_anchor(other, node)
}

/// Returns whether a part of an alternative is this anchor.
fn has_anchor(kind: AnchorType, node: &Node) -> bool
    ensures { result ≡ has_anchor kind (tree node.now) }
{
    some_part_is_anchor(kind, parts_of(node))
}

/// Returns whether one of the parts is this anchor.
fn some_part_is_anchor(kind: AnchorType, parts: &[Node]) -> bool
    ensures { result ≡ some_part_is_anchor kind (trees parts.now) }
{
    let mut rest = parts;
    while let [part, others @ ..] = rest {
        if is_anchor(kind, part) {
            return true;
        }
        rest = others;
    }
    false
}

/// Returns whether a node is this anchor.
fn is_anchor(kind: AnchorType, node: &Node) -> bool
    ensures { result ≡ is_anchor kind (tree node.now) }
{
    match node {
        Node::Anchor { anchor_type, .. } => same_anchor(kind, *anchor_type),
        _ => false,
    }
}

/// Returns whether both are `^`, or both are `$`.
fn same_anchor(kind: AnchorType, other: AnchorType) -> bool
    ensures { result ≡ same_anchor kind other }
{
    match (kind, other) {
        (AnchorType::StartOfLine, AnchorType::StartOfLine)
        | (AnchorType::EndOfLine, AnchorType::EndOfLine) => true,
        _ => false,
    }
}
