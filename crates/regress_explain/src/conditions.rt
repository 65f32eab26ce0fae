//! Where a pattern matches: the assertions that have to hold.

use crate::elements::{Element, Elements};
use regress_base::types::AnchorType;
use regress_tree::ir::Node;
use regress_tree::ir::held::body;
use std::alloc::{AllocError, Global};

/// A kind of assertion, as a sentence has it.
pub(crate) type Words = &'static str;

/// Returns why an assertion cannot hold, as `` `$` holds only at the end of the text``.
pub(crate) fn reason(assertion: &Node) -> Words {
    match assertion {
        Node::Anchor {
            anchor_type,
            multiline,
        } => anchor_reason(*anchor_type, *multiline),
        Node::WordBoundary { invert: false, .. } =>
            "`\\b` holds only with a word character on exactly one side",
        Node::WordBoundary { invert: true, .. } =>
            "`\\B` holds only with word characters on both sides or on neither",
        Node::LookaroundAssertion {
            negate,
            backwards,
            ..
        } => lookaround_reason(*negate, *backwards),
        _ => "an assertion never holds",
    }
}

fn anchor_reason(end: AnchorType, multiline: bool) -> Words {
    match (end, multiline) {
        (AnchorType::StartOfLine, false) => "`^` holds only at the start of the text",
        (AnchorType::StartOfLine, true) => "`^` holds only at the start of a line",
        (AnchorType::EndOfLine, false) => "`$` holds only at the end of the text",
        (AnchorType::EndOfLine, true) => "`$` holds only at the end of a line",
    }
}

fn lookaround_reason(negate: bool, backwards: bool) -> Words {
    match (negate, backwards) {
        (false, false) => "a lookahead `(?=..)` does not hold before what follows it",
        (true, false) => "a lookahead `(?!..)` does not hold before what follows it",
        (false, true) => "a lookbehind `(?<=..)` does not hold after what precedes it",
        (true, true) => "a lookbehind `(?<!..)` does not hold after what precedes it",
    }
}

/// Returns the assertions that have to hold, except `^` where a pattern begins and `$` where it ends, as
/// ``, where `\b` holds``. Of those in alternatives or optional parts it says only that there are such.
///
/// # Errors
/// Returns [`AllocError`] if an allocation fails.
pub(crate) fn condition_words(
    alloc: Global,
    root: &Node,
    elements: &Elements<'_>,
) -> Result<String, AllocError> {
    let mut kinds = Vec::new(alloc);
    let mut count = 0_usize;
    for (index, element) in elements.iter().enumerate() {
        let Some(kind) = assertion_words(*element) else {
            continue;
        };
        count = count.saturating_add(1);
        if !is_edge(elements, index) && !kinds.iter().any(|other: &Words| *other == kind) {
            kinds.push(kind)?;
        }
    }
    if count < assertion_count(root) {
        return String::from_str(alloc, ", where its assertions hold");
    }
    listed(alloc, &kinds)
}

/// Returns the words of an element that is an assertion.
fn assertion_words(element: Element<'_>) -> Option<Words> {
    match element {
        Element::Anchor {
            end: AnchorType::StartOfLine,
            ..
        } => Some("`^`"),
        Element::Anchor {
            end: AnchorType::EndOfLine,
            ..
        } => Some("`$`"),
        Element::Assertion(words) => Some(words),
        _ => None,
    }
}

/// Returns the words of a node that is an assertion other than `^` and `$`.
pub(crate) fn boundary_words(node: &Node) -> Option<Words> {
    match node {
        Node::WordBoundary { invert: false, .. } => Some("`\\b`"),
        Node::WordBoundary { invert: true, .. } => Some("`\\B`"),
        Node::LookaroundAssertion {
            backwards: false,
            ..
        } => Some("a lookahead"),
        Node::LookaroundAssertion {
            backwards: true,
            ..
        } => Some("a lookbehind"),
        _ => None,
    }
}

/// Returns whether an element is the `^` with which a pattern begins, or the `$` with which it ends: other words say where
/// such a match is.
fn is_edge(elements: &Elements<'_>, index: usize) -> bool {
    match elements.get(index) {
        Some(
            Element::Anchor {
                end: AnchorType::StartOfLine,
                ..
            },
        ) => elements.iter().position(|one| !is_zero_width(one)) == Some(index),
        Some(
            Element::Anchor {
                end: AnchorType::EndOfLine,
                ..
            },
        ) => {
            let after = elements.get(index.saturating_add(1)..).unwrap_or(&[]);
            after.iter().all(|one| is_zero_width(one))
        }
        _ => false,
    }
}

/// Returns whether an element consumes nothing, and is neither `^` nor `$`.
pub(crate) fn is_zero_width(element: &Element<'_>) -> bool {
    matches!(element, Element::Position | Element::Assertion(_))
}

/// Returns the kinds of assertions in a list.
fn listed(alloc: Global, kinds: &[Words]) -> Result<String, AllocError> {
    let mut words = String::new(alloc);
    for (index, kind) in kinds.iter().enumerate() {
        let between = if index == 0 {
            ", where "
        } else if index.saturating_add(1) == kinds.len() {
            " and "
        } else {
            ", "
        };
        words.push_str(between)?;
        words.push_str(*kind)?;
    }
    words.push_str(match kinds.len() {
        0 => "",
        1 => " holds",
        _ => " hold",
    })?;
    Ok(words)
}

/// Returns the number of assertions in a tree, without those in lookarounds.
#[cycle(assertion_count)]
fn assertion_count(node: &Node) -> usize {
    let mut sum = 0_usize;
    let mut last = node;
    while let Node::Alt(left, right) = last {
        sum = sum.saturating_add(assertion_count(left));
        last = right;
    }
    sum.saturating_add(assertion_count_inside(last))
}

/// Returns the same, without a loop over alternatives.
#[cycle(assertion_count)]
fn assertion_count_inside(node: &Node) -> usize {
    match node {
        Node::Cat(parts) => assertion_count_of(parts),
        Node::Alt(left, right) => assertion_count(left).saturating_add(assertion_count(right)),
        Node::Anchor { .. } | Node::WordBoundary { .. } | Node::LookaroundAssertion { .. } => 1,
        node => match body(node) {
            Some(body) => assertion_count(body),
            None => 0,
        },
    }
}

#[cycle(assertion_count)]
fn assertion_count_of(parts: &[Node]) -> usize {
    let mut sum = 0_usize;
    for part in parts {
        sum = sum.saturating_add(assertion_count(part));
    }
    sum
}
