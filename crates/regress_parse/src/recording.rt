//! Records the spans of nodes.
ghost use Rattle.std.specs.Prelude.{◌≡◌, true, false, [], ◌∷◌, ◌++◌, OnOk, length, replicate, List, if◌then◌else◌};
ghost use Rattle.regress_lexer.specs.Views.{source};
ghost use Rattle.regress_tree.specs.Tree.{tree};
ghost use Rattle.regress_tree.specs.Visits.{nodes};
ghost use Rattle.regress_parse.specs.Recorded.{IsChain, IsFlat, joined_in_reverse, span_to, alternations};
ghost use Rattle.regress_parse.specs.Spans.{has_node};
ghost use Rattle.regress_parse.specs.declared.span.Span.{Span};
ghost use Rattle.regress_syntax.specs.Views.{group_of};

use crate::parser::PartContext;
use crate::span::Span;
use regress_syntax::{Cursor, Group};
use regress_tree::ir::Node;
use std::alloc::AllocError;

/// Appends the span from the position where `left` code points remained to the cursor, if spans are recorded and the
/// condition is `true`.
pub(crate) fn record_if<const RECORDS: bool>(
    condition: bool,
    spans: &mut Vec<Span>,
    around: &PartContext,
    left: usize,
    cursor: &Cursor,
) -> Result<(), AllocError>
    ensures { RECORDS ≡ true → OnOk result (spans.new.items ≡
        spans.old.items ++ (if condition then span_to around.now.whole left (source cursor.now) ∷ [] else [])) }
{
    if RECORDS && condition {
        spans.push(around.span(left, cursor))?;
    }
    Ok(())
}

/// Appends the span from the position where `left` code points remained to the cursor once for each node of an item, if
/// spans are recorded.
pub(crate) fn record_nodes<const RECORDS: bool>(
    item: &Node,
    spans: &mut Vec<Span>,
    around: &PartContext,
    left: usize,
    cursor: &Cursor,
) -> Result<(), AllocError>
    ensures { RECORDS ≡ true → IsFlat (tree item.now) → OnOk result (spans.new.items ≡
        spans.old.items ++ replicate (nodes (tree item.now)) (span_to around.now.whole left (source cursor.now))) }
{
    if RECORDS {
        push_nodes(spans, item, around.span(left, cursor))
    } else {
        Ok(())
    }
}

/// Appends the span of an item once for each node of the item: one node, a `Cat` of leaves, or a chain of `Alt` nodes
/// whose alternatives are leaves.
fn push_nodes(spans: &mut Vec<Span>, item: &Node, span: Span) -> Result<(), AllocError>
    ensures { IsFlat (tree item.now) → OnOk result (spans.new.items ≡ spans.old.items ++ replicate (nodes (tree item.now)) span) }
{
    match item {
        Node::Cat(parts) => push_copies(spans, span, parts.len() + 1),
        _ => push_alternatives(spans, item, span),
    }
}

/// Appends the span `count` times.
fn push_copies(spans: &mut Vec<Span>, span: Span, count: usize) -> Result<(), AllocError>
    ensures { OnOk result (spans.new.items ≡ spans.old.items ++ replicate count span) }
{
    for _i in 0..count {
        spans.push(span)?;
    }
    Ok(())
}

/// Appends the span of an item once for each of its nodes: one node, or a chain of `Alt` nodes whose alternatives are
/// leaves.
fn push_alternatives(spans: &mut Vec<Span>, item: &Node, span: Span) -> Result<(), AllocError>
    ensures { IsChain (tree item.now) → OnOk result (spans.new.items ≡ spans.old.items ++ replicate (nodes (tree item.now)) span) }
{
    let mut last = item;
    while let Node::Alt(_, right) = last {
        spans.push(span)?;
        spans.push(span)?;
        last = right;
    }
    spans.push(span)?;
    Ok(())
}

/// Appends the start of an alternative to the list, if spans are recorded.
pub(crate) fn note_start<const RECORDS: bool>(
    starts: &mut Vec<usize>,
    left: usize,
) -> Result<(), AllocError>
    ensures { RECORDS ≡ true → OnOk result (starts.new.items ≡ starts.old.items ++ left ∷ []) }
{
    if RECORDS {
        starts.push(left)?;
    }
    Ok(())
}

/// Appends a span for each `Alt` of alternatives that end at the cursor, innermost first. `starts` has the number of
/// code points that remained at the start of each, outermost first.
pub(crate) fn record_alternations(
    spans: &mut Vec<Span>,
    mut starts: Vec<usize>,
    around: &PartContext,
    cursor: &Cursor,
) -> Result<(), AllocError>
    ensures { OnOk result (spans.new.items ≡
        spans.old.items ++ alternations around.now.whole starts.items (source cursor.now)) }
{
    while let Some(left) = starts.pop() {
        spans.push(around.span(left, cursor))?;
    }
    Ok(())
}

/// Moves the spans from the index `begin` on into a list of their own at the end of `parts`, if parts are matched
/// backwards.
pub(crate) fn set_apart(
    parts: &mut Vec<Vec<Span>>,
    spans: &mut Vec<Span>,
    begin: usize,
    backwards: bool,
) -> Result<(), AllocError>
    ensures forwards { backwards ≡ false → OnOk result ((spans.new.items ≡ spans.old.items) × (parts.new.items ≡ parts.old.items)) }
    ensures backwards { (before part : List Span) → backwards ≡ true → spans.old.items ≡ before ++ part → length before ≡ begin →
        OnOk result ((spans.new.items ≡ before) × (joined_in_reverse parts.new.items ≡ part ++ joined_in_reverse parts.old.items)) }
{
    if !backwards {
        return Ok(());
    }
    let at = begin.min(spans.len());
    parts.push(spans.split_off(at)?)?;
    Ok(())
}

/// Appends the spans of the parts in reverse order of the parts.
pub(crate) fn push_reversed(
    spans: &mut Vec<Span>,
    mut parts: Vec<Vec<Span>>,
) -> Result<(), AllocError>
    ensures { OnOk result (spans.new.items ≡ spans.old.items ++ joined_in_reverse parts.items) }
{
    while let Some(part) = parts.pop() {
        spans.extend_from_slice(&part)?;
    }
    Ok(())
}

/// Returns whether a group has a node of its own. A group that captures nothing or changes flags is replaced by its
/// contents.
pub(crate) fn has_node(kind: &Group) -> bool
    ensures { result ≡ has_node (group_of kind.now) }
{
    match kind {
        Group::Grouping | Group::Modified(_) => false,
        Group::Capture(_) | Group::Look { .. } => true,
    }
}
