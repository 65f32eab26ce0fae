//! Warns of assertions that can never hold.
ghost use Rattle.std.specs.Prelude.{◌≡◌, ◌++◌, false, option_map, zip, IfOk, OnOk};
ghost use Rattle.regress_assertions.specs.Holding.{unknown};
ghost use Rattle.regress_assertions.specs.Marks.{marks_in};
ghost use Rattle.regress_tree.specs.Tree.{Tree, tree};
ghost use Rattle.regress_spans.specs.Children.{trees_at};
ghost use Rattle.regress_warnings.specs.declared.kind.WarningKind.TheVariants.{ImpossibleAssertion};
ghost use Rattle.regress_warnings.specs.Warned.{last_tree, tree_or, warn_if, warned_if_marked};

use crate::kind::{Warning, WarningKind};
use regress_assertions::impossible_assertions;
use regress_parse::Span;
use regress_tree::ir::Node;
use std::alloc::{AllocError, Global};

/// Appends the warnings of assertions among nodes in postorder, given their spans.
///
/// # Errors
/// Returns [`AllocError`] if an allocation fails.
pub(crate) fn add_impossible(
    alloc: Global,
    nodes: &[&Node],
    spans: &[Span],
    found: &mut Vec<Warning>,
) -> Result<(), AllocError>
    ensures { OnOk result (found.new.items ≡ found.old.items
        ++ warned_if_marked (marks_in false unknown unknown (last_tree unknown (zip (trees_at nodes.now) spans.now))) (zip (trees_at nodes.now) spans.now)) }
{
    let marks = marks_of(alloc, nodes, spans)?;
    add_marked(&marks, nodes, spans, found)
}

/// Returns which nodes of the tree of the last node are assertions that can never hold.
fn marks_of(alloc: Global, nodes: &[&Node], spans: &[Span]) -> Result<Vec<bool>, AllocError>
    ensures { IfOk result (λ marks. marks.items ≡ marks_in false unknown unknown (last_tree unknown (zip (trees_at nodes.now) spans.now))) }
{
    match last_of(nodes, spans) {
        Some(root) => impossible_assertions(alloc, root),
        None => impossible_assertions(alloc, &Node::Empty),
    }
}

/// Returns the last node that has a span, if there is one.
fn last_of<'a>(nodes: &[&'a Node], spans: &[Span]) -> Option<&'a Node>
    ensures { (t : Tree) → tree_or t (option_map (λ n. tree n.now) result) ≡ last_tree t (zip (trees_at nodes.now) spans.now) }
{
    let mut last = None;
    let mut nodes = nodes;
    let mut spans = spans;
    while let [node, other_nodes @ ..] = nodes {
        let [_, other_spans @ ..] = spans else {
            return last;
        };
        last = Some(*node);
        nodes = other_nodes;
        spans = other_spans;
    }
    last
}

/// Appends the warnings of the marked nodes.
fn add_marked(
    marks: &[bool],
    nodes: &[&Node],
    spans: &[Span],
    found: &mut Vec<Warning>,
) -> Result<(), AllocError>
    ensures { OnOk result (found.new.items ≡ found.old.items ++ warned_if_marked marks.now (zip (trees_at nodes.now) spans.now)) }
{
    let mut marks = marks;
    let mut nodes = nodes;
    let mut spans = spans;
    while let [mark, other_marks @ ..] = marks {
        let [_, other_nodes @ ..] = nodes else {
            return Ok(());
        };
        let [span, other_spans @ ..] = spans else {
            return Ok(());
        };
        push_if(*mark, *span, found)?;
        marks = other_marks;
        nodes = other_nodes;
        spans = other_spans;
    }
    Ok(())
}

fn push_if(holds: bool, span: Span, found: &mut Vec<Warning>) -> Result<(), AllocError>
    ensures { OnOk result (found.new.items ≡ found.old.items ++ warn_if holds ImpossibleAssertion span) }
{
    if holds {
        let kind = WarningKind::ImpossibleAssertion;
        found.push(Warning { kind, span })?;
    }
    Ok(())
}
