//! Which parts of a pattern are reported, and why.
ghost use Rattle.std.specs.Borrow.{Bor};
ghost use Rattle.std.specs.Prelude.{◌≡◌, ◌||◌, [], ◌∷◌, ◌++◌, None, if◌then◌else◌, map, option_map, zip, All, IfOk, OnOk};
ghost use Rattle.std.specs.List.{list_any};
ghost use Rattle.regress_base.specs.Intervals.{is_member};
ghost use Rattle.regress_lexer.specs.Source.{is_at, IsCodePoint};
ghost use Rattle.regress_syntax.specs.Meaning.{setting_of};
ghost use Rattle.regress_tree.specs.Tree.{tree};
ghost use Rattle.regress_tree.specs.declared.ir.node.Node.{Node};
ghost use Rattle.regress_spans.specs.Children.{trees_at};
ghost use Rattle.regress_spans.specs.Paired.{postorder};
ghost use Rattle.regress_differences.specs.declared.kind.DifferenceKind.TheVariants.{CaseClosure, StringSet, Grammar};
ghost use Rattle.regress_differences.specs.Views.{IsNoneIfMatching, node_at, part_at};
ghost use Rattle.regress_differences.specs.Reported.{apart, are_references, AreParts, difference_of, if_leaf, if_other, is_at_span, is_cased, is_leaf, is_reference, kind_of, others_among, part_of};

use crate::in_ecma::{InEcma, in_ecma, is_same, whole};
use crate::kind::{Difference, DifferenceKind};
use regress_base::codepointset::CodePointSet;
use regress_base::types::Flags;
use regress_parse::Span;
use regress_spans::{SpannedRegex, nodes_in_postorder};
use regress_tree::ir::Node;
use regress_unicode::Tables;
use std::alloc::{AllocError, Global};

/// A part of a pattern that differs.
#[derive(Clone, Copy)]
pub(crate) struct Part<'a> {
    /// Its node, if one is known.
    pub(crate) node: Option<&'a Node>,
    /// Where it is in the pattern.
    pub(crate) span: Span,
}

/// A node with its span.
#[derive(Clone, Copy)]
struct Spanned<'a> {
    node: &'a Node,
    span: Span,
}

/// Returns the parts of a parsed pattern that are reported.
///
/// # Errors
/// Returns [`AllocError`] if an allocation fails.
pub(crate) fn parts_of<'a>(
    alloc: Global,
    pattern: &[u32],
    parsed: &'a SpannedRegex,
    tables: &Tables,
) -> Result<Vec<Part<'a>>, AllocError>
    requires { All IsCodePoint pattern.now }
    ensures parts { let t = tree parsed.now.regex.node in
        IfOk result (λ parts. AreParts (setting_of parsed.now.regex.flags tables.now) pattern.now t (zip (postorder t) parsed.now.spans.items) (map part_at parts.items)) }
    ensures matches { IfOk result (λ parts. IsNoneIfMatching (setting_of parsed.now.regex.flags tables.now) pattern.now (tree parsed.now.regex.node) (map part_at parts.items)) }
{
    match in_ecma(alloc, pattern, parsed, tables)? {
        InEcma::Same => Ok(Vec::new(alloc)),
        InEcma::Other(other) => {
            let found = others_of(alloc, parsed, &other)?;
            if found.is_empty() {
                one_place(alloc, whole(pattern))
            } else {
                Ok(found)
            }
        }
        InEcma::Rejected(place) => one_place(alloc, place),
        InEcma::OtherFlags => one_place(alloc, whole(pattern)),
    }
}

/// Returns one part without a node.
fn one_place<'a>(alloc: Global, span: Span) -> Result<Vec<Part<'a>>, AllocError>
    ensures { IfOk result (λ parts. map part_at parts.items ≡ (None, span) ∷ []) }
{
    let mut parts = Vec::new(alloc);
    parts.push(Part { node: None, span })?;
    Ok(parts)
}

/// Returns the nodes of a tree that are others in a second one.
fn others_of<'a>(
    alloc: Global,
    parsed: &'a SpannedRegex,
    other: &SpannedRegex,
) -> Result<Vec<Part<'a>>, AllocError>
    ensures { IfOk result (λ parts. map part_at parts.items ≡ map part_of (others_among
        (zip (postorder (tree parsed.now.regex.node)) parsed.now.spans.items) (zip (postorder (tree other.now.regex.node)) other.now.spans.items))) }
{
    let nodes = nodes_of(alloc, parsed)?;
    let others = nodes_of(alloc, other)?;
    others_among(alloc, &nodes, &others)
}

/// Returns the nodes of a tree in postorder, with their spans.
fn nodes_of<'a>(alloc: Global, parsed: &'a SpannedRegex) -> Result<Vec<Spanned<'a>>, AllocError>
    ensures { IfOk result (λ nodes. map node_at nodes.items ≡ zip (postorder (tree parsed.now.regex.node)) parsed.now.spans.items) }
{
    let nodes = nodes_in_postorder(alloc, &parsed.regex.node)?;
    beside(alloc, &nodes, &parsed.spans)
}

/// Returns these nodes with these spans.
fn beside<'a>(
    alloc: Global,
    nodes: &[&'a Node],
    spans: &[Span],
) -> Result<Vec<Spanned<'a>>, AllocError>
    ensures { IfOk result (λ found. map node_at found.items ≡ zip (trees_at nodes.now) spans.now) }
{
    let mut found = Vec::new(alloc);
    let mut spans = spans;
    for node in nodes {
        let [span, others @ ..] = spans else {
            return Ok(found);
        };
        found.push(Spanned {
            node: *node,
            span: *span,
        })?;
        spans = others;
    }
    Ok(found)
}

/// Returns those of the nodes of a tree that are others in a second one. Both are compared node by node.
fn others_among<'a>(
    alloc: Global,
    nodes: &[Spanned<'a>],
    others: &[Spanned<'_>],
) -> Result<Vec<Part<'a>>, AllocError>
    ensures { IfOk result (λ found. map part_at found.items ≡ map part_of (others_among (map node_at nodes.now) (map node_at others.now))) }
{
    let mut found = Vec::new(alloc);
    let mut others = others;
    for node in nodes {
        let [other, rest @ ..] = others else {
            return Ok(found);
        };
        if !is_at_span(node.span, other.span) {
            add_leaf(&mut found, *node)?;
            return Ok(found);
        }
        add_other(alloc, &mut found, *node, *other)?;
        others = rest;
    }
    Ok(found)
}

/// Adds a node, if it has no children.
fn add_leaf<'a>(found: &mut Vec<Part<'a>>, node: Spanned<'a>) -> Result<(), AllocError>
    ensures { OnOk result (map part_at found.new.items ≡ map part_at found.old.items ++ map part_of (if_leaf (node_at node.entry))) }
{
    if is_leaf(node.node) {
        found.push(as_part(node))?;
    }
    Ok(())
}

/// Adds a node that is compared by itself, if it is not the other one.
fn add_other<'a>(
    alloc: Global,
    found: &mut Vec<Part<'a>>,
    node: Spanned<'a>,
    other: Spanned<'_>,
) -> Result<(), AllocError>
    ensures { OnOk result (map part_at found.new.items ≡ map part_at found.old.items ++ map part_of (if_other (node_at node.entry) (node_at other.entry))) }
{
    if is_compared(node.node) && !is_same(alloc, node.node, other.node)? {
        found.push(as_part(node))?;
    }
    Ok(())
}

/// Returns a node as a part.
fn as_part(spanned: Spanned<'_>) -> Part<'_>
    ensures { part_at result ≡ part_of (node_at spanned.entry) }
{
    Part {
        node: Some(spanned.node),
        span: spanned.span,
    }
}

/// Returns whether two spans are equal.
fn is_at_span(left: Span, right: Span) -> bool
    ensures { result ≡ is_at_span left right }
{
    left.start == right.start && left.end == right.end
}

/// Returns whether a node is compared by itself.
fn is_compared(node: &Node) -> bool
    ensures { result ≡ (is_leaf (tree node.now) || are_references (tree node.now)) }
{
    match node {
        Node::Alt(left, right) => is_reference(left) && is_reference(right),
        _ => is_leaf(node),
    }
}

/// Returns whether a node has no children.
fn is_leaf(node: &Node) -> bool
    ensures { result ≡ is_leaf (tree node.now) }
{
    !matches!(
        node,
        Node::Cat(_)
            | Node::Alt(_, _)
            | Node::CaptureGroup { .. }
            | Node::Loop { .. }
            | Node::Loop1CharBody { .. }
            | Node::LookaroundAssertion { .. }
    )
}

/// Returns whether a node is a `BackRef`.
fn is_reference(node: &Node) -> bool
    ensures { result ≡ is_reference (tree node.now) }
{
    matches!(node, Node::BackRef { .. })
}

/// Returns what is reported of a part.
pub(crate) fn difference_of(flags: Flags, pattern: &[u32], part: Part<'_>) -> Difference
    ensures { result ≡ difference_of flags pattern.now (part_at part.entry) }
{
    Difference {
        kind: kind_of(
            flags,
            pattern.get(part.span.start..).unwrap_or(&[]),
            part.node,
        ),
        span: part.span,
    }
}

/// Returns why a part is reported. `source` is the source from the start of its span on.
fn kind_of(flags: Flags, source: &[u32], node: Option<&Node>) -> DifferenceKind
    ensures { result ≡ kind_of flags source.now (option_map (λ (n : Bor Node). tree n.now) node.entry) }
{
    match node {
        Some(Node::Bracket(contents)) if is_cased(flags, &contents.cps) =>
            DifferenceKind::CaseClosure,
        Some(Node::StringSet { .. }) => kind_of_strings(flags, source),
        Some(Node::Alt(_, _)) => DifferenceKind::SameName,
        _ => DifferenceKind::Grammar,
    }
}

/// Returns why strings are reported.
fn kind_of_strings(flags: Flags, source: &[u32]) -> DifferenceKind
    ensures { result ≡ (if is_at 92 source.now then StringSet else if flags.icase then CaseClosure else Grammar) }
{
    if is_at(source, '\\') {
        DifferenceKind::StringSet
    } else if flags.icase {
        DifferenceKind::CaseClosure
    } else {
        DifferenceKind::Grammar
    }
}

/// Returns whether a class with this set may differ because of the flag i.
fn is_cased(flags: Flags, closed: &CodePointSet) -> bool
    ensures { result ≡ is_cased flags closed.now }
{
    flags.icase && (flags.unicode || flags.unicode_sets || has_one(closed, &apart()))
}

/// Returns whether one of the characters is a member.
fn has_one(members: &CodePointSet, characters: &[u32]) -> bool
    ensures { result ≡ list_any (is_member members.now) characters.now }
{
    characters.iter().any(|c| members.contains(*c))
}

/// Returns whether a source begins with `c`.
fn is_at(source: &[u32], c: char) -> bool
    ensures { result ≡ is_at c source.now }
{
    match source {
        [next, ..] => *next == u32::from(c),
        [] => false,
    }
}

/// Returns the characters that are case variants of others only with u.
pub(crate) fn apart() -> [u32; 36]
    ensures { result ≡ apart }
{
    [
        0x17F, 0x3F4, 0x1E9E, 0x1F88, 0x1F89, 0x1F8A, 0x1F8B, 0x1F8C, 0x1F8D, 0x1F8E, 0x1F8F,
        0x1F98, 0x1F99, 0x1F9A, 0x1F9B, 0x1F9C, 0x1F9D, 0x1F9E, 0x1F9F, 0x1FA8, 0x1FA9, 0x1FAA,
        0x1FAB, 0x1FAC, 0x1FAD, 0x1FAE, 0x1FAF, 0x1FBC, 0x1FCC, 0x1FD3, 0x1FE3, 0x1FFC, 0x2126,
        0x212A, 0x212B, 0xFB05,
    ]
}
