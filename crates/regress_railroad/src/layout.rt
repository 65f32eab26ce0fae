//! Lays out a tree as a diagram.

use crate::boxes::{boxed, framed, hung, loop_around, set_box, tracks};
use crate::diagram::{BoxKind, Diagram, FrameKind, Iterations};
use crate::row::{Piece, Row};
use crate::source::{Source, excerpt};
use regress_base::types::{CaptureGroupID, Quantifier};
use regress_labels::{
    Character, Label, anchor_words, columns, group_text, iterations_text, lookaround_words,
    name_of, set_label, set_of, strings_label,
};
use regress_parse::Span;
use regress_tree::ir::Node;
use regress_words::{has_character, is_as_written, is_atom_after, is_one_atom, literal};
use std::alloc::{AllocError, Global};
use std::{mem, slice};

/// The context in which a node is laid out.
#[derive(Drop)]
struct Setting<'a> {
    alloc: Global,
    source: Source<'a>,
    /// The spans of the remaining nodes, in postorder.
    spans: slice::Iter<'a, Span>,
    /// Whether the node is inside a lookbehind, where the parts of a `Cat` are reversed.
    reversed: bool,
}

/// Lays out a tree.
pub(crate) fn layout(
    alloc: Global,
    node: &Node,
    source: Source<'_>,
    spans: &[Span],
) -> Result<Diagram, AllocError> {
    let mut setting = Setting {
        alloc,
        source,
        spans: spans.iter(),
        reversed: false,
    };
    lay_out(node, &mut setting)
}

/// Lays out a node.
#[cycle(lay_out)]
fn lay_out(node: &Node, setting: &mut Setting<'_>) -> Result<Diagram, AllocError> {
    let mut pieces = Vec::new(setting.alloc);
    add(node, setting, &mut pieces)?;
    if setting.reversed {
        pieces.reverse();
    }
    let mut row = Row::new(setting.alloc, setting.source);
    for (piece, span) in pieces {
        row.push(piece, span)?;
    }
    row.finish()
}

/// Pieces with their spans, in the order of the tree.
type Pieces = Vec<(Piece, Option<Span>)>;

/// Adds the piece of a node.
#[cycle(lay_out)]
fn add(node: &Node, setting: &mut Setting<'_>, pieces: &mut Pieces) -> Result<(), AllocError> {
    let piece = match node {
        Node::Cat(parts) => sequence(parts, setting, pieces)?,
        _ => piece(node, setting)?,
    };
    let span = setting.spans.next().copied();
    match piece {
        Some(Piece::Part(mut part)) => {
            part.title = setting.source.title_of(setting.alloc, span, node)?;
            pieces.push((Piece::Part(part), span))?;
        }
        Some(piece) => pieces.push((piece, span))?,
        None => {}
    }
    Ok(())
}

/// Adds the pieces of the parts of a `Cat`; returns the piece of one that is a reference by name to several groups.
#[cycle(lay_out)]
fn sequence(
    parts: &[Node],
    setting: &mut Setting<'_>,
    pieces: &mut Pieces,
) -> Result<Option<Piece>, AllocError> {
    if is_joined_reference(parts, setting) {
        let part = joined_references(parts, setting)?;
        return Ok(Some(Piece::Part(part)));
    }
    for part in parts {
        add(part, setting, pieces)?;
    }
    Ok(None)
}

/// Returns the piece of a node that is not a `Cat`.
#[cycle(lay_out)]
fn piece(node: &Node, setting: &mut Setting<'_>) -> Result<Option<Piece>, AllocError> {
    let part = match node {
        Node::Alt(..) => match atom(node, setting)? {
            Some(part) => Ok(part),
            None => lay_out_tracks(node, setting),
        },
        Node::CaptureGroup { id, contents, .. } => {
            group_around(*id, lay_out(contents, setting)?, setting)
        }
        Node::Loop { loopee, quant, .. } | Node::Loop1CharBody { loopee, quant } => {
            repeated(quant, lay_out(loopee, setting)?, setting)
        }
        Node::LookaroundAssertion {
            negate,
            backwards,
            contents,
            ..
        } => {
            let reversed = mem::replace(&mut setting.reversed, *backwards);
            let body = lay_out(contents, setting)?;
            setting.reversed = reversed;
            lookaround(setting.alloc, *negate, *backwards, body)
        }
        _ => return leaf(node, setting),
    };
    Ok(Some(Piece::Part(part?)))
}

/// Returns the box of alternatives that are written as one atom: a reference by name, a class or a property.
fn atom(node: &Node, setting: &mut Setting<'_>) -> Result<Option<Diagram>, AllocError> {
    if is_reference_by_name(node, setting) {
        return tried_references(node, setting).map(Some);
    }
    if is_set(node, setting)? {
        return written_box(node, setting).map(Some);
    }
    Ok(None)
}

/// Returns a group around its contents.
fn group_around(
    id: CaptureGroupID,
    contents: Diagram,
    setting: &Setting<'_>,
) -> Result<Diagram, AllocError> {
    let group = u32::from(id) + 1;
    let name = name_of(group, setting.source.written.names);
    let label = group_text(setting.alloc, "group ", group, name)?;
    framed(setting.alloc, FrameKind::Group, label, contents)
}

/// Returns a loop around its body.
fn repeated(
    quant: &Quantifier,
    body: Diagram,
    setting: &Setting<'_>,
) -> Result<Diagram, AllocError> {
    match quant.max {
        Some(0) => nothing(setting),
        _ => loop_around(setting.alloc, iterations(setting.alloc, quant)?, body),
    }
}

/// Lays out alternatives. It iterates over right sides: there may be as many nested ones as alternatives. The last
/// alternative may be written as one atom that is an alternation itself.
#[cycle(lay_out)]
fn lay_out_tracks(node: &Node, setting: &mut Setting<'_>) -> Result<Diagram, AllocError> {
    let Node::Alt(left, right) = node else {
        return Ok(Diagram::line());
    };
    let mut all = Vec::new(setting.alloc);
    let mut before = next_span(setting).unwrap_or(NO_SPAN);
    all.push(lay_out(left, setting)?)?;
    let mut rest: &Node = right;
    while let Node::Alt(left, right) = rest
        && !is_atom_after(before, left, setting.spans.as_slice())
    {
        before = next_span(setting).unwrap_or(NO_SPAN);
        all.push(lay_out(left, setting)?)?;
        rest = right;
    }
    all.push(lay_out(rest, setting)?)?;
    // The spans of the inner `Alt`s come before that of the outermost one.
    skip_spans(all.len().saturating_sub(2), setting);
    Ok(tracks(all))
}

/// Skips the spans of that many nodes.
fn skip_spans(count: usize, setting: &mut Setting<'_>) {
    for _node in 0..count {
        setting.spans.next();
    }
}

/// Returns the span of the next node in postorder.
fn next_span(setting: &Setting<'_>) -> Option<Span> {
    setting.spans.as_slice().first().copied()
}

/// Returns whether a node is a reference by name to several groups that are tried in order: all of its nodes have the same
/// span.
fn is_reference_by_name(node: &Node, setting: &Setting<'_>) -> bool {
    match node {
        Node::Alt(left, _) => begins_reference(left, setting),
        _ => false,
    }
}

/// Returns whether the parts of a `Cat` are a reference by name to several groups, of which at most one is set: all of its
/// nodes have the same span.
fn is_joined_reference(parts: &[Node], setting: &Setting<'_>) -> bool {
    match parts {
        [first, ..] => begins_reference(first, setting),
        [] => false,
    }
}

/// Returns whether a node is a back reference, and the next two spans are the same.
fn begins_reference(first: &Node, setting: &Setting<'_>) -> bool {
    match (first, setting.spans.as_slice()) {
        (Node::BackRef { .. }, [first, second, ..]) => first == second,
        _ => false,
    }
}

/// Returns whether alternatives are written as one class or property: all of its nodes have the same span.
fn is_set(node: &Node, setting: &Setting<'_>) -> Result<bool, AllocError> {
    match setting.spans.as_slice() {
        [first, second, ..] if first == second => {
            is_one_atom(node, *first, setting.source.written)
        }
        _ => Ok(false),
    }
}

/// Returns a box for alternatives that are written as one class or property, and skips the spans of the nodes inside.
fn written_box(node: &Node, setting: &mut Setting<'_>) -> Result<Diagram, AllocError> {
    let pattern = setting.source.written.pattern;
    let text = excerpt(setting.alloc, pattern, next_span(setting))?;
    let mut rest = node;
    while let Node::Alt(_, right) = rest {
        skip_spans(2, setting);
        rest = right;
    }
    let text = text.unwrap_or(String::new(setting.alloc));
    Ok(written_set(BoxKind::Set, text, ""))
}

/// The maximum number of groups that a reference by name lists.
const LISTED_GROUPS: usize = 4;

/// Returns a box for a reference by name to several groups that are tried in order, and skips the spans of the nodes inside.
fn tried_references(node: &Node, setting: &mut Setting<'_>) -> Result<Diagram, AllocError> {
    let mut groups = Vec::new(setting.alloc);
    let mut rest = node;
    while let Node::Alt(left, right) = rest {
        push_referenced(left, &mut groups)?;
        skip_spans(2, setting);
        rest = right;
    }
    push_referenced(rest, &mut groups)?;
    references(&groups, is_caseless(rest), setting)
}

/// Returns a box for a reference by name to several groups that are joined, and skips the spans of the nodes inside.
fn joined_references(parts: &[Node], setting: &mut Setting<'_>) -> Result<Diagram, AllocError> {
    let mut groups = Vec::new(setting.alloc);
    for part in parts {
        push_referenced(part, &mut groups)?;
    }
    skip_spans(parts.len(), setting);
    references(&groups, parts.iter().any(|part| is_caseless(part)), setting)
}

/// Appends the number of the group of a back reference.
fn push_referenced(node: &Node, groups: &mut Vec<u32>) -> Result<(), AllocError> {
    if let Node::BackRef { group, .. } = node {
        groups.push(*group)?;
    }
    Ok(())
}

/// Returns a box for a reference by name to these groups. One more than the maximum is listed, in place of a note about it.
fn references(groups: &[u32], icase: bool, setting: &Setting<'_>) -> Result<Diagram, AllocError> {
    let count = groups.len();
    let listed = if count > LISTED_GROUPS + 1 {
        LISTED_GROUPS
    } else {
        count
    };
    let mut text = String::new(setting.alloc);
    for group in groups.iter().take(listed) {
        if !text.is_empty() {
            text.push_str(" or ")?;
        }
        let name = name_of(*group, setting.source.written.names);
        text.push_str(&group_text(setting.alloc, "", *group, name)?)?;
    }
    if count > listed {
        let more = count - listed;
        text.push_str(&format!(in setting.alloc; " or {more} more")?)?;
    }
    Ok(reference_box(text, icase))
}

fn is_caseless(node: &Node) -> bool {
    matches!(node, Node::BackRef { icase: true, .. })
}

/// Returns a box for a loop without iterations, which matches the empty text.
fn nothing(setting: &Setting<'_>) -> Result<Diagram, AllocError> {
    let written = excerpt(
        setting.alloc,
        setting.source.written.pattern,
        next_span(setting),
    )?;
    let label = match written {
        Some(text) => Label {
            front: "nothing for",
            text,
            after: "",
        },
        None => Label::words(setting.alloc, "nothing"),
    };
    Ok(boxed(BoxKind::Position, label))
}

/// Returns the lines of a loop.
fn iterations(alloc: Global, quant: &Quantifier) -> Result<Iterations, AllocError> {
    let again = match quant.max {
        Some(max) => max > 1,
        None => true,
    };
    let none = quant.min == 0;
    let label = iterations_text(alloc, quant)?;
    Ok(Iterations { again, none, label })
}

fn lookaround(
    alloc: Global,
    negate: bool,
    backwards: bool,
    body: Diagram,
) -> Result<Diagram, AllocError> {
    let kind = if negate {
        FrameKind::Without
    } else {
        FrameKind::Around
    };
    let label = String::from_str(alloc, lookaround_words(negate, backwards))?;
    hung(alloc, kind, label, body)
}

/// Returns the piece of a leaf.
fn leaf(node: &Node, setting: &Setting<'_>) -> Result<Option<Piece>, AllocError> {
    let alloc = setting.alloc;
    Ok(Some(match node {
        Node::Char { c } => Piece::Character(Character::plain(*c)),
        Node::ByteSequence(bytes) => Piece::Text(String::from_utf8_lossy(alloc, bytes)?),
        Node::ByteSet(_) | Node::CharSet(_) | Node::Bracket(_) => return set(node, setting),
        Node::StringSet {
            alternatives,
            icase,
        } => {
            let label = strings_label(alloc, alternatives, *icase)?;
            Piece::Part(set_or_source(BoxKind::Set, label, setting)?)
        }
        Node::BackRef { group, icase } => Piece::Part(reference(*group, *icase, setting)?),
        Node::Goal => Piece::Part(Diagram::end()),
        _ => return Ok(words(alloc, node)),
    }))
}

/// Returns a box of words only, for a leaf that is described by words.
fn words(alloc: Global, node: &Node) -> Option<Piece> {
    let (kind, words) = match node {
        Node::MatchAny => (BoxKind::Set, "any character"),
        Node::MatchAnyExceptLineTerminator => (BoxKind::Set, "any but a line end"),
        Node::Anchor {
            anchor_type,
            multiline,
        } => (BoxKind::Position, anchor_words(*anchor_type, *multiline)),
        Node::WordBoundary { invert: false, .. } => (BoxKind::Position, "word boundary"),
        Node::WordBoundary { invert: true, .. } => (BoxKind::Position, "no word boundary"),
        _ => return None,
    };
    Some(Piece::Part(boxed(kind, Label::words(alloc, words))))
}

fn reference(group: u32, icase: bool, setting: &Setting<'_>) -> Result<Diagram, AllocError> {
    let text = group_text(
        setting.alloc,
        "",
        group,
        name_of(group, setting.source.written.names),
    )?;
    Ok(reference_box(text, icase))
}

/// Returns a box for a reference to the groups with these numbers and names.
fn reference_box(text: String, icase: bool) -> Diagram {
    let label = Label {
        front: "what group",
        text,
        after: if icase {
            "captured, in either case"
        } else {
            "captured"
        },
    };
    boxed(BoxKind::Reference, label)
}

/// The width in columns from which a list of members gives way to a shorter source text.
const LONG: u32 = 18;

/// Returns the source text of the next node, if it is shown in place of a list of this width: a property, or a class
/// that is shorter than the list.
fn shown_source(width: u32, setting: &Setting<'_>) -> Result<Option<String>, AllocError> {
    let pattern = setting.source.written.pattern;
    let Some(text) = excerpt(setting.alloc, pattern, next_span(setting))? else {
        return Ok(None);
    };
    let is_property = text.starts_with("\\p") || text.starts_with("\\P");
    let is_shorter = width > LONG && columns(&text) < width && !text.ends_with('…');
    Ok(if is_property || is_shorter {
        Some(text)
    } else {
        None
    })
}

/// Returns a box for a set that is shown as it is written.
fn written_set(kind: BoxKind, text: String, after: &'static str) -> Diagram {
    let front = "";
    boxed(kind, Label { front, text, after })
}

/// Returns the box of a set: with its source text, or with a list of its members.
fn set_or_source(
    kind: BoxKind,
    label: Option<Label>,
    setting: &Setting<'_>,
) -> Result<Diagram, AllocError> {
    let width = label.as_ref().map_or(0, |label| label.columns());
    match shown_source(width, setting)? {
        Some(text) => Ok(written_set(kind, text, either_case(setting))),
        None => Ok(set_box(setting.alloc, kind, label)),
    }
}

/// Returns the words for a source text that is matched in either case.
fn either_case(setting: &Setting<'_>) -> &'static str {
    match next_span(setting) {
        Some(span) if setting.source.written.scan.ignores_case(span.start) => "either case",
        _ => "",
    }
}

/// The span of a node for which none is known.
const NO_SPAN: Span = Span { start: 0, end: 0 };

/// Returns the piece of a set: the character that it is written as, or a box.
fn set(node: &Node, setting: &Setting<'_>) -> Result<Option<Piece>, AllocError> {
    let span = next_span(setting).unwrap_or(NO_SPAN);
    if let Some(character) = literal(node, span, setting.source.written)? {
        return Ok(Some(Piece::Character(character)));
    }
    let Some((negated, set)) = set_of(setting.alloc, node)? else {
        return Ok(None);
    };
    let label = set_label(setting.alloc, negated, set)?;
    let kind = if has_character(node) {
        BoxKind::Set
    } else {
        BoxKind::Never
    };
    let part = if is_as_written(node, span, setting.source.written)? {
        set_or_source(kind, label, setting)?
    } else {
        set_box(setting.alloc, kind, label)
    };
    Ok(Some(Piece::Part(part)))
}
