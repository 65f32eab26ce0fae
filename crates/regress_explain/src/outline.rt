//! The parts of a pattern in its order, each with its span and its meaning.
ghost use Rattle.std.specs.Prelude.{◌<◌, IfOk, length};

use crate::gathering::finished;
use regress_labels::group_names;
use regress_outline::{Kind, Part, Parts};
use regress_parse::{Span, SpannedRegex};
use regress_tree::ir::Node;
use regress_tree::ir::held::body;
use regress_words::{Source, is_atom_after, is_one_atom, literal, scanned, words};
use std::alloc::{AllocError, Global};
use std::{mem, slice};

/// The state of a walk over a tree.
#[derive(Drop)]
struct Walker<'a> {
    source: Source<'a>,
    /// The spans of the remaining nodes, in postorder.
    spans: slice::Iter<'a, Span>,
    /// The span of the node before.
    last: Span,
    /// Whether the node is inside a lookbehind, where the parts of a `Cat` are in reverse order.
    reversed: bool,
}

impl Walker<'_> {
    /// Returns the span of the next node in postorder; an empty one if there are too few.
    fn next_span(&mut self) -> Span {
        self.last = self.spans.next().copied().unwrap_or(NO_SPAN);
        self.last
    }
}

const NO_SPAN: Span = Span { start: 0, end: 0 };

/// Returns the parts of a parsed pattern: what the root contains, without the final `Goal`. If it contains nothing else, the
/// pattern is one part.
pub(crate) fn outline(
    alloc: Global,
    pattern: &[u32],
    parsed: &SpannedRegex,
) -> Result<Parts, AllocError>
    ensures { IfOk result (λ parts. 0 < length parts.items) }
{
    let root = &parsed.regex.node;
    let names = group_names(alloc, root)?;
    let scan = scanned(alloc, pattern, parsed.regex.flags)?;
    let mut walker = Walker {
        source: Source {
            alloc,
            pattern,
            names: &names,
            scan: &scan,
        },
        spans: parsed.spans.iter(),
        last: NO_SPAN,
        reversed: false,
    };
    let parts = sequence(root, &mut walker)?;
    let mut parts = finished(parts, 0, walker.source)?;
    if parts.is_empty() {
        let end = pattern.len();
        parts.push(nothing(alloc, Span { start: 0, end })?)?;
    }
    Ok(parts)
}

/// Returns a part that matches an empty text.
fn nothing(alloc: Global, span: Span) -> Result<Part, AllocError> {
    Ok(Part {
        span,
        words: String::from_str(alloc, "nothing")?,
        parts: Vec::new(alloc),
        kind: Kind::Short,
    })
}

/// Returns the parts of a sequence, in the order of the pattern.
#[cycle(add)]
fn sequence(node: &Node, walker: &mut Walker<'_>) -> Result<Parts, AllocError> {
    let mut parts = Vec::new(walker.source.alloc);
    add(node, walker, &mut parts)?;
    if walker.reversed {
        parts.reverse();
    }
    Ok(parts)
}

/// Adds the parts of a node, in the order of the tree. The end of the pattern has none, and a `Cat` none of its own, unless
/// it is written as one atom.
#[cycle(add)]
fn add(node: &Node, walker: &mut Walker<'_>, parts: &mut Parts) -> Result<(), AllocError> {
    match node {
        Node::Cat(all) => match atom(node, walker)? {
            Some(atom) => parts.push(atom)?,
            None => {
                for node in all {
                    add(node, walker, parts)?;
                }
                walker.next_span();
            }
        },
        Node::Goal => {
            walker.next_span();
        }
        Node::Alt(..) => parts.push(alternation(node, walker)?)?,
        _ => parts.push(single_part(node, walker)?)?,
    }
    Ok(())
}

/// Returns the part of a node that is no sequence and no alternation.
#[cycle(add)]
fn single_part(node: &Node, walker: &mut Walker<'_>) -> Result<Part, AllocError> {
    let inside = match body(node) {
        Some(body) => {
            let reversed = walker.reversed;
            if let Node::LookaroundAssertion { backwards, .. } = node {
                walker.reversed = *backwards;
            }
            let inside = sequence(body, walker)?;
            walker.reversed = reversed;
            Some(inside)
        }
        None => None,
    };
    let span = walker.next_span();
    match inside {
        Some(inside) => around(node, span, inside, walker.source),
        None => leaf(node, span, walker.source),
    }
}

/// Returns the part of a node without a body.
fn leaf(node: &Node, span: Span, source: Source<'_>) -> Result<Part, AllocError> {
    let (words, kind) = match literal(node, span, source)? {
        Some(character) => (String::new(source.alloc), Kind::Character(character)),
        None => (words(node, span, source)?, Kind::Short),
    };
    let parts = Vec::new(source.alloc);
    Ok(Part {
        span,
        words,
        parts,
        kind,
    })
}

/// Returns the part of a group, a loop or a lookaround.
fn around(node: &Node, span: Span, inside: Parts, source: Source<'_>) -> Result<Part, AllocError> {
    let alloc = source.alloc;
    let words = words(node, span, source)?;
    let parts = finished(inside, span.start, source)?;
    let (words, kind) = match parts.as_slice() {
        [
            Part {
                words: inner,
                kind: Kind::Short,
                ..
            },
        ] => (format!(in alloc; "{words}: {inner}")?, Kind::Inline),
        _ => (format!(in alloc; "{words}:")?, Kind::Whole),
    };
    Ok(Part {
        span,
        words,
        parts,
        kind,
    })
}

/// An alternative, and the span of its node.
type Alternative = (Parts, Span);

/// Returns the part of an alternation, or of what is written as one atom.
#[cycle(add)]
fn alternation(node: &Node, walker: &mut Walker<'_>) -> Result<Part, AllocError> {
    if let Some(atom) = atom(node, walker)? {
        return Ok(atom);
    }
    let mut all = Vec::new(walker.source.alloc);
    add_alternatives(node, walker, &mut all)?;
    let (span, source) = (walker.next_span(), walker.source);
    let mut parts = Vec::new(source.alloc);
    let mut start = span.start;
    for (inside, span) in all {
        parts.push(alternative(inside, start, span, source)?)?;
        start = span.end;
    }
    let words = words(node, span, source)?;
    Ok(Part {
        span,
        words: format!(in source.alloc; "{words}:")?,
        parts,
        kind: Kind::Whole,
    })
}

/// Returns the part of several nodes that are written as one atom, all with the same span, and skips their spans.
fn atom(node: &Node, walker: &mut Walker<'_>) -> Result<Option<Part>, AllocError> {
    let (span, source) = match walker.spans.as_slice() {
        [first, second, ..] if first == second => (*first, walker.source),
        _ => return Ok(None),
    };
    if !is_one_atom(node, span, source)? {
        return Ok(None);
    }
    skip_atom(node, walker);
    Ok(Some(Part {
        span,
        words: words(node, span, source)?,
        parts: Vec::new(source.alloc),
        kind: Kind::Short,
    }))
}

/// Skips the spans of a node that is written as one atom: a `Cat` or alternatives of leaves.
fn skip_atom(node: &Node, walker: &mut Walker<'_>) {
    let mut rest = node;
    while let Node::Alt(_, right) = rest {
        walker.next_span();
        walker.next_span();
        rest = right;
    }
    if let Node::Cat(parts) = rest {
        for _part in parts {
            walker.next_span();
        }
    }
    walker.next_span();
}

/// Returns the part of an alternative whose node has this span; what is written of it begins at or after `start`.
fn alternative(
    inside: Parts,
    start: usize,
    span: Span,
    source: Source<'_>,
) -> Result<Part, AllocError> {
    let mut parts = finished(inside, start, source)?;
    if parts.len() == 1
        && let Some(only) = parts.pop()
    {
        return Ok(only);
    }
    if parts.is_empty() {
        return nothing(source.alloc, span);
    }
    Ok(Part {
        span,
        words: String::from_str(source.alloc, "one after the other:")?,
        parts,
        kind: Kind::Whole,
    })
}

/// Adds the alternatives of an alternation. It iterates over right sides: there may be as many nested ones as
/// alternatives. The last alternative may be written as one atom that is an alternation itself.
#[cycle(add)]
fn add_alternatives(
    node: &Node,
    walker: &mut Walker<'_>,
    all: &mut Vec<Alternative>,
) -> Result<(), AllocError> {
    let Node::Alt(left, right) = node else {
        return Ok(());
    };
    let parts = sequence(left, walker)?;
    all.push((parts, walker.last))?;
    let mut inner = 0_usize;
    let mut rest: &Node = right;
    while let Node::Alt(left, right) = rest
        && !is_atom_after(walker.last, left, walker.spans.as_slice())
    {
        let parts = sequence(left, walker)?;
        all.push((parts, walker.last))?;
        inner = inner.saturating_add(1);
        rest = right;
    }
    let parts = sequence(rest, walker)?;
    all.push((parts, walker.last))?;
    // The spans of the inner `Alt`s come before that of the outermost one.
    for _inner in 0..inner {
        walker.spans.next();
    }
    Ok(())
}
