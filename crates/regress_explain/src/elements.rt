//! What a pattern consists of, for its summary.

use crate::conditions::boundary_words;
use regress_base::types::AnchorType;
use regress_labels::{Character, single_character};
use regress_tree::ir::Node;
use std::alloc::{AllocError, Global};

/// A piece of a pattern, outside of alternatives.
#[derive(Clone, Copy)]
pub(crate) enum Element<'a> {
    /// A character that each match has there, or one that is optional.
    Character {
        character: Character,
        optional: bool,
    },
    /// The start of a named group.
    Begin(&'a str),
    /// The end of a named group.
    End,
    /// `^` or `$`.
    Anchor {
        end: AnchorType,
        multiline: bool,
    },
    /// An assertion other than `^` and `$` that each match meets, in words.
    Assertion(&'static str),
    /// What consumes nothing.
    Position,
    Other,
}

/// The elements of a pattern in its order.
pub(crate) type Elements<'a> = Vec<Element<'a>>;

/// Adds the elements of a node.
///
/// # Errors
/// Returns [`AllocError`] if an allocation fails.
#[cycle(elements)]
pub(crate) fn add_elements<'a>(
    alloc: Global,
    node: &'a Node,
    optional: bool,
    all: &mut Elements<'a>,
) -> Result<(), AllocError> {
    match node {
        Node::Cat(parts) => add_each(alloc, parts, optional, all),
        Node::CaptureGroup {
            name: Some(name),
            contents,
            ..
        } => {
            let ends = (Element::Begin(name.as_str()), Element::End);
            add_between(alloc, contents, optional, ends, all)
        }
        Node::CaptureGroup { contents, .. } => add_elements(alloc, contents, optional, all),
        Node::Loop { loopee, quant, .. } | Node::Loop1CharBody { loopee, quant } => {
            match (quant.min, quant.max) {
                (0, Some(1)) => add_elements(alloc, loopee, true, all),
                (0, _) => Ok(all.push(Element::Other)?),
                _ => add_between(
                    alloc,
                    loopee,
                    optional,
                    (Element::Other, Element::Other),
                    all,
                ),
            }
        }
        _ => add_leaf(leaf_element(alloc, node, optional)?, all),
    }
}

/// Adds the elements of a node between two others.
#[cycle(elements)]
fn add_between<'a>(
    alloc: Global,
    node: &'a Node,
    optional: bool,
    ends: (Element<'a>, Element<'a>),
    all: &mut Elements<'a>,
) -> Result<(), AllocError> {
    all.push(ends.0)?;
    add_elements(alloc, node, optional, all)?;
    Ok(all.push(ends.1)?)
}

#[cycle(elements)]
fn add_each<'a>(
    alloc: Global,
    parts: &'a [Node],
    optional: bool,
    all: &mut Elements<'a>,
) -> Result<(), AllocError> {
    for part in parts {
        add_elements(alloc, part, optional, all)?;
    }
    Ok(())
}

/// Adds the element of a leaf, unless it and the one before are `Other`: one says as much as both. A reference by name to
/// many groups has as many leaves.
fn add_leaf<'a>(element: Element<'a>, all: &mut Elements<'a>) -> Result<(), AllocError> {
    match (all.last(), element) {
        (Some(Element::Other), Element::Other) => Ok(()),
        _ => Ok(all.push(element)?),
    }
}

/// Returns the element of a node whose inside is not looked at.
fn leaf_element<'a>(
    alloc: Global,
    node: &'a Node,
    optional: bool,
) -> Result<Element<'a>, AllocError> {
    if !optional && let Some(words) = boundary_words(node) {
        return Ok(Element::Assertion(words));
    }
    Ok(match node {
        Node::Anchor {
            anchor_type,
            multiline,
        } if !optional => Element::Anchor {
            end: *anchor_type,
            multiline: *multiline,
        },
        Node::Empty
        | Node::Goal
        | Node::Anchor { .. }
        | Node::WordBoundary { .. }
        | Node::LookaroundAssertion { .. } => Element::Position,
        node => match single_character(alloc, node)? {
            Some(character) => Element::Character {
                character,
                optional,
            },
            None => Element::Other,
        },
    })
}
