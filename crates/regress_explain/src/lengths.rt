//! How many characters a pattern matches.

use regress_base::types::{CaptureGroupID, Quantifier};
use regress_tree::ir::Node;
use regress_tree::ir::held::body;
use regress_words::has_character;
use std::alloc::{AllocError, Global};

/// How many characters are matched.
#[derive(Clone, Copy)]
pub(crate) struct Length {
    /// At least.
    pub(crate) min: usize,
    /// At most, if there is a bound that is known.
    pub(crate) max: Option<usize>,
}

impl Length {
    fn exactly(count: usize) -> Length {
        Length {
            min: count,
            max: Some(count),
        }
    }

    /// Returns the length of this and something after it.
    fn then(self, next: Length) -> Length {
        Length {
            min: self.min.saturating_add(next.min),
            max: match (self.max, next.max) {
                (Some(first), Some(second)) => first.checked_add(second),
                _ => None,
            },
        }
    }

    /// Returns the length of this or of something else.
    fn or(self, other: Length) -> Length {
        Length {
            min: self.min.min(other.min),
            max: match (self.max, other.max) {
                (Some(first), Some(second)) => Some(first.max(second)),
                _ => None,
            },
        }
    }

    /// Returns the length of a loop around this.
    fn times(self, quant: &Quantifier) -> Length {
        Length {
            min: self.min.saturating_mul(quant.min),
            max: match (self.max, quant.max) {
                (Some(0), _) | (_, Some(0)) => Some(0),
                (Some(length), Some(count)) => length.checked_mul(count),
                _ => None,
            },
        }
    }
}

/// What is known of a group.
#[derive(Clone, Copy)]
struct Group<'a> {
    /// Its length, if it is known. One that may be unset is empty at least.
    length: Option<Length>,
    name: Option<&'a str>,
}

/// The groups before a node.
#[derive(Drop)]
struct Groups<'a> {
    /// What is known of each, at its id.
    known: Vec<Group<'a>>,
    /// The ids of those that are always set at the node, in the order in which they end.
    set: Vec<usize>,
}

impl<'a> Groups<'a> {
    fn new(alloc: Global) -> Groups<'a> {
        Groups {
            known: Vec::new(alloc),
            set: Vec::new(alloc),
        }
    }

    /// Adds a group that is always set.
    fn add(&mut self, id: CaptureGroupID, group: Group<'a>) -> Result<(), AllocError> {
        let id = usize::from(id);
        for _missing in self.known.len()..id + 1 {
            self.known.push(Group {
                length: None,
                name: None,
            })?;
        }
        if let Some(point) = self.known.get_mut(id) {
            *point = group;
        }
        Ok(self.set.push(id)?)
    }

    /// Records that of the groups that are always set only the first ones still are. Each group is looked at once, however
    /// many alternatives and loops contain it.
    fn loosen(&mut self, count: usize) {
        for _group in count..self.set.len() {
            if let Some(id) = self.set.pop()
                && let Some(group) = self.known.get_mut(id)
                && let Some(length) = &mut group.length
            {
                length.min = 0;
            }
        }
    }

    /// Returns what is known of a group, numbered from 1.
    fn get(&self, group: u32) -> Option<Group<'a>> {
        self.known.get(group.saturating_sub(1) as usize).copied()
    }

    /// Returns the length of what a group, numbered from 1, has captured.
    fn length_of(&self, group: u32) -> Length {
        match self.get(group) {
            Some(
                Group {
                    length: Some(length),
                    ..
                },
            ) => length,
            _ => Length { min: 0, max: None },
        }
    }
}

/// Returns how many characters a tree matches, or `None` if it never matches since a set in it has no character.
///
/// # Errors
/// Returns [`AllocError`] if an allocation fails.
pub(crate) fn matched_length(alloc: Global, root: &Node) -> Result<Option<Length>, AllocError> {
    let mut groups = Groups::new(alloc);
    length_of(root, &mut groups)
}

/// Returns the length of a node.
#[cycle(length_of)]
fn length_of<'a>(node: &'a Node, groups: &mut Groups<'a>) -> Result<Option<Length>, AllocError> {
    match node {
        Node::Alt(..) => length_of_alternatives(node, groups),
        Node::Cat(parts) => length_of_all(parts, groups),
        Node::LookaroundAssertion { .. } => Ok(Some(Length::exactly(0))),
        _ => {
            let Some(body) = body(node) else {
                return Ok(length_of_leaf(node, groups));
            };
            let before = groups.set.len();
            let inside = length_of(body, groups)?;
            if is_optional(node) {
                groups.loosen(before);
            }
            length_around(node, inside, groups)
        }
    }
}

fn is_optional(node: &Node) -> bool {
    match node {
        Node::Loop { quant, .. } | Node::Loop1CharBody { quant, .. } => quant.min == 0,
        _ => false,
    }
}

/// Returns the length of one of alternatives. It iterates over right sides.
#[cycle(length_of)]
fn length_of_alternatives<'a>(
    node: &'a Node,
    groups: &mut Groups<'a>,
) -> Result<Option<Length>, AllocError> {
    let Node::Alt(left, right) = node else {
        return Ok(None);
    };
    let before = groups.set.len();
    let mut sum = length_of(left, groups)?;
    let mut rest: &'a Node = right;
    while let Node::Alt(left, right) = rest {
        groups.loosen(before);
        sum = either(sum, length_of(left, groups)?);
        rest = right;
    }
    groups.loosen(before);
    sum = either(sum, length_of(rest, groups)?);
    groups.loosen(before);
    Ok(sum)
}

/// Returns the length of one of two nodes, each of which may never match.
fn either(first: Option<Length>, second: Option<Length>) -> Option<Length> {
    match (first, second) {
        (Some(first), Some(second)) => Some(first.or(second)),
        _ => first.or(second),
    }
}

#[cycle(length_of)]
fn length_of_all<'a>(
    parts: &'a [Node],
    groups: &mut Groups<'a>,
) -> Result<Option<Length>, AllocError> {
    if let Some(length) = length_of_references(parts, groups) {
        return Ok(Some(length));
    }
    let mut sum = Some(Length::exactly(0));
    for part in parts {
        let next = length_of(part, groups)?;
        sum = match (sum, next) {
            (Some(sum), Some(next)) => Some(sum.then(next)),
            _ => None,
        };
    }
    Ok(sum)
}

/// Returns the length of references to groups of the same name, each to another one, since at most one of these is set;
/// `None` for other parts.
fn length_of_references(parts: &[Node], groups: &Groups<'_>) -> Option<Length> {
    let mut name = None;
    let mut last = 0;
    let mut sum = None;
    for part in parts {
        let Node::BackRef { group, .. } = part else {
            return None;
        };
        let own = groups.get(*group)?.name?;
        if *group <= last || name.unwrap_or(own) != own {
            return None;
        }
        name = Some(own);
        last = *group;
        sum = either(sum, Some(groups.length_of(*group)));
    }
    sum
}

/// Returns the length of a loop or a group, and records that of a group.
fn length_around<'a>(
    node: &'a Node,
    inside: Option<Length>,
    groups: &mut Groups<'a>,
) -> Result<Option<Length>, AllocError> {
    match node {
        Node::Loop { quant, .. } | Node::Loop1CharBody { quant, .. } => Ok(match inside {
            Some(inside) => Some(inside.times(quant)),
            None if quant.min == 0 => Some(Length::exactly(0)),
            None => None,
        }),
        Node::CaptureGroup { id, name, .. } => {
            let name = match name {
                Some(name) => Some(name.as_str()),
                None => None,
            };
            let length = inside;
            groups.add(*id, Group { length, name })?;
            Ok(inside)
        }
        _ => Ok(inside),
    }
}

/// Returns the length of a node without a body.
fn length_of_leaf(node: &Node, groups: &Groups<'_>) -> Option<Length> {
    match node {
        Node::Char { .. } | Node::ByteSet(_) | Node::CharSet(_) | Node::Bracket(_) => {
            if has_character(node) {
                Some(Length::exactly(1))
            } else {
                None
            }
        }
        Node::MatchAny | Node::MatchAnyExceptLineTerminator => Some(Length::exactly(1)),
        Node::ByteSequence(bytes) => Some(Length {
            min: bytes.len().min(1),
            max: Some(bytes.len()),
        }),
        Node::StringSet { alternatives, .. } => {
            let mut sum = None;
            for text in alternatives {
                sum = either(sum, Some(Length::exactly(text.len())));
            }
            sum
        }
        Node::BackRef { group, .. } => Some(groups.length_of(*group)),
        _ => Some(Length::exactly(0)),
    }
}
