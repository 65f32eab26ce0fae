//! Normalizes an `Alt` whose sides are in normal form.
ghost use Rattle.std.specs.Prelude.{◌≡◌, false, ◌&&◌, IfOk};
ghost use Rattle.regress_tree.specs.NodeTests.{is_empty};
ghost use Rattle.regress_tree.specs.Reading.{Direction};
ghost use Rattle.regress_tree.specs.Tree.{Tree, alt, tree};
ghost use Rattle.regress_rewrite.specs.Law.{IsPart};
ghost use Rattle.regress_normalize.specs.Normalized.{Normalized, IsAltOf};
ghost use Rattle.regress_normalize.specs.PartFacts.{HasFacts};

use crate::facts::PartFacts;
use crate::leaf::leaf_facts;
use regress_tree::ir::Node;
use std::alloc::AllocError;
use std::{cmp, mem};

/// Brings an `Alt` into normal form whose sides are in normal form and have these facts.
///
/// # Preconditions
/// The node is such an `Alt`, and part of a well-formed tree.
///
/// # Errors
/// Returns [`AllocError`] if a size exceeds `usize::MAX`, which no tree in memory has.
pub fn finish_alt(
    node: &mut Node,
    left: &PartFacts,
    right: &PartFacts,
) -> Result<PartFacts, AllocError>
    requires part { IsPart (tree node.old) }
    requires sides { IsAltOf left.now right.now (tree node.old) }
    ensures { (d : Direction) → Normalized d (tree node.old) (tree node.new) result }
{
    if has_empty_sides(node) {
        *node = Node::Empty;
        return Ok(leaf_facts(node, false));
    }
    if !left.has_group && !right.has_group {
        if left.always_fails {
            take_right(node);
            return Ok(alone(right));
        }
        if right.always_fails {
            take_left(node);
            return Ok(alone(left));
        }
    }
    join(left, right)
}

/// Returns whether both sides are `Empty`.
fn has_empty_sides(node: &Node) -> bool
    ensures { (left right : Tree) → tree node.now ≡ alt left right → result ≡ (is_empty left && is_empty right) }
{
    matches!(node, Node::Alt(left, right) if left.is_empty() && right.is_empty())
}

/// Replaces an `Alt` by its left side.
fn take_left(node: &mut Node)
    ensures { (left right : Tree) → tree node.old ≡ alt left right → tree node.new ≡ left }
{
    if let Node::Alt(left, _) = node {
        *node = mem::replace(&mut **left, Node::Empty);
    }
}

/// Replaces an `Alt` by its right side.
fn take_right(node: &mut Node)
    ensures { (left right : Tree) → tree node.old ≡ alt left right → tree node.new ≡ right }
{
    if let Node::Alt(_, right) = node {
        *node = mem::replace(&mut **right, Node::Empty);
    }
}

/// Returns the facts of a side that replaces an `Alt`; the `Alt` was not one character.
fn alone(side: &PartFacts) -> PartFacts
    ensures { (t : Tree) → HasFacts side.now t → HasFacts result t }
{
    PartFacts {
        was_one_character: false,
        ..*side
    }
}

/// Returns the facts of an `Alt` from those of its sides. It fails if the charge or the nesting depth exceeds
/// `usize::MAX`, which no tree in memory has.
fn join(left: &PartFacts, right: &PartFacts) -> Result<PartFacts, AllocError>
    ensures has { (first second : Tree) → HasFacts left.now first → HasFacts right.now second →
        IfOk result (λ facts. HasFacts facts (alt first second)) }
    ensures many { IfOk result (λ facts. facts.was_one_character ≡ false) }
{
    let sides = left.charge.checked_add(right.charge).ok_or(AllocError)?;
    Ok(PartFacts {
        charge: sides.checked_add(1).ok_or(AllocError)?,
        nesting: cmp::max(left.nesting, right.nesting)
            .checked_add(1)
            .ok_or(AllocError)?,
        has_group: left.has_group || right.has_group,
        has_loop: left.has_loop || right.has_loop,
        has_string_set: left.has_string_set || right.has_string_set,
        always_fails: false,
        was_one_character: false,
    })
}
