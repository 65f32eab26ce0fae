//! One traversal of a tree, children before parents.
ghost use Rattle.std.specs.Prelude.{◌≡◌, true, false, IfOk, OnOk, MatchBool};
ghost use Rattle.regress_tree.specs.Held.{is_wrapper};
ghost use Rattle.regress_tree.specs.NormalForm.{IsNormal};
ghost use Rattle.regress_tree.specs.Spine.{is_alt, reattach};
ghost use Rattle.regress_tree.specs.Tree.{tree, trees, leaf, empty, cat, no_trees, more_trees};
ghost use Rattle.regress_tree.specs.Walk.{direction_of};
ghost use Rattle.regress_rewrite.specs.Law.{IsPart};
ghost use Rattle.regress_normalize.specs.Normalized.{Finished, Normalized, IsCleanAround, ListIsNormal, IsWrapperOf};
ghost use Rattle.regress_normalize.specs.PartFacts.{HasFacts, IsStillOneCharacter, HasListFacts};
ghost use Rattle.regress_normalize.specs.Steps.{Denotes, IsAltOnto};

use crate::alternatives::finish_alt;
use crate::cat::finish_cat;
use crate::facts::{ListFacts, PartFacts};
use crate::leaf::finish_leaf;
use crate::wrapper::finish_wrapper;
use regress_tree::ir::held::{body_mut, walk_inside};
use regress_tree::ir::spine::{left_mut, restore_spine, rotate_right_spine};
use regress_tree::ir::{Node, NodeList, Walk};
use std::alloc::{AllocError, Global};

/// Brings a part of a tree into normal form, and returns facts about the result. Of `walk` it uses only the direction.
///
/// # Preconditions
/// The node is part of a well-formed tree.
///
/// # Complexity
/// Each node is visited once, and the copies that unrolling makes are not visited again. Recursion is as deep as nodes
/// are nested, where the right sides of alternatives don't count.
///
/// # Errors
/// Returns [`AllocError`] if an allocation fails. Some nodes are rewritten then and others not; the part has the same
/// meaning.
#[cycle(normalize)]
pub fn normalize(alloc: Global, node: &mut Node, walk: &Walk) -> Result<PartFacts, AllocError>
    requires { IsPart (tree node.old) }
    ensures { Normalized (direction_of walk.now) (tree node.old) (tree node.new) result }
{
    let mut above = Node::Empty;
    descend(node, &mut above);
    match normalize_last(alloc, node, walk) {
        Ok(last) => normalize_up(alloc, node, above, last, walk),
        Err(e) => {
            restore_spine(node, above);
            Err(e)
        }
    }
}

/// Descends the right sides of alternatives to the last one. The nodes of the descent are in `above`, the last one
/// first.
fn descend(node: &mut Node, above: &mut Node)
    requires { tree above.old ≡ leaf empty }
    ensures whole { reattach (tree above.new) (tree node.new) ≡ tree node.old }
    ensures last { is_alt (tree node.new) ≡ false }
{
    while rotate_right_spine(node, above) {}
}

/// Brings the alternatives above a node into normal form, the last one first. The node is the right side of the last
/// one, in normal form, with these facts.
#[cycle(normalize)]
fn normalize_up(
    alloc: Global,
    node: &mut Node,
    above: Node,
    last: PartFacts,
    walk: &Walk,
) -> Result<PartFacts, AllocError>
    requires part { IsPart (reattach (tree above) (tree node.old)) }
    requires normal { IsNormal (tree node.old) }
    requires facts { HasFacts last (tree node.old) }
    ensures { Finished (IsNormal (reattach (tree above) (tree node.old)) × IsStillOneCharacter last (tree node.old)) (direction_of walk.now)
        (reattach (tree above) (tree node.old)) (tree node.new) result }
{
    let mut above = above;
    let mut right = last;
    while rotate_right_spine(&mut above, node) {
        match normalize_alt(alloc, node, &right, walk) {
            Ok(here) => right = here,
            Err(e) => {
                restore_spine(node, above);
                return Err(e);
            }
        }
    }
    Ok(right)
}

/// Brings an `Alt` into normal form whose right side is in normal form and has these facts.
#[cycle(normalize)]
fn normalize_alt(
    alloc: Global,
    node: &mut Node,
    right: &PartFacts,
    walk: &Walk,
) -> Result<PartFacts, AllocError>
    requires part { IsPart (tree node.old) }
    requires onto { IsAltOnto right.now (tree node.old) }
    ensures { Normalized (direction_of walk.now) (tree node.old) (tree node.new) result }
{
    let Some(left) = left_mut(node) else {
        unreachable!()
    };
    let left = normalize(alloc, left, walk)?;
    finish_alt(node, &left, right)
}

/// Brings a node that is no `Alt` into normal form.
#[cycle(normalize)]
fn normalize_last(alloc: Global, node: &mut Node, walk: &Walk) -> Result<PartFacts, AllocError>
    requires part { IsPart (tree node.old) }
    requires other { is_alt (tree node.old) ≡ false }
    ensures { Normalized (direction_of walk.now) (tree node.old) (tree node.new) result }
{
    if take_only_part(node) {
        return normalize(alloc, node, walk);
    }
    match node {
        Node::Cat(parts) => {
            let list = normalize_parts(alloc, parts, walk)?;
            finish_cat(alloc, node, &list, walk)
        }
        Node::CaptureGroup { .. }
        | Node::Loop { .. }
        | Node::Loop1CharBody { .. }
        | Node::LookaroundAssertion { .. } => {
            let body = normalize_body(alloc, node, walk)?;
            finish_wrapper(alloc, node, &body, walk)
        }
        _ => finish_leaf(alloc, node),
    }
}

/// Replaces a `Cat` with one part by that part, and returns whether it did.
fn take_only_part(node: &mut Node) -> bool
    ensures { MatchBool result (tree node.old ≡ cat (more_trees (tree node.new) no_trees)) (tree node.new ≡ tree node.old) }
{
    let Node::Cat(parts) = node else {
        return false;
    };
    if parts.len() != 1 {
        return false;
    }
    match parts.pop() {
        Some(part) => {
            *node = part;
            true
        }
        None => false,
    }
}

/// Brings the parts of a `Cat` into normal form.
#[cycle(normalize)]
fn normalize_parts(
    alloc: Global,
    parts: &mut NodeList,
    walk: &Walk,
) -> Result<ListFacts, AllocError>
    requires { IsPart (cat (trees parts.old.items)) }
    ensures keeps { Denotes (direction_of walk.now) (cat (trees parts.old.items)) (cat (trees parts.new.items)) }
    ensures normal { OnOk result (ListIsNormal (trees parts.new.items)) }
    ensures facts { IfOk result (λ list. HasListFacts list (trees parts.new.items)) }
{
    let mut list = ListFacts::none();
    for i in 0..parts.len() {
        let part = &mut parts[i];
        let facts = normalize(alloc, part, walk)?;
        list.add(&facts, part.is_cat())?;
    }
    Ok(list)
}

/// Brings the body of a node into normal form.
#[cycle(normalize)]
fn normalize_body(alloc: Global, node: &mut Node, walk: &Walk) -> Result<PartFacts, AllocError>
    requires part { IsPart (tree node.old) }
    requires wrapper { is_wrapper (tree node.old) ≡ true }
    ensures keeps { Denotes (direction_of walk.now) (tree node.old) (tree node.new) }
    ensures body { IfOk result (λ body. IsWrapperOf body (tree node.new)) }
    ensures still_one { IsNormal (tree node.old) → IfOk result (λ body. IsCleanAround body (tree node.new)) }
{
    let inner = walk_inside(walk, node);
    let Some(body) = body_mut(node) else {
        unreachable!()
    };
    normalize(alloc, body, &inner)
}
