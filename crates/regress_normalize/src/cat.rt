//! Normalizes a `Cat` whose parts are in normal form.
ghost use Rattle.std.specs.Prelude.{◌≡◌, ◌⊎◌, ◌≤◌, ◌||◌, true, false, MatchBool, IfOk, OnOk, OnErr, IfSome, None};
ghost use Rattle.regress_tree.specs.Matching.{in_direction};
ghost use Rattle.regress_tree.specs.NodeTests.{is_empty, is_goal};
ghost use Rattle.regress_tree.specs.Reading.{Direction};
ghost use Rattle.regress_tree.specs.Shapes.{has_bytes, has_cat, has_neighbours, some_part};
ghost use Rattle.regress_tree.specs.Tree.{cat, tree, trees};
ghost use Rattle.regress_tree.specs.Walk.{direction_of};
ghost use Rattle.regress_rewrite.specs.Law.{IsPart, Keeps};
ghost use Rattle.regress_rewrite.specs.Splice.{spliced};
ghost use Rattle.regress_normalize.specs.Normalized.{Normalized, IsCatOf};
ghost use Rattle.regress_normalize.specs.Packed.{Packs, IsPacked, TakesBytes, IsListPacked, IsFactsOf};

use crate::facts::{ListFacts, PartFacts};
use crate::leaf::leaf_facts;
use regress_rewrite::flatten::splice;
use regress_rewrite::form_literal_bytes::{append, has_bytes};
use regress_rewrite::remove_empties::{collapse, drop_empties};
use regress_tree::ir::{Node, NodeList, Walk};
use std::alloc::{AllocError, Global};

/// Brings a `Cat` into normal form whose parts are in normal form and have these facts.
///
/// # Preconditions
/// The node is such a `Cat`, and part of a well-formed tree.
///
/// # Complexity
/// Linear in the parts, where a part that is a `Cat` counts as its parts, and in the bytes that are joined.
///
/// # Errors
/// Returns [`AllocError`] if an allocation fails. The parts may be packed in part; the node has the same meaning.
pub fn finish_cat(
    alloc: Global,
    node: &mut Node,
    list: &ListFacts,
    walk: &Walk,
) -> Result<PartFacts, AllocError>
    requires part { IsPart (tree node.old) }
    requires parts { IsCatOf list.now (tree node.old) }
    ensures { Normalized (direction_of walk.now) (tree node.old) (tree node.new) result }
{
    if list.always_fails() {
        *node = Node::ByteSet(Vec::new(alloc));
        return Ok(leaf_facts(node, false));
    }
    let Node::Cat(parts) = node else {
        unreachable!()
    };
    let taken = pack(alloc, parts, walk)?;
    let Some(alone) = collapse(parts) else {
        return facts_of(list, taken, true);
    };
    *node = alone;
    if node.is_empty() {
        return Ok(leaf_facts(node, false));
    }
    facts_of(list, taken, false)
}

/// Returns the facts of a `Cat` of these parts after `taken` of them were removed, or of the one part that remains.
/// Each part that is removed is charged as one.
///
/// # Preconditions
/// `taken` is at most the charge of the parts.
fn facts_of(list: &ListFacts, taken: usize, cat: bool) -> Result<PartFacts, AllocError>
    requires { taken ≤ list.now.charge }
    ensures cat { cat ≡ true → IfOk result (IsFactsOf list.now taken 1) }
    ensures alone { cat ≡ false → IfOk result (IsFactsOf list.now taken 0) }
{
    let around = usize::from(cat);
    Ok(PartFacts {
        charge: (list.charge - taken).checked_add(around).ok_or(AllocError)?,
        nesting: list.nesting.checked_add(around).ok_or(AllocError)?,
        has_group: list.has_group,
        has_loop: list.has_loop,
        has_string_set: list.has_string_set,
        always_fails: false,
        was_one_character: false,
    })
}

/// Replaces each `Cat` by its parts, removes each `Empty`, and joins the bytes of neighbours. Returns the number of
/// parts removed. After an error the list has the same meaning.
fn pack(alloc: Global, parts: &mut NodeList, walk: &Walk) -> Result<usize, AllocError>
    ensures keeps { Keeps (direction_of walk.now) (cat (trees parts.old.items)) (cat (trees parts.new.items)) }
    ensures packed { IfOk result (IsListPacked (direction_of walk.now) (trees parts.old.items) (trees parts.new.items)) }
    ensures left { has_cat (trees parts.old.items) ≡ false → IsPacked (trees parts.old.items) → trees parts.new.items ≡ trees parts.old.items }
    ensures goal { some_part is_goal (trees parts.old.items) ≡ true → some_part is_goal (trees parts.new.items) ≡ true }
{
    splice_cats(alloc, parts)?;
    let len = parts.len();
    pack_in_order(parts, walk)?;
    Ok(len - parts.len())
}

/// Replaces each `Cat` in a list by its parts.
fn splice_cats(alloc: Global, parts: &mut NodeList) -> Result<(), AllocError>
    ensures ok { OnOk result (trees parts.new.items ≡ spliced (trees parts.old.items)) }
    ensures err { OnErr result (trees parts.new.items ≡ trees parts.old.items) }
{
    if !parts.iter().any(Node::is_cat) {
        return Ok(());
    }
    splice(alloc, parts)
}

/// Returns whether there is an `Empty`, or two neighbours have bytes.
fn needs_packing(parts: &[Node]) -> bool
    ensures { result ≡ (some_part is_empty (trees parts.now) || has_neighbours has_bytes (trees parts.now)) }
{
    parts.iter().any(Node::is_empty) || has_byte_neighbours(parts)
}

/// Returns whether two neighbours have bytes.
fn has_byte_neighbours(parts: &[Node]) -> bool
    ensures { result ≡ has_neighbours has_bytes (trees parts.now) }
{
    let mut before = false;
    for part in parts {
        let here = has_bytes(part);
        if before && here {
            return true;
        }
        before = here;
    }
    false
}

/// Removes each `Empty`, and joins the bytes of neighbours. In a lookbehind the parts are reversed first, so that bytes
/// are always appended in the order of the text.
fn pack_in_order(parts: &mut NodeList, walk: &Walk) -> Result<(), AllocError>
    ensures packs { Packs (direction_of walk.now) (trees parts.old.items) (trees parts.new.items) }
    ensures packed { OnOk result (IsPacked (trees parts.new.items)) }
    ensures left { IsPacked (trees parts.old.items) → trees parts.new.items ≡ trees parts.old.items }
{
    if !needs_packing(parts) {
        return Ok(());
    }
    if !walk.in_lookbehind {
        return pack_in_text_order(parts);
    }
    parts.reverse();
    let closed = pack_in_text_order(parts);
    parts.reverse();
    closed
}

/// Removes each `Empty`, and joins the bytes of neighbours, where those of the earlier part come first. It works in
/// place, and allocates memory only for bytes. If that fails, two neighbours remain separate.
fn pack_in_text_order(parts: &mut NodeList) -> Result<(), AllocError>
    ensures packs { (d : Direction) → Packs d (in_direction d (trees parts.old.items)) (in_direction d (trees parts.new.items)) }
    ensures packed { OnOk result (IsPacked (trees parts.new.items)) }
{
    drop_empties(parts);
    join_neighbours(parts);
    if has_byte_neighbours(parts) {
        return Err(AllocError);
    }
    Ok(())
}

/// Joins the bytes of neighbours. If an allocation fails, two neighbours remain separate.
fn join_neighbours(parts: &mut NodeList)
    ensures packs { (d : Direction) → Packs d (in_direction d (trees parts.old.items)) (in_direction d (trees parts.new.items)) }
    ensures empties { some_part is_empty (trees parts.new.items) ≡ some_part is_empty (trees parts.old.items) }
{
    parts.dedup_by(|part, last| take_bytes(last, part));
}

/// Moves the bytes of `part` to the end of those of `last`, if both have some and no allocation fails, and returns
/// whether it did.
fn take_bytes(last: &mut Node, part: &mut Node) -> bool
    ensures { MatchBool result (TakesBytes (tree last.old) (tree part.old) (tree last.new))
        ((tree last.new ≡ tree last.old) × (tree part.new ≡ tree part.old)) }
{
    has_bytes(last) && has_bytes(part) && append(last, part).is_ok()
}
