//! Normalizes a leaf.
ghost use Rattle.std.specs.Prelude.{◌≡◌, true, false, IsTrue, IfOk, OnOk};
ghost use Rattle.regress_tree.specs.Copies.{is_leaf};
ghost use Rattle.regress_tree.specs.Reading.{Direction};
ghost use Rattle.regress_tree.specs.Shapes.{is_simplified_away, is_formed_away, is_emptied_away};
ghost use Rattle.regress_tree.specs.Tree.{tree};
ghost use Rattle.regress_tree.specs.Units.{charge};
ghost use Rattle.regress_rewrite.specs.Law.{IsPart, after};
ghost use Rattle.regress_normalize.specs.Normalized.{Normalized};
ghost use Rattle.regress_normalize.specs.PartFacts.{MayBeCharacterLoopBody, HasFacts};
ghost use Rattle.regress_normalize.specs.Steps.{Clears};

use crate::facts::PartFacts;
use regress_rewrite::PassAction;
use regress_rewrite::form_literal_bytes::{form_character, form_set};
use regress_rewrite::simplify_brackets::simplify_brackets;
use regress_tree::ir::Node;
use std::alloc::{AllocError, Global};

/// Brings a leaf into normal form.
///
/// # Preconditions
/// The node is a leaf, and part of a well-formed tree.
///
/// # Errors
/// Returns [`AllocError`] if an allocation fails. The node has the same meaning.
pub fn finish_leaf(alloc: Global, node: &mut Node) -> Result<PartFacts, AllocError>
    requires part { IsPart (tree node.old) }
    requires leaf { is_leaf (tree node.old) ≡ true }
    ensures { (d : Direction) → Normalized d (tree node.old) (tree node.new) result }
{
    simplify(alloc, node)?;
    // Once it is bytes, one character can't be distinguished from several.
    let was_one_character = node.matches_exactly_one_char();
    form(alloc, node)?;
    clear(node);
    Ok(leaf_facts(node, was_one_character))
}

/// Returns the facts of a leaf, with `was_one_character` as given.
///
/// # Preconditions
/// - The node is a leaf.
/// - If `was_one_character` is set, the node may be the body of a `Loop1CharBody`.
pub fn leaf_facts(node: &Node, was_one_character: bool) -> PartFacts
    requires leaf { is_leaf (tree node.now) ≡ true }
    requires one { IsTrue was_one_character → MayBeCharacterLoopBody (tree node.now) }
    ensures has { HasFacts result (tree node.now) }
    ensures was { result.was_one_character ≡ was_one_character }
{
    PartFacts {
        charge: charge(node),
        nesting: 1,
        has_group: false,
        has_loop: false,
        has_string_set: matches!(node, Node::StringSet { .. }),
        always_fails: node.match_always_fails(),
        was_one_character,
    }
}

/// Returns one, and one more for each byte of a `ByteSequence`.
fn charge(node: &Node) -> usize
    requires { is_leaf (tree node.now) ≡ true }
    ensures { result ≡ charge (tree node.now) }
{
    match node {
        Node::ByteSequence(bytes) => 1 + bytes.len(),
        _ => 1,
    }
}

/// Simplifies a bracket until there is nothing to simplify: the complement of a long one may be small.
fn simplify(alloc: Global, node: &mut Node) -> Result<(), AllocError>
    requires part { IsPart (tree node.old) }
    requires leaf { is_leaf (tree node.old) ≡ true }
    ensures clears { Clears is_simplified_away (tree node.old) (tree node.new) }
    ensures removed { OnOk result (is_simplified_away (tree node.new) ≡ false) }
{
    loop {
        let action = simplify_brackets(alloc, node)?;
        if !action.carry_out(node) {
            return Ok(());
        }
    }
}

/// Replaces a character or a set of ASCII characters by bytes.
fn form(alloc: Global, node: &mut Node) -> Result<(), AllocError>
    requires leaf { is_leaf (tree node.old) ≡ true }
    ensures clears { Clears is_formed_away (tree node.old) (tree node.new) }
    ensures removed { OnOk result (is_formed_away (tree node.new) ≡ false) }
{
    let action = formed(alloc, node)?;
    action.carry_out(node);
    Ok(())
}

/// Returns the action that replaces a character or a set of ASCII characters by bytes.
fn formed(alloc: Global, node: &Node) -> Result<PassAction, AllocError>
    requires leaf { is_leaf (tree node.now) ≡ true }
    ensures clears { IfOk result (λ action. Clears is_formed_away (tree node.now) (after action (tree node.now))) }
    ensures removed { IfOk result (λ action. is_formed_away (after action (tree node.now)) ≡ false) }
{
    match node {
        Node::Char { c } => form_character(alloc, *c),
        Node::CharSet(characters) => form_set(alloc, characters),
        _ => Ok(PassAction::Keep),
    }
}

/// Replaces a `ByteSequence` without a byte by `Empty`.
fn clear(node: &mut Node)
    requires part { IsPart (tree node.old) }
    requires leaf { is_leaf (tree node.old) ≡ true }
    ensures clears { Clears is_emptied_away (tree node.old) (tree node.new) }
    ensures removed { is_emptied_away (tree node.new) ≡ false }
    ensures formed { is_formed_away (tree node.old) ≡ false → is_formed_away (tree node.new) ≡ false }
{
    if has_no_byte(node) {
        *node = Node::Empty;
    }
}

/// Returns whether the node is a `ByteSequence` without a byte.
fn has_no_byte(node: &Node) -> bool
    requires { is_leaf (tree node.now) ≡ true }
    ensures { result ≡ is_emptied_away (tree node.now) }
{
    matches!(node, Node::ByteSequence(bytes) if bytes.is_empty())
}
