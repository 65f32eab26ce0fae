//! Forming of literal bytes.
ghost use Rattle.std.specs.Prelude.{◌≡◌, ◌++◌, [], true, IfOk, OnOk, OnErr};
ghost use Rattle.regress_tree.specs.Reading.{Direction};
ghost use Rattle.regress_tree.specs.Tree.{tree, leaf, char, char_set, byte_sequence};
ghost use Rattle.regress_tree.specs.SmallSets.{set_of};
ghost use Rattle.regress_tree.specs.Shapes.{has_bytes, is_formed_away};
ghost use Rattle.regress_rewrite.specs.Law.{after, ObeysLaw};
ghost use Rattle.regress_rewrite.specs.Formed.{formed_character, bytes_of};

use crate::action::PassAction;
use regress_tree::ir::Node;
use regress_tree::small_sets::ascii;
use std::alloc::{AllocError, Global};

/// Returns the action that replaces a code point by its UTF-8, or `Keep` if it is no character.
///
/// # Errors
/// Returns [`AllocError`] if an allocation fails.
pub fn form_character(alloc: Global, c: u32) -> Result<PassAction, AllocError>
    ensures lawful { (d : Direction) → IfOk result (ObeysLaw is_formed_away true d (leaf (char c)) (leaf (char c))) }
    ensures formed { IfOk result (λ action. after action (leaf (char c)) ≡ leaf (formed_character c)) }
{
    let Some(c) = char::from_u32(c) else {
        return Ok(PassAction::Keep);
    };
    let mut text = String::new(alloc);
    text.push(c)?;
    Ok(PassAction::Replace(Node::ByteSequence(text.into_bytes())))
}

/// Returns the action that replaces a set by one of bytes, or `Keep` if a member is not ASCII.
///
/// # Errors
/// Returns [`AllocError`] if an allocation fails.
pub fn form_set(alloc: Global, characters: &[u32]) -> Result<PassAction, AllocError>
    ensures lawful { (d : Direction) → IfOk result (ObeysLaw is_formed_away true d (leaf (char_set characters.now)) (leaf (char_set characters.now))) }
    ensures formed { IfOk result (λ action. after action (leaf (char_set characters.now)) ≡ leaf (set_of characters.now)) }
{
    match ascii(alloc, characters)? {
        Some(bytes) => Ok(PassAction::Replace(Node::ByteSet(bytes))),
        None => Ok(PassAction::Keep),
    }
}

/// Returns whether `node` is a `ByteSequence` of at least one byte.
pub fn has_bytes(node: &Node) -> bool
    ensures { result ≡ has_bytes (tree node.now) }
{
    matches!(node, Node::ByteSequence(bytes) if !bytes.is_empty())
}

/// Moves the bytes of `other` to the end of those of `part`.
///
/// # Preconditions
/// Both are a `ByteSequence` with at least one byte.
///
/// # Errors
/// Returns [`AllocError`] if an allocation fails. Both nodes are unchanged.
pub fn append(part: &mut Node, other: &mut Node) -> Result<(), AllocError>
    requires part { has_bytes (tree part.old) ≡ true }
    requires other { has_bytes (tree other.old) ≡ true }
    ensures ok { OnOk result (tree part.new ≡ leaf (byte_sequence (bytes_of (tree part.old) ++ bytes_of (tree other.old)))) }
    ensures other { OnOk result (tree other.new ≡ leaf (byte_sequence [])) }
    ensures err { OnErr result (tree part.new ≡ tree part.old) }
    ensures err_other { OnErr result (tree other.new ≡ tree other.old) }
{
    if let Node::ByteSequence(bytes) = part
        && let Node::ByteSequence(more) = other
    {
        bytes.append(more)
    } else {
        Ok(())
    }
}
