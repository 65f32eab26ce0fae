//! Forming of literal bytes.
ghost use Rattle.std.specs.Prelude.{◌≡◌, ◌<◌, ◌-◌, ◌&&◌, length, map, true, IfOk, OnOk, OnErr};
ghost use Rattle.regress_tree.specs.Reading.{Direction, forwards, backwards};
ghost use Rattle.regress_tree.specs.Tree.{tree, trees, cat};
ghost use Rattle.regress_tree.specs.Walk.{direction_of};
ghost use Rattle.regress_tree.specs.Shapes.{has_bytes, is_formed_away};
ghost use Rattle.regress_rewrite.specs.Law.{ObeysLaw};
ghost use Rattle.regress_passes.specs.Joined.{part_at, HaveBytes, joined_at, JoinsBytes};

use regress_rewrite::PassAction;
use regress_rewrite::form_literal_bytes::{append, form_character, form_set, has_bytes};
use regress_tree::ir::{Node, Walk};
use std::alloc::{AllocError, Global};
use std::mem;

/// Replaces a character by the `ByteSequence` of its UTF-8 and a set of ASCII characters by a `ByteSet`, and joins the
/// bytes of neighbours in a `Cat`, where the last part of each run gets all bytes. Keeps any other node.
///
/// If an allocation fails after some neighbours were joined, the result is `Modified`, and the next traversal tries
/// again.
///
/// # Complexity
/// Linear in the parts of a `Cat` and their bytes.
///
/// # Errors
/// Returns [`AllocError`] if an allocation fails before anything was changed. The node is unchanged.
pub fn form_literal_bytes(
    alloc: Global,
    node: &mut Node,
    walk: &Walk,
) -> Result<PassAction, AllocError>
    ensures lawful { IfOk result (ObeysLaw is_formed_away true (direction_of walk.now) (tree node.old) (tree node.new)) }
    ensures err { OnErr result (tree node.new ≡ tree node.old) }
{
    match node {
        Node::Char { c } => form_character(alloc, *c),
        Node::CharSet(characters) => form_set(alloc, characters),
        Node::Cat(parts) => join_parts(parts, walk),
        _ => Ok(PassAction::Keep),
    }
}

/// Joins the bytes of neighbours.
fn join_parts(parts: &mut [Node], walk: &Walk) -> Result<PassAction, AllocError>
    ensures lawful { IfOk result (ObeysLaw is_formed_away true (direction_of walk.now) (cat (trees parts.old)) (cat (trees parts.new))) }
    ensures err { OnErr result (trees parts.new ≡ trees parts.old) }
{
    let joined = if walk.in_lookbehind {
        join_backwards(parts)?
    } else {
        join_forwards(parts)?
    };
    Ok(if joined {
        PassAction::Modified
    } else {
        PassAction::Keep
    })
}

/// Joins neighbours from left to right, where the bytes of the earlier part come first, and returns whether there were
/// any.
fn join_forwards(parts: &mut [Node]) -> Result<bool, AllocError>
    ensures joins { IfOk result (λ joined. JoinsBytes forwards joined (trees parts.old) (trees parts.new)) }
    ensures err { OnErr result (trees parts.new ≡ trees parts.old) }
{
    let mut joined = false;
    for later in 1..parts.len() {
        if have_bytes(parts, later - 1, later) {
            if let Err(e) = join_after(parts, later) {
                return if joined { Ok(true) } else { Err(e) };
            }
            joined = true;
        }
    }
    Ok(joined)
}

/// Joins neighbours from right to left, where the bytes of the later part come first, and returns whether there were
/// any.
fn join_backwards(parts: &mut [Node]) -> Result<bool, AllocError>
    ensures joins { IfOk result (λ joined. JoinsBytes backwards joined (trees parts.old) (trees parts.new)) }
    ensures err { OnErr result (trees parts.new ≡ trees parts.old) }
{
    let mut joined = false;
    // The part that gets the bytes of those before it, down to the current one.
    let mut last = parts.len().saturating_sub(1);
    for earlier in (0..last).rev() {
        if have_bytes(parts, earlier, last) {
            if let Err(e) = join_before(parts, earlier, last) {
                return if joined { Ok(true) } else { Err(e) };
            }
            joined = true;
        } else {
            last = earlier;
        }
    }
    Ok(joined)
}

/// Returns whether both parts are a `ByteSequence` with at least one byte.
fn have_bytes(parts: &[Node], earlier: usize, later: usize) -> bool
    requires earlier { earlier < length parts.now }
    requires later { later < length parts.now }
    ensures { result ≡ (has_bytes (part_at earlier (map tree parts.now)) && has_bytes (part_at later (map tree parts.now))) }
{
    has_bytes(&parts[earlier]) && has_bytes(&parts[later])
}

/// Gives a part the bytes of the part before it, which come first. The buffer of the earlier part is reused.
fn join_after(parts: &mut [Node], later: usize) -> Result<(), AllocError>
    requires { HaveBytes (later - 1) later (map tree parts.old) }
    ensures ok { OnOk result (map tree parts.new ≡ joined_at forwards (later - 1) later (map tree parts.old)) }
    ensures err { OnErr result (map tree parts.new ≡ map tree parts.old) }
{
    let (front, back) = parts.split_at_mut(later);
    let (part, next) = (&mut front[later - 1], &mut back[0]);
    append(part, next)?;
    mem::swap(part, next);
    Ok(())
}

/// Gives a part the bytes of an earlier one, which come last.
fn join_before(parts: &mut [Node], earlier: usize, later: usize) -> Result<(), AllocError>
    requires { HaveBytes earlier later (map tree parts.old) }
    ensures ok { OnOk result (map tree parts.new ≡ joined_at backwards earlier later (map tree parts.old)) }
    ensures err { OnErr result (map tree parts.new ≡ map tree parts.old) }
{
    let (front, back) = parts.split_at_mut(later);
    append(&mut back[0], &mut front[earlier])
}
