//! Splicing of nested `Cat`s.
ghost use Rattle.std.specs.Prelude.{◌≡◌, ◌+◌, ◌≤◌, IfOk, IsOk, OnOk, OnErr, vec_len, vec_capacity};
ghost use Rattle.regress_tree.specs.Tree.{tree, trees, append_trees};
ghost use Rattle.regress_rewrite.specs.Splice.{parts_of, spliced, list_length};

use regress_tree::ir::{Node, NodeList};
use std::alloc::{AllocError, Global};
use std::mem;

/// Replaces each `Cat` in a list by its parts. Each part is moved once.
///
/// # Errors
/// Returns [`AllocError`] if an allocation fails. The list is unchanged.
pub fn splice(alloc: Global, parts: &mut NodeList) -> Result<(), AllocError>
    ensures ok { OnOk result (trees parts.new.items ≡ spliced (trees parts.old.items)) }
    ensures err { OnErr result (trees parts.new.items ≡ trees parts.old.items) }
{
    let mut flat = Vec::with_capacity(alloc, spliced_len(parts)?)?;
    // The capacity suffices, so nothing fails from here on.
    for part in mem::replace(parts, Vec::new(alloc)) {
        append_parts(&mut flat, part)?;
    }
    *parts = flat;
    Ok(())
}

/// Appends a part, or the parts of a `Cat`. It does not fail if the capacity suffices.
fn append_parts(flat: &mut NodeList, part: Node) -> Result<(), AllocError>
    ensures ok { OnOk result (trees flat.new.items ≡ append_trees (trees flat.old.items) (parts_of (tree part))) }
    ensures capacity { OnOk result (vec_capacity flat.old ≤ vec_capacity flat.new) }
    ensures room { vec_len flat.old + list_length (parts_of (tree part)) ≤ vec_capacity flat.old → IsOk result }
{
    let mut part = part;
    match &mut part {
        Node::Cat(inner) => flat.append(inner)?,
        _ => flat.push(part)?,
    }
    Ok(())
}

/// Returns the number of parts after each `Cat` is replaced by its parts. It fails if the number exceeds `usize::MAX`,
/// for which there is no memory.
fn spliced_len(parts: &[Node]) -> Result<usize, AllocError>
    ensures { IfOk result (λ len. len ≡ list_length (spliced (trees parts.now))) }
{
    let mut len: usize = 0;
    for part in parts {
        len = len.checked_add(parts_len(part)).ok_or(AllocError)?;
    }
    Ok(len)
}

/// Returns the number of parts that replace a part.
fn parts_len(part: &Node) -> usize
    ensures { result ≡ list_length (parts_of (tree part.now)) }
{
    match part {
        Node::Cat(inner) => inner.len(),
        _ => 1,
    }
}
