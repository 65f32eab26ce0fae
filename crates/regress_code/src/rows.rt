//! Rows of choices between strings, among which a run finds the next one that occurs at its position.
ghost use Rattle.std.specs.Prelude.{◌≡◌, ◌≤◌, ◌-◌, All, Bool, IfOk, IfSome, List, MatchOption, None, Some, encode_utf8_all, false, length};
ghost use Rattle.std.specs.Char.{IsScalar};
ghost use Rattle.regress_strings.specs.Contents.{contents};
ghost use Rattle.regress_tree.specs.Tree.{tree};
ghost use Rattle.regress_code.specs.Rows.{AreChoices, AreRows, BeginsWithString, IsBegun, first_leaf};

use crate::choices::preferred_at;
use regress_leaves::test::Test;
use regress_program::instruction::Instruction;
use regress_strings::Strings;
use regress_tree::ir::Node;
use regress_unicode::are_caseless;
use std::alloc::{AllocError, Global};

/// The least number of choices of a row.
const LEAST: usize = 16;

/// Choices one after the other, each between an alternative that begins with a string, and the instruction before the
/// choice.
#[derive(Drop)]
pub struct Row {
    /// The index of the lowest choice, which is tried last.
    pub lowest: usize,
    /// The string of each choice, from the lowest one on.
    pub strings: Strings,
}

impl Row {
    ghost use Rattle.std.specs.Prelude.{ℕ, ◌↔◌, ◌≤◌, ◌<◌, IsTrue, length};
    ghost use Rattle.regress_code.specs.Rows.{IsChoiceOf, IsPassed};

    /// Returns whether the instruction with the index `pc` is a choice of the row.
    #[inline(always)]
    pub(crate) fn contains(&self, pc: usize) -> bool
        ensures { IsTrue result ↔ IsChoiceOf self.now pc }
    {
        pc >= self.lowest && pc - self.lowest < self.strings.len()
    }

    /// Returns the next choice of the row, from the instruction with the index `pc` downwards, whose string occurs in the
    /// text at a position; or the instruction below the row, if there is none. If `pc` is no choice of the row, it is `pc`.
    ///
    /// # Preconditions
    /// The position is inside the text.
    pub fn next_choice(&self, text: &[u8], position: usize, pc: usize) -> usize
        requires { position ≤ length text.now }
        ensures within { result ≤ pc }
        ensures passed { (j : ℕ) → result < j → j ≤ pc → IsPassed self.now text.now position j }
        ensures next { 0 < self.now.lowest → IsPassed self.now text.now position result → ⊥ }
    {
        if !self.contains(pc) {
            return pc;
        }
        match self.strings.last_at(text, position, pc - self.lowest + 1) {
            Some(k) => self.lowest + k,
            None => self.lowest.saturating_sub(1),
        }
    }
}

/// Returns the rows of a routine, each as long as possible. A routine that matches backwards has none. With `folds` they hold
/// where a character without case has its canonical form alone.
///
/// # Complexity
/// O(n log n) comparisons of two strings for n choices.
///
/// # Errors
/// Returns [`AllocError`] if an allocation fails.
pub fn rows_of(
    alloc: Global,
    leaves: &[Test],
    instructions: &[Instruction],
    backwards: bool,
    folds: bool,
) -> Result<Vec<Row>, AllocError>
    ensures { IfOk result (λ rows. AreRows folds rows.items leaves.now instructions.now backwards) }
{
    if backwards {
        return Ok(Vec::new(alloc));
    }
    forward_rows(alloc, leaves, instructions, folds)
}

/// Returns the rows of a routine that matches forwards.
///
/// # Errors
/// Returns [`AllocError`] if an allocation fails.
fn forward_rows(
    alloc: Global,
    leaves: &[Test],
    instructions: &[Instruction],
    folds: bool,
) -> Result<Vec<Row>, AllocError>
    ensures { IfOk result (λ rows. AreRows folds rows.items leaves.now instructions.now false) }
{
    let mut rows = Vec::new(alloc);
    let mut strings = Vec::new(alloc);
    for pc in 0..instructions.len() {
        match string_of_choice(alloc, leaves, instructions, pc, folds)? {
            Some(string) => strings.push(string)?,
            None => {
                push_row(alloc, &mut rows, pc, strings)?;
                strings = Vec::new(alloc);
            }
        }
    }
    push_row(alloc, &mut rows, instructions.len(), strings)?;
    Ok(rows)
}

/// Appends the row that ends before the index `end` and has these strings, if they are enough.
///
/// # Preconditions
/// There are at most `end` strings.
///
/// # Errors
/// Returns [`AllocError`] if an allocation fails.
fn push_row(
    alloc: Global,
    rows: &mut Vec<Row>,
    end: usize,
    strings: Vec<Vec<u8>>,
) -> Result<(), AllocError>
    requires { length strings.items ≤ end }
    ensures { (folds : Bool) (leaves : List Test) (instructions : List Instruction) → AreRows folds rows.old.items leaves instructions false →
        AreChoices folds leaves instructions (end - length strings.items) (contents strings.items) → AreRows folds rows.new.items leaves instructions false }
{
    if strings.len() < LEAST {
        return Ok(());
    }
    let lowest = end - strings.len();
    let strings = Strings::new(alloc, strings)?;
    rows.push(Row { lowest, strings })?;
    Ok(())
}

/// Returns the string with which the preferred alternative of a choice begins, if the instruction with the index `pc` is a
/// choice between it and the instruction before.
///
/// # Errors
/// Returns [`AllocError`] if an allocation fails.
fn string_of_choice(
    alloc: Global,
    leaves: &[Test],
    instructions: &[Instruction],
    pc: usize,
    folds: bool,
) -> Result<Option<Vec<u8>>, AllocError>
    ensures { IfOk result (λ found. IfSome found (λ string. IsBegun folds string.items (first_leaf leaves.now instructions.now pc))) }
{
    match first_leaf(leaves, instructions, pc) {
        Some(test) => string_of(alloc, &test.node, folds),
        None => Ok(None),
    }
}

/// Returns the leaf with which the preferred alternative of a choice begins, if the instruction with the index `pc` is a
/// choice between it and the instruction before.
fn first_leaf<'l>(leaves: &'l [Test], instructions: &[Instruction], pc: usize) -> Option<&'l Test>
    ensures { MatchOption result (first_leaf leaves.now instructions.now pc ≡ None)
        (λ test. first_leaf leaves.now instructions.now pc ≡ Some test.now) }
{
    let first = preferred_at(instructions, pc)?;
    match *instructions.get(first)? {
        Instruction::Leaf { leaf, .. } => leaves.get(leaf),
        _ => None,
    }
}

/// Returns a string with which each match of a leaf begins in the forward direction, if the leaf is one string that is
/// compared as it is, or, with `folds`, one string of characters without case.
///
/// # Errors
/// Returns [`AllocError`] if an allocation fails.
fn string_of(alloc: Global, node: &Node, folds: bool) -> Result<Option<Vec<u8>>, AllocError>
    ensures { IfOk result (λ found. IfSome found (λ string. BeginsWithString folds string.items (tree node.now))) }
{
    match node {
        Node::ByteSequence(bytes) => Ok(Some(Vec::from_slice(alloc, bytes)?)),
        Node::StringSet {
            alternatives,
            icase,
        } => match alternatives.as_slice() {
            [string] if !*icase || folds && are_caseless(string) => encoded(alloc, string),
            _ => Ok(None),
        },
        _ => Ok(None),
    }
}

/// Returns characters in UTF-8, or `None` if one of them is no character of a text, as a surrogate.
///
/// # Errors
/// Returns [`AllocError`] if an allocation fails.
fn encoded(alloc: Global, characters: &[u32]) -> Result<Option<Vec<u8>>, AllocError>
    ensures characters { IfOk result (λ found. IfSome found (λ bytes. All IsScalar characters.now)) }
    ensures bytes { IfOk result (λ found. IfSome found (λ bytes. bytes.items ≡ encode_utf8_all characters.now)) }
{
    let mut text = String::new(alloc);
    for c in characters {
        let Some(c) = char::from_u32(*c) else {
            return Ok(None);
        };
        text.push(c)?;
    }
    Ok(Some(text.into_bytes()))
}
