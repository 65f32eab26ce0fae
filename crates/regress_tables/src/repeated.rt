//! Which instructions of a routine match repetitions.
ghost use Rattle.std.specs.Prelude.{◌≡◌, ◌⊎◌, ℕ, IfOk, IfSome, Some, slice_get, true};
ghost use Rattle.regress_prefilter.specs.OneCharacter.{takes_one};
ghost use Rattle.regress_program.specs.Listed.{listed};
ghost use Rattle.regress_program.specs.Views.{leaf_in, ops_in};
ghost use Rattle.regress_tables.specs.Repetitions.{AreRepetitions, IsCoded, IsRepeated, RepeatOne};
ghost use Rattle.regress_tables.specs.declared.table.Table.{Table};

use crate::evaluate::Input;
use crate::repetitions::{Repeated, Repetition, Repetitions};
use regress_leaves::leaves::takes_one;
use regress_program::instruction::{Instruction, Routine};
use std::alloc::{AllocError, Global};

/// The largest number of different repetitions of a routine.
const DISTINCT: usize = 32;

impl Repetitions {
    /// Returns these instructions of a routine, those last that match repetitions, and the repetitions.
    ///
    /// # Errors
    /// Returns [`AllocError`] if an allocation fails.
    pub(crate) fn new(
        alloc: Global,
        input: Input<'_, '_>,
        routine: &Routine,
        far: &[usize],
    ) -> Result<(Vec<usize>, Repetitions), AllocError>
        ensures all { IfOk result (λ both. (k pc : ℕ) → slice_get far.now k ≡ Some pc → (j : ℕ) × (slice_get both.0.items j ≡ Some pc)) }
        ensures are { IfOk result (λ both. AreRepetitions input.entry.code.now.program.leaves.items
            (ops_in input.entry.code.now.program.leaves.items (listed routine.now)) both.0.items both.1) }
        ensures digits { IfOk result (λ both. (t : Table) → IsCoded t both.1) }
    {
        let mut distinct = Vec::new(alloc);
        let mut uses = Vec::new(alloc);
        let mut ordered = Vec::new(alloc);
        let mut last = Vec::new(alloc);
        for k in 0..far.len() {
            let pc = far[k];
            match repeated_at(&mut distinct, input, routine, pc)? {
                Some(repeated) => {
                    uses.push(repeated)?;
                    last.push(pc)?;
                }
                None => ordered.push(pc)?,
            }
        }
        ordered.append(&mut last)?;
        let ends = vec![in alloc; 0; distinct.len()]?;
        let repetitions = Repetitions {
            distinct,
            uses,
            ends,
            code: None,
        };
        Ok((ordered, repetitions))
    }
}

/// Returns which repetition an instruction matches, if any. It is added if it is not there yet.
///
/// # Errors
/// Returns [`AllocError`] if an allocation fails.
fn repeated_at(
    distinct: &mut Vec<Repetition>,
    input: Input<'_, '_>,
    routine: &Routine,
    pc: usize,
) -> Result<Option<Repeated>, AllocError>
    ensures kept { (k : ℕ) (r : Repetition) → slice_get distinct.old.items k ≡ Some r → slice_get distinct.new.items k ≡ Some r }
    ensures one { RepeatOne input.entry.code.now.program.leaves.items distinct.old.items → RepeatOne input.entry.code.now.program.leaves.items distinct.new.items }
    ensures repeated { IfOk result (λ repeated. IfSome repeated (IsRepeated input.entry.code.now.program.leaves.items
        (ops_in input.entry.code.now.program.leaves.items (listed routine.now)) distinct.new.items pc)) }
{
    if pc >= routine.len() {
        return Ok(None);
    }
    let Instruction::Characters { leaf, count, next } = routine.at(pc) else {
        return Ok(None);
    };
    if next >= routine.len() || !is_one(input, leaf) {
        return Ok(None);
    }
    let Some(repetition) = index_in(distinct, Repetition { leaf, count })? else {
        return Ok(None);
    };
    Ok(Some(Repeated { repetition, next }))
}

/// Returns the index of a repetition. It is added if it is not there yet. The result is `None` if there are too many.
///
/// # Errors
/// Returns [`AllocError`] if an allocation fails.
fn index_in(
    distinct: &mut Vec<Repetition>,
    repetition: Repetition,
) -> Result<Option<usize>, AllocError>
    ensures kept { (k : ℕ) (r : Repetition) → slice_get distinct.old.items k ≡ Some r → slice_get distinct.new.items k ≡ Some r }
    ensures only { (k : ℕ) (r : Repetition) → slice_get distinct.new.items k ≡ Some r → slice_get distinct.old.items k ≡ Some r ⊎ (r ≡ repetition) }
    ensures at { IfOk result (λ index. IfSome index (λ k. slice_get distinct.new.items k ≡ Some repetition)) }
{
    for k in 0..distinct.len() {
        let other = distinct[k];
        if other.leaf == repetition.leaf && other.count == repetition.count {
            return Ok(Some(k));
        }
    }
    if distinct.len() >= DISTINCT {
        return Ok(None);
    }
    distinct.push(repetition)?;
    Ok(Some(distinct.len() - 1))
}

/// Returns whether there is a leaf with this index, and it matches one character.
pub(crate) fn is_one(input: Input<'_, '_>, leaf: usize) -> bool
    ensures { result ≡ true → takes_one (leaf_in input.entry.code.now.program.leaves.items leaf) ≡ true }
{
    match input.test(leaf) {
        Some(test) => takes_one(&test.node),
        None => false,
    }
}
