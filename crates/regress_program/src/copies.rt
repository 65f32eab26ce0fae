//! Instructions, where copies of the last ones are not stored.
ghost use Rattle.std.specs.Prelude.{◌≡◌, length};
ghost use Rattle.regress_program.specs.Copies.{AreCopies, expanded};
ghost use Rattle.regress_program.specs.UniqueCopies.{AreCopies-prop};

use crate::instruction::Instruction;
use std::alloc::{AllocError, Global};

/// Copies of instructions.
///
/// After the first `start` instructions follow `count` copies of the last `width` of them. Each names instructions that
/// are `width` further on than those that the one before it names, except those before `from`, which stay.
#[derive(Clone, Copy)]
pub(crate) struct Copies {
    /// The index of the first instruction of the copies.
    pub(crate) start: usize,
    /// How many instructions are copied.
    pub(crate) width: usize,
    /// How often.
    pub(crate) count: usize,
    /// Instructions before this index are named as they are.
    pub(crate) from: usize,
    /// How many stored instructions come before the copies.
    pub(crate) stored: usize,
}

impl Copies {
    ghost use Rattle.std.specs.Prelude.{◌≤◌};
    ghost use Rattle.regress_program.specs.Copies.{end_of};

    /// Returns the index after the copies.
    ///
    /// # Preconditions
    /// It fits a `usize`.
    fn end(self) -> usize
        requires { end_of self ≤ usize.MAX }
        ensures { result ≡ end_of self }
    {
        self.start + self.count * self.width
    }
}

/// The instructions of a routine. Copies of the last ones are not stored.
#[derive(Drop)]
pub struct Instructions {
    pub(crate) stored: Vec<Instruction>,
    /// The copies, in order. Those of later ones may contain earlier ones.
    pub(crate) copies: Vec<Copies>,
    /// The number of instructions, copies included.
    pub(crate) len: usize,
    ghost are: { AreCopies stored.items copies.items } by { AreCopies-prop stored.items copies.items },
    ghost counted: { len ≡ length (expanded stored.items copies.items) },
}

impl Instructions {
    ghost use Rattle.std.specs.Prelude.{◌+◌, ◌-◌, ◌*◌, ◌≤◌, ◌<◌, Some, IfOk, OnErr, ℕ, [], ◌∷◌, ◌++◌, set, slice_get};
    ghost use Rattle.regress_program.specs.Copies.{NamesBelow, expand, moved_in, times};
    ghost use Rattle.regress_program.specs.Listed.{Appends, Begins, IsAlone, IsBegun, IsStoredAt, all_of};

    /// Returns a list without instructions.
    pub(crate) fn new(alloc: Global) -> Instructions
        ensures none { all_of result ≡ [] }
        ensures stored { result.stored.items ≡ [] }
    {
        Instructions {
            stored: Vec::new(alloc),
            copies: Vec::new(alloc),
            len: 0,
        }
    }

    /// Returns the number of instructions.
    #[inline(always)]
    pub fn len(&self) -> usize
        ensures { result ≡ length (all_of self.now) }
    {
        self.len
    }

    /// Returns the stored instructions: each of the others is a copy of one of them.
    pub(crate) fn stored(&self) -> &[Instruction]
        ensures { result.now ≡ self.now.stored.items }
    {
        &self.stored
    }

    /// Returns the first instructions: those before all copies.
    pub fn leading(&self) -> &[Instruction]
        ensures { Begins result.now (all_of self.now) }
    {
        match self.copies.first() {
            None => &self.stored,
            Some(copies) => &self.stored[..copies.stored],
        }
    }

    /// Returns the instruction with an index.
    ///
    /// # Preconditions
    /// There is one.
    ///
    /// # Complexity
    /// The time is logarithmic in the number of copies, once for each that contains the instruction.
    #[inline(always)]
    pub fn at(&self, pc: usize) -> Instruction
        requires { pc < length (all_of self.now) }
        ensures { slice_get (all_of self.now) pc ≡ Some result }
    {
        if self.copies.is_empty() {
            self.stored[pc]
        } else {
            self.at_before(self.copies.len(), pc)
        }
    }

    /// Returns the instruction with an index, where only the first `count` copies are looked at, which are enough.
    fn at_before(&self, count: usize, pc: usize) -> Instruction
        requires within { count ≤ length self.now.copies.items }
        requires inside { pc < length (expand self.now.stored.items self.now.copies.items count (length self.now.stored.items)) }
        ensures { slice_get (expand self.now.stored.items self.now.copies.items count (length self.now.stored.items)) pc ≡ Some result }
    {
        let begun = self.begun(count, pc);
        if begun == 0 {
            return self.stored[pc];
        }
        let last = self.copies[begun - 1];
        let end = last.end();
        if pc >= end {
            return self.stored[last.stored + (pc - end)];
        }
        let back = ((pc - last.start) / last.width + 1) * last.width;
        self.at_before(begun - 1, pc - back).moved(last.from, back)
    }

    /// Returns how many of the first `count` copies start at an index or before.
    fn begun(&self, count: usize, pc: usize) -> usize
        requires { count ≤ length self.now.copies.items }
        ensures { IsBegun self.now.copies.items count pc result }
    {
        self.copies[..count].partition_point(|copies| copies.start <= pc)
    }

    /// Adds an instruction.
    ///
    /// # Errors
    /// Returns [`AllocError`] if an allocation fails, and nothing is added.
    pub(crate) fn push(&mut self, instruction: Instruction) -> Result<(), AllocError>
        requires { length (all_of self.old) < usize.MAX }
        ensures pushed { IfOk result (λ _. all_of self.new ≡ all_of self.old ++ instruction ∷ []) }
        ensures stored { IfOk result (λ _. self.new.stored.items ≡ self.old.stored.items ++ instruction ∷ []) }
        ensures copies { self.new.copies.items ≡ self.old.copies.items }
        ensures appends { NamesBelow (length (all_of self.old)) instruction → IfOk result (λ _. Appends self.old self.new) }
        ensures err { OnErr result (all_of self.new ≡ all_of self.old) }
    {
        self.stored.push(instruction)?;
        self.len += 1;
        Ok(())
    }

    /// Adds `count` copies of the instructions from `start` on. Those before `from` are named as they are.
    ///
    /// # Errors
    /// Returns [`AllocError`] if an allocation fails, and nothing is added.
    pub(crate) fn copy(&mut self, from: usize, start: usize, count: usize) -> Result<(), AllocError>
        requires some { start < length (all_of self.old) }
        requires from { from ≤ start }
        requires named { (pc : ℕ) (i : Instruction) → start ≤ pc → slice_get (all_of self.old) pc ≡ Some i → NamesBelow (length (all_of self.old)) i }
        requires room { length (all_of self.old) + count * (length (all_of self.old) - start) ≤ usize.MAX }
        ensures copied { (let width = length (all_of self.old) - start in
            IfOk result (λ _. all_of self.new ≡ times (moved_in from width) width count (all_of self.old))) }
        ensures stored { self.new.stored.items ≡ self.old.stored.items }
        ensures appends { (base : Instructions) → length (all_of base) ≤ start → Appends base self.old → IfOk result (λ _. Appends base self.new) }
        ensures err { OnErr result (all_of self.new ≡ all_of self.old) }
    {
        let width = self.len - start;
        self.copies.push(Copies {
            start: self.len,
            width,
            count,
            from,
            stored: self.stored.len(),
        })?;
        self.len += count * width;
        Ok(())
    }

    /// Replaces the instruction with an index.
    ///
    /// # Preconditions
    /// There is one. It is not a copy, and no copies of it have been made.
    pub(crate) fn set(&mut self, at: usize, instruction: Instruction)
        requires within { at < length (all_of self.old) }
        requires alone { IsAlone self.old at }
        ensures set { all_of self.new ≡ set (all_of self.old) at instruction }
        ensures stored { length self.new.stored.items ≡ length self.old.stored.items }
        ensures appends { (base : Instructions) → length (all_of base) ≤ at → Appends base self.old → NamesBelow (length (all_of self.old)) instruction →
            Appends base self.new }
    {
        let slot = self.slot(at);
        self.stored[slot] = instruction;
    }

    /// Returns where an instruction is stored, which is not a copy, and of which no copies have been made.
    fn slot(&self, at: usize) -> usize
        requires within { at < length (all_of self.now) }
        requires alone { IsAlone self.now at }
        ensures { IsStoredAt self.now at result }
    {
        let begun = self.begun(self.copies.len(), at);
        if begun == 0 {
            return at;
        }
        let last = self.copies[begun - 1];
        last.stored + (at - last.end())
    }
}
