//! The program that is being compiled.
ghost use Rattle.std.specs.Prelude.{◌≡◌, ◌+◌, ◌≤◌, length};
ghost use Rattle.regress_program.specs.Listed.{all_of};

use crate::copies::Instructions;
use crate::fault::CompileFault;
use crate::instruction::{Instruction, Routine};
use std::alloc::Global;

/// The routines that are finished, and the instructions of the next one.
///
/// Instructions are emitted backwards: what follows a node is emitted before it. The leaves have been collected in the
/// order in which their instructions are emitted. Copies of the body of a loop name the same leaves.
#[derive(Drop)]
pub(crate) struct Compiler {
    pub(crate) alloc: Global,
    pub(crate) routines: Vec<Routine>,
    pub(crate) instructions: Instructions,
    /// The index of the next leaf.
    pub(crate) next_leaf: usize,
    /// How many more instructions there may be, copies included.
    pub(crate) left: usize,
    /// How many more may be stored.
    pub(crate) stored_left: usize,
    ghost room: { left + length (all_of instructions) ≤ 18446744073709551615 },
}

impl Compiler {
    ghost use Rattle.std.specs.Prelude.{◌-◌, ◌*◌, ◌<◌, ℕ, Some, IfOk, IfErr, min, slice_get};
    ghost use Rattle.regress_program.specs.CodeOf.{EmitsOne, Exceeds, Spends};
    ghost use Rattle.regress_program.specs.Copies.{NamesBelow, moved_in, times};
    ghost use Rattle.regress_program.specs.Listed.{Appends};
    ghost use Rattle.regress_program.specs.Program.{part};
    ghost use Rattle.regress_program.specs.declared.copies.Instructions.{Instructions};
    ghost use Rattle.regress_program.specs.declared.counts.Counts.{Counts};
    ghost use Rattle.regress_program.specs.declared.fault.CompileFault.TheVariants.{TooLong};
    ghost use Rattle.regress_program.specs.declared.instruction.Instruction.{Instruction};
    ghost use Rattle.regress_program.specs.Views.{leaf_in, op_in};

    /// Emits an instruction, and returns its index.
    pub(crate) fn push(&mut self, instruction: Instruction) -> Result<usize, CompileFault>
        ensures emits { IfOk result (EmitsOne self.old self.new (λ leaves. op_in leaves instruction)) }
        ensures appends { NamesBelow (length (all_of self.old.instructions)) instruction →
            IfOk result (λ _. Appends self.old.instructions self.new.instructions) }
        ensures copies { self.new.instructions.copies.items ≡ self.old.instructions.copies.items }
        ensures spends { (counts : Counts) → IfOk result (λ _. Spends self.old self.new counts (λ counted. 1)) }
        ensures leaf { self.new.next_leaf ≡ self.old.next_leaf }
        ensures too_long { (counts : Counts) → IfErr result (λ fault. fault ≡ TooLong → Exceeds self.old counts (λ counted. 1)) }
    {
        if self.left == 0 || self.stored_left == 0 {
            return Err(CompileFault::TooLong);
        }
        self.left -= 1;
        self.stored_left -= 1;
        let at = self.instructions.len();
        self.instructions.push(instruction)?;
        Ok(at)
    }

    /// Emits an instruction that matches the next leaf, and returns its index.
    pub(crate) fn push_leaf(&mut self, next: usize) -> Result<usize, CompileFault>
        ensures emits { IfOk result (EmitsOne self.old self.new (λ leaves. part (leaf_in leaves self.old.next_leaf) next)) }
        ensures appends { next < length (all_of self.old.instructions) → IfOk result (λ _. Appends self.old.instructions self.new.instructions) }
        ensures spends { (counts : Counts) → IfOk result (λ _. Spends self.old self.new counts (λ counted. 1)) }
        ensures leaf { self.new.next_leaf ≡ min (self.old.next_leaf + 1) usize.MAX }
        ensures too_long { (counts : Counts) → IfErr result (λ fault. fault ≡ TooLong → Exceeds self.old counts (λ counted. 1)) }
    {
        let leaf = self.next_leaf;
        self.next_leaf = leaf.saturating_add(1);
        self.push(Instruction::Leaf { leaf, next })
    }

    /// Adds `count` copies of the instructions from `start` on, and returns how many instructions these are. Those before
    /// `from` are named as they are.
    ///
    /// # Errors
    /// Returns [`CompileFault::TooLong`] if there are too many instructions, and [`CompileFault::Memory`] if an allocation
    /// fails.
    pub(crate) fn copy(
        &mut self,
        from: usize,
        start: usize,
        count: usize,
    ) -> Result<usize, CompileFault>
        requires some { start < length (all_of self.old.instructions) }
        requires from { from ≤ start }
        requires named { (pc : ℕ) (i : Instruction) → start ≤ pc → slice_get (all_of self.old.instructions) pc ≡ Some i →
            NamesBelow (length (all_of self.old.instructions)) i }
        ensures copied { (let width = length (all_of self.old.instructions) - start in
            IfOk result (λ _. all_of self.new.instructions ≡ times (moved_in from width) width count (all_of self.old.instructions))) }
        ensures added { IfOk result (λ added. added ≡ count * (length (all_of self.old.instructions) - start)) }
        ensures appends { (base : Instructions) → length (all_of base) ≤ start → Appends base self.old.instructions →
            IfOk result (λ _. Appends base self.new.instructions) }
        ensures left { IfOk result (λ added. self.new.left + added ≡ self.old.left) }
        ensures rest { self.new.routines ≡ self.old.routines }
        ensures leaf { self.new.next_leaf ≡ self.old.next_leaf }
        ensures stored { self.new.stored_left ≡ self.old.stored_left }
        ensures kept { self.new.instructions.stored.items ≡ self.old.instructions.stored.items }
        ensures too_long { IfErr result (λ fault. fault ≡ TooLong → self.old.left < count * (length (all_of self.old.instructions) - start)) }
    {
        let width = self.instructions.len() - start;
        let Some(added) = count.checked_mul(width) else {
            return Err(CompileFault::TooLong);
        };
        if self.left < added {
            return Err(CompileFault::TooLong);
        }
        self.left -= added;
        self.instructions.copy(from, start, count)?;
        Ok(added)
    }
}
