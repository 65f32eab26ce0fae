//! Compiles sets of strings.
ghost use Rattle.std.specs.Prelude.{◌≡◌, ◌+◌, ◌<◌, ℕ, Bool, IfOk, IfErr, Some, length, map, slice_get};
ghost use Rattle.std.specs.Box.{boxed_slice_items};
ghost use Rattle.regress_tree.specs.Tree.{Tree, string_set};
ghost use Rattle.regress_program.specs.CodeOf.{Emits, Exceeds, Spends};
ghost use Rattle.regress_program.specs.Compiled.{matching, strings};
ghost use Rattle.regress_program.specs.Contents.{nothing};
ghost use Rattle.regress_program.specs.LeavesOf.{leaves_of_strings};
ghost use Rattle.regress_program.specs.Listed.{all_of};
ghost use Rattle.regress_program.specs.Size.{size_of_leaf};
ghost use Rattle.regress_program.specs.declared.counts.Counts.{Counts};
ghost use Rattle.regress_program.specs.declared.fault.CompileFault.TheVariants.{TooLong};

use crate::compiler::Compiler;
use crate::fault::CompileFault;
use crate::instruction::Instruction;
use std::boxed::BoxedSlice;

impl Compiler {
    /// Compiles a set of strings, which are tried in order: a leaf for each, and then the choices between them, the last
    /// one first.
    pub(crate) fn strings(
        &mut self,
        alternatives: &[BoxedSlice<u32>],
        next: usize,
    ) -> Result<usize, CompileFault>
        requires { next < length (all_of self.old.instructions) }
        ensures emits { (icase : Bool) → (let ss = map boxed_slice_items alternatives.now in
            IfOk result (Emits self.old self.new self.old.next_leaf (leaves_of_strings ss icase) (matching (strings ss icase)) nothing next)) }
        ensures spends { (icase : Bool) (counts : Counts) → (let ss = map boxed_slice_items alternatives.now in
            IfOk result (λ _. Spends self.old self.new counts (λ counted. size_of_leaf (string_set ss icase)))) }
        ensures too_long { (icase : Bool) (counts : Counts) → (let ss = map boxed_slice_items alternatives.now in
            IfErr result (λ fault. fault ≡ TooLong → Exceeds self.old counts (λ counted. size_of_leaf (string_set ss icase)))) }
    {
        let count = alternatives.len();
        if count == 0 {
            return self.push(Instruction::Fail);
        }
        let last = self.push_strings(alternatives, next)?;
        let mut entry = last;
        for i in 1..count {
            entry = self.push(Instruction::Split {
                first: last + i,
                second: entry,
            })?;
        }
        Ok(entry)
    }

    /// Emits a leaf for each of the strings, the last one first. Returns the index of the first of these instructions.
    fn push_strings(
        &mut self,
        alternatives: &[BoxedSlice<u32>],
        next: usize,
    ) -> Result<usize, CompileFault>
        requires next { next < length (all_of self.old.instructions) }
        requires some { 0 < length alternatives.now }
        ensures emits { (icase : Bool) (i : ℕ) (string : Tree) → (let ts = leaves_of_strings (map boxed_slice_items alternatives.now) icase in
            slice_get ts i ≡ Some string → IfOk result (λ first. Emits self.old self.new self.old.next_leaf ts (matching string) nothing next (first + i))) }
        ensures spends { (counts : Counts) → IfOk result (λ _. Spends self.old self.new counts (λ counted. length alternatives.now)) }
        ensures too_long { (counts : Counts) → IfErr result (λ fault. fault ≡ TooLong → Exceeds self.old counts (λ counted. length alternatives.now)) }
    {
        let first = self.push_leaf(next)?;
        for _i in 1..alternatives.len() {
            self.push_leaf(next)?;
        }
        Ok(first)
    }
}
