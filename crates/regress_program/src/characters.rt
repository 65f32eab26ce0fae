//! Compiles loops over one character.
ghost use Rattle.std.specs.Prelude.{◌≡◌, ◌<◌, IfOk, IfErr, length};
ghost use Rattle.regress_program.specs.CodeOf.{EmitsCharacters, EmitsOne, Exceeds, Spends};
ghost use Rattle.regress_program.specs.Compiled.{exactly, optional};
ghost use Rattle.regress_program.specs.Listed.{Appends, all_of};
ghost use Rattle.regress_program.specs.Pushed.{preferred};
ghost use Rattle.regress_program.specs.Size.{size_of_exactly, size_of_up_to};
ghost use Rattle.regress_program.specs.declared.counts.Counts.{Counts};
ghost use Rattle.regress_program.specs.declared.fault.CompileFault.TheVariants.{TooLong};

use crate::compiler::Compiler;
use crate::counts::Counts;
use crate::fault::CompileFault;
use crate::instruction::Instruction;

impl Compiler {
    /// Compiles exactly `count` characters that match a leaf, the last ones first.
    pub(crate) fn exactly(
        &mut self,
        leaf: usize,
        counts: Counts,
        count: usize,
        next: usize,
    ) -> Result<usize, CompileFault>
        requires { next < length (all_of self.old.instructions) }
        ensures emits { IfOk result (EmitsCharacters self.old self.new leaf (exactly count) next) }
        ensures spends { IfOk result (λ _. Spends self.old self.new counts (λ counted. size_of_exactly counts count)) }
        ensures leaf { self.new.next_leaf ≡ self.old.next_leaf }
        ensures too_long { IfErr result (λ fault. fault ≡ TooLong → Exceeds self.old counts (λ counted. size_of_exactly counts count)) }
    {
        let mut entry = next;
        let mut left = count;
        while left > 0 {
            let part = counts.part_of(left);
            entry = self.characters(leaf, part, entry)?;
            left -= part;
        }
        Ok(entry)
    }

    /// Compiles at most `count` characters that match a leaf.
    ///
    /// An odd number is split in half: of 2 h + 1 characters the first h + 1 or none, and after them at most h. Of an even
    /// number it is the first one and after it at most one less, or none. So there are at most four instructions for each
    /// bit of the number, and with bounded counts one for 64 characters.
    pub(crate) fn up_to(
        &mut self,
        leaf: usize,
        greedy: bool,
        counts: Counts,
        count: usize,
        next: usize,
    ) -> Result<usize, CompileFault>
        requires { next < length (all_of self.old.instructions) }
        ensures emits { IfOk result (EmitsCharacters self.old self.new leaf (optional greedy count) next) }
        ensures spends { IfOk result (λ _. Spends self.old self.new counts (λ counted. size_of_up_to counts count count)) }
        ensures leaf { self.new.next_leaf ≡ self.old.next_leaf }
        ensures too_long { IfErr result (λ fault. fault ≡ TooLong → Exceeds self.old counts (λ counted. size_of_up_to counts count count)) }
    {
        if count == 0 {
            return Ok(next);
        }
        if count % 2 == 0 {
            let rest = self.up_to(leaf, greedy, counts, count - 1, next)?;
            let first = self.exactly(leaf, counts, 1, rest)?;
            self.prefer(greedy, first, next)
        } else {
            let rest = self.up_to(leaf, greedy, counts, count / 2, next)?;
            let first = self.exactly(leaf, counts, count / 2 + 1, rest)?;
            self.prefer(greedy, first, rest)
        }
    }

    /// Compiles a number of characters that match a leaf, as one instruction.
    fn characters(&mut self, leaf: usize, count: usize, next: usize) -> Result<usize, CompileFault>
        requires { next < length (all_of self.old.instructions) }
        ensures emits { IfOk result (EmitsCharacters self.old self.new leaf (exactly count) next) }
        ensures spends { (counts : Counts) → IfOk result (λ _. Spends self.old self.new counts (λ counted. 1)) }
        ensures leaf { self.new.next_leaf ≡ self.old.next_leaf }
        ensures too_long { (counts : Counts) → IfErr result (λ fault. fault ≡ TooLong → Exceeds self.old counts (λ counted. 1)) }
    {
        if count == 1 {
            self.push(Instruction::Leaf { leaf, next })
        } else {
            self.push(Instruction::Characters { leaf, count, next })
        }
    }

    /// Emits a choice of two alternatives. If `greedy`, the first is preferred, otherwise the second.
    fn prefer(&mut self, greedy: bool, first: usize, second: usize) -> Result<usize, CompileFault>
        ensures emits { IfOk result (EmitsOne self.old self.new (λ leaves. preferred greedy first second)) }
        ensures appends { first < length (all_of self.old.instructions) → second < length (all_of self.old.instructions) →
            IfOk result (λ _. Appends self.old.instructions self.new.instructions) }
        ensures spends { (counts : Counts) → IfOk result (λ _. Spends self.old self.new counts (λ counted. 1)) }
        ensures leaf { self.new.next_leaf ≡ self.old.next_leaf }
        ensures too_long { (counts : Counts) → IfErr result (λ fault. fault ≡ TooLong → Exceeds self.old counts (λ counted. 1)) }
    {
        if greedy {
            self.push(Instruction::Split { first, second })
        } else {
            self.push(Instruction::Split {
                first: second,
                second: first,
            })
        }
    }
}
