//! Compiles lookarounds, and nodes as routines of their own.
ghost use Rattle.std.specs.Prelude.{◌≡◌, ◌<◌, ◌+◌, IfOk, IfErr, length};
ghost use Rattle.regress_tree.specs.Reading.{direction_if};
ghost use Rattle.regress_tree.specs.Tree.{tree};
ghost use Rattle.regress_program.specs.CodeOf.{Emits, EmitsRoutine, Exceeds, Spends};
ghost use Rattle.regress_program.specs.Compiled.{matching, looking};
ghost use Rattle.regress_program.specs.Contents.{content, in_lookaround};
ghost use Rattle.regress_program.specs.LeavesOf.{leaves_of};
ghost use Rattle.regress_program.specs.Listed.{all_of};
ghost use Rattle.regress_program.specs.Size.{sized};
ghost use Rattle.regress_program.specs.declared.fault.CompileFault.TheVariants.{TooLong};

use crate::compiler::Compiler;
use crate::copies::Instructions;
use crate::counts::Counts;
use crate::fault::CompileFault;
use crate::instruction::{Instruction, Routine};
use regress_tree::ir::Node;
use std::mem;

impl Compiler {
    /// Compiles a lookaround, whose body is a routine of its own.
    #[cycle(compile)]
    pub(crate) fn look(
        &mut self,
        contents: &Node,
        negate: bool,
        backwards: bool,
        counts: Counts,
        next: usize,
    ) -> Result<usize, CompileFault>
        requires { next < length (all_of self.old.instructions) }
        ensures emits { IfOk result (Emits self.old self.new self.old.next_leaf (leaves_of (tree contents.now))
            (looking negate (direction_if backwards) (matching (tree contents.now))) (in_lookaround negate (content (tree contents.now))) next) }
        ensures spends { IfOk result (λ _. Spends self.old self.new counts (λ counted. sized counts counted (tree contents.now) + 2)) }
        ensures too_long { IfErr result (λ fault. fault ≡ TooLong → Exceeds self.old counts (λ counted. sized counts counted (tree contents.now) + 2)) }
    {
        let routine = self.routine(contents, backwards, counts)?;
        self.push(Instruction::Look {
            negate,
            routine,
            next,
        })
    }

    /// Compiles a node as a routine, and returns its index.
    #[cycle(compile)]
    pub(crate) fn routine(
        &mut self,
        node: &Node,
        backwards: bool,
        counts: Counts,
    ) -> Result<usize, CompileFault>
        ensures emits { IfOk result (EmitsRoutine self.old self.new (leaves_of (tree node.now)) (matching (tree node.now)) (content (tree node.now))
            (direction_if backwards)) }
        ensures spends { IfOk result (λ _. Spends self.old self.new counts (λ counted. sized counts counted (tree node.now) + 1)) }
        ensures too_long { IfErr result (λ fault. fault ≡ TooLong → Exceeds self.old counts (λ counted. sized counts counted (tree node.now) + 1)) }
    {
        let outer = mem::replace(&mut self.instructions, Instructions::new(self.alloc));
        self.push(Instruction::Accept)?;
        let entry = self.node(node, counts, 0)?;
        let instructions = mem::replace(&mut self.instructions, outer);
        self.routines.push(Routine {
            instructions,
            entry,
            backwards,
        })?;
        Ok(self.routines.len() - 1)
    }
}
