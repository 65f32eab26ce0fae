//! Compiles patterns into programs.
ghost use Rattle.std.specs.Prelude.{◌≡◌, ◌≤◌, ◌<◌, ◌+◌, ◌⊎◌, Err, IfOk, IfErr, length, min, not, false, true};
ghost use Rattle.regress_tree.specs.Tree.{tree, trees, cat};
ghost use Rattle.regress_tree.specs.WellFormed.{IsWellFormed, captures};
ghost use Rattle.regress_program.specs.CodeOf.{Emits, Exceeds, Spends};
ghost use Rattle.regress_program.specs.Compiled.{matching, IsPattern, total};
ghost use Rattle.regress_program.specs.Contents.{content, content_of_parts};
ghost use Rattle.regress_program.specs.LeavesOf.{leaves_of, leaves_of_parts};
ghost use Rattle.regress_program.specs.Linear.{has_back_reference, is_linear, is_linear_tree};
ghost use Rattle.regress_program.specs.Search.{counts_of, flags_of, groups_of, instructions_of, is_known_tidy, routines_of, stored_instructions_of};
ghost use Rattle.regress_program.specs.Listed.{all_of, stored_total};
ghost use Rattle.regress_program.specs.Shape.{IsForwards, IsProgram};
ghost use Rattle.regress_program.specs.Size.{IsSize, IsTooLong, counts_within, is_copied, room_within, size, sized, sized_parts, stored_size};
ghost use Rattle.regress_program.specs.Tidy.{IsTidy, has_no_back_reference};
ghost use Rattle.regress_program.specs.Views.{program_in};
ghost use Rattle.regress_program.specs.declared.fault.CompileFault.TheVariants.{TooLong};

use crate::collect::leaves_of;
use crate::compiler::Compiler;
use crate::copies::Instructions;
use crate::counts::Counts;
use crate::fault::CompileFault;
use crate::instruction::{Instruction, Routine};
use crate::loops::Iterations;
use crate::program::Program;
use regress_leaves::test::Test;
use regress_tree::ir::{Node, Regex};
use std::alloc::Global;

/// Returns the leaves and the routines of a program of at most `limit` stored instructions, with such counts. The last
/// routine matches the pattern forwards, and the others are the bodies of its lookarounds.
fn compile(
    alloc: Global,
    node: &Node,
    counts: Counts,
    limit: usize,
) -> Result<(Vec<Test>, Vec<Routine>), CompileFault>
    ensures program { IfOk result (λ parts. IsProgram (program_in parts.0.items parts.1.items)) }
    ensures means { IfOk result (λ parts. IsPattern (program_in parts.0.items parts.1.items) (tree node.now)) }
    ensures forwards { IfOk result (λ parts. IsForwards (program_in parts.0.items parts.1.items)) }
    ensures plain { IfOk result (λ parts. has_no_back_reference (program_in parts.0.items parts.1.items) ≡ not (has_back_reference (tree node.now))) }
    ensures linear { IfOk result (λ parts. is_linear (program_in parts.0.items parts.1.items) ≡ is_linear_tree (tree node.now)) }
    ensures tidy { IfOk result (λ parts. IsWellFormed (tree node.now) → IsTidy (program_in parts.0.items parts.1.items)) }
    ensures most { IfOk result (λ parts. total (program_in parts.0.items parts.1.items) ≤ size counts (tree node.now) + 1) }
    ensures exact { IfOk result (λ parts. is_copied counts ≡ false → total (program_in parts.0.items parts.1.items) ≡ size counts (tree node.now) + 1) }
    ensures room { IfOk result (λ parts. total (program_in parts.0.items parts.1.items) ≤ room_within counts limit) }
    ensures within { IfOk result (λ parts. stored_total parts.1.items ≤ limit) }
    ensures too_long { IfErr result (λ fault. fault ≡ TooLong →
        (limit < stored_size counts (tree node.now) + 1) ⊎ (room_within counts limit < size counts (tree node.now) + 1)) }
{
    let leaves = leaves_of(alloc, node)?;
    let mut compiler = Compiler {
        alloc,
        routines: Vec::new(alloc),
        instructions: Instructions::new(alloc),
        next_leaf: 0,
        left: counts.room(limit),
        stored_left: limit,
    };
    compiler.routine(node, false, counts)?;
    Ok((leaves, compiler.routines))
}

impl Program {
    /// Compiles a pattern into a program of which at most `limit` instructions are stored.
    ///
    /// An instruction matches at most 64 characters. Only if that takes more than `limit` instructions, one matches any
    /// number: then a loop over one character has one for its minimum, and at most four for each bit of what its maximum
    /// allows beyond. Only if that also takes more, the iterations of loops are copied: of those up to the minimum two are
    /// stored at most, and of those from there to the maximum two.
    ///
    /// # Errors
    /// Returns [`CompileFault::TooLong`] only if also then more than `limit` instructions are stored, or there are more than
    /// `usize::MAX` with all copies, and [`CompileFault::Memory`] if an allocation fails.
    ///
    /// # Complexity
    /// Linear in the size of the tree, where a body counts as many times as it is stored: unless iterations are copied, for
    /// each one up to the minimum, and up to a maximum. Each time it emits an instruction, so there are at most `limit`
    /// bodies, and copies share their leaves. A body of one character is not copied. The recursion is as deep as nodes are
    /// nested, where right sides of alternatives do not count.
    pub fn compile(alloc: Global, regex: &Regex, limit: usize) -> Result<Program, CompileFault>
        ensures pattern { IfOk result (λ p. IsPattern (routines_of p) (tree regex.now.node)) }
        ensures flags { IfOk result (λ p. flags_of p ≡ regex.now.flags) }
        ensures groups { IfOk result (λ p. groups_of p ≡ min (length (captures (tree regex.now.node))) usize.MAX) }
        ensures plain { IfOk result (λ p. has_no_back_reference (routines_of p) ≡ not (has_back_reference (tree regex.now.node))) }
        ensures linear { IfOk result (λ p. is_linear (routines_of p) ≡ is_linear_tree (tree regex.now.node)) }
        ensures tidy { IfOk result (λ p. IsWellFormed (tree regex.now.node) → IsTidy (routines_of p)) }
        ensures known { IfOk result (λ p. IsWellFormed (tree regex.now.node) → is_known_tidy p ≡ true) }
        ensures counts { IfOk result (λ p. counts_of p ≡ counts_within limit (tree regex.now.node)) }
        ensures size { IfOk result (λ p. IsSize limit (tree regex.now.node) (instructions_of p)) }
        ensures most { IfOk result (λ p. instructions_of p ≤ usize.MAX) }
        ensures within { IfOk result (λ p. stored_instructions_of p ≤ limit) }
        ensures too_long { result ≡ Err TooLong → IsTooLong limit (tree regex.now.node) }
    {
        match Program::with_counts(alloc, regex, Counts::Bounded, limit) {
            Err(CompileFault::TooLong) => {}
            result => return result,
        }
        match Program::with_counts(alloc, regex, Counts::Unbounded, limit) {
            Err(CompileFault::TooLong) => {}
            result => return result,
        }
        Program::with_counts(alloc, regex, Counts::Copied, limit)
    }

    /// Compiles a pattern into a program of which at most `limit` instructions are stored, with such counts.
    ///
    /// # Errors
    /// Those of [`Program::compile`], for these counts.
    fn with_counts(
        alloc: Global,
        regex: &Regex,
        counts: Counts,
        limit: usize,
    ) -> Result<Program, CompileFault>
        ensures pattern { IfOk result (λ p. IsPattern (routines_of p) (tree regex.now.node)) }
        ensures flags { IfOk result (λ p. flags_of p ≡ regex.now.flags) }
        ensures groups { IfOk result (λ p. groups_of p ≡ min (length (captures (tree regex.now.node))) usize.MAX) }
        ensures plain { IfOk result (λ p. has_no_back_reference (routines_of p) ≡ not (has_back_reference (tree regex.now.node))) }
        ensures linear { IfOk result (λ p. is_linear (routines_of p) ≡ is_linear_tree (tree regex.now.node)) }
        ensures tidy { IfOk result (λ p. IsWellFormed (tree regex.now.node) → IsTidy (routines_of p)) }
        ensures known { IfOk result (λ p. IsWellFormed (tree regex.now.node) → is_known_tidy p ≡ true) }
        ensures counts { IfOk result (λ p. counts_of p ≡ counts) }
        ensures most { IfOk result (λ p. instructions_of p ≤ size counts (tree regex.now.node) + 1) }
        ensures exact { IfOk result (λ p. is_copied counts ≡ false → instructions_of p ≡ size counts (tree regex.now.node) + 1) }
        ensures room { IfOk result (λ p. instructions_of p ≤ room_within counts limit) }
        ensures within { IfOk result (λ p. stored_instructions_of p ≤ limit) }
        ensures too_long { result ≡ Err TooLong →
            (limit < stored_size counts (tree regex.now.node) + 1) ⊎ (room_within counts limit < size counts (tree regex.now.node) + 1) }
    {
        let (leaves, routines) = compile(alloc, &regex.node, counts, limit)?;
        let program = Program::new(alloc, leaves, routines, regex, counts)?;
        Ok(program)
    }
}

impl Compiler {
    /// Compiles a node that is matched before the instruction `next`. Returns the instruction at which it starts.
    ///
    /// A loop follows the right sides of alternatives, since an alternation nests as deep as it has alternatives.
    #[cycle(compile)]
    pub(crate) fn node(
        &mut self,
        node: &Node,
        counts: Counts,
        next: usize,
    ) -> Result<usize, CompileFault>
        requires { next < length (all_of self.old.instructions) }
        ensures emits { IfOk result (Emits self.old self.new self.old.next_leaf (leaves_of (tree node.now)) (matching (tree node.now))
            (content (tree node.now)) next) }
        ensures spends { IfOk result (λ _. Spends self.old self.new counts (λ counted. sized counts counted (tree node.now))) }
        ensures too_long { IfErr result (λ fault. fault ≡ TooLong → Exceeds self.old counts (λ counted. sized counts counted (tree node.now))) }
    {
        let mut entries = Vec::new(self.alloc);
        let mut rest = node;
        while let Node::Alt(left, right) = rest {
            entries.push(self.node(left, counts, next)?)?;
            rest = right;
        }
        let mut entry = self.other(rest, counts, next)?;
        while let Some(first) = entries.pop() {
            entry = self.push(Instruction::Split {
                first,
                second: entry,
            })?;
        }
        Ok(entry)
    }

    /// Compiles a node by its kind. No `Alt` reaches it from `node`, which compiles alternatives in a loop.
    #[cycle(compile)]
    fn other(&mut self, node: &Node, counts: Counts, next: usize) -> Result<usize, CompileFault>
        requires { next < length (all_of self.old.instructions) }
        ensures emits { IfOk result (Emits self.old self.new self.old.next_leaf (leaves_of (tree node.now)) (matching (tree node.now))
            (content (tree node.now)) next) }
        ensures spends { IfOk result (λ _. Spends self.old self.new counts (λ counted. sized counts counted (tree node.now))) }
        ensures too_long { IfErr result (λ fault. fault ≡ TooLong → Exceeds self.old counts (λ counted. sized counts counted (tree node.now))) }
    {
        match node {
            Node::Empty => Ok(next),
            Node::Goal => Ok(next),
            Node::Cat(parts) => self.sequence(parts, counts, next),
            Node::CaptureGroup { id, contents, .. } => {
                let end = self.push(Instruction::EndGroup { id: *id, next })?;
                let contents = self.node(contents, counts, end)?;
                self.push(Instruction::BeginGroup { next: contents })
            }
            Node::Loop {
                loopee,
                quant,
                enclosed_groups,
            } => {
                let iterations = Iterations {
                    start: usize::from(enclosed_groups.start),
                    end: usize::from(enclosed_groups.end),
                    greedy: quant.greedy,
                    first_leaf: self.next_leaf,
                    counts,
                };
                self.repeat(loopee, iterations, *quant, next)
            }
            Node::Loop1CharBody { loopee, quant } => self.repeat_one(loopee, *quant, counts, next),
            Node::LookaroundAssertion {
                negate,
                backwards,
                contents,
                ..
            } => self.look(contents, *negate, *backwards, counts, next),
            Node::StringSet { alternatives, .. } => self.strings(alternatives, next),
            Node::Alt(left, right) => {
                let first = self.node(left, counts, next)?;
                let second = self.node(right, counts, next)?;
                self.push(Instruction::Split { first, second })
            }
            _ => self.push_leaf(next),
        }
    }

    /// Compiles the parts of a sequence, the last one first.
    #[cycle(compile)]
    fn sequence(
        &mut self,
        parts: &[Node],
        counts: Counts,
        next: usize,
    ) -> Result<usize, CompileFault>
        requires { next < length (all_of self.old.instructions) }
        ensures emits { IfOk result (Emits self.old self.new self.old.next_leaf (leaves_of_parts (trees parts.now)) (matching (cat (trees parts.now)))
            (content_of_parts (trees parts.now)) next) }
        ensures spends { IfOk result (λ _. Spends self.old self.new counts (λ counted. sized_parts counts counted (trees parts.now))) }
        ensures too_long { IfErr result (λ fault. fault ≡ TooLong → Exceeds self.old counts (λ counted. sized_parts counts counted (trees parts.now))) }
    {
        let mut entry = next;
        let mut i = parts.len();
        while i > 0 {
            i -= 1;
            entry = self.node(&parts[i], counts, entry)?;
        }
        Ok(entry)
    }
}
