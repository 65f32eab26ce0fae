//! Compiles loops.
ghost use Rattle.std.specs.Prelude.{◌≡◌, ◌≤◌, ◌<◌, ◌+◌, ◌*◌, ◌||◌, IfOk, IfErr, None, length, nat_lt, true};
ghost use Rattle.regress_prefilter.specs.OneCharacter.{takes_one};
ghost use Rattle.regress_tree.specs.Tree.{loop_one, tree, wrapped};
ghost use Rattle.regress_program.specs.CodeOf.{iterating, iteration_of, looping, loop_of, iteration_size, Emits, EmitsCopies, Exceeds, Spends};
ghost use Rattle.regress_program.specs.Compiled.{exactly, matching, optional, any_number};
ghost use Rattle.regress_program.specs.Contents.{content, in_loop};
ghost use Rattle.regress_program.specs.LeavesOf.{leaves_of, leaves_of_loop};
ghost use Rattle.regress_program.specs.Linear.{is_never};
ghost use Rattle.regress_program.specs.Listed.{all_of};
ghost use Rattle.regress_program.specs.Size.{is_copied, sized, size_of_characters, size_of_optional, size_of_extra, size_of_loop};
ghost use Rattle.regress_program.specs.declared.fault.CompileFault.TheVariants.{TooLong};

use crate::compiler::Compiler;
use crate::counts::{Counts, STORED};
use crate::fault::CompileFault;
use crate::instruction::Instruction;
use regress_leaves::leaves::takes_one;
use regress_tree::ir::{Node, Quantifier};

/// Returns whether a loop has no iterations.
pub(crate) fn is_never(quantifier: Quantifier) -> bool
    ensures { result ≡ is_never quantifier }
{
    quantifier.min == 0 && quantifier.max == Some(0)
}

/// The iterations of a loop: the half-open range of the ids of the groups inside, whether the loop is greedy, and the
/// index of the first leaf inside; and how loops are compiled.
#[derive(Clone, Copy)]
pub(crate) struct Iterations {
    pub(crate) start: usize,
    pub(crate) end: usize,
    pub(crate) greedy: bool,
    pub(crate) first_leaf: usize,
    pub(crate) counts: Counts,
}

impl Iterations {
    /// Returns whether an iteration always begins with an instruction of its own: to unset the groups inside, or to be the
    /// last one of what is copied.
    fn begins(self) -> bool
        ensures { result ≡ (nat_lt self.start self.end || is_copied self.counts) }
    {
        self.start < self.end || self.counts.is_copied()
    }
}

impl Compiler {
    /// Compiles a loop: the optional iterations, and before them the mandatory ones.
    #[cycle(compile)]
    pub(crate) fn repeat(
        &mut self,
        body: &Node,
        iterations: Iterations,
        quantifier: Quantifier,
        next: usize,
    ) -> Result<usize, CompileFault>
        requires below { next < length (all_of self.old.instructions) }
        requires greedy { iterations.greedy ≡ quantifier.greedy }
        requires first { iterations.first_leaf ≡ self.old.next_leaf }
        ensures emits { IfOk result (Emits self.old self.new iterations.first_leaf (leaves_of_loop quantifier (leaves_of (tree body.now)))
            (looping iterations quantifier (matching (tree body.now))) (in_loop quantifier (loop_of iterations (content (tree body.now)))) next) }
        ensures spends { IfOk result (λ _. Spends self.old self.new iterations.counts
            (λ counted. size_of_loop counted quantifier (iteration_size iterations (tree body.now) counted))) }
        ensures too_long { IfErr result (λ fault. fault ≡ TooLong → Exceeds self.old iterations.counts
            (λ counted. size_of_loop counted quantifier (iteration_size iterations (tree body.now) counted))) }
    {
        if is_never(quantifier) {
            return Ok(next);
        }
        let entry = match quantifier.max {
            None => self.any_number(body, iterations, next)?,
            Some(max) => self.at_most(body, iterations, max.saturating_sub(quantifier.min), next)?,
        };
        self.exactly_iterations(body, iterations, quantifier.min, entry)
    }

    /// Compiles exactly `count` iterations, the last one first.
    #[cycle(compile)]
    fn exactly_iterations(
        &mut self,
        body: &Node,
        iterations: Iterations,
        count: usize,
        next: usize,
    ) -> Result<usize, CompileFault>
        requires { next < length (all_of self.old.instructions) }
        ensures emits { IfOk result (EmitsCopies self.old self.new iterations.first_leaf (leaves_of (tree body.now)) count
            (exactly count (iterating iterations (matching (tree body.now)))) (loop_of iterations (content (tree body.now))) next) }
        ensures none { IfOk result (λ _. count ≡ 0 → self.new.next_leaf ≡ self.old.next_leaf) }
        ensures spends { IfOk result (λ _. Spends self.old self.new iterations.counts
            (λ counted. iteration_size iterations (tree body.now) counted * counted count)) }
        ensures too_long { IfErr result (λ fault. fault ≡ TooLong → Exceeds self.old iterations.counts
            (λ counted. iteration_size iterations (tree body.now) counted * counted count)) }
    {
        if iterations.counts.has_copies(count) {
            return self.exactly_copied(body, iterations, count, next);
        }
        let mut entry = next;
        for _i in 0..count {
            entry = self.iteration(body, iterations, entry)?;
        }
        Ok(entry)
    }

    /// Compiles exactly `count` iterations, more than two, of which two are stored.
    #[cycle(compile)]
    fn exactly_copied(
        &mut self,
        body: &Node,
        iterations: Iterations,
        count: usize,
        next: usize,
    ) -> Result<usize, CompileFault>
        requires below { next < length (all_of self.old.instructions) }
        requires more { 2 < count }
        requires copied { is_copied iterations.counts ≡ true }
        ensures emits { IfOk result (EmitsCopies self.old self.new iterations.first_leaf (leaves_of (tree body.now)) count
            (exactly count (iterating iterations (matching (tree body.now)))) (loop_of iterations (content (tree body.now))) next) }
        ensures spends { IfOk result (λ _. Spends self.old self.new iterations.counts
            (λ counted. iteration_size iterations (tree body.now) counted * counted count)) }
        ensures too_long { IfErr result (λ fault. fault ≡ TooLong → Exceeds self.old iterations.counts
            (λ counted. iteration_size iterations (tree body.now) counted * counted count)) }
    {
        let last = self.iteration(body, iterations, next)?;
        let start = self.instructions.len();
        let entry = self.iteration(body, iterations, last)?;
        let added = self.copy(last, start, count - STORED)?;
        Ok(entry + added)
    }

    /// Compiles a loop over a body that matches one character.
    #[cycle(compile)]
    pub(crate) fn repeat_one(
        &mut self,
        body: &Node,
        quantifier: Quantifier,
        counts: Counts,
        next: usize,
    ) -> Result<usize, CompileFault>
        requires { next < length (all_of self.old.instructions) }
        ensures emits { IfOk result (Emits self.old self.new self.old.next_leaf (leaves_of (wrapped (loop_one quantifier) (tree body.now)))
            (matching (wrapped (loop_one quantifier) (tree body.now))) (content (wrapped (loop_one quantifier) (tree body.now))) next) }
        ensures spends { IfOk result (λ _. Spends self.old self.new counts (λ counted. sized counts counted (wrapped (loop_one quantifier) (tree body.now)))) }
        ensures too_long { IfErr result (λ fault. fault ≡ TooLong → Exceeds self.old counts
            (λ counted. sized counts counted (wrapped (loop_one quantifier) (tree body.now)))) }
    {
        let iterations = Iterations {
            start: 0,
            end: 0,
            greedy: quantifier.greedy,
            first_leaf: self.next_leaf,
            counts,
        };
        if takes_one(body) {
            let entry = self.repeat_character(body, iterations, quantifier, next)?;
            self.next_leaf = iterations.first_leaf.saturating_add(1);
            Ok(entry)
        } else {
            self.repeat(body, iterations, quantifier, next)
        }
    }

    /// Compiles a loop over a leaf that matches one character.
    #[cycle(compile)]
    fn repeat_character(
        &mut self,
        body: &Node,
        iterations: Iterations,
        quantifier: Quantifier,
        next: usize,
    ) -> Result<usize, CompileFault>
        requires below { next < length (all_of self.old.instructions) }
        requires one { takes_one (tree body.now) ≡ true }
        requires without_groups { iterations ≡ record iterations { start = 0; end = 0; greedy = quantifier.greedy; first_leaf = self.old.next_leaf } }
        ensures emits { IfOk result (EmitsCopies self.old self.new iterations.first_leaf (leaves_of (tree body.now)) 0
            (matching (wrapped (loop_one quantifier) (tree body.now))) (content (wrapped (loop_one quantifier) (tree body.now))) next) }
        ensures spends { IfOk result (λ _. Spends self.old self.new iterations.counts (λ counted. size_of_characters iterations.counts quantifier)) }
        ensures too_long { IfErr result (λ fault. fault ≡ TooLong → Exceeds self.old iterations.counts
            (λ counted. size_of_characters iterations.counts quantifier)) }
    {
        let entry = match quantifier.max {
            None => {
                // of the one instruction no copies are made
                let single = Iterations {
                    counts: Counts::Unbounded,
                    ..iterations
                };
                self.any_number(body, single, next)?
            }
            Some(max) => self.up_to(
                iterations.first_leaf,
                quantifier.greedy,
                iterations.counts,
                max.saturating_sub(quantifier.min),
                next,
            )?,
        };
        self.exactly(
            iterations.first_leaf,
            iterations.counts,
            quantifier.min,
            entry,
        )
    }

    /// Compiles any number of optional iterations. The body is compiled once, and goes on at an instruction before it.
    #[cycle(compile)]
    fn any_number(
        &mut self,
        body: &Node,
        iterations: Iterations,
        next: usize,
    ) -> Result<usize, CompileFault>
        requires { next < length (all_of self.old.instructions) }
        ensures emits { IfOk result (Emits self.old self.new iterations.first_leaf (leaves_of (tree body.now))
            (any_number iterations.greedy (iterating iterations (matching (tree body.now)))) (loop_of iterations (content (tree body.now))) next) }
        ensures spends { IfOk result (λ _. Spends self.old self.new iterations.counts
            (λ counted. size_of_extra (iteration_size iterations (tree body.now) counted) None)) }
        ensures too_long { IfErr result (λ fault. fault ≡ TooLong → Exceeds self.old iterations.counts
            (λ counted. size_of_extra (iteration_size iterations (tree body.now) counted) None)) }
    {
        let greedy = iterations.greedy;
        // it is replaced when the start of the body is known
        let again = self.push(Instruction::Accept)?;
        let start = self.iteration(body, iterations, again)?;
        let repeat = Instruction::Repeat {
            greedy,
            body: start,
            next,
        };
        self.instructions.set(again, repeat);
        self.push(Instruction::BeginLoop {
            greedy,
            body: start,
            next,
        })
    }

    /// Compiles at most `count` optional iterations, the last one first.
    #[cycle(compile)]
    fn at_most(
        &mut self,
        body: &Node,
        iterations: Iterations,
        count: usize,
        next: usize,
    ) -> Result<usize, CompileFault>
        requires { next < length (all_of self.old.instructions) }
        ensures emits { IfOk result (EmitsCopies self.old self.new iterations.first_leaf (leaves_of (tree body.now)) count
            (optional iterations.greedy count (iterating iterations (matching (tree body.now)))) (loop_of iterations (content (tree body.now))) next) }
        ensures spends { IfOk result (λ _. Spends self.old self.new iterations.counts
            (λ counted. size_of_optional (iteration_size iterations (tree body.now) counted) (counted count))) }
        ensures too_long { IfErr result (λ fault. fault ≡ TooLong → Exceeds self.old iterations.counts
            (λ counted. size_of_optional (iteration_size iterations (tree body.now) counted) (counted count))) }
    {
        if count == 0 {
            return Ok(next);
        }
        if iterations.counts.has_copies(count) {
            return self.at_most_copied(body, iterations, count, next);
        }
        let greedy = iterations.greedy;
        let end = self.push(Instruction::EndLoop { next })?;
        let mut start = self.iteration(body, iterations, end)?;
        for _i in 1..count {
            let again = self.push(Instruction::Repeat {
                greedy,
                body: start,
                next,
            })?;
            start = self.iteration(body, iterations, again)?;
        }
        self.push(Instruction::BeginLoop {
            greedy,
            body: start,
            next,
        })
    }

    /// Compiles at most `count` optional iterations, more than two, of which two are stored.
    #[cycle(compile)]
    fn at_most_copied(
        &mut self,
        body: &Node,
        iterations: Iterations,
        count: usize,
        next: usize,
    ) -> Result<usize, CompileFault>
        requires below { next < length (all_of self.old.instructions) }
        requires more { 2 < count }
        requires copied { is_copied iterations.counts ≡ true }
        ensures emits { IfOk result (EmitsCopies self.old self.new iterations.first_leaf (leaves_of (tree body.now)) count
            (optional iterations.greedy count (iterating iterations (matching (tree body.now)))) (loop_of iterations (content (tree body.now))) next) }
        ensures spends { IfOk result (λ _. Spends self.old self.new iterations.counts
            (λ counted. size_of_optional (iteration_size iterations (tree body.now) counted) (counted count))) }
        ensures too_long { IfErr result (λ fault. fault ≡ TooLong → Exceeds self.old iterations.counts
            (λ counted. size_of_optional (iteration_size iterations (tree body.now) counted) (counted count))) }
    {
        let greedy = iterations.greedy;
        let end = self.push(Instruction::EndLoop { next })?;
        let last = self.iteration(body, iterations, end)?;
        let again = self.push(Instruction::Repeat {
            greedy,
            body: last,
            next,
        })?;
        let start = self.iteration(body, iterations, again)?;
        let added = self.copy(last, again, count - STORED)?;
        self.push(Instruction::BeginLoop {
            greedy,
            body: start + added,
            next,
        })
    }

    /// Compiles an iteration, with at least one instruction, so that the limit bounds the number of iterations. If they are
    /// copied, it starts at the last one.
    #[cycle(compile)]
    fn iteration(
        &mut self,
        body: &Node,
        iterations: Iterations,
        next: usize,
    ) -> Result<usize, CompileFault>
        requires { next < length (all_of self.old.instructions) }
        ensures emits { IfOk result (Emits self.old self.new iterations.first_leaf (leaves_of (tree body.now))
            (iterating iterations (matching (tree body.now))) (iteration_of iterations (content (tree body.now))) next) }
        ensures last { IfOk result (λ entry. is_copied iterations.counts ≡ true → entry + 1 ≡ length (all_of self.new.instructions)) }
        ensures more { IfOk result (λ entry. is_copied iterations.counts ≡ true → length (all_of self.old.instructions) ≤ entry) }
        ensures spends { IfOk result (λ _. Spends self.old self.new iterations.counts (iteration_size iterations (tree body.now))) }
        ensures too_long { IfErr result (λ fault. fault ≡ TooLong → Exceeds self.old iterations.counts (iteration_size iterations (tree body.now))) }
    {
        let before = self.left;
        self.next_leaf = iterations.first_leaf;
        let contents = self.node(body, iterations.counts, next)?;
        if !iterations.begins() && self.left < before {
            return Ok(contents);
        }
        self.push(Instruction::Unset {
            start: iterations.start,
            end: iterations.end,
            next: contents,
        })
    }
}
