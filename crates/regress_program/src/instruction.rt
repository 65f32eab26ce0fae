//! Instructions and routines.
ghost use Rattle.std.specs.Prelude.{◌≡◌, ◌<◌, ◌≤◌, ◌+◌, Some, length, slice_get};
ghost use Rattle.regress_program.specs.Copies.{shift};
ghost use Rattle.regress_program.specs.Listed.{Begins, listed};

use crate::copies::Instructions;

/// An instruction of a routine. It names its leaf by the index in the list of the program, and the instructions after it
/// by their indices in the routine.
#[derive(Clone, Copy)]
pub enum Instruction {
    /// A match of the routine ends here.
    Accept,
    /// Matches nothing.
    Fail,
    /// Matches a leaf with at most one outcome.
    Leaf {
        /// The index of the leaf.
        leaf: usize,
        /// The instruction after it.
        next: usize,
    },
    /// Matches characters that each match a leaf, exactly this number of them.
    Characters {
        /// The index of the leaf, which matches one character.
        leaf: usize,
        /// The number of characters.
        count: usize,
        /// The instruction after it.
        next: usize,
    },
    /// Tries two alternatives in order.
    Split {
        /// The preferred alternative.
        first: usize,
        /// The other one.
        second: usize,
    },
    /// Begins optional iterations: tries one more, or what follows them.
    BeginLoop {
        /// Whether the iteration is preferred.
        greedy: bool,
        /// The start of an iteration.
        body: usize,
        /// What follows the loop.
        next: usize,
    },
    /// Ends an iteration, which fails unless it has advanced. Tries one more, or what follows.
    Repeat {
        /// Whether the iteration is preferred.
        greedy: bool,
        /// The start of an iteration.
        body: usize,
        /// What follows the loop.
        next: usize,
    },
    /// Ends the last iteration that the maximum allows, which fails unless it has advanced.
    EndLoop {
        /// What follows the loop.
        next: usize,
    },
    /// Begins an iteration: unsets the groups of a half-open range of ids.
    Unset {
        /// The first id.
        start: usize,
        /// The id after the last one.
        end: usize,
        /// The body of the loop.
        next: usize,
    },
    /// Begins a capture group.
    BeginGroup {
        /// The contents of the group.
        next: usize,
    },
    /// Ends the innermost capture group that has begun, and sets its capture.
    EndGroup {
        /// The id of the group.
        id: u16,
        /// What follows the group.
        next: usize,
    },
    /// Tests a lookaround, whose body is another routine of the program.
    Look {
        /// Whether it is negated.
        negate: bool,
        /// The index of the routine.
        routine: usize,
        /// What follows the lookaround.
        next: usize,
    },
}

impl Instruction {
    ghost use Rattle.regress_program.specs.Copies.{moved_in, names};
    ghost use Rattle.std.specs.Prelude.{All};

    /// Returns the same instruction, where those that it names from `from` on are `by` further on.
    ///
    /// # Preconditions
    /// Their indices do not exceed `usize::MAX`.
    pub(crate) fn moved(self, from: usize, by: usize) -> Instruction
        requires { All (λ k. k + by ≤ usize.MAX) (names self) }
        ensures { result ≡ moved_in from by self }
    {
        match self {
            Instruction::Accept => Instruction::Accept,
            Instruction::Fail => Instruction::Fail,
            Instruction::Leaf { leaf, next } => Instruction::Leaf {
                leaf,
                next: moved_index(from, by, next),
            },
            Instruction::Characters { leaf, count, next } => Instruction::Characters {
                leaf,
                count,
                next: moved_index(from, by, next),
            },
            Instruction::Split { first, second } => Instruction::Split {
                first: moved_index(from, by, first),
                second: moved_index(from, by, second),
            },
            Instruction::BeginLoop { greedy, body, next } => Instruction::BeginLoop {
                greedy,
                body: moved_index(from, by, body),
                next: moved_index(from, by, next),
            },
            Instruction::Repeat { greedy, body, next } => Instruction::Repeat {
                greedy,
                body: moved_index(from, by, body),
                next: moved_index(from, by, next),
            },
            Instruction::EndLoop { next } => Instruction::EndLoop {
                next: moved_index(from, by, next),
            },
            Instruction::Unset { start, end, next } => Instruction::Unset {
                start,
                end,
                next: moved_index(from, by, next),
            },
            Instruction::BeginGroup { next } => Instruction::BeginGroup {
                next: moved_index(from, by, next),
            },
            Instruction::EndGroup { id, next } => Instruction::EndGroup {
                id,
                next: moved_index(from, by, next),
            },
            Instruction::Look {
                negate,
                routine,
                next,
            } => Instruction::Look {
                negate,
                routine,
                next: moved_index(from, by, next),
            },
        }
    }
}

/// Returns an index, or from `from` on the index that is `by` further on.
fn moved_index(from: usize, by: usize, pc: usize) -> usize
    requires { pc + by ≤ usize.MAX }
    ensures { result ≡ shift from by pc }
{
    if pc < from { pc } else { pc + by }
}

/// Instructions that match in one direction: those of the pattern, or of the body of a lookaround.
#[derive(Drop)]
pub struct Routine {
    /// The instructions. Each but [`Instruction::Repeat`] names only instructions before it.
    pub(crate) instructions: Instructions,
    /// The index of the instruction at which a match starts.
    pub entry: usize,
    /// Whether it matches backwards, as in a lookbehind.
    pub backwards: bool,
}

impl Routine {
    /// Returns the number of instructions, copies included.
    #[inline(always)]
    #[tactic(auto, unfolding(crate::specs::Listed::listed))]
    pub fn len(&self) -> usize
        ensures { result ≡ length (listed self.now) }
    {
        self.instructions.len()
    }

    /// Returns the instruction with an index.
    ///
    /// # Preconditions
    /// There is one.
    ///
    /// # Complexity
    /// Constant for the first instructions, [`leading`](Routine::leading). For the others it is logarithmic in the number
    /// of loops, once for each loop around the instruction.
    #[inline(always)]
    #[tactic(auto, unfolding(crate::specs::Listed::listed))]
    pub fn at(&self, pc: usize) -> Instruction
        requires { pc < length (listed self.now) }
        ensures { slice_get (listed self.now) pc ≡ Some result }
    {
        self.instructions.at(pc)
    }

    /// Returns the first instructions: those that are stored one by one. The others are copies, or follow copies.
    #[tactic(auto, unfolding(crate::specs::Listed::listed))]
    pub fn leading(&self) -> &[Instruction]
        ensures { Begins result.now (listed self.now) }
    {
        self.instructions.leading()
    }
}
