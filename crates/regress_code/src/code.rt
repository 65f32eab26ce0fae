//! Programs that are analyzed.
ghost use Rattle.std.specs.Prelude.{◌≡◌, ◌≤◌, ◌<◌, Err, IfOk, length, min, not, true};
ghost use Rattle.regress_tree.specs.Tree.{tree};
ghost use Rattle.regress_tree.specs.WellFormed.{IsWellFormed, captures};
ghost use Rattle.regress_program.specs.Compiled.{IsPattern, total};
ghost use Rattle.regress_program.specs.Linear.{has_back_reference, is_linear, is_linear_tree, reason};
ghost use Rattle.regress_program.specs.Search.{counts_of, flags_of, groups_of, is_known_tidy, routines_of, stored_instructions_of};
ghost use Rattle.regress_program.specs.Size.{IsSize, IsTooLong, counts_within, is_bounded};
ghost use Rattle.regress_program.specs.Tidy.{has_no_back_reference, table_groups as groups_by_tables};
ghost use Rattle.regress_program.specs.declared.fault.CompileFault.TheVariants.{TooLong};
ghost use Rattle.regress_code.specs.Candidates.{BeginsAt, BeginsAt-prop};
ghost use Rattle.regress_code.specs.NextBytes.{HaveNextBytes, HaveNextBytes-prop};
ghost use Rattle.regress_code.specs.Possessive.{HavePossessive, HavePossessive-prop};
ghost use Rattle.regress_code.specs.Rows.{HaveRows, HaveRows-prop};
ghost use Rattle.regress_code.specs.Skips.{HaveSkips, HaveSkips-prop};

use crate::analysis::{Analysis, analyze};
use regress_prefilter::candidates::{Candidates, candidates_of};
use regress_program::{CompileFault, Nonlinear, Program};
use regress_tree::ir::Regex;
use std::alloc::{AllocError, Global};

/// A program, with what is known of it before it is run.
#[derive(Drop)]
pub struct Code {
    /// The program.
    pub program: Program,
    /// The analysis of each routine.
    pub analyses: Vec<Analysis>,
    /// Where matches can begin.
    pub candidates: Candidates,
    /// Whether the next bytes and the rows hold only where canonical forms of ASCII characters are those of ASCII, and
    /// characters without case have theirs alone.
    pub folds: bool,
    ghost begins: { BeginsAt candidates (routines_of program) } by { BeginsAt-prop candidates (routines_of program) },
    ghost bounded: { HaveNextBytes folds (routines_of program) analyses.items } by { HaveNextBytes-prop folds (routines_of program) analyses.items },
    ghost counted: { HaveSkips program.routines.items analyses.items } by { HaveSkips-prop program.routines.items analyses.items },
    ghost rowed: { HaveRows folds program.leaves.items program.routines.items analyses.items } by { HaveRows-prop folds program.leaves.items program.routines.items analyses.items },
    ghost excluded: { HavePossessive program.leaves.items program.routines.items analyses.items } by { HavePossessive-prop program.leaves.items program.routines.items analyses.items },
}

impl Code {
    ghost use Rattle.regress_code.specs.Code.{code_counts, code_flags, code_groups, code_routines, code_stored, code_tidy};

    /// Compiles a pattern into a program of which at most `limit` instructions are stored, and analyzes it.
    ///
    /// # Complexity
    /// That of [`Program::compile`], linear in the size of the tree and the number of instructions, and O(n log n)
    /// comparisons of two strings for n alternatives that begin with strings.
    ///
    /// # Errors
    /// Those of [`Program::compile`].
    pub fn compile(alloc: Global, regex: &Regex, limit: usize) -> Result<Code, CompileFault>
        ensures pattern { IfOk result (λ code. IsPattern (code_routines code) (tree regex.now.node)) }
        ensures flags { IfOk result (λ code. code_flags code ≡ regex.now.flags) }
        ensures groups { IfOk result (λ code. code_groups code ≡ min (length (captures (tree regex.now.node))) usize.MAX) }
        ensures linear { IfOk result (λ code. is_linear (code_routines code) ≡ is_linear_tree (tree regex.now.node)) }
        ensures plain { IfOk result (λ code. has_no_back_reference (code_routines code) ≡ not (has_back_reference (tree regex.now.node))) }
        ensures tidy { IfOk result (λ code. IsWellFormed (tree regex.now.node) → code_tidy code ≡ true) }
        ensures size { IfOk result (λ code. IsSize limit (tree regex.now.node) (total (code_routines code))) }
        ensures counts { IfOk result (λ code. code_counts code ≡ counts_within limit (tree regex.now.node)) }
        ensures most { IfOk result (λ code. total (code_routines code) ≤ usize.MAX) }
        ensures within { IfOk result (λ code. code_stored code ≤ limit) }
        ensures too_long { result ≡ Err TooLong → IsTooLong limit (tree regex.now.node) }
    {
        let program = Program::compile(alloc, regex, limit)?;
        let candidates = candidates_of(&regex.node);
        let code = Code::new(alloc, program, candidates)?;
        Ok(code)
    }

    /// Returns the program, analyzed.
    ///
    /// # Preconditions
    /// Every match of the program begins at a candidate.
    ///
    /// # Errors
    /// Returns [`AllocError`] if an allocation fails.
    fn new(alloc: Global, program: Program, candidates: Candidates) -> Result<Code, AllocError>
        requires { BeginsAt candidates (routines_of program) }
        ensures routines { IfOk result (λ code. code_routines code ≡ routines_of program) }
        ensures flags { IfOk result (λ code. code_flags code ≡ flags_of program) }
        ensures groups { IfOk result (λ code. code_groups code ≡ groups_of program) }
        ensures counts { IfOk result (λ code. code_counts code ≡ counts_of program) }
        ensures tidy { IfOk result (λ code. code_tidy code ≡ is_known_tidy program) }
        ensures stored { IfOk result (λ code. code_stored code ≡ stored_instructions_of program) }
    {
        let folds = program.flags.icase;
        let analyses = analyze(alloc, &program, folds)?;
        Ok(Code {
            program,
            analyses,
            candidates,
            folds,
        })
    }

    /// Returns the number of instructions, copies included, at most `usize::MAX`.
    pub fn instructions(&self) -> usize
        ensures { result ≡ min (total (code_routines self.now)) usize.MAX }
    {
        self.program.instructions()
    }

    /// Returns whether each instruction was compiled to match at most 64 characters, as [`Program::has_bounded_counts`].
    pub fn has_bounded_counts(&self) -> bool
        ensures { result ≡ is_bounded (code_counts self.now) }
    {
        self.program.has_bounded_counts()
    }

    /// Returns the number of capture groups of the pattern, at most `usize::MAX`.
    pub fn groups(&self) -> usize
        ensures { result ≡ code_groups self.now }
    {
        self.program.groups()
    }

    /// Returns why searches for all matches may take more than linear time, as [`Program::nonlinear`].
    pub fn nonlinear(&self) -> Option<Nonlinear>
        ensures { result ≡ reason (code_routines self.now) }
    {
        self.program.nonlinear()
    }

    /// Returns the number of groups that lookarounds may set, if the program is searched by tables, as
    /// [`Program::table_groups`].
    pub fn table_groups(&self) -> Option<usize>
        ensures { result ≡ groups_by_tables (code_tidy self.now) (code_routines self.now) }
    {
        self.program.table_groups()
    }
}
