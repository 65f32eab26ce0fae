//! What is known of what follows the instructions of a routine.
ghost use Rattle.std.specs.Prelude.{◌≡◌, ℕ, IfOk, List};
ghost use Rattle.regress_program.specs.Listed.{listed};
ghost use Rattle.regress_program.specs.Program.{Out};
ghost use Rattle.regress_program.specs.Search.{routines_of};
ghost use Rattle.regress_program.specs.Views.{ops_in};
ghost use Rattle.regress_tree.specs.Reading.{Direction, direction_if};
ghost use Rattle.regress_code.specs.NextBytes.{AreNextBytes, AreNextBytesAt, AreNextBytesOf, HaveNextBytes};
ghost use Rattle.regress_code.specs.Possessive.{ArePossessive, HavePossessive};
ghost use Rattle.regress_code.specs.Rows.{AreRows, HaveRows};
ghost use Rattle.regress_code.specs.Skips.{AreSkips, HaveSkips};

use crate::next_bytes::{Body, NextBytes, next_bytes_at, next_bytes_of};
use crate::possessive::possessive_of;
use crate::rows::{Row, rows_of};
use crate::skips::{Skip, skips_of};
use regress_leaves::test::Test;
use regress_program::Program;
use regress_program::instruction::Routine;
use std::alloc::{AllocError, Global};

/// What is known of what follows the instructions of a routine.
#[derive(Drop)]
pub struct Analysis {
    /// The next bytes of the first instructions.
    pub next_bytes: Vec<NextBytes>,
    /// The skips of the first instructions.
    pub skips: Vec<Skip>,
    /// The rows of choices between strings.
    pub rows: Vec<Row>,
    /// For each of the first instructions whether it ends an iteration of a possessive loop, as
    /// [`possessive_of`] returns it.
    pub possessive: Vec<bool>,
}

/// Returns the analysis of each routine of a program.
///
/// # Errors
/// Returns [`AllocError`] if an allocation fails.
pub(crate) fn analyze(
    alloc: Global,
    program: &Program,
    folds: bool,
) -> Result<Vec<Analysis>, AllocError>
    ensures next_bytes { IfOk result (λ analyses. HaveNextBytes folds (routines_of program.now) analyses.items) }
    ensures skips { IfOk result (λ analyses. HaveSkips program.now.routines.items analyses.items) }
    ensures rows { IfOk result (λ analyses. HaveRows folds program.now.leaves.items program.now.routines.items analyses.items) }
    ensures possessive { IfOk result (λ analyses. HavePossessive program.now.leaves.items program.now.routines.items analyses.items) }
{
    let mut analyses = Vec::with_capacity(alloc, program.routines.len())?;
    let mut bodies = Vec::with_capacity(alloc, program.routines.len())?;
    for routine in &program.routines {
        let analysis = analyze_routine(alloc, &program.leaves, &bodies, routine, folds)?;
        bodies.push(body_of(routine, &analysis))?;
        analyses.push(analysis)?;
    }
    Ok(analyses)
}

/// Returns what is known of a routine as the body of a lookaround.
fn body_of(routine: &Routine, analysis: &Analysis) -> Body
    ensures direction { result.backwards ≡ routine.now.backwards }
    ensures next_byte { (d : Direction) (text : List ℕ) (out : Out) → AreNextBytes analysis.now.next_bytes.items d text out →
        AreNextBytesAt result.next_byte d text out routine.now.entry }
{
    Body {
        backwards: routine.backwards,
        next_byte: next_bytes_at(&analysis.next_bytes, routine.entry),
    }
}

/// Returns the analysis of a routine, by what is known of the bodies of its lookarounds.
///
/// # Errors
/// Returns [`AllocError`] if an allocation fails.
fn analyze_routine(
    alloc: Global,
    leaves: &[Test],
    bodies: &[Body],
    routine: &Routine,
    folds: bool,
) -> Result<Analysis, AllocError>
    ensures next_bytes { IfOk result (λ a. AreNextBytesOf folds bodies.now a.next_bytes.items (direction_if routine.now.backwards) (ops_in leaves.now (listed routine.now))) }
    ensures skips { IfOk result (λ a. AreSkips a.skips.items a.next_bytes.items (listed routine.now)) }
    ensures rows { IfOk result (λ a. AreRows folds a.rows.items leaves.now (listed routine.now) routine.now.backwards) }
    ensures possessive { IfOk result (λ a. ArePossessive a.possessive.items a.next_bytes.items leaves.now (listed routine.now)) }
{
    let instructions = routine.leading();
    let next_bytes = next_bytes_of(
        alloc,
        leaves,
        bodies,
        instructions,
        routine.backwards,
        folds,
    )?;
    let rows = rows_of(alloc, leaves, instructions, routine.backwards, folds)?;
    let skips = skips_of(alloc, &next_bytes, &rows, instructions)?;
    let possessive = possessive_of(alloc, &next_bytes, leaves, instructions)?;
    Ok(Analysis {
        next_bytes,
        skips,
        rows,
        possessive,
    })
}
