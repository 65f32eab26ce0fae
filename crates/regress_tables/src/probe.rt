//! What the instructions that look at the text lead to.
ghost use Rattle.std.specs.Prelude.{◌≡◌, ℕ, ◌<◌, ◌≤◌, ◌+◌, ◌*◌, IfSome, length};
ghost use Rattle.regress_leaves.specs.Subject.{subject};
ghost use Rattle.regress_program.specs.Program.{Out, matcher_of};
ghost use Rattle.regress_program.specs.Views.{op_in};
ghost use Rattle.regress_code.specs.Code.{code_routines};
ghost use Rattle.regress_tables.specs.Probes.{CanProbe, IsProbe, digit, landing, stays_if};
ghost use Rattle.regress_tables.specs.Runs.{AreRuns};
ghost use Rattle.regress_tables.specs.Table.{AreRight, AreTables, IsRight};

use crate::characters::characters_end;
use crate::evaluate::{Input, leaf_end, looks};
use crate::runs::Runs;
use crate::table::Table;
use regress_program::instruction::Instruction;

/// What an instruction that looks at the text leads to from a position.
#[derive(Clone, Copy)]
pub enum Probe {
    /// It fails, or goes on at another position, from where there is no outcome.
    Fails,
    /// It goes on at the same position.
    Stays,
    /// It goes on at another position, from where there is an outcome.
    Jumps,
}

/// Returns what an instruction that looks at the text leads to.
pub(crate) fn probe_at(
    input: Input<'_, '_>,
    table: &Table,
    runs: &mut Runs,
    instruction: Instruction,
    position: usize,
) -> Probe
    requires tables { AreTables input.text.now (code_routines input.code.now) input.tables.now }
    requires can { CanProbe input table.now (op_in input.code.now.program.leaves.items instruction) position }
    requires runs { AreRuns (subject input.rules input.text.now) input.code.now.program.leaves.items runs.old }
    ensures runs { AreRuns (subject input.entry.rules input.entry.text.now) input.entry.code.now.program.leaves.items runs.new }
    ensures probe { (outs : ℕ → Out) → AreRight outs input.entry.tables.now → IsRight (outs (length input.entry.tables.now)) table.now →
        (let u = subject input.entry.rules input.entry.text.now in
        IsProbe u.setting u.bytes u.direction (matcher_of u.setting u.bytes (code_routines input.entry.code.now) outs) (outs (length input.entry.tables.now))
        (op_in input.entry.code.now.program.leaves.items instruction) position result) }
{
    match instruction {
        Instruction::Leaf { leaf, next } => {
            let Some(test) = input.test(leaf) else {
                return Probe::Fails;
            };
            let to = leaf_end(input.text, input.rules, &test.node, position);
            landing(table, next, position, to)
        }
        Instruction::Characters { leaf, count, next } => {
            let Some(test) = input.test(leaf) else {
                return Probe::Fails;
            };
            let run = runs.length_at(input, test, leaf, position);
            let to = characters_end(input.text, input.rules, test, count, run, position);
            landing(table, next, position, to)
        }
        Instruction::Look {
            negate,
            routine,
            ..
        } => stays_if(looks(input, routine, position) != negate),
        _ => Probe::Fails,
    }
}

/// Returns what a part leads to that ends at a position, if it matches.
fn landing(table: &Table, next: usize, position: usize, to: Option<usize>) -> Probe
    requires next { next < table.now.width }
    requires to { IfSome to (λ q. q ≤ table.now.length) }
    ensures { result ≡ landing table.now next position to }
{
    match to {
        None => Probe::Fails,
        Some(q) => {
            if q == position {
                Probe::Stays
            } else if table.cell(next, true, q) {
                Probe::Jumps
            } else {
                Probe::Fails
            }
        }
    }
}

/// Returns what an instruction leads to that goes on at the same position if a test holds.
fn stays_if(holds: bool) -> Probe
    ensures { result ≡ stays_if holds }
{
    if holds { Probe::Stays } else { Probe::Fails }
}

/// Returns the number of a probe, below 4.
fn digit(probe: Probe) -> u64
    ensures { result ≡ digit probe }
{
    match probe {
        Probe::Fails => 0,
        Probe::Stays => 1,
        Probe::Jumps => 2,
    }
}

/// Returns a code with one more digit, or `None` if it does not fit.
pub(crate) fn with_digit(code: u64, probe: Probe) -> Option<u64>
    ensures { IfSome result (λ next. next ≡ code * 4 + digit probe) }
{
    let shifted = code.checked_mul(4)?;
    shifted.checked_add(digit(probe))
}
