//! Lookarounds whose body is one leaf.
ghost use Rattle.std.specs.Prelude.{◌≡◌, ◌≤◌, ◌+◌, ℕ, IfSome, length};
ghost use Rattle.regress_leaves.specs.Subject.{subject};
ghost use Rattle.regress_found.specs.Found.{state};
ghost use Rattle.regress_program.specs.Cost.{Cost, cost_of};
ghost use Rattle.regress_program.specs.Program.{Out, matcher_of};
ghost use Rattle.regress_program.specs.Shape.{IsProgram};
ghost use Rattle.regress_code.specs.Code.{code_routines};
ghost use Rattle.regress_backtrack.specs.Costs.{HasCost};
ghost use Rattle.regress_backtrack.specs.Next.{IsInput, Solve};
ghost use Rattle.regress_backtrack.specs.Run.{IsLeafBody, IsResponseOf};
ghost use Rattle.regress_backtrack.specs.declared.run.Response.TheVariants.{OutOfSteps};

use crate::input::{Input, instruction_in, leaf_at, test_at};
use crate::machine::Machine;
use crate::run::Response;
use crate::step::test_end;
use regress_leaves::test::Test;
use regress_program::instruction::Instruction;

/// Returns the leaf of a routine that matches one leaf, or `None` if the routine is another one.
///
/// # Preconditions
/// The routines are a program.
#[inline(always)]
pub(crate) fn sole_leaf_of<'c>(input: &Input<'c, '_>) -> Option<&'c Test>
    requires program { IsProgram (code_routines input.now.code.now) }
    requires input { IsInput input.now }
    ensures { IfSome result (λ test. IsLeafBody input.now test.now) }
{
    // a leaf follows the instruction that accepts, and longer routines start later
    if input.first > 1 {
        return None;
    }
    let (leaf, next) = leaf_at(input, input.first)?;
    match instruction_in(input, next)? {
        Instruction::Accept => test_at(input, leaf),
        _ => None,
    }
}

/// Returns the result of a run of a routine that matches one leaf. It needs no backtrack stack.
///
/// # Preconditions
/// The routines are a program, the routine matches this leaf, and the position is inside the text.
///
/// # Complexity
/// It subtracts from `remaining` one for each instruction, and what a back reference is compared with.
#[inline(never)]
pub(crate) fn leaf_response(
    input: &Input<'_, '_>,
    test: &Test,
    position: usize,
    machine: &Machine,
    remaining: &mut u64,
) -> Response
    requires program { IsProgram (code_routines input.now.code.now) }
    requires input { IsInput input.now }
    requires body { IsLeafBody input.now test.now }
    requires position { position ≤ length input.now.text.now }
    ensures responds { (outs : ℕ → Out) → Solve input.now outs → (let u = subject input.now.rules input.now.text.now in
        IsResponseOf (matcher_of u.setting u.bytes (code_routines input.now.code.now) outs input.now.index (state machine.now.captures.items position))
        machine.now result) }
    ensures remaining { remaining.new ≤ remaining.old }
    ensures costs { (outs : ℕ → Out) (costs : ℕ → Cost) → HasCost input.now outs costs → (let u = subject input.now.rules input.now.text.now in
        remaining.old ≤ remaining.new
        + cost_of u.setting u.bytes (code_routines input.now.code.now) costs input.now.index (state machine.now.captures.items position)) }
    ensures goes { result ≡ OutOfSteps → ⊥ }
{
    match test_end(input, test, position, &machine.captures, remaining) {
        Some(end) => {
            *remaining = remaining.saturating_sub(2);
            Response::Matched(end)
        }
        None => {
            *remaining = remaining.saturating_sub(1);
            Response::NoMatch
        }
    }
}
