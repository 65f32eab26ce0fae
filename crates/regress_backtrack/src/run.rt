//! Runs of routines, within a step limit.
ghost use Rattle.std.specs.Prelude.{◌≡◌, ◌≤◌, ◌<◌, ◌+◌, ◌*◌, ◌∷◌, ◌++◌, [], ℕ, All, IfErr, IfOk, IfSome, MatchOption, flat_map, if◌then◌else◌, length, take, true};
ghost use Rattle.regress_leaves.specs.Subject.{subject};
ghost use Rattle.regress_found.specs.Found.{state};
ghost use Rattle.regress_program.specs.Cost.{Cost, IsCost, cost_of};
ghost use Rattle.regress_program.specs.Program.{IsSolution, Out, goto, look, matcher_of, outcomes_by};
ghost use Rattle.regress_program.specs.Shape.{IsProgram};
ghost use Rattle.regress_code.specs.Code.{code_routines};
ghost use Rattle.regress_backtrack.specs.Costs.{HasCost, cost_ahead, op_cost, points_cost};
ghost use Rattle.regress_found.specs.declared.fault.MemoryFault.TheVariants.{TooMuchMemory};
ghost use Rattle.regress_backtrack.specs.Memory.{AreWithin, entry_count};
ghost use Rattle.regress_backtrack.specs.Machine.{at, groups_of, points, rewound};
ghost use Rattle.regress_backtrack.specs.Next.{Inside, IsInput, Leads, Solve, ahead, instructions_in};
ghost use Rattle.regress_backtrack.specs.Run.{IsResponseOf, IsAfter};
ghost use Rattle.regress_backtrack.specs.declared.run.Response.TheVariants.{NoMatch, OutOfSteps};
ghost use Rattle.regress_backtrack.specs.declared.step.Next.TheVariants as nexts;

use crate::alternatives::{fails, next_choice};
use crate::input::{Input, input_for, instruction_at, routine_fails};
use crate::leaf_body::{leaf_response, sole_leaf_of};
use crate::machine::{Machine, Place};
use crate::step::{Next, step};
use crate::sweep::points_that_may_match;
use regress_found::MemoryFault;
use regress_program::instruction::Instruction;
use std::alloc::{AllocError, Global};

/// The result of a run.
#[derive(Clone, Copy)]
pub enum Response {
    /// The first outcome ends at this byte offset.
    Matched(usize),
    /// There is no outcome.
    NoMatch,
    /// The step limit was reached.
    OutOfSteps,
}

/// A lookaround.
#[derive(Clone, Copy)]
pub struct Looking {
    /// Whether it is negated.
    pub negate: bool,
    /// The index of the routine of its body.
    pub routine: usize,
    /// The instruction after it.
    pub next: usize,
}

/// Runs a routine from the byte offset `start` to its first outcome, and subtracts the steps from `remaining`.
///
/// The stack of the machine may have any content, which is removed. After an outcome the captures are those of the
/// outcome, and the stack has their changes.
///
/// # Preconditions
/// The routines are a program, and `start` is inside the text.
///
/// # Complexity
/// Each instruction counts 1, and what `step` counts. Recursion is as deep as lookarounds are nested: each routine is
/// run by later ones only.
///
/// # Errors
/// Returns [`MemoryFault`] if an allocation fails, or if a stack would need more room than the input allows.
#[cycle(run)]
pub fn run(
    alloc: Global,
    input: &Input<'_, '_>,
    start: usize,
    machine: &mut Machine,
    remaining: &mut u64,
) -> Result<Response, MemoryFault>
    requires program { IsProgram (code_routines input.now.code.now) }
    requires input { IsInput input.now }
    requires start { start ≤ length input.now.text.now }
    ensures responds { IfOk result (λ response. (outs : ℕ → Out) → (let u = subject input.now.rules input.now.text.now in
        let program = code_routines input.now.code.now in
        IsSolution u.setting u.bytes program outs →
        IsResponseOf (matcher_of u.setting u.bytes program outs input.now.index (state machine.old.captures.items start)) machine.new response)) }
    ensures undo { IfOk result (λ _. (rewound machine.new).captures ≡ machine.old.captures.items) }
    ensures none { IfOk result (λ response. response ≡ NoMatch → machine.new.captures.items ≡ machine.old.captures.items) }
    ensures remaining { IfOk result (λ _. remaining.new ≤ remaining.old) }
    ensures costs { IfOk result (λ _. (outs : ℕ → Out) (costs : ℕ → Cost) → (let u = subject input.now.rules input.now.text.now in
        let program = code_routines input.now.code.now in
        IsCost u.setting u.bytes program outs costs →
        remaining.old ≤ remaining.new + cost_of u.setting u.bytes program costs input.now.index (state machine.old.captures.items start))) }
    ensures spent { IfOk result (λ response. response ≡ OutOfSteps → remaining.new ≡ 0) }
    ensures within { AreWithin input.now.room machine.old → AreWithin input.now.room machine.new }
    ensures grows { IfOk result (λ _. (outs : ℕ → Out) (costs : ℕ → Cost) → (let u = subject input.now.rules input.now.text.now in
        let program = code_routines input.now.code.now in
        IsCost u.setting u.bytes program outs costs →
        entry_count machine.new ≤ 64 * cost_of u.setting u.bytes program costs input.now.index (state machine.old.captures.items start))) }
    ensures too_much { IfErr result (λ fault. fault ≡ TooMuchMemory → (outs : ℕ → Out) (costs : ℕ → Cost) → (let u = subject input.now.rules input.now.text.now in
        let program = code_routines input.now.code.now in
        IsCost u.setting u.bytes program outs costs →
        input.now.room ≤ 64 * cost_of u.setting u.bytes program costs input.now.index (state machine.old.captures.items start))) }
{
    machine.stack.clear();
    let mut here = Place {
        pc: input.first,
        moved: true,
        position: start,
    };
    while *remaining > 0 {
        *remaining -= 1;
        match advance(alloc, input, here, machine, remaining)? {
            Next::On(to) => here = to,
            Next::Back => match resume(input, machine)? {
                Some(to) => here = to,
                None => return Ok(Response::NoMatch),
            },
            Next::Accept(end) => return Ok(Response::Matched(end)),
            Next::OutOfSteps => return Ok(Response::OutOfSteps),
        }
    }
    Ok(Response::OutOfSteps)
}

/// Backtracks to the latest backtrack point that is not known to fail. Returns `None` if there is none.
///
/// # Errors
/// Returns [`AllocError`] if an allocation fails.
fn resume(input: &Input<'_, '_>, machine: &mut Machine) -> Result<Option<Place>, AllocError>
    requires { IsInput input.now }
    ensures leads { IfOk result (λ to. (outs : ℕ → Out) → Solve input.now outs → (let out = outs input.now.index in
        MatchOption to (flat_map out (points machine.old) ≡ []) (λ p. flat_map out (points machine.old)
        ≡ flat_map out (at p (groups_of machine.new) ∷ points machine.new)))) }
    ensures inside { IfOk result (λ to. IfSome to (λ p. All (Inside input.now) (points machine.old) →
        All (Inside input.now) (at p (groups_of machine.new) ∷ points machine.new))) }
    ensures rewound { IfOk result (λ _. rewound machine.new ≡ rewound machine.old) }
    ensures costs { IfOk result (λ to. IfSome to (λ p. (cost : Cost) →
        cost (at p (groups_of machine.new)) + points_cost cost machine.new ≤ points_cost cost machine.old)) }
    ensures all { IfOk result (λ to. MatchOption to (groups_of machine.new ≡ rewound machine.old) (λ _. Unit)) }
    ensures shrinks { entry_count machine.new ≤ entry_count machine.old }
    ensures within { (room : ℕ) → AreWithin room machine.old → AreWithin room machine.new }
{
    while let Some(to) = machine.backtrack()? {
        if !fails(input, to) {
            return Ok(Some(to));
        }
        leave_out(input, machine);
    }
    Ok(None)
}

/// Leaves out the last backtrack points of the latest entry at which the run is known to fail.
///
/// # Preconditions
/// The routines are a program.
fn leave_out(input: &Input<'_, '_>, machine: &mut Machine)
    requires { IsInput input.now }
    ensures leads { (outs : ℕ → Out) → Solve input.now outs → (let out = outs input.now.index in
        flat_map out (points machine.new) ≡ flat_map out (points machine.old)) }
    ensures inside { All (Inside input.now) (points machine.old) → All (Inside input.now) (points machine.new) }
    ensures groups { groups_of machine.new ≡ groups_of machine.old }
    ensures rewound { rewound machine.new ≡ rewound machine.old }
    ensures costs { (cost : Cost) → points_cost cost machine.new ≤ points_cost cost machine.old }
    ensures fewer { length (points machine.new) ≤ length (points machine.old) }
    ensures shrinks { entry_count machine.new ≤ entry_count machine.old }
    ensures within { (room : ℕ) → AreWithin room machine.old → AreWithin room machine.new }
{
    if let Some((first, more)) = machine.latest_range() {
        let kept = points_that_may_match(input, first, more);
        machine.keep_range(first, kept);
    }
}

/// Runs one instruction, or in a row of choices between strings the next one that may match.
#[cycle(run)]
#[inline(always)]
fn advance(
    alloc: Global,
    input: &Input<'_, '_>,
    place: Place,
    machine: &mut Machine,
    remaining: &mut u64,
) -> Result<Next, MemoryFault>
    requires program { IsProgram (code_routines input.now.code.now) }
    requires input { IsInput input.now }
    requires inside { Inside input.now (at place (groups_of machine.old)) }
    ensures leads { IfOk result (λ next. (outs : ℕ → Out) → (let u = subject input.now.rules input.now.text.now in
        let out = outs input.now.index in
        IsSolution u.setting u.bytes (code_routines input.now.code.now) outs →
        Leads (flat_map out (at place (groups_of machine.old) ∷ points machine.old)) out machine.new next)) }
    ensures inside { IfOk result (λ next. All (Inside input.now) (points machine.old) → All (Inside input.now) (ahead machine.new next)) }
    ensures rewound { IfOk result (λ _. rewound machine.new ≡ rewound machine.old) }
    ensures remaining { IfOk result (λ _. remaining.new ≤ remaining.old) }
    ensures costs { IfOk result (λ next. (outs : ℕ → Out) (costs : ℕ → Cost) → HasCost input.now outs costs → (let cost = costs input.now.index in
        remaining.old + 1 + cost_ahead cost machine.new next ≤ remaining.new + (cost (at place (groups_of machine.old)) + points_cost cost machine.old))) }
    ensures spent { IfOk result (λ next. next ≡ nexts.OutOfSteps → remaining.new ≡ 0) }
    ensures within { AreWithin input.now.room machine.old → AreWithin input.now.room machine.new }
    ensures grows { IfOk result (λ next. (outs : ℕ → Out) (costs : ℕ → Cost) → HasCost input.now outs costs → (let cost = costs input.now.index in
        entry_count machine.new + 64 * cost_ahead cost machine.new next
        ≤ entry_count machine.old + 64 * (cost (at place (groups_of machine.old)) + points_cost cost machine.old))) }
    ensures too_much { IfErr result (λ fault. fault ≡ TooMuchMemory → (outs : ℕ → Out) (costs : ℕ → Cost) → HasCost input.now outs costs →
        input.now.room ≤ entry_count machine.old + 64 * costs input.now.index (at place (groups_of machine.old))) }
{
    let pc = next_choice(input, place);
    let here = Place { pc, ..place };
    let instruction = instruction_at(input, here.pc);
    match instruction {
        Instruction::Look {
            negate,
            routine,
            next,
        } => {
            let looking = Looking {
                negate,
                routine,
                next,
            };
            look(alloc, input, looking, here, machine, remaining)
        }
        _ => step(input, instruction, here, machine, remaining),
    }
}

/// Matches a lookaround. The changes of captures inside it are added to the stack.
#[cycle(run)]
fn look(
    alloc: Global,
    input: &Input<'_, '_>,
    looking: Looking,
    here: Place,
    machine: &mut Machine,
    remaining: &mut u64,
) -> Result<Next, MemoryFault>
    requires program { IsProgram (code_routines input.now.code.now) }
    requires input { IsInput input.now }
    requires routine { looking.routine < length (take input.now.index (code_routines input.now.code.now)) }
    requires inside { Inside input.now (at here (groups_of machine.old)) }
    ensures leads { IfOk result (λ next. (outs : ℕ → Out) (out : Out) → (let u = subject input.now.rules input.now.text.now in
        let program = code_routines input.now.code.now in
        IsSolution u.setting u.bytes program outs →
        Leads (outcomes_by u.setting u.bytes u.direction (matcher_of u.setting u.bytes program outs) out
        (look looking.negate looking.routine looking.next) (at here (groups_of machine.old)) ++ flat_map out (points machine.old))
        out machine.new next)) }
    ensures inside { IfOk result (λ next. looking.next < length (instructions_in input.now) →
        All (Inside input.now) (points machine.old) → All (Inside input.now) (ahead machine.new next)) }
    ensures rewound { IfOk result (λ _. rewound machine.new ≡ rewound machine.old) }
    ensures remaining { IfOk result (λ _. remaining.new ≤ remaining.old) }
    ensures costs { IfOk result (λ next. (outs : ℕ → Out) (costs : ℕ → Cost) → HasCost input.now outs costs → (let cost = costs input.now.index in
        remaining.old + cost_ahead cost machine.new next ≤ remaining.new + (op_cost input.now outs costs
        (look looking.negate looking.routine looking.next) (at here (groups_of machine.old)) + points_cost cost machine.old))) }
    ensures spent { IfOk result (λ next. next ≡ nexts.OutOfSteps → remaining.new ≡ 0) }
    ensures within { AreWithin input.now.room machine.old → AreWithin input.now.room machine.new }
    ensures grows { IfOk result (λ next. (outs : ℕ → Out) (costs : ℕ → Cost) → HasCost input.now outs costs → (let cost = costs input.now.index in
        entry_count machine.new + 64 * cost_ahead cost machine.new next ≤ entry_count machine.old + 64 * (op_cost input.now outs costs
        (look looking.negate looking.routine looking.next) (at here (groups_of machine.old)) + points_cost cost machine.old))) }
    ensures too_much { IfErr result (λ fault. fault ≡ TooMuchMemory → (outs : ℕ → Out) (costs : ℕ → Cost) → HasCost input.now outs costs →
        input.now.room ≤ entry_count machine.old + 64 * op_cost input.now outs costs
        (look looking.negate looking.routine looking.next) (at here (groups_of machine.old))) }
{
    let after = Place {
        pc: looking.next,
        ..here
    };
    if routine_fails(input, looking.routine, here.position) {
        return Ok(on_if(looking.negate, after));
    }
    let inside = input_for(
        input.text,
        input.rules,
        input.code,
        looking.routine,
        input.room,
    );
    if let Some(test) = sole_leaf_of(&inside) {
        let response = leaf_response(&inside, test, here.position, machine, remaining);
        return Ok(next_after(response, looking.negate, after));
    }
    let outer = machine.enter(alloc);
    let response = run(alloc, &inside, here.position, machine, remaining)?;
    machine.leave(outer, input.room)?;
    Ok(next_after(response, looking.negate, after))
}

/// Returns what follows a lookaround, by the result of its body.
fn next_after(response: Response, negate: bool, after: Place) -> Next
    ensures { IsAfter response negate after result }
{
    match response {
        Response::Matched(_) => on_if(!negate, after),
        Response::NoMatch => on_if(negate, after),
        Response::OutOfSteps => Next::OutOfSteps,
    }
}

/// Goes on if a lookaround holds.
fn on_if(holds: bool, after: Place) -> Next
    ensures { result ≡ (if holds then nexts.On after else nexts.Back) }
{
    if holds { Next::On(after) } else { Next::Back }
}
