//! One instruction.
ghost use Rattle.std.specs.Prelude.{◌≡◌, ◌≤◌, ◌+◌, ◌*◌, ◌++◌, ◌||◌, ◌==◌, ℕ, All, IfErr, IfOk, MatchOption, false, flat_map, length, not, slice_get, true};
ghost use Rattle.std.specs.Int.{abs_diff};
ghost use Rattle.regress_prefilter.specs.OneCharacter.{takes_one};
ghost use Rattle.regress_leaves.specs.Leaves.{GoesTo, exactly, put};
ghost use Rattle.regress_leaves.specs.Subject.{subject};
ghost use Rattle.regress_tree.specs.Matching.{steps};
ghost use Rattle.regress_tree.specs.Steps.{Matcher};
ghost use Rattle.regress_tree.specs.Tree.{tree};
ghost use Rattle.regress_found.specs.Found.{state};
ghost use Rattle.regress_program.specs.Cost as cost;
ghost use Rattle.regress_program.specs.Cost.{Cost, bytes_ahead, characters_cost, compared};
ghost use Rattle.regress_program.specs.Program.{Out, goto, matcher_of, outcomes_by};
ghost use Rattle.regress_program.specs.Shape.{IsPart};
ghost use Rattle.regress_code.specs.Code.{code_routines};
ghost use Rattle.regress_backtrack.specs.Costs.{HasCost, cost_ahead, op_cost, points_cost};
ghost use Rattle.regress_found.specs.declared.fault.MemoryFault.TheVariants.{TooMuchMemory};
ghost use Rattle.regress_backtrack.specs.Memory.{AreWithin, entry_count};
ghost use Rattle.regress_backtrack.specs.Machine.{at, groups_of, points, rewound};
ghost use Rattle.regress_program.specs.Views.{characters_of, op_in, part_of};
ghost use Rattle.regress_backtrack.specs.Next.{CanStep, Inside, IsInput, Leads, Solve, ahead, is_look};
ghost use Rattle.regress_backtrack.specs.declared.step.Next.TheVariants.{Back, On, OutOfSteps};

use crate::alternatives::{Looping, fork, iterate};
use crate::boundary::boundary_end;
use crate::input::{Input, test_at};
use crate::machine::{Machine, Place};
use regress_found::MemoryFault;
use regress_leaves::leaves::simple_leaf;
use regress_leaves::test::Test;
use regress_program::blocks::{blocks, unset_cost};
use regress_program::instruction::Instruction;
use regress_program::leaf::{bytes_ahead, leaf_end};

/// What follows an instruction.
#[derive(Clone, Copy)]
pub enum Next {
    /// The run goes on here.
    On(Place),
    /// The run backtracks.
    Back,
    /// A match of the routine ends at this byte offset.
    Accept(usize),
    /// The step limit was reached.
    OutOfSteps,
}

/// Runs an instruction other than a lookaround.
///
/// # Preconditions
/// The instruction is that of `here` in the routine of the input, and no lookaround.
///
/// # Complexity
/// It subtracts from `remaining` one for each 64 bytes by which it moves the position, for each 64 bytes that a back
/// reference is compared with, for each 64 characters before one that fails, and for each 64 groups that it unsets.
///
/// # Errors
/// Returns [`MemoryFault`] if an allocation fails, or if the stack would need more room than the input allows.
#[inline(always)]
pub fn step(
    input: &Input<'_, '_>,
    instruction: Instruction,
    here: Place,
    machine: &mut Machine,
    remaining: &mut u64,
) -> Result<Next, MemoryFault>
    requires can { CanStep input.now (op_in input.now.code.now.program.leaves.items instruction) here }
    requires input { IsInput input.now }
    requires no_look { is_look (op_in input.now.code.now.program.leaves.items instruction) ≡ false }
    ensures leads { IfOk result (λ next. (outs : ℕ → Out) → Solve input.now outs → (let u = subject input.now.rules input.now.text.now in
        let out = outs input.now.index in
        Leads (outcomes_by u.setting u.bytes u.direction (matcher_of u.setting u.bytes (code_routines input.now.code.now) outs) out
        (op_in input.now.code.now.program.leaves.items instruction) (at here (groups_of machine.old)) ++ flat_map out (points machine.old))
        out machine.new next)) }
    ensures inside { IfOk result (λ next. All (Inside input.now) (points machine.old) → All (Inside input.now) (ahead machine.new next)) }
    ensures rewound { IfOk result (λ _. rewound machine.new ≡ rewound machine.old) }
    ensures remaining { IfOk result (λ _. remaining.new ≤ remaining.old) }
    ensures costs { IfOk result (λ next. (outs : ℕ → Out) (costs : ℕ → Cost) → HasCost input.now outs costs → (let cost = costs input.now.index in
        remaining.old + cost_ahead cost machine.new next ≤ remaining.new + (op_cost input.now outs costs
        (op_in input.now.code.now.program.leaves.items instruction) (at here (groups_of machine.old)) + points_cost cost machine.old))) }
    ensures goes { IfOk result (λ next. next ≡ OutOfSteps → ⊥) }
    ensures within { AreWithin input.now.room machine.old → AreWithin input.now.room machine.new }
    ensures grows { IfOk result (λ next. (outs : ℕ → Out) (costs : ℕ → Cost) → HasCost input.now outs costs → (let cost = costs input.now.index in
        entry_count machine.new + 64 * cost_ahead cost machine.new next ≤ entry_count machine.old + 64 * (1 + (op_cost input.now outs costs
        (op_in input.now.code.now.program.leaves.items instruction) (at here (groups_of machine.old)) + points_cost cost machine.old)))) }
    ensures too_much { IfErr result (λ fault. fault ≡ TooMuchMemory → (outs : ℕ → Out) (costs : ℕ → Cost) →
        input.now.room ≤ entry_count machine.old + 64 * (1 + op_cost input.now outs costs
        (op_in input.now.code.now.program.leaves.items instruction) (at here (groups_of machine.old)))) }
{
    match instruction {
        Instruction::Accept => Ok(Next::Accept(here.position)),
        Instruction::Fail => Ok(Next::Back),
        Instruction::Leaf { leaf, next } => {
            Ok(match_leaf(input, leaf, next, here, machine, remaining))
        }
        Instruction::Characters { leaf, count, next } => {
            Ok(match_characters(input, leaf, count, next, here, remaining))
        }
        Instruction::Split { first, second } => {
            fork(input, goto(first, here), goto(second, here), machine)
        }
        Instruction::BeginLoop { greedy, body, next } => {
            iterate(
                input,
                Looping { greedy, body, next },
                here,
                machine,
                remaining,
            )
        }
        Instruction::Repeat { greedy, body, next } => {
            if here.moved {
                iterate(
                    input,
                    Looping { greedy, body, next },
                    here,
                    machine,
                    remaining,
                )
            } else {
                Ok(Next::Back)
            }
        }
        Instruction::EndLoop { next } => {
            if here.moved {
                Ok(Next::On(goto(next, here)))
            } else {
                Ok(Next::Back)
            }
        }
        Instruction::Unset { start, end, next } => {
            let cost = unset_cost(start, end, machine.captures.len());
            *remaining = remaining.saturating_sub(cost);
            machine.unset(start, end, input.room)?;
            Ok(Next::On(goto(next, here)))
        }
        Instruction::BeginGroup { next } => {
            machine.begin_group(here.position, input.room)?;
            Ok(Next::On(goto(next, here)))
        }
        Instruction::EndGroup { id, next } => {
            machine.end_group(id, here, input.room)?;
            Ok(Next::On(goto(next, here)))
        }
        // the precondition excludes it
        Instruction::Look { .. } => Ok(Next::Back),
    }
}

/// Matches a leaf, and goes on at the instruction `next`. Backtracks if it fails, or if there is no leaf with this index.
///
/// # Preconditions
/// The instruction of `here` is the one that matches the leaf.
#[inline(always)]
fn match_leaf(
    input: &Input<'_, '_>,
    leaf: usize,
    next: usize,
    here: Place,
    machine: &Machine,
    remaining: &mut u64,
) -> Next
    requires { CanStep input.now (part_of (slice_get input.now.code.now.program.leaves.items leaf) next) here }
    ensures leads { (body_of : ℕ → Matcher) (out : Out) → (let u = subject input.now.rules input.now.text.now in
        Leads (outcomes_by u.setting u.bytes u.direction body_of out (part_of (slice_get input.now.code.now.program.leaves.items leaf) next)
        (at here (groups_of machine.now)) ++ flat_map out (points machine.now)) out machine.now result) }
    ensures inside { All (Inside input.now) (points machine.now) → All (Inside input.now) (ahead machine.now result) }
    ensures remaining { remaining.new ≤ remaining.old }
    ensures costs { (outs : ℕ → Out) (costs : ℕ → Cost) → (let cost = costs input.now.index in
        remaining.old + cost_ahead cost machine.now result ≤ remaining.new + (op_cost input.now outs costs
        (part_of (slice_get input.now.code.now.program.leaves.items leaf) next) (at here (groups_of machine.now)) + points_cost cost machine.now)) }
    ensures goes { result ≡ OutOfSteps → ⊥ }
{
    let Some(test) = test_at(input, leaf) else {
        return Next::Back;
    };
    let to = test_end(input, test, here.position, &machine.captures, remaining);
    reach(here, next, to, remaining)
}

/// Returns the position at which a leaf ends, or `None` if it fails, as [`leaf_end`], which decides unless the characters
/// next to the position and the leaf are simple enough.
///
/// # Preconditions
/// It is a set of strings only if it has exactly one string.
#[inline(always)]
pub(crate) fn test_end(
    input: &Input<'_, '_>,
    test: &Test,
    position: usize,
    captures: &[Option<(usize, usize)>],
    remaining: &mut u64,
) -> Option<usize>
    requires { IsPart (tree test.now.node) }
    ensures to { let u = subject input.now.rules input.now.text.now in
        steps u.setting u.bytes u.direction (tree test.now.node) (state captures.now position) ≡ put (state captures.now position) result }
    ensures remaining { remaining.new ≤ remaining.old }
    ensures costs { remaining.old ≤ remaining.new + compared (bytes_ahead (subject input.now.rules input.now.text.now).direction (length input.now.text.now) position) (tree test.now.node) (state captures.now position) }
{
    match test
        .start
        .ascii_end(input.text, input.rules.backwards, position)
    {
        Some(to) => to,
        None => other_end(input, test, position, captures, remaining),
    }
}

/// Returns the position at which a leaf ends, as [`test_end`]. A word boundary is decided by the bytes next to it, if it can
/// be.
///
/// # Preconditions
/// It is a set of strings only if it has exactly one string.
#[inline(always)]
fn other_end(
    input: &Input<'_, '_>,
    test: &Test,
    position: usize,
    captures: &[Option<(usize, usize)>],
    remaining: &mut u64,
) -> Option<usize>
    requires { IsPart (tree test.now.node) }
    ensures to { let u = subject input.now.rules input.now.text.now in
        steps u.setting u.bytes u.direction (tree test.now.node) (state captures.now position) ≡ put (state captures.now position) result }
    ensures remaining { remaining.new ≤ remaining.old }
    ensures costs { remaining.old ≤ remaining.new + compared (bytes_ahead (subject input.now.rules input.now.text.now).direction (length input.now.text.now) position) (tree test.now.node) (state captures.now position) }
{
    match boundary_end(input.text, &test.node, position) {
        Some(to) => to,
        None => leaf_end(
            input.text,
            input.rules,
            &test.node,
            position,
            captures,
            remaining,
        ),
    }
}

/// Matches exactly `count` characters with a leaf, and goes on at the instruction `next`. Backtracks if they fail, or if
/// there is no leaf with this index.
///
/// # Preconditions
/// The instruction of `here` is the one that matches them.
fn match_characters(
    input: &Input<'_, '_>,
    leaf: usize,
    count: usize,
    next: usize,
    here: Place,
    remaining: &mut u64,
) -> Next
    requires { CanStep input.now (characters_of (slice_get input.now.code.now.program.leaves.items leaf) count next) here }
    ensures leads { (machine : Machine) (body_of : ℕ → Matcher) (out : Out) → (let u = subject input.now.rules input.now.text.now in
        Leads (outcomes_by u.setting u.bytes u.direction body_of out (characters_of (slice_get input.now.code.now.program.leaves.items leaf) count next)
        (at here (groups_of machine)) ++ flat_map out (points machine)) out machine result) }
    ensures inside { (machine : Machine) → All (Inside input.now) (points machine) → All (Inside input.now) (ahead machine result) }
    ensures remaining { remaining.new ≤ remaining.old }
    ensures costs { (machine : Machine) (outs : ℕ → Out) (costs : ℕ → Cost) → (let cost = costs input.now.index in
        remaining.old + cost_ahead cost machine result ≤ remaining.new + (op_cost input.now outs costs
        (characters_of (slice_get input.now.code.now.program.leaves.items leaf) count next) (at here (groups_of machine)) + points_cost cost machine)) }
    ensures goes { result ≡ OutOfSteps → ⊥ }
{
    let Some(test) = test_at(input, leaf) else {
        return Next::Back;
    };
    let to = characters_end(input, test, count, here.position, remaining);
    reach(here, next, to, remaining)
}

/// Returns the position after exactly `count` characters, each of which matches a leaf, or `None` if there are fewer. If
/// one fails, it subtracts from `remaining` one for each 64 characters before it.
///
/// # Preconditions
/// The leaf matches one character, and the position is inside the text.
#[inline(always)]
fn characters_end(
    input: &Input<'_, '_>,
    test: &Test,
    count: usize,
    position: usize,
    remaining: &mut u64,
) -> Option<usize>
    requires one { takes_one (tree test.now.node) ≡ true }
    requires inside { position ≤ length input.now.text.now }
    ensures to { GoesTo (subject input.now.rules input.now.text.now) position (exactly count (tree test.now.node)) result }
    ensures remaining { remaining.new ≤ remaining.old }
    ensures costs { remaining.old ≤ remaining.new + characters_cost (bytes_ahead (subject input.now.rules input.now.text.now).direction (length input.now.text.now) position) count }
{
    // each character has at least one byte
    if count > bytes_ahead(input.text, input.rules.backwards, position) {
        return None;
    }
    let mut end = position;
    for i in 0..count {
        let Some(to) = character_end(input, test, end) else {
            *remaining = remaining.saturating_sub(blocks(i));
            return None;
        };
        end = to;
    }
    Some(end)
}

/// Returns the position after one character that matches a leaf, or `None` if it fails.
///
/// # Preconditions
/// The leaf matches one character.
#[inline(always)]
fn character_end(input: &Input<'_, '_>, test: &Test, position: usize) -> Option<usize>
    requires { takes_one (tree test.now.node) ≡ true }
    ensures { GoesTo (subject input.now.rules input.now.text.now) position (tree test.now.node) result }
{
    match test
        .start
        .ascii_end(input.text, input.rules.backwards, position)
    {
        Some(to) => to,
        None => simple_leaf(input.text, input.rules, &test.node, position),
    }
}

/// Returns the place with another instruction.
#[inline(always)]
fn goto(pc: usize, here: Place) -> Place
    ensures { result ≡ record here { pc = pc } }
{
    Place { pc, ..here }
}

/// Goes on from where a part ends, and subtracts from the remaining steps one for each 64 bytes that it has matched.
/// Backtracks if it fails.
#[inline(always)]
fn reach(here: Place, next: usize, to: Option<usize>, remaining: &mut u64) -> Next
    ensures next { MatchOption to (result ≡ Back)
        (λ q. result ≡ On (record { pc = next; moved = here.moved || not (q == here.position); position = q })) }
    ensures remaining { remaining.new ≤ remaining.old }
    ensures costs { MatchOption to (remaining.new ≡ remaining.old) (λ q. remaining.old ≤ remaining.new + cost.blocks (abs_diff here.position q)) }
{
    match to {
        None => Next::Back,
        Some(position) => {
            *remaining = remaining.saturating_sub(blocks(position.abs_diff(here.position)));
            Next::On(Place {
                pc: next,
                moved: here.moved | (position != here.position),
                position,
            })
        }
    }
}
