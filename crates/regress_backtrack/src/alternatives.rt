//! Alternatives, and the iterations of loops.
ghost use Rattle.std.specs.Prelude.{◌≡◌, ◌≤◌, ◌<◌, ◌+◌, ◌++◌, ◌∷◌, ℕ, All, IfErr, IfOk, IfSome, false, flat_map, length, true};
ghost use Rattle.regress_program.specs.Cost.{Cost};
ghost use Rattle.regress_program.specs.Program.{Out, either};
ghost use Rattle.regress_backtrack.specs.Costs.{HasCost, cost_ahead, points_cost};
ghost use Rattle.regress_backtrack.specs.Machine.{Groups, at, groups_of, points, rewound};
ghost use Rattle.regress_found.specs.declared.fault.MemoryFault.TheVariants.{TooMuchMemory};
ghost use Rattle.regress_backtrack.specs.Memory.{AreWithin, entry_count};
ghost use Rattle.regress_backtrack.specs.Next.{Fails, Inside, IsInput, Leads, Solve, ahead, instructions_in};
ghost use Rattle.regress_code.specs.Skips.{AreSkipped, IsBeside};
ghost use Rattle.regress_tree.specs.Reading.{direction_if};
ghost use Rattle.regress_backtrack.specs.declared.step.Next.TheVariants.{OutOfSteps};

use crate::input::{Input, choice_at, next_bytes_at, row_at, skip_at};
use crate::machine::{Machine, Place};
use crate::step::Next;
use crate::sweep::sweep;
use regress_code::skips::{Skip, count_at};
use regress_found::MemoryFault;

/// A loop.
#[derive(Clone, Copy)]
pub struct Looping {
    /// Whether an iteration is preferred.
    pub greedy: bool,
    /// The start of an iteration.
    pub body: usize,
    /// What follows the loop.
    pub next: usize,
}

/// Goes on at the first place, and at the second one after a failure. A place that is known to fail is left out.
///
/// # Preconditions
/// Both places are inside the routine and the text.
///
/// # Errors
/// Returns [`MemoryFault`] if an allocation fails, or if the stack would need more room than the input allows.
#[inline(always)]
pub fn fork(
    input: &Input<'_, '_>,
    first: Place,
    second: Place,
    machine: &mut Machine,
) -> Result<Next, MemoryFault>
    requires input { IsInput input.now }
    requires first { Inside input.now (at first (groups_of machine.old)) }
    requires second { Inside input.now (at second (groups_of machine.old)) }
    ensures leads { IfOk result (λ next. (outs : ℕ → Out) → Solve input.now outs → (let out = outs input.now.index in
        Leads ((out (at first (groups_of machine.old)) ++ out (at second (groups_of machine.old))) ++ flat_map out (points machine.old))
        out machine.new next)) }
    ensures inside { IfOk result (λ next. All (Inside input.now) (points machine.old) → All (Inside input.now) (ahead machine.new next)) }
    ensures rewound { IfOk result (λ _. rewound machine.new ≡ rewound machine.old) }
    ensures costs { IfOk result (λ next. (outs : ℕ → Out) (costs : ℕ → Cost) → HasCost input.now outs costs → (let cost = costs input.now.index in
        cost_ahead cost machine.new next ≤ (cost (at first (groups_of machine.old)) + cost (at second (groups_of machine.old)))
        + points_cost cost machine.old)) }
    ensures goes { IfOk result (λ next. next ≡ OutOfSteps → ⊥) }
    ensures grows { IfOk result (λ _. entry_count machine.new ≤ entry_count machine.old + 1) }
    ensures within { AreWithin input.now.room machine.old → AreWithin input.now.room machine.new }
    ensures too_much { IfErr result (λ fault. fault ≡ TooMuchMemory → input.now.room ≤ entry_count machine.old) }
{
    if fails(input, first) {
        return Ok(on(input, skip(input, second)));
    }
    if fails(input, second) {
        return Ok(Next::On(first));
    }
    machine.choose(second, input.room)?;
    Ok(Next::On(first))
}

/// Begins an iteration or goes on after the loop, whichever is preferred, and the other after a failure.
///
/// # Preconditions
/// Both are inside the routine, and the position is inside the text.
///
/// # Complexity
/// It subtracts from `remaining` the number of bytes by which it moves the position.
///
/// # Errors
/// Returns [`MemoryFault`] if an allocation fails, or if the stack would need more room than the input allows.
#[inline(always)]
pub fn iterate(
    input: &Input<'_, '_>,
    looping: Looping,
    here: Place,
    machine: &mut Machine,
    remaining: &mut u64,
) -> Result<Next, MemoryFault>
    requires input { IsInput input.now }
    requires body { looping.body < length (instructions_in input.now) }
    requires next { looping.next < length (instructions_in input.now) }
    requires position { here.position ≤ length input.now.text.now }
    ensures leads { IfOk result (λ to. (outs : ℕ → Out) → Solve input.now outs → (let out = outs input.now.index in
        let again : Place = record { pc = looping.body; moved = false; position = here.position } in
        let after : Place = record here { pc = looping.next } in
        Leads (either out looping.greedy (at again (groups_of machine.old)) (at after (groups_of machine.old)) ++ flat_map out (points machine.old))
        out machine.new to)) }
    ensures inside { IfOk result (λ to. All (Inside input.now) (points machine.old) → All (Inside input.now) (ahead machine.new to)) }
    ensures rewound { IfOk result (λ _. rewound machine.new ≡ rewound machine.old) }
    ensures remaining { IfOk result (λ _. remaining.new ≤ remaining.old) }
    ensures costs { IfOk result (λ to. (outs : ℕ → Out) (costs : ℕ → Cost) → HasCost input.now outs costs → (let cost = costs input.now.index in
        let again : Place = record { pc = looping.body; moved = false; position = here.position } in
        let after : Place = record here { pc = looping.next } in
        remaining.old + cost_ahead cost machine.new to
        ≤ remaining.new + ((cost (at again (groups_of machine.old)) + cost (at after (groups_of machine.old))) + points_cost cost machine.old))) }
    ensures goes { IfOk result (λ to. to ≡ OutOfSteps → ⊥) }
    ensures grows { IfOk result (λ _. entry_count machine.new ≤ entry_count machine.old + 1) }
    ensures within { AreWithin input.now.room machine.old → AreWithin input.now.room machine.new }
    ensures too_much { IfErr result (λ fault. fault ≡ TooMuchMemory → input.now.room ≤ entry_count machine.old) }
{
    let again = Place {
        pc: looping.body,
        moved: false,
        position: here.position,
    };
    let after = Place {
        pc: looping.next,
        ..here
    };
    if looping.greedy {
        match sweep(input, looping, here, machine, remaining)? {
            Some(to) => Ok(on(input, to)),
            None => fork(input, again, after, machine),
        }
    } else {
        fork(input, after, again, machine)
    }
}

/// Goes on at a place, or backtracks if it is known to fail.
///
/// # Preconditions
/// The routines are a program.
#[inline(always)]
fn on(input: &Input<'_, '_>, place: Place) -> Next
    requires input { IsInput input.now }
    ensures leads { (machine : Machine) (outs : ℕ → Out) → Solve input.now outs → (let out = outs input.now.index in
        Leads (out (at place (groups_of machine)) ++ flat_map out (points machine)) out machine result) }
    ensures inside { (machine : Machine) → All (Inside input.now) (at place (groups_of machine) ∷ points machine) → All (Inside input.now) (ahead machine result) }
    ensures costs { (machine : Machine) (cost : Cost) → cost_ahead cost machine result ≤ cost (at place (groups_of machine)) + points_cost cost machine }
    ensures goes { result ≡ OutOfSteps → ⊥ }
{
    if fails(input, place) {
        Next::Back
    } else {
        Next::On(place)
    }
}

/// Returns the next instruction from a place downwards that has the same outcomes: in a row of choices between strings the
/// next choice whose string occurs at the position, or the instruction below the row, if there is none.
///
/// # Preconditions
/// The place is inside the routine and the text.
#[inline(always)]
pub fn next_choice(input: &Input<'_, '_>, place: Place) -> usize
    requires input { IsInput input.now }
    requires pc { place.pc < length (instructions_in input.now) }
    requires position { place.position ≤ length input.now.text.now }
    ensures within { result ≤ place.pc }
    ensures same { (outs : ℕ → Out) (g : Groups) → Solve input.now outs →
        outs input.now.index (at (record place { pc = result }) g) ≡ outs input.now.index (at place g) }
    ensures costs { (outs : ℕ → Out) (costs : ℕ → Cost) (g : Groups) → HasCost input.now outs costs →
        costs input.now.index (at (record place { pc = result }) g) ≤ costs input.now.index (at place g) }
{
    if input.rows.is_empty() {
        place.pc
    } else {
        next_in_row(input, place)
    }
}

/// Returns the same as [`next_choice`], for a routine with rows.
///
/// # Preconditions
/// The place is inside the routine and the text.
#[inline(never)]
fn next_in_row(input: &Input<'_, '_>, place: Place) -> usize
    requires input { IsInput input.now }
    requires pc { place.pc < length (instructions_in input.now) }
    requires position { place.position ≤ length input.now.text.now }
    ensures within { result ≤ place.pc }
    ensures same { (outs : ℕ → Out) (g : Groups) → Solve input.now outs →
        outs input.now.index (at (record place { pc = result }) g) ≡ outs input.now.index (at place g) }
    ensures costs { (outs : ℕ → Out) (costs : ℕ → Cost) (g : Groups) → HasCost input.now outs costs →
        costs input.now.index (at (record place { pc = result }) g) ≤ costs input.now.index (at place g) }
{
    match row_at(input, place.pc) {
        Some(row) => row.next_choice(input.text.as_bytes(), place.position, place.pc),
        None => place.pc,
    }
}

/// Skips the choices at a place whose preferred alternatives are known to fail.
///
/// # Preconditions
/// The place is inside the routine and the text.
#[inline(always)]
pub fn skip(input: &Input<'_, '_>, place: Place) -> Place
    requires input { IsInput input.now }
    requires pc { place.pc < length (instructions_in input.now) }
    requires position { place.position ≤ length input.now.text.now }
    ensures pc { result.pc < length (instructions_in input.now) }
    ensures position { result.position ≡ place.position }
    ensures same { (outs : ℕ → Out) (g : Groups) → Solve input.now outs → outs input.now.index (at result g) ≡ outs input.now.index (at place g) }
    ensures costs { (outs : ℕ → Out) (costs : ℕ → Cost) (g : Groups) → HasCost input.now outs costs →
        costs input.now.index (at result g) ≤ costs input.now.index (at place g) }
{
    let mut here = place;
    while let Some(second) = other_alternative(input, here) {
        here = Place { pc: second, ..here };
    }
    here
}

/// Returns an instruction before a choice that has the same outcomes as the choice, since the preferred alternatives up
/// to it are known to fail by the byte next to the position. For a choice in a row of choices between strings there is none:
/// [`next_choice`] finds the next one.
///
/// # Preconditions
/// The place is inside the routine and the text.
#[inline(always)]
fn other_alternative(input: &Input<'_, '_>, place: Place) -> Option<usize>
    requires input { IsInput input.now }
    requires pc { place.pc < length (instructions_in input.now) }
    requires position { place.position ≤ length input.now.text.now }
    ensures earlier { IfSome result (λ other. other < place.pc) }
    ensures same { IfSome result (λ other. (outs : ℕ → Out) (g : Groups) → Solve input.now outs →
        outs input.now.index (at (record place { pc = other }) g) ≡ outs input.now.index (at place g)) }
    ensures costs { IfSome result (λ other. (outs : ℕ → Out) (costs : ℕ → Cost) (g : Groups) → HasCost input.now outs costs →
        costs input.now.index (at (record place { pc = other }) g) ≤ costs input.now.index (at place g)) }
{
    match skipped_at(input, place) {
        Some(0) => None,
        Some(count) => Some(place.pc - count),
        None => next_alternative(input, place),
    }
}

/// Returns the number of choices from a place on that are skipped at once, or `None` if it is not known. It is 0 in a row
/// of choices between strings.
///
/// # Preconditions
/// The routines are a program.
#[inline(always)]
fn skipped_at(input: &Input<'_, '_>, place: Place) -> Option<usize>
    requires input { IsInput input.now }
    ensures skipped { IfSome result (λ count. 0 < count → (b : ℕ) × IsBeside (direction_if input.now.rules.backwards) input.now.text.now place.position b
        × AreSkipped input.now.next_bytes.now (instructions_in input.now) b place.pc count) }
    ensures within { IfSome result (λ count. count ≤ place.pc) }
{
    match skip_at(input, place.pc)? {
        Skip::Unknown => None,
        Skip::Counts(counts) => {
            let b = byte_beside(input.text, input.rules.backwards, place.position)?;
            Some(usize::from(count_at(counts, b)))
        }
        Skip::Row(_) => Some(0),
    }
}

/// Returns the byte next to a position, or `None` at the start and the end of the text.
#[inline(always)]
fn byte_beside(text: &str, backwards: bool, position: usize) -> Option<u8>
    ensures { IfSome result (λ b. IsBeside (direction_if backwards) text.now position b) }
{
    let bytes = text.as_bytes();
    if position == 0 || position >= bytes.len() {
        return None;
    }
    let next = if backwards { position - 1 } else { position };
    Some(bytes[next])
}

/// Returns the other alternative of a choice whose preferred one is known to fail.
///
/// # Preconditions
/// The place is inside the routine and the text.
#[inline(always)]
fn next_alternative(input: &Input<'_, '_>, place: Place) -> Option<usize>
    requires input { IsInput input.now }
    requires pc { place.pc < length (instructions_in input.now) }
    requires position { place.position ≤ length input.now.text.now }
    ensures earlier { IfSome result (λ second. second < place.pc) }
    ensures same { IfSome result (λ second. (outs : ℕ → Out) (g : Groups) → Solve input.now outs →
        outs input.now.index (at (record place { pc = second }) g) ≡ outs input.now.index (at place g)) }
    ensures costs { IfSome result (λ second. (outs : ℕ → Out) (costs : ℕ → Cost) (g : Groups) → HasCost input.now outs costs →
        costs input.now.index (at (record place { pc = second }) g) ≤ costs input.now.index (at place g)) }
{
    let (first, second) = choice_at(input, place.pc)?;
    let preferred = Place { pc: first, ..place };
    if fails(input, preferred) {
        Some(second)
    } else {
        None
    }
}

/// Returns whether a run is known to fail at a place, by the byte next to it.
///
/// # Preconditions
/// The routines are a program.
#[inline(always)]
pub fn fails(input: &Input<'_, '_>, place: Place) -> bool
    requires input { IsInput input.now }
    ensures { result ≡ true → Fails input.now place }
{
    match next_bytes_at(input, place.pc) {
        Some(next_byte) => next_byte.excludes(input.text, input.rules.backwards, place.position),
        None => false,
    }
}
