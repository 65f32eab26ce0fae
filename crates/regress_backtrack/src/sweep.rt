//! Loops over one character, whose iterations are run at once.
ghost use Rattle.std.specs.Prelude.{◌≡◌, ◌≤◌, ◌<◌, ◌+◌, ◌++◌, ◌∷◌, ℕ, All, IfErr, IfOk, IfSome, MatchOption, flat_map, length, false, true};
ghost use Rattle.regress_program.specs.Cost.{Cost};
ghost use Rattle.regress_program.specs.Program.{Out};
ghost use Rattle.regress_backtrack.specs.Costs.{HasCost, points_cost};
ghost use Rattle.regress_backtrack.specs.Machine.{Groups, at, groups_of, points, rewound};
ghost use Rattle.regress_found.specs.declared.fault.MemoryFault.TheVariants.{TooMuchMemory};
ghost use Rattle.regress_backtrack.specs.Memory.{AreWithin, entry_count};
ghost use Rattle.regress_backtrack.specs.Next.{Fails, Inside, IsInput, Solve, instructions_in};
ghost use Rattle.regress_backtrack.specs.Sweep.{IsSwept};
ghost use Rattle.regress_leaves.specs.Starts.{AreIn};

use crate::alternatives::{Looping, fails, skip};
use crate::input::{Input, is_possessive, leaf_at, repeats_at, test_at};
use crate::machine::{Machine, Place};
use regress_base::bytesearch::ByteBitmap;
use regress_found::MemoryFault;
use regress_leaves::ascii::count_of;
use regress_leaves::start::Start;

/// A loop over a leaf that matches one character.
#[derive(Clone, Copy)]
pub(crate) struct Swept<'c> {
    /// The ASCII characters that the leaf matches.
    pub(crate) set: &'c ByteBitmap,
    /// The instruction that ends an iteration, and begins another one or goes on after the loop.
    pub(crate) repeat_pc: usize,
}

/// Consumes the ASCII characters at a place at once, if the body of a greedy loop is a leaf that matches one character.
/// Each is an iteration, and what follows the loop is tried after each of them, the last one first. Returns where the run
/// goes on after the last iteration, or `None` if there is none, where nothing has changed.
///
/// Where the next bytes of what follows exclude the characters of the loop, what follows fails before each of them, and
/// no backtrack point is added. At the start of the text one is, since next bytes say nothing there.
///
/// # Preconditions
/// The loop is greedy, its body and what follows are inside the routine, and the position is inside the text.
///
/// # Complexity
/// It subtracts from `remaining` the number of characters that it consumes.
///
/// # Errors
/// Returns [`MemoryFault`] if an allocation fails, or if the stack would need more room than the input allows.
#[inline(always)]
pub fn sweep(
    input: &Input<'_, '_>,
    looping: Looping,
    here: Place,
    machine: &mut Machine,
    remaining: &mut u64,
) -> Result<Option<Place>, MemoryFault>
    requires input { IsInput input.now }
    requires body { looping.body < length (instructions_in input.now) }
    requires next { looping.next < length (instructions_in input.now) }
    requires position { here.position ≤ length input.now.text.now }
    requires greedy { looping.greedy ≡ true }
    ensures leads { IfOk result (λ found. MatchOption found (machine.new ≡ machine.old)
        (λ to. (outs : ℕ → Out) → Solve input.now outs → (let out = outs input.now.index in
        let again : Place = record { pc = looping.body; moved = false; position = here.position } in
        let after : Place = record here { pc = looping.next } in
        (out (at again (groups_of machine.old)) ++ out (at after (groups_of machine.old))) ++ flat_map out (points machine.old)
        ≡ flat_map out (at to (groups_of machine.new) ∷ points machine.new)))) }
    ensures inside { IfOk result (λ found. IfSome found (λ to.
        All (Inside input.now) (points machine.old) → All (Inside input.now) (at to (groups_of machine.new) ∷ points machine.new))) }
    ensures rewound { IfOk result (λ _. rewound machine.new ≡ rewound machine.old) }
    ensures remaining { IfOk result (λ _. remaining.new ≤ remaining.old) }
    ensures costs { IfOk result (λ found. MatchOption found (remaining.new ≡ remaining.old)
        (λ to. (outs : ℕ → Out) (costs : ℕ → Cost) → HasCost input.now outs costs → (let cost = costs input.now.index in
        let again : Place = record { pc = looping.body; moved = false; position = here.position } in
        let after : Place = record here { pc = looping.next } in
        remaining.old + (cost (at to (groups_of machine.new)) + points_cost cost machine.new)
        ≤ remaining.new + ((cost (at again (groups_of machine.old)) + cost (at after (groups_of machine.old))) + points_cost cost machine.old)))) }
    ensures grows { IfOk result (λ _. entry_count machine.new ≤ entry_count machine.old + 1) }
    ensures within { AreWithin input.now.room machine.old → AreWithin input.now.room machine.new }
    ensures too_much { IfErr result (λ fault. fault ≡ TooMuchMemory → input.now.room ≤ entry_count machine.old) }
{
    let Some(swept) = sole_leaf(input, looping) else {
        return Ok(None);
    };
    let count = count_of(input.text, swept.set, here.position);
    if count == 0 {
        return Ok(None);
    }
    let after = Place {
        pc: looping.next,
        ..here
    };
    let end = Place {
        pc: swept.repeat_pc,
        moved: true,
        position: here.position + count,
    };
    let to = leave(input, swept, looping, end);
    *remaining = remaining.saturating_sub(count as u64);
    if here.position > 0 && is_possessive(input, swept.repeat_pc) {
        return Ok(Some(to));
    }
    let more = points_kept(input, swept, looping, to, after, count - 1);
    machine.choose_range(after, more, input.room)?;
    Ok(Some(to))
}

/// Returns how many of the `more` positions after the place `first` are kept as backtrack points, if the run goes on at
/// `to`. If it is known to fail there, the last positions at which it is known to fail, too, are left out. All are left
/// out where the next bytes of what follows the loop exclude its characters.
///
/// # Preconditions
/// The routines are a program, the leaf of the loop matches each character from the place `first` to the last position,
/// what follows the loop is at this place, and the last position is at most `usize::MAX`.
#[inline(always)]
fn points_kept(
    input: &Input<'_, '_>,
    swept: Swept<'_>,
    looping: Looping,
    to: Place,
    first: Place,
    more: usize,
) -> usize
    requires input { IsInput input.now }
    requires swept { IsSwept input.now looping swept.set.now swept.repeat_pc }
    requires follows { first.pc ≡ looping.next }
    requires are_in { AreIn swept.set.now input.now.text.now first.position (more + 1) }
    requires last { first.position + more ≤ usize.MAX }
    ensures within { result ≤ more }
    ensures fails { (k : ℕ) → result < k → k ≤ more →
        Fails input.now (record { pc = first.pc; moved = true; position = first.position + k }) }
{
    if is_possessive(input, swept.repeat_pc) {
        return 0;
    }
    if fails(input, to) {
        points_that_may_match(input, first, more)
    } else {
        more
    }
}

/// Returns how many of the `more` positions after the place `first` are left without the last ones at which a run is known
/// to fail.
///
/// # Preconditions
/// The routines are a program, and the last position is at most `usize::MAX`.
#[inline(always)]
pub(crate) fn points_that_may_match(input: &Input<'_, '_>, first: Place, more: usize) -> usize
    requires input { IsInput input.now }
    requires last { first.position + more ≤ usize.MAX }
    ensures within { result ≤ more }
    ensures fails { (k : ℕ) → result < k → k ≤ more →
        Fails input.now (record { pc = first.pc; moved = true; position = first.position + k }) }
{
    let mut kept = more;
    while kept > 0 && fails_after(input, first, kept) {
        kept -= 1;
    }
    kept
}

/// Returns whether a run is known to fail at the instruction of a place, `more` bytes after it.
///
/// # Preconditions
/// The routines are a program, and the position is at most `usize::MAX`.
#[inline(always)]
fn fails_after(input: &Input<'_, '_>, first: Place, more: usize) -> bool
    requires input { IsInput input.now }
    requires position { first.position + more ≤ usize.MAX }
    ensures { result ≡ true → Fails input.now (record { pc = first.pc; moved = true; position = first.position + more }) }
{
    let place = Place {
        pc: first.pc,
        moved: true,
        position: first.position + more,
    };
    fails(input, place)
}

/// Leaves a loop at the end of an iteration, if another one is known to fail there.
///
/// # Preconditions
/// The place is at the end of an iteration, which has advanced, and the body and what follows are inside the
/// routine.
#[inline(always)]
fn leave(input: &Input<'_, '_>, swept: Swept<'_>, looping: Looping, to: Place) -> Place
    requires input { IsInput input.now }
    requires swept { IsSwept input.now looping swept.set.now swept.repeat_pc }
    requires body { looping.body < length (instructions_in input.now) }
    requires next { looping.next < length (instructions_in input.now) }
    requires pc { to.pc ≡ swept.repeat_pc }
    requires moved { to.moved ≡ true }
    requires position { to.position ≤ length input.now.text.now }
    ensures pc { result.pc < length (instructions_in input.now) }
    ensures position { result.position ≡ to.position }
    ensures same { (outs : ℕ → Out) (g : Groups) → Solve input.now outs → outs input.now.index (at result g) ≡ outs input.now.index (at to g) }
    ensures costs { (outs : ℕ → Out) (costs : ℕ → Cost) (g : Groups) → HasCost input.now outs costs →
        costs input.now.index (at result g) ≤ costs input.now.index (at to g) }
{
    let again = Place {
        pc: looping.body,
        moved: false,
        position: to.position,
    };
    if fails(input, again) {
        let after = Place {
            pc: looping.next,
            ..to
        };
        skip(input, after)
    } else {
        to
    }
}

/// Returns the leaf of a loop and the end of an iteration, if the body is a leaf that matches one character forwards.
///
/// # Preconditions
/// The input is one that `input_for` returns, and the body is inside the routine.
#[inline(always)]
pub(crate) fn sole_leaf<'c>(input: &Input<'c, '_>, looping: Looping) -> Option<Swept<'c>>
    requires input { IsInput input.now }
    requires body { looping.body < length (instructions_in input.now) }
    ensures { IfSome result (λ s. IsSwept input.now looping s.set.now s.repeat_pc) }
{
    if input.rules.backwards {
        return None;
    }
    let (leaf, repeat_pc) = leaf_at(input, looping.body)?;
    if !repeats_at(input, repeat_pc, looping.body, looping.next) {
        return None;
    }
    match &test_at(input, leaf)?.start {
        Start::Ascii(set) => Some(Swept { set, repeat_pc }),
        _ => None,
    }
}
