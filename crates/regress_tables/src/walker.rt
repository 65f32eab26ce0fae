//! The state of a walk through the instructions of the first outcome.
ghost use Rattle.std.specs.Prelude.{◌≡◌, ◌<◌, ◌≤◌, ◌∷◌, ℕ, IfOk, MatchOption, Option, Some, false, slice_set, true};
ghost use Rattle.regress_tree.specs.Repetition.{unset, unset_from};
ghost use Rattle.regress_tree.specs.Steps.{CaptureSpan};
ghost use Rattle.regress_program.specs.Program.{ended, goto, reach};
ghost use Rattle.regress_tables.specs.Slots.{resolved};
ghost use Rattle.regress_tables.specs.Walked.{OneSpan, SetInside, SlotsSet, UnsetSlots, alternative, at_of, chosen};

use crate::slots::Slot;
use crate::table::Table;
use regress_program::ranges::GroupRange;
use std::alloc::AllocError;

/// Where a walk is.
#[derive(Drop)]
pub struct Walker {
    /// The index of the instruction.
    pub pc: usize,
    /// Whether the innermost open iteration has advanced.
    pub moved: bool,
    /// The position.
    pub position: usize,
    /// What is known of the capture of each group by its id.
    pub slots: Vec<Slot>,
    /// Where the open groups began, the innermost last.
    pub begins: Vec<usize>,
}

impl Walker {
    /// Goes on from where a part ends. Returns false if it fails.
    pub(crate) fn reach(&mut self, next: usize, to: Option<usize>) -> bool
        ensures at { (capture_of : ℕ → ℕ → ℕ → Option CaptureSpan) → MatchOption to (result ≡ false)
            (λ q. (result ≡ true) × (let a = at_of capture_of self.old in at_of capture_of self.new ≡ reach next a (record { position = q; captures = a.state.captures }))) }
        ensures slots { self.new.slots.items ≡ self.old.slots.items }
    {
        match to {
            None => false,
            Some(position) => {
                self.moved = self.moved | (position != self.position);
                self.position = position;
                self.pc = next;
                true
            }
        }
    }

    /// Goes to the start of an iteration, or to what follows the loop, if that is preferred or the other fails.
    pub(crate) fn choose(&mut self, table: &Table, greedy: bool, body: usize, next: usize)
        requires body { body < table.now.width }
        requires next { next < table.now.width }
        requires position { self.old.position ≤ table.now.length }
        ensures at { (capture_of : ℕ → ℕ → ℕ → Option CaptureSpan) → at_of capture_of self.new ≡ chosen table.now greedy body next (at_of capture_of self.old) }
        ensures slots { self.new.slots.items ≡ self.old.slots.items }
    {
        let iterates = if greedy {
            table.cell(body, false, self.position)
        } else {
            !table.cell(next, self.moved, self.position)
        };
        if iterates {
            self.pc = body;
            self.moved = false;
        } else {
            self.pc = next;
        }
    }

    /// Goes to the first alternative, or to the second if the first fails.
    pub(crate) fn split(&mut self, table: &Table, first: usize, second: usize)
        requires first { first < table.now.width }
        requires position { self.old.position ≤ table.now.length }
        ensures at { (capture_of : ℕ → ℕ → ℕ → Option CaptureSpan) → (let a = at_of capture_of self.old in at_of capture_of self.new ≡ goto (alternative table.now first second a) a) }
        ensures slots { self.new.slots.items ≡ self.old.slots.items }
    {
        let holds = table.cell(first, self.moved, self.position);
        self.pc = if holds { first } else { second };
    }

    /// Begins an iteration, which unsets the groups `start` to `end - 1`.
    pub(crate) fn begin_iteration(&mut self, start: usize, end: usize, next: usize)
        ensures at { (capture_of : ℕ → ℕ → ℕ → Option CaptureSpan) → (let a = at_of capture_of self.old in at_of capture_of self.new ≡ record a { pc = next; state = unset start end a.state }) }
        ensures slots { UnsetSlots start end self.old.slots.items self.new.slots.items }
    {
        unset(&mut self.slots, start, end);
        self.pc = next;
    }

    /// Begins a capture group.
    pub(crate) fn begin_group(&mut self, next: usize) -> Result<(), AllocError>
        ensures at { IfOk result (λ _. (capture_of : ℕ → ℕ → ℕ → Option CaptureSpan) → (let a = at_of capture_of self.old in at_of capture_of self.new ≡ record a { pc = next; begins = a.state.position ∷ a.begins })) }
        ensures slots { self.new.slots.items ≡ self.old.slots.items }
    {
        self.begins.push(self.position)?;
        self.pc = next;
        Ok(())
    }

    /// Ends the innermost open group, and sets the capture of the group `id`.
    pub(crate) fn end_group(&mut self, id: u16, next: usize)
        ensures at { (capture_of : ℕ → ℕ → ℕ → Option CaptureSpan) → (let a = at_of capture_of self.old in at_of capture_of self.new ≡ ended id next a a.begins) }
        ensures slots { OneSpan id self.old.slots.items self.new.slots.items }
    {
        let from = match self.begins.pop() {
            Some(from) => from,
            None => self.position,
        };
        let to = self.position;
        set_span(&mut self.slots, usize::from(id), from.min(to), from.max(to));
        self.pc = next;
    }

    /// Goes on after a lookaround that holds, whose body is this routine and changes these groups.
    pub(crate) fn pass(&mut self, routine: usize, range: GroupRange, next: usize)
        ensures pc { self.new.pc ≡ next }
        ensures moved { self.new.moved ≡ self.old.moved }
        ensures position { self.new.position ≡ self.old.position }
        ensures begins { self.new.begins ≡ self.old.begins }
        ensures slots { SetInside range routine self.old.position self.old.slots.items self.new.slots.items }
    {
        let position = self.position;
        set_slots(&mut self.slots, range, Slot::Inside { routine, position });
        self.pc = next;
    }
}

/// Unsets the groups `start` to `end - 1`.
fn unset(slots: &mut Vec<Slot>, start: usize, end: usize)
    ensures resolved { (capture_of : ℕ → ℕ → ℕ → Option CaptureSpan) → resolved capture_of slots.new.items ≡ unset_from 0 start end (resolved capture_of slots.old.items) }
    ensures slots { UnsetSlots start end slots.old.items slots.new.items }
{
    set_slots(slots, GroupRange { start, end }, Slot::Unset);
}

/// Sets the capture of the group `id`, if there is one.
fn set_span(slots: &mut Vec<Slot>, id: usize, from: usize, to: usize)
    ensures resolved { (capture_of : ℕ → ℕ → ℕ → Option CaptureSpan) → resolved capture_of slots.new.items ≡ slice_set (resolved capture_of slots.old.items) id (Some (from, to)) }
    ensures slots { OneSpan id slots.old.items slots.new.items }
{
    if id < slots.len() {
        slots[id] = Slot::Span(from, to);
    }
}

/// Sets the slots of the groups in a range.
fn set_slots(slots: &mut Vec<Slot>, range: GroupRange, slot: Slot)
    ensures { SlotsSet range slot slots.old.items slots.new.items }
{
    let after = range.end.min(slots.len());
    for id in range.start..after {
        slots[id] = slot;
    }
}
