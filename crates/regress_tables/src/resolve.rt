//! The captures that lookarounds set.
ghost use Rattle.std.specs.Prelude.{◌≡◌, ◌≤◌, ◌<◌, ◌+◌, ◌*◌, ℕ, IfOk, None, Option, Some, length, slice_get, take};
ghost use Rattle.regress_program.specs.Compiled.{total};
ghost use Rattle.regress_tables.specs.Searchable.{AreFound, AreResolved, AreTaken, IsSearchable, program_in, width_at};
ghost use Rattle.regress_tables.specs.Slots.{AreInside};
ghost use Rattle.regress_tables.specs.declared.slots.Slot.TheVariants.{Inside};

use crate::filled::Filled;
use crate::first::first_outcome;
use crate::slots::{Slot, unset_slots};
use std::alloc::{AllocError, Global};

/// Finds what lookarounds of the first `routines` routines have captured, and adds the number of steps to `steps`.
///
/// A lookaround has set all groups of its routine at once, so each routine is run once, and after those that refer to it.
///
/// # Errors
/// Returns [`AllocError`] if an allocation fails.
pub(crate) fn resolve(
    alloc: Global,
    filled: Filled<'_, '_>,
    routines: usize,
    slots: &mut Vec<Slot>,
    steps: &mut u64,
) -> Result<(), AllocError>
    requires searchable { IsSearchable filled }
    requires routines { routines ≤ length (program_in filled) }
    requires inside { AreInside routines (length filled.input.text.now) filled.inner slots.old.items }
    ensures resolved { IfOk result (λ _. AreResolved filled.entry 0 slots.old.items slots.new.items) }
    ensures steps { IfOk result (λ _. steps.new ≤ steps.old + 2 * total (take routines (program_in filled.entry)) * filled.entry.inner * (length filled.entry.input.text.now + 1)) }
{
    for routine in (0..routines).rev() {
        resolve_routine(alloc, filled, routine, slots, steps)?;
    }
    Ok(())
}

/// Finds what the lookaround of one routine has captured. No later routine has set a group.
///
/// # Errors
/// Returns [`AllocError`] if an allocation fails.
fn resolve_routine(
    alloc: Global,
    filled: Filled<'_, '_>,
    routine: usize,
    slots: &mut Vec<Slot>,
    steps: &mut u64,
) -> Result<(), AllocError>
    requires searchable { IsSearchable filled }
    requires routine { routine < length (program_in filled) }
    requires inside { AreInside (routine + 1) (length filled.input.text.now) filled.inner slots.old.items }
    ensures resolved { IfOk result (λ _. AreResolved filled.entry routine slots.old.items slots.new.items) }
    ensures steps { IfOk result (λ _. steps.new ≤ steps.old + 2 * width_at (program_in filled.entry) routine * filled.entry.inner * (length filled.entry.input.text.now + 1)) }
{
    for id in 0..filled.inner {
        if let Some(position) = set_from(slots, id, routine) {
            let found = slots_from(alloc, filled, routine, position, slots.len(), steps)?;
            take_slots(slots, routine, position, &found);
        }
    }
    Ok(())
}

/// Returns the slots of the groups after the first outcome of a routine from a position, with all groups unset.
///
/// # Errors
/// Returns [`AllocError`] if an allocation fails.
fn slots_from(
    alloc: Global,
    filled: Filled<'_, '_>,
    routine: usize,
    position: usize,
    groups: usize,
    steps: &mut u64,
) -> Result<Vec<Slot>, AllocError>
    requires searchable { IsSearchable filled }
    requires routine { routine < length (program_in filled) }
    requires position { position ≤ length filled.input.text.now }
    ensures count { IfOk result (λ slots. length slots.items ≡ groups) }
    ensures found { IfOk result (λ slots. AreFound filled.entry routine position slots.items) }
    ensures steps { IfOk result (λ _. steps.new ≤ steps.old + 2 * width_at (program_in filled.entry) routine * (length filled.entry.input.text.now + 1)) }
{
    match first_outcome(alloc, filled, routine, position, groups, steps)? {
        Some(first) => Ok(first.slots),
        None => unset_slots(alloc, groups),
    }
}

/// Returns the position from which the routine has set a group, or `None` if it has not.
fn set_from(slots: &[Slot], id: usize, routine: usize) -> Option<usize>
    ensures some { (position : ℕ) → result ≡ Some position → slice_get slots.now id ≡ Some (Inside routine position) }
    ensures none { result ≡ None → (position : ℕ) → slice_get slots.now id ≡ Some (Inside routine position) → ⊥ }
{
    if id >= slots.len() {
        return None;
    }
    match slots[id] {
        Slot::Inside {
            routine: other,
            position,
        } if other == routine => Some(position),
        _ => None,
    }
}

/// Takes the slots of `found` for the groups that the routine has set from a position.
fn take_slots(slots: &mut Vec<Slot>, routine: usize, position: usize, found: &[Slot])
    requires { length found.now ≡ length slots.old.items }
    ensures { AreTaken routine position found.now slots.old.items slots.new.items }
{
    for id in 0..slots.len() {
        if set_from(slots, id, routine) == Some(position) {
            slots[id] = found[id];
        }
    }
}
