//! What a walk knows of captures.
ghost use Rattle.std.specs.Prelude.{◌≡◌, ◌<◌, ◌^◌, ℕ, IfOk, Option, length, replicate};
ghost use Rattle.regress_tree.specs.Steps.{CaptureSpan};
ghost use Rattle.regress_tables.specs.Slots.{AreInside, resolved, value};
ghost use Rattle.regress_tables.specs.declared.slots.Slot.TheVariants.{Inside, Unset};

use std::alloc::{AllocError, Global};

/// What a walk knows of the capture of a group.
#[derive(Clone, Copy)]
pub enum Slot {
    /// The group is unset.
    Unset,
    /// The group has captured this span.
    Span(usize, usize),
    /// A lookaround has set the group: its capture is that of the first outcome of the body from a position.
    Inside {
        /// The index of the routine of the body.
        routine: usize,
        /// The position.
        position: usize,
    },
}

/// Returns the slots of `count` groups, all unset.
///
/// # Errors
/// Returns [`AllocError`] if an allocation fails.
pub(crate) fn unset_slots(alloc: Global, count: usize) -> Result<Vec<Slot>, AllocError>
    ensures items { IfOk result (λ slots. slots.items ≡ replicate count Unset) }
    ensures room { IfOk result (λ _. count < 2 ^ 63) }
{
    let mut slots = Vec::new(alloc);
    while slots.len() < count {
        slots.push(Slot::Unset)?;
    }
    Ok(slots)
}

/// Returns the captures of groups that no lookaround has set.
///
/// # Errors
/// Returns [`AllocError`] if an allocation fails.
pub(crate) fn captures_of(
    alloc: Global,
    slots: &[Slot],
) -> Result<Vec<Option<(usize, usize)>>, AllocError>
    requires { (n inner : ℕ) × AreInside 0 n inner slots.now }
    ensures { IfOk result (λ captures. (capture_of : ℕ → ℕ → ℕ → Option CaptureSpan) → captures.items ≡ resolved capture_of slots.now) }
{
    let mut captures = Vec::with_capacity(alloc, slots.len())?;
    for slot in slots {
        captures.push(span_of(*slot))?;
    }
    Ok(captures)
}

/// Returns the capture of a group that no lookaround has set.
fn span_of(slot: Slot) -> Option<(usize, usize)>
    ensures { (capture_of : ℕ → ℕ → ℕ → Option CaptureSpan) → (id : ℕ) → ((routine position : ℕ) → slot ≡ Inside routine position → ⊥) →
        result ≡ value capture_of id slot }
{
    match slot {
        Slot::Span(from, to) => Some((from, to)),
        Slot::Unset | Slot::Inside { .. } => None,
    }
}
