//! Helpers for sets of code points that several crates share.
ghost use Rattle.std.specs.Prelude.{◌≡◌, ◌↔◌, ◌||◌, ◌≤◌, ℕ, All, IsTrue, OnOk, nat_le};
ghost use Rattle.std.specs.List.{list_all};
ghost use Rattle.regress_base.specs.Intervals.{code_point_max, is_member, IsCanonical};

use crate::codepointset::{CODE_POINT_MAX, CodePointSet, Interval};
use std::alloc::AllocError;

/// Adds the code points of `intervals`, which may be in any order, to `set`.
///
/// # Errors
/// Returns [`AllocError`] if an allocation fails. The intervals before the one that failed have been added.
pub fn add_intervals(set: &mut CodePointSet, intervals: &[Interval]) -> Result<(), AllocError>
    ensures { OnOk result ((c : ℕ) →
        is_member set.new c ≡ (is_member set.old c || is_member intervals.now c)) }
{
    for interval in intervals {
        set.add(*interval)?;
    }
    Ok(())
}

/// Returns whether every number is a code point, at most [`CODE_POINT_MAX`].
pub fn are_code_points(numbers: &[u32]) -> bool
    ensures tested { result ≡ list_all (λ c. nat_le c code_point_max) numbers.now }
    ensures all { IsTrue result ↔ All (λ c. c ≤ code_point_max) numbers.now }
{
    numbers.iter().all(|c| *c <= CODE_POINT_MAX)
}

/// States that the intervals of `set` are canonical, which its type guarantees.
///
/// The function has no effect: a function whose proof needs the fact calls it.
pub fn set_is_canonical(set: &CodePointSet)
    ensures { IsCanonical set.now }
{
    let _ = set.intervals();
}
