//! Sets from the ends of their intervals.
ghost use Rattle.std.specs.Prelude.{◌≡◌, All, IfOk, IsTrue};
ghost use Rattle.regress_base.specs.Intervals.{IsCanonical, IsInterval};
ghost use Rattle.regress_properties.specs.Listed.{paired, set_at, is_set_at};

use regress_base::codepointset::{CodePointSet, Interval};
use std::alloc::{AllocError, Global};

/// Returns the set in the half-open range from `from` to `to` of `ends`, where the first and last code points of its
/// intervals alternate.
pub(super) fn set_at(
    alloc: Global,
    ends: &[u32],
    from: usize,
    to: usize,
) -> Result<CodePointSet, AllocError>
    requires { IsTrue (is_set_at ends.now from to) }
    ensures { IfOk result (λ set. set ≡ set_at ends.now from to) }
{
    set(alloc, &ends[from..to])
}

/// Returns the set with these intervals.
#[tactic(auto, using(crate::proofs::ListedLemmas::canonical_intervals))]
fn set(alloc: Global, ends: &[u32]) -> Result<CodePointSet, AllocError>
    requires { IsCanonical (paired ends.now) }
    ensures { IfOk result (λ set. set ≡ paired ends.now) }
{
    let intervals = intervals(alloc, ends)?;
    Ok(CodePointSet::from_sorted_disjoint_intervals(intervals))
}

/// Returns the intervals whose first and last code points alternate in `ends`.
fn intervals(alloc: Global, ends: &[u32]) -> Result<Vec<Interval>, AllocError>
    requires { All IsInterval (paired ends.now) }
    ensures { IfOk result (λ intervals. intervals.items ≡ paired ends.now) }
{
    let count = ends.len() / 2;
    let mut intervals = Vec::with_capacity(alloc, count)?;
    for index in 0..count {
        intervals.push_reserved(Interval::new(ends[2 * index], ends[2 * index + 1]));
    }
    Ok(intervals)
}
