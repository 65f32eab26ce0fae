//! Complements.
ghost use Rattle.std.specs.Prelude.{◌≡◌, ℕ, List, length, IfOk};
ghost use Rattle.regress_base.specs.Intervals.{Bounds, IsCanonical, IsComplement};

use super::CodePointSet;
use crate::interval::{CODE_POINT_MAX, Interval};
use std::alloc::{AllocError, Global};

impl CodePointSet {
    /// Returns the number of intervals of the complement, which [`inverted`](CodePointSet::inverted) returns: one
    /// between every two neighbors, and one at either end of the code points that is no member.
    ///
    /// # Complexity
    /// Constant.
    pub fn inverted_interval_count(&self) -> usize
        ensures { (gaps : List Bounds)
            × IsCanonical gaps × IsComplement self.now gaps × (result ≡ length gaps) }
    {
        let ivs = self.intervals();
        match (ivs.first(), ivs.last()) {
            (Some(first), Some(last)) => {
                ivs.len() - 1
                    + usize::from(first.first() > 0)
                    + usize::from(last.last() < CODE_POINT_MAX)
            }
            _ => 1,
        }
    }

    /// Returns the complement: the code points up to [`CODE_POINT_MAX`] that are not members.
    ///
    /// # Errors
    /// Returns [`AllocError`] if an allocation fails.
    ///
    /// # Complexity
    /// Linear in the number of intervals.
    ///
    /// # Examples
    /// ```
    /// let mut set = CodePointSet::new(alloc);
    /// set.add(Interval::new(0, 0x60))?;
    /// let inverted = set.inverted()?;
    /// assert_eq!(rt;
    ///     inverted.intervals(),
    ///     [Interval::new(0x61, 0x10FFFF)].as_slice()
    /// );
    /// ```
    #[must_use]
    pub fn inverted(&self) -> Result<CodePointSet, AllocError>
        ensures members { IfOk result (λ set. IsComplement self.now set) }
        ensures canonical { IfOk result IsCanonical }
        ensures twice { IfOk result (λ set. (back : List Bounds) →
            IsCanonical back → IsComplement set back → back ≡ self.now) }
    {
        let ivs = gaps(*self.ivs.allocator(), &self.ivs)?;
        Ok(CodePointSet::from_sorted_disjoint_intervals(ivs))
    }
}

/// Returns the intervals before, between and after `ivs`.
pub(super) fn gaps(alloc: Global, ivs: &[Interval]) -> Result<Vec<Interval>, AllocError>
    requires { IsCanonical ivs.now }
    ensures members { IfOk result (λ gaps. IsComplement ivs.now gaps.items) }
    ensures canonical { IfOk result (λ gaps. IsCanonical gaps.items) }
{
    let mut gaps = Vec::with_capacity(alloc, ivs.len() + 1)?;
    let mut start = 0;
    for iv in ivs {
        if start < iv.first() {
            gaps.push(Interval::new(start, iv.first() - 1))?;
        }
        start = iv.last() + 1;
    }
    if start <= CODE_POINT_MAX {
        gaps.push(Interval::new(start, CODE_POINT_MAX))?;
    }
    Ok(gaps)
}
