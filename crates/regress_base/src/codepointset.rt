//! Sets of code points, each kept as the canonical list of its intervals.
ghost use Rattle.std.specs.Prelude.{◌≡◌, ℕ, ◌≤◌, ◌↔◌, true, false, IsTrue, IfOk, []};
ghost use Rattle.regress_base.specs.Intervals.{is_member, IsCanonical};

pub use crate::interval::{CODE_POINT_MAX, CodePoint, Interval};
pub use canonical::{canonical_form_is_unique, is_canonical};
use std::alloc::{AllocError, Global};
use std::marker::Model;

mod add;
mod canonical;
mod combine;
mod invert;

/// A set of code points.
///
/// Its intervals ascend, and between neighbors at least one code point is missing, so that sets with the same members
/// have the same intervals (ECMA-262, CharSet).
#[derive(Debug, Drop)]
pub struct CodePointSet {
    ivs: Vec<Interval>,
}

impl Model for CodePointSet {
    ghost use Rattle.std.specs.Prelude.{List};
    ghost use Rattle.regress_base.specs.Intervals.{Bounds, IsCanonical};

    ghost Value = { List Bounds };

    ghost view = { λ set. set.ivs.items };

    ghost invariant = { λ set. IsCanonical set.ivs.items };
}

impl CodePointSet {
    /// Returns the empty set. Nothing is allocated before a member is added.
    pub fn new(alloc: Global) -> CodePointSet
        ensures { result ≡ [] }
    {
        CodePointSet {
            ivs: Vec::new(alloc),
        }
    }

    /// Returns the set with exactly these intervals.
    ///
    /// # Preconditions
    /// `ivs` is canonical, as [`is_canonical`] tests.
    pub fn from_sorted_disjoint_intervals(ivs: Vec<Interval>) -> CodePointSet
        requires { IsCanonical ivs.items }
        ensures { result ≡ ivs.items }
    {
        CodePointSet { ivs }
    }

    /// Returns an equal set with memory of its own from `alloc`.
    ///
    /// # Errors
    /// Returns [`AllocError`] if an allocation fails.
    pub fn try_clone(&self, alloc: Global) -> Result<CodePointSet, AllocError>
        ensures { IfOk result (λ set. set ≡ self.now) }
    {
        Ok(CodePointSet {
            ivs: Vec::from_slice(alloc, &self.ivs)?,
        })
    }

    /// Returns whether `cp` is a member.
    ///
    /// # Complexity
    /// A binary search: logarithmic in the number of intervals.
    pub fn contains(&self, cp: u32) -> bool
        ensures { result ≡ is_member self.now cp }
    {
        canonical::contains(&self.ivs, cp)
    }

    /// Returns whether the set has no member.
    pub fn is_empty(&self) -> bool
        ensures intervals { IsTrue result ↔ (self.now ≡ []) }
        ensures members { IsTrue result ↔
            ((c : ℕ) → c ≤ CODE_POINT_MAX → is_member self.now c ≡ false) }
    {
        self.ivs.is_empty()
    }

    /// Returns whether every code point is a member.
    ///
    /// # Complexity
    /// Constant.
    pub(crate) fn contains_all_codepoints(&self) -> bool
        ensures { IsTrue result ↔ ((c : ℕ) → c ≤ CODE_POINT_MAX → is_member self.now c ≡ true) }
    {
        self.intervals() == [Interval::new(0, CODE_POINT_MAX)].as_slice()
    }

    /// Returns the intervals of the set, ascending. They are canonical, as [`is_canonical`] tests.
    pub fn intervals(&self) -> &[Interval]
        ensures value { result.now ≡ self.now }
        ensures canonical { IsCanonical result.now }
    {
        self.ivs.as_slice()
    }
}
