//! The contents of a bracket.
ghost use Rattle.std.specs.Prelude.{◌≡◌, ℕ, ◌≤◌, ◌↔◌, false, IsTrue, IfOk};

use crate::codepointset::CodePointSet;
use std::alloc::{AllocError, Global};

/// The contents of a bracket `[..]`: it accepts a code point if exactly one of `invert` and membership in `cps` holds.
#[derive(Debug, Drop)]
pub struct BracketContents {
    /// Whether the bracket accepts the code points outside `cps`, as `[^a]` does.
    pub invert: bool,
    /// The code points that the pattern lists.
    pub cps: CodePointSet,
}

impl BracketContents {
    ghost use Rattle.regress_base.specs.Brackets.{accepts};
    ghost use Rattle.regress_base.specs.Intervals.{code_point_max};

    /// Returns whether the bracket accepts no code point.
    ///
    /// # Complexity
    /// Constant.
    pub fn is_empty(&self) -> bool
        ensures { IsTrue result ↔ ((c : ℕ) → c ≤ code_point_max → accepts self.now c ≡ false) }
    {
        if self.invert {
            self.cps.contains_all_codepoints()
        } else {
            self.cps.is_empty()
        }
    }

    /// Returns equal contents with memory of their own from `alloc`.
    ///
    /// # Errors
    /// Returns [`AllocError`] if an allocation fails.
    pub fn try_clone(&self, alloc: Global) -> Result<BracketContents, AllocError>
        ensures { IfOk result (λ contents. contents ≡ self.now) }
    {
        Ok(BracketContents {
            invert: self.invert,
            cps: self.cps.try_clone(alloc)?,
        })
    }
}
