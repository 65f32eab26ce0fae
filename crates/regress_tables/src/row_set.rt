//! Sets of rows.
ghost use Rattle.std.specs.Prelude.{◌≡◌, ℕ, ◌⊎◌, true};
ghost use Rattle.regress_tables.specs.RowSets.{Has};

use crate::words::with_bit;

/// A set of numbers of rows, with none from 64 on.
#[derive(Clone, Copy)]
pub struct RowSet {
    members: u64,
}

impl RowSet {
    /// Returns a set without a row.
    pub(crate) fn new() -> RowSet
        ensures { (number : ℕ) → Has result number → ⊥ }
    {
        RowSet { members: 0 }
    }

    /// Returns whether the set has a number.
    #[inline(always)]
    pub(crate) fn contains(self, number: usize) -> bool
        ensures { result ≡ true → Has self number }
    {
        number < 64 && (self.members >> number) & 1 == 1
    }

    /// Adds a number below 64.
    pub(crate) fn insert(&mut self, number: usize)
        ensures { (k : ℕ) → Has self.new k → Has self.old k ⊎ (k ≡ number) }
    {
        if number < 64 {
            self.members = with_bit(self.members, number, true);
        }
    }
}
