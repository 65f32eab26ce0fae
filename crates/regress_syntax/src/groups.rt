//! The capture groups of a pattern.
ghost use Rattle.std.specs.Prelude.{◌≡◌};
ghost use Rattle.regress_syntax.specs.Numbering.{names_of, AreSortedByName};
ghost use Rattle.regress_syntax.specs.Productions.{has_names};
ghost use Rattle.std.proofs.Props.{props};

mod named;

use crate::names::Name;

/// The capture groups of a whole pattern, with their names.
#[derive(Drop)]
pub struct Groups {
    /// The number of groups; `u16::MAX` if there are more.
    pub(crate) count: u16,
    /// The name of each group, in the order of the opening parentheses; `None` for a group without a name.
    pub(crate) names: Vec<Option<Name>>,
    /// Whether some group has a name.
    named: bool,
    /// The numbers, from 1, of the groups that have names: sorted by name, and ascending for equal names.
    sorted: Vec<u32>,
    ghost reported: { named ≡ has_names (names_of names.items) } by { Prim.hlevel props },
    ghost by_name: { AreSortedByName (names_of names.items) sorted.items } by { Prim.hlevel props },
}

impl Groups {
    /// Returns the number of capture groups, or `u16::MAX` if there are more.
    pub fn count(&self) -> u16
        ensures { result ≡ self.now.count }
    {
        self.count
    }
}
