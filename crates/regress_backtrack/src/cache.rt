//! Memory that is kept from one search to the next.
ghost use Rattle.std.specs.Prelude.{ℕ};
ghost use Rattle.regress_backtrack.specs.Memory.{IsWithin};

use crate::machine::Machine;
use regress_found::Match;
use std::alloc::Global;

/// The memory of a search: its captures and its backtrack stacks. It may serve searches with any programs in any texts,
/// one after the other, and keeps what the largest of them needed. No result depends on what it was used for before.
#[derive(Drop)]
pub struct Cache {
    pub(crate) machine: Machine,
}

impl Cache {
    /// Returns an empty cache. It allocates nothing.
    pub fn new(alloc: Global) -> Cache
        ensures within { (room : ℕ) → IsWithin room result }
    {
        Cache {
            machine: Machine::new(alloc),
        }
    }

    /// Takes the memory of a match, for the captures of the next one.
    pub fn recycle(&mut self, found: Match)
        ensures within { (room : ℕ) → IsWithin room self.old → IsWithin room self.new }
    {
        self.machine.captures = found.into_groups();
    }
}
