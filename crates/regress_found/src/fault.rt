//! Why a search has no memory.
ghost use Rattle.std.specs.Prelude.{◌≡◌};
ghost use Rattle.regress_found.specs.declared.fault.MemoryFault.TheVariants.{Memory};

use std::alloc::{AllocError, AllocFailed};

/// Why a search has not the memory that it needs.
#[derive(Clone, Copy, Debug, PartialEq, Eq, Drop, thiserror::Error)]
pub enum MemoryFault {
    /// An allocation failed.
    #[error("out of memory")]
    Memory,
    /// The search needs more memory than its limit.
    #[error("the search needs too much memory")]
    TooMuchMemory,
}

impl From<AllocError> for MemoryFault {
    ghost from_gives = { λ _ fault. fault ≡ Memory };

    fn from(_: AllocError) -> MemoryFault {
        MemoryFault::Memory
    }
}

impl<T: Drop> From<AllocFailed<T>> for MemoryFault {
    ghost from_gives = { λ _ fault. fault ≡ Memory };

    fn from(_: AllocFailed<T>) -> MemoryFault {
        MemoryFault::Memory
    }
}
