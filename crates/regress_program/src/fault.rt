//! Why a pattern has no program.
ghost use Rattle.std.specs.Prelude.{◌≡◌, alloc_error};
ghost use Rattle.regress_program.specs.declared.fault.CompileFault.TheVariants.{Memory};

use std::alloc::{AllocError, AllocFailed};

/// Why a pattern was not compiled.
#[derive(Debug, Drop, thiserror::Error)]
pub enum CompileFault {
    /// An allocation failed.
    #[error("out of memory")]
    Memory(AllocError),
    /// More instructions would be stored than the limit allows, or there would be too many with all copies.
    #[error("the program is too long")]
    TooLong,
}

impl From<AllocError> for CompileFault {
    ghost from_gives = { λ _ fault. fault ≡ Memory alloc_error };

    fn from(given: AllocError) -> CompileFault {
        CompileFault::Memory(given)
    }
}

impl<T: Drop> From<AllocFailed<T>> for CompileFault {
    ghost from_gives = { λ _ fault. fault ≡ Memory alloc_error };

    fn from(given: AllocFailed<T>) -> CompileFault {
        CompileFault::Memory(AllocError::from(given))
    }
}
