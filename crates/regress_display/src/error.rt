//! Why a pattern is not shown.

use regress_parse::{Error, FaultKind, PlacedFault};
use std::alloc::AllocError;

/// Why a pattern is not shown.
///
/// `io::Error` has no `From` conversion: only the error of a write becomes `Output`.
#[derive(Drop)]
pub enum ShowError {
    /// The pattern is rejected, with a syntax error of that kind at that code-point index.
    Syntax {
        /// The kind of the error.
        kind: FaultKind,
        /// The error with its text.
        error: Error,
        /// The code-point index, at most the length of the pattern.
        position: usize,
    },
    /// An allocation failed.
    Memory,
    /// The output cannot be written.
    Output,
}

impl From<AllocError> for ShowError {
    ghost use Rattle.std.specs.Prelude.{◌≡◌};
    ghost use Rattle.regress_display.specs.declared.error.ShowError.TheVariants.{Memory};

    ghost from_gives = { λ _ error. error ≡ Memory };

    fn from(_: AllocError) -> ShowError {
        ShowError::Memory
    }
}

impl From<PlacedFault> for ShowError {
    ghost use Rattle.std.specs.Prelude.{◌≡◌};
    ghost use Rattle.regress_display.specs.Ending.{error_of};

    ghost from_gives = { λ fault error. error ≡ error_of fault };

    fn from(fault: PlacedFault) -> ShowError {
        match fault {
            PlacedFault::Syntax {
                kind,
                error,
                position,
            } => ShowError::Syntax {
                kind,
                error,
                position,
            },
            PlacedFault::Memory(_) => ShowError::Memory,
        }
    }
}
