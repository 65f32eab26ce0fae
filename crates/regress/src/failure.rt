//! Errors of compiling and of searching.
ghost use Rattle.std.specs.Prelude.{◌≡◌};
ghost use Rattle.regress_front.specs.Settled.{IsFaultIn};
ghost use Rattle.regress_front.specs.Steps.{Setting};
ghost use Rattle.regress.specs.Failures.{IsDue, compile_error_of, search_error_of};
ghost use Rattle.regress.specs.declared.failure.Error.TheVariants.{Flags, Memory};
ghost use Rattle.regress.specs.declared.failure.SearchError.TheVariants.{Memory as SearchMemory};
ghost use Rattle.regress.specs.declared.limits.Options.{Options};

use crate::letters::FlagsError;
use regress_front::parse::{FaultKind, PlacedFault};
use regress_match::{CompileFault, MemoryFault};
use regress_messages::sentence;
use std::alloc::{AllocError, AllocFailed, Global};

/// Why a pattern was not compiled.
#[derive(Debug, Drop, thiserror::Error)]
pub enum Error {
    /// The pattern is rejected: the grammar does not derive it within the limits of the dialect.
    #[error("{message}, at position {position}")]
    Syntax {
        /// What is wrong, as a kind for a program.
        kind: FaultKind,
        /// What is wrong, as the text of the kind, which does not change. `docs/errors.md` lists the texts.
        text: String,
        /// The position of the error: a code-point index of the pattern, at most its length.
        position: usize,
        /// What is wrong, as a sentence for a person, with what to write for the syntax of another engine. The sentences
        /// are tested, and may change.
        message: String,
    },
    /// The letters specify no flags. Only [`Regex::with_flags`](crate::Regex::with_flags) returns it.
    #[error("{0}")]
    Flags(FlagsError),
    /// The tree of the pattern may have more nodes, or its program stores more instructions, than
    /// [`Options`](crate::Options) allow; or there would be too many with all iterations.
    #[error("the pattern is too large")]
    TooLarge,
    /// An allocation failed, whether or not the pattern is valid.
    #[error("out of memory")]
    Memory,
}

impl From<AllocError> for Error {
    ghost from_gives = { λ _ error. error ≡ Memory };

    fn from(_: AllocError) -> Error {
        Error::Memory
    }
}

impl<T: Drop> From<AllocFailed<T>> for Error {
    ghost from_gives = { λ _ error. error ≡ Memory };

    fn from(_: AllocFailed<T>) -> Error {
        Error::Memory
    }
}

impl From<FlagsError> for Error {
    ghost from_gives = { λ fault error. error ≡ Flags fault };

    fn from(fault: FlagsError) -> Error {
        Error::Flags(fault)
    }
}

/// Returns why a pattern is rejected, with its sentence, or `Memory` if that cannot be allocated.
pub(crate) fn syntax_error(alloc: Global, fault: PlacedFault, pattern: &[u32]) -> Error
    ensures { (setting : Setting) (options : Options) → IsFaultIn options.dialect setting pattern.now fault → IsDue setting pattern.now options result }
{
    match fault {
        PlacedFault::Syntax {
            kind,
            error,
            position,
        } => match sentence(alloc, &kind, pattern, position) {
            Ok(message) => Error::Syntax {
                kind,
                text: error.text,
                position,
                message,
            },
            Err(_) => Error::Memory,
        },
        PlacedFault::Memory(_) => Error::Memory,
    }
}

impl From<CompileFault> for Error {
    ghost from_gives = { λ fault error. error ≡ compile_error_of fault };

    fn from(fault: CompileFault) -> Error {
        match fault {
            CompileFault::Memory(_) => Error::Memory,
            CompileFault::TooLong => Error::TooLarge,
        }
    }
}

/// Why a search has no result.
#[derive(Clone, Copy, Debug, PartialEq, Eq, Drop, thiserror::Error)]
pub enum SearchError {
    /// An allocation failed.
    #[error("out of memory")]
    Memory,
    /// The search takes more steps than [`Options`](crate::Options) allow.
    #[error("the search takes too many steps")]
    OutOfSteps,
    /// The search needs more memory for its tables, for a backtrack stack, or for a list of matches, than `memory` of
    /// [`Options`](crate::Options) allows.
    #[error("the search needs more memory than the option memory allows")]
    TooMuchMemory,
}

impl From<MemoryFault> for SearchError {
    ghost from_gives = { λ fault error. error ≡ search_error_of fault };

    fn from(fault: MemoryFault) -> SearchError {
        match fault {
            MemoryFault::Memory => SearchError::Memory,
            MemoryFault::TooMuchMemory => SearchError::TooMuchMemory,
        }
    }
}

impl From<AllocError> for SearchError {
    ghost from_gives = { λ _ error. error ≡ SearchMemory };

    fn from(_: AllocError) -> SearchError {
        SearchError::Memory
    }
}

impl<T: Drop> From<AllocFailed<T>> for SearchError {
    ghost from_gives = { λ _ error. error ≡ SearchMemory };

    fn from(_: AllocFailed<T>) -> SearchError {
        SearchError::Memory
    }
}
