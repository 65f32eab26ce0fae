//! The arguments of a program.
ghost use Rattle.std.specs.Prelude.{◌≡◌, ◌≢◌};
ghost use Rattle.std.specs.IoError.{error_kind};
ghost use Rattle.regress_arguments.specs.declared.environment.ArgumentsError.TheVariants.{OutOfMemory, NotUtf8};

use std::alloc::AllocError;
use std::env::{self, Env};
use std::io::{self, ErrorKind};

/// Why the arguments of a program are not available.
#[derive(Clone, Copy, Debug, PartialEq, Eq)]
pub enum ArgumentsError {
    /// An allocation failed.
    OutOfMemory,
    /// An argument is not UTF-8.
    NotUtf8,
}

impl From<AllocError> for ArgumentsError {
    ghost use Rattle.std.specs.Prelude.{◌≡◌};
    ghost use Rattle.regress_arguments.specs.declared.environment.ArgumentsError.TheVariants.{OutOfMemory};

    ghost from_gives = { λ _ error. error ≡ OutOfMemory };

    fn from(_: AllocError) -> ArgumentsError {
        ArgumentsError::OutOfMemory
    }
}

/// Returns the program's arguments in order, without its own name.
///
/// # Errors
/// Returns [`ArgumentsError::OutOfMemory`] if an allocation fails, and [`ArgumentsError::NotUtf8`] if an argument is
/// not UTF-8.
pub fn arguments<R: Env + AllocGlobal>(rt: &R) -> Result<Vec<String>, ArgumentsError> {
    let own = env::args(rt).map_err(argument_error)?.skip(1);
    Ok(own.collect(rt.alloc())?)
}

/// Converts the error of an argument.
fn argument_error(error: io::Error) -> ArgumentsError
    ensures memory { error_kind error ≡ ErrorKind.OutOfMemory → result ≡ OutOfMemory }
    ensures other { error_kind error ≢ ErrorKind.OutOfMemory → result ≡ NotUtf8 }
{
    match error.kind() {
        ErrorKind::OutOfMemory => ArgumentsError::OutOfMemory,
        _ => ArgumentsError::NotUtf8,
    }
}
