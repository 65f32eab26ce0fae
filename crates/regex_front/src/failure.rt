//! Failures of a run, with their exit statuses.
ghost use Rattle.std.specs.Prelude.{◌≡◌, OnOk};
ghost use Rattle.std.specs.Io.KnownBytes.{Appends};
ghost use Rattle.regex_front.specs.declared.failure.Failure.TheVariants.{Output};
ghost use Rattle.regex_front.specs.Ending.{status_of};

use regress_front::parse::{Error, ParseFault};
use std::alloc::AllocError;
use std::io::{self, Write};

/// The text that a run with invalid arguments writes.
const USAGE: &str = "usage: regex-front PATTERN [FLAGS]\n";

/// Why a run ends with a status other than 0.
///
/// `io::Error` has no `From` conversion: only the error of a write becomes `Output`.
#[derive(Debug, Drop)]
pub(crate) enum Failure {
    /// The pattern is rejected: status 1.
    Syntax(Error),
    /// The arguments are invalid: status 2.
    Usage,
    /// An allocation failed: status 3.
    Memory,
    /// Standard output cannot be written: status 4.
    Output,
}

impl From<AllocError> for Failure {
    ghost use Rattle.std.specs.Prelude.{◌≡◌};
    ghost use Rattle.regex_front.specs.declared.failure.Failure.TheVariants.{Memory};

    ghost from_gives = { λ _ failure. failure ≡ Memory };

    fn from(_: AllocError) -> Failure {
        Failure::Memory
    }
}

impl From<ParseFault> for Failure {
    ghost use Rattle.std.specs.Prelude.{◌≡◌};
    ghost use Rattle.regex_front.specs.Ending.{failure_of};

    ghost from_gives = { λ fault failure. failure ≡ failure_of fault };

    fn from(fault: ParseFault) -> Failure {
        match fault {
            ParseFault::Syntax(error) => Failure::Syntax(error),
            ParseFault::Memory(_) => Failure::Memory,
        }
    }
}

/// Writes the message of a failure to `err`, and returns the exit status. An error of that write is ignored.
pub(crate) fn report<E: Write>(failure: Failure, err: &mut E) -> u8
    ensures status { result ≡ status_of failure }
    ensures quiet { failure ≡ Output → err.new ≡ err.old }
{
    match failure {
        Failure::Syntax(error) => {
            let _ = writeln!(err, "error: {error}");
            1
        }
        Failure::Usage => {
            let _ = write_usage(err);
            2
        }
        Failure::Memory => {
            let _ = writeln!(err, "error: out of memory");
            3
        }
        Failure::Output => 4,
    }
}

/// Writes the usage.
fn write_usage<E: Write>(err: &mut E) -> io::Result<()>
    ensures { OnOk result (Appends (E.contents err.old) (E.contents err.new) USAGE.now) }
{
    err.write_all(USAGE.as_bytes())
}
