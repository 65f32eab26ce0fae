//! What a call for a pattern reports, besides the buffers that it writes.
ghost use Rattle.std.specs.Prelude.{◌≡◌};
ghost use Rattle.regress_lexer.specs.FaultKinds.{number_of};
ghost use Rattle.regress_capi.specs.Replies.{bare, of_error, of_fault, of_items, of_text};

use super::results::{MEMORY, OK, ROOM, SYNTAX};
use regress_front::parse::{FaultKind, PlacedFault};

/// A status, with the numbers that a call reports; those that it does not are 0.
#[derive(Clone, Copy)]
pub struct Reply {
    /// The status.
    pub status: u32,
    /// The number of items of the whole result.
    pub needed: usize,
    /// The number of the kind of the pattern's syntax error.
    pub kind: u32,
    /// The code-point index of that error.
    pub position: usize,
}

impl Reply {
    /// Returns a status without numbers.
    pub(crate) fn bare(status: u32) -> Reply
        ensures { result ≡ bare status }
    {
        Reply {
            status,
            needed: 0,
            kind: 0,
            position: 0,
        }
    }

    /// Returns the reply with the number of items of a result, by whether they fit in the buffer.
    pub(crate) fn of_items(fits: bool, needed: usize) -> Reply
        ensures { result ≡ of_items fits needed }
    {
        let status = if fits { OK } else { ROOM };
        Reply {
            status,
            needed,
            kind: 0,
            position: 0,
        }
    }

    /// Returns the reply with a syntax error.
    pub(crate) fn of_error(status: u32, kind: &FaultKind, position: usize) -> Reply
        ensures { result ≡ of_error status (number_of kind.now) position }
    {
        Reply {
            status,
            needed: 0,
            kind: kind.number(),
            position,
        }
    }

    /// Returns the reply with a syntax error and the length of its text, by whether that fits in the buffer.
    pub(crate) fn of_text(fits: bool, needed: usize, kind: &FaultKind, position: usize) -> Reply
        ensures { result ≡ of_text fits needed (number_of kind.now) position }
    {
        let status = if fits { SYNTAX } else { ROOM };
        Reply {
            status,
            needed,
            kind: kind.number(),
            position,
        }
    }

    /// Returns the reply for an error of the parser.
    pub(crate) fn of_fault(fault: &PlacedFault) -> Reply
        ensures { result ≡ of_fault fault.now }
    {
        match fault {
            PlacedFault::Syntax { kind, position, .. } => {
                Reply::of_error(SYNTAX, kind, *position)
            }
            PlacedFault::Memory(_) => Reply::bare(MEMORY),
        }
    }
}
