//! Failures of a run.
ghost use Rattle.std.specs.Prelude.{◌≡◌, ⊤, []};
ghost use Rattle.regex_lines.specs.Ending.{IsLate, IsOutputFailure, IsInputFailure, IsSearchFailure, MayFailToRead, unaccepted};
ghost use Rattle.regex_lines.specs.declared.failure.Failure.TheVariants.{Output};

use crate::unread::{Unread, UnreadPath, reason_for, write_reason};
use regress::{Error, SearchError};
use regress_arguments::{write_visible, write_with_caret};
use regress_messages::sentence_of_text;
use regress_parse::{FaultKind, PlacedFault};
use std::alloc::{AllocError, AllocFailed, Global};
use std::io::{self, ErrorKind, Write};

/// Why a run ends with status 2.
///
/// `io::Error` has no `From` conversion: the caller knows whether it is an error of an input or of the output.
#[derive(Drop)]
pub enum Failure<'a> {
    /// An argument is not UTF-8.
    Argument,
    /// An allocation failed.
    Memory,
    /// Standard output cannot be written.
    Output,
    /// Standard output is a pipe that nobody reads, of which there is no message.
    Closed,
    /// The pattern is rejected, with a syntax error at a code-point index of the pattern or at its end.
    Syntax {
        pattern: String,
        text: String,
        position: usize,
    },
    /// The pattern is too large.
    TooLarge,
    /// The step limit was reached.
    OutOfSteps,
    /// A file cannot be opened or read.
    Unreadable(Unread<'a>),
    /// Inputs cannot be opened or read, of which the messages are written by [`report_unread`].
    Incomplete,
    /// The pattern in the file with this name is not UTF-8 from this byte offset on.
    PatternNotUtf8 {
        name: &'a str,
        offset: usize,
    },
    /// The input with this name has 2^64 lines, or matches to count.
    TooLong(String),
}

/// A syntax error of a pattern.
#[derive(Clone, Copy)]
pub struct Rejection<'a> {
    /// What is wrong, as a kind.
    pub kind: &'a FaultKind,
    /// The text of the kind.
    pub text: &'a str,
    /// A code-point index of the pattern, or its length.
    pub position: usize,
}

impl<'a> From<AllocError> for Failure<'a> {
    ghost use Rattle.std.specs.Prelude.{◌≡◌};
    ghost use Rattle.regex_lines.specs.declared.failure.Failure.TheVariants.{Memory};

    ghost from_gives = { λ _ failure. failure ≡ Memory };

    fn from(_: AllocError) -> Failure<'a> {
        Failure::Memory
    }
}

impl<'a, T: Drop> From<AllocFailed<T>> for Failure<'a> {
    ghost use Rattle.std.specs.Prelude.{◌≡◌};
    ghost use Rattle.regex_lines.specs.declared.failure.Failure.TheVariants.{Memory};

    ghost from_gives = { λ _ failure. failure ≡ Memory };

    fn from(_: AllocFailed<T>) -> Failure<'a> {
        Failure::Memory
    }
}

impl<'a> From<SearchError> for Failure<'a> {
    ghost use Rattle.std.specs.Prelude.{◌≡◌};
    ghost use Rattle.regex_lines.specs.Ending.{search_failure};

    ghost from_gives = { λ error failure. failure ≡ search_failure error };

    fn from(error: SearchError) -> Failure<'a> {
        match error {
            SearchError::Memory => Failure::Memory,
            SearchError::OutOfSteps => Failure::OutOfSteps,
            SearchError::TooMuchMemory => Failure::Memory,
        }
    }
}

/// Writes the message of a failure to `err`, and returns the exit status. An error of that write is ignored.
pub fn report<E: Write>(failure: Failure<'_>, err: &mut E) -> u8
    ensures { result ≡ 2 }
{
    let _ = write_message(failure, err);
    2
}

/// Writes the message of a failure.
fn write_message<E: Write>(failure: Failure<'_>, err: &mut E) -> io::Result<()> {
    match failure {
        Failure::Argument => writeln!(err, "regex: an argument is not UTF-8"),
        Failure::Memory => writeln!(err, "regex: out of memory"),
        Failure::Output => writeln!(err, "regex: can't write standard output"),
        Failure::Closed | Failure::Incomplete => Ok(()),
        Failure::Syntax {
            pattern,
            text,
            position,
        } => write_syntax_error(&text, &pattern, position, err),
        Failure::TooLarge => writeln!(err, "regex: the pattern is too large"),
        Failure::OutOfSteps => writeln!(err, "regex: the search takes too many steps"),
        Failure::Unreadable(unread) => write_unread(unread, err),
        Failure::PatternNotUtf8 { name, offset } => {
            write_name(name, err)?;
            writeln!(err, "the pattern is not UTF-8, at byte offset {offset}")
        }
        Failure::TooLong(name) => {
            write_name(&name, err)?;
            writeln!(err, "too many lines or matches")
        }
    }
}

/// Writes the messages of inputs that are not read, in order. An error of such a write is ignored.
pub fn report_unread<E: Write>(unread: &[Unread<'_>], err: &mut E)
    ensures quiet { unread.now ≡ [] → err.new ≡ err.old }
{
    for input in unread {
        let _ = write_unread(*input, err);
    }
}

/// Writes the messages of paths that are not read, in order. An error of such a write is ignored.
pub fn report_paths<E: Write>(unread: &[UnreadPath], err: &mut E)
    ensures quiet { unread.now ≡ [] → err.new ≡ err.old }
{
    for path in unread {
        let _ = write_unread(path.unread(), err);
    }
}

/// Writes the message of an input that is not read.
fn write_unread<E: Write>(unread: Unread<'_>, err: &mut E) -> io::Result<()> {
    write_name(unread.name, err)?;
    write_reason(unread.reason, err)?;
    err.write_all(b"\n")
}

/// Writes what is in front of a message about an input.
fn write_name<E: Write>(name: &str, err: &mut E) -> io::Result<()> {
    err.write_all(b"regex: ")?;
    write_visible(name, err)?;
    err.write_all(b": ")
}

/// Returns the same failure of a search, which names no input that it borrows.
///
/// # Preconditions
/// It is one that ends the search of all inputs.
pub fn detached<'a>(failure: Failure<'_>) -> Failure<'a>
    requires { IsSearchFailure ⊤ failure }
    ensures { result ≡ failure.entry }
{
    match failure {
        Failure::Memory => Failure::Memory,
        Failure::Output => Failure::Output,
        Failure::Closed => Failure::Closed,
        Failure::OutOfSteps => Failure::OutOfSteps,
        Failure::TooLong(name) => Failure::TooLong(name),
        Failure::Argument
        | Failure::Syntax { .. }
        | Failure::TooLarge
        | Failure::Unreadable(_)
        | Failure::Incomplete
        | Failure::PatternNotUtf8 { .. } => unreachable!(),
    }
}

/// Writes to `err` why a pattern is rejected, and returns that it is not accepted. An error of that write is ignored.
///
/// # Errors
/// Returns `Memory` if that is why.
pub fn reject<'f, E: Write>(
    alloc: Global,
    fault: PlacedFault,
    pattern: &str,
    err: &mut E,
) -> Result<bool, Failure<'f>>
    ensures { result ≡ unaccepted fault }
{
    match fault {
        PlacedFault::Syntax {
            kind,
            error,
            position,
        } => {
            let rejection = Rejection {
                kind: &kind,
                text: &error.text,
                position,
            };
            let _ = write_rejection(alloc, rejection, pattern, err);
            Ok(false)
        }
        PlacedFault::Memory(_) => Err(Failure::Memory),
    }
}

/// Writes a syntax error as a sentence, with its position, and the pattern with a caret. If there is no memory for the
/// sentence, the text of the kind is written.
///
/// # Errors
/// Returns an error of `err`.
pub fn write_rejection<E: Write>(
    alloc: Global,
    rejection: Rejection<'_>,
    pattern: &str,
    err: &mut E,
) -> io::Result<()> {
    let position = rejection.position;
    match sentence_of_text(alloc, rejection.kind, pattern, position) {
        Ok(text) => write_syntax_error(&text, pattern, position, err),
        Err(_) => write_syntax_error(rejection.text.trim_end_matches('.'), pattern, position, err),
    }
}

/// Returns why the output cannot be written.
pub(crate) fn output_failure<'a>(error: io::Error) -> Failure<'a>
    ensures output { IsOutputFailure result }
    ensures late { IsLate result }
{
    match error.kind() {
        ErrorKind::BrokenPipe => Failure::Closed,
        _ => Failure::Output,
    }
}

/// Returns why a file cannot be read.
pub fn read_failure(error: io::Error, name: &str) -> Failure<'_>
    ensures search { IsInputFailure ⊥ result }
    ensures reading { MayFailToRead result }
{
    match error.kind() {
        ErrorKind::OutOfMemory => Failure::Memory,
        _ => Failure::Unreadable(Unread {
            name,
            reason: reason_for(&error),
        }),
    }
}

/// Writes what is wrong with a pattern, with its position, a code-point index of the pattern or its length, and the pattern
/// with a caret.
fn write_syntax_error<E: Write>(
    text: &str,
    pattern: &str,
    position: usize,
    err: &mut E,
) -> io::Result<()> {
    writeln!(err, "regex: {text}, at position {position}")?;
    write_with_caret(pattern, position, err)
}
