//! The results of calls that write a sentence for a syntax error.
ghost use Rattle.std.specs.Prelude.{IsUtf8};
ghost use Rattle.regress_parse.specs.Fault.{HasKind};
ghost use Rattle.regress_capi.specs.SentenceResults.{SentenceResult};

use super::results::{BAD_INPUT, MEMORY};
use super::texts::give_terminated;
use regress_base::util::code_points;
use regress_messages::Message;
use regress_parse::text_of_number;
use std::alloc::{AllocError, Global};

/// A syntax error of a pattern.
#[derive(Clone, Copy)]
pub struct Located {
    /// The number of its kind.
    pub kind: u32,
    /// A code-point index of the pattern.
    pub position: usize,
}

/// Writes the sentence for a syntax error of a pattern. Returns the status.
///
/// # Errors
/// The status is 2 if an allocation failed, 3 if `out` is too small, and 4 if there is no such kind or the pattern is not
/// UTF-8.
pub fn write_sentence(
    alloc: Global,
    pattern: &[u8],
    error: Located,
    out: &mut [u8],
    needed: &mut usize,
) -> u32
    ensures status { SentenceResult (HasKind error.kind) (IsUtf8 pattern.now) out.old result needed.new out.new }
{
    *needed = 0;
    match text_of_number(error.kind) {
        Some(_) => write_known(alloc, pattern, error, out, needed),
        None => BAD_INPUT,
    }
}

/// Writes the same for a kind that there is.
fn write_known(
    alloc: Global,
    pattern: &[u8],
    error: Located,
    out: &mut [u8],
    needed: &mut usize,
) -> u32
    requires { HasKind error.kind }
    ensures status { SentenceResult (HasKind error.kind) (IsUtf8 pattern.now) out.old result needed.new out.new }
{
    *needed = 0;
    match str::from_utf8(pattern) {
        Ok(pattern) => match sentence(alloc, pattern, error) {
            Ok(text) => give_terminated(&text, out, needed),
            Err(_) => MEMORY,
        },
        Err(_) => BAD_INPUT,
    }
}

/// Returns the sentence for a syntax error of a pattern.
fn sentence(alloc: Global, pattern: &str, error: Located) -> Result<String, AllocError> {
    let points = code_points(alloc, pattern)?;
    let message = Message::of_number(error.kind, &points, error.position);
    format!(in alloc; "{message}")
}
