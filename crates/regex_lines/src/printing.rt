//! Writes bytes to the output.
ghost use Rattle.std.specs.Prelude.{◌≡◌, IfErr, OnOk};
ghost use Rattle.std.specs.Io.KnownBytes.{Appends, Keeps};
ghost use Rattle.regex_lines.specs.Ending.{IsLate, IsOutputFailure};

use crate::failure::{Failure, output_failure};
use std::io::Write;

/// Writes bytes, and flushes the output.
///
/// # Errors
/// Returns `Output` or `Closed` if that fails. Some of the bytes may have been written.
pub fn print<'a, W: Write>(bytes: &[u8], out: &mut W) -> Result<(), Failure<'a>>
    ensures bytes { OnOk result (Appends (W.contents out.old) (W.contents out.new) bytes.now) }
    ensures output { IfErr result IsOutputFailure }
    ensures late { IfErr result IsLate }
{
    write_bytes(bytes, out)?;
    flush(out)
}

/// Writes bytes.
pub(crate) fn write_bytes<'a, W: Write>(bytes: &[u8], out: &mut W) -> Result<(), Failure<'a>>
    ensures bytes { OnOk result (Appends (W.contents out.old) (W.contents out.new) bytes.now) }
    ensures output { IfErr result IsOutputFailure }
    ensures late { IfErr result IsLate }
{
    match out.write_all(bytes) {
        Ok(()) => Ok(()),
        Err(error) => Err(output_failure(error)),
    }
}

/// Writes bytes, and with `at_once` flushes the output.
pub(crate) fn write_at<'a, W: Write>(
    at_once: bool,
    bytes: &[u8],
    out: &mut W,
) -> Result<(), Failure<'a>>
    ensures bytes { OnOk result (Appends (W.contents out.old) (W.contents out.new) bytes.now) }
    ensures output { IfErr result IsOutputFailure }
    ensures late { IfErr result IsLate }
{
    if at_once {
        print(bytes, out)
    } else {
        write_bytes(bytes, out)
    }
}

/// Flushes the output.
///
/// # Errors
/// Returns `Output` or `Closed` if that fails.
pub fn flush<'a, W: Write>(out: &mut W) -> Result<(), Failure<'a>>
    ensures kept { Keeps (W.contents out.old) (W.contents out.new) }
    ensures output { IfErr result IsOutputFailure }
    ensures late { IfErr result IsLate }
{
    match out.flush() {
        Ok(()) => Ok(()),
        Err(error) => Err(output_failure(error)),
    }
}

/// Flushes the output if it is to be.
pub(crate) fn flush_if<'a, W: Write>(at_once: bool, out: &mut W) -> Result<(), Failure<'a>>
    ensures kept { Keeps (W.contents out.old) (W.contents out.new) }
    ensures output { IfErr result IsOutputFailure }
    ensures late { IfErr result IsLate }
{
    if at_once { flush(out) } else { Ok(()) }
}
