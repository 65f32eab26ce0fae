//! Lines of an input.
ghost use Rattle.std.specs.Prelude.{◌≡◌, [], IfOk, MatchBool, true};
ghost use Rattle.std.specs.Io.KnownBytes.{Keeps};
ghost use Rattle.regex_lines.specs.Reading.{IsRead, IsReadLine, is_ended, is_last};
ghost use Rattle.regex_lines.specs.Searched.{has_line_feed, without_line_feed};
ghost use Rattle.regex_lines.specs.declared.reading.Next.TheVariants.{Line};

use memchr::memchr;
use std::io::{self, BufRead, Read};

/// How many bytes of a file are read or written at once.
pub(crate) const BUFFER: usize = 256 * 1024;

/// What a reader had next.
#[derive(Clone, Copy)]
pub(crate) enum Next {
    /// A line that a line feed ends.
    Line,
    /// The rest of the input, and whether a line feed ends it.
    LastLine { ended: bool },
    /// Nothing.
    End,
}

/// Reads the next line into `line`, or with `multiline` all lines as one, without the line feed at its end.
pub(crate) fn read_next<B: BufRead>(
    reader: &mut B,
    multiline: bool,
    line: &mut Vec<u8>,
) -> io::Result<Next>
    ensures { IfOk result (IsRead multiline (B.Read.remaining reader.old) (B.Read.remaining reader.new) line.new.items) }
{
    if multiline {
        read_text(reader, line)
    } else {
        read_line(reader, line)
    }
}

/// Reads the rest of the input into `text`, without a line feed at its end.
fn read_text<B: BufRead>(reader: &mut B, text: &mut Vec<u8>) -> io::Result<Next>
    ensures { IfOk result (IsRead true (B.Read.remaining reader.old) (B.Read.remaining reader.new) text.new.items) }
{
    text.clear();
    reader.read_to_end(text)?;
    if text.is_empty() {
        return Ok(Next::End);
    }
    let ended = remove_line_feed(text);
    Ok(Next::LastLine { ended })
}

/// Removes the line feed at the end, and returns whether there is one.
pub fn remove_line_feed(bytes: &mut Vec<u8>) -> bool
    ensures removed { bytes.new.items ≡ without_line_feed bytes.old.items }
    ensures had { result ≡ has_line_feed bytes.old.items }
{
    match bytes.last() {
        Some(b'\n') => {
            bytes.pop();
            true
        }
        _ => false,
    }
}

/// Returns whether the rest of the input was read.
pub(crate) fn is_last(next: Next) -> bool
    ensures { result ≡ is_last next }
{
    matches!(next, Next::LastLine { .. })
}

/// Returns whether a line feed ends the line that was read.
pub(crate) fn is_ended(next: Next) -> bool
    ensures { result ≡ is_ended next }
{
    match next {
        Next::Line => true,
        Next::LastLine { ended } => ended,
        Next::End => false,
    }
}

/// Reads the next line into `line`, without its line feed.
fn read_line<B: BufRead>(reader: &mut B, line: &mut Vec<u8>) -> io::Result<Next>
    ensures { IfOk result (IsReadLine (B.Read.remaining reader.old) (B.Read.remaining reader.new) line.new.items) }
{
    line.clear();
    if take_buffered(reader, line)? {
        return Ok(Next::Line);
    }
    read_further(reader, line)
}

/// Moves the next line, without its line feed, from the reader's buffer to `line`. Returns whether it did: it changes
/// nothing if the line feed is not in the buffer, or if the reader fails.
///
/// # Preconditions
/// `line` is empty.
fn take_buffered<B: BufRead>(reader: &mut B, line: &mut Vec<u8>) -> io::Result<bool>
    requires { line.old.items ≡ [] }
    ensures { IfOk result (λ taken. MatchBool taken
        (IsReadLine (B.Read.remaining reader.old) (B.Read.remaining reader.new) line.new.items Line)
        (Keeps (B.Read.remaining reader.old) (B.Read.remaining reader.new))) }
{
    let Ok(buffered) = reader.fill_buf() else {
        return Ok(false);
    };
    let Some(end) = memchr(b'\n', buffered) else {
        return Ok(false);
    };
    line.extend_from_slice(&buffered[..end])?;
    reader.consume(end + 1);
    Ok(true)
}

/// Reads the next line into `line`, without its line feed, which need not be in the reader's buffer.
fn read_further<B: BufRead>(reader: &mut B, line: &mut Vec<u8>) -> io::Result<Next>
    ensures { IfOk result (IsReadLine (B.Read.remaining reader.old) (B.Read.remaining reader.new) line.new.items) }
{
    line.clear();
    reader.read_until(b'\n', line)?;
    Ok(match line.last() {
        Some(b'\n') => {
            line.pop();
            Next::Line
        }
        Some(_) => Next::LastLine { ended: false },
        None => Next::End,
    })
}
