//! Syntax errors as JSON.
ghost use Rattle.std.specs.Prelude.{◌≡◌, ◌++◌, OnOk, chars, codes, string_bytes};
ghost use Rattle.std.specs.Fmt.{WritesOnOk};
ghost use Rattle.std.specs.Io.KnownBytes.{Appends};
ghost use Rattle.regress_display.specs.Fault.{fault_json, json_character, json_text};

use crate::location::Location;
use regress_parse::{Error, FaultKind};
use std::fmt;
use std::fmt::Formatter;
use std::io::{self, Write};

/// Writes a syntax error as an object of JSON and a line feed, and flushes the output.
///
/// # Errors
/// Returns the error of a write.
pub fn write_json_fault<W: Write>(
    kind: &FaultKind,
    error: &Error,
    pattern: &str,
    position: usize,
    out: &mut W,
) -> io::Result<()>
    ensures { OnOk result (Appends (W.contents out.old) (W.contents out.new)
        (fault_json kind.now (string_bytes error.now.text) (chars pattern.now) position ++ codes "\n")) }
{
    let fault = JsonFault {
        kind,
        error,
        pattern,
        position,
    };
    writeln!(out, "{fault}")?;
    out.flush()
}

/// A syntax error that displays as an object of JSON: `{"fault":"..","kind":"..","position":0,"line":1,"column":1}`.
#[derive(Clone, Copy)]
struct JsonFault<'a> {
    kind: &'a FaultKind,
    error: &'a Error,
    pattern: &'a str,
    position: usize,
}

impl fmt::Display for JsonFault<'_> {
    ghost use Rattle.std.specs.Prelude.{Some, chars, string_bytes};
    ghost use Rattle.regress_display.specs.Fault.{fault_json};

    ghost output = { λ fault. Some (fault_json fault.kind.now (string_bytes fault.error.now.text) (chars fault.pattern.now) fault.position) };

    fn fmt<W: fmt::Write>(&self, f: &mut Formatter<W>) -> fmt::Result {
        let Location { line, column } = Location::at(self.pattern, self.position);
        f.write_str("{\"fault\":\"")?;
        write_json_text(&self.error.text, f)?;
        write!(
            f,
            "\",\"kind\":\"{}\",\"position\":{},\"line\":{line},\"column\":{column}}}",
            self.kind.name(),
            self.position
        )
    }
}

/// A text that displays as the characters of a JSON string (RFC 8259, section 7), without the quotation marks.
///
/// A quotation mark and a backslash have a backslash in front, and a control character below U+0020 is an escape such as
/// `\u001f`.
#[derive(Clone, Copy)]
pub struct JsonText<'a>(pub &'a str);

impl fmt::Display for JsonText<'_> {
    ghost use Rattle.std.specs.Prelude.{Some};
    ghost use Rattle.regress_display.specs.Fault.{json_text};

    ghost output = { λ text. Some (json_text text.0.now) };

    fn fmt<W: fmt::Write>(&self, f: &mut Formatter<W>) -> fmt::Result {
        write_json_text(self.0, f)
    }
}

/// Writes the characters of a JSON string.
fn write_json_text<W: fmt::Write>(text: &str, f: &mut Formatter<W>) -> fmt::Result
    ensures { WritesOnOk W.write_str_gives f.old result (json_text text.now) f.new }
{
    for c in text.chars() {
        write_json_character(c, f)?;
    }
    Ok(())
}

fn write_json_character<W: fmt::Write>(c: char, f: &mut Formatter<W>) -> fmt::Result
    ensures { WritesOnOk W.write_str_gives f.old result (json_character c) f.new }
{
    match c {
        '"' => f.write_str("\\\""),
        '\\' => f.write_str("\\\\"),
        c if c < ' ' => {
            let number = u32::from(c);
            let (high, low) = (number / 16, number % 16);
            write!(f, "\\u00{high:x}{low:x}")
        }
        c => f.write_char(c),
    }
}
