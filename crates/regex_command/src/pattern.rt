//! Patterns, and where they are.
ghost use Rattle.std.specs.Prelude.{◌≡◌, ◌<◌, ◌∷◌, IfOk, IfErr, OnOk, length, map, string_bytes};
ghost use Rattle.regex_command.specs.Printed.{ArePatternsOf, AreUnread, AreWith, IsUnread, LacksPattern, OfPattern, texts_of_lines};
ghost use Rattle.regex_lines.specs.Ending.{MayFailToRead};
ghost use Rattle.regex_options.specs.Plain.{source, sources};
ghost use Rattle.regex_options.specs.Request.{requested};

use crate::checking::check_patterns;
use crate::joining::joined;
use regex_lines::{Failure, read_failure};
use regex_options::{PatternSource, Patterns, Request};
use regress::Dialect;
use regress_base::types::Flags;
use std::alloc::{AllocError, Global};
use std::fs::{File, Files};
use std::io::Read;

/// A pattern, its flags and its dialect.
#[derive(Clone, Copy)]
pub(crate) struct Pattern<'p> {
    pub(crate) text: &'p str,
    pub(crate) flags: Flags,
    pub(crate) dialect: Dialect,
}

/// Returns the pattern that is searched for.
pub(crate) fn pattern_text<'a, R: Files + AllocGlobal>(
    rt: &R,
    request: Request<'a>,
) -> Result<String, Failure<'a>>
    ensures text { IfOk result (λ text. OfPattern (requested request.entry) (λ pattern. string_bytes text ≡ pattern)) }
    ensures failed { IfErr result (LacksPattern (requested request.entry)) }
{
    let patterns = read_patterns(rt, request.patterns)?;
    check_patterns(rt.alloc(), request, &patterns)?;
    Ok(joined(rt.alloc(), request.form, &patterns)?)
}

/// Returns the patterns that are given.
fn read_patterns<'a, R: Files + AllocGlobal>(
    rt: &R,
    from: Patterns<'a>,
) -> Result<Vec<String>, Failure<'a>>
    ensures read { IfOk result (λ patterns. ArePatternsOf (sources from.entry) (map string_bytes patterns.items)) }
    ensures failed { IfErr result (AreUnread (sources from.entry)) }
{
    match from {
        Patterns::Operand(text) => read_all(rt, &[PatternSource::Text(text)]),
        Patterns::Options(sources) => read_all(rt, sources),
    }
}

/// Returns the patterns of all these sources.
fn read_all<'a, R: Files + AllocGlobal>(
    rt: &R,
    sources: &[PatternSource<'a>],
) -> Result<Vec<String>, Failure<'a>>
    ensures read { IfOk result (λ patterns. ArePatternsOf (map source sources.now) (map string_bytes patterns.items)) }
    ensures failed { IfErr result (AreUnread (map source sources.now)) }
{
    let mut patterns = Vec::new(rt.alloc());
    for from in sources {
        add_patterns(rt, from, &mut patterns)?;
    }
    Ok(patterns)
}

/// Adds the patterns of a source.
fn add_patterns<'a, R: Files + AllocGlobal>(
    rt: &R,
    from: &PatternSource<'a>,
    to: &mut Vec<String>,
) -> Result<(), Failure<'a>>
    ensures with { OnOk result (AreWith (map string_bytes to.old.items) (source from.now) (map string_bytes to.new.items)) }
    ensures failed { IfErr result (IsUnread (source from.now)) }
{
    match *from {
        PatternSource::Text(text) => to.push(String::from_str(rt.alloc(), text)?)?,
        PatternSource::File(name) => {
            let text = text_of(name, read_file(rt, name)?)?;
            let mut lines = lines_of(rt.alloc(), text.as_str())?;
            to.append(&mut lines)?;
        }
    }
    Ok(())
}

/// Returns the lines of a text. A line feed at its end is followed by no other line.
fn lines_of(alloc: Global, text: &str) -> Result<Vec<String>, AllocError>
    ensures { IfOk result (λ lines. map string_bytes lines.items ≡ texts_of_lines text.now) }
{
    let mut lines = Vec::new(alloc);
    let mut rest = text;
    while !rest.is_empty() {
        let (line, after) = first_line(rest);
        lines.push(String::from_str(alloc, line)?)?;
        rest = after;
    }
    Ok(lines)
}

/// Returns the first line, without its line feed, and what is after it.
fn first_line(text: &str) -> (&str, &str)
    requires { 0 < length text.now }
    ensures lines { texts_of_lines text.now ≡ result.0.now ∷ texts_of_lines result.1.now }
    ensures shorter { length result.1.now < length text.now }
{
    match text.split_once('\n') {
        Some((line, after)) => (line, after),
        None => (text, ""),
    }
}

/// Returns the bytes of a file.
fn read_file<'a, R: Files + AllocGlobal>(rt: &R, name: &'a str) -> Result<Vec<u8>, Failure<'a>>
    ensures { IfErr result MayFailToRead }
{
    match File::open(rt, name) {
        Ok(file) => read_open(rt.alloc(), name, file),
        Err(error) => Err(read_failure(error, name)),
    }
}

/// Returns the bytes of an open file.
fn read_open<'a, F: Read + Drop>(
    alloc: Global,
    name: &'a str,
    mut file: F,
) -> Result<Vec<u8>, Failure<'a>>
    ensures { IfErr result MayFailToRead }
{
    let mut bytes = Vec::new(alloc);
    match file.read_to_end(&mut bytes) {
        Ok(_) => Ok(bytes),
        Err(error) => Err(read_failure(error, name)),
    }
}

/// Returns the text of a file with these bytes.
fn text_of<'a>(name: &'a str, bytes: Vec<u8>) -> Result<String, Failure<'a>>
    ensures text { IfOk result (λ text. string_bytes text ≡ bytes.items) }
    ensures failed { IfErr result MayFailToRead }
{
    match String::from_utf8(bytes) {
        Ok(text) => Ok(text),
        Err(error) => Err(Failure::PatternNotUtf8 {
            name,
            offset: error.utf8_error().valid_up_to(),
        }),
    }
}
