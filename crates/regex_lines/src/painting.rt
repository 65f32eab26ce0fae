//! Lines in color.
ghost use Rattle.std.specs.Prelude.{◌≡◌, ◌≤◌, ◌++◌, All, IfOk, OnOk, flat_map, length, map};
ghost use Rattle.regex_lines.specs.InLine.{AreInLine, AreInText};
ghost use Rattle.regex_lines.specs.Paint.{AreSpansIn, line_paint_of, paint_of, painted_rest, painted_spans, return_at};
ghost use Rattle.regex_lines.specs.Reply.{ended, matches_of, spans_in};

use crate::paint::{LinePaint, Paint, add_begun, add_painted};
use crate::runs::TextMatches;
use crate::spans::{Span, spans_of};
use std::alloc::{AllocError, Global};

/// Returns the line with its matches in color, with `prefix` in front; its bytes that are not UTF-8 are unchanged.
pub(crate) fn painted_line(
    alloc: Global,
    paint: LinePaint<'_>,
    prefix: &[u8],
    line: &[u8],
    found: &[TextMatches<'_>],
) -> Result<Vec<u8>, AllocError>
    requires order { AreInLine (length line.now) 0 (map (λ f. f.run) (map matches_of found.now)) }
    requires inside { All AreInText found.now }
    ensures { IfOk result (λ bytes. bytes.items
        ≡ prefix.now ++ ended (painted_spans (line_paint_of paint.entry) line.now 0 (flat_map spans_in (map matches_of found.now)))) }
{
    let spans = spans_of(alloc, found)?;
    painted_at(alloc, paint, prefix, line, &spans)
}

/// Returns the line with these spans in color, with `prefix` in front.
fn painted_at(
    alloc: Global,
    paint: LinePaint<'_>,
    prefix: &[u8],
    line: &[u8],
    spans: &[Span],
) -> Result<Vec<u8>, AllocError>
    requires { AreSpansIn (length line.now) 0 spans.now }
    ensures { IfOk result (λ bytes. bytes.items ≡ prefix.now ++ ended (painted_spans (line_paint_of paint.entry) line.now 0 spans.now)) }
{
    let mut bytes = Vec::new(alloc);
    bytes.extend_from_slice(prefix)?;
    let mut from = 0;
    for span in spans {
        add_begun(paint.rest, &mut bytes)?;
        bytes.extend_from_slice(&line[from..span.start])?;
        add_painted(paint.matched, &line[span.start..span.end], &mut bytes)?;
        from = span.end;
    }
    add_rest(paint.rest, &line[from..], &mut bytes)?;
    bytes.push(b'\n')?;
    Ok(bytes)
}

/// Adds the end of a line, painted but for a carriage return at its end.
pub(crate) fn add_rest(paint: Paint<'_>, rest: &[u8], to: &mut Vec<u8>) -> Result<(), AllocError>
    ensures { OnOk result (to.new.items ≡ to.old.items ++ painted_rest (paint_of paint.entry) rest.now) }
{
    let end = return_at(rest);
    add_painted(paint, &rest[..end], to)?;
    to.extend_from_slice(&rest[end..])
}

/// Returns the length without a carriage return at the end.
fn return_at(bytes: &[u8]) -> usize
    ensures value { result ≡ return_at bytes.now }
    ensures within { result ≤ length bytes.now }
{
    match bytes.last() {
        Some(b'\r') => bytes.len() - 1,
        _ => bytes.len(),
    }
}
