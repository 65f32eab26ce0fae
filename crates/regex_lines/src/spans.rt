//! Where lines have matches.
ghost use Rattle.std.specs.Prelude.{◌≡◌, ◌++◌, All, IfOk, OnOk, flat_map, map};
ghost use Rattle.regress.specs.Compiled.{match_of};
ghost use Rattle.regex_lines.specs.InLine.{AreInText, HasOffsets};
ghost use Rattle.regex_lines.specs.Reply.{matches_of, run_of, spans_in};

use crate::runs::TextMatches;
use std::alloc::{AllocError, Global};

/// A part of a line, by byte offsets.
#[derive(Clone, Copy)]
pub(crate) struct Span {
    pub(crate) start: usize,
    pub(crate) end: usize,
}

/// Returns the spans of the matches in a line that are not empty.
pub(crate) fn spans_of(alloc: Global, found: &[TextMatches<'_>]) -> Result<Vec<Span>, AllocError>
    requires offsets { All (λ f. HasOffsets (run_of f.run)) found.now }
    requires inside { All AreInText found.now }
    ensures { IfOk result (λ spans. spans.items ≡ flat_map spans_in (map matches_of found.now)) }
{
    let mut spans = Vec::new(alloc);
    for text in found {
        add_spans(text, &mut spans)?;
    }
    Ok(spans)
}

/// Adds the spans of the matches in a text that are not empty.
fn add_spans(text: &TextMatches<'_>, to: &mut Vec<Span>) -> Result<(), AllocError>
    requires offsets { HasOffsets (run_of text.now.run) }
    requires inside { AreInText text.now }
    ensures { OnOk result (to.new.items ≡ to.old.items ++ spans_in (matches_of text.now)) }
{
    for found in &text.matches {
        if found.start() != found.end() {
            to.push(Span {
                start: text.run.start + found.start(),
                end: text.run.start + found.end(),
            })?;
        }
    }
    Ok(())
}
