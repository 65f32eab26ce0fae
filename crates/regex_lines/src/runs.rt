//! The texts of a line, in which a pattern is searched.
ghost use Rattle.std.specs.Prelude.{◌≡◌, ◌+◌, ◌<◌, ◌++◌, IfOk, OnOk, length, map};
ghost use Rattle.regex_lines.specs.InLine.{AreInLine};
ghost use Rattle.regex_lines.specs.Reply.{run_of, texts_of, unless_empty, utf8_runs, whole};

use regress::Match;
use std::alloc::{AllocError, Global};
use std::str;

/// A text in a line, and the byte offset at which it starts: the line itself, or a maximal run of UTF-8 in it.
#[derive(Clone, Copy)]
pub(crate) struct Run<'a> {
    pub(crate) start: usize,
    pub(crate) text: &'a str,
}

/// A text in a line, and all matches in it.
#[derive(Drop)]
pub(crate) struct TextMatches<'a> {
    pub(crate) run: Run<'a>,
    pub(crate) matches: Vec<Match<'a>>,
}

/// Returns the line itself, or the runs of a line that is not UTF-8.
pub(crate) fn texts_of(alloc: Global, line: &[u8]) -> Result<Vec<Run<'_>>, AllocError>
    ensures texts { IfOk result (λ found. map run_of found.items ≡ texts_of line.now) }
    ensures order { IfOk result (λ found. AreInLine (length line.now) 0 (map run_of found.items)) }
{
    match str::from_utf8(line) {
        Ok(text) => one_text(alloc, text),
        Err(_) => utf8_runs(alloc, line),
    }
}

/// Returns the text alone.
fn one_text(alloc: Global, text: &str) -> Result<Vec<Run<'_>>, AllocError>
    ensures texts { IfOk result (λ found. map run_of found.items ≡ whole text.now) }
{
    let mut texts = Vec::new(alloc);
    texts.push(Run { start: 0, text })?;
    Ok(texts)
}

/// Returns the maximal runs of UTF-8 in a line that are not empty.
pub(crate) fn utf8_runs(alloc: Global, line: &[u8]) -> Result<Vec<Run<'_>>, AllocError>
    ensures runs { IfOk result (λ found. map run_of found.items ≡ utf8_runs line.now) }
    ensures order { IfOk result (λ found. AreInLine (length line.now) 0 (map run_of found.items)) }
{
    let mut found = Vec::new(alloc);
    let mut start = 0;
    for chunk in line.utf8_chunks() {
        let text = chunk.valid();
        add_run(start, text, &mut found)?;
        start += text.len() + chunk.invalid().len();
    }
    Ok(found)
}

/// Adds a text with this offset, unless it is empty.
fn add_run<'a>(start: usize, text: &'a str, to: &mut Vec<Run<'a>>) -> Result<(), AllocError>
    ensures { OnOk result (map run_of to.new.items ≡ map run_of to.old.items ++ unless_empty start text.now) }
{
    if !text.is_empty() {
        to.push(Run { start, text })?;
    }
    Ok(())
}
