//! Matches of a line that are written as they are found.
ghost use Rattle.std.specs.Prelude.{◌≡◌, ◌||◌, ◌++◌, ℕ, List, All, IfErr, IfOk, OnOk, false, flat_map, length, map, nat_lt, true};
ghost use Rattle.std.specs.Io.KnownBytes.{Appends};
ghost use Rattle.regress_arguments.specs.Output.{Took};
ghost use Rattle.regress_found.specs.Found.{IsInside};
ghost use Rattle.regress_found.specs.Repeated.{AreAllMatches};
ghost use Rattle.regress_found.specs.declared.found.Match.{Match as Found};
ghost use Rattle.regress.specs.Compiled.{match_of, outcomes_of};
ghost use Rattle.regress.specs.Replaced.{AreFirstMatches};
ghost use Rattle.regex_options.specs.Plain.{job};
ghost use Rattle.regex_lines.specs.Ending.{IsCostly, IsLate, IsSearchFailure, OrOutput};
ghost use Rattle.regex_lines.specs.InLine.{HasOffsets, IsFirstBy, IsPartBy, has_matches, match_by, text_by};
ghost use Rattle.regex_lines.specs.Paint.{line_paint_of};
ghost use Rattle.regex_lines.specs.Prefix.{text_of};
ghost use Rattle.regex_lines.specs.Reply.{AreSearched, TextMatches, run_of, texts_of};

use crate::failure::Failure;
use crate::json::add_match_json;
use crate::prefix::{Prefix, prefix_text};
use crate::printing::write_bytes;
use crate::reply::{Show, add_shown_match};
use crate::runs::{Run, utf8_runs};
use crate::searcher::Searcher;
use regex_options::Shown;
use regress::Match;
use std::alloc::{AllocError, Global};
use std::io::Write;
use std::str;

/// How the matches of a line are written.
#[derive(Clone, Copy)]
pub(crate) struct MatchWriter<'s, 'a> {
    pub(crate) searcher: &'s Searcher<'s>,
    pub(crate) show: Show<'a>,
    pub(crate) prefix: Prefix<'a>,
}

/// The matches of a line that are written so far.
#[derive(Drop)]
struct Written {
    /// Whether there is one.
    any: bool,
    /// The text of the prefix then.
    prefix: Vec<u8>,
    /// What is written for the last match.
    bytes: Vec<u8>,
}

impl Written {
    ghost use Rattle.std.specs.Prelude.{◌≡◌, false};

    /// Returns that no match is written.
    fn new(alloc: Global) -> Written
        ensures { result.any ≡ false }
    {
        Written {
            any: false,
            prefix: Vec::new(alloc),
            bytes: Vec::new(alloc),
        }
    }
}

/// Writes the matches of a line as they are found, and returns whether there is one. A line that is not UTF-8 is searched run
/// by run.
pub(crate) fn write_matches<'a, W: Write>(
    writer: MatchWriter<'_, '_>,
    line: &[u8],
    out: &mut W,
) -> Result<bool, Failure<'a>>
    ensures found { IfOk result (λ any. (found : List TextMatches) × AreSearched writer.entry.searcher.now.regex.now (texts_of line.now) found × (any ≡ has_matches found)
        × Appends (W.contents out.old) (W.contents out.new)
        (flat_map (text_by writer.entry.searcher.now.regex.now writer.entry.show.shown (line_paint_of writer.entry.show.paint) (text_of writer.entry.prefix)) found)) }
    ensures first { IfErr result (OrOutput (Took (W.contents out.old) (W.contents out.new)
        (IsPartBy writer.entry.searcher.now.regex.now (texts_of line.now) writer.entry.show.shown (line_paint_of writer.entry.show.paint) (text_of writer.entry.prefix)))) }
    ensures failed { IfErr result (IsSearchFailure (IsCostly writer.entry.searcher.now.regex.now)) }
{
    match str::from_utf8(line) {
        Ok(text) => {
            let texts = [Run { start: 0, text }];
            write_in(writer, &texts, out)
        }
        Err(_) => {
            let runs = utf8_runs(writer.searcher.alloc, line)?;
            write_in(writer, &runs, out)
        }
    }
}

/// Writes the matches in texts as they are found, and returns whether there is one.
fn write_in<'a, W: Write>(
    writer: MatchWriter<'_, '_>,
    texts: &[Run<'_>],
    out: &mut W,
) -> Result<bool, Failure<'a>>
    requires { All (λ run. HasOffsets (run_of run)) texts.now }
    ensures found { IfOk result (λ any. (found : List TextMatches) × AreSearched writer.entry.searcher.now.regex.now (map run_of texts.now) found × (any ≡ has_matches found)
        × Appends (W.contents out.old) (W.contents out.new)
        (flat_map (text_by writer.entry.searcher.now.regex.now writer.entry.show.shown (line_paint_of writer.entry.show.paint) (text_of writer.entry.prefix)) found)) }
    ensures first { IfErr result (OrOutput (Took (W.contents out.old) (W.contents out.new)
        (IsFirstBy writer.entry.searcher.now.regex.now (map run_of texts.now) writer.entry.show.shown (line_paint_of writer.entry.show.paint) (text_of writer.entry.prefix)))) }
    ensures failed { IfErr result (IsSearchFailure (IsCostly writer.entry.searcher.now.regex.now)) }
{
    let mut written = Written::new(writer.searcher.alloc);
    for run in texts {
        write_text(writer, *run, &mut written, out)?;
    }
    Ok(written.any)
}

/// Writes the matches in a text as they are found.
fn write_text<'a, W: Write>(
    writer: MatchWriter<'_, '_>,
    run: Run<'_>,
    written: &mut Written,
    out: &mut W,
) -> Result<(), Failure<'a>>
    requires offsets { HasOffsets (run_of run) }
    requires prefix { written.old.any ≡ true → written.old.prefix.items ≡ text_of writer.prefix }
    ensures all { OnOk result ((ms : List Found) × AreAllMatches run.entry.text.now (outcomes_of writer.entry.searcher.now.regex.now run.entry.text.now) ms
        × (written.new.any ≡ written.old.any || nat_lt 0 (length ms))
        × Appends (W.contents out.old) (W.contents out.new)
        (flat_map (match_by writer.entry.searcher.now.regex.now writer.entry.show.shown (line_paint_of writer.entry.show.paint) (text_of writer.entry.prefix) (run_of run.entry)) ms)) }
    ensures prefix { OnOk result (written.new.any ≡ true → written.new.prefix.items ≡ text_of writer.entry.prefix) }
    ensures first { IfErr result (OrOutput ((n : ℕ) × (ms : List Found) × AreFirstMatches run.entry.text.now (outcomes_of writer.entry.searcher.now.regex.now run.entry.text.now) n ms
        × Appends (W.contents out.old) (W.contents out.new)
        (flat_map (match_by writer.entry.searcher.now.regex.now writer.entry.show.shown (line_paint_of writer.entry.show.paint) (text_of writer.entry.prefix) (run_of run.entry)) ms))) }
    ensures failed { IfErr result (IsSearchFailure (IsCostly writer.entry.searcher.now.regex.now)) }
{
    if writer.searcher.lacks_literal(run.text) {
        return Ok(());
    }
    let regex = writer.searcher.regex;
    for found in regex.find_iter(writer.searcher.alloc, run.text) {
        let found = found?;
        write_match(writer, run, &found, written, out)?;
    }
    Ok(())
}

/// Writes a match.
fn write_match<'a, W: Write>(
    writer: MatchWriter<'_, '_>,
    run: Run<'_>,
    found: &Match<'_>,
    written: &mut Written,
    out: &mut W,
) -> Result<(), Failure<'a>>
    requires offsets { HasOffsets (run_of run) }
    requires inside { IsInside run.text.now (match_of found.now) }
    requires prefix { written.old.any ≡ true → written.old.prefix.items ≡ text_of writer.prefix }
    ensures written { OnOk result (Appends (W.contents out.old) (W.contents out.new)
        (match_by writer.entry.searcher.now.regex.now writer.entry.show.shown (line_paint_of writer.entry.show.paint) (text_of writer.entry.prefix) (run_of run.entry) (match_of found.now))) }
    ensures any { OnOk result (written.new.any ≡ true) }
    ensures prefix { OnOk result (written.new.prefix.items ≡ text_of writer.entry.prefix) }
    ensures untouched { IfErr result (OrOutput (out.new ≡ out.old)) }
    ensures late { IfErr result IsLate }
{
    fill(writer, run, found, written)?;
    write_bytes(&written.bytes, out)
}

/// Makes what is written for a match, with the prefix in front, which is made for the first match of the line.
fn fill(
    writer: MatchWriter<'_, '_>,
    run: Run<'_>,
    found: &Match<'_>,
    written: &mut Written,
) -> Result<(), AllocError>
    requires offsets { HasOffsets (run_of run) }
    requires inside { IsInside run.text.now (match_of found.now) }
    requires prefix { written.old.any ≡ true → written.old.prefix.items ≡ text_of writer.prefix }
    ensures bytes { OnOk result (written.new.bytes.items
        ≡ match_by writer.entry.searcher.now.regex.now writer.entry.show.shown (line_paint_of writer.entry.show.paint) (text_of writer.entry.prefix) (run_of run.entry) (match_of found.now)) }
    ensures any { OnOk result (written.new.any ≡ true) }
    ensures prefix { OnOk result (written.new.prefix.items ≡ text_of writer.entry.prefix) }
{
    if !written.any {
        written.prefix = prefix_text(writer.searcher.alloc, writer.prefix)?;
        written.any = true;
    }
    written.bytes.clear();
    add_output(writer, run, found, &written.prefix, &mut written.bytes)
}

/// Adds what is written for a match, with `prefix` in front.
fn add_output(
    writer: MatchWriter<'_, '_>,
    run: Run<'_>,
    found: &Match<'_>,
    prefix: &[u8],
    to: &mut Vec<u8>,
) -> Result<(), AllocError>
    requires offsets { HasOffsets (run_of run) }
    requires inside { IsInside run.text.now (match_of found.now) }
    ensures { OnOk result (to.new.items ≡ to.old.items
        ++ match_by writer.entry.searcher.now.regex.now writer.entry.show.shown (line_paint_of writer.entry.show.paint) prefix.now (run_of run.entry) (match_of found.now)) }
{
    match writer.show.shown {
        Shown::Matches => add_shown_match(writer.show.paint.matched, prefix, run, found, to),
        Shown::Json => {
            let Searcher { alloc, regex, .. } = writer.searcher;
            add_match_json(*alloc, regex, prefix, run, found, to)
        }
        Shown::Lines | Shown::Count | Shown::Names | Shown::Nothing => Ok(()),
    }
}
