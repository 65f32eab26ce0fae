//! What is written for a line.
ghost use Rattle.std.specs.Prelude.{◌≡◌, ◌↔◌, ◌++◌, ℕ, List, All, IfErr, IfOk, IfSome, IsTrue, OnOk, false, flat_map, if◌then◌else◌, length, map, not, option_map, string_bytes, true};
ghost use Rattle.regress_found.specs.Found.{IsInside};
ghost use Rattle.regress.specs.Compiled.{match_of};
ghost use Rattle.regex_options.specs.Colors.{plain_colors};
ghost use Rattle.regex_options.specs.Plain.{job, replacement as replacement_of};
ghost use Rattle.regex_lines.specs.Ending.{IsCostly, IsSearchError};
ghost use Rattle.regex_lines.specs.InLine.{AreInLine, AreInText, HasMatch, needs_matches, shown_by};
ghost use Rattle.regex_lines.specs.Near.{ShowsNear, ShowsNearBy, plain};
ghost use Rattle.regex_lines.specs.Reply.{IsReplacedCount, IsReplacedFrom, IsReply, IsReplyIn, IsSelected, MatchesIn, ReplacesUpTo, Shows, ShowsIf, ShowsReplaced, ShowsReplacedIf, CountsFor, at_most, ended, feed_if, match_count, matches_shown, shown_match, AreSearched, matches_of, run_of, texts_of, utf8_runs, whole, writes_lines};
ghost use Rattle.regex_lines.specs.Paint.{line_paint_in, line_paint_of, paint_of, painted, painted_rest};
ghost use Rattle.regex_lines.specs.Prefix.{text_of};

use crate::json::all_json;
use crate::paint::{LinePaint, Paint, add_painted, is_colored, line_paint_in};
use crate::painting::{add_rest, painted_line};
use crate::prefix::{Prefix, prefix_text};
use crate::runs::{Run, TextMatches, texts_of, utf8_runs};
use crate::searcher::Searcher;
use regex_options::{Colors, Replacement, Selection, Shown, Task};
use regress::{Match, SearchError};
use std::alloc::{AllocError, Global};
use std::str;

/// What is shown of which lines, and how it is painted.
#[derive(Clone, Copy)]
pub(crate) struct Show<'a> {
    pub(crate) shown: Shown,
    /// Whether the lines without a match are selected.
    invert: bool,
    pub(crate) paint: LinePaint<'a>,
}

/// Whether a line is selected, for how many it counts then, and what is written for it.
#[derive(Drop)]
pub(crate) struct Reply {
    pub(crate) selected: bool,
    /// 1, or the number of its matches that are replaced if these are counted.
    pub(crate) count: u64,
    pub(crate) bytes: Vec<u8>,
}

/// A line, whether a line feed ends it, and the texts in it.
#[derive(Clone, Copy)]
struct Line<'a> {
    bytes: &'a [u8],
    ended: bool,
    texts: &'a [Run<'a>],
}

/// Returns what a task writes for a line, which a line feed may end. Each line of it has `prefix` in front where the
/// task selects lines. A line that is not UTF-8 is searched run by run, and its other bytes match nowhere.
pub(crate) fn reply_to(
    searcher: &Searcher<'_>,
    prefix: Prefix<'_>,
    line: &[u8],
    ended: bool,
) -> Result<Reply, SearchError>
    ensures reply { IfOk result (λ reply. IsReply searcher.now.regex.now line.now ended (job prefix.entry.task) (text_of prefix.entry) reply.selected reply.count reply.bytes.items) }
    ensures failed { IfErr result (IsSearchError (IsCostly searcher.now.regex.now)) }
{
    match str::from_utf8(line) {
        Ok(text) => reply_to_text(searcher, prefix, text, ended),
        Err(_) => reply_to_runs(searcher, prefix, line, ended),
    }
}

/// Returns what is shown of lines that are selected, or near selected ones.
pub(crate) fn show_of<'a>(
    selection: Selection,
    colors: Option<&'a Colors<'a>>,
    near: bool,
) -> Show<'a>
    ensures shown { result.shown ≡ selection.shown }
    ensures invert { result.invert ≡ selection.invert }
    ensures paint { line_paint_of result.paint ≡ line_paint_in (option_map (λ colors. plain_colors colors.now) colors.entry) near selection.invert }
{
    Show {
        shown: selection.shown,
        invert: selection.invert,
        paint: line_paint_in(colors, near, selection.invert),
    }
}

/// Returns what is written for a line near a selected one.
pub(crate) fn near(
    searcher: &Searcher<'_>,
    prefix: Prefix<'_>,
    line: &[u8],
) -> Result<Vec<u8>, SearchError>
    ensures near { IfOk result (λ bytes. ShowsNear searcher.now.regex.now line.now (job prefix.entry.task) (text_of prefix.entry) bytes.items) }
    ensures failed { IfErr result (IsSearchError (IsCostly searcher.now.regex.now)) }
{
    match prefix.task {
        Task::Match(selection, colors) => {
            near_by(searcher, show_of(selection, colors, true), prefix, line)
        }
        Task::Replace(_) => Ok(Vec::new(searcher.alloc)),
    }
}

/// Returns the line, with its matches if those lines are selected that have none.
fn near_by(
    searcher: &Searcher<'_>,
    show: Show<'_>,
    prefix: Prefix<'_>,
    line: &[u8],
) -> Result<Vec<u8>, SearchError>
    ensures near { IfOk result (λ bytes. ShowsNearBy searcher.now.regex.now line.now show.entry.invert show.entry.shown (line_paint_of show.entry.paint) (text_of prefix.entry) bytes.items) }
    ensures failed { IfErr result (IsSearchError (IsCostly searcher.now.regex.now)) }
{
    if show.invert && needs_matches(show) {
        near_by_matches(searcher, show, prefix, line)
    } else {
        Ok(plain(searcher.alloc, show, prefix, line)?)
    }
}

/// Returns the line with its matches.
fn near_by_matches(
    searcher: &Searcher<'_>,
    show: Show<'_>,
    prefix: Prefix<'_>,
    line: &[u8],
) -> Result<Vec<u8>, SearchError>
    requires { needs_matches show.shown (line_paint_of show.paint) ≡ true }
    ensures near { IfOk result (λ bytes. Shows searcher.now.regex.now line.now (texts_of line.now) show.entry.shown (line_paint_of show.entry.paint) (text_of prefix.entry) bytes.items) }
    ensures failed { IfErr result (IsSearchError (IsCostly searcher.now.regex.now)) }
{
    let texts = texts_of(searcher.alloc, line)?;
    let found = search_texts(searcher, &texts)?;
    Ok(shown(searcher, show, prefix, line, &found)?)
}

/// Returns what a task writes for a line that is UTF-8.
fn reply_to_text(
    searcher: &Searcher<'_>,
    prefix: Prefix<'_>,
    text: &str,
    ended: bool,
) -> Result<Reply, SearchError>
    ensures reply { IfOk result (λ reply. IsReplyIn searcher.now.regex.now text.now (whole text.now) ended (job prefix.entry.task) (text_of prefix.entry) reply.selected reply.count reply.bytes.items) }
    ensures failed { IfErr result (IsSearchError (IsCostly searcher.now.regex.now)) }
{
    let texts = [Run { start: 0, text }];
    let line = Line {
        bytes: text.as_bytes(),
        ended,
        texts: &texts,
    };
    reply_in(searcher, prefix, line)
}

/// Returns what a task writes for a line that is not UTF-8.
fn reply_to_runs(
    searcher: &Searcher<'_>,
    prefix: Prefix<'_>,
    line: &[u8],
    ended: bool,
) -> Result<Reply, SearchError>
    ensures reply { IfOk result (λ reply. IsReplyIn searcher.now.regex.now line.now (utf8_runs line.now) ended (job prefix.entry.task) (text_of prefix.entry) reply.selected reply.count reply.bytes.items) }
    ensures failed { IfErr result (IsSearchError (IsCostly searcher.now.regex.now)) }
{
    let texts = utf8_runs(searcher.alloc, line)?;
    let line = Line {
        bytes: line,
        ended,
        texts: &texts,
    };
    reply_in(searcher, prefix, line)
}

/// Returns what a task writes for a line with these texts.
fn reply_in(
    searcher: &Searcher<'_>,
    prefix: Prefix<'_>,
    line: Line<'_>,
) -> Result<Reply, SearchError>
    requires { AreInLine (length line.bytes.now) 0 (map run_of line.texts.now) }
    ensures reply { IfOk result (λ reply. IsReplyIn searcher.now.regex.now line.entry.bytes.now (map run_of line.entry.texts.now) line.entry.ended (job prefix.entry.task)
        (text_of prefix.entry) reply.selected reply.count reply.bytes.items) }
    ensures failed { IfErr result (IsSearchError (IsCostly searcher.now.regex.now)) }
{
    match prefix.task {
        Task::Match(selection, colors) => {
            selected(searcher, show_of(selection, colors, false), prefix, line)
        }
        Task::Replace(replacement) => Ok(Reply {
            selected: true,
            count: count_for(searcher, replacement, line.texts)?,
            bytes: replaced_if(searcher, replacement, line)?,
        }),
    }
}

/// Searches a line once: for all matches only if they are shown.
fn selected(
    searcher: &Searcher<'_>,
    show: Show<'_>,
    prefix: Prefix<'_>,
    line: Line<'_>,
) -> Result<Reply, SearchError>
    requires { AreInLine (length line.bytes.now) 0 (map run_of line.texts.now) }
    ensures selected { IfOk result (λ reply. IsSelected searcher.now.regex.now (map run_of line.entry.texts.now) show.entry.invert reply.selected) }
    ensures count { IfOk result (λ reply. reply.count ≡ 1) }
    ensures shows { IfOk result (λ reply. ShowsIf searcher.now.regex.now line.entry.bytes.now (map run_of line.entry.texts.now) reply.selected show.entry.shown (line_paint_of show.entry.paint) (text_of prefix.entry) reply.bytes.items) }
    ensures failed { IfErr result (IsSearchError (IsCostly searcher.now.regex.now)) }
{
    if needs_matches(show) {
        selected_by_matches(searcher, show, prefix, line)
    } else {
        selected_by_test(searcher, show, prefix, line)
    }
}

/// Returns whether all matches of a selected line are needed to show it.
fn needs_matches(show: Show<'_>) -> bool
    ensures { result ≡ needs_matches show.entry.shown (line_paint_of show.entry.paint) }
{
    match show.shown {
        Shown::Lines => is_colored(show.paint.matched),
        Shown::Matches | Shown::Json => true,
        Shown::Count | Shown::Names | Shown::Nothing => false,
    }
}

/// Searches a line, of which no matches are shown.
fn selected_by_test(
    searcher: &Searcher<'_>,
    show: Show<'_>,
    prefix: Prefix<'_>,
    line: Line<'_>,
) -> Result<Reply, SearchError>
    requires { needs_matches show.shown (line_paint_of show.paint) ≡ false }
    ensures selected { IfOk result (λ reply. IsSelected searcher.now.regex.now (map run_of line.entry.texts.now) show.entry.invert reply.selected) }
    ensures count { IfOk result (λ reply. reply.count ≡ 1) }
    ensures shows { IfOk result (λ reply. ShowsIf searcher.now.regex.now line.entry.bytes.now (map run_of line.entry.texts.now) reply.selected show.entry.shown (line_paint_of show.entry.paint) (text_of prefix.entry) reply.bytes.items) }
    ensures failed { IfErr result (IsSearchError (IsCostly searcher.now.regex.now)) }
{
    let selected = is_selected(show.invert, match_in(searcher, line.texts)?);
    if selected {
        let bytes = plain(searcher.alloc, show, prefix, line.bytes)?;
        Ok(Reply {
            selected,
            count: 1,
            bytes,
        })
    } else {
        let bytes = Vec::new(searcher.alloc);
        Ok(Reply {
            selected,
            count: 1,
            bytes,
        })
    }
}

/// Searches a line, of which the matches are shown.
fn selected_by_matches(
    searcher: &Searcher<'_>,
    show: Show<'_>,
    prefix: Prefix<'_>,
    line: Line<'_>,
) -> Result<Reply, SearchError>
    requires order { AreInLine (length line.bytes.now) 0 (map run_of line.texts.now) }
    requires shows { needs_matches show.shown (line_paint_of show.paint) ≡ true }
    ensures selected { IfOk result (λ reply. IsSelected searcher.now.regex.now (map run_of line.entry.texts.now) show.entry.invert reply.selected) }
    ensures count { IfOk result (λ reply. reply.count ≡ 1) }
    ensures shows { IfOk result (λ reply. ShowsIf searcher.now.regex.now line.entry.bytes.now (map run_of line.entry.texts.now) reply.selected show.entry.shown (line_paint_of show.entry.paint) (text_of prefix.entry) reply.bytes.items) }
    ensures failed { IfErr result (IsSearchError (IsCostly searcher.now.regex.now)) }
{
    let found = search_texts(searcher, line.texts)?;
    let selected = is_selected(show.invert, has_match(&found));
    if selected {
        let bytes = shown(searcher, show, prefix, line.bytes, &found)?;
        Ok(Reply {
            selected,
            count: 1,
            bytes,
        })
    } else {
        let bytes = Vec::new(searcher.alloc);
        Ok(Reply {
            selected,
            count: 1,
            bytes,
        })
    }
}

/// Returns whether a line is selected, by whether the pattern matches in it.
fn is_selected(invert: bool, matches: bool) -> bool
    ensures { result ≡ (if invert then not matches else matches) }
{
    if invert { !matches } else { matches }
}

/// Returns whether the pattern matches in one of the texts.
fn match_in(searcher: &Searcher<'_>, texts: &[Run<'_>]) -> Result<bool, SearchError>
    ensures matches { IfOk result (λ matches. IsTrue matches ↔ MatchesIn searcher.now.regex.now (map run_of texts.now)) }
    ensures failed { IfErr result (IsSearchError (IsCostly searcher.now.regex.now)) }
{
    for run in texts {
        if searcher.is_match(run.text)? {
            return Ok(true);
        }
    }
    Ok(false)
}

/// Returns the texts, each with all matches in it.
fn search_texts<'a>(
    searcher: &'a Searcher<'a>,
    texts: &[Run<'a>],
) -> Result<Vec<TextMatches<'a>>, SearchError>
    ensures searched { IfOk result (λ found. AreSearched searcher.now.regex.now (map run_of texts.now) (map matches_of found.items)) }
    ensures inside { IfOk result (λ found. All AreInText found.items) }
    ensures failed { IfErr result (IsSearchError (IsCostly searcher.now.regex.now)) }
{
    let mut found = Vec::new(searcher.alloc);
    for run in texts {
        let matches = searcher.find_all(run.text)?;
        found.push(TextMatches { run: *run, matches })?;
    }
    Ok(found)
}

/// Returns whether there is a match in one of the texts.
fn has_match(found: &[TextMatches<'_>]) -> bool
    ensures { IsTrue result ↔ HasMatch (map matches_of found.now) }
{
    for text in found {
        if !text.matches.is_empty() {
            return true;
        }
    }
    false
}

/// Returns what is written for a selected line with these matches.
fn shown(
    searcher: &Searcher<'_>,
    show: Show<'_>,
    prefix: Prefix<'_>,
    line: &[u8],
    found: &[TextMatches<'_>],
) -> Result<Vec<u8>, AllocError>
    requires order { AreInLine (length line.now) 0 (map (λ f. f.run) (map matches_of found.now)) }
    requires inside { All AreInText found.now }
    requires shows { needs_matches show.shown (line_paint_of show.paint) ≡ true }
    ensures { IfOk result (λ bytes. bytes.items ≡ shown_by searcher.now.regex.now line.now show.entry.shown (line_paint_of show.entry.paint) (text_of prefix.entry) (map matches_of found.now)) }
{
    let prefix = prefix_text(searcher.alloc, prefix)?;
    match show.shown {
        Shown::Lines => painted_line(searcher.alloc, show.paint, &prefix, line, found),
        Shown::Matches => all_matches(searcher.alloc, show.paint.matched, &prefix, found),
        Shown::Json => all_json(searcher.alloc, searcher.regex, &prefix, found),
        Shown::Count | Shown::Names | Shown::Nothing => Ok(Vec::new(searcher.alloc)),
    }
}

/// Returns what is written for a selected line without its matches.
fn plain(
    alloc: Global,
    show: Show<'_>,
    prefix: Prefix<'_>,
    line: &[u8],
) -> Result<Vec<u8>, AllocError>
    ensures { IfOk result (λ bytes. bytes.items ≡ plain line.now show.entry.shown (paint_of show.entry.paint.rest) (text_of prefix.entry)) }
{
    match show.shown {
        Shown::Lines => whole_line(alloc, show.paint.rest, prefix, line),
        Shown::Matches | Shown::Json | Shown::Count | Shown::Names | Shown::Nothing => {
            Ok(Vec::new(alloc))
        }
    }
}

/// Returns the line, with `prefix` in front.
fn whole_line(
    alloc: Global,
    paint: Paint<'_>,
    prefix: Prefix<'_>,
    line: &[u8],
) -> Result<Vec<u8>, AllocError>
    ensures { IfOk result (λ bytes. bytes.items ≡ text_of prefix.entry ++ ended (painted_rest (paint_of paint.entry) line.now)) }
{
    let mut bytes = prefix_text(alloc, prefix)?;
    add_rest(paint, line, &mut bytes)?;
    bytes.push(b'\n')?;
    Ok(bytes)
}

/// Returns a line for each match that is not empty.
fn all_matches(
    alloc: Global,
    paint: Paint<'_>,
    prefix: &[u8],
    found: &[TextMatches<'_>],
) -> Result<Vec<u8>, AllocError>
    requires { All AreInText found.now }
    ensures { IfOk result (λ bytes. bytes.items ≡ flat_map (matches_shown (paint_of paint.entry) prefix.now) (map matches_of found.now)) }
{
    let mut bytes = Vec::new(alloc);
    for text in found {
        add_matches(paint, prefix, text, &mut bytes)?;
    }
    Ok(bytes)
}

/// Adds a line for each match in a text that is not empty.
fn add_matches(
    paint: Paint<'_>,
    prefix: &[u8],
    text: &TextMatches<'_>,
    to: &mut Vec<u8>,
) -> Result<(), AllocError>
    requires { AreInText text.now }
    ensures { OnOk result (to.new.items ≡ to.old.items ++ matches_shown (paint_of paint.entry) prefix.now (matches_of text.now)) }
{
    for found in &text.matches {
        add_shown_match(paint, prefix, text.run, found, to)?;
    }
    Ok(())
}

/// Adds a line with a match, with `prefix` in front, unless it is empty.
pub(crate) fn add_shown_match(
    paint: Paint<'_>,
    prefix: &[u8],
    run: Run<'_>,
    found: &Match<'_>,
    to: &mut Vec<u8>,
) -> Result<(), AllocError>
    requires { IsInside run.text.now (match_of found.now) }
    ensures { OnOk result (to.new.items ≡ to.old.items ++ shown_match (paint_of paint.entry) prefix.now run.entry.text.now (match_of found.now)) }
{
    let matched = &run.text[found.start()..found.end()];
    if !matched.is_empty() {
        add_match(paint, prefix, matched, to)?;
    }
    Ok(())
}

/// Adds a line with a match, with `prefix` in front.
fn add_match(
    paint: Paint<'_>,
    prefix: &[u8],
    text: &str,
    to: &mut Vec<u8>,
) -> Result<(), AllocError>
    ensures { OnOk result (to.new.items ≡ to.old.items ++ (prefix.now ++ ended (painted (paint_of paint.entry) text.now))) }
{
    to.extend_from_slice(prefix)?;
    add_painted(paint, text.as_bytes(), to)?;
    to.push(b'\n')?;
    Ok(())
}

/// Returns for how many a line with these texts counts.
fn count_for(
    searcher: &Searcher<'_>,
    replacement: Replacement<'_>,
    texts: &[Run<'_>],
) -> Result<u64, SearchError>
    ensures count { IfOk result (λ count. CountsFor searcher.now.regex.now replacement.entry.counts (map run_of texts.now) replacement.entry.limit count) }
    ensures failed { IfErr result (IsSearchError (IsCostly searcher.now.regex.now)) }
{
    if replacement.counts {
        replaced_count(searcher, replacement.limit, texts)
    } else {
        Ok(1)
    }
}

/// Returns whether the lines are written: if matches are counted, only to files that are rewritten.
fn writes_lines(replacement: Replacement<'_>) -> bool
    ensures { result ≡ writes_lines (replacement_of replacement.entry) }
{
    !replacement.counts || replacement.in_place.is_some()
}

/// Returns the line with the matches in its texts replaced, if it is written.
fn replaced_if(
    searcher: &Searcher<'_>,
    replacement: Replacement<'_>,
    line: Line<'_>,
) -> Result<Vec<u8>, SearchError>
    requires { AreInLine (length line.bytes.now) 0 (map run_of line.texts.now) }
    ensures replaced { IfOk result (λ bytes. ShowsReplacedIf searcher.now.regex.now line.entry.bytes.now (writes_lines (replacement_of replacement.entry))
        (map run_of line.entry.texts.now) line.entry.ended (replacement_of replacement.entry) bytes.items) }
    ensures failed { IfErr result (IsSearchError (IsCostly searcher.now.regex.now)) }
{
    if writes_lines(replacement) {
        replaced(searcher, replacement, line)
    } else {
        Ok(Vec::new(searcher.alloc))
    }
}

/// Returns how many matches in the texts are replaced.
fn replaced_count(
    searcher: &Searcher<'_>,
    limit: Option<u64>,
    texts: &[Run<'_>],
) -> Result<u64, SearchError>
    ensures count { IfOk result (λ count. IsReplacedCount searcher.now.regex.now (map run_of texts.now) limit count) }
    ensures failed { IfErr result (IsSearchError (IsCostly searcher.now.regex.now)) }
{
    let found = search_texts(searcher, texts)?;
    match match_count(&found) {
        Some(count) => Ok(at_most(limit, count)),
        None => Err(SearchError::Memory),
    }
}

/// Returns how many matches are in the texts, if that has 64 bits.
fn match_count(found: &[TextMatches<'_>]) -> Option<u64>
    ensures { IfSome result (λ count. count ≡ match_count (map matches_of found.now)) }
{
    let mut count: u64 = 0;
    for text in found {
        count = count.checked_add(text.matches.len() as u64)?;
    }
    Some(count)
}

/// Returns the number, or the limit if that is less.
fn at_most(limit: Option<u64>, number: u64) -> u64
    ensures { result ≡ at_most limit number }
{
    match limit {
        Some(limit) if limit < number => limit,
        Some(_) | None => number,
    }
}

/// Returns the line with the matches in its texts replaced, and its line feed.
fn replaced(
    searcher: &Searcher<'_>,
    replacement: Replacement<'_>,
    line: Line<'_>,
) -> Result<Vec<u8>, SearchError>
    requires { AreInLine (length line.bytes.now) 0 (map run_of line.texts.now) }
    ensures replaced { IfOk result (λ bytes. ShowsReplaced searcher.now.regex.now line.entry.bytes.now (map run_of line.entry.texts.now) line.entry.ended (replacement_of replacement.entry) bytes.items) }
    ensures failed { IfErr result (IsSearchError (IsCostly searcher.now.regex.now)) }
{
    let mut bytes = Vec::new(searcher.alloc);
    add_replaced(searcher, replacement, line, &mut bytes)?;
    add_feed_if(line.ended, &mut bytes)?;
    Ok(bytes)
}

/// Adds a line feed, if there is to be one.
fn add_feed_if(ended: bool, to: &mut Vec<u8>) -> Result<(), AllocError>
    ensures { OnOk result (to.new.items ≡ to.old.items ++ feed_if ended) }
{
    if ended {
        to.push(b'\n')?;
    }
    Ok(())
}

/// Adds the line with the matches in its texts replaced.
fn add_replaced(
    searcher: &Searcher<'_>,
    replacement: Replacement<'_>,
    line: Line<'_>,
    to: &mut Vec<u8>,
) -> Result<(), SearchError>
    requires { AreInLine (length line.bytes.now) 0 (map run_of line.texts.now) }
    ensures replaced { OnOk result ((out : List ℕ)
        × IsReplacedFrom searcher.now.regex.now line.entry.bytes.now replacement.entry.template.now replacement.entry.limit 0 (map run_of line.entry.texts.now) out
        × (to.new.items ≡ to.old.items ++ out)) }
    ensures failed { IfErr result (IsSearchError (IsCostly searcher.now.regex.now)) }
{
    let mut from = 0;
    let mut limit = replacement.limit;
    for run in line.texts {
        to.extend_from_slice(&line.bytes[from..run.start])?;
        let (text, left) = replaced_text(searcher, replacement.template, limit, run.text)?;
        to.extend_from_slice(text.as_bytes())?;
        limit = left;
        from = run.start + run.text.len();
    }
    to.extend_from_slice(&line.bytes[from..])?;
    Ok(())
}

/// Returns the text with its matches replaced, or the first ones up to a limit, and how many more may be replaced.
fn replaced_text(
    searcher: &Searcher<'_>,
    template: &str,
    limit: Option<u64>,
    text: &str,
) -> Result<(String, Option<u64>), SearchError>
    ensures replaced { IfOk result (λ out. ReplacesUpTo searcher.now.regex.now template.now limit text.now (string_bytes out.0) out.1) }
    ensures failed { IfErr result (IsSearchError (IsCostly searcher.now.regex.now)) }
{
    let regex = searcher.regex;
    match limit {
        None => {
            let replaced = regex.replace_all(searcher.alloc, text, template)?;
            Ok((replaced, None))
        }
        Some(limit) => {
            let (replaced, count) = regex.replacen(searcher.alloc, text, template, limit as usize)?;
            Ok((replaced, Some(limit.saturating_sub(count as u64))))
        }
    }
}
