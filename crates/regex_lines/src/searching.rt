//! Searches the lines of an input.
ghost use Rattle.std.specs.Prelude.{◌≡◌, ℕ, ◌+◌, ◌-◌, ◌<◌, ◌≤◌, List, [], ◌++◌, IfOk, IfErr, OnOk, false, if◌then◌else◌, length, map, option_map, true};
ghost use Rattle.std.specs.Io.KnownBytes.{Appends};
ghost use Rattle.regex_lines.specs.Reply.{IsReply, shows_matches, writes_matches};
ghost use Rattle.regex_lines.specs.Reading.{IsRead};
ghost use Rattle.regress_arguments.specs.Output.{Took};
ghost use Rattle.regex_lines.specs.Ending.{AfterFailure, IsCostly, IsInputFailure, IsSearchFailure, OrOutput};
ghost use Rattle.regex_options.specs.Colors.{plain_colors};
ghost use Rattle.regex_options.specs.Plain.{job};
ghost use Rattle.regex_lines.specs.Searched.{AreNear, IsAccepted, IsBegunLine, IsFirstOrNone, IsFound, IsNear, colors_of, named, SearchesAll, SearchesFirst, SearchesPart, context_of, lines_after, lines_before, prefix_of, is_enough, is_over, needs_one, reaches, separator, shown_at_end, written_at_end};
ghost use Rattle.regex_lines.specs.Window.{IsCounted, IsInFront, IsNextLine, IsOther, IsShown, IsShownBy, separator_of, window_of};

use crate::failure::{Failure, read_failure};
use crate::matches::{MatchWriter, write_matches};
use crate::paint::{Part, add_painted, paint_in};
use crate::place::Place;
use crate::prefix::{Prefix, add_name_in_front, add_name_line, colors_of};
use crate::printing::{flush_if, write_at, write_bytes};
use crate::reading::{Next, is_ended, is_last, read_next};
use crate::reply::{Reply, near, reply_to, show_of};
use crate::searcher::Searcher;
use crate::unread::{Reason, Unread};
use crate::window::Window;
use regex_options::{Colors, Context, Encoding, Shown, Task};
use std::alloc::{AllocError, Global};
use std::io::{BufRead, Write};
use std::str;

/// What is done with the lines of an input.
#[derive(Clone, Copy)]
pub(crate) struct InputSearch<'s, 'a> {
    pub(crate) searcher: &'s Searcher<'s>,
    pub(crate) task: Task<'a>,
    pub(crate) place: Place<'a>,
    /// Whether what is shown of a line is written at once.
    pub(crate) at_once: bool,
}

impl<'s, 'a> InputSearch<'s, 'a> {
    ghost use Rattle.std.specs.Prelude.{◌≡◌};

    /// Returns what is in front of the line with this number, which may be near a selected one.
    fn prefix(self, number: u64, near: bool) -> Prefix<'a>
        ensures task { result.task ≡ self.entry.task }
        ensures place { result.place ≡ self.entry.place }
        ensures number { result.number ≡ number }
        ensures near { result.near ≡ near }
    {
        Prefix {
            task: self.task,
            place: self.place,
            number,
            near,
        }
    }
}

/// Writes what a task shows of each line of an input until enough are selected, and returns how many are.
pub(crate) fn search_lines<'a, B: BufRead, W: Write>(
    search: InputSearch<'_, 'a>,
    reader: &mut B,
    out: &mut W,
) -> Result<u64, Failure<'a>>
    ensures all { IfOk result (SearchesAll search.entry.searcher.now.regex.now (job search.entry.task) (named search.entry.place) (B.Read.remaining reader.old) (W.contents out.old) (W.contents out.new)) }
    ensures first { IfErr result (AfterFailure (SearchesFirst search.entry.searcher.now.regex.now (job search.entry.task) (named search.entry.place) (B.Read.remaining reader.old) (W.contents out.old) (W.contents out.new))
        (SearchesPart search.entry.searcher.now.regex.now (job search.entry.task) (named search.entry.place) (B.Read.remaining reader.old) (W.contents out.old) (W.contents out.new))) }
    ensures failed { IfErr result (IsInputFailure (IsCostly search.entry.searcher.now.regex.now)) }
{
    let mut line = Vec::new(search.searcher.alloc);
    let mut window = Window::new(search.searcher.alloc);
    while window.number < u64::MAX {
        if is_over(search.task, window.selected, window.due) {
            return Ok(window.selected);
        }
        let next = next_line(reader, search.place, &mut line)?;
        if let Next::End = next {
            return Ok(window.selected);
        }
        search_line(search, &mut window, &mut line, is_ended(next), out)?;
        if is_last(next) {
            return Ok(window.selected);
        }
    }
    Err(too_long(search))
}

/// Returns the failure of an input that has too many lines or matches.
fn too_long<'a>(search: InputSearch<'_, '_>) -> Failure<'a>
    ensures failed { IsInputFailure (IsCostly search.entry.searcher.now.regex.now) result }
{
    match String::from_str(search.searcher.alloc, search.place.name()) {
        Ok(name) => Failure::TooLong(name),
        Err(_) => Failure::Memory,
    }
}

/// Returns whether enough lines are selected, and those after the last of them are shown.
fn is_over(task: Task<'_>, selected: u64, due: u64) -> bool
    ensures { result ≡ is_over (job task.entry) selected due }
{
    is_enough(task, selected) && due == 0
}

/// Returns whether this many selected lines are enough.
fn is_enough(task: Task<'_>, selected: u64) -> bool
    ensures { result ≡ is_enough (job task.entry) selected }
{
    match task {
        Task::Match(selection, _) => {
            reaches(selection.max_count, selected) || (needs_one(selection.shown) && selected > 0)
        }
        Task::Replace(_) => false,
    }
}

pub(crate) fn reaches(limit: Option<u64>, number: u64) -> bool
    ensures { result ≡ reaches limit number }
{
    match limit {
        Some(limit) => number >= limit,
        None => false,
    }
}

/// Returns whether what is shown does not depend on lines after the first selected one.
fn needs_one(shown: Shown) -> bool
    ensures { result ≡ needs_one shown }
{
    match shown {
        Shown::Lines | Shown::Matches | Shown::Json | Shown::Count => false,
        Shown::Names | Shown::Nothing => true,
    }
}

/// Reads the next line.
fn next_line<'a, B: BufRead>(
    reader: &mut B,
    place: Place<'a>,
    line: &mut Vec<u8>,
) -> Result<Next, Failure<'a>>
    ensures read { IfOk result (IsRead place.entry.form.multiline (B.Read.remaining reader.old) (B.Read.remaining reader.new) line.new.items) }
    ensures failed { IfErr result (IsInputFailure ⊥) }
{
    match read_next(reader, place.form.multiline, line) {
        Ok(next) => Ok(next),
        Err(error) => Err(read_failure(error, place.name())),
    }
}

/// Searches the next line, unless enough lines are selected, and writes what is shown: matches as they are found, if only these
/// are shown. Another line may be in `line` then.
fn search_line<'a, W: Write>(
    search: InputSearch<'_, 'a>,
    window: &mut Window,
    line: &mut Vec<u8>,
    ended: bool,
    out: &mut W,
) -> Result<(), Failure<'a>>
    requires below { window.old.number < u64.MAX }
    requires counted { IsCounted (window_of window.old) }
    requires kept { length window.old.hidden.items ≤ lines_before (context_of (job search.task)) }
    ensures next { OnOk result (Took (W.contents out.old) (W.contents out.new)
        (IsNextLine search.entry.searcher.now.regex.now (job search.entry.task) (named search.entry.place) (window_of window.old) (record { bytes = line.old.items; ended = ended }) (window_of window.new))) }
    ensures failed { IfErr result (IsInputFailure (IsCostly search.entry.searcher.now.regex.now)) }
    ensures part { IfErr result (AfterFailure (Appends (W.contents out.old) (W.contents out.new) []) (Took (W.contents out.old) (W.contents out.new)
        (IsBegunLine search.entry.searcher.now.regex.now (job search.entry.task) (named search.entry.place) (is_enough (job search.entry.task) window.old.selected) (window.old.number + 1)
        (record { bytes = line.old.items; ended = ended })))) }
{
    accept(search, window.number + 1, line)?;
    if writes_matches(search.task) && !is_enough(search.task, window.selected) {
        return search_matches(search, window, line, out);
    }
    search_whole(search, window, line, ended, out)
}

/// Searches the next line, unless enough lines are selected, and then writes what is shown.
fn search_whole<'a, W: Write>(
    search: InputSearch<'_, 'a>,
    window: &mut Window,
    line: &mut Vec<u8>,
    ended: bool,
    out: &mut W,
) -> Result<(), Failure<'a>>
    requires below { window.old.number < u64.MAX }
    requires counted { IsCounted (window_of window.old) }
    requires kept { length window.old.hidden.items ≤ lines_before (context_of (job search.task)) }
    requires accepted { IsAccepted search.place.form.encoding line.old.items }
    ensures next { OnOk result (Took (W.contents out.old) (W.contents out.new)
        (IsNextLine search.entry.searcher.now.regex.now (job search.entry.task) (named search.entry.place) (window_of window.old) (record { bytes = line.old.items; ended = ended }) (window_of window.new))) }
    ensures failed { IfErr result (IsInputFailure (IsCostly search.entry.searcher.now.regex.now)) }
    ensures untouched { IfErr result (OrOutput (out.new ≡ out.old)) }
{
    let reply = found(search, window, line, ended)?;
    if reply.selected {
        show_selected(search, window, reply, out)
    } else {
        show_other(search, window, line, out)
    }
}

/// Returns whether matches are written as they are found: if only matches of selected lines are shown.
fn writes_matches(task: Task<'_>) -> bool
    ensures { result ≡ writes_matches (job task.entry) }
{
    match task {
        Task::Match(selection, _) => {
            shows_matches(selection.shown) && !selection.invert && selection.context.is_none()
        }
        Task::Replace(_) => false,
    }
}

/// Returns whether matches are shown.
fn shows_matches(shown: Shown) -> bool
    ensures { result ≡ shows_matches shown }
{
    match shown {
        Shown::Matches | Shown::Json => true,
        Shown::Lines | Shown::Count | Shown::Names | Shown::Nothing => false,
    }
}

/// Searches the next line, and writes its matches as they are found.
fn search_matches<'a, W: Write>(
    search: InputSearch<'_, 'a>,
    window: &mut Window,
    line: &mut Vec<u8>,
    out: &mut W,
) -> Result<(), Failure<'a>>
    requires below { window.old.number < u64.MAX }
    requires kept { length window.old.hidden.items ≤ lines_before (context_of (job search.task)) }
    requires writes { writes_matches (job search.task) ≡ true }
    ensures shown { OnOk result (Took (W.contents out.old) (W.contents out.new) (IsShownBy search.entry.searcher.now.regex.now (job search.entry.task) (named search.entry.place)
        (window_of window.old) line.old.items (window_of window.new))) }
    ensures failed { IfErr result (IsInputFailure (IsCostly search.entry.searcher.now.regex.now)) }
    ensures part { IfErr result (AfterFailure (Appends (W.contents out.old) (W.contents out.new) []) (Took (W.contents out.old) (W.contents out.new)
        (IsFirstOrNone search.entry.searcher.now.regex.now (job search.entry.task) (named search.entry.place) (window.old.number + 1) line.old.items))) }
{
    let Some(selected) = window.selected.checked_add(1) else {
        return Err(too_long(search));
    };
    if write_found(search, window.number + 1, line, out)? {
        flush_if(search.at_once, out)?;
        window.select(selected, lines_after(search.task));
        Ok(())
    } else {
        show_other(search, window, line, out)
    }
}

/// Writes the matches of the line with this number as they are found, and returns whether there is one.
fn write_found<'a, W: Write>(
    search: InputSearch<'_, 'a>,
    number: u64,
    line: &[u8],
    out: &mut W,
) -> Result<bool, Failure<'a>>
    requires { writes_matches (job search.task) ≡ true }
    ensures reply { IfOk result (λ selected. Took (W.contents out.old) (W.contents out.new) (λ bytes. IsReply search.entry.searcher.now.regex.now line.now false (job search.entry.task)
        (prefix_of false (job search.entry.task) (named search.entry.place) number) selected 1 bytes)) }
    ensures first { IfErr result (OrOutput (Took (W.contents out.old) (W.contents out.new)
        (IsFirstOrNone search.entry.searcher.now.regex.now (job search.entry.task) (named search.entry.place) number line.now))) }
    ensures failed { IfErr result (IsSearchFailure (IsCostly search.entry.searcher.now.regex.now)) }
{
    match search.task {
        Task::Match(selection, colors) => {
            let writer = MatchWriter {
                searcher: search.searcher,
                show: show_of(selection, colors, false),
                prefix: search.prefix(number, false),
            };
            write_matches(writer, line, out)
        }
        Task::Replace(_) => Ok(false),
    }
}

/// Checks that the line with this number may be searched.
///
/// # Errors
/// Returns that the line is not UTF-8, if it has to be.
fn accept<'a>(search: InputSearch<'_, 'a>, number: u64, line: &[u8]) -> Result<(), Failure<'a>>
    ensures accepted { OnOk result (IsAccepted search.entry.place.form.encoding line.now) }
    ensures refused { IfErr result (λ _. IsAccepted search.entry.place.form.encoding line.now → ⊥) }
    ensures failed { IfErr result (IsInputFailure (IsCostly search.entry.searcher.now.regex.now)) }
{
    match search.place.form.encoding {
        Encoding::Bytes => Ok(()),
        Encoding::Utf8 => match str::from_utf8(line) {
            Ok(_) => Ok(()),
            Err(error) => Err(Failure::Unreadable(Unread {
                name: search.place.name(),
                reason: Reason::LineNotUtf8 {
                    number,
                    offset: error.valid_up_to(),
                },
            })),
        },
    }
}

/// Returns whether the next line is selected, and what is written for it then: it is not once enough lines are.
fn found<'a>(
    search: InputSearch<'_, 'a>,
    window: &Window,
    line: &[u8],
    ended: bool,
) -> Result<Reply, Failure<'a>>
    requires { window.now.number < u64.MAX }
    ensures found { IfOk result (λ reply. IsFound search.entry.searcher.now.regex.now (job search.entry.task) (named search.entry.place)
        (is_enough (job search.entry.task) window.now.selected) (window.now.number + 1) (record { bytes = line.now; ended = ended }) reply.selected reply.count reply.bytes.items) }
    ensures failed { IfErr result (IsInputFailure (IsCostly search.entry.searcher.now.regex.now)) }
{
    if is_enough(search.task, window.selected) {
        return Ok(Reply {
            selected: false,
            count: 0,
            bytes: Vec::new(search.searcher.alloc),
        });
    }
    reply(search, window.number + 1, line, ended)
}

/// Writes what is shown for a selected line, after the lines in front of it.
fn show_selected<'a, W: Write>(
    search: InputSearch<'_, 'a>,
    window: &mut Window,
    reply: Reply,
    out: &mut W,
) -> Result<(), Failure<'a>>
    requires below { window.old.number < u64.MAX }
    requires counted { IsCounted (window_of window.old) }
    ensures shown { OnOk result (Took (W.contents out.old) (W.contents out.new) (IsShown search.entry.searcher.now.regex.now (job search.entry.task) (named search.entry.place)
        true (window_of window.old) [] reply.count reply.bytes.items (window_of window.new))) }
    ensures failed { IfErr result (IsInputFailure (IsCostly search.entry.searcher.now.regex.now)) }
    ensures untouched { IfErr result (OrOutput (out.new ≡ out.old)) }
{
    let Some(selected) = window.selected.checked_add(reply.count) else {
        return Err(too_long(search));
    };
    let shown = with_front(search, window, reply.bytes)?;
    write_at(search.at_once, &shown, out)?;
    window.select(selected, lines_after(search.task));
    Ok(())
}

/// Returns what is shown for a selected line, after a separator and the lines in the window.
fn with_front<'a>(
    search: InputSearch<'_, 'a>,
    window: &Window,
    bytes: Vec<u8>,
) -> Result<Vec<u8>, Failure<'a>>
    requires { IsCounted (window_of window.now) }
    ensures front { IfOk result (λ shown. (front : List ℕ)
        × IsInFront search.entry.searcher.now.regex.now (job search.entry.task) (named search.entry.place) (window_of window.now) front
        × (shown.items ≡ front ++ bytes.items)) }
    ensures failed { IfErr result (IsInputFailure (IsCostly search.entry.searcher.now.regex.now)) }
{
    let is_apart = is_apart(search, window);
    if !is_apart && window.hidden.is_empty() {
        return Ok(bytes);
    }
    let mut shown = Vec::new(search.searcher.alloc);
    if is_apart {
        add_separator(search.task, &mut shown)?;
    }
    add_hidden(search, window, &mut shown)?;
    shown.extend_from_slice(&bytes)?;
    Ok(shown)
}

/// Returns whether a separator is in front of the lines in the window, since lines are left out before them.
fn is_apart(search: InputSearch<'_, '_>, window: &Window) -> bool
    ensures { separator_of (job search.entry.task) (named search.entry.place) (window_of window.now)
        ≡ (if result then separator (colors_of (job search.entry.task)) (context_of (job search.entry.task)) else []) }
{
    let is_left_out = if window.selected == 0 {
        search.place.follows
    } else {
        window.left_out
    };
    is_left_out && context_of(search.task).is_some()
}

/// Adds the line between lines that are not adjacent.
fn add_separator(task: Task<'_>, to: &mut Vec<u8>) -> Result<(), AllocError>
    ensures { OnOk result (to.new.items ≡ to.old.items ++ separator (colors_of (job task.entry)) (context_of (job task.entry))) }
{
    if context_of(task).is_some() {
        add_painted(paint_in(colors_of(task), Part::Separator), b"--", to)?;
        to.push(b'\n')?;
    }
    Ok(())
}

/// Adds what is shown of the lines in the window.
fn add_hidden<'a>(
    search: InputSearch<'_, 'a>,
    window: &Window,
    to: &mut Vec<u8>,
) -> Result<(), Failure<'a>>
    requires { IsCounted (window_of window.now) }
    ensures hidden { OnOk result ((before : List ℕ) × AreNear search.entry.searcher.now.regex.now (job search.entry.task) (named search.entry.place)
        (window.now.number + 1 - length window.now.hidden.items) (map (λ line. line.items) window.now.hidden.items) before
        × (to.new.items ≡ to.old.items ++ before)) }
    ensures failed { IfErr result (IsInputFailure (IsCostly search.entry.searcher.now.regex.now)) }
{
    let mut number = window.number - window.hidden.len() as u64;
    for index in 0..window.hidden.len() {
        number += 1;
        let bytes = near_text(search, number, &window.hidden[index])?;
        to.extend_from_slice(&bytes)?;
    }
    Ok(())
}

/// Returns what is written for the line with this number, which is near a selected one.
fn near_text<'a>(
    search: InputSearch<'_, 'a>,
    number: u64,
    line: &[u8],
) -> Result<Vec<u8>, Failure<'a>>
    ensures near { IfOk result (λ bytes. IsNear search.entry.searcher.now.regex.now (job search.entry.task) (named search.entry.place) number line.now bytes.items) }
    ensures failed { IfErr result (IsInputFailure (IsCostly search.entry.searcher.now.regex.now)) }
{
    Ok(near(search.searcher, search.prefix(number, true), line)?)
}

/// Writes what is shown for a line that is not selected: nothing, or the line if it is one of those after a selected one.
fn show_other<'a, W: Write>(
    search: InputSearch<'_, 'a>,
    window: &mut Window,
    line: &mut Vec<u8>,
    out: &mut W,
) -> Result<(), Failure<'a>>
    requires below { window.old.number < u64.MAX }
    requires kept { length window.old.hidden.items ≤ lines_before (context_of (job search.task)) }
    ensures shown { OnOk result (Took (W.contents out.old) (W.contents out.new) (IsOther search.entry.searcher.now.regex.now (job search.entry.task) (named search.entry.place)
        (window_of window.old) line.old.items (window_of window.new))) }
    ensures failed { IfErr result (IsInputFailure (IsCostly search.entry.searcher.now.regex.now)) }
    ensures untouched { IfErr result (OrOutput (out.new ≡ out.old)) }
{
    if window.due == 0 {
        window.hide(search.searcher.alloc, lines_before(search.task), line)?;
        return Ok(());
    }
    let bytes = near_text(search, window.number + 1, line)?;
    write_at(search.at_once, &bytes, out)?;
    window.follow();
    Ok(())
}

/// Returns how many lines around selected ones are shown.
fn context_of(task: Task<'_>) -> Option<Context>
    ensures { result ≡ context_of (job task.entry) }
{
    match task {
        Task::Match(selection, _) => selection.context,
        Task::Replace(_) => None,
    }
}

fn lines_before(task: Task<'_>) -> u64
    ensures { result ≡ lines_before (context_of (job task.entry)) }
{
    match context_of(task) {
        Some(context) => context.before,
        None => 0,
    }
}

fn lines_after(task: Task<'_>) -> u64
    ensures { result ≡ lines_after (context_of (job task.entry)) }
{
    match context_of(task) {
        Some(context) => context.after,
        None => 0,
    }
}

/// Returns what a task writes for the line with this number.
fn reply<'a>(
    search: InputSearch<'_, 'a>,
    number: u64,
    line: &[u8],
    ended: bool,
) -> Result<Reply, Failure<'a>>
    ensures reply { IfOk result (λ reply. IsReply search.entry.searcher.now.regex.now line.now ended (job search.entry.task)
        (prefix_of false (job search.entry.task) (named search.entry.place) number) reply.selected reply.count reply.bytes.items) }
    ensures failed { IfErr result (IsInputFailure (IsCostly search.entry.searcher.now.regex.now)) }
{
    Ok(reply_to(search.searcher, search.prefix(number, false), line, ended)?)
}

/// Writes what a task shows at the end of an input with this many selected lines.
pub(crate) fn write_end<'a, W: Write>(
    search: InputSearch<'_, 'a>,
    selected: u64,
    out: &mut W,
) -> Result<(), Failure<'a>>
    ensures end { OnOk result (Appends (W.contents out.old) (W.contents out.new) (written_at_end (job search.entry.task) (named search.entry.place) selected)) }
    ensures failed { IfErr result (IsInputFailure (IsCostly search.entry.searcher.now.regex.now)) }
    ensures untouched { IfErr result (OrOutput (out.new ≡ out.old)) }
{
    let end = end(search.searcher.alloc, search.task, search.place, selected)?;
    write_bytes(&end, out)
}

fn end(
    alloc: Global,
    task: Task<'_>,
    place: Place<'_>,
    selected: u64,
) -> Result<Vec<u8>, AllocError>
    ensures { IfOk result (λ end. end.items ≡ written_at_end (job task.entry) (named place.entry) selected) }
{
    match task {
        Task::Match(selection, colors) => end_by(alloc, selection.shown, colors, place, selected),
        Task::Replace(replacement) if replacement.counts => {
            end_by(alloc, Shown::Count, None, place, selected)
        }
        Task::Replace(_) => Ok(Vec::new(alloc)),
    }
}

/// Returns what is shown at the end of an input with this many selected lines or matches.
fn end_by(
    alloc: Global,
    shown: Shown,
    colors: Option<&Colors<'_>>,
    place: Place<'_>,
    selected: u64,
) -> Result<Vec<u8>, AllocError>
    ensures { IfOk result (λ end. end.items ≡ shown_at_end shown (option_map (λ colors. plain_colors colors.now) colors.entry) (named place.entry) selected) }
{
    let mut end = Vec::new(alloc);
    match shown {
        Shown::Count => {
            add_name_in_front(colors, place, false, &mut end)?;
            end.extend_from_slice(format!(in alloc; "{selected}\n")?.as_bytes())?;
        }
        Shown::Names if selected > 0 => add_name_line(colors, place, &mut end)?,
        Shown::Lines | Shown::Matches | Shown::Json | Shown::Names | Shown::Nothing => {}
    }
    Ok(end)
}
