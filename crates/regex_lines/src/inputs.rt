//! The files that are searched, or standard input.
ghost use Rattle.std.specs.Prelude.{◌≡◌, [], IfOk, IfErr, None, false, is_some, map, string_bytes, true};
ghost use Rattle.regex_lines.specs.Ending.{AfterFailure, IsCostly, IsInputFailure, IsSearchFailure, OrOutput};
ghost use Rattle.regex_lines.specs.Left.{left_of};
ghost use Rattle.regex_lines.specs.Searched.{AddsInput, WritesInput, WritesInputs, WritesSomeOf, bytes_of, following, has_nulls, has_ended, inputs_of, is_in_place, left_after, named, place_of, shows_names, PrintsLines, PrintsPart};
ghost use Rattle.regex_lines.specs.Unread.{IsSkipped, all_unread};
ghost use Rattle.regex_options.specs.Plain.{job};

use crate::failure::{Failure, read_failure};
use crate::place::{Place, is_standard};
use crate::reading::BUFFER;
use crate::rewriting::{rewrite_file, unwritten};
use crate::searcher::Searcher;
use crate::searching::{InputSearch, reaches, search_lines, write_end};
use crate::unread::Unread;
use regex_options::{FileNames, InputForm, Shown, Task};
use regress::Regex;
use std::fs::{File, Files};
use std::io::{self, BufRead, BufReader, Read, Write};

/// What a search in inputs ended with.
#[derive(Drop)]
pub struct Searched<'a> {
    /// Whether a line is selected, or why the search failed.
    pub result: Result<bool, Failure<'a>>,
    /// The inputs that were not read to their ends because of an error, in order.
    pub unread: Vec<Unread<'a>>,
}

/// A task for the lines of files.
#[derive(Clone, Copy)]
pub struct FileSearch<'a> {
    /// What is done with each line.
    pub task: Task<'a>,
    /// How an input is read.
    pub form: InputForm,
    /// Whether each line is written at once, and not with those after it.
    pub at_once: bool,
    /// The names of the files.
    pub files: &'a [String],
    /// Whether names are in front of lines by default.
    pub several: bool,
}

/// Searches with a regular expression in files, in order until the search ends. The name `-` denotes `input` among them,
/// which is empty after its first search. Returns whether a line is selected, and the inputs that cannot be read: after one
/// of them the search goes on with the next.
///
/// # Errors
/// The result is a failure of the output, of a search or of memory, or that an input is too long. Before it, what is written
/// for the first lines was written to `out`, and for the first matches of the next line where only matches are shown.
pub fn search_all<'a, R: Files + AllocGlobal, I: Read + Drop, W: Write>(
    rt: &R,
    regex: &Regex,
    search: FileSearch<'a>,
    input: I,
    out: &mut W,
) -> Searched<'a>
    ensures all { IfOk result.result (WritesInputs regex.now (job search.entry.task)
        (inputs_of (job search.entry.task) search.entry.form search.entry.several (map string_bytes search.entry.files.now) (I.remaining input)) (W.contents out.old) (W.contents out.new) (all_unread result.unread)) }
    ensures first { IfErr result.result (OrOutput (WritesSomeOf regex.now (job search.entry.task)
        (inputs_of (job search.entry.task) search.entry.form search.entry.several (map string_bytes search.entry.files.now) (I.remaining input)) (W.contents out.old) (W.contents out.new) (all_unread result.unread))) }
    ensures failed { IfErr result.result (IsSearchFailure (IsCostly regex.now)) }
{
    let searcher = Searcher::new(rt.alloc(), regex);
    let mut unread = Vec::new(rt.alloc());
    let result = search_files(rt, &searcher, search, input, out, &mut unread);
    Searched { result, unread }
}

/// Searches files in order, and standard input where its name is among them.
fn search_files<'a, R: Files, I: Read + Drop, W: Write>(
    rt: &R,
    searcher: &Searcher<'_>,
    search: FileSearch<'a>,
    input: I,
    out: &mut W,
    unread: &mut Vec<Unread<'a>>,
) -> Result<bool, Failure<'a>>
    requires none { unread.old.items ≡ [] }
    ensures all { IfOk result (WritesInputs searcher.now.regex.now (job search.entry.task)
        (inputs_of (job search.entry.task) search.entry.form search.entry.several (map string_bytes search.entry.files.now) (I.remaining input)) (W.contents out.old) (W.contents out.new) (all_unread unread.new)) }
    ensures first { IfErr result (OrOutput (WritesSomeOf searcher.now.regex.now (job search.entry.task)
        (inputs_of (job search.entry.task) search.entry.form search.entry.several (map string_bytes search.entry.files.now) (I.remaining input)) (W.contents out.old) (W.contents out.new) (all_unread unread.new))) }
    ensures failed { IfErr result (IsSearchFailure (IsCostly searcher.now.regex.now)) }
{
    let mut left = Some(input);
    let mut any = false;
    for file in search.files {
        if has_ended(search.task, any) {
            return Ok(any);
        }
        let search = InputSearch {
            searcher,
            task: search.task,
            place: place_of(search, file.as_str(), any),
            at_once: search.at_once,
        };
        any |= search_next(rt, search, &mut left, out, unread)?;
    }
    Ok(any)
}

/// Returns how an input is shown after others, of which a line may be selected.
fn place_of<'a>(search: FileSearch<'a>, file: &'a str, any: bool) -> Place<'a>
    ensures shown { named result ≡ following any (place_of (job search.entry.task) search.entry.form search.entry.several file.now) }
    ensures file { result.file.now ≡ file.now }
{
    Place {
        file,
        in_front: shows_names(search.task, search.several),
        null: has_nulls(search.task),
        form: search.form,
        follows: any,
    }
}

/// Returns whether zero bytes are after names.
fn has_nulls(task: Task<'_>) -> bool
    ensures { result ≡ has_nulls (job task.entry) }
{
    match task {
        Task::Match(selection, _) => selection.null,
        Task::Replace(_) => false,
    }
}

/// Returns whether names are shown in front of lines: `several` states whether they are by default.
fn shows_names(task: Task<'_>, several: bool) -> bool
    ensures { result ≡ shows_names (job task.entry) several }
{
    match task {
        Task::Match(selection, _) => match selection.file_names {
            FileNames::IfSeveral => several,
            FileNames::Always => true,
            FileNames::Never => false,
        },
        Task::Replace(replacement) => replacement.counts && several,
    }
}

/// Returns whether the search ends before the next input.
fn has_ended(task: Task<'_>, any: bool) -> bool
    ensures { result ≡ has_ended (job task.entry) any }
{
    match task {
        Task::Match(selection, _) => {
            reaches(selection.max_count, 0) || (any && matches!(selection.shown, Shown::Nothing))
        }
        Task::Replace(_) => false,
    }
}

/// Searches a file, or what is left of standard input.
fn search_next<'a, R: Files, I: Read + Drop, W: Write>(
    rt: &R,
    search: InputSearch<'_, 'a>,
    left: &mut Option<I>,
    out: &mut W,
    unread: &mut Vec<Unread<'a>>,
) -> Result<bool, Failure<'a>>
    ensures all { IfOk result (AddsInput search.entry.searcher.now.regex.now (job search.entry.task) (named search.entry.place) (bytes_of search.entry.place.file.now (left_of I.remaining left.old))
        (W.contents out.old) (W.contents out.new) (all_unread unread.old) (all_unread unread.new)) }
    ensures first { IfErr result (OrOutput (PrintsPart search.entry.searcher.now.regex.now (job search.entry.task) (named search.entry.place) (bytes_of search.entry.place.file.now (left_of I.remaining left.old)) (W.contents out.old) (W.contents out.new))) }
    ensures kept { IfErr result (λ _. all_unread unread.new ≡ all_unread unread.old) }
    ensures failed { IfErr result (IsSearchFailure (IsCostly search.entry.searcher.now.regex.now)) }
    ensures after { left_of I.remaining left.new ≡ left_after search.entry.place.file.now (left_of I.remaining left.old) }
{
    if is_standard(search.place.file) {
        search_left(search, left.take(), out, unread)
    } else {
        search_file(rt, search, out, unread)
    }
}

/// Returns the suffix of the originals, if files are rewritten.
fn in_place(task: Task<'_>) -> Option<&str>
    ensures { is_some result ≡ is_in_place (job task.entry) }
{
    match task {
        Task::Match(..) => None,
        Task::Replace(replacement) => replacement.in_place,
    }
}

/// Searches what is left of standard input, or adds it to those that are not read if files are rewritten.
fn search_left<'a, I: Read + Drop, W: Write>(
    search: InputSearch<'_, 'a>,
    left: Option<I>,
    out: &mut W,
    unread: &mut Vec<Unread<'a>>,
) -> Result<bool, Failure<'a>>
    ensures all { IfOk result (AddsInput search.entry.searcher.now.regex.now (job search.entry.task) (named search.entry.place) (left_of I.remaining left)
        (W.contents out.old) (W.contents out.new) (all_unread unread.old) (all_unread unread.new)) }
    ensures first { IfErr result (OrOutput (PrintsPart search.entry.searcher.now.regex.now (job search.entry.task) (named search.entry.place) (left_of I.remaining left) (W.contents out.old) (W.contents out.new))) }
    ensures kept { IfErr result (λ _. all_unread unread.new ≡ all_unread unread.old) }
    ensures failed { IfErr result (IsSearchFailure (IsCostly search.entry.searcher.now.regex.now)) }
{
    let name = search.place.name();
    match in_place(search.task) {
        Some(_) => skip(unwritten(search), name, unread),
        None => search_taken(search, left, out, unread),
    }
}

/// Searches what is left of standard input.
fn search_taken<'a, I: Read + Drop, W: Write>(
    search: InputSearch<'_, 'a>,
    left: Option<I>,
    out: &mut W,
    unread: &mut Vec<Unread<'a>>,
) -> Result<bool, Failure<'a>>
    requires { is_in_place (job search.task) ≡ false }
    ensures all { IfOk result (AddsInput search.entry.searcher.now.regex.now (job search.entry.task) (named search.entry.place) (left_of I.remaining left)
        (W.contents out.old) (W.contents out.new) (all_unread unread.old) (all_unread unread.new)) }
    ensures first { IfErr result (OrOutput (PrintsPart search.entry.searcher.now.regex.now (job search.entry.task) (named search.entry.place) (left_of I.remaining left) (W.contents out.old) (W.contents out.new))) }
    ensures kept { IfErr result (λ _. all_unread unread.new ≡ all_unread unread.old) }
    ensures failed { IfErr result (IsSearchFailure (IsCostly search.entry.searcher.now.regex.now)) }
{
    match left {
        Some(input) => search_input(search, input, out, unread),
        None => search_input(search, io::empty(), out, unread),
    }
}

/// Searches or rewrites a file.
fn search_file<'a, R: Files, W: Write>(
    rt: &R,
    search: InputSearch<'_, 'a>,
    out: &mut W,
    unread: &mut Vec<Unread<'a>>,
) -> Result<bool, Failure<'a>>
    ensures all { IfOk result (AddsInput search.entry.searcher.now.regex.now (job search.entry.task) (named search.entry.place) None
        (W.contents out.old) (W.contents out.new) (all_unread unread.old) (all_unread unread.new)) }
    ensures first { IfErr result (OrOutput (PrintsPart search.entry.searcher.now.regex.now (job search.entry.task) (named search.entry.place) None (W.contents out.old) (W.contents out.new))) }
    ensures kept { IfErr result (λ _. all_unread unread.new ≡ all_unread unread.old) }
    ensures failed { IfErr result (IsSearchFailure (IsCostly search.entry.searcher.now.regex.now)) }
{
    match in_place(search.task) {
        Some(suffix) => rewrite_next(rt, search, suffix, out, unread),
        None => open_file(rt, search, out, unread),
    }
}

/// Rewrites a file, or adds it to those that are not read.
fn rewrite_next<'a, R: Files, W: Write>(
    rt: &R,
    search: InputSearch<'_, 'a>,
    suffix: &str,
    out: &mut W,
    unread: &mut Vec<Unread<'a>>,
) -> Result<bool, Failure<'a>>
    requires { is_in_place (job search.task) ≡ true }
    ensures all { IfOk result (AddsInput search.entry.searcher.now.regex.now (job search.entry.task) (named search.entry.place) None
        (W.contents out.old) (W.contents out.new) (all_unread unread.old) (all_unread unread.new)) }
    ensures first { IfErr result (OrOutput (PrintsPart search.entry.searcher.now.regex.now (job search.entry.task) (named search.entry.place) None (W.contents out.old) (W.contents out.new))) }
    ensures kept { IfErr result (λ _. all_unread unread.new ≡ all_unread unread.old) }
    ensures failed { IfErr result (IsSearchFailure (IsCostly search.entry.searcher.now.regex.now)) }
{
    match rewrite_file(rt, search, suffix, out) {
        Ok(any) => Ok(any),
        Err(failure) => skip(failure, search.place.name(), unread),
    }
}

/// Searches a file, or adds it to those that are not read.
fn open_file<'a, R: Files, W: Write>(
    rt: &R,
    search: InputSearch<'_, 'a>,
    out: &mut W,
    unread: &mut Vec<Unread<'a>>,
) -> Result<bool, Failure<'a>>
    requires { is_in_place (job search.task) ≡ false }
    ensures all { IfOk result (AddsInput search.entry.searcher.now.regex.now (job search.entry.task) (named search.entry.place) None
        (W.contents out.old) (W.contents out.new) (all_unread unread.old) (all_unread unread.new)) }
    ensures first { IfErr result (OrOutput (PrintsPart search.entry.searcher.now.regex.now (job search.entry.task) (named search.entry.place) None (W.contents out.old) (W.contents out.new))) }
    ensures kept { IfErr result (λ _. all_unread unread.new ≡ all_unread unread.old) }
    ensures failed { IfErr result (IsSearchFailure (IsCostly search.entry.searcher.now.regex.now)) }
{
    let name = search.place.name();
    match File::open(rt, search.place.file) {
        Ok(file) => search_input(search, file, out, unread),
        Err(error) => skip(read_failure(error, name), name, unread),
    }
}

/// Searches an input to its end, or adds it to those that are not read.
fn search_input<'a, I: Read + Drop, W: Write>(
    search: InputSearch<'_, 'a>,
    input: I,
    out: &mut W,
    unread: &mut Vec<Unread<'a>>,
) -> Result<bool, Failure<'a>>
    requires { is_in_place (job search.task) ≡ false }
    ensures all { IfOk result (AddsInput search.entry.searcher.now.regex.now (job search.entry.task) (named search.entry.place) (I.remaining input)
        (W.contents out.old) (W.contents out.new) (all_unread unread.old) (all_unread unread.new)) }
    ensures first { IfErr result (OrOutput (PrintsPart search.entry.searcher.now.regex.now (job search.entry.task) (named search.entry.place) (I.remaining input) (W.contents out.old) (W.contents out.new))) }
    ensures kept { IfErr result (λ _. all_unread unread.new ≡ all_unread unread.old) }
    ensures failed { IfErr result (IsSearchFailure (IsCostly search.entry.searcher.now.regex.now)) }
{
    match read_input(search, input, out) {
        Ok(any) => Ok(any),
        Err(failure) => skip(failure, search.place.name(), unread),
    }
}

/// Adds the input with this name to those that are not read if that is the failure, and returns that it selects nothing.
///
/// # Errors
/// Returns any other failure, and `Memory` if the input cannot be added.
fn skip<'a>(
    failure: Failure<'a>,
    name: &'a str,
    unread: &mut Vec<Unread<'a>>,
) -> Result<bool, Failure<'a>>
    ensures { IsSkipped failure.entry name.now (all_unread unread.old) (all_unread unread.new) result }
{
    match failure {
        Failure::Unreadable(Unread { reason, .. }) => {
            unread.push(Unread { name, reason })?;
            Ok(false)
        }
        failure => Err(failure),
    }
}

/// Searches an input to its end.
fn read_input<'a, I: Read + Drop, W: Write>(
    search: InputSearch<'_, 'a>,
    input: I,
    out: &mut W,
) -> Result<bool, Failure<'a>>
    requires { is_in_place (job search.task) ≡ false }
    ensures all { IfOk result (WritesInput search.entry.searcher.now.regex.now (job search.entry.task) (named search.entry.place) (I.remaining input) (W.contents out.old) (W.contents out.new)) }
    ensures first { IfErr result (AfterFailure (PrintsLines search.entry.searcher.now.regex.now (job search.entry.task) (named search.entry.place) (I.remaining input) (W.contents out.old) (W.contents out.new))
        (PrintsPart search.entry.searcher.now.regex.now (job search.entry.task) (named search.entry.place) (I.remaining input) (W.contents out.old) (W.contents out.new))) }
    ensures failed { IfErr result (IsInputFailure (IsCostly search.entry.searcher.now.regex.now)) }
{
    match BufReader::with_capacity(search.searcher.alloc, BUFFER, input) {
        Ok(mut reader) => search_reader(search, &mut reader, out),
        Err(_) => Err(Failure::Memory),
    }
}

/// Searches the lines of a reader, and writes what is shown at the end.
fn search_reader<'a, B: BufRead, W: Write>(
    search: InputSearch<'_, 'a>,
    reader: &mut B,
    out: &mut W,
) -> Result<bool, Failure<'a>>
    requires { is_in_place (job search.task) ≡ false }
    ensures all { IfOk result (WritesInput search.entry.searcher.now.regex.now (job search.entry.task) (named search.entry.place) (B.Read.remaining reader.old) (W.contents out.old) (W.contents out.new)) }
    ensures first { IfErr result (AfterFailure (PrintsLines search.entry.searcher.now.regex.now (job search.entry.task) (named search.entry.place) (B.Read.remaining reader.old) (W.contents out.old) (W.contents out.new))
        (PrintsPart search.entry.searcher.now.regex.now (job search.entry.task) (named search.entry.place) (B.Read.remaining reader.old) (W.contents out.old) (W.contents out.new))) }
    ensures failed { IfErr result (IsInputFailure (IsCostly search.entry.searcher.now.regex.now)) }
{
    let selected = search_lines(search, reader, out)?;
    write_end(search, selected, out)?;
    Ok(selected > 0)
}
