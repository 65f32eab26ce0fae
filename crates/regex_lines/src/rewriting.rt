//! Files that are rewritten: what is written for the lines of a file is in a new one beside it, which then gets its name.
ghost use Rattle.std.specs.Prelude.{◌≡◌, IfErr, IfOk, None, true};
ghost use Rattle.regex_lines.specs.Ending.{IsCostly, IsInputFailure, OrOutput};
ghost use Rattle.regex_lines.specs.Searched.{PrintsLines, SearchesAll, SearchesLines, WritesInput, is_in_place, named};
ghost use Rattle.regex_options.specs.Plain.{job};

use crate::failure::Failure;
use crate::reading::BUFFER;
use crate::searching::{InputSearch, search_lines, write_end};
use crate::successor::{Original, Successor, create_beside, succeed};
use crate::unread::{Reason, Unread, reason_of};
use crate::words::system_words;
use std::alloc::Global;
use std::fs::{File, Files, Metadata};
use std::io::{self, BufRead, BufReader, BufWriter, ErrorKind, Read, Write};

/// Rewrites a file, and prints how many matches are replaced if they are counted.
///
/// # Errors
/// Returns why the file is not rewritten, which keeps its name and lines then, or that the number cannot be printed.
pub(crate) fn rewrite_file<'a, R: Files, W: Write>(
    rt: &R,
    search: InputSearch<'_, 'a>,
    suffix: &str,
    out: &mut W,
) -> Result<bool, Failure<'a>>
    requires { is_in_place (job search.task) ≡ true }
    ensures all { IfOk result (WritesInput search.entry.searcher.now.regex.now (job search.entry.task) (named search.entry.place) None (W.contents out.old) (W.contents out.new)) }
    ensures first { IfErr result (OrOutput (PrintsLines search.entry.searcher.now.regex.now (job search.entry.task) (named search.entry.place) None (W.contents out.old) (W.contents out.new))) }
    ensures failed { IfErr result (IsInputFailure (IsCostly search.entry.searcher.now.regex.now)) }
{
    let selected = rewrite(rt, search, suffix)?;
    write_end(search, selected, out)?;
    Ok(selected > 0)
}

/// Rewrites a file, and returns for how many its lines count.
fn rewrite<'a, R: Files>(
    rt: &R,
    search: InputSearch<'_, 'a>,
    suffix: &str,
) -> Result<u64, Failure<'a>>
    ensures lines { IfOk result (SearchesLines search.entry.searcher.now.regex.now (job search.entry.task) (named search.entry.place) None) }
    ensures failed { IfErr result (IsInputFailure (IsCostly search.entry.searcher.now.regex.now)) }
{
    match find_original(rt, search.searcher.alloc, search.place.file) {
        Ok(original) => match refusal(&original.metadata) {
            Some(reason) => Err(unread_for(search, reason)),
            None => rewrite_regular(rt, search, suffix, &original),
        },
        Err(error) => Err(rewrite_failure(search, error)),
    }
}

/// Returns the file with this name, or that to which a symbolic link leads.
fn find_original<R: Files>(rt: &R, alloc: Global, file: &str) -> io::Result<Original> {
    let path = rt.canonicalize(alloc, file)?.into_string();
    let metadata = rt.metadata(path.as_str())?;
    Ok(Original { path, metadata })
}

/// Returns why a file cannot be rewritten: if it is no regular one.
fn refusal(metadata: &Metadata) -> Option<Reason> {
    if metadata.is_file() {
        None
    } else if metadata.is_dir() {
        Some(Reason::Directory)
    } else {
        Some(Reason::NotRegular)
    }
}

/// Rewrites a regular file. A new file that does not replace it is removed.
fn rewrite_regular<'a, R: Files>(
    rt: &R,
    search: InputSearch<'_, 'a>,
    suffix: &str,
    original: &Original,
) -> Result<u64, Failure<'a>>
    ensures lines { IfOk result (SearchesLines search.entry.searcher.now.regex.now (job search.entry.task) (named search.entry.place) None) }
    ensures failed { IfErr result (IsInputFailure (IsCostly search.entry.searcher.now.regex.now)) }
{
    let path = original.path.as_str();
    let file = match File::open(rt, path) {
        Ok(file) => file,
        Err(error) => return Err(rewrite_failure(search, error)),
    };
    let (name, new) = match create_beside(rt, search.searcher.alloc, path) {
        Ok(created) => created,
        Err(error) => return Err(rewrite_failure(search, error)),
    };
    let successor = Successor {
        original,
        name: name.as_str(),
        suffix,
    };
    let result = replace(rt, search, successor, file, new);
    if result.is_err() {
        let _ = rt.remove_file(name.as_str());
    }
    result
}

/// Writes what the task writes for the lines of a file to a new one, which then gets its name.
fn replace<'a, R: Files>(
    rt: &R,
    search: InputSearch<'_, 'a>,
    successor: Successor<'_>,
    file: R::File,
    new: R::File,
) -> Result<u64, Failure<'a>>
    ensures lines { IfOk result (SearchesLines search.entry.searcher.now.regex.now (job search.entry.task) (named search.entry.place) None) }
    ensures failed { IfErr result (IsInputFailure (IsCostly search.entry.searcher.now.regex.now)) }
{
    let (selected, new) = match write_lines(search, file, new) {
        Ok(written) => written,
        Err(failure) => return Err(of_file(search, failure)),
    };
    match succeed(rt, search.searcher.alloc, successor, &new) {
        Ok(()) => Ok(selected),
        Err(error) => Err(rewrite_failure(search, error)),
    }
}

/// Writes what the task writes for the lines of an input to a file. Returns for how many they count, and the file.
fn write_lines<'a, I: Read + Drop, T: Write + Drop>(
    search: InputSearch<'_, 'a>,
    input: I,
    file: T,
) -> Result<(u64, T), Failure<'a>>
    ensures all { IfOk result (λ written. SearchesAll search.entry.searcher.now.regex.now (job search.entry.task) (named search.entry.place) (I.remaining input)
        (T.contents file) (T.contents written.1) written.0) }
    ensures failed { IfErr result (IsInputFailure (IsCostly search.entry.searcher.now.regex.now)) }
{
    match BufReader::with_capacity(search.searcher.alloc, BUFFER, input) {
        Ok(mut reader) => write_from(search, &mut reader, file),
        Err(_) => Err(Failure::Memory),
    }
}

/// Writes what the task writes for the lines of a reader to a file. Returns for how many they count, and the file.
fn write_from<'a, B: BufRead, T: Write + Drop>(
    search: InputSearch<'_, 'a>,
    reader: &mut B,
    file: T,
) -> Result<(u64, T), Failure<'a>>
    ensures all { IfOk result (λ written. SearchesAll search.entry.searcher.now.regex.now (job search.entry.task) (named search.entry.place) (B.Read.remaining reader.old)
        (T.contents file) (T.contents written.1) written.0) }
    ensures failed { IfErr result (IsInputFailure (IsCostly search.entry.searcher.now.regex.now)) }
{
    let Ok(mut writer) = BufWriter::with_capacity(search.searcher.alloc, BUFFER, file) else {
        return Err(Failure::Memory);
    };
    let selected = search_lines(search, reader, &mut writer)?;
    match writer.into_inner() {
        Ok(file) => Ok((selected, file)),
        Err(_) => Err(Failure::Output),
    }
}

/// Returns the failure of an input that cannot be rewritten.
pub(crate) fn unwritten<'a>(search: InputSearch<'_, 'a>) -> Failure<'a>
    ensures { IsInputFailure (IsCostly search.entry.searcher.now.regex.now) result }
{
    unread_for(search, Reason::Unwritten)
}

fn unread_for<'a>(search: InputSearch<'_, 'a>, reason: Reason) -> Failure<'a>
    ensures { IsInputFailure (IsCostly search.entry.searcher.now.regex.now) result }
{
    Failure::Unreadable(Unread {
        name: search.place.name(),
        reason,
    })
}

/// Returns why a file cannot be rewritten.
fn rewrite_failure<'a>(search: InputSearch<'_, 'a>, error: io::Error) -> Failure<'a>
    ensures { IsInputFailure (IsCostly search.entry.searcher.now.regex.now) result }
{
    match error.kind() {
        ErrorKind::OutOfMemory => Failure::Memory,
        kind => match (reason_of(kind), system_words(&error)) {
            (Reason::Other, Some(words)) => unread_for(search, Reason::UnwrittenSince(words)),
            (Reason::Other, None) => unwritten(search),
            (reason, _) => unread_for(search, reason),
        },
    }
}

/// Returns why a file cannot be rewritten, if its lines cannot be written, and else the failure.
fn of_file<'a>(search: InputSearch<'_, 'a>, failure: Failure<'a>) -> Failure<'a>
    requires { IsInputFailure (IsCostly search.searcher.now.regex.now) failure }
    ensures { IsInputFailure (IsCostly search.entry.searcher.now.regex.now) result }
{
    match failure {
        Failure::Output | Failure::Closed => unwritten(search),
        failure => failure,
    }
}
