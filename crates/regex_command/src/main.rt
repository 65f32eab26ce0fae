//! `regex` searches in lines of text, by `regex match`, `regex replace` and `regex split`, escapes texts, by
//! `regex escape`, and shows, checks and explains patterns, by `regex parse`, `regex draw`, `regex lint` and
//! `regex explain`. It exits with 0 or 1 by what `run_regex` returns, and with 2 if that fails, the arguments are
//! invalid, or an allocation for the arguments or the output buffer fails.
#![tactic(auto)]

ghost use Rattle.std.specs.Prelude.{◌≡◌, ◌≢◌, ◌≤◌, ◌⊎◌, ◌||◌, ⊤, true, false, IfSome, IfOk, IfErr, is_err, is_ok, Ok, map, string_bytes};
ghost use Rattle.std.specs.Io.KnownBytes.{Appends};
ghost use Rattle.regress_display.specs.Request.{requested};
ghost use Rattle.regex_options.specs.Table.{topic_text};
ghost use Rattle.regex_options.specs.Request.{action, ask, asked_by, requested as request_asked};
ghost use Rattle.regex_lines.specs.Ending.{IsLate, OrOutput, setting_in};
ghost use Rattle.regex_options.specs.Plain.{file_list, job};
ghost use Rattle.regex_command.specs.Printed.{Begins, Does, IsDue, IsQuiet, IsQuietAt, IsQuietFound, IsQuietIfFound, LacksPattern, MayFail, MayFailAt, Prints, PrintsAll, PrintsEscaped, PrintsFirst, PrintsSome, are_read, changes, is_complete, is_silent, status_if_none, view_of, OfPattern};
ghost use Rattle.regex_lines.specs.Unread.{unread_of, unread_path};
ghost use Rattle.regex_lines.specs.Walk.{found_of};
ghost use Rattle.regex_lines.specs.declared.failure.Failure.TheVariants.{Incomplete};

mod checking;
mod compiling;
mod explaining;
mod joining;
mod linting;
mod pattern;
mod showing;
mod size;

use compiling::compiled;
use explaining::print_explanation;
use linting::print_lint;
use pattern::{Pattern, pattern_text};
use regex_lines::{
    Failure, FileSearch, Found, Searched, Unread, UnreadPath, detached, find_files, flush, print,
    report, report_paths, report_unread, search_all,
};
use regex_options::{
    Action, Arguments, Asked, COMMANDS, OPTIONS, OptionEntry, Output, ParseError, Request, Search,
    Shown, Task, Topic, UsageError, View, allows_color, color_setting, interpret, parse_arguments,
    parse_colors, topic_text, write_usage_error,
};
use regress_arguments::{ArgumentsError, arguments};
use regress_display::Request as TreeRequest;
use regress_escape::escape;
use showing::print_tree;
use std::alloc::Global;
use std::env::Env;
use std::fs::Files;
use std::io::{BufWriter, IsTerminal, Read, Write};
use std::process::ExitCode;

/// The options. In the frame of a function the table would be too large.
static TABLE: [OptionEntry; 41] = OPTIONS;

fn main(rt: HostRuntime) -> ExitCode {
    let out = rt.stdout();
    let terminal = out.is_terminal();
    ExitCode::from(run(&rt, rt.stdin(), out, terminal, &mut rt.stderr()))
}

/// Runs the program with the arguments of its environment; `terminal` states whether the output is a terminal.
fn run<R: Env + Files + AllocGlobal, I: Read + Drop, W: Write + Drop, E: Write>(
    rt: &R,
    input: I,
    out: W,
    terminal: bool,
    err: &mut E,
) -> u8
    ensures known { result ≤ 2 }
{
    match arguments(rt) {
        Ok(args) => run_words(rt, &args, input, out, terminal, err),
        Err(ArgumentsError::NotUtf8) => report(Failure::Argument, err),
        Err(ArgumentsError::OutOfMemory) => report(Failure::Memory, err),
    }
}

/// Runs the program with these arguments, and the colors of its environment.
fn run_words<R: Env + Files + AllocGlobal, I: Read + Drop, W: Write + Drop, E: Write>(
    rt: &R,
    words: &[String],
    input: I,
    out: W,
    terminal: bool,
    err: &mut E,
) -> u8
    ensures known { result ≤ 2 }
{
    let Ok(setting) = color_setting(rt) else {
        return report(Failure::Memory, err);
    };
    let Ok(colors) = parse_colors(rt.alloc(), &setting) else {
        return report(Failure::Memory, err);
    };
    let output = Output {
        terminal: terminal && allows_color(rt),
        colors: &colors,
        at_once: terminal,
    };
    run_for(rt, words, output, input, out, err)
}

/// Runs the program with these arguments, for an output of this kind.
fn run_for<R: Files + AllocGlobal, I: Read + Drop, W: Write + Drop, E: Write>(
    rt: &R,
    words: &[String],
    output: Output<'_>,
    input: I,
    out: W,
    err: &mut E,
) -> u8
    ensures known { result ≤ 2 }
{
    let arguments = Arguments {
        commands: &COMMANDS,
        options: &[],
        words,
        output,
    };
    run_with_options(rt, arguments, input, out, err)
}

/// Runs the program with these arguments and the options of `regex`.
fn run_with_options<R: Files + AllocGlobal, I: Read + Drop, W: Write + Drop, E: Write>(
    rt: &R,
    arguments: Arguments<'_>,
    input: I,
    out: W,
    err: &mut E,
) -> u8
    ensures known { result ≤ 2 }
{
    let arguments = Arguments {
        options: &TABLE,
        ..arguments
    };
    run_buffered(rt, arguments, input, out, err).0
}

/// Runs `run_arguments` with a buffered output, and returns the exit status, and the output if it has all that was written.
/// The status is 2 if the buffer cannot be allocated.
fn run_buffered<R: Files + AllocGlobal, I: Read + Drop, W: Write + Drop, E: Write>(
    rt: &R,
    arguments: Arguments<'_>,
    input: I,
    out: W,
    err: &mut E,
) -> (u8, Option<W>)
    ensures known { result.0 ≤ 2 }
    ensures found { result.0 ≡ 0 → IfOk (asked_by arguments.entry) (λ ask. IfSome result.1 (λ new.
        Prints (I.remaining input) (W.contents out) (W.contents new) true ask)) }
    ensures none { result.0 ≡ 1 → IfOk (asked_by arguments.entry) (λ ask. IfSome result.1 (λ new.
        Prints (I.remaining input) (W.contents out) (W.contents new) false ask)) }
    ensures usage { is_err (asked_by arguments.entry) ≡ true → result.0 ≡ 2 }
    ensures quiet { result.0 ≡ 0 → IfOk (asked_by arguments.entry) (IsQuietIfFound (err.new ≡ err.old)) }
    ensures quiet_none { result.0 ≡ 1 → IfOk (asked_by arguments.entry) (IsQuiet ⊤ (err.new ≡ err.old)) }
    ensures rejected { result.0 ≡ 1 → IfOk (asked_by arguments.entry) (λ ask. status_if_none ask ≡ 1) }
{
    match BufWriter::new(rt.alloc(), out) {
        Ok(mut buffered) => {
            let status = run_arguments(rt, arguments, input, &mut buffered, err);
            (status, buffered.into_inner().ok())
        }
        Err(_) => (report(Failure::Memory, err), None),
    }
}

/// Runs the program on its arguments, and returns its exit status.
///
/// - 0: a line is selected; the output of `replace`, `split`, `escape`, `parse`, `draw` or `explain`, the help or the
///   version is written to `out`; or `lint` reports nothing;
/// - 1: no line is selected, or `lint` reports something;
/// - 2: the arguments are invalid, `run_regex` fails, or `parse`, `draw` or `explain` rejects the pattern; a message is
///   written to `err`, whose failure is ignored.
fn run_arguments<R: Files + AllocGlobal, I: Read + Drop, W: Write, E: Write>(
    rt: &R,
    arguments: Arguments<'_>,
    input: I,
    out: &mut W,
    err: &mut E,
) -> u8
    ensures known { result ≤ 2 }
    ensures found { result ≡ 0 → IfOk (asked_by arguments.entry)
        (Prints (I.remaining input) (W.contents out.old) (W.contents out.new) true) }
    ensures none { result ≡ 1 → IfOk (asked_by arguments.entry)
        (Prints (I.remaining input) (W.contents out.old) (W.contents out.new) false) }
    ensures usage { is_err (asked_by arguments.entry) ≡ true → result ≡ 2 }
    ensures untouched { is_err (asked_by arguments.entry) ≡ true → out.new ≡ out.old }
    ensures quiet { result ≡ 0 → IfOk (asked_by arguments.entry) (IsQuietIfFound (err.new ≡ err.old)) }
    ensures quiet_none { result ≡ 1 → IfOk (asked_by arguments.entry) (IsQuiet ⊤ (err.new ≡ err.old)) }
    ensures rejected { result ≡ 1 → IfOk (asked_by arguments.entry) (λ ask. status_if_none ask ≡ 1) }
{
    let parsed = match parse_arguments(rt.alloc(), arguments) {
        Ok(parsed) => parsed,
        Err(ParseError::Usage(error)) => return report_usage(error, arguments, err),
        Err(ParseError::Memory) => return report(Failure::Memory, err),
    };
    match interpret(arguments, &parsed) {
        Ok(asked) => run_asked(rt, asked, input, out, err),
        Err(error) => report_usage(error, arguments, err),
    }
}

/// Writes why the arguments are invalid, and returns the exit status. An error of that write is ignored.
fn report_usage<E: Write>(error: UsageError<'_>, arguments: Arguments<'_>, err: &mut E) -> u8
    ensures { result ≡ 2 }
{
    let _ = write_usage_error(error, arguments, err);
    2
}

/// Writes what is asked for, or the message of a failure, and returns the exit status.
fn run_asked<R: Files + AllocGlobal, I: Read + Drop, W: Write, E: Write>(
    rt: &R,
    asked: Asked<'_>,
    input: I,
    out: &mut W,
    err: &mut E,
) -> u8
    ensures known { result ≤ 2 }
    ensures found { result ≡ 0 → Prints (I.remaining input) (W.contents out.old) (W.contents out.new) true (ask asked.entry) }
    ensures none { result ≡ 1 → Prints (I.remaining input) (W.contents out.old) (W.contents out.new) false (ask asked.entry) }
    ensures quiet { result ≡ 0 → IsQuietIfFound (err.new ≡ err.old) (ask asked.entry) }
    ensures quiet_none { result ≡ 1 → IsQuiet ⊤ (err.new ≡ err.old) (ask asked.entry) }
    ensures rejected { result ≡ 1 → status_if_none (ask asked.entry) ≡ 1 }
{
    match run_regex(rt, asked, input, out, err) {
        Ok(found) => { if found { 0 } else { status_if_none(asked) } }
        Err(failure) => report(failure, err),
    }
}

/// Returns the exit status if nothing is found: 2 if that means that the pattern is rejected.
fn status_if_none(asked: Asked<'_>) -> u8
    ensures status { result ≡ status_if_none (ask asked.entry) }
    ensures known { result ≤ 2 }
    ensures positive { result ≢ 0 }
{
    match asked {
        Asked::Help(_) | Asked::Escape(_) => 2,
        Asked::Apply(request) => match request.action {
            Action::Search(_) | Action::Lint => 1,
            Action::Show(_) | Action::Explain(_) => 2,
        },
    }
}

/// Writes what is asked for, and returns whether it is found. Why a pattern is rejected that is to be shown or explained
/// is written to `err`.
///
/// # Errors
/// Returns a failure that is due, as `MayFail` states. The output for the first lines, and for the first matches of the
/// next line where only matches are shown, or the first of two trees, may have been written to `out` before it.
pub fn run_regex<'a, R: Files + AllocGlobal, I: Read + Drop, W: Write, E: Write>(
    rt: &R,
    asked: Asked<'a>,
    input: I,
    out: &mut W,
    err: &mut E,
) -> Result<bool, Failure<'a>>
    ensures found { IfOk result (λ found. Prints (I.remaining input) (W.contents out.old) (W.contents out.new)
        found (ask asked.entry)) }
    ensures first { IfErr result (λ failure. OrOutput
        (PrintsSome (I.remaining input) (W.contents out.old) (W.contents out.new) (out.new ≡ out.old) (ask asked.entry) failure) failure) }
    ensures due { IfErr result (MayFail (ask asked.entry)) }
    ensures quiet { result ≡ Ok true → IsQuietIfFound (err.new ≡ err.old) (ask asked.entry) }
    ensures quiet_none { IsQuiet (result ≡ Ok false) (err.new ≡ err.old) (ask asked.entry) }
{
    match asked {
        Asked::Help(topic) => print_topic(rt.alloc(), topic, out),
        Asked::Escape(text) => print_escaped(rt.alloc(), text, out),
        Asked::Apply(request) => apply(rt, request, input, out, err),
    }
}

/// Reads the pattern of a request, and does what it asks for.
fn apply<'a, R: Files + AllocGlobal, I: Read + Drop, W: Write, E: Write>(
    rt: &R,
    request: Request<'a>,
    input: I,
    out: &mut W,
    err: &mut E,
) -> Result<bool, Failure<'a>>
    ensures found { IfOk result (λ found. OfPattern (request_asked request.entry) (λ pattern. Does request.entry.dialect request.entry.flags pattern
        (action request.entry.action) (I.remaining input) (W.contents out.old) (W.contents out.new) found)) }
    ensures first { IfErr result (λ failure. OrOutput ((out.new ≡ out.old) ⊎ OfPattern (request_asked request.entry)
        (λ pattern. Begins request.entry.dialect request.entry.flags pattern (action request.entry.action) (I.remaining input) (W.contents out.old) (W.contents out.new) failure)) failure) }
    ensures due { IfErr result (λ failure. LacksPattern (request_asked request.entry) failure
        ⊎ OfPattern (request_asked request.entry) (λ pattern. MayFailAt request.entry.dialect request.entry.flags pattern (action request.entry.action) failure)) }
    ensures quiet { result ≡ Ok true → IsQuietFound (err.new ≡ err.old) (action request.entry.action) }
    ensures quiet_none { IsQuietAt (result ≡ Ok false) (err.new ≡ err.old) (action request.entry.action) }
{
    let text = pattern_text(rt, request)?;
    let pattern = Pattern {
        text: &text,
        flags: request.flags,
        dialect: request.dialect,
    };
    let wanted = Wanted {
        pattern,
        action: request.action,
    };
    apply_to(rt, wanted, input, out, err)
}

/// A pattern, and what to do with it.
#[derive(Clone, Copy)]
struct Wanted<'p, 'a> {
    pattern: Pattern<'p>,
    action: Action<'a>,
}

/// Does with a pattern what is asked for.
fn apply_to<'a, R: Files + AllocGlobal, I: Read + Drop, W: Write, E: Write>(
    rt: &R,
    wanted: Wanted<'_, 'a>,
    input: I,
    out: &mut W,
    err: &mut E,
) -> Result<bool, Failure<'a>>
    ensures found { IfOk result (Does wanted.entry.pattern.dialect wanted.entry.pattern.flags wanted.entry.pattern.text.now (action wanted.entry.action) (I.remaining input)
        (W.contents out.old) (W.contents out.new)) }
    ensures first { IfErr result (λ failure. OrOutput ((out.new ≡ out.old) ⊎ Begins wanted.entry.pattern.dialect wanted.entry.pattern.flags wanted.entry.pattern.text.now
        (action wanted.entry.action) (I.remaining input) (W.contents out.old) (W.contents out.new) failure) failure) }
    ensures due { IfErr result (MayFailAt wanted.entry.pattern.dialect wanted.entry.pattern.flags wanted.entry.pattern.text.now (action wanted.entry.action)) }
    ensures quiet { result ≡ Ok true → IsQuietFound (err.new ≡ err.old) (action wanted.entry.action) }
    ensures quiet_none { IsQuietAt (result ≡ Ok false) (err.new ≡ err.old) (action wanted.entry.action) }
{
    let pattern = wanted.pattern;
    match wanted.action {
        Action::Search(search) => {
            let wanted = PatternSearch { pattern, search };
            print_search(rt, wanted, input, out, err)
        }
        Action::Show(view) => print_tree(rt.alloc(), view_of(view, pattern), out, err),
        Action::Lint => print_lint(rt.alloc(), pattern, out),
        Action::Explain(form) => print_explanation(rt.alloc(), pattern, form, out, err),
    }
}

/// Returns what to show of a pattern.
fn view_of(view: View, pattern: Pattern<'_>) -> TreeRequest<'_>
    ensures request { requested result ≡ view_of view pattern.entry.dialect pattern.entry.flags pattern.entry.text.now }
    ensures format { result.format ≡ view.format }
{
    TreeRequest {
        pattern: pattern.text,
        flags: pattern.flags,
        dialect: pattern.dialect,
        format: view.format,
        stage: view.stage,
        small: view.small,
    }
}

/// A pattern, and the search for it.
#[derive(Clone, Copy)]
struct PatternSearch<'p, 'a> {
    pattern: Pattern<'p>,
    search: Search<'a>,
}

/// Searches for a pattern in the files that are found, and returns whether a line is selected, or the task changes lines.
/// The messages of what is not read are written to `err`.
///
/// # Errors
/// Returns `Incomplete` if there are such inputs, unless nothing is shown, and a line is selected.
fn print_search<'a, R: Files + AllocGlobal, I: Read + Drop, W: Write, E: Write>(
    rt: &R,
    wanted: PatternSearch<'_, 'a>,
    input: I,
    out: &mut W,
    err: &mut E,
) -> Result<bool, Failure<'a>>
    ensures all { IfOk result (PrintsAll wanted.entry.pattern.dialect (setting_in wanted.entry.pattern.dialect wanted.entry.pattern.flags) wanted.entry.pattern.text.now (job wanted.entry.search.task)
        wanted.entry.search.form (file_list wanted.entry.search.files) (I.remaining input) (W.contents out.old) (W.contents out.new)) }
    ensures first { IfErr result (λ failure. OrOutput ((out.new ≡ out.old) ⊎ PrintsFirst wanted.entry.pattern.dialect (setting_in wanted.entry.pattern.dialect wanted.entry.pattern.flags) wanted.entry.pattern.text.now
        (job wanted.entry.search.task) wanted.entry.search.form (file_list wanted.entry.search.files) (I.remaining input) (W.contents out.old) (W.contents out.new) failure) failure) }
    ensures due { IfErr result (IsDue wanted.entry.pattern.dialect (setting_in wanted.entry.pattern.dialect wanted.entry.pattern.flags) wanted.entry.pattern.text.now) }
    ensures quiet { result ≡ Ok true → is_silent (job wanted.entry.search.task) ≡ false → err.new ≡ err.old }
    ensures quiet_none { result ≡ Ok false → err.new ≡ err.old }
{
    let regex = compiled(rt.alloc(), wanted.pattern)?;
    let walked = find_files(rt, wanted.search.files)?;
    let search = search_in(wanted.search, &walked);
    let Searched { result, unread } = search_all(rt, &regex, search, input, out);
    let flushed = flush(out);
    report_paths(&walked.unread, err);
    report_unread(&unread, err);
    flushed?;
    match result {
        Ok(any) => found(wanted.search.task, any, are_read(&walked.unread, &unread)),
        Err(failure) => Err(detached(failure)),
    }
}

/// Returns the search in the files that are found.
fn search_in<'w, 'a: 'w>(search: Search<'a>, walked: &'w Found) -> FileSearch<'w>
    ensures task { result.task ≡ search.entry.task }
    ensures form { result.form ≡ search.entry.form }
    ensures files { map string_bytes result.files.now ≡ (found_of walked.now).files }
    ensures several { result.several ≡ (found_of walked.now).several }
{
    FileSearch {
        task: search.task,
        form: search.form,
        at_once: search.at_once,
        files: &walked.files,
        several: walked.several,
    }
}

/// Returns whether nothing is left unread.
fn are_read(lost: &[UnreadPath], unread: &[Unread<'_>]) -> bool
    ensures { result ≡ are_read (map unread_path lost.now) (map unread_of unread.now) }
{
    lost.is_empty() && unread.is_empty()
}

/// Returns whether a line is selected, or the task changes lines.
///
/// # Errors
/// Returns `Incomplete` if inputs are left unread that may not be.
fn found<'f>(task: Task<'_>, any: bool, all_read: bool) -> Result<bool, Failure<'f>>
    ensures complete { is_complete (job task.entry) any all_read ≡ is_ok result }
    ensures found { IfOk result (λ found. found ≡ any || changes (job task.entry)) }
    ensures failed { IfErr result (λ failure. failure ≡ Incomplete) }
{
    if all_read || (any && is_silent(task)) {
        Ok(any || changes(task))
    } else {
        Err(Failure::Incomplete)
    }
}

fn is_silent(task: Task<'_>) -> bool
    ensures { result ≡ is_silent (job task.entry) }
{
    match task {
        Task::Match(selection, _) => matches!(selection.shown, Shown::Nothing),
        Task::Replace(_) => false,
    }
}

fn changes(task: Task<'_>) -> bool
    ensures { result ≡ changes (job task.entry) }
{
    match task {
        Task::Match(..) => false,
        Task::Replace(_) => true,
    }
}

/// Writes a text, escaped, on a line.
fn print_escaped<'a, W: Write>(
    alloc: Global,
    text: &'a str,
    out: &mut W,
) -> Result<bool, Failure<'a>>
    ensures escaped { IfOk result (λ _. PrintsEscaped (W.contents out.old) (W.contents out.new) text.now) }
    ensures found { IfOk result (λ found. found ≡ true) }
    ensures first { IfErr result (OrOutput (out.new ≡ out.old)) }
    ensures late { IfErr result IsLate }
{
    let mut pattern = escape(alloc, text)?;
    pattern.push_str("\n")?;
    print(pattern.as_bytes(), out)?;
    Ok(true)
}

/// Writes about a topic.
fn print_topic<'a, W: Write>(
    alloc: Global,
    topic: Topic<'_>,
    out: &mut W,
) -> Result<bool, Failure<'a>>
    ensures about { IfOk result (λ _. Appends (W.contents out.old) (W.contents out.new) (topic_text topic.entry)) }
    ensures found { IfOk result (λ found. found ≡ true) }
    ensures first { IfErr result (OrOutput (out.new ≡ out.old)) }
    ensures late { IfErr result IsLate }
{
    let text = topic_text(alloc, topic)?;
    print(text.as_bytes(), out)?;
    Ok(true)
}
