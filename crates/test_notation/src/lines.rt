//! Runs the test cases of files.

use crate::fault::{Fault, Promise};
use std::alloc::Global;
use std::io::{self, BufRead, ErrorKind, Write};

/// A checker of test cases.
pub trait Lines {
    /// Returns the result of a test case, if it is not the expected one.
    ///
    /// # Errors
    /// Returns a [`Fault`] if the test case is malformed, an allocation failed, or a promise is broken.
    fn difference(&mut self, alloc: Global, line: &str) -> Result<Option<String>, Fault>;
}

/// Why a run ends early, or has no test case. Files are named as the caller names them.
#[derive(Clone, Copy, Debug)]
pub enum Failure<'a> {
    /// The line of a file with this number, from 1, is not a test case.
    Line(&'a str, usize),
    /// An allocation failed.
    Memory,
    /// A file cannot be read, or is not UTF-8.
    Input(&'a str),
    /// The output cannot be written.
    Output,
    /// A file has no test case.
    Empty(&'a str),
    /// No test case has been run.
    NoLine,
}

impl<'a> Failure<'a> {
    /// Returns the failure for an error of opening or reading a file.
    pub fn of_input(file: &'a str, error: &io::Error) -> Failure<'a> {
        match error.kind() {
            ErrorKind::OutOfMemory => Failure::Memory,
            _ => Failure::Input(file),
        }
    }

    /// Returns the exit status of the program.
    pub fn status(&self) -> u8 {
        match self {
            Failure::Line(_, _) => 2,
            Failure::Memory => 3,
            Failure::Input(_) => 4,
            Failure::Output => 5,
            Failure::Empty(_) | Failure::NoLine => 6,
        }
    }
}

/// A run of the test cases that contain a text: its file, and how many pass and fail. The numbers saturate.
#[derive(Clone, Copy)]
pub struct Run<'a> {
    only: &'a str,
    file: &'a str,
    /// The number of lines read of the file.
    lines: usize,
    /// The number of test cases in the file, with those that are not run.
    cases: usize,
    hold: usize,
    differ: usize,
}

impl<'a> Run<'a> {
    /// Returns the run of the test cases that contain `only`, before the first file.
    pub fn new(only: &'a str) -> Run<'a> {
        Run {
            only,
            file: "",
            lines: 0,
            cases: 0,
            hold: 0,
            differ: 0,
        }
    }

    /// Returns the run at the start of a file.
    pub fn at_file(self, file: &'a str) -> Run<'a> {
        Run {
            file,
            lines: 0,
            cases: 0,
            ..self
        }
    }

    /// Returns the number of test cases that were run.
    pub fn count(&self) -> usize {
        self.hold.saturating_add(self.differ)
    }
}

/// Runs the test cases in `input`, the content of the file of `run`, writes those that fail to `out`, and counts them.
/// Empty lines and lines that begin with `#` are skipped.
///
/// # Errors
/// Returns a [`Failure`] at the first malformed test case, failed allocation, or error of the input or output, and if
/// there is no test case in the file.
pub fn run_lines<'a, R: BufRead + Drop, W: Write, L: Lines>(
    alloc: Global,
    run: &mut Run<'a>,
    input: R,
    out: &mut W,
    lines: &mut L,
) -> Result<(), Failure<'a>> {
    for line in input.lines(alloc) {
        match line {
            Ok(line) => take_line(alloc, run, &line, out, lines)?,
            Err(error) => return Err(Failure::of_input(run.file, &error)),
        }
    }
    if run.cases == 0 {
        return Err(Failure::Empty(run.file));
    }
    Ok(())
}

fn take_line<'a, W: Write, L: Lines>(
    alloc: Global,
    run: &mut Run<'a>,
    line: &str,
    out: &mut W,
    lines: &mut L,
) -> Result<(), Failure<'a>> {
    run.lines = run.lines.saturating_add(1);
    if line.is_empty() || line.starts_with('#') {
        return Ok(());
    }
    run.cases = run.cases.saturating_add(1);
    if !line.contains(run.only) {
        return Ok(());
    }
    match lines.difference(alloc, line) {
        Ok(None) => {
            run.hold = run.hold.saturating_add(1);
            Ok(())
        }
        Ok(Some(found)) => report_found(run, line, &found, out),
        Err(Fault::Broken(promise)) => report_broken(run, line, promise, out),
        Err(Fault::Line) => Err(Failure::Line(run.file, run.lines)),
        Err(Fault::Memory) => Err(Failure::Memory),
    }
}

fn report_found<'a, W: Write>(
    run: &mut Run<'a>,
    line: &str,
    found: &str,
    out: &mut W,
) -> Result<(), Failure<'a>> {
    let Run { file, lines, .. } = *run;
    run.differ = run.differ.saturating_add(1);
    written(writeln!(out, "{file}:{lines}: {line}\nfound: {found}"))
}

fn report_broken<'a, W: Write>(
    run: &mut Run<'a>,
    line: &str,
    promise: Promise,
    out: &mut W,
) -> Result<(), Failure<'a>> {
    let Run { file, lines, .. } = *run;
    run.differ = run.differ.saturating_add(1);
    written(writeln!(out, "{file}:{lines}: {line}\nbroken: {promise:?}"))
}

fn written<'a>(done: io::Result<()>) -> Result<(), Failure<'a>> {
    if done.is_ok() {
        Ok(())
    } else {
        Err(Failure::Output)
    }
}

/// Writes whether all test cases that were run pass, or how many of them fail. Returns 0 if all pass, else 1.
///
/// # Errors
/// Returns a [`Failure`] if the output cannot be written, or if no test case was run.
pub fn report_run<'a, W: Write>(run: &Run<'a>, out: &mut W) -> Result<u8, Failure<'a>> {
    let (count, differ) = (run.count(), run.differ);
    if count == 0 {
        written(out.flush())?;
        return Err(Failure::NoLine);
    }
    if differ == 0 {
        written(writeln!(out, "all test cases pass"))?;
    } else {
        written(writeln!(out, "{differ} of {count} test cases fail"))?;
    }
    written(out.flush())?;
    Ok(if differ == 0 { 0 } else { 1 })
}
