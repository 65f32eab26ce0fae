//! `test_cases [--only TEXT] FILE..` runs the test cases of files, in order, or those that contain a text: the result of a
//! pattern, of a call, or of a match in a text is compared with that of the library over the small table, or over that
//! of all of Unicode. Test cases are data since code that is compiled would have to be proved. The files are in `data`,
//! and the file `args` lists them; `README.md` specifies their notation.
//!
//! If an allocation fails in any of them, the program checks whether the call keeps what it promises for that case;
//! `tools/refuse_growth` makes each allocation of each call fail in order, and those of some searches.
//!
//! A test case that fails is reported as `FILE:LINE: ` and the test case, as is a broken promise. At the end comes whether
//! all pass, or how many fail, and on standard error the number of those that were run. The exit status is 0 if all pass,
//! 1 if one fails, 2 at a malformed line, 3 if an allocation failed and all promises held, 4 if a file cannot be read or
//! is not UTF-8, 5 if standard output cannot be written, and 6 if a file has no test case, or none was run. For 2 and
//! above, except 5, a line on standard error says so.
#![tactic(auto)]

mod generated;
mod instructions;
mod linear;
mod matching;
mod outcome;
mod parsing;
mod positions;
mod replacing;
mod response;
mod tables;
mod tear;
mod trees;

use regress_arguments::{ArgumentsError, arguments};
use std::fs::File;
use std::io::{self, BufReader, BufWriter, Write};
use std::process::ExitCode;
use tables::TablesOfLines;
use test_notation::{Failure, Run, report_run, run_lines};

fn main(rt: HostRuntime) -> ExitCode {
    ExitCode::from(match arguments(&rt) {
        Ok(words) => status(&rt, run(&rt, &words)),
        Err(ArgumentsError::NotUtf8) => status(&rt, Err(Failure::Input("an argument"))),
        Err(ArgumentsError::OutOfMemory) => status(&rt, Err(Failure::Memory)),
    })
}

/// Runs the test cases that the arguments state. Making a buffer or a table fails only if an allocation does.
fn run<'a>(rt: &HostRuntime, words: &'a [String]) -> Result<u8, Failure<'a>> {
    let (only, files) = match words {
        [option, only, files @ ..] if option.as_str() == "--only" => (only.as_str(), files),
        files => ("", files),
    };
    let Ok(mut out) = BufWriter::new(rt.alloc(), rt.stdout()) else {
        return Err(Failure::Memory);
    };
    let Ok(mut tables) = TablesOfLines::new(rt.alloc()) else {
        return Err(Failure::Memory);
    };
    let mut run = Run::new(only);
    for file in files {
        run = run.at_file(file);
        match open(rt, file) {
            Ok(input) => run_lines(rt.alloc(), &mut run, input, &mut out, &mut tables)?,
            Err(error) => return Err(Failure::of_input(file, &error)),
        }
    }
    let _ = writeln!(rt.stderr(), "{} test cases", run.count());
    report_run(&run, &mut out)
}

fn open(rt: &HostRuntime, file: &str) -> io::Result<BufReader<File>> {
    BufReader::new(rt.alloc(), File::open(rt, file)?)
}

/// Returns the exit status of a run, after writing the message of a failure to standard error.
fn status(rt: &HostRuntime, done: Result<u8, Failure<'_>>) -> u8 {
    match done {
        Ok(status) => status,
        Err(failure) => {
            report(failure, &mut rt.stderr());
            failure.status()
        }
    }
}

/// Writes the message of a failure to `err`. An error of that write is ignored.
fn report<E: Write>(failure: Failure<'_>, err: &mut E) {
    let _ = match failure {
        Failure::Line(file, number) => writeln!(err, "{file}:{number}: not a test case"),
        Failure::Memory => err.write_all(b"out of memory\n"),
        Failure::Input(file) => writeln!(err, "{file}: can't be read, or isn't UTF-8"),
        Failure::Output => Ok(()),
        Failure::Empty(file) => writeln!(err, "{file}: there is no test case"),
        Failure::NoLine => err.write_all(b"no test case was run\n"),
    };
}
