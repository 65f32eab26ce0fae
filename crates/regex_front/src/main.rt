//! `regex-front PATTERN [FLAGS]` prints the tree of a pattern, as parsed and as optimized. It exits with the status
//! that `run_front` returns. If an argument is not UTF-8, it prints the usage and exits with 2; if an allocation for
//! the arguments or the output buffer fails, with 3.
#![tactic(auto)]

ghost use Rattle.std.specs.Prelude.{◌≡◌, ◌≢◌, ◌≤◌, ◌↔◌, ◌⊎◌, None, IfSome, IfErr, OnOk};
ghost use Rattle.std.specs.Io.KnownBytes.{Keeps};
ghost use Rattle.regex_front.specs.declared.failure.Failure.TheVariants.{Memory, Output};
ghost use Rattle.regex_front.specs.Printed.{IsAcceptedPattern, NoneIsAccepted, IsParsedText, IsOutput};
ghost use Rattle.regress_arguments.specs.Output.{Took};
ghost use Rattle.regress_arguments.specs.Request.{request_of};
ghost use Rattle.regex_front.specs.Ending.{Ends};

mod failure;
mod trees;

use failure::{Failure, report};
use regress_arguments::{ArgumentsError, arguments, parse_pattern};
use std::alloc::Global;
use std::env::Env;
use std::io::{BufWriter, Write};
use std::process::ExitCode;
use trees::print_trees;

fn main(rt: HostRuntime) -> ExitCode {
    ExitCode::from(run(&rt, rt.stdout(), &mut rt.stderr()))
}

/// Runs the program with the arguments of its environment.
fn run<R: Env + AllocGlobal, W: Write + Drop, E: Write>(rt: &R, out: W, err: &mut E) -> u8
    ensures known { result ≤ 4 }
{
    match arguments(rt) {
        Ok(args) => {
            let (status, _) = run_buffered(rt.alloc(), &args, out, err);
            status
        }
        Err(ArgumentsError::NotUtf8) => report(Failure::Usage, err),
        Err(ArgumentsError::OutOfMemory) => report(Failure::Memory, err),
    }
}

/// Runs `run_front` with a buffered output, and returns the exit status, and the output if it has all that was written.
/// The status is 3 if the buffer cannot be allocated.
fn run_buffered<W: Write + Drop, E: Write>(
    alloc: Global,
    args: &[String],
    out: W,
    err: &mut E,
) -> (u8, Option<W>)
    ensures known { result.0 ≤ 4 }
    ensures usage { result.0 ≡ 2 → request_of args.now ≡ None }
    ensures reported { request_of args.now ≡ None → (result.0 ≡ 2) ⊎ (result.0 ≡ 3) }
    ensures rejected { result.0 ≡ 1 → IfSome (request_of args.now) NoneIsAccepted }
    ensures accepted { (result.0 ≡ 0) ⊎ (result.0 ≡ 4) → IfSome (request_of args.now) IsAcceptedPattern }
    ensures printed { result.0 ≡ 0 → IfSome (request_of args.now) (λ request. IfSome result.1 (λ new.
        Took (W.contents out) (W.contents new) (IsOutput request))) }
    ensures untouched { (result.0 ≡ 1) ⊎ (result.0 ≡ 2) → IfSome result.1 (λ new. Keeps (W.contents out) (W.contents new)) }
    ensures out_of_memory { result.0 ≡ 3 → IfSome result.1 (λ new. Keeps (W.contents out) (W.contents new)
        ⊎ IfSome (request_of args.now) (λ request. Took (W.contents out) (W.contents new) (IsParsedText request))) }
    ensures quiet { (result.0 ≡ 0) ⊎ (result.0 ≡ 4) → err.new ≡ err.old }
{
    match BufWriter::new(alloc, out) {
        Ok(mut buffered) => {
            let status = run_front(alloc, args, &mut buffered, err);
            (status, buffered.into_inner().ok())
        }
        Err(_) => (report(Failure::Memory, err), None),
    }
}

/// Runs the program on its arguments, without its own name, and returns its exit status:
/// - 0: the parsed tree, `--` and the optimized tree are written to `out`;
/// - 1: the pattern is rejected, and `error: ` with the text of the syntax error is written to `err`;
/// - 2: the arguments are not a pattern with optional letters of `imsuv`, each at most once, and the usage is written
///   to `err`;
/// - 3: an allocation failed, and `error: out of memory` is written to `err`; `out` has nothing, or the parsed tree and
///   `--`;
/// - 4: `out` cannot be written; it may have accepted a prefix of the output of status 0.
///
/// The parsed tree is written and flushed before the pattern is optimized. An error of a write to `err` is ignored.
pub fn run_front<W: Write, E: Write>(alloc: Global, args: &[String], out: &mut W, err: &mut E) -> u8
    ensures known { result ≤ 4 }
    ensures usage { (result ≡ 2) ↔ (request_of args.now ≡ None) }
    ensures rejected { result ≡ 1 → IfSome (request_of args.now) NoneIsAccepted }
    ensures accepted { (result ≡ 0) ⊎ (result ≡ 4) → IfSome (request_of args.now) IsAcceptedPattern }

    // The bytes written: both trees, nothing, or the first tree.
    ensures printed { result ≡ 0 → IfSome (request_of args.now)
        (λ request. Took (W.contents out.old) (W.contents out.new) (IsOutput request)) }
    ensures untouched { (result ≡ 1) ⊎ (result ≡ 2) → out.new ≡ out.old }
    ensures out_of_memory { result ≡ 3 → (out.new ≡ out.old) ⊎ IfSome (request_of args.now)
        (λ request. Took (W.contents out.old) (W.contents out.new) (IsParsedText request)) }
    ensures quiet { (result ≡ 0) ⊎ (result ≡ 4) → err.new ≡ err.old }
{
    match print_request(alloc, args, out) {
        Ok(()) => 0,
        Err(failure) => report(failure, err),
    }
}

/// Prints what the arguments ask for.
fn print_request<W: Write>(alloc: Global, args: &[String], out: &mut W) -> Result<(), Failure>
    ensures ends { Ends (request_of args.now) result }
    ensures printed { OnOk result (IfSome (request_of args.now)
        (λ request. Took (W.contents out.old) (W.contents out.new) (IsOutput request))) }
    ensures untouched { IfErr result (λ failure. failure ≢ Output → failure ≢ Memory → out.new ≡ out.old) }
    ensures out_of_memory { IfErr result (λ failure. failure ≡ Memory → (out.new ≡ out.old) ⊎ IfSome (request_of args.now)
        (λ request. Took (W.contents out.old) (W.contents out.new) (IsParsedText request))) }
{
    let Some((pattern, flags)) = parse_pattern(args) else {
        return Err(Failure::Usage);
    };
    print_trees(alloc, pattern, flags, out)
}
