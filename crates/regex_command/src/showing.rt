//! `parse` and `draw`.
ghost use Rattle.std.specs.Prelude.{◌≡◌, ◌≢◌, true, false, ◌⊎◌, Ok, IfOk, IfErr, string_bytes};
ghost use Rattle.regress_arguments.specs.Output.{Took};
ghost use Rattle.regress_display.specs.Request.{NoneIsAccepted, setting_of_request, requested};
ghost use Rattle.regress_display.specs.Fault.{IsFaultOutput};
ghost use Rattle.regress_display.specs.Shown.{IsFirstOutput};
ghost use Rattle.regex_lines.specs.Ending.{OrOutput};
ghost use Rattle.regex_command.specs.Patterns.{HasFaultOutput, IsTreeOutput, IsFaultWritten, IsQuietFor, IsShowFailure};
ghost use Rattle.regex_lines.specs.declared.failure.Failure.TheVariants.{Output};
ghost use Rattle.regress_parse.specs.Settled.{IsSyntaxErrorIn};

use regex_lines::{Failure, Rejection, write_rejection};
use regress_display::{Format, Request, ShowError, show, write_json_fault};
use regress_parse::{Error, FaultKind};
use std::alloc::Global;
use std::io::Write;

/// Why a pattern is rejected, and where.
#[derive(Clone, Copy)]
struct Fault<'a> {
    kind: &'a FaultKind,
    error: &'a Error,
    position: usize,
}

impl<'a> Fault<'a> {
    fn rejection(self) -> Rejection<'a> {
        Rejection {
            kind: self.kind,
            text: &self.error.text,
            position: self.position,
        }
    }
}

/// Writes the tree of a pattern, or why it is rejected, and returns whether it is accepted.
///
/// A syntax error is written to `out` if the format is JSON, and else to `err`.
pub(crate) fn print_tree<'f, W: Write, E: Write>(
    alloc: Global,
    request: Request<'_>,
    out: &mut W,
    err: &mut E,
) -> Result<bool, Failure<'f>>
    ensures shown { IfOk result (λ accepted.
        Took (W.contents out.old) (W.contents out.new) (IsTreeOutput accepted (requested request.entry))) }
    ensures quiet { result ≡ Ok true → err.new ≡ err.old }
    ensures quiet_fault { IsQuietFor request.entry.format (err.new ≡ err.old) }
    ensures first { IfErr result (OrOutput ((out.new ≡ out.old)
        ⊎ Took (W.contents out.old) (W.contents out.new) (IsFirstOutput (requested request.entry)))) }
    ensures due { IfErr result (IsShowFailure (requested request.entry)) }
{
    match show(alloc, &request, out) {
        Ok(()) => Ok(true),
        Err(
            ShowError::Syntax {
                kind,
                error,
                position,
            },
        ) => {
            let fault = Fault {
                kind: &kind,
                error: &error,
                position,
            };
            print_fault(alloc, fault, request, out, err)
        }
        Err(ShowError::Memory) => Err(Failure::Memory),
        Err(ShowError::Output) => Err(Failure::Output),
    }
}

/// Writes why a pattern is rejected, and returns that it is not accepted.
fn print_fault<'f, W: Write, E: Write>(
    alloc: Global,
    fault: Fault<'_>,
    request: Request<'_>,
    out: &mut W,
    err: &mut E,
) -> Result<bool, Failure<'f>>
    requires { IsSyntaxErrorIn request.dialect (setting_of_request (requested request)) (requested request).pattern fault.kind.now
        (string_bytes fault.error.now.text) fault.position }
    ensures shown { IfOk result (λ accepted. (accepted ≡ false) × Took (W.contents out.old) (W.contents out.new)
        (IsFaultWritten request.entry.format (requested request.entry))) }
    ensures quiet { result ≡ Ok true → err.new ≡ err.old }
    ensures quiet_fault { IsQuietFor request.entry.format (err.new ≡ err.old) }
    ensures failed { IfErr result (λ failure. (failure ≡ Output)
        × HasFaultOutput request.entry.format (requested request.entry)) }
{
    match request.format {
        Format::Text => {
            let _ = write_rejection(alloc, fault.rejection(), request.pattern, err);
            Ok(false)
        }
        Format::Json => print_json_fault(fault, request, out),
        Format::Svg => {
            let _ = write_rejection(alloc, fault.rejection(), request.pattern, err);
            Ok(false)
        }
    }
}

/// Writes why a pattern is rejected as JSON, and returns that it is not accepted.
fn print_json_fault<'f, W: Write>(
    fault: Fault<'_>,
    request: Request<'_>,
    out: &mut W,
) -> Result<bool, Failure<'f>>
    requires { IsSyntaxErrorIn request.dialect (setting_of_request (requested request)) (requested request).pattern fault.kind.now
        (string_bytes fault.error.now.text) fault.position }
    ensures shown { IfOk result (λ accepted. (accepted ≡ false)
        × Took (W.contents out.old) (W.contents out.new) (IsFaultOutput (requested request.entry))) }
    ensures quiet { result ≢ Ok true }
    ensures failed { IfErr result (λ failure. (failure ≡ Output) × NoneIsAccepted (requested request.entry)) }
{
    match write_json_fault(
        fault.kind,
        fault.error,
        request.pattern,
        fault.position,
        out,
    ) {
        Ok(()) => Ok(false),
        Err(_) => Err(Failure::Output),
    }
}
