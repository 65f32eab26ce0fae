//! What `lint` says of the size of a pattern.
ghost use Rattle.std.specs.Prelude.{◌≡◌, IfOk, IfErr, Option, chars, option_map};
ghost use Rattle.regress_spans.specs.Remarks.{said};
ghost use Rattle.regex_lines.specs.Ending.{IsLate, setting_in};
ghost use Rattle.regex_command.specs.Patterns.{IsAcceptedPattern};
ghost use Rattle.regex_command.specs.Size.{IsSizeWarning, instructions_warning, name_of, said_of, text_of};

use crate::compiling::compiled;
use crate::pattern::Pattern;
use regex_lines::Failure;
use regress::Nonlinear;
use regress_spans::{Remark, Span};
use std::alloc::{AllocError, Global};

/// Why the size of a pattern may make a search fail.
#[derive(Clone, Copy)]
pub(crate) enum SizeWarning {
    /// Its program has too many instructions for searches in linear time, which nothing else prevents.
    ManyInstructions,
    /// It is too large to be compiled.
    TooLarge,
}

/// Returns what is said of the size of an accepted pattern with `length` code points, if anything. It is compiled as for
/// a search.
pub(crate) fn size_remark<'f>(
    alloc: Global,
    pattern: Pattern<'_>,
    length: usize,
) -> Result<Option<Remark>, Failure<'f>>
    requires { IsAcceptedPattern pattern.dialect (setting_in pattern.dialect pattern.flags) (chars pattern.text.now) }
    ensures said { IfOk result (λ remark. (warning : Option SizeWarning)
        × IsSizeWarning pattern.entry.dialect (setting_in pattern.entry.dialect pattern.entry.flags) pattern.entry.text.now warning
        × (option_map said remark ≡ option_map (said_of length) warning)) }
    ensures late { IfErr result IsLate }
{
    match size_warning(alloc, pattern)? {
        Some(warning) => Ok(Some(remark_of(alloc, warning, length)?)),
        None => Ok(None),
    }
}

/// Returns what is warned of in the size of an accepted pattern.
fn size_warning<'f>(alloc: Global, pattern: Pattern<'_>) -> Result<Option<SizeWarning>, Failure<'f>>
    requires { IsAcceptedPattern pattern.dialect (setting_in pattern.dialect pattern.flags) (chars pattern.text.now) }
    ensures warning { IfOk result (IsSizeWarning pattern.entry.dialect (setting_in pattern.entry.dialect pattern.entry.flags) pattern.entry.text.now) }
    ensures late { IfErr result IsLate }
{
    match compiled(alloc, pattern) {
        Ok(regex) => Ok(instructions_warning(regex.nonlinear())),
        Err(Failure::TooLarge) => Ok(Some(SizeWarning::TooLarge)),
        Err(failure) => Err(failure),
    }
}

/// Returns what is warned of if searches are not linear for this reason.
fn instructions_warning(reason: Option<Nonlinear>) -> Option<SizeWarning>
    ensures { result ≡ instructions_warning reason }
{
    match reason {
        Some(Nonlinear::TooManyInstructions) => Some(SizeWarning::ManyInstructions),
        Some(Nonlinear::BackReference | Nonlinear::CapturingLookaround) | None => None,
    }
}

/// Returns the remark of a warning. Its span is the whole pattern.
fn remark_of(alloc: Global, warning: SizeWarning, length: usize) -> Result<Remark, AllocError>
    ensures { IfOk result (λ remark. said remark ≡ said_of length warning) }
{
    Ok(Remark {
        span: Span {
            start: 0,
            end: length,
        },
        name: warning.name(),
        text: String::from_str(alloc, warning.text())?,
    })
}

impl SizeWarning {
    /// Returns the name of the warning, which never changes.
    fn name(self) -> &'static str
        ensures { result.now ≡ name_of self }
    {
        match self {
            SizeWarning::ManyInstructions => "too-many-instructions",
            SizeWarning::TooLarge => "too-large",
        }
    }

    /// Returns a sentence about the pattern, with an example, without a full stop.
    fn text(self) -> &'static str
        ensures { result.now ≡ text_of self }
    {
        match self {
            SizeWarning::ManyInstructions =>
                "with more than 4,000 instructions a search may take more than linear time, and stop at a step limit: \
                 (?:ab?){2000} has 6,001",
            SizeWarning::TooLarge =>
                "the pattern is too large for a search: more than 250,000 instructions are stored, or there are 2^64 with all \
                 iterations, as in (?:(?:ab){9999999999}){9999999999}, or it may have more than 1,000,000 nodes",
        }
    }
}
