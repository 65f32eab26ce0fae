//! Compiles a pattern.
ghost use Rattle.std.specs.Prelude.{◌≡◌, All, IfOk, IfErr, chars, map, string_bytes};
ghost use Rattle.std.specs.List.{Any};
ghost use Rattle.regex_lines.specs.Ending.{IsOwnIn, setting_in};
ghost use Rattle.regex_command.specs.Patterns.{IsAcceptedPattern};
ghost use Rattle.regex_command.specs.Printed.{IsRejected};

use crate::pattern::Pattern;
use regex_lines::Failure;
use regress::{Dialect, Error, Options, Regex};
use regress_base::types::Flags;
use regress_ucd::unicode_tables;
use std::alloc::Global;
use std::sync::Arc;

/// Compiles each pattern by itself, and returns the failure of the first one that is rejected.
pub(crate) fn compile_each<'f>(
    alloc: Global,
    dialect: Dialect,
    flags: Flags,
    patterns: &[String],
) -> Result<(), Failure<'f>>
    ensures accepted { IfOk result (λ _. All (λ pattern. IsAcceptedPattern dialect (setting_in dialect flags) (chars pattern)) (map string_bytes patterns.now)) }
    ensures rejected { IfErr result (λ failure. Any (λ pattern. IsRejected dialect (setting_in dialect flags) pattern failure) (map string_bytes patterns.now)) }
{
    for pattern in patterns {
        let text = pattern.as_str();
        compile_alone(
            alloc,
            Pattern {
                text,
                flags,
                dialect,
            },
        )?;
    }
    Ok(())
}

/// Compiles a pattern, and returns why it is rejected.
fn compile_alone<'f>(alloc: Global, pattern: Pattern<'_>) -> Result<(), Failure<'f>>
    ensures accepted { let setting = setting_in pattern.entry.dialect pattern.entry.flags in
        IfOk result (λ _. IsAcceptedPattern pattern.entry.dialect setting (chars pattern.entry.text.now)) }
    ensures rejected { let setting = setting_in pattern.entry.dialect pattern.entry.flags in
        IfErr result (IsRejected pattern.entry.dialect setting pattern.entry.text.now) }
{
    let _ = compiled(alloc, pattern)?;
    Ok(())
}

/// Compiles a pattern over all of Unicode. What may have too many nodes is too large, whether or not it has a syntax
/// error: to find that out would take time that nothing bounds.
pub(crate) fn compiled<'f>(alloc: Global, pattern: Pattern<'_>) -> Result<Regex, Failure<'f>>
    ensures own { let setting = setting_in pattern.entry.dialect pattern.entry.flags in
        IfOk result (IsOwnIn pattern.entry.dialect setting pattern.entry.text.now) }
    ensures failed { let setting = setting_in pattern.entry.dialect pattern.entry.flags in
        IfErr result (IsRejected pattern.entry.dialect setting pattern.entry.text.now) }
{
    let options = Options {
        dialect: pattern.dialect,
        ..Options::default()
    };
    let tables = Arc::new(alloc, unicode_tables(alloc)?)?;
    match Regex::with_options(alloc, pattern.text, pattern.flags, options, &tables) {
        Ok(regex) => Ok(regex),
        Err(
            Error::Syntax {
                message,
                position,
                ..
            },
        ) => Err(Failure::Syntax {
            pattern: String::from_str(alloc, pattern.text)?,
            text: message,
            position,
        }),
        Err(Error::TooLarge) => Err(Failure::TooLarge),
        Err(Error::Flags(_)) => unreachable!(),
        Err(Error::Memory) => Err(Failure::Memory),
    }
}
