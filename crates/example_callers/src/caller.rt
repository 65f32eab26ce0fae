//! A caller of the library. docs/guide.md shows parts of it.
ghost use Rattle.std.specs.Prelude.{IfOk, chars};
ghost use Rattle.regress_front.specs.SmallTable.{small_table};
ghost use Rattle.regress_front.specs.Fault.{RejectedOnlyIf};
ghost use Rattle.regress_front.specs.Syntax.{Pattern};
ghost use Rattle.regress_front.specs.Accepted.{IsAccepted};
ghost use Rattle.regress_front.specs.Rejected.{NoneIsAccepted};
ghost use Rattle.regress_front.specs.Meaning.{setting_of};

use regress_front::codepointset::{CodePointSet, Interval};
use regress_front::optimizer::parse_and_optimize;
use regress_front::parse::ParseFault;
use regress_front::types::Flags;
use regress_front::unicode::{FoldRange, Tables, TablesError};
use regress_front::util::code_points;
use std::alloc::{AllocError, AllocFailed, Global};

/// Returns the optimized tree of a pattern in its printed form.
///
/// # Errors
/// Returns [`ParseFault::Syntax`] if the pattern is rejected, and [`ParseFault::Memory`] if an allocation fails.
pub fn optimized_text(alloc: Global, pattern: &str, flags: Flags) -> Result<String, ParseFault>
    ensures accepted { IfOk result (λ _. (p : Pattern) × IsAccepted (record { flags = flags; table = small_table }) (chars pattern.now) p) }
    ensures rejected { RejectedOnlyIf result (NoneIsAccepted (record { flags = flags; table = small_table }) (chars pattern.now)) }
{
    let points = code_points(alloc, pattern)?;
    let tables = Tables::small(alloc)?;
    let (regex, optimized) = parse_and_optimize(alloc, &points, flags, &tables)?;
    optimized?;
    Ok(format!(in alloc; "{regex}")?)
}

/// Returns the optimized tree of a pattern under the caller's tables, with the caller's own error type.
///
/// # Errors
/// Returns [`LinterError::Pattern`] if parsing fails, and [`LinterError::Memory`] if another allocation fails.
pub fn optimized_text_by(
    alloc: Global,
    pattern: &str,
    flags: Flags,
    tables: &Tables,
) -> Result<String, LinterError>
    ensures accepted { IfOk result (λ _. (p : Pattern) × IsAccepted (setting_of flags tables.now) (chars pattern.now) p) }
{
    let points = code_points(alloc, pattern)?;
    let (regex, optimized) = parse_and_optimize(alloc, &points, flags, tables)?;
    optimized?;
    Ok(format!(in alloc; "{regex}")?)
}

/// Returns tables for ASCII: the cases of its letters, and the characters of names. With an empty `id_start`, every
/// name but those that begin with `$` or `_` would be rejected.
///
/// # Errors
/// Returns an error if an allocation fails. These tables are valid, so that [`Tables::new`] does not reject them.
pub fn ascii_tables(alloc: Global) -> Result<Tables, TablesError> {
    let folds = vec![in alloc; FoldRange::from(0x41, 26, 32, 1)]?;
    let uppers = vec![in alloc; FoldRange::from(0x61, 26, -32, 1)]?;
    let mut letters = CodePointSet::new(alloc);
    letters.add(Interval::new(0x41, 0x5A))?;
    letters.add(Interval::new(0x61, 0x7A))?;
    let mut in_names = letters.try_clone(alloc)?;
    in_names.add(Interval::new(0x30, 0x39))?;
    in_names.add_one(0x5F)?;
    Tables::new(
        alloc,
        folds,
        uppers,
        letters,
        in_names,
        Vec::new(alloc),
        Vec::new(alloc),
        Vec::new(alloc),
        Vec::new(alloc),
        Vec::new(alloc),
    )
}

/// Why a pattern has no optimized text.
#[derive(Debug, Drop)]
pub enum LinterError {
    Pattern(ParseFault),
    Memory,
}

impl From<ParseFault> for LinterError {
    fn from(fault: ParseFault) -> LinterError {
        LinterError::Pattern(fault)
    }
}

impl From<AllocError> for LinterError {
    fn from(_: AllocError) -> LinterError {
        LinterError::Memory
    }
}

// For `?` on `Vec::push` and similar functions, which return the value that did not fit.
impl<T: Drop> From<AllocFailed<T>> for LinterError {
    fn from(_: AllocFailed<T>) -> LinterError {
        LinterError::Memory
    }
}
