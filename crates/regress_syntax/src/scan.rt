//! Scans a pattern for its capture groups, before it is parsed.
ghost use Rattle.std.specs.Prelude.{◌≡◌, ◌≤◌, min, length, IfOk};
ghost use Rattle.regress_base.specs.Limits.{max_capture_groups, max_nesting_depth};
ghost use Rattle.regress_unicode.specs.TableOf.{table_of};
ghost use Rattle.regress_lexer.specs.Fault.{FailsBy};
ghost use Rattle.regress_syntax.specs.Paths.{NoTokensConflict};
ghost use Rattle.regress_syntax.specs.Scan.{GivesTokens, plain, tokens, named_by, deepest, TokensShow};
ghost use Rattle.regress_syntax.specs.Scanning.{NotesFirst, IsLocated, IsAtDuplicate, FailsAt};
ghost use Rattle.regress_syntax.specs.Views.{names_in};

mod first_errors;
mod path;
mod scanner;
mod token;

use crate::groups::Groups;
pub use first_errors::FirstErrors;
use first_errors::Place;
use regress_lexer::fault::Fault;
use regress_unicode::Tables;
use scanner::Scanner;
use std::alloc::Global;
use token::{Mode, TokenContext, find_token, skip_insignificant};

/// What the scan of a pattern finds.
#[derive(Drop)]
pub struct Findings {
    /// The capture groups of the pattern.
    pub groups: Groups,
    /// The positions at which the pattern has errors that no continuation can repair.
    pub first_errors: FirstErrors,
}

/// Finds the capture groups of `pattern` and their names by a scan of its code points, without parsing it.
///
/// `sets` is the flag v, with which classes nest. If the grammar derives the pattern, its syntax tree has exactly these
/// groups, in this order. References need them before the pattern is parsed, since they may come before their groups.
///
/// # Errors
/// The first of these that applies:
/// - [`FaultKind::DuplicateName`] if two groups of the same name conflict: no disjunction has them in different
///   alternatives (ECMA-262, MightBothParticipate). Its position is that of the first name in the pattern that conflicts
///   with one before it. In a pattern that is nested too deeply, groups that do not conflict may be reported.
/// - [`FaultKind::TooDeep`] if the pattern is nested deeper than `MAX_NESTING_DEPTH`.
/// - [`FaultKind::TooManyGroups`] if the pattern has more than `u32::MAX` capture groups.
///
/// Returns [`Fault::Memory`] if an allocation fails.
///
/// # Complexity
/// Linear in the length of the pattern, apart from sorting the named groups by name. The path of a named group has at
/// most `MAX_NESTING_DEPTH` levels.
pub fn scan(alloc: Global, pattern: &[u32], sets: bool, tables: &Tables) -> Result<Findings, Fault>
    ensures names { IfOk result (λ found. names_in found.groups ≡ named_by (tokens sets (table_of tables.now) plain pattern.now)) }
    ensures count { IfOk result (λ found. found.groups.count ≡ min (length (names_in found.groups)) max_capture_groups) }
    ensures apart { IfOk result (λ found. NoTokensConflict (tokens sets (table_of tables.now) plain pattern.now)) }
    ensures nesting { IfOk result (λ _. deepest 1 (tokens sets (table_of tables.now) plain pattern.now) ≤ max_nesting_depth) }
    ensures first_errors { IfOk result (λ found. NotesFirst sets pattern.now found.first_errors) }
    ensures rejected { FailsBy result (TokensShow (tokens sets (table_of tables.now) plain pattern.now)) }
    ensures located { FailsAt result (IsLocated sets pattern.now) }
    ensures duplicate { FailsAt result (IsAtDuplicate sets (table_of tables.now) pattern.now) }
    ensures whole { GivesTokens sets (table_of tables.now) pattern.now }
{
    let (groups, first_errors) = find_groups(alloc, pattern, sets, tables)?;
    Ok(Findings {
        groups,
        first_errors,
    })
}

/// Returns the capture groups and the first errors, with the errors of `scan`.
fn find_groups(
    alloc: Global,
    pattern: &[u32],
    sets: bool,
    tables: &Tables,
) -> Result<(Groups, FirstErrors), Fault>
    ensures names { IfOk result (λ found. names_in found.0 ≡ named_by (tokens sets (table_of tables.now) plain pattern.now)) }
    ensures count { IfOk result (λ found. found.0.count ≡ min (length (names_in found.0)) max_capture_groups) }
    ensures apart { IfOk result (λ _. NoTokensConflict (tokens sets (table_of tables.now) plain pattern.now)) }
    ensures nesting { IfOk result (λ _. deepest 1 (tokens sets (table_of tables.now) plain pattern.now) ≤ max_nesting_depth) }
    ensures first_errors { IfOk result (λ found. NotesFirst sets pattern.now found.1) }
    ensures rejected { FailsBy result (TokensShow (tokens sets (table_of tables.now) plain pattern.now)) }
    ensures located { FailsAt result (IsLocated sets pattern.now) }
    ensures duplicate { FailsAt result (IsAtDuplicate sets (table_of tables.now) pattern.now) }
{
    let context = TokenContext { sets, tables };
    let mut scanner = Scanner::new(alloc)?;
    let mut first_errors = FirstErrors::none();
    let mut mode = Mode::Plain;
    let mut rest = pattern;
    while let Some((c, after)) = skip_insignificant(rest).split_first() {
        let left = after.len() + 1;
        let place = Place {
            mode,
            nesting: scanner.nesting(),
        };
        first_errors.note(place, *c, sets, left);
        if let Some(token) = find_token(alloc, context, mode, *c, after)? {
            scanner.pass(token, left)?;
        }
        mode = mode.after(*c, sets);
        rest = after;
    }
    match scanner.finish() {
        Ok(groups) => Ok((groups, first_errors)),
        Err(fault) => Err(first_errors.locate(fault)),
    }
}
