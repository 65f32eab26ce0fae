//! From a pattern to its tree in normal form.
ghost use Rattle.std.specs.Prelude.{◌≡◌, ◌⊎◌, true, ◌≤◌, ◌+◌, ◌*◌, All, IfOk, IfErr, OnOk, IsOkAnd, MatchResult};
ghost use Rattle.regress_base.specs.Intervals.{code_point_max};
ghost use Rattle.regress_unicode.specs.TableOf.{table_of};
ghost use Rattle.regress_syntax.specs.Meaning.{setting_of};
ghost use Rattle.regress_tree.specs.NodeTests.{match_always_fails};
ghost use Rattle.regress_tree.specs.Shapes.{ends_in_goal};
ghost use Rattle.regress_tree.specs.Tree.{tree};
ghost use Rattle.regress_tree.specs.WellFormed.{IsWellFormed, captures};
ghost use Rattle.regress_tree.specs.Units.{units, unrolling, loops};
ghost use Rattle.regress_tree.specs.NormalForm.{IsNormal};
ghost use Rattle.regress_parse.specs.Fault.{RejectedOnlyIf, ReportsKind};
ghost use Rattle.regress_syntax.specs.Syntax.{Pattern};
ghost use Rattle.regress_parse.specs.TreeOf.{tree_of};
ghost use Rattle.regress_parse.specs.Accepted.{IsAccepted, OneIsDerived, OfAccepted, Means, IsAcceptedIn, OneIsDerivedIn, OfAcceptedIn};
ghost use Rattle.regress_parse.specs.Rejected.{NoneIsAccepted, IsTrueOf, MayExceed};
ghost use Rattle.regress_parse.specs.Settled.{IsFaultIn};
ghost use Rattle.regress_lexer.specs.Dialects.{flags_in_force};
ghost use Rattle.regress_front.specs.Optimized.{IsOptimized};

use regress_base::types::Flags;
use regress_normalize::optimize;
use regress_parse::{Dialect, ParseFault, PlacedFault, try_parse, try_parse_in};
use regress_tree::ir::Regex;
use regress_unicode::Tables;
use std::alloc::{AllocError, Global};

/// Parses a pattern as `try_parse` does, optimizes its tree as [`optimize`] does, and returns the tree with the result
/// of `optimize`.
///
/// The tree is in normal form if the second result is `Ok`. If it is an error, an allocation failed while optimizing:
/// the tree may not be in normal form, but it has the pattern's meaning and may be used, or optimized again.
///
/// # Preconditions
/// Each element of `pattern` is a code point, at most U+10FFFF.
///
/// # Errors
/// - [`ParseFault::Syntax`] if the pattern is rejected, with the text that `try_parse` reports.
/// - [`ParseFault::Memory`] if an allocation fails while parsing.
///
/// # Complexity
/// As for `try_parse` and [`optimize`] together.
///
/// # Examples
/// ```
/// let tables = Tables::small(alloc)?;
/// let points = code_points(alloc, "abc")?;
/// let (regex, optimized) = parse_and_optimize(alloc, &points, Flags::default(), &tables)?;
/// optimized?;
/// let printed = regex.to_string(alloc)?;
/// assert_eq!(rt; printed.as_str(), "Cat\n..ByteSeq3 0x616263\n..Goal\n");
/// ```
pub fn parse_and_optimize(
    alloc: Global,
    pattern: &[u32],
    flags: Flags,
    tables: &Tables,
) -> Result<(Regex, Result<(), AllocError>), ParseFault>
    requires { All (λ c. c ≤ code_point_max) pattern.now }

    // Unless an allocation fails, the result is a tree exactly if the grammar derives one within the limits.
    ensures accepted { IfOk result (λ _. (p : Pattern) × IsAccepted (setting_of flags tables.now) pattern.now p) }
    ensures rejected { RejectedOnlyIf result (NoneIsAccepted (setting_of flags tables.now) pattern.now) }
    ensures reported { ReportsKind result (IsTrueOf (setting_of flags tables.now) pattern.now) }
    ensures limits { ReportsKind result (MayExceed pattern.now) }
    ensures only { OneIsDerived (setting_of flags tables.now) pattern.now }

    // The tree is in normal form, and unchanged if the parsed tree is in normal form.
    ensures normal { IfOk result (λ r. OnOk r.1 (IsNormal (tree r.0.node))) }
    ensures left { IfOk result (λ r. OfAccepted (setting_of flags tables.now) pattern.now
        (λ p. IsNormal (tree_of (table_of tables.now) p) → tree r.0.node ≡ tree_of (table_of tables.now) p)) }

    // In every UTF-8 text and from every state the tree yields the pattern's distinct outcomes in their order.
    ensures meaning { let setting = setting_of flags tables.now in
        IfOk result (λ r. OfAccepted setting pattern.now (Means setting (tree r.0.node))) }
    ensures flags { IfOk result (λ r. r.0.flags ≡ flags) }
    // The tree ends in `Goal`, or always fails.
    ensures goal { IfOk result (λ r. (ends_in_goal (tree r.0.node) ≡ true) ⊎ (match_always_fails (tree r.0.node) ≡ true)) }

    // The tree is well formed, has the pattern's groups with their ids and names, and is larger than the parsed tree by
    // at most what unrolling adds for each loop.
    ensures well_formed { IfOk result (λ r. IsWellFormed (tree r.0.node)) }
    ensures captures { IfOk result (λ r. OfAccepted (setting_of flags tables.now) pattern.now
        (λ p. captures (tree r.0.node) ≡ captures (tree_of (table_of tables.now) p))) }
    ensures units { IfOk result (λ r. OfAccepted (setting_of flags tables.now) pattern.now
        (λ p. let parsed = tree_of (table_of tables.now) p in
        units (tree r.0.node) ≤ units parsed + unrolling * loops parsed)) }
{
    optimize_parsed(alloc, try_parse(alloc, pattern, flags, tables))
}

/// Parses a pattern of a dialect as `try_parse_in` does, optimizes its tree as [`optimize`] does, and returns the tree with
/// the result of `optimize`. All that [`parse_and_optimize`] states of the tree holds in every dialect.
///
/// The tree has the flags in force ([`Dialect::flags_in_force`]).
///
/// # Preconditions
/// Each element of `pattern` is a code point, at most U+10FFFF.
///
/// # Errors
/// - [`PlacedFault::Syntax`] if the pattern is rejected, with the kind, the text and the position of the error.
/// - [`PlacedFault::Memory`] if an allocation fails while parsing.
///
/// # Complexity
/// As for [`parse_and_optimize`].
///
/// # Examples
/// ```
/// let tables = Tables::small(alloc)?;
/// let points = code_points(alloc, "\\b+")?;
/// let flags = Flags::default();
/// assert!(rt; parse_and_optimize_in(alloc, &points, flags, &tables, Dialect::Ecma).is_err());
/// assert!(rt; parse_and_optimize_in(alloc, &points, flags, &tables, Dialect::Regress).is_ok());
/// ```
pub fn parse_and_optimize_in(
    alloc: Global,
    pattern: &[u32],
    flags: Flags,
    tables: &Tables,
    dialect: Dialect,
) -> Result<(Regex, Result<(), AllocError>), PlacedFault>
    requires { All (λ c. c ≤ code_point_max) pattern.now }

    // Unless an allocation fails, the result is a tree exactly if the grammar derives one within the limits.
    ensures accepted { let setting = setting_of (flags_in_force dialect flags) tables.now in
        IfOk result (λ _. (p : Pattern) × IsAcceptedIn dialect setting pattern.now p) }
    ensures rejected { IfErr result (IsFaultIn dialect (setting_of (flags_in_force dialect flags) tables.now) pattern.now) }
    ensures only { OneIsDerivedIn dialect (setting_of (flags_in_force dialect flags) tables.now) pattern.now }

    // The tree is in normal form, and unchanged if the parsed tree is in normal form.
    ensures normal { IfOk result (λ r. OnOk r.1 (IsNormal (tree r.0.node))) }
    ensures left { IfOk result (λ r. OfAcceptedIn dialect (setting_of (flags_in_force dialect flags) tables.now) pattern.now
        (λ p. IsNormal (tree_of (table_of tables.now) p) → tree r.0.node ≡ tree_of (table_of tables.now) p)) }

    // In every UTF-8 text and from every state the tree yields the pattern's distinct outcomes in their order.
    ensures meaning { let setting = setting_of (flags_in_force dialect flags) tables.now in
        IfOk result (λ r. OfAcceptedIn dialect setting pattern.now (Means setting (tree r.0.node))) }
    ensures flags { IfOk result (λ r. r.0.flags ≡ flags_in_force dialect flags) }
    // The tree ends in `Goal`, or always fails.
    ensures goal { IfOk result (λ r. (ends_in_goal (tree r.0.node) ≡ true) ⊎ (match_always_fails (tree r.0.node) ≡ true)) }

    // The tree is well formed, has the pattern's groups with their ids and names, and is larger than the parsed tree by
    // at most what unrolling adds for each loop.
    ensures well_formed { IfOk result (λ r. IsWellFormed (tree r.0.node)) }
    ensures captures { IfOk result (λ r. OfAcceptedIn dialect (setting_of (flags_in_force dialect flags) tables.now) pattern.now
        (λ p. captures (tree r.0.node) ≡ captures (tree_of (table_of tables.now) p))) }
    ensures units { IfOk result (λ r. OfAcceptedIn dialect (setting_of (flags_in_force dialect flags) tables.now) pattern.now
        (λ p. let parsed = tree_of (table_of tables.now) p in
        units (tree r.0.node) ≤ units parsed + unrolling * loops parsed)) }
{
    optimize_parsed(alloc, try_parse_in(alloc, pattern, flags, tables, dialect))
}

/// Optimizes a parsed tree. No tree is lost if an allocation fails.
fn optimize_parsed<E>(
    alloc: Global,
    parsed: Result<Regex, E>,
) -> Result<(Regex, Result<(), AllocError>), E>
    requires { IfOk parsed (λ regex. IsWellFormed (tree regex.node)) }
    ensures { MatchResult parsed (λ regex. IsOkAnd result (IsOptimized regex)) (λ fault. result ≡ Err fault) }
{
    match parsed {
        Ok(mut regex) => {
            let optimized = optimize(alloc, &mut regex);
            Ok((regex, optimized))
        }
        Err(fault) => Err(fault),
    }
}
