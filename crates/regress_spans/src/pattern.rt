//! Parses a pattern, with spans.
ghost use Rattle.std.specs.Prelude.{◌≡◌, length, zip, All, AllPairs, IfOk, IfErr};
ghost use Rattle.regress_unicode.specs.TableOf.{table_of};
ghost use Rattle.regress_tree.specs.Tree.{tree};
ghost use Rattle.regress_tree.specs.Visits.{nodes};
ghost use Rattle.regress_tree.specs.WellFormed.{IsWellFormed};
ghost use Rattle.regress_lexer.specs.Dialects.{flags_in_force};
ghost use Rattle.regress_lexer.specs.Source.{IsCodePoint};
ghost use Rattle.regress_syntax.specs.Syntax.{Pattern};
ghost use Rattle.regress_syntax.specs.Meaning.{setting_of};
ghost use Rattle.regress_parse.specs.Accepted.{IsAccepted, OneIsDerived, OfAccepted, Means, IsAcceptedIn, OneIsDerivedIn, OfAcceptedIn};
ghost use Rattle.regress_parse.specs.TreeOf.{tree_of};
ghost use Rattle.regress_parse.specs.Spans.{IsWithin, IsInsideOrApart, spans_of, spans_in};
ghost use Rattle.regress_parse.specs.Settled.{IsFaultOf, IsFaultIn};
ghost use Rattle.regress_spans.specs.Paired.{postorder, spanned_of, spanned_in};

use regress_base::types::Flags;
use regress_parse::{Dialect, PlacedFault, SpannedRegex, parse_with_spans_in};
use regress_unicode::Tables;
use std::alloc::Global;

/// Parses a pattern as [`try_parse_with_position`] does, and returns a span for each node of the tree.
///
/// Spans are half-open ranges of 0-based code-point indices:
///
/// - The nodes of an item have the span of the item. All nodes of a reference by name, or of a class under the flag v,
///   have the span of the whole item.
/// - A loop has the span of its item and quantifier. A capture group or a lookaround has the span from its `(` to its
///   `)`. `(?:..)` and modifiers have no node: their contents have their own spans.
/// - A `Cat` has the span of its alternative. An `Empty` has an empty span, where its alternative would begin.
/// - An `Alt` has the span from the start of its left side to the end of the last alternative.
/// - The final `Goal` has an empty span at the end of the pattern, and the root has the whole pattern.
///
/// In a lookbehind the order of the spans is reversed, as that of the parts of the tree is. Of any two spans one is
/// inside the other, or they share no code point.
///
/// # Preconditions
/// Each element of `pattern` is a code point, at most U+10FFFF.
///
/// # Errors
/// - [`PlacedFault::Syntax`] if the pattern is rejected, with the kind, the text and the position that
///   [`try_parse_with_position`] reports.
/// - [`PlacedFault::Memory`] if an allocation fails.
///
/// # Complexity
/// As for [`try_parse_with_position`]. In a lookbehind the spans are copied, twice for each lookbehind around them.
///
/// # Examples
/// ```
/// let tables = Tables::small(alloc)?;
/// let points = code_points(alloc, "a*")?;
/// let parsed = try_parse_with_spans(alloc, &points, Flags::default(), &tables)?;
/// // the letter, the loop, the end, and the whole pattern
/// assert_eq!(rt; parsed.spans.len(), 4);
/// assert_eq!(rt; parsed.spans[0], Span { start: 0, end: 1 });
/// assert_eq!(rt; parsed.spans[1], Span { start: 0, end: 2 });
/// assert_eq!(rt; parsed.spans[2], Span { start: 2, end: 2 });
/// assert_eq!(rt; parsed.spans[3], Span { start: 0, end: 2 });
/// ```
pub fn try_parse_with_spans(
    alloc: Global,
    pattern: &[u32],
    flags: Flags,
    tables: &Tables,
) -> Result<SpannedRegex, PlacedFault>
    requires { All IsCodePoint pattern.now }

    // The tree of the pattern that the grammar derives, and the spans of its nodes.
    ensures spanned { IfOk result (λ r. (p : Pattern) × (accepted : IsAccepted (setting_of flags tables.now) pattern.now p)
        × (tree r.regex.node ≡ tree_of (table_of tables.now) p)
        × (r.spans.items ≡ spans_of (setting_of flags tables.now) pattern.now p accepted.derived)) }
    // The k-th span is that of the k-th node in postorder: the production that makes the node gives the span.
    ensures paired { IfOk result (λ r. (p : Pattern) × (accepted : IsAccepted (setting_of flags tables.now) pattern.now p)
        × (zip (postorder (tree r.regex.node)) r.spans.items ≡ spanned_of (setting_of flags tables.now) pattern.now p accepted.derived)) }
    ensures each { IfOk result (λ r. length r.spans.items ≡ nodes (tree r.regex.node)) }

    ensures within { IfOk result (λ r. All (IsWithin (record { start = 0; end = length pattern.now })) r.spans.items) }
    // Spans nest as the parts of the pattern do, and disjoint parts share no code point.
    ensures nested { IfOk result (λ r. AllPairs IsInsideOrApart r.spans.items) }

    // The contract of `try_parse_with_position`.
    ensures rejected { IfErr result (IsFaultOf (setting_of flags tables.now) pattern.now) }
    ensures only { OneIsDerived (setting_of flags tables.now) pattern.now }
    ensures meaning { let setting = setting_of flags tables.now in
        IfOk result (λ r. OfAccepted setting pattern.now (Means setting (tree r.regex.node))) }
    ensures well_formed { IfOk result (λ r. IsWellFormed (tree r.regex.node)) }
    ensures flags { IfOk result (λ r. r.regex.flags ≡ flags) }
{
    try_parse_with_spans_in(alloc, pattern, flags, tables, Dialect::Regress)
}

/// Parses a pattern of a dialect as [`try_parse_in`] does, and returns a span for each node of the tree, as
/// [`try_parse_with_spans`] does.
///
/// The tree has the flags in force ([`Dialect::flags_in_force`]).
///
/// # Preconditions
/// Each element of `pattern` is a code point, at most U+10FFFF.
///
/// # Errors
/// As for [`try_parse_in`].
///
/// # Complexity
/// As for [`try_parse_with_spans`].
///
/// # Examples
/// ```
/// let tables = Tables::small(alloc)?;
/// let points = code_points(alloc, "\\b+")?;
/// let flags = Flags::default();
/// assert!(rt; try_parse_with_spans_in(alloc, &points, flags, &tables, Dialect::Ecma).is_err());
/// assert!(rt; try_parse_with_spans_in(alloc, &points, flags, &tables, Dialect::Regress).is_ok());
/// ```
pub fn try_parse_with_spans_in(
    alloc: Global,
    pattern: &[u32],
    flags: Flags,
    tables: &Tables,
    dialect: Dialect,
) -> Result<SpannedRegex, PlacedFault>
    requires { All IsCodePoint pattern.now }

    // The tree of the pattern that the grammar derives, and the spans of its nodes.
    ensures spanned { let setting = setting_of (flags_in_force dialect flags) tables.now in
        IfOk result (λ r. (p : Pattern) × (accepted : IsAcceptedIn dialect setting pattern.now p)
        × (tree r.regex.node ≡ tree_of (table_of tables.now) p)
        × (r.spans.items ≡ spans_in dialect setting pattern.now p accepted.derived)) }
    // The k-th span is that of the k-th node in postorder: the production that makes the node gives the span.
    ensures paired { let setting = setting_of (flags_in_force dialect flags) tables.now in
        IfOk result (λ r. (p : Pattern) × (accepted : IsAcceptedIn dialect setting pattern.now p)
        × (zip (postorder (tree r.regex.node)) r.spans.items ≡ spanned_in dialect setting pattern.now p accepted.derived)) }
    ensures each { IfOk result (λ r. length r.spans.items ≡ nodes (tree r.regex.node)) }

    ensures within { IfOk result (λ r. All (IsWithin (record { start = 0; end = length pattern.now })) r.spans.items) }
    // Spans nest as the parts of the pattern do, and disjoint parts share no code point.
    ensures nested { IfOk result (λ r. AllPairs IsInsideOrApart r.spans.items) }

    // The contract of `try_parse_in`.
    ensures rejected { IfErr result (IsFaultIn dialect (setting_of (flags_in_force dialect flags) tables.now) pattern.now) }
    ensures only { OneIsDerivedIn dialect (setting_of (flags_in_force dialect flags) tables.now) pattern.now }
    ensures meaning { let setting = setting_of (flags_in_force dialect flags) tables.now in
        IfOk result (λ r. OfAcceptedIn dialect setting pattern.now (Means setting (tree r.regex.node))) }
    ensures well_formed { IfOk result (λ r. IsWellFormed (tree r.regex.node)) }
    ensures flags { IfOk result (λ r. r.regex.flags ≡ flags_in_force dialect flags) }
{
    parse_with_spans_in(alloc, pattern, flags, tables, dialect)
}
