//! Reports the differences of a whole pattern.
ghost use Rattle.std.specs.Prelude.{◌≡◌, [], length, map, zip, All, IfOk, IfErr};
ghost use Rattle.regress_unicode.specs.TableOf.{table_of};
ghost use Rattle.regress_lexer.specs.Source.{IsCodePoint};
ghost use Rattle.regress_syntax.specs.Syntax.{Pattern};
ghost use Rattle.regress_syntax.specs.Meaning.{setting_of};
ghost use Rattle.regress_parse.specs.Accepted.{IsAccepted, OfAccepted};
ghost use Rattle.regress_parse.specs.Spans.{IsWithin};
ghost use Rattle.regress_parse.specs.Settled.{IsFaultOf};
ghost use Rattle.regress_parse.specs.TreeOf.{tree_of};
ghost use Rattle.regress_tree.specs.Tree.{tree};
ghost use Rattle.regress_spans.specs.Paired.{postorder, spanned_of};
ghost use Rattle.regress_spans.specs.Remarks.{said_by};
ghost use Rattle.regress_ecma.specs.Compared.{IsOfUnicode};
ghost use Rattle.regress_differences.specs.InEcma.{FindsMatchesOfEcma};
ghost use Rattle.regress_differences.specs.Kinds.{AreDifferences, AreSaid, said_of};
ghost use Rattle.regress_differences.specs.Reported.{difference_of};
ghost use Rattle.regress_differences.specs.Views.{part_at};

use crate::case_mode::widest_flags;
use crate::kind::Difference;
use crate::parts::{Part, difference_of, parts_of};
use crate::text::remark_of;
use regress_base::types::Flags;
use regress_parse::PlacedFault;
use regress_spans::{Remark, SpannedRegex, try_parse_with_spans};
use regress_unicode::Tables;
use std::alloc::{AllocError, Global};

/// Returns the parts of a parsed pattern that match otherwise than in ECMA-262, as [`differences`] does.
///
/// # Preconditions
/// Each element of `pattern` is a code point, at most U+10FFFF.
///
/// # Errors
/// Returns [`AllocError`] if an allocation fails.
///
/// # Complexity
/// As for [`differences`].
pub fn differences_of(
    alloc: Global,
    pattern: &[u32],
    parsed: &SpannedRegex,
    tables: &Tables,
) -> Result<Vec<Difference>, AllocError>
    requires { All IsCodePoint pattern.now }

    // The parts of this tree that are reported.
    ensures listed { let t = tree parsed.now.regex.node in
        IfOk result (λ found. AreDifferences (setting_of parsed.now.regex.flags tables.now) pattern.now t
        (zip (postorder t) parsed.now.spans.items) found.items) }
    // If none is reported, each match of the tree is that of ECMA-262.
    ensures matches { IfOk result (λ found. found.items ≡ [] → IsOfUnicode (table_of tables.now) →
        FindsMatchesOfEcma (setting_of parsed.now.regex.flags tables.now) pattern.now (tree parsed.now.regex.node)) }
{
    let widest = widest_flags(pattern, parsed.regex.flags);
    let parts = parts_of(alloc, pattern, parsed, tables)?;
    differences_in(alloc, widest, pattern, &parts)
}

/// Returns what is reported of parts, given the flags and the source of the pattern.
fn differences_in(
    alloc: Global,
    flags: Flags,
    pattern: &[u32],
    parts: &[Part<'_>],
) -> Result<Vec<Difference>, AllocError>
    ensures { IfOk result (λ found. found.items ≡ map (difference_of flags pattern.now) (map part_at parts.now)) }
{
    let mut found = Vec::new(alloc);
    for part in parts {
        found.push(difference_of(flags, pattern, *part))?;
    }
    Ok(found)
}

/// Returns a sentence about each part of a parsed pattern that [`differences_of`] returns, in the same order. That about
/// a class with the flag i, without u, has the characters that are case variants of its other members only with u.
///
/// # Preconditions
/// Each element of `pattern` is a code point, at most U+10FFFF.
///
/// # Errors
/// Returns [`AllocError`] if an allocation fails.
///
/// # Complexity
/// As for [`differences`].
pub fn remarks_of(
    alloc: Global,
    pattern: &[u32],
    parsed: &SpannedRegex,
    tables: &Tables,
) -> Result<Vec<Remark>, AllocError>
    requires { All IsCodePoint pattern.now }
    ensures { let t = tree parsed.now.regex.node in
        IfOk result (λ remarks. AreSaid (setting_of parsed.now.regex.flags tables.now) pattern.now t
        (zip (postorder t) parsed.now.spans.items) (said_by remarks.items)) }
{
    let widest = widest_flags(pattern, parsed.regex.flags);
    let parts = parts_of(alloc, pattern, parsed, tables)?;
    remarks_in(alloc, widest, pattern, &parts)
}

/// Returns what is said of parts, given the flags and the source of the pattern.
fn remarks_in(
    alloc: Global,
    flags: Flags,
    pattern: &[u32],
    parts: &[Part<'_>],
) -> Result<Vec<Remark>, AllocError>
    ensures { IfOk result (λ remarks. said_by remarks.items ≡ map (said_of flags pattern.now) (map part_at parts.now)) }
{
    let mut found = Vec::new(alloc);
    for part in parts {
        found.push(remark_of(alloc, flags, pattern, *part)?)?;
    }
    Ok(found)
}

/// Returns the parts of a pattern of the dialect `Regress` that match otherwise than in ECMA-262, in the order of the
/// spans of [`try_parse_with_spans`].
///
/// They are found by a comparison with the tree that the pattern has in the dialect `Ecma`, in which each match is that of
/// ECMA-262. If there are none, the two trees are the same, and each match is that of ECMA-262 under a table with the data of
/// Unicode, as `unicode_tables` has. If there are some, the trees differ.
///
/// If the dialect `Ecma` rejects the pattern, or v comes without u, there is one, of the kind
/// [`DifferenceKind::Grammar`](crate::DifferenceKind::Grammar). What follows a part that is parsed otherwise, such as
/// `\u{61}` without u, is not compared.
///
/// A property is compared by its form: `\P{L}` with i and v is reported, though all letters of a case have the property.
/// Texts are lists of code points here, without u too, which is not reported.
///
/// # Preconditions
/// Each element of `pattern` is a code point, at most U+10FFFF.
///
/// # Errors
/// - [`PlacedFault::Syntax`] if the pattern is rejected, as by [`try_parse_with_spans`].
/// - [`PlacedFault::Memory`] if an allocation fails.
///
/// # Complexity
/// As for [`try_parse_with_spans`].
///
/// # Examples
/// ```
/// let tables = Tables::small(alloc)?;
/// let points = code_points(alloc, "a[k][j]")?;
/// let flags = Flags {
///     icase: true,
///     ..Flags::default()
/// };
/// let found = differences(alloc, &points, flags, &tables)?;
/// assert_eq!(rt; found.len(), 1);
/// assert_eq!(rt; found[0].kind, DifferenceKind::CaseClosure);
/// assert_eq!(rt; found[0].span, Span { start: 1, end: 4 });
/// ```
pub fn differences(
    alloc: Global,
    pattern: &[u32],
    flags: Flags,
    tables: &Tables,
) -> Result<Vec<Difference>, PlacedFault>
    requires { All IsCodePoint pattern.now }

    // The parts of the pattern's tree that are reported.
    ensures listed { let setting = setting_of flags tables.now in
        IfOk result (λ found. (p : Pattern) × (accepted : IsAccepted setting pattern.now p)
        × AreDifferences setting pattern.now (tree_of (table_of tables.now) p) (spanned_of setting pattern.now p accepted.derived) found.items) }
    ensures within { IfOk result (λ found.
        All (λ d. IsWithin (record { start = 0; end = length pattern.now }) d.span) found.items) }

    // If none is reported, each match of the tree is that of ECMA-262.
    ensures matches { IfOk result (λ found. found.items ≡ [] → IsOfUnicode (table_of tables.now) →
        OfAccepted (setting_of flags tables.now) pattern.now (λ p. FindsMatchesOfEcma (setting_of flags tables.now) pattern.now (tree_of (table_of tables.now) p))) }

    // The errors of `try_parse_with_spans`.
    ensures rejected { IfErr result (IsFaultOf (setting_of flags tables.now) pattern.now) }
{
    let parsed = try_parse_with_spans(alloc, pattern, flags, tables)?;
    Ok(differences_of(alloc, pattern, &parsed, tables)?)
}
