//! Warns of what is in a whole pattern.
ghost use Rattle.std.specs.Prelude.{◌≡◌, [], length, map, zip, All, IfOk, IfErr};
ghost use Rattle.regress_lexer.specs.Source.{IsCodePoint};
ghost use Rattle.regress_syntax.specs.Syntax.{Pattern};
ghost use Rattle.regress_syntax.specs.Meaning.{setting_of};
ghost use Rattle.regress_parse.specs.Accepted.{IsAccepted};
ghost use Rattle.regress_parse.specs.Spans.{IsWithin};
ghost use Rattle.regress_parse.specs.Settled.{IsFaultOf};
ghost use Rattle.regress_tree.specs.Tree.{tree};
ghost use Rattle.regress_spans.specs.Paired.{postorder, spanned_of};
ghost use Rattle.regress_spans.specs.Remarks.{said_by};
ghost use Rattle.regress_warnings.specs.Warned.{all_said, all_warned, said_of};

use crate::finder::find_warnings;
use crate::impossible::add_impossible;
use crate::kind::Warning;
use regress_base::types::Flags;
use regress_parse::PlacedFault;
use regress_spans::{Remark, SpannedRegex, nodes_in_postorder, try_parse_with_spans};
use regress_unicode::Tables;
use std::alloc::{AllocError, Global};

/// Returns the parts of a parsed pattern that may not be what its author meant, as [`warnings`] does.
///
/// # Errors
/// Returns [`AllocError`] if an allocation fails.
///
/// # Complexity
/// As for [`warnings`].
pub fn warnings_of(
    alloc: Global,
    pattern: &[u32],
    parsed: &SpannedRegex,
) -> Result<Vec<Warning>, AllocError>
    // What is warned of in the nodes, each with its span.
    ensures { IfOk result (λ found. found.items
        ≡ all_warned parsed.now.regex.flags.unicode_sets pattern.now (zip (postorder (tree parsed.now.regex.node)) parsed.now.spans.items)) }
{
    let nodes = nodes_in_postorder(alloc, &parsed.regex.node)?;
    let sets = parsed.regex.flags.unicode_sets;
    let mut found = find_warnings(alloc, pattern, sets, &nodes, &parsed.spans)?;
    add_impossible(alloc, &nodes, &parsed.spans, &mut found)?;
    Ok(found)
}

/// Returns a sentence about each part of a parsed pattern that [`warnings_of`] returns, in the same order.
///
/// # Errors
/// Returns [`AllocError`] if an allocation fails.
///
/// # Complexity
/// As for [`warnings`].
pub fn remarks_of(
    alloc: Global,
    pattern: &[u32],
    parsed: &SpannedRegex,
) -> Result<Vec<Remark>, AllocError>
    ensures { IfOk result (λ remarks. said_by remarks.items
        ≡ all_said parsed.now.regex.flags.unicode_sets pattern.now (zip (postorder (tree parsed.now.regex.node)) parsed.now.spans.items)) }
{
    let found = warnings_of(alloc, pattern, parsed)?;
    remarks(alloc, &found)
}

/// Returns a sentence about each warning.
fn remarks(alloc: Global, found: &[Warning]) -> Result<Vec<Remark>, AllocError>
    ensures { IfOk result (λ remarks. said_by remarks.items ≡ map said_of found.now) }
{
    let mut remarks = Vec::new(alloc);
    for warning in found {
        let Warning { kind, span } = *warning;
        remarks.push(Remark {
            span,
            name: kind.name(),
            text: String::from_str(alloc, kind.text())?,
        })?;
    }
    Ok(remarks)
}

/// Returns the parts of a pattern that may not be what its author meant, in the order of the spans of
/// [`try_parse_with_spans`], and then in this order the assertions that can never hold.
///
/// - Each alternative is compared with the next one only.
/// - A back reference is listed if its group, or the first one of its name, ends after it, or contains it; in a
///   lookbehind, where matching runs backwards, if it ends before it. A reference to a group in another alternative is
///   not listed. Each back reference is listed once more, as a search with it may not be linear; so is each lookaround
///   that captures, other than in a lookaround or in a loop without iterations inside it.
/// - A class is listed if an interval of its set runs from an upper-case to a lower-case letter, also where it has a
///   range such as `[-\x60` beside `A-Z` and `a-z`; without v also if such a range is written in it.
/// - A class with the flag v is not searched for repeated members, and class escapes and properties are none.
/// - An assertion is compared with the characters that can be directly before or after it, if what is there has to match
///   at least one: `$` before a letter, `^` after one, `\b` between two, and a lookaround whose first character, or if it
///   is negated whose only one, is a set.
/// - A `.` between digits has the span of the sequence that has it and the digits before it, and one warning for each
///   sequence.
///
/// # Preconditions
/// Each element of `pattern` is a code point, at most U+10FFFF.
///
/// # Errors
/// - [`PlacedFault::Syntax`] if the pattern is rejected, as by [`try_parse_with_spans`].
/// - [`PlacedFault::Memory`] if an allocation fails.
///
/// # Complexity
/// As for [`try_parse_with_spans`]. What is inside loops and groups is visited once more
/// for each loop and group around it, at most 256 times, and the source of a class 128 times.
///
/// # Examples
/// ```
/// let tables = Tables::small(alloc)?;
/// let points = code_points(alloc, "x(?:a|ab)")?;
/// let found = warnings(alloc, &points, Flags::default(), &tables)?;
/// assert_eq!(rt; found.len(), 1);
/// assert_eq!(rt; found[0].kind, WarningKind::HiddenAlternative);
/// assert_eq!(rt; found[0].span, Span { start: 4, end: 8 });
/// ```
pub fn warnings(
    alloc: Global,
    pattern: &[u32],
    flags: Flags,
    tables: &Tables,
) -> Result<Vec<Warning>, PlacedFault>
    requires { All IsCodePoint pattern.now }

    // What is warned of in the nodes, each with its span.
    ensures listed { let setting = setting_of flags tables.now in
        IfOk result (λ found. (p : Pattern) × (accepted : IsAccepted setting pattern.now p)
        × (found.items ≡ all_warned flags.unicode_sets pattern.now (spanned_of setting pattern.now p accepted.derived))) }
    ensures within { IfOk result (λ found.
        All (λ w. IsWithin (record { start = 0; end = length pattern.now }) w.span) found.items) }

    // The errors of `try_parse_with_spans`.
    ensures rejected { IfErr result (IsFaultOf (setting_of flags tables.now) pattern.now) }
{
    let parsed = try_parse_with_spans(alloc, pattern, flags, tables)?;
    Ok(warnings_of(alloc, pattern, &parsed)?)
}
