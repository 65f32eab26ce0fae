//! Whether a pattern has the same tree in the dialect `Ecma`.
ghost use Rattle.std.specs.Prelude.{◌≡◌, not, ◌&&◌, length, All, IfOk};
ghost use Rattle.regress_tree.specs.Tree.{tree};
ghost use Rattle.regress_lexer.specs.Source.{IsCodePoint};
ghost use Rattle.regress_syntax.specs.Meaning.{setting_of};
ghost use Rattle.regress_parse.specs.Spans.{IsWithin};
ghost use Rattle.regress_differences.specs.Reported.{is_same, whole};
ghost use Rattle.regress_differences.specs.Views.{IsFoundInEcma, MatchesIfSame};

use regress_base::types::Flags;
use regress_ecma::first_outcome_is_the_match;
use regress_encoding::{encode, encoding_determines_the_tree};
use regress_parse::{Dialect, PlacedFault, Span};
use regress_spans::{SpannedRegex, try_parse_with_spans_in};
use regress_tree::ir::Node;
use regress_unicode::Tables;
use std::alloc::{AllocError, Global};

/// What a pattern is in the dialect `Ecma`.
#[derive(Drop)]
pub(crate) enum InEcma {
    /// It has the same tree, and the same flags are in force.
    Same,
    /// It has this tree, which is another one.
    Other(SpannedRegex),
    /// It is rejected, for what is at this place.
    Rejected(Span),
    /// Other flags are in force: v implies u.
    OtherFlags,
}

/// Returns what a pattern is in the dialect `Ecma`.
pub(crate) fn in_ecma(
    alloc: Global,
    pattern: &[u32],
    parsed: &SpannedRegex,
    tables: &Tables,
) -> Result<InEcma, AllocError>
    requires { All IsCodePoint pattern.now }
    ensures found { IfOk result (IsFoundInEcma (setting_of parsed.now.regex.flags tables.now) pattern.now (tree parsed.now.regex.node)) }
    ensures matches { IfOk result (MatchesIfSame (setting_of parsed.now.regex.flags tables.now) pattern.now (tree parsed.now.regex.node)) }
{
    first_outcome_is_the_match();
    encoding_determines_the_tree();
    let flags = parsed.regex.flags;
    if lacks_u(flags) {
        return Ok(InEcma::OtherFlags);
    }
    match try_parse_with_spans_in(alloc, pattern, flags, tables, Dialect::Ecma) {
        Ok(other) => {
            if is_same(alloc, &parsed.regex.node, &other.regex.node)? {
                Ok(InEcma::Same)
            } else {
                Ok(InEcma::Other(other))
            }
        }
        Err(PlacedFault::Syntax { position, .. }) => Ok(InEcma::Rejected(one_at(
            pattern, position,
        ))),
        Err(PlacedFault::Memory(error)) => Err(error),
    }
}

/// Returns whether v is set without u, which it implies in the dialect `Ecma`.
fn lacks_u(flags: Flags) -> bool
    ensures { result ≡ (flags.unicode_sets && not flags.unicode) }
{
    flags.unicode_sets && !flags.unicode
}

/// Returns whether two trees are equal.
pub(crate) fn is_same(alloc: Global, left: &Node, right: &Node) -> Result<bool, AllocError>
    ensures { IfOk result (λ same. same ≡ is_same (tree left.now) (tree right.now)) }
{
    let words = encode(alloc, left)?;
    let others = encode(alloc, right)?;
    Ok(words == others)
}

/// Returns the span of a whole pattern.
pub(crate) fn whole(pattern: &[u32]) -> Span
    ensures { result ≡ whole pattern.now }
{
    Span {
        start: 0,
        end: pattern.len(),
    }
}

/// Returns the span of the code point at this position, which is empty at the end.
fn one_at(pattern: &[u32], position: usize) -> Span
    ensures { IsWithin (whole pattern.now) result }
{
    let start = position.min(pattern.len());
    Span {
        start,
        end: start.saturating_add(1).min(pattern.len()),
    }
}
