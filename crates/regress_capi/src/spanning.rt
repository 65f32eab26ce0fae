//! The encoding of a pattern's tree, with the spans of its nodes.
ghost use Rattle.std.specs.Prelude.{◌≡◌, ◌≤◌, ◌<◌, ◌⊎◌, ◌++◌, All, IfOk, MatchBool, chars, drop, length, map, IfErr};
ghost use Rattle.regress_front.specs.Intervals.{code_point_max};
ghost use Rattle.regress_front.specs.Meaning.{setting_of};
ghost use Rattle.regress_front.specs.Tree.{tree};
ghost use Rattle.regress_front.specs.Settled.{IsFaultIn};
ghost use Rattle.regress_lexer.specs.Dialects.{flags_in_force};
ghost use Rattle.regress_capi.specs.Replies.{bare};
ghost use Rattle.regress_capi.specs.Request.{front_dialect, front_setting, IsRequest, IsTextRequest};
ghost use Rattle.regress_capi.specs.SpannedResults.{ArePlaced, AreSpannedWords, SpannedResult, span_at};

use super::reply::Reply;
use super::request::{front_dialect, is_request, make_tables, parse_flags, read_points};
use super::results::{BAD_INPUT, MEMORY};
use regress::Dialect;
use regress_encoding::{encode, postorder_numbers};
use regress_front::parse::{PlacedFault, Span, SpannedRegex, try_parse_with_spans_in};
use regress_front::types::Flags;
use regress_front::unicode::Tables;
use std::alloc::{AllocError, Global};

/// The span of a node: a half-open range of code-point indices of the pattern.
#[repr(C)]
#[derive(Clone, Copy)]
pub struct NodeSpan {
    pub start: usize,
    pub end: usize,
}

/// A reply, with the number of spans of the whole result.
#[derive(Clone, Copy)]
pub struct SpannedReply {
    pub reply: Reply,
    pub spans_needed: usize,
}

impl SpannedReply {
    /// Returns a status without numbers.
    fn bare(status: u32) -> SpannedReply
        ensures { result ≡ record { reply = bare status; spans_needed = 0 } }
    {
        SpannedReply {
            reply: Reply::bare(status),
            spans_needed: 0,
        }
    }
}

/// The words of a tree, and the span of each node in the order of the words.
#[derive(Drop)]
pub(crate) struct SpannedWords {
    words: Vec<u32>,
    spans: Vec<NodeSpan>,
}

/// Writes the encoding of a pattern's tree to `words`, and the spans of its nodes, in the order of the words, to `spans`.
/// Returns their lengths, or the kind and the position of the pattern's syntax error.
///
/// # Errors
/// The status is 2 if an allocation failed, 3 if `words` or `spans` is too small, 4 if the arguments are invalid, and 5 if
/// the pattern is rejected.
pub fn write_encoding_with_spans(
    alloc: Global,
    pattern: &[u32],
    bits: u32,
    words: &mut [u32],
    spans: &mut [NodeSpan],
) -> SpannedReply
    ensures status { SpannedResult (IsRequest pattern.now bits 0) (front_dialect bits) (front_setting bits) pattern.now words.old spans.old
        result.reply.status result.reply.needed result.spans_needed result.reply.kind result.reply.position words.new spans.new }
{
    if !is_request(pattern, bits, 0) {
        return SpannedReply::bare(BAD_INPUT);
    }
    write_spanned(alloc, pattern, bits, words, spans)
}

/// Writes the same for a pattern in UTF-8.
///
/// # Errors
/// As `write_encoding_with_spans`; a pattern that is not UTF-8 is an invalid argument.
pub fn write_encoding_of_text_with_spans(
    alloc: Global,
    pattern: &[u8],
    bits: u32,
    words: &mut [u32],
    spans: &mut [NodeSpan],
) -> SpannedReply
    ensures status { SpannedResult (IsTextRequest pattern.now bits 0) (front_dialect bits) (front_setting bits) (chars pattern.now)
        words.old spans.old result.reply.status result.reply.needed result.spans_needed result.reply.kind result.reply.position words.new spans.new }
{
    match read_points(alloc, pattern, bits, 0) {
        Ok(Some(points)) => write_spanned(alloc, &points, bits, words, spans),
        Ok(None) => SpannedReply::bare(BAD_INPUT),
        Err(_) => SpannedReply::bare(MEMORY),
    }
}

/// Writes the encoding of the tree of a pattern in code points, and the spans of its nodes.
fn write_spanned(
    alloc: Global,
    pattern: &[u32],
    bits: u32,
    words: &mut [u32],
    spans: &mut [NodeSpan],
) -> SpannedReply
    requires { All (λ c. c ≤ code_point_max) pattern.now }
    ensures status { SpannedResult (Unit {0}) (front_dialect bits) (front_setting bits) pattern.now words.old spans.old
        result.reply.status result.reply.needed result.spans_needed result.reply.kind result.reply.position words.new spans.new }
{
    match spanned_words(alloc, pattern, bits) {
        Ok(found) => {
            let fit = copy_both(&found, words, spans);
            SpannedReply {
                reply: Reply::of_items(fit, found.words.len()),
                spans_needed: found.spans.len(),
            }
        }
        Err(fault) => SpannedReply {
            reply: Reply::of_fault(&fault),
            spans_needed: 0,
        },
    }
}

/// Copies the words and the spans to the starts of the buffers, and returns whether both fit. Otherwise the buffers are
/// unchanged.
fn copy_both(found: &SpannedWords, words: &mut [u32], spans: &mut [NodeSpan]) -> bool
    ensures { MatchBool result
        ((words.new ≡ found.now.words.items ++ drop (length found.now.words.items) words.old)
        × (spans.new ≡ found.now.spans.items ++ drop (length found.now.spans.items) spans.old))
        ((words.new ≡ words.old) × (spans.new ≡ spans.old)
        × ((length words.old < length found.now.words.items) ⊎ (length spans.old < length found.now.spans.items))) }
{
    let (own_words, own_spans) = (found.words.len(), found.spans.len());
    if words.len() < own_words || spans.len() < own_spans {
        return false;
    }
    words[..own_words].copy_from_slice(&found.words);
    spans[..own_spans].copy_from_slice(&found.spans);
    true
}

/// Returns the encoding of the pattern's tree, and the spans of its nodes.
fn spanned_words(alloc: Global, pattern: &[u32], bits: u32) -> Result<SpannedWords, PlacedFault>
    requires { All (λ c. c ≤ code_point_max) pattern.now }
    ensures words { IfOk result (λ found. AreSpannedWords (front_dialect bits) (front_setting bits) pattern.now found.words.items found.spans.items) }
    ensures rejected { IfErr result (IsFaultIn (front_dialect bits) (front_setting bits) pattern.now) }
{
    let (flags, dialect) = (parse_flags(bits), front_dialect(bits));
    let tables = make_tables(alloc, bits)?;
    let parsed = parse(alloc, pattern, flags, &tables, dialect)?;
    let words = encode(alloc, &parsed.regex.node)?;
    let numbers = postorder_numbers(alloc, &parsed.regex.node)?;
    let spans = in_order(alloc, &numbers, &parsed.spans)?;
    Ok(SpannedWords { words, spans })
}

/// Returns the pattern's tree, and the spans of its nodes in postorder.
fn parse(
    alloc: Global,
    pattern: &[u32],
    flags: Flags,
    tables: &Tables,
    dialect: Dialect,
) -> Result<SpannedRegex, PlacedFault>
    requires { All (λ c. c ≤ code_point_max) pattern.now }
    ensures placed { IfOk result (λ parsed. ArePlaced dialect (setting_of (flags_in_force dialect flags) tables.now) pattern.now (tree parsed.regex.node) parsed.spans.items) }
    ensures rejected { IfErr result (IsFaultIn dialect (setting_of (flags_in_force dialect flags) tables.now) pattern.now) }
{
    try_parse_with_spans_in(alloc, pattern, flags, tables, dialect)
}

/// Returns the spans with these numbers.
fn in_order(alloc: Global, numbers: &[usize], spans: &[Span]) -> Result<Vec<NodeSpan>, AllocError>
    ensures { IfOk result (λ items. items.items ≡ map (span_at spans.now) numbers.now) }
{
    numbers
        .iter()
        .map(|number| span_at(spans, *number))
        .collect(alloc)
}

fn span_at(spans: &[Span], number: usize) -> NodeSpan
    ensures { result ≡ span_at spans.now number }
{
    match spans.get(number) {
        Some(span) => NodeSpan {
            start: span.start,
            end: span.end,
        },
        None => NodeSpan { start: 0, end: 0 },
    }
}
