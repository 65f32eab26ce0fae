//! Splitting a text at matches.
ghost use Rattle.std.specs.Prelude.{◌≡◌, ◌++◌, ◌≤◌, true, All, List, ℕ, IfOk, IsSomeAnd, length, map, option_map, slice_range};
ghost use Rattle.std.specs.Borrow.{Bor};
ghost use Rattle.regress_tree.specs.Inside.{IsCaptureInside};
ghost use Rattle.regress_found.specs.Found.{state_of, IsInside};
ghost use Rattle.regress_replace.specs.Expansion.{matched_text};
ghost use Rattle.regress_replace.specs.Order.{AreInOrder};
ghost use Rattle.regress_replace.specs.Replaced.{joined, split_pieces};
ghost use Rattle.regress_replace.specs.Split.{all_parts, limited, part_spans, part_texts, span_texts, splits};

use regress_match::Match;
use std::alloc::{AllocError, Global};

/// Returns the parts of `text` before, between and after the matches, one more than there are matches.
///
/// The parts, with the text of a match after each but the last, are the text.
///
/// # Preconditions
/// The matches and their groups are inside `text`, and each match starts at the end of the one before it or later, as
/// those that `find_all` returns for a well formed tree.
///
/// # Errors
/// Returns [`AllocError`] if an allocation fails.
pub fn split_at_matches<'a>(
    alloc: Global,
    text: &'a str,
    matches: &[Match],
) -> Result<Vec<&'a str>, AllocError>
    requires inside { All (IsInside text.now) matches.now }
    requires order { AreInOrder 0 matches.now }
    ensures parts { IfOk result (λ parts. map (λ (part : Bor (List ℕ)). part.now) parts.items ≡ split_pieces text.now 0 matches.now) }
    ensures whole { IfOk result (λ parts. joined (map (λ (part : Bor (List ℕ)). part.now) parts.items) (map (matched_text text.now) matches.now)
        ≡ text.now) }
{
    let mut parts = Vec::new(alloc);
    let mut from = 0;
    for found in matches {
        parts.push(&text[from..found.start()])?;
        from = found.end();
    }
    parts.push(&text[from..])?;
    Ok(parts)
}

/// Returns the parts of `text` as by `split` of ECMA-262, where `matches` are all matches in it.
///
/// A match splits the text unless it is empty and at the start of the text, at its end, or at the end of the match
/// before it. The part before a match is followed by the captures of its groups, `None` for a group that is unset. At
/// most `limit` parts are returned, all without a limit. An empty text has no parts if it has a match, and else one.
///
/// # Preconditions
/// The matches and their groups are inside `text`, and each match starts at the end of the one before it or later, as
/// those that `find_all` returns for a well formed tree.
///
/// # Errors
/// Returns [`AllocError`] if an allocation fails.
pub fn split_with_captures<'a>(
    alloc: Global,
    text: &'a str,
    matches: &[Match],
    limit: Option<usize>,
) -> Result<Vec<Option<&'a str>>, AllocError>
    requires inside { All (IsInside text.now) matches.now }
    requires order { AreInOrder 0 matches.now }
    ensures { IfOk result (λ parts. part_texts parts.items ≡ limited limit (all_parts text.now matches.now)) }
{
    let spans = split_spans(alloc, text.len(), matches, limit)?;
    slices(alloc, text, &spans)
}

/// Returns what spans of a text contain.
fn slices<'a>(
    alloc: Global,
    text: &'a str,
    spans: &[Option<(usize, usize)>],
) -> Result<Vec<Option<&'a str>>, AllocError>
    requires { All (IsCaptureInside text.now) spans.now }
    ensures { IfOk result (λ parts. part_texts parts.items ≡ span_texts text.now spans.now) }
{
    let mut parts = Vec::with_capacity(alloc, spans.len())?;
    for span in spans {
        parts.push(capture(text, *span))?;
    }
    Ok(parts)
}

/// Returns the spans of the parts of a text of `length` bytes, the parts that [`split_with_captures`] returns.
///
/// # Errors
/// Returns [`AllocError`] if an allocation fails.
pub fn split_spans(
    alloc: Global,
    length: usize,
    matches: &[Match],
    limit: Option<usize>,
) -> Result<Vec<Option<(usize, usize)>>, AllocError>
    ensures { IfOk result (λ spans. spans.items ≡ limited limit (part_spans length matches.now)) }
{
    let mut spans = Vec::new(alloc);
    if length == 0 && !matches.is_empty() {
        return Ok(spans);
    }
    let mut from = 0;
    for found in matches {
        if is_full(&spans, limit) {
            return Ok(limit_to(spans, limit));
        }
        if !splits(length, from, found) {
            continue;
        }
        spans.push(Some((from, found.start())))?;
        push_captures(found, &mut spans)?;
        from = found.end();
    }
    spans.push(Some((from, length)))?;
    Ok(limit_to(spans, limit))
}

/// Returns whether a match splits a text of this length, if the part before it starts at `from`.
fn splits(length: usize, from: usize, found: &Match) -> bool
    ensures { result ≡ splits length from found.now }
{
    found.start() < length && found.end() != from
}

/// Appends the captures of a match.
fn push_captures(found: &Match, spans: &mut Vec<Option<(usize, usize)>>) -> Result<(), AllocError>
    ensures { IfOk result (λ _. spans.new.items ≡ spans.old.items ++ (state_of found.now).captures) }
{
    for id in 0..found.group_count() {
        spans.push(found.group(id))?;
    }
    Ok(())
}

/// Returns the text of a capture.
fn capture(text: &str, span: Option<(usize, usize)>) -> Option<&str>
    requires { IsCaptureInside text.now span }
    ensures { option_map (λ (part : Bor (List ℕ)). part.now) result ≡ option_map (λ span. slice_range text.now span.0 span.1) span }
{
    let (start, end) = span?;
    Some(&text[start..end])
}

/// Returns whether no further part is within the limit.
fn is_full(spans: &[Option<(usize, usize)>], limit: Option<usize>) -> bool
    ensures { result ≡ true → IsSomeAnd limit (λ limit. limit ≤ length spans.now) }
{
    match limit {
        Some(limit) => limit <= spans.len(),
        None => false,
    }
}

/// Returns the spans within the limit.
fn limit_to(
    mut spans: Vec<Option<(usize, usize)>>,
    limit: Option<usize>,
) -> Vec<Option<(usize, usize)>>
    ensures { result.items ≡ limited limit spans.items }
{
    if let Some(limit) = limit {
        spans.truncate(limit);
    }
    spans
}
