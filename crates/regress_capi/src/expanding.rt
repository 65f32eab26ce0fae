//! The result of expanding a template at a match.
ghost use Rattle.std.specs.Prelude.{◌≡◌, ◌≢◌, ◌∷◌, [], All, List, Option, IfOk, MatchOption, MatchResult, Some, flat_map, string_bytes};
ghost use Rattle.regress_front.specs.Steps.{CaptureSpan};
ghost use Rattle.regress_found.specs.declared.found.Match as found;
ghost use Rattle.regress.specs.Compiled.{groups_of, match_of};
ghost use Rattle.regress_capi.specs.ExpandResults.{ExpandResult, HasNumbers, IsExpandedAt};
ghost use Rattle.regress_capi.specs.SearchResults.{IsBare};
ghost use Rattle.regress_capi.specs.Spans.{ends_of, unset};
ghost use Rattle.regress_capi.specs.TextResults.{PlainResult};

use super::replacing::decode;
use super::results::{BAD_INPUT, MEMORY};
use super::texts::give_text;
use regress::{Match, Regex};
use std::alloc::{AllocError, Global};

/// A match in a text, as its numbers, and a template.
#[derive(Clone, Copy)]
pub struct Expanded<'a> {
    pub text: &'a [u8],
    pub numbers: &'a [usize],
    pub template: &'a [u8],
}

/// Writes what a template expands to at a match with these numbers. Returns the status.
///
/// # Errors
/// The status is 2 if an allocation failed, 3 if `out` is too small, and 4 if the text or the template is not UTF-8, or if
/// no match inside the text has these numbers.
pub fn write_expanded(
    alloc: Global,
    regex: &Regex,
    expanded: Expanded<'_>,
    out: &mut [u8],
    needed: &mut usize,
) -> u32
    ensures status { ExpandResult regex.now expanded.entry.text.now expanded.entry.template.now expanded.entry.numbers.now
        out.old result needed.new out.new }
{
    *needed = 0;
    match decode(expanded.text, expanded.template) {
        Some((text, template)) => report(
            expand(alloc, regex, text, template, expanded.numbers),
            out,
            needed,
        ),
        None => BAD_INPUT,
    }
}

/// Writes what expanding has returned. Returns the status.
fn report(made: Result<Option<String>, AllocError>, out: &mut [u8], needed: &mut usize) -> u32
    ensures { MatchResult made (λ some. MatchOption some (IsBare 4 out.old result needed.new out.new) (λ text.
        PlainResult (λ bytes. bytes ≡ string_bytes text) out.old result needed.new out.new)) (λ _. IsBare 2 out.old result needed.new out.new) }
{
    *needed = 0;
    match made {
        Ok(Some(text)) => give_text(&text, out, needed),
        Ok(None) => BAD_INPUT,
        Err(_) => MEMORY,
    }
}

/// Returns what a template expands to at the match with these numbers, `None` if none inside the text has them.
fn expand(
    alloc: Global,
    regex: &Regex,
    text: &str,
    template: &str,
    numbers: &[usize],
) -> Result<Option<String>, AllocError>
    ensures { IfOk result (λ some. MatchOption some ((m : found.Match) → HasNumbers text.now (groups_of regex.now) numbers.now m → ⊥)
        (λ out. IsExpandedAt regex.now text.now template.now numbers.now (string_bytes out))) }
{
    match read_match(alloc, regex, text, numbers)? {
        Some(found) => Ok(Some(regex.expand(alloc, template, text, &found)?)),
        None => Ok(None),
    }
}

/// Returns the match with these numbers, `None` if none inside the text has them.
#[tactic(auto, using(crate::proofs::ExpandLemmas::few_numbers, crate::proofs::ExpandLemmas::odd_numbers, crate::proofs::ExpandLemmas::no_numbers, crate::proofs::ExpandLemmas::has_numbers))]
fn read_match<'r>(
    alloc: Global,
    regex: &'r Regex,
    text: &str,
    numbers: &[usize],
) -> Result<Option<Match<'r>>, AllocError>
    ensures { IfOk result (λ some. MatchOption some ((m : found.Match) → HasNumbers text.now (groups_of regex.now) numbers.now m → ⊥)
        (λ m. HasNumbers text.now (groups_of regex.now) numbers.now (match_of m))) }
{
    let [start, end, groups @ ..] = numbers else {
        return Ok(None);
    };
    match read_spans(alloc, groups)? {
        Some(spans) => Ok(regex.match_with_spans(text, (*start, *end), spans)),
        None => Ok(None),
    }
}

/// Returns the spans with these ends, `None` if there are not two for each.
#[tactic(auto, using(crate::proofs::ExpandLemmas::ends_more, crate::proofs::ExpandLemmas::one_left))]
fn read_spans(
    alloc: Global,
    ends: &[usize],
) -> Result<Option<Vec<Option<(usize, usize)>>>, AllocError>
    ensures ends { IfOk result (λ some. MatchOption some ((spans : List (Option CaptureSpan)) → flat_map ends_of spans ≡ ends.now → ⊥)
        (λ spans. flat_map ends_of spans.items ≡ ends.now)) }
    ensures set { IfOk result (λ some. MatchOption some (Unit {0}) (λ spans. All (λ span. span ≢ Some (unset, unset)) spans.items)) }
{
    let mut spans = Vec::with_capacity(alloc, ends.len() / 2)?;
    let mut rest = ends;
    while let [start, end, after @ ..] = rest {
        spans.push(span(*start, *end))?;
        rest = after;
    }
    if rest.is_empty() {
        Ok(Some(spans))
    } else {
        Ok(None)
    }
}

/// Returns the span with these ends, `None` for those of a group that is unset.
fn span(start: usize, end: usize) -> Option<(usize, usize)>
    ensures ends { ends_of result ≡ start ∷ end ∷ [] }
    ensures set { result ≢ Some (unset, unset) }
{
    if start == usize::MAX && end == usize::MAX {
        None
    } else {
        Some((start, end))
    }
}
