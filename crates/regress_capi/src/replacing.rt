//! The results of replacing matches by a template.
ghost use Rattle.std.specs.Prelude.{◌≡◌, ◌≢◌, IsUtf8, MatchOption, MatchResult, string_bytes};
ghost use Rattle.regress.specs.Costs.{AllAreTooCostly, IsTooCostly};
ghost use Rattle.regress.specs.Memory.{AllNeedMore, SearchNeedsMore};
ghost use Rattle.regress_capi.specs.ReplaceResults.{HasAllReplaced, HasFirstReplaced, HasFirstsReplaced};
ghost use Rattle.regress_capi.specs.SearchResults.{IsBare, SearchResult, status_of};
ghost use Rattle.regress_capi.specs.TextResults.{PlainResult};

use super::results::BAD_INPUT;
use super::searches::error_status;
use super::texts::give_text;
use regress::{Regex, SearchError};
use std::alloc::Global;

/// A text in which matches are replaced, and the template for them.
#[derive(Clone, Copy)]
pub struct Replaced<'a> {
    pub text: &'a [u8],
    pub template: &'a [u8],
}

/// Writes the text with its leftmost match replaced by the expansion of a template. Returns the status.
///
/// # Errors
/// The status is 2 if an allocation failed, 3 if `out` is too small, 4 if the text or the template is not UTF-8, 7 if the
/// search takes more steps than allowed, and 8 if it needs more memory than allowed.
pub fn write_first_replaced(
    alloc: Global,
    regex: &Regex,
    replaced: Replaced<'_>,
    out: &mut [u8],
    needed: &mut usize,
) -> u32
    ensures status { SearchResult (IsUtf8 replaced.entry.text.now × IsUtf8 replaced.entry.template.now)
        (HasFirstReplaced regex.now replaced.entry.text.now replaced.entry.template.now) ⊥
        (IsTooCostly regex.now replaced.entry.text.now 0) (SearchNeedsMore regex.now replaced.entry.text.now 0) out.old result needed.new out.new }
{
    *needed = 0;
    match decode(replaced.text, replaced.template) {
        Some((text, template)) => report(regex.replace(alloc, text, template), out, needed),
        None => BAD_INPUT,
    }
}

/// Writes the text with all its matches replaced by the expansion of a template. Returns the status.
///
/// # Errors
/// As `write_first_replaced`.
pub fn write_all_replaced(
    alloc: Global,
    regex: &Regex,
    replaced: Replaced<'_>,
    out: &mut [u8],
    needed: &mut usize,
) -> u32
    ensures status { SearchResult (IsUtf8 replaced.entry.text.now × IsUtf8 replaced.entry.template.now)
        (HasAllReplaced regex.now replaced.entry.text.now replaced.entry.template.now) ⊥
        (AllAreTooCostly regex.now replaced.entry.text.now 0) (AllNeedMore regex.now replaced.entry.text.now 0) out.old result needed.new out.new }
{
    *needed = 0;
    match decode(replaced.text, replaced.template) {
        Some((text, template)) => report(regex.replace_all(alloc, text, template), out, needed),
        None => BAD_INPUT,
    }
}

/// A text in which the first matches are replaced, at most `limit`, and the template for them.
#[derive(Clone, Copy)]
pub struct FirstReplaced<'a> {
    pub text: &'a [u8],
    pub template: &'a [u8],
    pub limit: usize,
}

/// A status, the length of the whole result, and how many matches are replaced in it. Both are 0 if there is no result.
#[derive(Clone, Copy)]
pub struct Counted {
    pub status: u32,
    pub needed: usize,
    pub count: usize,
}

/// Writes the text with its first matches replaced by the expansion of a template. Returns the status, with how many were
/// replaced.
///
/// # Errors
/// As `write_first_replaced`.
pub fn write_replaced(
    alloc: Global,
    regex: &Regex,
    replaced: FirstReplaced<'_>,
    out: &mut [u8],
) -> Counted
    ensures status { SearchResult (IsUtf8 replaced.entry.text.now × IsUtf8 replaced.entry.template.now)
        (HasFirstsReplaced regex.now replaced.entry.text.now replaced.entry.template.now replaced.entry.limit result.count) ⊥
        (AllAreTooCostly regex.now replaced.entry.text.now 0) (AllNeedMore regex.now replaced.entry.text.now 0) out.old result.status result.needed out.new }
    ensures none { result.status ≢ 0 → result.status ≢ 3 → result.count ≡ 0 }
{
    match decode(replaced.text, replaced.template) {
        Some((text, template)) => report_counted(
            regex.replacen(alloc, text, template, replaced.limit),
            out,
        ),
        None => Counted::none(BAD_INPUT),
    }
}

/// Writes what replacing has returned.
fn report_counted(replaced: Result<(String, usize), SearchError>, out: &mut [u8]) -> Counted
    ensures { MatchResult replaced (λ r. PlainResult (λ bytes. bytes ≡ string_bytes r.0) out.old result.status result.needed out.new
        × (result.count ≡ r.1)) (λ error. IsBare (status_of error) out.old result.status result.needed out.new × (result.count ≡ 0)) }
{
    match replaced {
        Ok((text, count)) => {
            let mut needed = 0;
            let status = give_text(&text, out, &mut needed);
            Counted {
                status,
                needed,
                count,
            }
        }
        Err(error) => Counted::none(error_status(error)),
    }
}

impl Counted {
    fn none(status: u32) -> Counted
        ensures { result ≡ record { status = status; needed = 0; count = 0 } }
    {
        Counted {
            status,
            needed: 0,
            count: 0,
        }
    }
}

/// Returns both as texts, `None` if one of them is not UTF-8.
pub(crate) fn decode<'a>(text: &'a [u8], template: &'a [u8]) -> Option<(&'a str, &'a str)>
    ensures { MatchOption result (IsUtf8 text.now × IsUtf8 template.now → ⊥) (λ both.
        (both.0.now ≡ text.now) × (both.1.now ≡ template.now) × IsUtf8 text.now × IsUtf8 template.now) }
{
    match (str::from_utf8(text), str::from_utf8(template)) {
        (Ok(text), Ok(template)) => Some((text, template)),
        _ => None,
    }
}

/// Writes what replacing has returned. Returns the status.
fn report(replaced: Result<String, SearchError>, out: &mut [u8], needed: &mut usize) -> u32
    ensures { MatchResult replaced (λ text. PlainResult (λ bytes. bytes ≡ string_bytes text) out.old result needed.new out.new)
        (λ error. IsBare (status_of error) out.old result needed.new out.new) }
{
    *needed = 0;
    match replaced {
        Ok(text) => give_text(&text, out, needed),
        Err(error) => error_status(error),
    }
}
