//! The results of searches.
ghost use Rattle.std.specs.Prelude.{◌≡◌, IfErr, IfOk, IsUtf8, MatchOption, MatchResult, None};
ghost use Rattle.regress.specs.Compiled.{groups_of, outcomes_of, match_of};
ghost use Rattle.regress.specs.Costs.{AllAreTooCostly, IsTooCostly};
ghost use Rattle.regress.specs.Memory.{AllNeedMore, SearchNeedsMore};
ghost use Rattle.regress.specs.Searched.{MatchesSomewhere};
ghost use Rattle.regress.specs.declared.failure.SearchError.TheVariants.{OutOfSteps, TooMuchMemory};
ghost use Rattle.regress_capi.specs.ExactResults.{ExactResult};
ghost use Rattle.regress_capi.specs.ListResults.{width_of};
ghost use Rattle.regress_capi.specs.SearchResults.{IsBare, SearchResult, TestResult, status_of};
ghost use Rattle.regress_capi.specs.Spans.{AreEndsOfAll, AreEndsOfFirst, match_ends};
ghost use Rattle.regress_found.specs.Found.{Finds};

use super::buffer::copy_to;
use super::ends::{push_spans, put_spans};
use super::results::{BAD_INPUT, MEMORY, OK, ROOM};
use super::searcher_handle::SearcherHandle;
use regress::{Match, Regex, SearchError, Searcher};
use std::alloc::Global;

pub(crate) const NO_MATCH: u32 = 1;

const OUT_OF_STEPS: u32 = 7;

const TOO_MUCH_MEMORY: u32 = 8;

/// A text, and the byte offset from which it is searched.
#[derive(Clone, Copy)]
pub struct Searched<'a> {
    pub text: &'a [u8],
    pub from: usize,
}

/// Writes the handle to a searcher without memory. A handle that was there before is not freed. Returns the status.
///
/// # Errors
/// The status is 2 if an allocation failed. The handle is unchanged then.
pub fn write_searcher(alloc: Global, handle: &mut SearcherHandle) -> u32
    ensures made { result ≡ 0 → handle.new.value ≡ None → ⊥ }
    ensures failed { (result ≡ 0 → ⊥) → (result ≡ 2) × (handle.new.value ≡ handle.old.value) }
{
    match Box::new(alloc, Searcher::new(alloc)) {
        Ok(searcher) => {
            *handle = SearcherHandle::of(searcher);
            OK
        }
        Err(_) => MEMORY,
    }
}

/// Writes the ends of the leftmost match from an offset on and of its groups. Returns the status.
///
/// # Errors
/// The status is 1 if there is no match, 2 if an allocation failed, 3 if `spans` is too small, 4 if the text is not UTF-8,
/// 7 if the search takes more steps than allowed, and 8 if it needs more memory than allowed.
///
/// # Complexity
/// Where `spans` is large enough, only the search allocates.
pub fn write_first(
    alloc: Global,
    regex: &Regex,
    searched: Searched<'_>,
    spans: &mut [usize],
    needed: &mut usize,
) -> u32
    ensures status { SearchResult (IsUtf8 searched.entry.text.now)
        (AreEndsOfFirst searched.entry.text.now (outcomes_of regex.now searched.entry.text.now) searched.entry.from)
        (Finds searched.entry.text.now (outcomes_of regex.now searched.entry.text.now) searched.entry.from None)
        (IsTooCostly regex.now searched.entry.text.now searched.entry.from) (SearchNeedsMore regex.now searched.entry.text.now searched.entry.from) spans.old result needed.new spans.new }
{
    let mut searcher = Searcher::new(alloc);
    write_first_with(alloc, &mut searcher, regex, searched, spans, needed)
}

/// Writes the same, by a searcher, which keeps the memory of the search. Returns the status.
///
/// # Errors
/// As `write_first`.
///
/// # Complexity
/// Where `spans` is large enough, only the search allocates, and only where it needs more memory than the searcher has.
pub fn write_first_with(
    alloc: Global,
    searcher: &mut Searcher,
    regex: &Regex,
    searched: Searched<'_>,
    spans: &mut [usize],
    needed: &mut usize,
) -> u32
    ensures status { SearchResult (IsUtf8 searched.entry.text.now)
        (AreEndsOfFirst searched.entry.text.now (outcomes_of regex.now searched.entry.text.now) searched.entry.from)
        (Finds searched.entry.text.now (outcomes_of regex.now searched.entry.text.now) searched.entry.from None)
        (IsTooCostly regex.now searched.entry.text.now searched.entry.from) (SearchNeedsMore regex.now searched.entry.text.now searched.entry.from) spans.old result needed.new spans.new }
{
    *needed = 0;
    match str::from_utf8(searched.text) {
        Ok(text) => {
            let found = searcher.find_at(alloc, regex, text, searched.from);
            report_first(alloc, searcher, found, spans, needed)
        }
        Err(_) => BAD_INPUT,
    }
}

/// Writes the ends of all matches from an offset on and of their groups. Returns the status.
///
/// # Errors
/// As `write_first`, but with no match the status is 0.
pub fn write_all(
    alloc: Global,
    regex: &Regex,
    searched: Searched<'_>,
    spans: &mut [usize],
    needed: &mut usize,
) -> u32
    ensures status { SearchResult (IsUtf8 searched.entry.text.now)
        (AreEndsOfAll searched.entry.text.now (outcomes_of regex.now searched.entry.text.now) searched.entry.from) ⊥
        (AllAreTooCostly regex.now searched.entry.text.now searched.entry.from) (AllNeedMore regex.now searched.entry.text.now searched.entry.from) spans.old result needed.new spans.new }
{
    *needed = 0;
    match str::from_utf8(searched.text) {
        Ok(text) => report(all_ends(alloc, regex, text, searched.from), spans, needed),
        Err(_) => BAD_INPUT,
    }
}

/// Returns whether the pattern matches somewhere, as a status.
///
/// # Errors
/// The status is 1 if it does not match, 2 if an allocation failed, 4 if the text is not UTF-8, 7 if the search takes more
/// steps than allowed, and 8 if it needs more memory than allowed.
pub fn test(alloc: Global, regex: &Regex, text: &[u8]) -> u32
    ensures status { TestResult (IsUtf8 text.now) (MatchesSomewhere text.now (outcomes_of regex.now text.now))
        (MatchesSomewhere text.now (outcomes_of regex.now text.now) → ⊥) (IsTooCostly regex.now text.now 0)
        (SearchNeedsMore regex.now text.now 0) result }
{
    let mut searcher = Searcher::new(alloc);
    test_with(alloc, &mut searcher, regex, text)
}

/// Returns the same, by a searcher, which keeps the memory of the search.
///
/// # Errors
/// As `test`.
pub fn test_with(alloc: Global, searcher: &mut Searcher, regex: &Regex, text: &[u8]) -> u32
    ensures status { TestResult (IsUtf8 text.now) (MatchesSomewhere text.now (outcomes_of regex.now text.now))
        (MatchesSomewhere text.now (outcomes_of regex.now text.now) → ⊥) (IsTooCostly regex.now text.now 0)
        (SearchNeedsMore regex.now text.now 0) result }
{
    match str::from_utf8(text) {
        Ok(text) => match searcher.is_match(alloc, regex, text) {
            Ok(true) => OK,
            Ok(false) => NO_MATCH,
            Err(error) => error_status(error),
        },
        Err(_) => BAD_INPUT,
    }
}

/// Returns whether a match in a text is that of ECMA-262 ([`Regex::is_exact_for`]): 1 if so, else 0.
/// It is 0 for a text that is not UTF-8.
pub fn is_exact_for(regex: &Regex, text: &[u8]) -> u32
    ensures { ExactResult regex.now text.now result }
{
    match str::from_utf8(text) {
        Ok(text) => { if regex.is_exact_for(text) { 1 } else { 0 } }
        Err(_) => 0,
    }
}

/// Writes the ends of the match that a search has found, and of its groups. The searcher takes the memory of the match back.
/// Returns the status.
fn report_first(
    alloc: Global,
    searcher: &mut Searcher,
    found: Result<Option<Match<'_>>, SearchError>,
    buffer: &mut [usize],
    needed: &mut usize,
) -> u32
    ensures { MatchResult found.entry (λ some. MatchOption some (IsBare 1 buffer.old result needed.new buffer.new) (λ m.
        SearchResult (Unit {0}) (λ numbers. numbers ≡ match_ends (match_of m)) ⊥ ⊥ ⊥ buffer.old result needed.new buffer.new))
        (λ error. IsBare (status_of error) buffer.old result needed.new buffer.new) }
{
    *needed = 0;
    match found {
        Ok(Some(found)) => {
            let status = give_match(alloc, &found, buffer, needed);
            searcher.recycle(found);
            status
        }
        Ok(None) => NO_MATCH,
        Err(error) => error_status(error),
    }
}

/// Writes the ends of a match and of its groups, and their number. Returns the status.
///
/// They are listed, to be counted, only if there is no room for them.
fn give_match(alloc: Global, found: &Match<'_>, buffer: &mut [usize], needed: &mut usize) -> u32
    ensures { SearchResult (Unit {0}) (λ numbers. numbers ≡ match_ends (match_of found.now)) ⊥ ⊥ ⊥ buffer.old result needed.new buffer.new }
{
    match put_spans(found, buffer) {
        Some(count) => {
            *needed = count;
            OK
        }
        None => give_listed(alloc, found, buffer, needed),
    }
}

/// Writes the same from a list. Returns the status.
fn give_listed(alloc: Global, found: &Match<'_>, buffer: &mut [usize], needed: &mut usize) -> u32
    ensures { SearchResult (Unit {0}) (λ numbers. numbers ≡ match_ends (match_of found.now)) ⊥ ⊥ ⊥ buffer.old result needed.new buffer.new }
{
    *needed = 0;
    let mut ends = Vec::new(alloc);
    match push_spans(found, &mut ends) {
        Ok(()) => give(&ends, buffer, needed),
        Err(_) => MEMORY,
    }
}

/// Writes what a search has found. Returns the status.
fn report(
    found: Result<Option<Vec<usize>>, SearchError>,
    buffer: &mut [usize],
    needed: &mut usize,
) -> u32
    ensures { MatchResult found (λ some. MatchOption some (IsBare 1 buffer.old result needed.new buffer.new) (λ items.
        SearchResult (Unit {0}) (λ numbers. numbers ≡ items.items) ⊥ ⊥ ⊥ buffer.old result needed.new buffer.new))
        (λ error. IsBare (status_of error) buffer.old result needed.new buffer.new) }
{
    *needed = 0;
    match found {
        Ok(Some(items)) => give(&items, buffer, needed),
        Ok(None) => NO_MATCH,
        Err(error) => error_status(error),
    }
}

/// Returns the status of an error of a search.
pub(crate) fn error_status(error: SearchError) -> u32
    ensures { result ≡ status_of error }
{
    match error {
        SearchError::Memory => MEMORY,
        SearchError::OutOfSteps => OUT_OF_STEPS,
        SearchError::TooMuchMemory => TOO_MUCH_MEMORY,
    }
}

/// Writes numbers and their count. Returns the status.
fn give(items: &Vec<usize>, buffer: &mut [usize], needed: &mut usize) -> u32
    ensures { SearchResult (Unit {0}) (λ numbers. numbers ≡ items.now.items) ⊥ ⊥ ⊥ buffer.old result needed.new buffer.new }
{
    *needed = items.len();
    if copy_to(items, buffer) { OK } else { ROOM }
}

/// Returns the ends of the matches from an offset on, and of their groups. There are at most as many matches as a list may
/// have room for.
pub(crate) fn all_ends(
    alloc: Global,
    regex: &Regex,
    text: &str,
    from: usize,
) -> Result<Option<Vec<usize>>, SearchError>
    ensures ends { IfOk result (λ some. MatchOption some ⊥ (λ ends. AreEndsOfAll text.now (outcomes_of regex.now text.now) from ends.items)) }
    ensures failed { IfErr result (λ error. error ≡ OutOfSteps → AllAreTooCostly regex.now text.now from) }
    ensures too_much { IfErr result (λ error. error ≡ TooMuchMemory → AllNeedMore regex.now text.now from) }
{
    let most = regex.most_matches();
    let mut count = 0;
    let mut ends = Vec::new(alloc);
    for found in regex.find_from(alloc, text, from) {
        let found = found?;
        if count >= most {
            return Err(SearchError::TooMuchMemory);
        }
        count += 1;
        push_spans(&found, &mut ends)?;
    }
    Ok(Some(ends))
}

/// Returns how many numbers a match has.
pub(crate) fn width_of(regex: &Regex) -> usize
    ensures { result ≡ width_of (groups_of regex.now) }
{
    regex.group_count().saturating_add(1).saturating_mul(2)
}
