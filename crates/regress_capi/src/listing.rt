//! The list of the matches that a search finds.
ghost use Rattle.std.specs.Prelude.{◌≡◌, IfErr, IfOk, IsUtf8};
ghost use Rattle.regress.specs.Compiled.{groups_of, outcomes_of};
ghost use Rattle.regress.specs.Costs.{AllAreTooCostly};
ghost use Rattle.regress.specs.Memory.{AllNeedMore};
ghost use Rattle.regress.specs.declared.failure.SearchError.TheVariants.{OutOfSteps, TooMuchMemory};
ghost use Rattle.regress_capi.specs.ListResults.{IsListOf, ListResult, width_of};
ghost use Rattle.regress_capi.specs.Spans.{AreEndsOfAll};

use super::list_handle::ListHandle;
use super::match_list::MatchList;
use super::results::{BAD_INPUT, OK};
use super::searches::{Searched, all_ends, error_status, width_of};
use regress::{Regex, SearchError};
use std::alloc::Global;

/// Searches for all matches from an offset on, and writes the handle to the list of them. Returns the status.
///
/// # Errors
/// The status is 2 if an allocation failed, 4 if the text is not UTF-8, 7 if the search takes more steps than allowed, and 8
/// if it needs more memory than allowed.
pub fn write_list(
    alloc: Global,
    regex: &Regex,
    searched: Searched<'_>,
    handle: &mut ListHandle,
) -> u32
    ensures status { ListResult (IsUtf8 searched.entry.text.now)
        (AreEndsOfAll searched.entry.text.now (outcomes_of regex.now searched.entry.text.now) searched.entry.from) (width_of (groups_of regex.now))
        (AllAreTooCostly regex.now searched.entry.text.now searched.entry.from) (AllNeedMore regex.now searched.entry.text.now searched.entry.from)
        handle.old.value result handle.new.value }
{
    match str::from_utf8(searched.text) {
        Ok(text) => match list(alloc, regex, text, searched.from) {
            Ok(list) => {
                *handle = ListHandle::of(list);
                OK
            }
            Err(error) => error_status(error),
        },
        Err(_) => BAD_INPUT,
    }
}

/// Returns the list of all matches from an offset on.
fn list(
    alloc: Global,
    regex: &Regex,
    text: &str,
    from: usize,
) -> Result<Box<MatchList>, SearchError>
    ensures listed { IfOk result (λ list. IsListOf (AreEndsOfAll text.now (outcomes_of regex.now text.now) from) (width_of (groups_of regex.now)) list.value) }
    ensures failed { IfErr result (λ error. error ≡ OutOfSteps → AllAreTooCostly regex.now text.now from) }
    ensures too_much { IfErr result (λ error. error ≡ TooMuchMemory → AllNeedMore regex.now text.now from) }
{
    let Some(ends) = all_ends(alloc, regex, text, from)? else {
        unreachable!()
    };
    let list = MatchList {
        ends,
        returned: 0,
        width: width_of(regex),
    };
    Ok(Box::new(alloc, list)?)
}
