//! The list of the parts of a text that is split.
ghost use Rattle.std.specs.Prelude.{◌≡◌, ◌∷◌, [], IfErr, IfOk, IsUtf8, flat_map};
ghost use Rattle.regress.specs.Costs.{AllAreTooCostly};
ghost use Rattle.regress.specs.Memory.{AllNeedMore};
ghost use Rattle.regress.specs.declared.failure.SearchError.TheVariants.{OutOfSteps, TooMuchMemory};
ghost use Rattle.regress_capi.specs.ListResults.{IsListOf, ListResult};
ghost use Rattle.regress_capi.specs.PartResults.{AreEndsOfParts};
ghost use Rattle.regress_capi.specs.Spans.{ends_of};

use super::list_handle::ListHandle;
use super::match_list::MatchList;
use super::results::{BAD_INPUT, OK};
use super::searches::error_status;
use regress::{Regex, SearchError};
use std::alloc::{AllocError, Global};

/// A text to be split, and how many parts are wanted at most.
#[derive(Clone, Copy)]
pub struct Split<'a> {
    pub text: &'a [u8],
    pub limit: usize,
}

/// Splits a text as `split` of ECMA-262, and writes the handle to the list of its parts. Returns the status.
///
/// # Errors
/// The status is 2 if an allocation failed, 4 if the text is not UTF-8, 7 if the search takes more steps than allowed, and 8
/// if it needs more memory than allowed.
pub fn write_parts(alloc: Global, regex: &Regex, split: Split<'_>, handle: &mut ListHandle) -> u32
    ensures status { ListResult (IsUtf8 split.entry.text.now) (AreEndsOfParts regex.now split.entry.text.now split.entry.limit) 2
        (AllAreTooCostly regex.now split.entry.text.now 0) (AllNeedMore regex.now split.entry.text.now 0) handle.old.value result handle.new.value }
{
    match str::from_utf8(split.text) {
        Ok(text) => match parts(alloc, regex, text, split.limit) {
            Ok(list) => {
                *handle = ListHandle::of(list);
                OK
            }
            Err(error) => error_status(error),
        },
        Err(_) => BAD_INPUT,
    }
}

/// Returns the list of the parts of a text.
fn parts(
    alloc: Global,
    regex: &Regex,
    text: &str,
    limit: usize,
) -> Result<Box<MatchList>, SearchError>
    ensures listed { IfOk result (λ list. IsListOf (AreEndsOfParts regex.now text.now limit) 2 list.value) }
    ensures failed { IfErr result (λ error. error ≡ OutOfSteps → AllAreTooCostly regex.now text.now 0) }
    ensures too_much { IfErr result (λ error. error ≡ TooMuchMemory → AllNeedMore regex.now text.now 0) }
{
    let list = MatchList {
        ends: part_ends(alloc, regex, text, limit)?,
        returned: 0,
        width: 2,
    };
    Ok(Box::new(alloc, list)?)
}

/// Returns the ends of the parts of a text.
fn part_ends(
    alloc: Global,
    regex: &Regex,
    text: &str,
    limit: usize,
) -> Result<Vec<usize>, SearchError>
    ensures ends { IfOk result (λ ends. AreEndsOfParts regex.now text.now limit ends.items) }
    ensures failed { IfErr result (λ error. error ≡ OutOfSteps → AllAreTooCostly regex.now text.now 0) }
    ensures too_much { IfErr result (λ error. error ≡ TooMuchMemory → AllNeedMore regex.now text.now 0) }
{
    let spans = regex.split_spans(alloc, text, Some(limit))?;
    Ok(all_ends(alloc, &spans)?)
}

/// Returns the ends of spans, one span after the other.
fn all_ends(alloc: Global, spans: &[Option<(usize, usize)>]) -> Result<Vec<usize>, AllocError>
    ensures { IfOk result (λ ends. ends.items ≡ flat_map ends_of spans.now) }
{
    let mut ends = Vec::new(alloc);
    for span in spans {
        let (start, end) = ends_of(*span);
        ends.push(start)?;
        ends.push(end)?;
    }
    Ok(ends)
}

fn ends_of(span: Option<(usize, usize)>) -> (usize, usize)
    ensures { ends_of span ≡ result.0 ∷ result.1 ∷ [] }
{
    span.unwrap_or((usize::MAX, usize::MAX))
}
