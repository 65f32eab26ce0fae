//! The text in which matches are replaced by a template, kept for the caller.
ghost use Rattle.std.specs.Prelude.{◌≡◌, IfErr, IfOk, IsUtf8};
ghost use Rattle.regress.specs.Costs.{AllAreTooCostly};
ghost use Rattle.regress.specs.Memory.{AllNeedMore};
ghost use Rattle.regress.specs.declared.failure.SearchError.TheVariants.{OutOfSteps, TooMuchMemory};
ghost use Rattle.regress_capi.specs.ReplaceResults.{HasFirstsReplaced};
ghost use Rattle.regress_capi.specs.ReplacedResults.{ReplacedResult, bytes_of, count_of};

use super::replaced_handle::ReplacedHandle;
use super::replaced_text::ReplacedText;
use super::replacing::{FirstReplaced, decode};
use super::results::{BAD_INPUT, OK};
use super::searches::error_status;
use regress::{Regex, SearchError};
use std::alloc::Global;

/// Replaces the first matches by the expansion of a template, and writes the handle to the text. Returns the status.
///
/// # Errors
/// The status is 2 if an allocation failed, 4 if the text or the template is not UTF-8, 7 if the search takes more steps than
/// allowed, and 8 if it needs more memory than allowed.
pub fn keep_replaced(
    alloc: Global,
    regex: &Regex,
    replaced: FirstReplaced<'_>,
    handle: &mut ReplacedHandle,
) -> u32
    ensures status { ReplacedResult (IsUtf8 replaced.entry.text.now × IsUtf8 replaced.entry.template.now)
        (HasFirstsReplaced regex.now replaced.entry.text.now replaced.entry.template.now replaced.entry.limit)
        (AllAreTooCostly regex.now replaced.entry.text.now 0) (AllNeedMore regex.now replaced.entry.text.now 0)
        handle.old.value result handle.new.value }
{
    match decode(replaced.text, replaced.template) {
        Some((text, template)) => match kept(alloc, regex, text, template, replaced.limit) {
            Ok(kept) => {
                *handle = ReplacedHandle::of(kept);
                OK
            }
            Err(error) => error_status(error),
        },
        None => BAD_INPUT,
    }
}

/// Returns the text with its first matches replaced.
fn kept(
    alloc: Global,
    regex: &Regex,
    text: &str,
    template: &str,
    limit: usize,
) -> Result<Box<ReplacedText>, SearchError>
    ensures replaced { IfOk result (λ kept. HasFirstsReplaced regex.now text.now template.now limit (count_of kept.value) (bytes_of kept.value)) }
    ensures failed { IfErr result (λ error. error ≡ OutOfSteps → AllAreTooCostly regex.now text.now 0) }
    ensures too_much { IfErr result (λ error. error ≡ TooMuchMemory → AllNeedMore regex.now text.now 0) }
{
    let (text, count) = regex.replacen(alloc, text, template, limit)?;
    Ok(Box::new(alloc, ReplacedText { text, count })?)
}
