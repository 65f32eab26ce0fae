//! The functions that C calls for one match, or one part of a text, after the other. include/regress.h documents them.
ghost use Rattle.std.specs.Prelude.{◌≡◌, IfSome, IsUtf8, None, length};
ghost use Rattle.regress.specs.Compiled.{groups_of, outcomes_of};
ghost use Rattle.regress.specs.Costs.{AllAreTooCostly};
ghost use Rattle.regress.specs.Memory.{AllNeedMore};
ghost use Rattle.regress_capi.specs.ListResults.{ListResult, Returns, left, width_of};
ghost use Rattle.regress_capi.specs.PartResults.{AreEndsOfParts};
ghost use Rattle.regress_capi.specs.Spans.{AreEndsOfAll};

use regress_capi::handle::Handle;
use regress_capi::list_handle::ListHandle;
use regress_capi::listing::write_list;
use regress_capi::searches::Searched;
use regress_capi::splitting::{Split, write_parts};
use std::alloc::Global;

/// Searches for all non-overlapping matches from the byte offset `from` on, and writes the handle to the list of them. A
/// handle that was there before is not freed.
///
/// # Errors
/// Returns a status: 0 for success, 2 if an allocation failed, 4 if the text is not UTF-8, 7 if the search takes more steps
/// than allowed, and 8 if it needs more memory than allowed. `matches` is changed only with 0.
///
/// # Preconditions
/// The handle is one of a compiled pattern.
#[unsafe(no_mangle)]
pub extern "C" fn regress_matches_new_raw(
    alloc: Global,
    handle: &mut Handle,
    text: &[u8],
    from: usize,
    matches: &mut ListHandle,
) -> u32
    requires { handle.old.value ≡ None → ⊥ }
    ensures same { handle.new.value ≡ handle.old.value }
    ensures status { IfSome handle.old.value (λ regex. ListResult (IsUtf8 text.now)
        (AreEndsOfAll text.now (outcomes_of regex text.now) from) (width_of (groups_of regex)) (AllAreTooCostly regex text.now from)
        (AllNeedMore regex text.now from) matches.old.value result matches.new.value) }
{
    let regex = handle.take(alloc);
    let status = write_list(alloc, &regex, Searched { text, from }, matches);
    *handle = Handle::of(regex);
    status
}

/// Splits a text as `split` of ECMA-262, and writes the handle to the list of at most `limit` parts: `regress_matches_next_raw`
/// writes the start and the end of each. A handle that was there before is not freed.
///
/// # Errors
/// As `regress_matches_new_raw`.
///
/// # Preconditions
/// The handle is one of a compiled pattern.
#[unsafe(no_mangle)]
pub extern "C" fn regress_split_raw(
    alloc: Global,
    handle: &mut Handle,
    text: &[u8],
    limit: usize,
    parts: &mut ListHandle,
) -> u32
    requires { handle.old.value ≡ None → ⊥ }
    ensures same { handle.new.value ≡ handle.old.value }
    ensures status { IfSome handle.old.value (λ regex. ListResult (IsUtf8 text.now) (AreEndsOfParts regex text.now limit) 2
        (AllAreTooCostly regex text.now 0) (AllNeedMore regex text.now 0) parts.old.value result parts.new.value) }
{
    let regex = handle.take(alloc);
    let status = write_parts(alloc, &regex, Split { text, limit }, parts);
    *handle = Handle::of(regex);
    status
}

/// Writes the start and the end of the next match, and those of its groups.
///
/// # Errors
/// Returns a status: 0 for success, 1 if no match is left, and 3 if `spans` is too small. `spans` is changed only with 0,
/// and `needed` is 0 with 1.
///
/// # Preconditions
/// The handle is one of a list of matches.
#[unsafe(no_mangle)]
pub extern "C" fn regress_matches_next_raw(
    alloc: Global,
    matches: &mut ListHandle,
    spans: &mut [usize],
    needed: &mut usize,
) -> u32
    requires { matches.old.value ≡ None → ⊥ }
    ensures status { IfSome matches.old.value (λ list. Returns list spans.old needed.new matches.new.value spans.new result) }
{
    let mut list = matches.take(alloc);
    let status = list.write_next(spans, needed);
    *matches = ListHandle::of(list);
    status
}

/// Returns how many numbers `regress_matches_next_raw` has not yet written.
///
/// # Preconditions
/// The handle is one of a list of matches.
#[unsafe(no_mangle)]
pub extern "C" fn regress_matches_left_raw(alloc: Global, matches: &mut ListHandle) -> usize
    requires { matches.old.value ≡ None → ⊥ }
    ensures same { matches.new.value ≡ matches.old.value }
    ensures left { IfSome matches.old.value (λ list. result ≡ length (left list)) }
{
    let list = matches.take(alloc);
    let left = list.left();
    *matches = ListHandle::of(list);
    left
}

/// Frees the list of matches of a handle.
///
/// # Preconditions
/// The handle is one of a list of matches.
#[unsafe(no_mangle)]
pub extern "C" fn regress_matches_free_raw(alloc: Global, matches: &mut ListHandle)
    requires { matches.old.value ≡ None → ⊥ }
    ensures { matches.new.value ≡ None }
{
    let _list = matches.take(alloc);
}
