//! The functions that C calls for searches that keep their memory, by a searcher. include/regress.h documents them.
ghost use Rattle.std.specs.Prelude.{◌≡◌, IfSome, IsUtf8, None};
ghost use Rattle.regress.specs.Costs.{IsTooCostly};
ghost use Rattle.regress.specs.Compiled.{outcomes_of};
ghost use Rattle.regress.specs.Memory.{SearchNeedsMore};
ghost use Rattle.regress.specs.Searched.{MatchesSomewhere};
ghost use Rattle.regress_capi.specs.SearchResults.{SearchResult, TestResult};
ghost use Rattle.regress_capi.specs.Spans.{AreEndsOfFirst};
ghost use Rattle.regress_found.specs.Found.{Finds};

use regress_capi::handle::Handle;
use regress_capi::searcher_handle::SearcherHandle;
use regress_capi::searches::{Searched, test_with, write_first_with, write_searcher};
use std::alloc::Global;

/// Writes the handle to a searcher. A handle that was there before is not freed.
///
/// # Errors
/// Returns a status: 0 for success, and 2 if an allocation failed. `searcher` is changed only with 0.
#[unsafe(no_mangle)]
pub extern "C" fn regress_searcher_new_raw(alloc: Global, searcher: &mut SearcherHandle) -> u32
    ensures made { result ≡ 0 → searcher.new.value ≡ None → ⊥ }
    ensures failed { (result ≡ 0 → ⊥) → (result ≡ 2) × (searcher.new.value ≡ searcher.old.value) }
{
    write_searcher(alloc, searcher)
}

/// Writes the start and the end of the leftmost match from the byte offset `from` on, and those of its groups. The
/// searcher keeps the memory of the search.
///
/// # Errors
/// As `regress_find_raw`.
///
/// # Preconditions
/// The handles are one of a searcher, and one of a compiled pattern.
#[unsafe(no_mangle)]
pub extern "C" fn regress_searcher_find_raw(
    alloc: Global,
    searcher: &mut SearcherHandle,
    handle: &mut Handle,
    text: &[u8],
    from: usize,
    spans: &mut [usize],
    needed: &mut usize,
) -> u32
    requires searcher { searcher.old.value ≡ None → ⊥ }
    requires handle { handle.old.value ≡ None → ⊥ }
    ensures kept { searcher.new.value ≡ None → ⊥ }
    ensures same { handle.new.value ≡ handle.old.value }
    ensures status { IfSome handle.old.value (λ regex. SearchResult (IsUtf8 text.now)
        (AreEndsOfFirst text.now (outcomes_of regex text.now) from) (Finds text.now (outcomes_of regex text.now) from None)
        (IsTooCostly regex text.now from) (SearchNeedsMore regex text.now from) spans.old result needed.new spans.new) }
{
    let mut kept = searcher.take(alloc);
    let regex = handle.take(alloc);
    let searched = Searched { text, from };
    let status = write_first_with(alloc, &mut kept, &regex, searched, spans, needed);
    *handle = Handle::of(regex);
    *searcher = SearcherHandle::of(kept);
    status
}

/// Returns whether the pattern matches somewhere, as a status. The searcher keeps the memory of the search.
///
/// # Errors
/// As `regress_is_match_raw`.
///
/// # Preconditions
/// The handles are one of a searcher, and one of a compiled pattern.
#[unsafe(no_mangle)]
pub extern "C" fn regress_searcher_is_match_raw(
    alloc: Global,
    searcher: &mut SearcherHandle,
    handle: &mut Handle,
    text: &[u8],
) -> u32
    requires searcher { searcher.old.value ≡ None → ⊥ }
    requires handle { handle.old.value ≡ None → ⊥ }
    ensures kept { searcher.new.value ≡ None → ⊥ }
    ensures same { handle.new.value ≡ handle.old.value }
    ensures status { IfSome handle.old.value (λ regex. TestResult (IsUtf8 text.now)
        (MatchesSomewhere text.now (outcomes_of regex text.now)) (MatchesSomewhere text.now (outcomes_of regex text.now) → ⊥)
        (IsTooCostly regex text.now 0) (SearchNeedsMore regex text.now 0) result) }
{
    let mut kept = searcher.take(alloc);
    let regex = handle.take(alloc);
    let status = test_with(alloc, &mut kept, &regex, text);
    *handle = Handle::of(regex);
    *searcher = SearcherHandle::of(kept);
    status
}

/// Frees the searcher of a handle.
///
/// # Preconditions
/// The handle is one of a searcher.
#[unsafe(no_mangle)]
pub extern "C" fn regress_searcher_free_raw(alloc: Global, searcher: &mut SearcherHandle)
    requires { searcher.old.value ≡ None → ⊥ }
    ensures { searcher.new.value ≡ None }
{
    let _searcher = searcher.take(alloc);
}
