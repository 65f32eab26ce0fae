//! The functions that C calls to replace matches, to expand a template, and to escape a text. include/regress.h documents them.
ghost use Rattle.std.specs.Prelude.{◌≡◌, ◌≢◌, IfSome, IsUtf8, None};
ghost use Rattle.regress_capi.specs.EscapeResults.{EscapeResult};
ghost use Rattle.regress_capi.specs.ExpandResults.{ExpandResult};
ghost use Rattle.regress_capi.specs.ReplaceResults.{HasAllReplaced, HasFirstReplaced, HasFirstsReplaced};
ghost use Rattle.regress.specs.Costs.{AllAreTooCostly, IsTooCostly};
ghost use Rattle.regress.specs.Memory.{AllNeedMore, SearchNeedsMore};
ghost use Rattle.regress_capi.specs.SearchResults.{SearchResult};

use regress_capi::escaping;
use regress_capi::expanding::{Expanded, write_expanded};
use regress_capi::handle::Handle;
use regress_capi::replacing::{self, FirstReplaced, Replaced};
use std::alloc::Global;

/// Writes the text with its leftmost match replaced by the expansion of a template, and the text if there is none.
///
/// # Errors
/// Returns a status: 0 for success, 2 if an allocation failed, 3 if `out` is too small, 4 if the text or the template is
/// not UTF-8, 7 if the search takes more steps than allowed, and 8 if it needs more memory than allowed. `out` is changed
/// only with 0, and `needed` is 0 unless the status is 0 or 3.
///
/// # Preconditions
/// The handle is one of a compiled pattern.
#[unsafe(no_mangle)]
pub extern "C" fn regress_replace_raw(
    alloc: Global,
    handle: &mut Handle,
    text: &[u8],
    template: &[u8],
    out: &mut [u8],
    needed: &mut usize,
) -> u32
    requires { handle.old.value ≡ None → ⊥ }
    ensures same { handle.new.value ≡ handle.old.value }
    ensures status { IfSome handle.old.value (λ regex. SearchResult (IsUtf8 text.now × IsUtf8 template.now)
        (HasFirstReplaced regex text.now template.now) ⊥ (IsTooCostly regex text.now 0) (SearchNeedsMore regex text.now 0)
        out.old result needed.new out.new) }
{
    let regex = handle.take(alloc);
    let status = replacing::write_first_replaced(
        alloc,
        &regex,
        Replaced { text, template },
        out,
        needed,
    );
    *handle = Handle::of(regex);
    status
}

/// Writes the text with each of its non-overlapping matches replaced by the expansion of a template.
///
/// # Errors
/// As `regress_replace_raw`.
///
/// # Preconditions
/// The handle is one of a compiled pattern.
#[unsafe(no_mangle)]
pub extern "C" fn regress_replace_all_raw(
    alloc: Global,
    handle: &mut Handle,
    text: &[u8],
    template: &[u8],
    out: &mut [u8],
    needed: &mut usize,
) -> u32
    requires { handle.old.value ≡ None → ⊥ }
    ensures same { handle.new.value ≡ handle.old.value }
    ensures status { IfSome handle.old.value (λ regex. SearchResult (IsUtf8 text.now × IsUtf8 template.now)
        (HasAllReplaced regex text.now template.now) ⊥ (AllAreTooCostly regex text.now 0) (AllNeedMore regex text.now 0)
        out.old result needed.new out.new) }
{
    let regex = handle.take(alloc);
    let status = replacing::write_all_replaced(
        alloc,
        &regex,
        Replaced { text, template },
        out,
        needed,
    );
    *handle = Handle::of(regex);
    status
}

/// Writes the text with its first `limit` matches replaced by the expansion of a template, and how many were replaced.
///
/// # Errors
/// As `regress_replace_raw`; `count` is 0 unless the status is 0 or 3.
///
/// # Preconditions
/// The handle is one of a compiled pattern.
#[unsafe(no_mangle)]
pub extern "C" fn regress_replace_n_raw(
    alloc: Global,
    handle: &mut Handle,
    text: &[u8],
    template: &[u8],
    limit: usize,
    out: &mut [u8],
    needed: &mut usize,
    count: &mut usize,
) -> u32
    requires { handle.old.value ≡ None → ⊥ }
    ensures same { handle.new.value ≡ handle.old.value }
    ensures status { IfSome handle.old.value (λ regex. SearchResult (IsUtf8 text.now × IsUtf8 template.now)
        (HasFirstsReplaced regex text.now template.now limit count.new) ⊥ (AllAreTooCostly regex text.now 0) (AllNeedMore regex text.now 0)
        out.old result needed.new out.new) }
    ensures none { result ≢ 0 → result ≢ 3 → count.new ≡ 0 }
{
    let regex = handle.take(alloc);
    let replaced = FirstReplaced {
        text,
        template,
        limit,
    };
    let reply = replacing::write_replaced(alloc, &regex, replaced, out);
    *handle = Handle::of(regex);
    *needed = reply.needed;
    *count = reply.count;
    reply.status
}

/// Writes what a template expands to at a match with these numbers.
///
/// # Errors
/// Returns a status: 0 for success, 2 if an allocation failed, 3 if `out` is too small, and 4 if the text or the template
/// is not UTF-8, or if no match inside the text has these numbers. `out` is changed only with 0, and `needed` is 0 unless
/// the status is 0 or 3.
///
/// # Preconditions
/// The handle is one of a compiled pattern.
#[unsafe(no_mangle)]
pub extern "C" fn regress_expand_raw(
    alloc: Global,
    handle: &mut Handle,
    text: &[u8],
    numbers: &[usize],
    template: &[u8],
    out: &mut [u8],
    needed: &mut usize,
) -> u32
    requires { handle.old.value ≡ None → ⊥ }
    ensures same { handle.new.value ≡ handle.old.value }
    ensures status { IfSome handle.old.value (λ regex. ExpandResult regex text.now template.now numbers.now out.old result needed.new out.new) }
{
    let regex = handle.take(alloc);
    let expanded = Expanded {
        text,
        numbers,
        template,
    };
    let status = write_expanded(alloc, &regex, expanded, out, needed);
    *handle = Handle::of(regex);
    status
}

/// Writes the pattern that matches exactly a text.
///
/// # Errors
/// Returns a status: 0 for success, 2 if an allocation failed, 3 if `out` is too small, and 4 if the text is not UTF-8.
/// `out` is changed only with 0, and `needed` is 0 unless the status is 0 or 3.
#[unsafe(no_mangle)]
pub extern "C" fn regress_escape_raw(
    alloc: Global,
    text: &[u8],
    out: &mut [u8],
    needed: &mut usize,
) -> u32
    ensures status { EscapeResult text.now out.old result needed.new out.new }
{
    escaping::write_escaped(alloc, text, out, needed)
}
