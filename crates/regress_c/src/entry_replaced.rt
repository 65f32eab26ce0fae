//! The functions that C calls for a text in which matches are replaced, by a handle. include/regress.h documents them.
ghost use Rattle.std.specs.Prelude.{◌≡◌, IfSome, IsUtf8, None};
ghost use Rattle.regress.specs.Costs.{AllAreTooCostly};
ghost use Rattle.regress.specs.Memory.{AllNeedMore};
ghost use Rattle.regress_capi.specs.ReplaceResults.{HasFirstsReplaced};
ghost use Rattle.regress_capi.specs.ReplacedResults.{ReplacedResult, bytes_of, count_of};
ghost use Rattle.regress_capi.specs.TextResults.{PlainResult};

use regress_capi::handle::Handle;
use regress_capi::keeping::keep_replaced;
use regress_capi::replaced_handle::ReplacedHandle;
use regress_capi::replacing::FirstReplaced;
use std::alloc::Global;

/// Replaces the first `limit` matches in a text by the expansion of a template, and writes the handle to the result. A
/// handle that was there before is not freed.
///
/// # Errors
/// Returns a status: 0 for success, 2 if an allocation failed, 4 if the text or the template is not UTF-8, 7 if the search
/// takes more steps than allowed, and 8 if it needs more memory than allowed. `replaced` is changed only with 0.
///
/// # Preconditions
/// The handle is one of a compiled pattern.
#[unsafe(no_mangle)]
pub extern "C" fn regress_replaced_new_raw(
    alloc: Global,
    handle: &mut Handle,
    text: &[u8],
    template: &[u8],
    limit: usize,
    replaced: &mut ReplacedHandle,
) -> u32
    requires { handle.old.value ≡ None → ⊥ }
    ensures same { handle.new.value ≡ handle.old.value }
    ensures status { IfSome handle.old.value (λ regex. ReplacedResult (IsUtf8 text.now × IsUtf8 template.now)
        (HasFirstsReplaced regex text.now template.now limit) (AllAreTooCostly regex text.now 0) (AllNeedMore regex text.now 0)
        replaced.old.value result replaced.new.value) }
{
    let regex = handle.take(alloc);
    let first = FirstReplaced {
        text,
        template,
        limit,
    };
    let status = keep_replaced(alloc, &regex, first, replaced);
    *handle = Handle::of(regex);
    status
}

/// Writes the text of a handle.
///
/// # Errors
/// Returns a status: 0 for success, and 3 if `out` is too small. `out` is changed only with 0.
///
/// # Preconditions
/// The handle is one of a text in which matches were replaced.
#[unsafe(no_mangle)]
pub extern "C" fn regress_replaced_write_raw(
    alloc: Global,
    replaced: &mut ReplacedHandle,
    out: &mut [u8],
    needed: &mut usize,
) -> u32
    requires { replaced.old.value ≡ None → ⊥ }
    ensures same { replaced.new.value ≡ replaced.old.value }
    ensures status { IfSome replaced.old.value (λ text. PlainResult (λ bytes. bytes ≡ bytes_of text) out.old result needed.new out.new) }
{
    let text = replaced.take(alloc);
    let status = text.write(out, needed);
    *replaced = ReplacedHandle::of(text);
    status
}

/// Returns how many matches were replaced in the text of a handle.
///
/// # Preconditions
/// The handle is one of a text in which matches were replaced.
#[unsafe(no_mangle)]
pub extern "C" fn regress_replaced_count_raw(alloc: Global, replaced: &mut ReplacedHandle) -> usize
    requires { replaced.old.value ≡ None → ⊥ }
    ensures same { replaced.new.value ≡ replaced.old.value }
    ensures count { IfSome replaced.old.value (λ text. result ≡ count_of text) }
{
    let text = replaced.take(alloc);
    let count = text.count();
    *replaced = ReplacedHandle::of(text);
    count
}

/// Frees the text of a handle.
///
/// # Preconditions
/// The handle is one of a text in which matches were replaced.
#[unsafe(no_mangle)]
pub extern "C" fn regress_replaced_free_raw(alloc: Global, replaced: &mut ReplacedHandle)
    requires { replaced.old.value ≡ None → ⊥ }
    ensures { replaced.new.value ≡ None }
{
    let _text = replaced.take(alloc);
}
