//! The functions that C calls to compile a pattern, and to search for it. include/regress.h documents them.
ghost use Rattle.std.specs.Prelude.{◌≡◌, if◌then◌else◌, IfSome, IsUtf8, None, is_some, length, min, option_map, unwrap_or};
ghost use Rattle.regress.specs.Costs.{AllAreTooCostly, IsTooCostly, factor_of, find_factor_of, nonlinear_of};
ghost use Rattle.regress.specs.Compiled.{groups_of, outcomes_of};
ghost use Rattle.regress.specs.Memory.{AllNeedMore, SearchNeedsMore};
ghost use Rattle.regress.specs.Searched.{MatchesSomewhere};
ghost use Rattle.regress_capi.specs.CompileResults.{CompileResult, options_of};
ghost use Rattle.regress_capi.specs.ExactResults.{ExactResult};
ghost use Rattle.regress_capi.specs.Fault.{HasKind, IsTextOf};
ghost use Rattle.regress_capi.specs.Reasons.{reason_number};
ghost use Rattle.regress_capi.specs.Request.{dialect_of, setting_in, IsCompileRequest};
ghost use Rattle.regress_capi.specs.SearchResults.{SearchResult, TestResult};
ghost use Rattle.regress_capi.specs.SentenceResults.{SentenceResult};
ghost use Rattle.regress_capi.specs.Spans.{AreEndsOfAll, AreEndsOfFirst};
ghost use Rattle.regress_capi.specs.TextResults.{HasGroup, IsNameOf, TextResult};
ghost use Rattle.regress_found.specs.Found.{Finds};

use regress_capi::compiling::write_handle;
use regress_capi::handle::Handle;
use regress_capi::limits::Limits;
use regress_capi::reasons::reason_number;
use regress_capi::searches::{self, Searched};
use regress_capi::sentences::{Located, write_sentence};
use regress_capi::texts;
use std::alloc::Global;

const ABI_VERSION: u32 = 6;

/// Returns the version of these functions.
#[unsafe(no_mangle)]
pub extern "C" fn regress_abi_version() -> u32
    ensures { result ≡ 6 }
{
    ABI_VERSION
}

/// Compiles a pattern in UTF-8, and writes its handle. A handle that was there before is not freed.
///
/// # Errors
/// Returns a status: 0 for success, 2 if an allocation failed, 4 if the arguments are invalid, 5 if the pattern is
/// rejected, and 6 if it may have more nodes or instructions than the limits allow. `handle` is changed only with 0, and
/// `kind` and `position` are 0 unless it is 5.
#[unsafe(no_mangle)]
pub extern "C" fn regress_compile_raw(
    alloc: Global,
    pattern: &[u8],
    flags: u32,
    limits: &Limits,
    handle: &mut Handle,
    kind: &mut u32,
    position: &mut usize,
) -> u32
    ensures status { let dialect = dialect_of flags in CompileResult (IsCompileRequest pattern.now flags) (setting_in dialect flags)
        pattern.now (options_of dialect limits.now) handle.old.value result kind.new position.new handle.new.value }
{
    let reply = write_handle(alloc, pattern, flags, limits, handle);
    *kind = reply.kind;
    *position = reply.position;
    reply.status
}

/// Writes the start and the end of the leftmost match from the byte offset `from` on, and those of its groups.
///
/// # Errors
/// Returns a status: 0 for success, 1 if there is no match, 2 if an allocation failed, 3 if `spans` is too small, 4 if
/// the text is not UTF-8, 7 if the search takes more steps than allowed, and 8 if it needs more memory than allowed.
/// `spans` is changed only with 0, and `needed` is 0 unless the status is 0 or 3.
///
/// # Preconditions
/// The handle is one of a compiled pattern.
#[unsafe(no_mangle)]
pub extern "C" fn regress_find_raw(
    alloc: Global,
    handle: &mut Handle,
    text: &[u8],
    from: usize,
    spans: &mut [usize],
    needed: &mut usize,
) -> u32
    requires { handle.old.value ≡ None → ⊥ }
    ensures same { handle.new.value ≡ handle.old.value }
    ensures status { IfSome handle.old.value (λ regex. SearchResult (IsUtf8 text.now)
        (AreEndsOfFirst text.now (outcomes_of regex text.now) from) (Finds text.now (outcomes_of regex text.now) from None)
        (IsTooCostly regex text.now from) (SearchNeedsMore regex text.now from) spans.old result needed.new spans.new) }
{
    let regex = handle.take(alloc);
    let status = searches::write_first(alloc, &regex, Searched { text, from }, spans, needed);
    *handle = Handle::of(regex);
    status
}

/// Writes the start and the end of each non-overlapping match from the byte offset `from` on, from left to right, and
/// those of its groups.
///
/// # Errors
/// As `regress_find_raw`, but with no match the status is 0.
///
/// # Preconditions
/// The handle is one of a compiled pattern.
#[unsafe(no_mangle)]
pub extern "C" fn regress_find_all_raw(
    alloc: Global,
    handle: &mut Handle,
    text: &[u8],
    from: usize,
    spans: &mut [usize],
    needed: &mut usize,
) -> u32
    requires { handle.old.value ≡ None → ⊥ }
    ensures same { handle.new.value ≡ handle.old.value }
    ensures status { IfSome handle.old.value (λ regex. SearchResult (IsUtf8 text.now)
        (AreEndsOfAll text.now (outcomes_of regex text.now) from) ⊥ (AllAreTooCostly regex text.now from) (AllNeedMore regex text.now from)
        spans.old result needed.new spans.new) }
{
    let regex = handle.take(alloc);
    let status = searches::write_all(alloc, &regex, Searched { text, from }, spans, needed);
    *handle = Handle::of(regex);
    status
}

/// Returns whether the pattern matches somewhere, as a status.
///
/// # Errors
/// Returns a status: 0 if it matches, 1 if it does not, 2 if an allocation failed, 4 if the text is not UTF-8, 7 if the
/// search takes more steps than allowed, and 8 if it needs more memory than allowed.
///
/// # Preconditions
/// The handle is one of a compiled pattern.
#[unsafe(no_mangle)]
pub extern "C" fn regress_is_match_raw(alloc: Global, handle: &mut Handle, text: &[u8]) -> u32
    requires { handle.old.value ≡ None → ⊥ }
    ensures same { handle.new.value ≡ handle.old.value }
    ensures status { IfSome handle.old.value (λ regex. TestResult (IsUtf8 text.now)
        (MatchesSomewhere text.now (outcomes_of regex text.now)) (MatchesSomewhere text.now (outcomes_of regex text.now) → ⊥)
        (IsTooCostly regex text.now 0) (SearchNeedsMore regex text.now 0) result) }
{
    let regex = handle.take(alloc);
    let status = searches::test(alloc, &regex, text);
    *handle = Handle::of(regex);
    status
}

/// Returns whether searches are known to take time linear in the length of the text: 1 if so, else 0.
///
/// # Preconditions
/// The handle is one of a compiled pattern.
#[unsafe(no_mangle)]
pub extern "C" fn regress_is_linear_raw(alloc: Global, handle: &mut Handle) -> u32
    requires { handle.old.value ≡ None → ⊥ }
    ensures same { handle.new.value ≡ handle.old.value }
    ensures linear { IfSome handle.old.value (λ regex. result ≡ (if is_some (factor_of regex) then 1 else 0)) }
{
    let regex = handle.take(alloc);
    let is_linear = regex.is_linear();
    *handle = Handle::of(regex);
    if is_linear { 1 } else { 0 }
}

/// Returns whether ECMA-262 reads the pattern and a text as their code points: 1 if so, else 0. It is 0 for a text that
/// is not UTF-8.
///
/// # Preconditions
/// The handle is one of a compiled pattern.
#[unsafe(no_mangle)]
pub extern "C" fn regress_is_exact_for_raw(alloc: Global, handle: &mut Handle, text: &[u8]) -> u32
    requires { handle.old.value ≡ None → ⊥ }
    ensures same { handle.new.value ≡ handle.old.value }
    ensures exact { IfSome handle.old.value (λ regex. ExactResult regex text.now result) }
{
    let regex = handle.take(alloc);
    let result = searches::is_exact_for(&regex, text);
    *handle = Handle::of(regex);
    result
}

/// Returns why searches are not known to take time linear in the length of the text, as a number: 0 if they are.
///
/// # Preconditions
/// The handle is one of a compiled pattern.
#[unsafe(no_mangle)]
pub extern "C" fn regress_nonlinear_raw(alloc: Global, handle: &mut Handle) -> u32
    requires { handle.old.value ≡ None → ⊥ }
    ensures same { handle.new.value ≡ handle.old.value }
    ensures reason { IfSome handle.old.value (λ regex. result ≡ reason_number (nonlinear_of regex)) }
{
    let regex = handle.take(alloc);
    let reason = regex.nonlinear();
    *handle = Handle::of(regex);
    reason_number(reason)
}

/// Returns an upper bound for the steps of a search for each byte of a text, counting its end as one more; at most
/// `u64::MAX`. The result is 0 if searches are not known to take linear time.
///
/// # Preconditions
/// The handle is one of a compiled pattern.
#[unsafe(no_mangle)]
pub extern "C" fn regress_steps_per_byte_raw(alloc: Global, handle: &mut Handle) -> u64
    requires { handle.old.value ≡ None → ⊥ }
    ensures same { handle.new.value ≡ handle.old.value }
    ensures steps { IfSome handle.old.value (λ regex. result ≡ unwrap_or (option_map (λ n. min n u64.MAX) (factor_of regex)) 0) }
{
    let regex = handle.take(alloc);
    let steps = regex.steps_per_byte();
    *handle = Handle::of(regex);
    steps.unwrap_or(0)
}

/// Returns an upper bound for the steps of a search for one match for each byte of a text, counting its end as one more;
/// at most `u64::MAX`. The result is 0 if such a search is not known to take linear time.
///
/// # Preconditions
/// The handle is one of a compiled pattern.
#[unsafe(no_mangle)]
pub extern "C" fn regress_find_steps_per_byte_raw(alloc: Global, handle: &mut Handle) -> u64
    requires { handle.old.value ≡ None → ⊥ }
    ensures same { handle.new.value ≡ handle.old.value }
    ensures steps { IfSome handle.old.value (λ regex. result ≡ unwrap_or (option_map (λ n. min n u64.MAX) (find_factor_of regex)) 0) }
{
    let regex = handle.take(alloc);
    let steps = regex.find_steps_per_byte();
    *handle = Handle::of(regex);
    steps.unwrap_or(0)
}

/// Returns the number of capture groups, without the whole match.
///
/// # Preconditions
/// The handle is one of a compiled pattern.
#[unsafe(no_mangle)]
pub extern "C" fn regress_group_count_raw(alloc: Global, handle: &mut Handle) -> usize
    requires { handle.old.value ≡ None → ⊥ }
    ensures same { handle.new.value ≡ handle.old.value }
    ensures count { IfSome handle.old.value (λ regex. result ≡ length (groups_of regex)) }
{
    let regex = handle.take(alloc);
    let count = regex.group_count();
    *handle = Handle::of(regex);
    count
}

/// Writes the name of the capture group with a number, from 1, in UTF-8; nothing for a group without a name. A zero follows
/// if there is room.
///
/// # Errors
/// Returns a status: 0 for success, 3 if `out` is too small, and 4 if there is no such group. `out` is changed only
/// with 0, and `needed` is 0 unless the status is 0 or 3.
///
/// # Preconditions
/// The handle is one of a compiled pattern.
#[unsafe(no_mangle)]
pub extern "C" fn regress_group_name_raw(
    alloc: Global,
    handle: &mut Handle,
    group: usize,
    out: &mut [u8],
    needed: &mut usize,
) -> u32
    requires { handle.old.value ≡ None → ⊥ }
    ensures same { handle.new.value ≡ handle.old.value }
    ensures status { IfSome handle.old.value (λ regex. TextResult (HasGroup (groups_of regex) group) (IsNameOf (groups_of regex) group)
        out.old result needed.new out.new) }
{
    let regex = handle.take(alloc);
    let status = texts::write_name(&regex, group, out, needed);
    *handle = Handle::of(regex);
    status
}

/// Writes the text of a kind of syntax error, in UTF-8: the whole text, or that before the name of a group. A zero follows
/// if there is room.
///
/// # Errors
/// Returns a status: 0 for success, 3 if `out` is too small, and 4 if there is no such kind. `out` is changed only with
/// 0, and `needed` is 0 unless the status is 0 or 3.
#[unsafe(no_mangle)]
pub extern "C" fn regress_error_message_raw(kind: u32, out: &mut [u8], needed: &mut usize) -> u32
    ensures status { TextResult (HasKind kind) (IsTextOf kind) out.old result needed.new out.new }
{
    texts::write_message(kind, out, needed)
}

/// Writes the sentence for a syntax error of a pattern in UTF-8. A zero follows if there is room.
///
/// # Errors
/// Returns a status: 0 for success, 2 if an allocation failed, 3 if `out` is too small, and 4 if there is no such kind or the
/// pattern is not UTF-8. `out` is changed only with 0, and `needed` is 0 unless the status is 0 or 3.
#[unsafe(no_mangle)]
pub extern "C" fn regress_error_sentence_raw(
    alloc: Global,
    pattern: &[u8],
    kind: u32,
    position: usize,
    out: &mut [u8],
    needed: &mut usize,
) -> u32
    ensures status { SentenceResult (HasKind kind) (IsUtf8 pattern.now) out.old result needed.new out.new }
{
    let error = Located { kind, position };
    write_sentence(alloc, pattern, error, out, needed)
}

/// Frees the regular expression of a handle.
///
/// # Preconditions
/// The handle is one of a compiled pattern.
#[unsafe(no_mangle)]
pub extern "C" fn regress_free_raw(alloc: Global, handle: &mut Handle)
    requires { handle.old.value ≡ None → ⊥ }
    ensures { handle.new.value ≡ None }
{
    let _regex = handle.take(alloc);
}
