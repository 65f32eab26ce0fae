//! The functions that C calls.
ghost use Rattle.std.specs.Prelude.{◌==◌, chars};
ghost use Rattle.regress_capi.specs.Request.{front_dialect, front_setting, IsRequest, IsTextRequest};
ghost use Rattle.regress_capi.specs.EncodingResults.{EncodingResult};
ghost use Rattle.regress_capi.specs.ErrorResults.{ErrorResult};

use regress_capi::results::{
    write_encoding, write_encoding_of_text, write_error, write_error_of_text,
};
use std::alloc::Global;

/// Writes the encoding of the tree of a pattern in code points to `words`, and its length in words to `needed`; or, if
/// the pattern is rejected, the number of the kind of its syntax error to `kind`, and the code-point index to `position`.
///
/// The encoding is written only if it fits. Otherwise `words` is unchanged.
///
/// # Errors
/// Returns a status: 0 for success, 2 if an allocation failed, 3 if `words` is too small, 4 if the arguments are invalid,
/// and 5 if the pattern is rejected. `words` is changed only with 0, `needed` is 0 unless the status is 0 or 3, and
/// `kind` and `position` are 0 unless it is 5.
#[unsafe(no_mangle)]
pub extern "C" fn regress_front_parse_code_points(
    alloc: Global,
    pattern: &[u32],
    flags: u32,
    optimize: u32,
    words: &mut [u32],
    needed: &mut usize,
    kind: &mut u32,
    position: &mut usize,
) -> u32
    ensures status { EncodingResult (IsRequest pattern.now flags optimize) (front_dialect flags) (front_setting flags) pattern.now (optimize == 1)
        words.old result needed.new kind.new position.new words.new }
{
    let reply = write_encoding(alloc, pattern, flags, optimize, words);
    *needed = reply.needed;
    *kind = reply.kind;
    *position = reply.position;
    reply.status
}

/// As `regress_front_parse_code_points`, for a pattern in UTF-8. `position` counts code points here too.
///
/// # Errors
/// As `regress_front_parse_code_points`; a pattern that is not UTF-8 is an invalid argument.
#[unsafe(no_mangle)]
pub extern "C" fn regress_front_parse_text(
    alloc: Global,
    pattern: &[u8],
    flags: u32,
    optimize: u32,
    words: &mut [u32],
    needed: &mut usize,
    kind: &mut u32,
    position: &mut usize,
) -> u32
    ensures status { EncodingResult (IsTextRequest pattern.now flags optimize) (front_dialect flags) (front_setting flags) (chars pattern.now) (optimize == 1)
        words.old result needed.new kind.new position.new words.new }
{
    let reply = write_encoding_of_text(alloc, pattern, flags, optimize, words);
    *needed = reply.needed;
    *kind = reply.kind;
    *position = reply.position;
    reply.status
}

/// Writes the text of the syntax error of a pattern in code points to `text`, in UTF-8, and its length in bytes to
/// `needed`; and the number of the kind of the same error to `kind`, and its code-point index to `position`.
///
/// # Errors
/// Returns a status: 0 if the pattern is accepted, 2 if an allocation failed, 3 if it is rejected and `text` is too small,
/// 4 if the arguments are invalid, and 5 if it is rejected and the text is written. `text` is changed only with 5, and
/// `needed`, `kind` and `position` are 0 unless the status is 3 or 5.
#[unsafe(no_mangle)]
pub extern "C" fn regress_front_tell_fault(
    alloc: Global,
    pattern: &[u32],
    flags: u32,
    text: &mut [u8],
    needed: &mut usize,
    kind: &mut u32,
    position: &mut usize,
) -> u32
    ensures status { ErrorResult (IsRequest pattern.now flags 0) (front_dialect flags) (front_setting flags) pattern.now
        text.old result needed.new kind.new position.new text.new }
{
    let reply = write_error(alloc, pattern, flags, text);
    *needed = reply.needed;
    *kind = reply.kind;
    *position = reply.position;
    reply.status
}

/// As `regress_front_tell_fault`, for a pattern in UTF-8. `position` counts code points here too.
///
/// # Errors
/// As `regress_front_tell_fault`; a pattern that is not UTF-8 is an invalid argument.
#[unsafe(no_mangle)]
pub extern "C" fn regress_front_tell_fault_of_text(
    alloc: Global,
    pattern: &[u8],
    flags: u32,
    text: &mut [u8],
    needed: &mut usize,
    kind: &mut u32,
    position: &mut usize,
) -> u32
    ensures status { ErrorResult (IsTextRequest pattern.now flags 0) (front_dialect flags) (front_setting flags) (chars pattern.now)
        text.old result needed.new kind.new position.new text.new }
{
    let reply = write_error_of_text(alloc, pattern, flags, text);
    *needed = reply.needed;
    *kind = reply.kind;
    *position = reply.position;
    reply.status
}
