//! The encoding of a pattern's tree, and the text of its syntax error.
ghost use Rattle.std.specs.Prelude.{◌==◌, chars};
ghost use Rattle.regress_capi.specs.Request.{front_dialect, front_setting, IsRequest, IsTextRequest};
ghost use Rattle.regress_capi.specs.EncodingResults.{EncodingResult};
ghost use Rattle.regress_capi.specs.ErrorResults.{ErrorResult};

use super::buffer::copy_to;
use super::reply::Reply;
use super::request::{is_request, read_points};
use super::trees::make_encoding;
use regress_front::parse::PlacedFault;
use std::alloc::Global;

pub(crate) const OK: u32 = 0;

pub(crate) const MEMORY: u32 = 2;

pub(crate) const ROOM: u32 = 3;

pub(crate) const BAD_INPUT: u32 = 4;

pub(crate) const SYNTAX: u32 = 5;

/// Writes the encoding of a pattern's tree to `words`. Returns its length, or the kind and the position of the pattern's
/// syntax error.
///
/// # Errors
/// The status is 2 if an allocation failed, 3 if `words` is too small, 4 if the arguments are invalid, and 5 if the
/// pattern is rejected.
pub fn write_encoding(
    alloc: Global,
    pattern: &[u32],
    bits: u32,
    choice: u32,
    words: &mut [u32],
) -> Reply
    ensures status { EncodingResult (IsRequest pattern.now bits choice) (front_dialect bits) (front_setting bits) pattern.now (choice == 1)
        words.old result.status result.needed result.kind result.position words.new }
{
    if !is_request(pattern, bits, choice) {
        return Reply::bare(BAD_INPUT);
    }
    match make_encoding(alloc, pattern, bits, choice == 1) {
        Ok(items) => {
            let fits = copy_to(&items, words);
            Reply::of_items(fits, items.len())
        }
        Err(fault) => Reply::of_fault(&fault),
    }
}

/// Writes the same for a pattern in UTF-8.
///
/// # Errors
/// As `write_encoding`; a pattern that is not UTF-8 is an invalid argument.
pub fn write_encoding_of_text(
    alloc: Global,
    pattern: &[u8],
    bits: u32,
    choice: u32,
    words: &mut [u32],
) -> Reply
    ensures status { EncodingResult (IsTextRequest pattern.now bits choice) (front_dialect bits) (front_setting bits) (chars pattern.now)
        (choice == 1) words.old result.status result.needed result.kind result.position words.new }
{
    match read_points(alloc, pattern, bits, choice) {
        Ok(Some(points)) => write_encoding(alloc, &points, bits, choice, words),
        Ok(None) => Reply::bare(BAD_INPUT),
        Err(_) => Reply::bare(MEMORY),
    }
}

/// Writes the text of a pattern's syntax error to `text`. Returns its length in bytes, its kind and its position, or no
/// numbers if the pattern is accepted.
///
/// # Errors
/// The status is 2 if an allocation failed, 3 if the pattern is rejected and `text` is too small, 4 if the arguments are
/// invalid, and 5 if the pattern is rejected and the text is written.
pub fn write_error(alloc: Global, pattern: &[u32], bits: u32, text: &mut [u8]) -> Reply
    ensures status { ErrorResult (IsRequest pattern.now bits 0) (front_dialect bits) (front_setting bits) pattern.now
        text.old result.status result.needed result.kind result.position text.new }
{
    if !is_request(pattern, bits, 0) {
        return Reply::bare(BAD_INPUT);
    }
    match make_encoding(alloc, pattern, bits, false) {
        Ok(_) => Reply::bare(OK),
        Err(
            PlacedFault::Syntax {
                kind,
                error,
                position,
            },
        ) => {
            let bytes = error.text.as_bytes();
            let fits = copy_to(bytes, text);
            Reply::of_text(fits, bytes.len(), &kind, position)
        }
        Err(PlacedFault::Memory(_)) => Reply::bare(MEMORY),
    }
}

/// Writes the same for a pattern in UTF-8.
///
/// # Errors
/// As `write_error`; a pattern that is not UTF-8 is an invalid argument.
pub fn write_error_of_text(alloc: Global, pattern: &[u8], bits: u32, text: &mut [u8]) -> Reply
    ensures status { ErrorResult (IsTextRequest pattern.now bits 0) (front_dialect bits) (front_setting bits) (chars pattern.now)
        text.old result.status result.needed result.kind result.position text.new }
{
    match read_points(alloc, pattern, bits, 0) {
        Ok(Some(points)) => write_error(alloc, &points, bits, text),
        Ok(None) => Reply::bare(BAD_INPUT),
        Err(_) => Reply::bare(MEMORY),
    }
}
