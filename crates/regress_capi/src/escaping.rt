//! The result of escaping a text.
ghost use Rattle.regress_capi.specs.EscapeResults.{EscapeResult};

use super::results::{BAD_INPUT, MEMORY};
use super::texts::give_text;
use regress_escape::escape;
use std::alloc::Global;

/// Writes the pattern that matches exactly a text. Returns the status.
///
/// # Errors
/// The status is 2 if an allocation failed, 3 if `out` is too small, and 4 if the text is not UTF-8.
pub fn write_escaped(alloc: Global, text: &[u8], out: &mut [u8], needed: &mut usize) -> u32
    ensures status { EscapeResult text.now out.old result needed.new out.new }
{
    *needed = 0;
    match str::from_utf8(text) {
        Ok(text) => match escape(alloc, text) {
            Ok(pattern) => give_text(&pattern, out, needed),
            Err(_) => MEMORY,
        },
        Err(_) => BAD_INPUT,
    }
}
