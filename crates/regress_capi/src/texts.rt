//! The results of calls that write a text which does not depend on a search.
ghost use Rattle.std.specs.Prelude.{◌≡◌, MatchOption};
ghost use Rattle.regress.specs.Compiled.{groups_of};
ghost use Rattle.regress_parse.specs.Fault.{HasKind, IsTextOf};
ghost use Rattle.regress_capi.specs.TextResults.{HasGroup, IsNameOf, PlainResult, TextResult};

use super::buffer::copy_to;
use super::results::{BAD_INPUT, OK, ROOM};
use regress::Regex;
use regress_parse::text_of_number;

/// Writes the name of a capture group, from 1; nothing for a group without a name. Returns the status.
///
/// # Errors
/// The status is 3 if `out` is too small, and 4 if there is no such group.
pub fn write_name(regex: &Regex, group: usize, out: &mut [u8], needed: &mut usize) -> u32
    ensures status { TextResult (HasGroup (groups_of regex.now) group) (IsNameOf (groups_of regex.now) group)
        out.old result needed.new out.new }
{
    *needed = 0;
    match name_of(regex, group) {
        Some(name) => give_terminated(name, out, needed),
        None => BAD_INPUT,
    }
}

/// Writes the text of a kind of syntax error, up to a name. Returns the status.
///
/// # Errors
/// The status is 3 if `out` is too small, and 4 if there is no such kind.
pub fn write_message(kind: u32, out: &mut [u8], needed: &mut usize) -> u32
    ensures status { TextResult (HasKind kind) (IsTextOf kind) out.old result needed.new out.new }
{
    *needed = 0;
    match text_of_number(kind) {
        Some(text) => give_terminated(text, out, needed),
        None => BAD_INPUT,
    }
}

/// Writes a text, a zero after it if there is room, and its length. Returns the status.
pub(crate) fn give_terminated(text: &str, out: &mut [u8], needed: &mut usize) -> u32
    ensures { TextResult (Unit {0}) (λ bytes. bytes ≡ text.now) out.old result needed.new out.new }
{
    let status = give_text(text, out, needed);
    if text.len() < out.len() {
        out[text.len()] = 0;
    }
    status
}

/// Writes a text and its length. Returns the status.
pub(crate) fn give_text(text: &str, out: &mut [u8], needed: &mut usize) -> u32
    ensures { PlainResult (λ bytes. bytes ≡ text.now) out.old result needed.new out.new }
{
    *needed = text.len();
    if copy_to(text.as_bytes(), out) {
        OK
    } else {
        ROOM
    }
}

/// Returns the name of a capture group, from 1: empty for a group without a name, `None` if there is no such group.
fn name_of(regex: &Regex, group: usize) -> Option<&str>
    ensures { MatchOption result (HasGroup (groups_of regex.now) group → ⊥) (λ name.
        HasGroup (groups_of regex.now) group × IsNameOf (groups_of regex.now) group name.now) }
{
    if group == 0 {
        return None;
    }
    match regex.group_names().nth(group - 1) {
        Some(Some(name)) => Some(name),
        Some(None) => Some(""),
        None => None,
    }
}
