//! ASCII characters of a text.
ghost use Rattle.std.specs.Prelude.{◌≡◌, ◌≤◌, ◌<◌, ◌+◌, IfSome, Some, length};
ghost use Rattle.regress_tree.specs.Reading.{direction_if, next_character, of_bytes, read_after, read_before};
ghost use Rattle.regress_leaves.specs.Starts.{AreIn};

use crate::reading::ascii_at;
use regress_base::bytesearch::ByteBitmap;

/// Returns the next character in a direction, if it is ASCII, and the byte offset on its other side.
#[inline(always)]
pub fn next_ascii(text: &str, backwards: bool, position: usize) -> Option<(u8, usize)>
    ensures { IfSome result (λ r. (r.0 < 128) × (next_character (direction_if backwards) (of_bytes text.now) position
        ≡ Some (record { character = r.0; position = r.1 }))) }
{
    if backwards {
        ascii_before(text, position)
    } else {
        ascii_after(text, position)
    }
}

/// Returns the ASCII character that begins at a position, and the byte offset after it.
#[inline(always)]
fn ascii_after(text: &str, position: usize) -> Option<(u8, usize)>
    ensures { IfSome result (λ r. (r.0 < 128) × (read_after text.now position ≡ Some (record { character = r.0; position = r.1 }))) }
{
    match ascii_at(text, position) {
        Some(b) => Some((b, position + 1)),
        None => None,
    }
}

/// Returns the ASCII character that ends at a position, and the byte offset before it.
#[inline(always)]
fn ascii_before(text: &str, position: usize) -> Option<(u8, usize)>
    ensures { IfSome result (λ r. (r.0 < 128) × (read_before text.now position ≡ Some (record { character = r.0; position = r.1 }))) }
{
    if position == 0 {
        return None;
    }
    match ascii_at(text, position - 1) {
        Some(b) => Some((b, position - 1)),
        None => None,
    }
}

/// Returns the number of characters of the set from a position on, all of which are ASCII.
///
/// # Preconditions
/// The position is inside the text.
///
/// # Complexity
/// Linear in the result.
pub fn count_of(text: &str, set: &ByteBitmap, position: usize) -> usize
    requires { position ≤ length text.now }
    ensures are_in { AreIn set.now text.now position result }
    ensures within { position + result ≤ length text.now }
{
    let bytes = text.as_bytes();
    let mut end = position;
    while end < bytes.len() && bytes[end].is_ascii() && set.contains(bytes[end]) {
        end += 1;
    }
    end - position
}
