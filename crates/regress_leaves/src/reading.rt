//! Decoding of UTF-8, one character forwards or backwards from a byte offset.
ghost use Rattle.std.specs.Prelude.{◌≡◌, ◌<◌, IfSome, length, option_map, slice_index};
ghost use Rattle.regress_tree.specs.Reading.{next_character, of_bytes, read_after, read_before, direction_if};
ghost use Rattle.regress_leaves.specs.Leaves.{read_of};

/// Returns the next character in a direction, and the offset on its other side; `None` at the end of the text, and off
/// a character boundary.
#[inline]
pub fn next_read(text: &str, backwards: bool, position: usize) -> Option<(u32, usize)>
    ensures { option_map read_of result ≡ next_character (direction_if backwards) (of_bytes text.now) position }
{
    if backwards {
        read_before(text, position)
    } else {
        read_after(text, position)
    }
}

/// Returns the character that begins at `position`, and the offset after it.
pub fn read_after(text: &str, position: usize) -> Option<(u32, usize)>
    ensures { option_map read_of result ≡ read_after text.now position }
{
    match ascii_at(text, position) {
        Some(b) => Some((u32::from(b), position + 1)),
        None => decode_after(text, position),
    }
}

/// Returns the character that ends at `position`, and the offset before it.
pub fn read_before(text: &str, position: usize) -> Option<(u32, usize)>
    ensures { option_map read_of result ≡ read_before text.now position }
{
    if position == 0 {
        return None;
    }
    match ascii_at(text, position - 1) {
        Some(b) => Some((u32::from(b), position - 1)),
        None => decode_before(text, position),
    }
}

/// Returns the byte at an offset if it is an ASCII character, which is the fast case.
#[inline(always)]
pub(crate) fn ascii_at(text: &str, position: usize) -> Option<u8>
    ensures { IfSome result (λ b. (b < 128) × (position < length text.now) × (slice_index text.now position ≡ b)) }
{
    let bytes = text.as_bytes();
    if position < bytes.len() && bytes[position].is_ascii() {
        Some(bytes[position])
    } else {
        None
    }
}

/// Returns the character of any length that begins at `position`, and the offset after it.
fn decode_after(text: &str, position: usize) -> Option<(u32, usize)>
    ensures { option_map read_of result ≡ read_after text.now position }
{
    let (_, after) = text.split_at_checked(position)?;
    let c = after.chars().next()?;
    Some((u32::from(c), position + c.len_utf8()))
}

/// Returns the character of any length that ends at `position`, and the offset before it.
fn decode_before(text: &str, position: usize) -> Option<(u32, usize)>
    ensures { option_map read_of result ≡ read_before text.now position }
{
    let (before, _) = text.split_at_checked(position)?;
    let c = before.chars().next_back()?;
    Some((u32::from(c), position - c.len_utf8()))
}
