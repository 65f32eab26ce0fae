//! Positions in bytes and in characters.

/// Returns the byte offset after `characters` characters.
pub(crate) fn byte_position(text: &str, characters: u32) -> Option<usize> {
    let characters = characters as usize;
    match text.char_indices().nth(characters) {
        Some((position, _)) => Some(position),
        None if text.chars().count() == characters => Some(text.len()),
        None => None,
    }
}

/// Returns the number of characters before a byte offset.
pub(crate) fn characters_before(text: &str, position: usize) -> usize {
    match text.split_at_checked(position) {
        Some((before, _)) => before.chars().count(),
        None => 0,
    }
}
