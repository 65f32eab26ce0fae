//! Helpers for slices, texts and the bytes of UTF-8.

pub use characters::code_points;
pub use equal_range::equal_range_by;
pub use first_bytes::add_utf8_first_bytes_to_bitmap;
pub use utf8::{is_utf8_continuation, to_char_sat, utf8_first_byte, utf8_w2, utf8_w3, utf8_w4};

mod characters;
mod equal_range;
mod first_bytes;
mod utf8;
