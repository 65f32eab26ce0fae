//! Sets of bytes, and searches for the first member of a set, or for a string, in a text.
//!
//! A text is a slice of bytes; byte offsets are from 0 to its length. Nothing here allocates, so no call fails.

mod ascii;
mod bitmap;
mod char_set;
mod debug_list;
mod find;
mod searcher;
mod small_arrays;
mod strings;

pub use ascii::AsciiBitmap;
pub use bitmap::ByteBitmap;
pub use char_set::charset_contains;
pub use searcher::{ByteSearcher, ByteSet, SmallArraySet};
pub use small_arrays::ByteArraySet;
pub use strings::{EmptyString, Needle};
