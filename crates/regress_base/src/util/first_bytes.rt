//! The first bytes of the UTF-8 encodings of a set of code points.
ghost use Rattle.std.specs.Prelude.{◌≡◌, ◌⊎◌, ◌↔◌, ℕ, ◌≤◌, IsTrue, length, encode_utf8};
ghost use Rattle.regress_base.specs.ByteBitmap.{contains};
ghost use Rattle.regress_base.specs.FirstBytes.{IsFirstByteBetween};

use super::utf8::utf8_first_byte;
use crate::bytesearch::ByteBitmap;
use crate::interval::{CODE_POINT_MAX, Interval};

/// Adds to `bitmap` the first bytes of the UTF-8 encodings of the code points of `interval` (RFC 3629, section 3).
///
/// Surrogates are encoded by the rule for three bytes.
///
/// # Complexity
/// Linear in the number of bytes added, at most 256, however many code points there are.
pub fn add_utf8_first_bytes_to_bitmap(interval: Interval, bitmap: &mut ByteBitmap)
    ensures { (b : ℕ) → IsTrue (contains bitmap.new b)
        ↔ (IsTrue (contains bitmap.old b) ⊎ IsFirstByteBetween interval.first interval.last b) }
{
    let (first, last) = (interval.first(), interval.last());
    add_first_bytes_of_one_width(first, last.min(0x7F), bitmap);
    add_first_bytes_of_one_width(first.max(0x80), last.min(0x7FF), bitmap);
    add_first_bytes_of_one_width(first.max(0x800), last.min(0xFFFF), bitmap);
    add_first_bytes_of_one_width(first.max(0x1_0000), last, bitmap);
}

// The code points from `first` to `last`, if there are any, have encodings of the same length, so that their first
// bytes are a contiguous range.
fn add_first_bytes_of_one_width(first: u32, last: u32, bitmap: &mut ByteBitmap)
    requires in_range { last ≤ CODE_POINT_MAX }
    requires one_width { first ≤ last → length (encode_utf8 first) ≡ length (encode_utf8 last) }
    ensures { (b : ℕ) → IsTrue (contains bitmap.new b)
        ↔ (IsTrue (contains bitmap.old b) ⊎ IsFirstByteBetween first last b) }
{
    if first <= last {
        bitmap.set_run(utf8_first_byte(first), utf8_first_byte(last));
    }
}
