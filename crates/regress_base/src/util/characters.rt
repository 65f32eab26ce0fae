//! The characters of a text.
ghost use Rattle.std.specs.Prelude.{◌≡◌, ◌≤◌, All, IfOk, chars};

use crate::interval::CODE_POINT_MAX;
use std::alloc::{AllocError, Global};

/// Returns the characters of `text` in order, each at most U+10FFFF.
///
/// # Errors
/// Returns [`AllocError`] if an allocation fails.
///
/// # Examples
/// ```
/// let points = code_points(alloc, "aé😀")?;
/// assert_eq!(rt; points.as_slice(), [0x61, 0xE9, 0x1F600].as_slice());
/// ```
pub fn code_points(alloc: Global, text: &str) -> Result<Vec<u32>, AllocError>
    ensures characters { IfOk result (λ points. points.items ≡ chars text.now) }
    ensures in_range { IfOk result (λ points. All (λ c. c ≤ CODE_POINT_MAX) points.items) }
{
    let mut points = Vec::new(alloc);
    for c in text.chars() {
        points.push(u32::from(c))?;
    }
    Ok(points)
}
