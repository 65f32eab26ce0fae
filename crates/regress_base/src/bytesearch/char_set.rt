//! Small sets of code points.

ghost use Rattle.std.specs.Prelude.{◌↔◌, IsTrue, Contains};

use crate::types::MAX_CHAR_SET_LENGTH;

/// Returns whether `c` is one of the four code points of `set`. A zero counts as any other code point.
pub fn charset_contains(set: &[u32; MAX_CHAR_SET_LENGTH], c: u32) -> bool
    ensures { IsTrue result ↔ Contains set.now c }
{
    set.contains(&c)
}
