//! Strings of bytes to search for.

ghost use Rattle.std.specs.Prelude.{◌≡◌};
ghost use Rattle.regress_base.specs.Needle.{needle_bytes};
ghost use Rattle.regress_base.specs.Positions.{OccursAt};

use super::searcher::ByteSearcher;

/// The empty string. It occurs at every byte offset of a text, so it is always found at 0.
#[derive(Clone, Copy, Debug)]
pub struct EmptyString {}

impl ByteSearcher for EmptyString {
    ghost has_bytes_at = { λ _ _ _. Unit {0} };

    fn find_in(&self, _rhs: &[u8]) -> Option<usize> {
        Some(0)
    }
}

/// A string of bytes to search for. The empty string occurs at every byte offset of a text.
///
/// # Complexity
/// A search tests the offsets in order: at most the length of the text times the length of the string.
#[derive(Clone, Copy, Debug)]
pub struct Needle<'a> {
    bytes: &'a [u8],
}

impl<'a> Needle<'a> {
    /// Returns a search for `bytes`.
    pub fn new(bytes: &'a [u8]) -> Needle<'a>
        ensures { needle_bytes result ≡ bytes.now }
    {
        Needle { bytes }
    }
}

impl ByteSearcher for Needle<'_> {
    ghost has_bytes_at = { λ needle. OccursAt (needle_bytes needle) };

    fn find_in(&self, rhs: &[u8]) -> Option<usize> {
        for i in 0..=rhs.len() {
            if rhs[i..].starts_with(self.bytes) {
                return Some(i);
            }
        }
        None
    }
}
