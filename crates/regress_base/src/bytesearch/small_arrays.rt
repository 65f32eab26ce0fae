//! Arrays of a few bytes as sets: the order of the bytes and repeated bytes have no meaning.

ghost use Rattle.std.specs.Prelude.{◌≡◌};
ghost use Rattle.regress_base.specs.ByteSets.{bytes_of};
ghost use Rattle.regress_base.specs.Positions.{IsMemberAt};
ghost use Rattle.regress_base.specs.ByteLemmas.{bytes_of-bytes_only};

use super::find::find_byte;
use super::searcher::{ByteSearcher, SmallArraySet};

impl SmallArraySet for [u8; 2] {
    ghost members = { bytes_of };

    fn contains(self, b: u8) -> bool {
        b == self[0] || b == self[1]
    }

    ghost bytes_only = { bytes_of-bytes_only };
}

impl SmallArraySet for [u8; 3] {
    ghost members = { bytes_of };

    fn contains(self, b: u8) -> bool {
        b == self[0] || b == self[1] || b == self[2]
    }

    ghost bytes_only = { bytes_of-bytes_only };
}

impl SmallArraySet for [u8; 4] {
    ghost members = { bytes_of };

    fn contains(self, b: u8) -> bool {
        b == self[0] || b == self[1] || b == self[2] || b == self[3]
    }

    ghost bytes_only = { bytes_of-bytes_only };
}

impl ByteSearcher for [u8; 1] {
    ghost has_bytes_at = { λ set. IsMemberAt (bytes_of set) };

    fn find_in(&self, rhs: &[u8]) -> Option<usize> {
        find_byte(rhs, |b| b == self[0])
    }
}

impl ByteSearcher for [u8; 2] {
    ghost has_bytes_at = { λ set. IsMemberAt (bytes_of set) };

    fn find_in(&self, rhs: &[u8]) -> Option<usize> {
        <[u8; 2] as SmallArraySet>::find_in(*self, rhs)
    }
}

impl ByteSearcher for [u8; 3] {
    ghost has_bytes_at = { λ set. IsMemberAt (bytes_of set) };

    fn find_in(&self, rhs: &[u8]) -> Option<usize> {
        <[u8; 3] as SmallArraySet>::find_in(*self, rhs)
    }
}

/// A small array as a set to search for.
#[derive(Clone, Copy, Debug)]
pub struct ByteArraySet<S: SmallArraySet>(pub S);

impl<S: SmallArraySet> ByteArraySet<S> {
    /// Returns whether `b` is in the array.
    ///
    /// # Complexity
    /// Linear in the length of the array.
    pub fn contains(self, b: u8) -> bool
        ensures { result ≡ S.members self.0 b }
    {
        self.0.contains(b)
    }
}

impl<S: SmallArraySet> ByteSearcher for ByteArraySet<S> {
    ghost has_bytes_at = { λ set. IsMemberAt (S.members set.0) };

    fn find_in(&self, rhs: &[u8]) -> Option<usize> {
        self.0.find_in(rhs)
    }
}
