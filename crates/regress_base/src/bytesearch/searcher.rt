//! The contracts of byte sets and of searches.

ghost use Rattle.std.specs.Prelude.{◌≡◌, ℕ, ◌≤◌, Bool, false, List, length};
ghost use Rattle.regress_base.specs.Positions.{IsLeast, IsMemberAt};

use super::find::find_byte;

/// Something to search for in a text: a member of a byte set, or a string.
pub trait ByteSearcher {
    // Whether it occurs in the text at the byte offset.
    ghost has_bytes_at: { Self → List ℕ → ℕ → Type 0 };

    /// Returns the least byte offset of `rhs`, from 0 to its length, at which this occurs, or `None` if it occurs
    /// nowhere.
    ///
    /// # Complexity
    /// A byte set tests each byte up to there once.
    ///
    /// # Examples
    /// ```
    /// let needle = Needle::new(b"na");
    /// assert_eq!(rt; needle.find_in(b"banana"), Some(2));
    /// assert_eq!(rt; needle.find_in(b"band"), None);
    /// ```
    fn find_in(&self, rhs: &[u8]) -> Option<usize>
        ensures { IsLeast (has_bytes_at self.now rhs.now) (length rhs.now) result };
}

/// A set of bytes.
pub trait ByteSet {
    // Whether a number is a member.
    ghost members: { Self → ℕ → Bool };

    /// Returns whether `b` is a member.
    ///
    /// # Complexity
    /// Constant.
    fn contains(&self, b: u8) -> bool
        ensures { result ≡ members self.now b };

    // Every member is a byte.
    ghost bytes_only: { (s : Self) (b : ℕ) → 256 ≤ b → members s b ≡ false };
}

/// A set of a few bytes, given by an array, which is searched linearly.
pub trait SmallArraySet: Copy {
    // Whether a number is a member.
    ghost members: { Self → ℕ → Bool };

    /// Returns whether `b` is a member.
    ///
    /// # Complexity
    /// Linear in the length of the array.
    fn contains(self, b: u8) -> bool
        ensures { result ≡ members self b };

    /// Returns the least index of `rhs` whose byte is a member, or `None`.
    ///
    /// # Complexity
    /// Linear in the number of bytes up to there.
    fn find_in(self, rhs: &[u8]) -> Option<usize>
        ensures { IsLeast (IsMemberAt (members self) rhs.now) (length rhs.now) result }
    {
        find_byte(rhs, |b| self.contains(b))
    }

    // Every member is a byte.
    ghost bytes_only: { (s : Self) (b : ℕ) → 256 ≤ b → members s b ≡ false };
}
