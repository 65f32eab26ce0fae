//! A text in which matches were replaced.

use super::texts::give_text;

/// A text in which matches were replaced, and how many were.
#[derive(Drop)]
pub struct ReplacedText {
    pub(crate) text: String,
    pub(crate) count: usize,
}

impl ReplacedText {
    ghost use Rattle.std.specs.Prelude.{◌≡◌};
    ghost use Rattle.regress_capi.specs.TextResults.{PlainResult};
    ghost use Rattle.regress_capi.specs.ReplacedResults.{bytes_of, count_of};

    /// Returns how many matches were replaced.
    pub fn count(&self) -> usize
        ensures { result ≡ count_of self.now }
    {
        self.count
    }

    /// Writes the text. Returns the status.
    ///
    /// # Errors
    /// The status is 3 if `out` is too small.
    pub fn write(&self, out: &mut [u8], needed: &mut usize) -> u32
        ensures { PlainResult (λ bytes. bytes ≡ bytes_of self.now) out.old result needed.new out.new }
    {
        give_text(&self.text, out, needed)
    }
}
