//! A list of bits.
ghost use Rattle.std.specs.Prelude.{◌≤◌, ◌<◌, ◌*◌, ◌^◌, length};

/// A list of bits, 64 in a word.
#[derive(Drop)]
pub struct Bits {
    /// The words. Bit `i` of the list is bit `i % 64` of word `i / 64`.
    pub(crate) words: Vec<u64>,
    /// The number of bits so far.
    pub(crate) len: usize,
    /// The number of words up to which they double where they grow.
    pub(crate) few: usize,
    /// The number of words for which there is room when they are not few.
    pub(crate) most: usize,
    ghost room: { len ≤ 64 * length words.items },
    ghost small: { length words.items < 2 ^ 57 },
}
