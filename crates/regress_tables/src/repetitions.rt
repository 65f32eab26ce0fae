//! Repetitions of characters: what instructions match that match an exact number of characters.
ghost use Rattle.std.specs.Prelude.{◌≡◌, vec_len};

/// An exact number of characters that each match a leaf.
#[derive(Clone, Copy)]
pub struct Repetition {
    /// The index of the leaf.
    pub leaf: usize,
    /// The number of characters.
    pub count: usize,
}

/// An instruction that matches a repetition.
#[derive(Clone, Copy)]
pub struct Repeated {
    /// The index of the repetition.
    pub repetition: usize,
    /// The instruction after it.
    pub next: usize,
}

/// The repetitions of a routine. Several instructions may match the same.
#[derive(Drop)]
pub struct Repetitions {
    /// Each repetition once.
    pub(crate) distinct: Vec<Repetition>,
    /// For the last instructions that look at the text, which repetition they match. The others match none.
    pub(crate) uses: Vec<Repeated>,
    /// For each repetition where it ends, from the last position: 1 more than the number of the row there, or 0 if it fails.
    pub(crate) ends: Vec<usize>,
    /// The digits of what these instructions lead to, in order, from any position from where the repetitions end so, if that is known.
    pub(crate) code: Option<u64>,
    ghost long: { vec_len ends ≡ vec_len distinct },
}
