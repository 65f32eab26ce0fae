//! How loops are compiled.
ghost use Rattle.std.specs.Prelude.{◌≡◌, ◌≤◌, ◌<◌, ◌+◌, ◌-◌, nat_lt, true};
ghost use Rattle.regress_program.specs.Size.{is_bounded, is_copied, room_within, size_of_exactly, stored_of};

/// The largest number of characters that one instruction matches if counts are bounded.
const MOST: usize = 64;

/// The largest number of iterations that are stored if the others are copies.
pub(crate) const STORED: usize = 2;

/// How loops are compiled.
#[derive(Clone, Copy)]
pub enum Counts {
    /// An instruction matches at most 64 characters, so that a step takes constant time. Each iteration is stored.
    Bounded,
    /// An instruction matches as many characters as the pattern says. Each iteration is stored.
    Unbounded,
    /// The same, but of a number of iterations at most two are stored. The others are copies.
    Copied,
}

impl Counts {
    /// Returns how many of `count` characters one instruction matches: at least one, if there are any.
    pub(crate) fn part_of(self, count: usize) -> usize
        ensures within { result ≤ count }
        ensures some { 0 < count → 0 < result }
        ensures bounded { is_bounded self ≡ true → result ≤ 64 }
        ensures size { 0 < count → size_of_exactly self count ≡ size_of_exactly self (count - result) + 1 }
    {
        match self {
            Counts::Bounded => count.min(MOST),
            Counts::Unbounded | Counts::Copied => count,
        }
    }

    /// Returns whether iterations are copied.
    pub(crate) fn is_copied(self) -> bool
        ensures { result ≡ is_copied self }
    {
        match self {
            Counts::Copied => true,
            Counts::Bounded | Counts::Unbounded => false,
        }
    }

    /// Returns whether some of `count` iterations are copies.
    pub(crate) fn has_copies(self, count: usize) -> bool
        ensures { result ≡ nat_lt (stored_of self count) count }
    {
        count > STORED && self.is_copied()
    }

    /// Returns how many instructions there may be, copies included, where at most `limit` are stored.
    pub(crate) fn room(self, limit: usize) -> usize
        ensures { result ≡ room_within self limit }
    {
        match self {
            Counts::Copied => usize::MAX,
            Counts::Bounded | Counts::Unbounded => limit,
        }
    }
}
