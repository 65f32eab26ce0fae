//! Why a call has no result.

use std::alloc::AllocError;

/// Why a call has no result.
#[derive(Clone, Copy, Debug)]
pub enum Fault {
    /// The test case is malformed.
    Line,
    /// An allocation failed, and what the call promises for that case holds.
    Memory,
    /// A promise is broken.
    Broken(Promise),
}

/// What a call promises, whatever its result is.
#[derive(Clone, Copy, Debug)]
pub enum Promise {
    /// A set is unchanged after a failed allocation.
    SetIsKept,
    /// A copy is equal.
    CopyIsEqual,
    /// Canonicalizing is idempotent.
    Idempotent,
    /// Unfolding a code point yields exactly the code points with the same canonical form.
    Unfolded,
    /// The closure of a set has exactly the code points whose canonical form is that of a member.
    Closed,
    /// The first bytes of an interval are those of its code points.
    FirstBytes,
    /// A search finds the first member.
    FoundFirst,
    /// A tree is well formed.
    WellFormed,
    /// A tree keeps its groups and their names.
    GroupsAreKept,
    /// A tree has not grown by more than its loops allow.
    WithinBound,
    /// An optimized tree is in normal form.
    Normal,
    /// An optimized tree is unchanged by further rewrites.
    Settled,
    /// A pass terminates.
    PassEnds,
    /// A class of ranges is accepted as a pattern.
    ClassIsRead,
    /// A syntax error has a text.
    FaultIsReported,
    /// A search that is out of steps has used all of them.
    StepsAreUsed,
    /// A matcher that may make no tables is not linear.
    NoTables,
}

impl From<AllocError> for Fault {
    fn from(_: AllocError) -> Fault {
        Fault::Memory
    }
}
