//! The state of capture groups and loops during a match.
ghost use Rattle.std.specs.Prelude.{◌≡◌, ◌↔◌, None, Some, IsTrue, IsSome, IfSome};

use std::ops::Range;

/// The two ends of a capture group, each set or unset. In the forward direction the start is set first, in the backward
/// direction the end.
#[derive(Clone, Copy, Debug)]
pub struct GroupData<P: Copy> {
    /// The position at which the group begins, if set.
    pub start: Option<P>,
    /// The position at which the group ends, if set.
    pub end: Option<P>,
}

impl<P: Copy> GroupData<P> {
    /// Returns a group with neither end set.
    pub fn new() -> GroupData<P>
        ensures start { result.start ≡ None }
        ensures end { result.end ≡ None }
    {
        GroupData {
            start: None,
            end: None,
        }
    }

    /// Returns whether the start is set.
    pub fn start_matched(&self) -> bool
        ensures { IsTrue result ↔ IsSome self.now.start }
    {
        self.start.is_some()
    }

    /// Returns whether the end is set.
    pub fn end_matched(&self) -> bool
        ensures { IsTrue result ↔ IsSome self.now.end }
    {
        self.end.is_some()
    }

    /// Returns the span from the start to the end, or `None` if either is unset.
    pub fn as_range(&self) -> Option<Range<P>>
        ensures both { IsSome result ↔ (IsSome self.now.start × IsSome self.now.end) }
        ensures ends { IfSome result (λ range.
            (self.now.start ≡ Some range.start) × (self.now.end ≡ Some range.end)) }
    {
        match (self.start, self.end) {
            (Some(start), Some(end)) => Some(start..end),
            _ => None,
        }
    }

    /// Makes both ends unset.
    pub fn reset(&mut self)
        ensures start { self.new.start ≡ None }
        ensures end { self.new.end ≡ None }
    {
        self.start = None;
        self.end = None;
    }
}

/// The state of a loop: the number of iterations so far, and the position at which the last one began.
#[derive(Clone, Copy, Debug)]
pub struct LoopData<P: Copy> {
    /// The number of iterations so far.
    pub iters: usize,
    /// The position at which the last iteration began.
    pub entry: P,
}

impl<P: Copy> LoopData<P> {
    /// Returns a loop at position `entry` with no iteration so far.
    pub fn new(entry: P) -> LoopData<P>
        ensures iters { result.iters ≡ 0 }
        ensures entry { result.entry ≡ entry }
    {
        LoopData { iters: 0, entry }
    }
}
