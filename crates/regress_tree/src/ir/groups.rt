//! The capture groups of a tree, as one pass over it collects them.
ghost use Rattle.std.specs.Prelude.{◌≡◌, ℕ, ◌==◌, ◌||◌, false, not};

use regress_base::bytesearch::ByteBitmap;
use regress_base::types::CaptureGroupID;

/// The number of ids in a page: one for each value of a byte.
const PAGE: u16 = 256;

/// A set of capture group ids: id `k` is bit `k % 256` of page `k / 256`. It takes 8 KiB.
#[derive(Drop)]
pub struct GroupIds {
    pages: [ByteBitmap; 256],
}

impl GroupIds {
    ghost use Rattle.regress_tree.specs.Survey.{holds};

    /// Returns the empty set.
    pub fn new() -> GroupIds
        ensures { (k : ℕ) → holds result k ≡ false }
    {
        GroupIds {
            pages: [ByteBitmap::default(); 256],
        }
    }

    /// Adds an id, and returns whether it is new.
    pub fn insert(&mut self, id: CaptureGroupID) -> bool
        ensures new { result ≡ not (holds self.old id) }
        ensures after { (k : ℕ) → holds self.new k ≡ ((k == id) || holds self.old k) }
    {
        let page = (id / PAGE) as usize;
        let member = (id % PAGE) as u8;
        let was_there = self.pages[page].contains(member);
        self.pages[page].set(member);
        !was_there
    }
}

/// A summary of the capture groups of a part of a tree, whose ids differ, and of its back references.
#[derive(Clone, Copy)]
pub struct Tally {
    /// The number of groups, at most `u32::MAX`.
    pub count: u32,
    /// The least id, or 65,536 if there is none.
    pub least: u32,
    /// One more than the greatest id, or 0 if there is none.
    pub past: u32,
    /// The greatest group number of a back reference, 1-based, or 0 if there is none.
    pub reference: u32,
}

impl Tally {
    ghost use Rattle.std.specs.Prelude.{◌≡◌, []};
    ghost use Rattle.regress_tree.specs.Survey.{IsTally, joined, one, fill};

    /// Returns the summary of a part without groups, with this greatest reference, or 0 for none.
    pub fn none(reference: u32) -> Tally
        ensures { IsTally result [] reference }
    {
        Tally {
            count: 0,
            least: u32::from(u16::MAX) + 1,
            past: 0,
            reference,
        }
    }

    /// Returns the summary of two parts together.
    pub fn join(self, other: Tally) -> Tally
        ensures { result ≡ joined self other }
    {
        Tally {
            count: self.count.saturating_add(other.count),
            least: self.least.min(other.least),
            past: self.past.max(other.past),
            reference: self.reference.max(other.reference),
        }
    }

    /// Returns the summary with one more group.
    pub fn with(self, id: CaptureGroupID) -> Tally
        ensures { result ≡ joined (one id) self }
    {
        let id = u32::from(id);
        Tally {
            count: self.count.saturating_add(1),
            least: self.least.min(id),
            past: self.past.max(id + 1),
            reference: self.reference,
        }
    }

    /// Returns whether the ids, which differ, are exactly those of the half-open range from `start` to `end`: none is
    /// outside, and their number is that of the range.
    pub fn are(self, start: u32, end: u32) -> bool
        ensures { result ≡ fill start end self }
    {
        start <= self.least && self.past <= end && self.count == end.saturating_sub(start)
    }
}
