//! Characters in a row that a leaf matches.
ghost use Rattle.std.specs.Prelude.{◌≡◌, ◌≤◌, ◌<◌, ◌+◌, ◌^◌, List, Some, false, length, slice_get, true};
ghost use Rattle.regress_leaves.specs.Subject.{Subject, subject};
ghost use Rattle.regress_leaves.specs.declared.test.Test.{Test as Leaf};
ghost use Rattle.regress_tree.specs.Reading.{direction_if};
ghost use Rattle.regress_tree.specs.Tree.{tree};
ghost use Rattle.regress_tables.specs.Runs.{AreRuns, IsRun, Repeats, bytes_on};

use crate::evaluate::Input;
use regress_leaves::test::Test;
use regress_program::leaf::bytes_ahead;

/// The number of runs that are kept.
const SLOTS: usize = 16;

/// A number of ASCII characters in a row that a leaf matches, from a position in the direction of matching.
#[derive(Clone, Copy)]
pub struct Run {
    /// The index of the leaf.
    pub leaf: usize,
    /// Where it begins.
    pub position: usize,
    /// The number of characters, which may be less than all that match.
    pub length: usize,
}

/// The last runs that were found, of leaves with different slots.
#[derive(Drop)]
pub struct Runs {
    /// A run for each slot.
    pub(crate) slots: [Run; SLOTS],
}

impl Runs {
    /// Returns empty runs.
    pub(crate) fn new() -> Runs
        ensures { (u : Subject) (tests : List Leaf) → AreRuns u tests result }
    {
        let none = Run {
            leaf: 0,
            position: 0,
            length: 0,
        };
        Runs {
            slots: [none; SLOTS],
        }
    }

    /// Returns the number of characters from a position that a leaf is known to match, each of one byte.
    pub(crate) fn known_at(&self, leaf: usize, position: usize) -> usize
        ensures { (u : Subject) (tests : List Leaf) → AreRuns u tests self.now → (test : Leaf) → slice_get tests leaf ≡ Some test →
            Repeats u (tree test.node) position result }
    {
        let run = self.slots[leaf % SLOTS];
        if run.leaf == leaf && run.position == position {
            run.length
        } else {
            0
        }
    }

    /// Returns the number of characters from a position that a leaf matches, each of one byte, as far as that follows from
    /// the last run of the leaf and the next character.
    pub(crate) fn length_at(
        &mut self,
        input: Input<'_, '_>,
        test: &Test,
        leaf: usize,
        position: usize,
    ) -> usize
        requires right { AreRuns (subject input.rules input.text.now) input.code.now.program.leaves.items self.old }
        requires test { slice_get input.code.now.program.leaves.items leaf ≡ Some test.now }
        requires position { position ≤ length input.text.now }
        ensures right { AreRuns (subject input.entry.rules input.entry.text.now) input.entry.code.now.program.leaves.items self.new }
        ensures run { Repeats (subject input.entry.rules input.entry.text.now) (tree test.now.node) position result }
    {
        let slot = leaf % SLOTS;
        let run = self.slots[slot];
        if run.leaf == leaf && run.position == position {
            return run.length;
        }
        let length = next_length(input, run, test, leaf, position);
        self.slots[slot] = Run {
            leaf,
            position,
            length,
        };
        length
    }
}

/// Returns the length of the run of a leaf from a position, by the next character and the run that was found last.
fn next_length(input: Input<'_, '_>, run: Run, test: &Test, leaf: usize, position: usize) -> usize
    requires right { IsRun (subject input.rules input.text.now) input.code.now.program.leaves.items run }
    requires test { slice_get input.code.now.program.leaves.items leaf ≡ Some test.now }
    requires position { position ≤ length input.text.now }
    ensures { Repeats (subject input.entry.rules input.entry.text.now) (tree test.now.node) position result }
{
    let backwards = input.rules.backwards;
    if bytes_ahead(input.text, backwards, position) == 0 {
        return 0;
    }
    let next = bytes_on(backwards, position, 1);
    let Some(Some(to)) = test.start.ascii_end(input.text, backwards, position) else {
        return 0;
    };
    if to != next {
        return 0;
    }
    if run.leaf != leaf || run.position != to || run.length == usize::MAX {
        return 1;
    }
    run.length + 1
}

/// Returns the position after a number of bytes, up to where the text ends.
pub(crate) fn bytes_on(backwards: bool, position: usize, count: usize) -> usize
    requires forwards { backwards ≡ false → position + count < 2 ^ 64 }
    requires backwards { backwards ≡ true → count ≤ position }
    ensures { result ≡ bytes_on (direction_if backwards) position count }
{
    if backwards {
        position - count
    } else {
        position + count
    }
}
