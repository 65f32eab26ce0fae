//! The captures of a run, and its backtrack stack.
ghost use Rattle.std.specs.Prelude.{◌≡◌, ◌∷◌, ◌++◌, ◌+◌, ◌-◌, ◌≤◌, [], ℕ, IfErr, IfOk, IfSome, MatchOption, None, length, min, replicate, slice_set, vec_capacity};
ghost use Rattle.regress_tree.specs.Repetition.{unset_from};
ghost use Rattle.regress_program.specs.Program.{ended, goto};
ghost use Rattle.regress_found.specs.declared.fault.MemoryFault.TheVariants.{TooMuchMemory};
ghost use Rattle.regress_backtrack.specs.Memory.{AreWithin, IsStackWithin, entry_count};
ghost use Rattle.regress_backtrack.specs.Machine.{Chosen, Closed, EndsIn, Kept, Ranged, Shortened, at, changes_of, groups_of, points, rewound, undone};

use regress_found::{MemoryFault, push_within};
use std::alloc::{AllocError, Global};
use std::mem;

/// Where a run is, or where it goes on after a failure.
#[derive(Clone, Copy)]
pub struct Place {
    /// The index of the instruction.
    pub pc: usize,
    /// Whether the innermost open iteration has advanced.
    pub moved: bool,
    /// The byte offset in the text.
    pub position: usize,
}

/// An entry of the backtrack stack: backtrack points, or a change that backtracking undoes.
#[derive(Clone, Copy)]
pub enum Entry {
    /// Backtrack points at consecutive positions, which are tried from the last one to the first one. At each but the
    /// first one the innermost open iteration has advanced.
    Points {
        /// The first one.
        first: Place,
        /// The position of the last one. If it is not after the first one, there is only the first one.
        last: usize,
    },
    /// A capture was changed.
    Capture {
        /// The id of the group.
        group: usize,
        /// Its capture before the change.
        before: Option<(usize, usize)>,
    },
    /// A group began.
    Began,
    /// A group ended.
    Ended {
        /// Where it had begun.
        from: usize,
    },
}

/// The number of bytes of an entry.
pub const ENTRY_BYTES: usize = 40;

const _: () = prove!(size_of::<Entry>() == ENTRY_BYTES);

/// What belongs to one run of a routine.
#[derive(Drop)]
pub struct Stack {
    /// Where the open groups began, the innermost last.
    pub begins: Vec<usize>,
    /// The backtrack points and the changes since the start of the run, the latest last.
    pub entries: Vec<Entry>,
}

impl Stack {
    /// Returns an empty stack.
    pub fn new(alloc: Global) -> Stack
        ensures within { (room : ℕ) → IsStackWithin room result }
    {
        Stack {
            begins: Vec::new(alloc),
            entries: Vec::new(alloc),
        }
    }

    /// Removes everything, and keeps the memory.
    pub fn clear(&mut self)
        ensures begins { self.new.begins.items ≡ [] }
        ensures entries { self.new.entries.items ≡ [] }
        ensures within { (room : ℕ) → IsStackWithin room self.old → IsStackWithin room self.new }
    {
        self.begins.clear();
        self.entries.clear();
    }
}

/// The captures, and the stack of the present run.
#[derive(Drop)]
pub struct Machine {
    /// The capture of each group by its id.
    pub captures: Vec<Option<(usize, usize)>>,
    /// The stack.
    pub stack: Stack,
    /// Stacks that are not in use, whose memory is kept.
    pub idle: Vec<Stack>,
}

impl Machine {
    /// Returns a machine without groups. It allocates nothing.
    pub fn new(alloc: Global) -> Machine
        ensures within { (room : ℕ) → AreWithin room result }
    {
        Machine {
            captures: Vec::new(alloc),
            stack: Stack::new(alloc),
            idle: Vec::new(alloc),
        }
    }

    /// Makes the captures those of `groups` groups, all unset, in the memory that they have if there is room for them.
    ///
    /// # Errors
    /// Returns [`AllocError`] if an allocation fails.
    pub fn unset_all(&mut self, groups: usize) -> Result<(), AllocError>
        ensures captures { IfOk result (λ _. self.new.captures.items ≡ replicate groups None) }
        ensures within { (room : ℕ) → AreWithin room self.old → AreWithin room self.new }
    {
        self.captures.clear();
        self.captures.resize(groups, None)?;
        Ok(())
    }

    /// Replaces the stack for the run of a lookaround. Returns the stack of the run around it.
    pub fn enter(&mut self, alloc: Global) -> Stack
        ensures stack { result ≡ self.old.stack }
        ensures captures { self.new.captures.items ≡ self.old.captures.items }
        ensures within { (room : ℕ) → AreWithin room self.old → AreWithin room self.new }
    {
        let inner = match self.idle.pop() {
            Some(stack) => stack,
            None => Stack::new(alloc),
        };
        mem::replace(&mut self.stack, inner)
    }

    /// Returns to the run around a lookaround. Of what is on the stack of the lookaround, only the changes of captures
    /// are kept, so that backtracking undoes them.
    ///
    /// # Errors
    /// Returns [`MemoryFault`] if an allocation fails, or if the stack would need room for more than `room` entries.
    pub fn leave(&mut self, outer: Stack, room: usize) -> Result<(), MemoryFault>
        ensures entries { IfOk result (λ _. self.new.stack.entries.items ≡ outer.entries.items ++ changes_of self.old.stack.entries.items) }
        ensures begins { IfOk result (λ _. self.new.stack.begins.items ≡ outer.begins.items) }
        ensures captures { IfOk result (λ _. self.new.captures.items ≡ self.old.captures.items) }
        ensures grows { IfOk result (λ _. entry_count self.new ≤ length outer.entries.items + entry_count self.old) }
        ensures within { AreWithin room self.old → IsStackWithin room outer → AreWithin room self.new }
        ensures too_much { IfErr result (λ fault. fault ≡ TooMuchMemory → room ≤ length outer.entries.items + entry_count self.old) }
    {
        let inner = mem::replace(&mut self.stack, outer);
        append_changes(&inner.entries, &mut self.stack.entries, room)?;
        self.idle.push(inner)?;
        Ok(())
    }

    /// Adds a backtrack point.
    ///
    /// # Errors
    /// Returns [`MemoryFault`] if an allocation fails, or if the stack would need room for more than `room` entries.
    pub fn choose(&mut self, place: Place, room: usize) -> Result<(), MemoryFault>
        ensures chosen { IfOk result (λ _. Chosen place self.old self.new) }
        ensures grows { IfOk result (λ _. entry_count self.new ≤ entry_count self.old + 1) }
        ensures within { AreWithin room self.old → AreWithin room self.new }
        ensures too_much { IfErr result (λ fault. fault ≡ TooMuchMemory → room ≤ entry_count self.old) }
    {
        let entry = Entry::Points {
            first: place,
            last: place.position,
        };
        push_within(&mut self.stack.entries, entry, room)
    }

    /// Adds a backtrack point, and one at each of the `more` positions after it, at which the innermost open iteration
    /// has advanced. The last one is tried first.
    ///
    /// # Preconditions
    /// The last position is at most `usize::MAX`.
    ///
    /// # Errors
    /// Returns [`MemoryFault`] if an allocation fails, or if the stack would need room for more than `room` entries.
    pub fn choose_range(
        &mut self,
        first: Place,
        more: usize,
        room: usize,
    ) -> Result<(), MemoryFault>
        requires { first.position + more ≤ usize.MAX }
        ensures ranged { IfOk result (λ _. Ranged first more self.old self.new) }
        ensures grows { IfOk result (λ _. entry_count self.new ≤ entry_count self.old + 1) }
        ensures within { AreWithin room self.old → AreWithin room self.new }
        ensures too_much { IfErr result (λ fault. fault ≡ TooMuchMemory → room ≤ entry_count self.old) }
    {
        let entry = Entry::Points {
            first,
            last: first.position + more,
        };
        push_within(&mut self.stack.entries, entry, room)
    }

    /// Backtracks: undoes the changes since the last backtrack point, removes it, and returns its place. Returns `None`
    /// if there is none.
    ///
    /// # Errors
    /// Returns [`AllocError`] if an allocation fails.
    pub fn backtrack(&mut self) -> Result<Option<Place>, AllocError>
        ensures points { IfOk result (λ to. MatchOption to (points self.old ≡ []) (λ p. points self.old ≡ at p (groups_of self.new) ∷ points self.new)) }
        ensures rewound { IfOk result (λ _. rewound self.new ≡ rewound self.old) }
        ensures all { IfOk result (λ to. MatchOption to (groups_of self.new ≡ rewound self.old) (λ _. Unit)) }
        ensures shrinks { entry_count self.new ≤ entry_count self.old }
        ensures within { (room : ℕ) → AreWithin room self.old → AreWithin room self.new }
    {
        while let Some(entry) = self.stack.entries.pop() {
            match entry {
                Entry::Points { first, last } => {
                    if last <= first.position {
                        return Ok(Some(first));
                    }
                    self.stack.entries.push_reserved(Entry::Points {
                        first,
                        last: last - 1,
                    });
                    return Ok(Some(Place {
                        pc: first.pc,
                        moved: true,
                        position: last,
                    }));
                }
                _ => self.undo(entry)?,
            }
        }
        Ok(None)
    }

    /// Returns the first place of the latest entry, and the number of positions after it, if it is backtrack points at more
    /// than one position.
    #[inline(always)]
    pub fn latest_range(&self) -> Option<(Place, usize)>
        ensures latest { IfSome result (λ range. EndsIn self.now range.0 range.1) }
        ensures within { IfSome result (λ range. range.0.position + range.1 ≤ usize.MAX) }
    {
        let (latest, _) = self.stack.entries.split_last()?;
        match *latest {
            Entry::Points { first, last } if last > first.position => {
                Some((first, last - first.position))
            }
            _ => None,
        }
    }

    /// Keeps of the latest entry, which is backtrack points, those at the place `first` and at the `more` positions after it.
    ///
    /// # Preconditions
    /// The latest entry is backtrack points from there on, at no fewer positions, and the last one is at most `usize::MAX`.
    #[inline(always)]
    pub fn keep_range(&mut self, first: Place, more: usize)
        requires latest { (all : ℕ) × EndsIn self.old first all × (more ≤ all) }
        requires within { first.position + more ≤ usize.MAX }
        ensures shortened { (all : ℕ) → EndsIn self.old first all → Shortened first all more self.old self.new }
        ensures count { entry_count self.new ≡ entry_count self.old }
        ensures within { (room : ℕ) → AreWithin room self.old → AreWithin room self.new }
    {
        let latest = self.stack.entries.len() - 1;
        self.stack.entries[latest] = Entry::Points {
            first,
            last: first.position + more,
        };
    }

    /// Undoes a change.
    ///
    /// # Errors
    /// Returns [`AllocError`] if an allocation fails.
    fn undo(&mut self, entry: Entry) -> Result<(), AllocError>
        ensures groups { IfOk result (λ _. groups_of self.new ≡ undone entry (groups_of self.old)) }
        ensures entries { self.new.stack.entries.items ≡ self.old.stack.entries.items }
        ensures within { (room : ℕ) → AreWithin room self.old → AreWithin room self.new }
    {
        match entry {
            Entry::Points { .. } => {}
            Entry::Capture { group, before } => {
                if group < self.captures.len() {
                    self.captures[group] = before;
                }
            }
            Entry::Began => {
                self.stack.begins.pop();
            }
            Entry::Ended { from } => self.stack.begins.push(from)?,
        }
        Ok(())
    }

    /// Sets the capture of a group, or with `None` unsets it. An id with no group changes nothing.
    ///
    /// # Errors
    /// Returns [`MemoryFault`] if an allocation fails, or if the stack would need room for more than `room` entries.
    fn set(
        &mut self,
        group: usize,
        span: Option<(usize, usize)>,
        room: usize,
    ) -> Result<(), MemoryFault>
        ensures captures { IfOk result (λ _. self.new.captures.items ≡ slice_set self.old.captures.items group span) }
        ensures begins { self.new.stack.begins.items ≡ self.old.stack.begins.items }
        ensures kept { IfOk result (λ _. Kept self.old self.new) }
        ensures grows { IfOk result (λ _. entry_count self.new ≤ entry_count self.old + 1) }
        ensures within { AreWithin room self.old → AreWithin room self.new }
        ensures too_much { IfErr result (λ fault. fault ≡ TooMuchMemory → room ≤ entry_count self.old) }
    {
        if group < self.captures.len() {
            let entry = Entry::Capture {
                group,
                before: self.captures[group],
            };
            push_within(&mut self.stack.entries, entry, room)?;
            self.captures[group] = span;
        }
        Ok(())
    }

    /// Unsets the groups `start` to `end - 1`.
    ///
    /// # Errors
    /// Returns [`MemoryFault`] if an allocation fails, or if the stack would need room for more than `room` entries.
    pub fn unset(&mut self, start: usize, end: usize, room: usize) -> Result<(), MemoryFault>
        ensures captures { IfOk result (λ _. self.new.captures.items ≡ unset_from 0 start end self.old.captures.items) }
        ensures begins { self.new.stack.begins.items ≡ self.old.stack.begins.items }
        ensures kept { IfOk result (λ _. Kept self.old self.new) }
        ensures grows { IfOk result (λ _. entry_count self.new ≤ entry_count self.old + (min end (length self.old.captures.items) - start)) }
        ensures within { AreWithin room self.old → AreWithin room self.new }
        ensures too_much { IfErr result (λ fault. fault ≡ TooMuchMemory →
            room ≤ entry_count self.old + (min end (length self.old.captures.items) - start)) }
    {
        let after = end.min(self.captures.len());
        for group in start..after {
            if self.captures[group].is_some() {
                self.set(group, None, room)?;
            }
        }
        Ok(())
    }

    /// Begins a capture group.
    ///
    /// # Errors
    /// Returns [`MemoryFault`] if an allocation fails, or if the stack would need room for more than `room` entries.
    pub fn begin_group(&mut self, position: usize, room: usize) -> Result<(), MemoryFault>
        ensures captures { self.new.captures.items ≡ self.old.captures.items }
        ensures begins { IfOk result (λ _. self.new.stack.begins.items ≡ self.old.stack.begins.items ++ position ∷ []) }
        ensures kept { IfOk result (λ _. Kept self.old self.new) }
        ensures grows { IfOk result (λ _. entry_count self.new ≤ entry_count self.old + 1) }
        ensures within { AreWithin room self.old → AreWithin room self.new }
        ensures too_much { IfErr result (λ fault. fault ≡ TooMuchMemory → room ≤ entry_count self.old) }
    {
        self.stack.begins.push(position)?;
        push_within(&mut self.stack.entries, Entry::Began, room)
    }

    /// Ends the innermost open group, and sets the capture of the group `id`.
    ///
    /// # Errors
    /// Returns [`MemoryFault`] if an allocation fails, or if the stack would need room for more than `room` entries.
    pub fn end_group(&mut self, id: u16, here: Place, room: usize) -> Result<(), MemoryFault>
        ensures groups { IfOk result (λ _. (next : ℕ) →
            goto next (at here (groups_of self.new)) ≡ ended id next (at here (groups_of self.old)) (groups_of self.old).begins) }
        ensures kept { IfOk result (λ _. Kept self.old self.new) }
        ensures grows { IfOk result (λ _. entry_count self.new ≤ entry_count self.old + 2) }
        ensures within { AreWithin room self.old → AreWithin room self.new }
        ensures too_much { IfErr result (λ fault. fault ≡ TooMuchMemory → room ≤ entry_count self.old + 1) }
    {
        let from = self.close(here.position, room)?;
        self.set(
            usize::from(id),
            Some((from.min(here.position), from.max(here.position))),
            room,
        )
    }

    /// Ends the innermost open group. Returns where it began, or `position` if no group is open.
    ///
    /// # Errors
    /// Returns [`MemoryFault`] if an allocation fails, or if the stack would need room for more than `room` entries.
    fn close(&mut self, position: usize, room: usize) -> Result<usize, MemoryFault>
        ensures closed { IfOk result (λ from. Closed position (groups_of self.old) (groups_of self.new) from) }
        ensures kept { IfOk result (λ _. Kept self.old self.new) }
        ensures grows { IfOk result (λ _. entry_count self.new ≤ entry_count self.old + 1) }
        ensures within { AreWithin room self.old → AreWithin room self.new }
        ensures too_much { IfErr result (λ fault. fault ≡ TooMuchMemory → room ≤ entry_count self.old) }
    {
        match self.stack.begins.pop() {
            Some(from) => {
                push_within(&mut self.stack.entries, Entry::Ended { from }, room)?;
                Ok(from)
            }
            None => Ok(position),
        }
    }
}

/// Appends those entries that are changes of captures.
///
/// # Errors
/// Returns [`MemoryFault`] if an allocation fails, or if the stack would need room for more than `room` entries.
fn append_changes(entries: &[Entry], to: &mut Vec<Entry>, room: usize) -> Result<(), MemoryFault>
    ensures items { IfOk result (λ _. to.new.items ≡ to.old.items ++ changes_of entries.now) }
    ensures grows { IfOk result (λ _. length to.new.items ≤ length to.old.items + length entries.now) }
    ensures within { vec_capacity to.old ≤ room → vec_capacity to.new ≤ room }
    ensures too_much { IfErr result (λ fault. fault ≡ TooMuchMemory → room ≤ length to.old.items + length entries.now) }
{
    for entry in entries {
        if let Entry::Capture { .. } = entry {
            push_within(to, *entry, room)?;
        }
    }
    Ok(())
}
