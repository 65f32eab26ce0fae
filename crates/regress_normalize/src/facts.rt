//! Facts about parts in normal form.
ghost use Rattle.std.specs.Prelude.{◌≡◌, not, ◌&&◌, OnOk};
ghost use Rattle.regress_tree.specs.Tree.{Tree, Trees, no_trees, more_trees, append_trees};
ghost use Rattle.regress_tree.specs.Shapes.{is_cat, is_within, max_body_charge, max_body_nesting};
ghost use Rattle.regress_normalize.specs.PartFacts.{HasFacts, HasListFacts};

use regress_rewrite::unroll_loops::{MAX_COPIED_SIZE, MAX_NESTING};
use std::alloc::AllocError;
use std::cmp;

/// Facts about a part in normal form, so that its nodes need not be traversed again.
#[derive(Clone, Copy)]
pub struct PartFacts {
    /// The charge: one for each node, and one more for each byte of a `ByteSequence`.
    pub charge: usize,
    /// The nesting depth of nodes, where a leaf has depth 1.
    pub nesting: usize,
    /// Whether the part is or contains a capture group.
    pub has_group: bool,
    /// Whether the part is or contains a loop of either kind.
    pub has_loop: bool,
    /// Whether the part is or contains a `StringSet`.
    pub has_string_set: bool,
    /// Whether the part is a set or a bracket that accepts nothing.
    pub always_fails: bool,
    /// Whether the part was seen to match exactly one character before literals were formed. A loop around it becomes a
    /// `Loop1CharBody`.
    pub was_one_character: bool,
}

impl PartFacts {
    /// Returns whether the part is small enough to be copied for each iteration of a loop around it.
    pub fn may_be_copied(&self) -> bool
        ensures { result ≡ is_within max_body_nesting max_body_charge self.now.has_loop self.now.has_string_set self.now.charge self.now.nesting }
    {
        !self.has_loop
            && !self.has_string_set
            && self.charge <= MAX_COPIED_SIZE
            && self.nesting <= MAX_NESTING
    }
}

/// Facts about a list of parts in normal form. A part that is a `Cat` counts as its parts.
#[derive(Drop)]
pub struct ListFacts {
    /// The charge of all parts together.
    pub charge: usize,
    /// The nesting depth of the deepest part, and 1 if there is none.
    pub nesting: usize,
    /// Whether one of the parts has a capture group.
    pub has_group: bool,
    /// Whether one of the parts has a loop.
    pub has_loop: bool,
    /// Whether one of the parts has a `StringSet`.
    pub has_string_set: bool,
    /// Whether one of the parts always fails.
    pub some_fails: bool,
}

impl ListFacts {
    /// Returns the facts of an empty list.
    pub fn none() -> ListFacts
        ensures { HasListFacts result no_trees }
    {
        ListFacts {
            charge: 0,
            nesting: 1,
            has_group: false,
            has_loop: false,
            has_string_set: false,
            some_fails: false,
        }
    }

    /// Adds the facts of one more part at the end; `cat` states whether it is a `Cat`.
    ///
    /// # Errors
    /// Returns [`AllocError`] if the charge exceeds `usize::MAX`, which no tree in memory has.
    pub fn add(&mut self, part: &PartFacts, cat: bool) -> Result<(), AllocError>
        ensures { (ts : Trees) (t : Tree) → HasListFacts self.old ts → HasFacts part.now t → cat ≡ is_cat t →
            OnOk result (HasListFacts self.new (append_trees ts (more_trees t no_trees))) }
    {
        // The parts of a `Cat` are counted without the `Cat`.
        let around = usize::from(cat);
        self.charge = self
            .charge
            .checked_add(part.charge.saturating_sub(around))
            .ok_or(AllocError)?;
        self.nesting = cmp::max(self.nesting, part.nesting.saturating_sub(around));
        self.has_group |= part.has_group;
        self.has_loop |= part.has_loop;
        self.has_string_set |= part.has_string_set;
        self.some_fails |= part.always_fails;
        Ok(())
    }

    /// Returns whether a `Cat` of the parts is replaced by a node that always fails: a part does, and there is no
    /// capture group.
    pub fn always_fails(&self) -> bool
        ensures { result ≡ (self.now.some_fails && not self.now.has_group) }
    {
        self.some_fails && !self.has_group
    }
}
