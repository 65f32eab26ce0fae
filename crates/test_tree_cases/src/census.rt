//! The contents of a tree, collected by a walk.

use regress_base::types::CaptureGroupName;
use regress_tree::ir::{Node, Walk, walk};
use std::alloc::AllocError;
use std::fmt::Write;
use test_notation::{Call, Fault};

/// The number of units that unrolling may add for a loop with a required iteration.
const UNITS_PER_LOOP: usize = 6401;

/// The contents of a tree. Numbers saturate.
#[derive(Drop)]
pub struct Census {
    /// The size: one for each node, one more for each byte of a byte sequence, and five in all for a `Char`.
    pub units: usize,
    /// The number of `Loop` nodes.
    pub loops: usize,
    /// The number of these loops that have a required iteration.
    taken: usize,
    /// The ids and names of the capture groups, each before those inside it.
    groups: String,
}

impl Census {
    /// Collects the contents of a tree.
    pub fn of(call: &mut Call, node: &Node) -> Census {
        let mut census = Census {
            units: 0,
            loops: 0,
            taken: 0,
            groups: String::new(call.alloc()),
        };
        let mut out_of_memory = false;
        walk(
            false,
            false,
            node,
            &mut |n: &Node, _w: &mut Walk| {
                if census.count(n).is_err() {
                    out_of_memory = true;
                }
            },
        );
        if out_of_memory {
            call.fail(Fault::Memory);
        }
        census
    }

    fn count(&mut self, node: &Node) -> Result<(), AllocError> {
        let units = match node {
            Node::ByteSequence(bytes) => bytes.len().saturating_add(1),
            Node::Char { .. } => 5,
            _ => 1,
        };
        self.units = self.units.saturating_add(units);
        match node {
            Node::Loop { quant, .. } => {
                self.loops = self.loops.saturating_add(1);
                if quant.min > 0 {
                    self.taken = self.taken.saturating_add(1);
                }
                Ok(())
            }
            Node::CaptureGroup { id, name, .. } => self.list(*id, name),
            _ => Ok(()),
        }
    }

    fn list(&mut self, id: u16, name: &Option<CaptureGroupName>) -> Result<(), AllocError> {
        let name = match name {
            Some(name) => name.as_str(),
            None => "",
        };
        write!(self.groups, "{id}<{name}>").map_err(|_| AllocError)
    }

    /// Returns whether this tree has the groups, with their names and in the order, of the tree before the rewrite.
    pub(crate) fn has_groups_of(&self, before: &Census) -> bool {
        self.groups.as_str() == before.groups.as_str()
    }

    /// Returns whether this tree has grown, from the one before the rewrite, by no more than its loops allow.
    pub(crate) fn is_within_bound_of(&self, before: &Census) -> bool {
        let more = before.taken.saturating_mul(UNITS_PER_LOOP);
        self.units <= before.units.saturating_add(more)
    }
}
