//! The number of capture groups of a pattern.
ghost use Rattle.std.specs.Prelude.{◌≡◌, ◌+◌, length, min};
ghost use Rattle.regress_tree.specs.Gathered.{own_group};
ghost use Rattle.regress_tree.specs.Tree.{tree};
ghost use Rattle.regress_tree.specs.WellFormed.{captures};

use regress_tree::ir::{Node, Walk, walk};

/// A counter of capture groups.
#[derive(Drop)]
struct Counter {
    groups: usize,
}

impl Counter {
    /// Counts the node if it is a capture group.
    fn visit(&mut self, node: &Node)
        ensures { self.new.groups ≡ min (self.old.groups + length (own_group (tree node.now))) usize.MAX }
    {
        let groups = self.groups;
        if let Node::CaptureGroup { .. } = node {
            self.groups = groups.saturating_add(1);
        }
    }
}

/// Returns the number of capture groups of a tree, at most `usize::MAX`.
///
/// # Complexity
/// Linear in the number of nodes of the tree.
pub(crate) fn group_count(node: &Node) -> usize
    ensures { result ≡ min (length (captures (tree node.now))) usize.MAX }
{
    let mut counter = Counter { groups: 0 };
    let mut visit = |node: &Node, _: &mut Walk| counter.visit(node);
    walk(false, false, node, &mut visit);
    counter.groups
}
