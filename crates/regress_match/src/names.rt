//! The capture groups of a pattern.
ghost use Rattle.std.specs.Prelude.{◌≡◌, ◌++◌, ◌∷◌, [], IfOk, map, option_map, string_bytes};
ghost use Rattle.std.specs.List.Sorted.{IsNonDecreasingBy, IsPermutation};
ghost use Rattle.regress_tree.specs.Gathered.{own_group};
ghost use Rattle.regress_tree.specs.Tree.{tree};
ghost use Rattle.regress_tree.specs.WellFormed.{captures};
ghost use Rattle.regress_match.specs.Listing.{Lists};
ghost use Rattle.regress_match.specs.Pattern.{capture_of};

use regress_base::types::{CaptureGroupID, CaptureGroupName};
use regress_tree::ir::{Node, Regex, Walk, walk};
use std::alloc::{AllocError, Global};

/// A capture group of a pattern: its id, from 0, and its name.
#[derive(Debug, Drop)]
pub struct Group {
    /// The id, from 0: one less than the number of the group.
    pub id: CaptureGroupID,
    /// The name, which is not empty, or `None` for a group without one. Several groups in different alternatives may
    /// share a name.
    pub name: Option<CaptureGroupName>,
}

/// Returns the capture groups of a pattern in the order of their ids.
///
/// # Errors
/// Returns [`AllocError`] if an allocation fails. Nothing is changed.
pub fn groups(alloc: Global, regex: &Regex) -> Result<Vec<Group>, AllocError>
    ensures all { IfOk result (λ groups. IsPermutation (captures (tree regex.now.node)) (map capture_of groups.items)) }
    ensures sorted { IfOk result (λ groups. IsNonDecreasingBy (λ group. group.id) groups.items) }
{
    let mut groups = listed(alloc, &regex.node)?;
    groups.sort_by_key(|group| group.id)?;
    Ok(groups)
}

/// Returns the groups of a tree, each before those inside it.
fn listed(alloc: Global, node: &Node) -> Result<Vec<Group>, AllocError>
    ensures { IfOk result (λ groups. map capture_of groups.items ≡ captures (tree node.now)) }
{
    let mut listing = Listing {
        groups: Vec::new(alloc),
        done: Ok(()),
    };
    let mut visit = |node: &Node, _: &mut Walk| listing.visit(alloc, node);
    walk(false, false, node, &mut visit);
    listing.done?;
    Ok(listing.groups)
}

/// The groups in the order of a walk, until an allocation fails.
#[derive(Drop)]
struct Listing {
    groups: Vec<Group>,
    done: Result<(), AllocError>,
}

impl Listing {
    /// Appends the node if it is a capture group.
    fn visit(&mut self, alloc: Global, node: &Node)
        ensures { Lists self.old self.new (own_group (tree node.now)) }
    {
        if let Node::CaptureGroup { id, name, .. } = node {
            if self.done.is_ok() {
                self.done = self.add(alloc, *id, name);
            }
        }
    }

    fn add(
        &mut self,
        alloc: Global,
        id: CaptureGroupID,
        name: &Option<CaptureGroupName>,
    ) -> Result<(), AllocError>
        ensures groups { IfOk result (λ _. map capture_of self.new.groups.items
            ≡ map capture_of self.old.groups.items ++ record { id = id; name = option_map string_bytes name.now } ∷ []) }
        ensures done { self.new.done ≡ self.old.done }
    {
        let name = copy_name(alloc, name)?;
        self.groups.push(Group { id, name })?;
        Ok(())
    }
}

fn copy_name(
    alloc: Global,
    name: &Option<CaptureGroupName>,
) -> Result<Option<CaptureGroupName>, AllocError>
    ensures { IfOk result (λ copy. option_map string_bytes copy ≡ option_map string_bytes name.now) }
{
    match name {
        Some(name) => Ok(Some(String::from_str(alloc, name)?)),
        None => Ok(None),
    }
}
