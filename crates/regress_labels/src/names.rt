//! The names of groups by their ids, as they are displayed.

use crate::symbols::quoted;
use regress_base::types::CaptureGroupID;
use regress_base::util::code_points;
use regress_tree::ir::Node;
use regress_tree::ir::held::body;
use std::alloc::{AllocError, Global};

/// The name of each named group at its id, quoted, and cut off if it is long.
pub type Names = Vec<Option<String>>;

/// Returns the names of the groups in a tree.
///
/// # Errors
/// Returns [`AllocError`] if an allocation fails.
pub fn group_names(alloc: Global, node: &Node) -> Result<Names, AllocError> {
    let mut names = Vec::new(alloc);
    gather(alloc, node, &mut names)?;
    Ok(names)
}

/// Collects the names of the groups in a tree.
///
/// It iterates over the right sides of alternatives: there may be as many nested ones as alternatives.
#[cycle(gather)]
fn gather(alloc: Global, node: &Node, names: &mut Names) -> Result<(), AllocError> {
    let mut node = node;
    loop {
        match node {
            Node::Cat(parts) => return gather_all(alloc, parts, names),
            Node::Alt(left, right) => {
                gather(alloc, left, names)?;
                node = right;
            }
            _ => {
                note(alloc, node, names)?;
                let Some(body) = body(node) else {
                    return Ok(());
                };
                node = body;
            }
        }
    }
}

#[cycle(gather)]
fn gather_all(alloc: Global, parts: &[Node], names: &mut Names) -> Result<(), AllocError> {
    for part in parts {
        gather(alloc, part, names)?;
    }
    Ok(())
}

/// Records the name of a node, if it is a named group.
fn note(alloc: Global, node: &Node, names: &mut Names) -> Result<(), AllocError> {
    if let Node::CaptureGroup {
        id,
        name: Some(name),
        ..
    } = node
    {
        put(*id, quoted(alloc, &code_points(alloc, name)?)?, names)?;
    }
    Ok(())
}

fn put(id: CaptureGroupID, name: String, names: &mut Names) -> Result<(), AllocError> {
    let id = usize::from(id);
    for _missing in names.len()..id + 1 {
        names.push(None)?;
    }
    if let Some(point) = names.get_mut(id) {
        *point = Some(name);
    }
    Ok(())
}

/// Returns the name of a group numbered from 1.
pub fn name_of(group: u32, names: &[Option<String>]) -> Option<&String> {
    if group == 0 {
        return None;
    }
    names.get((group - 1) as usize)?.as_ref()
}
