//! Which nodes of a tree are assertions that can never hold.
ghost use Rattle.std.specs.Prelude.{◌≡◌, ◌++◌, false, drop, IfOk, OnOk};
ghost use Rattle.regress_tree.specs.Tree.{tree, trees};
ghost use Rattle.regress_assertions.specs.Holding.{unknown};
ghost use Rattle.regress_assertions.specs.Marks.{first_or, marks_in, marks_of_list};

use crate::place::Place;
use regress_tree::ir::Node;
use std::alloc::{AllocError, Global};

/// Returns for each node of a tree in postorder, as of `nodes_in_postorder`, whether it is an assertion that never holds,
/// since of what is directly before or after it all first characters exclude that: `$` before a letter, `\b` between two
/// letters, or `(?!a)` before an `a`.
///
/// # Errors
/// Returns [`AllocError`] if an allocation fails.
///
/// # Complexity
/// Linear in the number of nodes, where what is first or last in groups and alternatives counts once more for each of
/// these around it. The depth of recursion is the nesting depth, and each alternative adds one.
pub fn impossible_assertions(alloc: Global, root: &Node) -> Result<Vec<bool>, AllocError>
    ensures { IfOk result (λ marks. marks.items ≡ marks_in false unknown unknown (tree root.now)) }
{
    let empty = Node::Empty;
    let mut marks = Vec::new(alloc);
    mark(root, Place::unknown(false, &empty), &mut marks)?;
    Ok(marks)
}

/// Appends the marks of a node.
#[cycle(mark)]
fn mark(node: &Node, place: Place<'_>, marks: &mut Vec<bool>) -> Result<(), AllocError>
    ensures { OnOk result (marks.new.items ≡ marks.old.items ++ marks_in place.entry.backwards (tree place.entry.previous.now) (tree place.entry.next.now) (tree node.now)) }
{
    let empty = Node::Empty;
    match node {
        Node::Cat(parts) => mark_all(parts, place, marks)?,
        Node::Alt(left, right) => {
            mark(left, place, marks)?;
            mark(right, place, marks)?;
        }
        Node::CaptureGroup { contents, .. } => mark(contents, place, marks)?,
        Node::Loop { loopee, .. } | Node::Loop1CharBody { loopee, .. } => {
            mark(loopee, Place::unknown(place.backwards, &empty), marks)?;
        }
        Node::LookaroundAssertion {
            backwards,
            contents,
            ..
        } => mark(contents, Place::unknown(*backwards, &empty), marks)?,
        _ => {}
    }
    marks.push(place.fails(node))?;
    Ok(())
}

/// Appends the marks of the parts of a list.
#[cycle(mark)]
fn mark_all(parts: &[Node], place: Place<'_>, marks: &mut Vec<bool>) -> Result<(), AllocError>
    ensures { OnOk result (marks.new.items ≡ marks.old.items ++ marks_of_list place.entry.backwards (tree place.entry.previous.now) (tree place.entry.next.now) (trees parts.now)) }
{
    let mut previous = place.previous;
    let mut rest = parts;
    for part in parts {
        rest = after_first(rest);
        let here = Place {
            backwards: place.backwards,
            previous,
            next: first_or(place.next, rest),
        };
        mark(part, here, marks)?;
        previous = part;
    }
    Ok(())
}

/// Returns the nodes after the first one.
pub(crate) fn after_first(parts: &[Node]) -> &[Node]
    ensures { result.now ≡ drop 1 parts.now }
{
    match parts {
        [_, others @ ..] => others,
        [] => parts,
    }
}

/// Returns the first node of a list, or what is after the list if it has none.
pub(crate) fn first_or<'a>(after: &'a Node, parts: &'a [Node]) -> &'a Node
    ensures { tree result.now ≡ first_or (tree after.now) (trees parts.now) }
{
    match parts {
        [first, ..] => first,
        [] => after,
    }
}
