//! Walks: their visits, whatever a closure writes to its arguments, and long alternations.

use regress_front::ir::{Node, Walk, walk, walk_mut};
use std::alloc::{AllocError, Global};
use std::test::Fail;

/// Returns the tree of `(?<=ab)c`.
fn lookbehind_tree(alloc: Global) -> Result<Node, AllocError> {
    let mut inner = Vec::new(alloc);
    inner.push(Node::Char { c: 98 })?;
    inner.push(Node::Char { c: 97 })?;
    let mut parts = Vec::new(alloc);
    parts.push(Node::LookaroundAssertion {
        negate: false,
        backwards: true,
        start_group: 0,
        end_group: 0,
        contents: Box::new(alloc, Node::Cat(inner))?,
    })?;
    parts.push(Node::Char { c: 99 })?;
    let mut whole = Vec::new(alloc);
    whole.push(Node::Cat(parts))?;
    whole.push(Node::Goal)?;
    Ok(Node::Cat(whole))
}

/// Returns an alternation with `bars` bars and one alternative more, each of them empty.
pub fn alternation(alloc: Global, bars: usize) -> Result<Node, AllocError> {
    let mut node = Node::Empty;
    for _ in 0..bars {
        node = Node::Alt(Box::new(alloc, Node::Empty)?, Box::new(alloc, node)?);
    }
    Ok(node)
}

fn name(n: &Node) -> char {
    match n {
        Node::Cat(_) => 'C',
        Node::LookaroundAssertion { .. } => 'L',
        Node::Goal => 'G',
        Node::Char { c: 97 } => 'a',
        Node::Char { c: 98 } => 'b',
        Node::Char { c: 99 } => 'c',
        _ => '?',
    }
}

/// Records a visit: the node, its depth, and a `<` in a lookbehind.
fn note(seen: &mut String, n: &Node, w: &Walk) {
    let _name = seen.push(name(n));
    let depth = match w.depth {
        0 => '0',
        1 => '1',
        2 => '2',
        3 => '3',
        4 => '4',
        _ => '?',
    };
    let _depth = seen.push(depth);
    if w.in_lookbehind {
        let _back = seen.push('<');
    }
    if w.skip_children || !w.unicode {
        let _wrong = seen.push('!');
    }
    let _space = seen.push(' ');
}

const PREORDER: &str = "C0 C1 L2 C3< b4< a4< c2 G1 ";

const POSTORDER: &str = "b4< a4< C3< L2 c2 C1 G1 C0 ";

const WITHOUT: &str = "C0 C1 L2 c2 G1 ";

fn look(alloc: Global, postorder: bool, skip: bool, depth: usize) -> Result<String, Fail> {
    let mut seen = String::new(alloc);
    walk(
        postorder,
        true,
        &lookbehind_tree(alloc)?,
        &mut |n: &Node, w: &mut Walk| {
            note(&mut seen, n, w);
            w.skip_children = postorder || (skip && matches!(n, Node::LookaroundAssertion { .. }));
            w.depth = depth;
            w.in_lookbehind = !w.in_lookbehind;
            w.unicode = !w.unicode;
        },
    );
    Ok(seen)
}

fn change(alloc: Global, postorder: bool, skip: bool, depth: usize) -> Result<String, Fail> {
    let mut seen = String::new(alloc);
    let mut tree = lookbehind_tree(alloc)?;
    walk_mut(
        postorder,
        true,
        &mut tree,
        &mut |n: &mut Node, w: &mut Walk| {
            note(&mut seen, n, w);
            w.skip_children = postorder || (skip && matches!(n, Node::LookaroundAssertion { .. }));
            w.depth = depth;
            w.in_lookbehind = !w.in_lookbehind;
            w.unicode = !w.unicode;
        },
    );
    Ok(seen)
}

#[test]
fn each_node_is_visited_before_its_children_or_after_them(rt: HostRuntime) -> Result<(), Fail> {
    let alloc = rt.alloc();
    for depth in &[0, usize::MAX] {
        for (postorder, skip, wanted) in &[
            (false, false, PREORDER),
            (true, false, POSTORDER),
            (false, true, WITHOUT),
        ] {
            expect_eq!(rt; look(alloc, *postorder, *skip, *depth)?.as_str(), *wanted);
            expect_eq!(rt; change(alloc, *postorder, *skip, *depth)?.as_str(), *wanted);
        }
    }
    Ok(())
}

#[test]
fn long_alternations_are_walked(rt: HostRuntime) -> Result<(), Fail> {
    let mut node = alternation(rt.alloc(), 200_000)?;
    for postorder in [false, true] {
        let mut calls = 0_usize;
        let mut deepest = 0_usize;
        walk(
            postorder,
            false,
            &node,
            &mut |_n: &Node, w: &mut Walk| {
                calls = calls.wrapping_add(1);
                deepest = deepest.max(w.depth);
            },
        );
        expect_eq!(rt; calls, 400_001);
        expect_eq!(rt; deepest, 200_000);
        let mut changes = 0_usize;
        walk_mut(
            postorder,
            false,
            &mut node,
            &mut |_n: &mut Node, _w: &mut Walk| {
                changes = changes.wrapping_add(1);
            },
        );
        expect_eq!(rt; changes, 400_001);
    }
    Ok(())
}

#[test]
fn a_postorder_walk_may_change_nodes(rt: HostRuntime) -> Result<(), Fail> {
    let mut node = alternation(rt.alloc(), 3)?;
    walk_mut(
        true,
        false,
        &mut node,
        &mut |n: &mut Node, _w: &mut Walk| {
            if matches!(n, Node::Empty) {
                *n = Node::Goal;
            }
        },
    );
    let mut goals = 0_usize;
    walk(
        false,
        false,
        &node,
        &mut |n: &Node, _w: &mut Walk| {
            if matches!(n, Node::Goal) {
                goals = goals.wrapping_add(1);
            }
        },
    );
    expect_eq!(rt; goals, 4);
    Ok(())
}
