//! A test's own rewrite: the order in which nodes are visited, and a failed allocation at one of them.

use super::parsed;
use regress_front::ir::{Node, Walk};
use regress_front::optimizer::{PassAction, Rewrite, run_pass};
use regress_front::parse::ParseFault;
use std::alloc::{AllocError, Global};
use std::fmt::Write;
use std::test::Fail;

/// Keeps each node, and records the visit. After the given number of nodes it fails as if an allocation had failed.
#[derive(Drop)]
struct Visits {
    nodes: usize,
    seen: String,
}

impl Rewrite for Visits {
    ghost use Rattle.std.specs.Prelude.{true, false};

    ghost removes = { λ t. false };

    ghost is_exact = { true };

    fn apply(&mut self, node: &mut Node, walk: &Walk) -> Result<PassAction, AllocError> {
        if self.nodes == 0 {
            return Err(AllocError);
        }
        self.nodes -= 1;
        let direction = if walk.in_lookbehind {
            "backwards"
        } else {
            "forwards"
        };
        let unicode = if walk.unicode {
            "unicode"
        } else {
            "no unicode"
        };
        let depth = walk.depth;
        writeln!(
            self.seen,
            "{} at {depth}, {direction}, {unicode}",
            kind(node)
        )
        .map_err(|_| AllocError)?;
        Ok(PassAction::Keep)
    }
}

fn kind(node: &Node) -> &'static str {
    match node {
        Node::Empty => "Empty",
        Node::Goal => "Goal",
        Node::Char { .. } => "Char",
        Node::Cat(_) => "Cat",
        Node::Alt(..) => "Alt",
        Node::LookaroundAssertion { .. } => "LookaroundAssertion",
        _ => "another",
    }
}

/// Returns the record of a pass over a pattern's tree, with an allocation failure after that many nodes.
fn visited(
    alloc: Global,
    pattern: &str,
    unicode: bool,
    nodes: usize,
) -> Result<String, ParseFault> {
    let mut regex = parsed(alloc, pattern, unicode)?;
    let mut visits = Visits {
        nodes,
        seen: String::new(alloc),
    };
    let changed = run_pass(&mut regex, &mut visits)?;
    visits
        .seen
        .push_str(if changed { "changed" } else { "not changed" })?;
    Ok(visits.seen)
}

#[test]
fn children_are_visited_before_parents_and_left_before_right(rt: HostRuntime) -> Result<(), Fail> {
    for (pattern, unicode, want) in &[
        (
            "(?:a|bc)d",
            true,
            "Char at 3, forwards, unicode\nChar at 4, forwards, unicode\nChar at 4, forwards, unicode\nCat at 3, forwards, unicode\nAlt at 2, forwards, unicode\nChar at 2, forwards, unicode\nCat at 1, forwards, unicode\nGoal at 1, forwards, unicode\nCat at 0, forwards, unicode\nnot changed",
        ),
        (
            "||(?:)a",
            false,
            "Empty at 2, forwards, no unicode\nEmpty at 3, forwards, no unicode\nEmpty at 4, forwards, no unicode\nChar at 4, forwards, no unicode\nCat at 3, forwards, no unicode\nAlt at 2, forwards, no unicode\nAlt at 1, forwards, no unicode\nGoal at 1, forwards, no unicode\nCat at 0, forwards, no unicode\nnot changed",
        ),
        // the contents of a lookaround are visited in their own direction
        (
            "(?<=a(?=b))",
            false,
            "Char at 4, forwards, no unicode\nLookaroundAssertion at 3, backwards, no unicode\nChar at 3, backwards, no unicode\nCat at 2, backwards, no unicode\nLookaroundAssertion at 1, forwards, no unicode\nGoal at 1, forwards, no unicode\nCat at 0, forwards, no unicode\nnot changed",
        ),
    ] {
        let found = visited(rt.alloc(), pattern, *unicode, 9)?;
        expect_eq!(rt; found.as_str(), *want, "{pattern}");
    }
    Ok(())
}

#[test]
fn an_allocation_failure_at_a_node_is_returned(rt: HostRuntime) -> Result<(), Fail> {
    for nodes in 0..9 {
        let response = visited(rt.alloc(), "(?:a|bc)d", false, nodes);
        assert!(rt; response.is_err(), "after {nodes} nodes");
    }
    Ok(())
}
