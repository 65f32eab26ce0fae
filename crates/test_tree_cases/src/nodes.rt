//! Calls on single nodes.

use crate::printing::report_tree;
use regress_tree::ir::{Node, Regex, Walk};
use test_notation::{Call, Fault};

/// Returns the first part of a `Cat`, or the node itself.
pub fn first_part(node: &Node) -> &Node {
    match node {
        Node::Cat(parts) => parts.first().unwrap_or(node),
        _ => node,
    }
}

/// Reports the number of parts of a `Cat`, and the size of the first: the number of intervals of a bracket or of bytes
/// of a byte sequence, else 0.
pub fn parts(call: &mut Call, node: &Node) {
    let count = match node {
        Node::Cat(parts) => parts.len(),
        _ => 0,
    };
    let size = match first_part(node) {
        Node::Bracket(contents) => contents.cps.intervals().len(),
        Node::ByteSequence(bytes) => bytes.len(),
        _ => 0,
    };
    call.report(&count);
    call.report(&size);
}

/// Reports which of the tests on a node hold.
pub fn ask(call: &mut Call, node: &Node) {
    say_if(call, node.is_empty(), "empty ");
    say_if(call, node.is_cat(), "cat ");
    say_if(call, node.matches_exactly_one_char(), "one character ");
    say_if(call, node.match_always_fails(), "fails ");
}

fn say_if(call: &mut Call, holds: bool, word: &str) {
    if holds {
        call.say(word);
    }
}

/// Reports the first part of a tree after reversing its `Cat`s as in a lookbehind. Reversing it outside of one changes
/// nothing.
pub fn iteration(call: &mut Call, regex: &Regex) {
    let copy = first_part(&regex.node).try_clone(call.alloc());
    let mut node = call.made(copy, Node::Empty);
    if matches!(&node, Node::ByteSequence(_)) {
        call.fail(Fault::Line);
        return;
    }
    node.reverse_cats(&mut Walk::root(false));
    node.reverse_cats(&mut Walk::root(false).looking(true));
    let flags = regex.flags;
    report_tree(call, &Regex { node, flags });
}
