//! The notation of trees in test cases.

use regress_base::types::Flags;
use regress_tree::ir::{Node, Regex};
use test_notation::Call;

/// Appends the printed form of a tree, with `/` instead of each line end.
pub fn report_tree(call: &mut Call, regex: &Regex) {
    let alloc = call.alloc();
    let printed = call.made(format!(in alloc; "{regex}"), String::new(alloc));
    for line in printed.lines() {
        call.say(line);
        call.say("/");
    }
}

/// Appends the tree with this root, without flags.
pub(crate) fn report_node(call: &mut Call, node: Node) {
    let flags = Flags::default();
    report_tree(call, &Regex { node, flags });
}
