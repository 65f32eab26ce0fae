//! Promotion of loops over one character.
ghost use Rattle.std.specs.Prelude.{◌≡◌};
ghost use Rattle.regress_tree.specs.Tree.{tree, wrapped, loop_one};

use regress_tree::ir::{Node, Quantifier};
use std::mem;

/// Returns a `Loop1CharBody` with this body, which is moved into the box `room`; the content of `room` is left in
/// `body`.
pub fn promoted(body: &mut Box<Node>, quant: Quantifier, room: Box<Node>) -> Node
    ensures { tree result ≡ wrapped (loop_one quant) (tree body.old.value) }
{
    let mut loopee = room;
    mem::swap(&mut loopee, body);
    Node::Loop1CharBody { loopee, quant }
}
