//! Calls on lowered literals.

use crate::printing::report_tree;
use regress_base::types::Flags;
use regress_literal::literal::{Piece, lower_code_point_sequence};
use regress_tree::ir::{Node, Regex};
use regress_unicode::Tables;
use test_notation::{Call, Fault, Promise};

/// Reports the nodes of lowered literals, in a `Cat`.
pub fn lower(call: &mut Call, flags: Flags, tables: &Tables) {
    let alloc = call.alloc();
    let pieces = lowered(call, flags, tables);
    let nodes = call.made(Piece::into_nodes(alloc, pieces), Vec::new(alloc));
    let node = Node::Cat(nodes);
    report_tree(call, &Regex { node, flags });
}

/// Reports the `Debug` form of copies of the pieces of lowered literals.
pub fn copy_pieces(call: &mut Call, flags: Flags, tables: &Tables) {
    let alloc = call.alloc();
    let pieces = lowered(call, flags, tables);
    let mut copies = Vec::new(alloc);
    for piece in &pieces {
        let copy = call.made(piece.try_clone(alloc), Piece::Char(0));
        if copies.push(copy).is_err() {
            call.fail(Fault::Memory);
        }
    }
    call.check(copies == pieces, Promise::CopyIsEqual);
    call.show(&copies);
}

fn lowered(call: &mut Call, flags: Flags, tables: &Tables) -> Vec<Piece> {
    let alloc = call.alloc();
    let points = call.pattern();
    let pieces = lower_code_point_sequence(alloc, &points, flags.icase, flags.unicode, tables);
    call.made(pieces, Vec::new(alloc))
}
