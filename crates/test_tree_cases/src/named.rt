//! Calls on trees that no pattern has, which test cases select by name.
ghost use Rattle.regress_tree.specs.Tree.{tree};
ghost use Rattle.regress_tree.specs.Copies.{HasNoGroup};

use crate::nodes::ask;
use crate::printing::report_node;
use regress_base::types::Flags;
use regress_tree::ir::{Node, Quantifier, Regex};
use test_notation::{Call, Fault};

/// Makes the call with this name, and returns whether there is one.
pub fn response(call: &mut Call, name: &str) -> bool {
    match name {
        "well_formed" => test(call),
        "print" => {
            let node = node_named(call);
            report_node(call, node);
        }
        "ask_node" => {
            let node = node_named(call);
            ask(call, &node);
        }
        "bytes" => print_bytes(call),
        "duplicate" => duplicate(call),
        _ => return false,
    }
    true
}

/// Reports whether a tree is well formed.
fn test(call: &mut Call) {
    let node = node_named(call);
    let flags = Flags::default();
    call.report(&Regex { node, flags }.is_well_formed());
}

fn node_named(call: &mut Call) -> Node {
    let name = call.field();
    if let Some(leaf) = leaf_named(call, name) {
        return leaf;
    }
    match name {
        "the first group" => group(call, 0),
        "the second group alone" => group(call, 1),
        "a group twice" => {
            let (first, second) = (group(call, 0), group(call, 0));
            mapping_of(call, first, second)
        }
        "two ends" => mapping_of(call, Node::Goal, Node::Goal),
        "a loop over any character" => loop_over_one(call, Node::MatchAny),
        "a loop over no character" => loop_over_one(call, Node::Empty),
        _ => loop_named(call, name),
    }
}

fn leaf_named(call: &mut Call, name: &str) -> Option<Node> {
    let alloc = call.alloc();
    match name {
        "the end" => Some(Node::Goal),
        "none" => Some(Node::make_always_fails(alloc)),
        "strings" => Some(strings(call)),
        "a reference without groups" => Some(Node::BackRef {
            group: 1,
            icase: false,
        }),
        "a byte past ASCII" => Some(Node::ByteSet(bytes(call, b"\x80"))),
        "half a character" => Some(Node::ByteSequence(bytes(call, b"\xC3"))),
        "five characters" => {
            let five = Vec::from_slice(alloc, &[97, 98, 99, 100, 101]);
            Some(Node::CharSet(call.made(five, Vec::new(alloc))))
        }
        "past the last code point" => Some(Node::Char { c: 0x110000 }),
        _ => None,
    }
}

fn loop_named(call: &mut Call, name: &str) -> Node {
    match name {
        "a minimum above the maximum" => loop_of(call, Node::MatchAny, 2, 0, 0),
        "an empty range that ends before it starts" => loop_of(call, Node::MatchAny, 0, 1, 0),
        "a range of the group inside" => loop_over_group(call, 1),
        "a range too wide" => loop_over_group(call, 2),
        "a range too narrow" => loop_over_group(call, 0),
        _ => {
            call.fail(Fault::Line);
            Node::Empty
        }
    }
}

fn bytes(call: &mut Call, bytes: &[u8]) -> Vec<u8> {
    let alloc = call.alloc();
    call.made(Vec::from_slice(alloc, bytes), Vec::new(alloc))
}

/// Returns a set without strings.
fn strings(call: &mut Call) -> Node {
    Node::StringSet {
        alternatives: Vec::new(call.alloc()),
        icase: true,
    }
}

fn group(call: &mut Call, id: u16) -> Node {
    match Box::new(call.alloc(), Node::Empty) {
        Ok(contents) => Node::CaptureGroup {
            id,
            contents,
            name: None,
        },
        Err(_) => missing(call),
    }
}

/// Records a failed allocation, and returns a node in place of the missing one.
fn missing(call: &mut Call) -> Node {
    call.fail(Fault::Memory);
    Node::Empty
}

/// Returns a loop of at most one iteration, with this range of enclosed groups.
fn loop_of(call: &mut Call, body: Node, min: usize, start: u16, end: u16) -> Node {
    match Box::new(call.alloc(), body) {
        Ok(loopee) => Node::Loop {
            loopee,
            quant: Quantifier {
                min,
                max: Some(1),
                greedy: true,
            },
            enclosed_groups: start..end,
        },
        Err(_) => missing(call),
    }
}

fn loop_over_group(call: &mut Call, end: u16) -> Node {
    let body = group(call, 0);
    loop_of(call, body, 0, 0, end)
}

fn loop_over_one(call: &mut Call, body: Node) -> Node {
    match Box::new(call.alloc(), body) {
        Ok(loopee) => Node::Loop1CharBody {
            loopee,
            quant: Quantifier {
                min: 0,
                max: None,
                greedy: false,
            },
        },
        Err(_) => missing(call),
    }
}

fn mapping_of(call: &mut Call, first: Node, second: Node) -> Node {
    let mut parts = Vec::new(call.alloc());
    if parts.push(first).is_err() || parts.push(second).is_err() {
        call.fail(Fault::Memory);
    }
    Node::Cat(parts)
}

/// Reports the printed form of a byte sequence and of a set of the same bytes.
fn print_bytes(call: &mut Call) {
    let given = call.bytes();
    let sequence = Node::ByteSequence(bytes(call, &given));
    let set = Node::ByteSet(given);
    let node = mapping_of(call, sequence, set);
    report_node(call, node);
}

/// Reports the copy that unrolling makes of `a`, of `ab` or of a set of strings at a depth, or `none`.
fn duplicate(call: &mut Call) {
    let name = call.field();
    let depth = call.number() as usize;
    match name {
        "a" => report_copy(call, depth, Node::Char { c: 97 }),
        "ab" => duplicate_pair(call, depth),
        "strings" => {
            let alternatives = Vec::new(call.alloc());
            let icase = false;
            let node = Node::StringSet {
                alternatives,
                icase,
            };
            report_copy(call, depth, node);
        }
        _ => call.fail(Fault::Line),
    }
}

fn duplicate_pair(call: &mut Call, depth: usize) {
    let mut parts = Vec::new(call.alloc());
    let (first, second) = (Node::Char { c: 97 }, Node::Char { c: 98 });
    if parts.push(first).is_err() || parts.push(second).is_err() {
        call.fail(Fault::Memory);
        return;
    }
    report_copy(call, depth, Node::Cat(parts));
}

fn report_copy(call: &mut Call, depth: usize, node: Node)
    requires { HasNoGroup (tree node) }
{
    let copy = node.try_duplicate(call.alloc(), depth);
    match call.made(copy, None) {
        Some(copy) => report_node(call, copy),
        None => call.say("none"),
    }
}
