//! The printed form of a tree: one line for each node, each node before its children.
ghost use Rattle.std.specs.Prelude.{◌≡◌, ◌++◌, codes, option_map, string_bytes};
ghost use Rattle.std.specs.List.{join_by};
ghost use Rattle.std.specs.Fmt.{WritesOnOk, decimal};
ghost use Rattle.regress_tree.specs.Tree.{tree, trees, anchor, bracket, byte_sequence, byte_set, char_set, capture_group, loop, lookaround};
ghost use Rattle.regress_tree.specs.Display as text;

use super::held::body;
use super::node::{Node, Regex};
use regress_base::codepointset::Interval;
use regress_base::types::{
    AnchorType, BracketContents, CaptureGroupID, CaptureGroupName, Quantifier,
};
use std::fmt;
use std::fmt::{Formatter, Write};

/// The greatest depth that is printed as dots. For a deeper node the excess is printed as a number.
const MAX_DEPTH_DOTS: usize = 120;

/// Writes the lines of the tree, as `Display` of its root does. The flags are not written.
impl fmt::Display for Regex {
    ghost use Rattle.std.specs.Prelude.{Some};
    ghost use Rattle.regress_tree.specs.Tree.{tree};
    ghost use Rattle.regress_tree.specs.Display.{printed};

    ghost output = { λ regex. Some (printed (tree regex.node)) };

    fn fmt<W: Write>(&self, f: &mut Formatter<W>) -> fmt::Result {
        write_tree(&self.node, 0, f)
    }
}

/// Writes the lines of the tree whose root is this node. Alternatives take no stack, however many there are, unlike
/// with the derived `Debug`.
impl fmt::Display for Node {
    ghost use Rattle.std.specs.Prelude.{Some};
    ghost use Rattle.regress_tree.specs.Tree.{tree};
    ghost use Rattle.regress_tree.specs.Display.{printed};

    ghost output = { λ node. Some (printed (tree node)) };

    fn fmt<W: Write>(&self, f: &mut Formatter<W>) -> fmt::Result {
        write_tree(self, 0, f)
    }
}

// A loop follows the right sides of alternatives and single bodies: an alternation nests as deep as it has
// alternatives.
#[cycle(write_tree)]
fn write_tree<W: Write>(node: &Node, depth: usize, f: &mut Formatter<W>) -> fmt::Result
    ensures { WritesOnOk W.write_str_gives f.old result (text.printed_at depth (tree node.now)) f.new }
{
    let mut node = node;
    let mut depth = depth;
    loop {
        write_line(node, depth, f)?;
        depth = depth.saturating_add(1);
        match node {
            Node::Cat(parts) => return write_trees(parts, depth, f),
            Node::Alt(left, right) => {
                write_tree(left, depth, f)?;
                node = right;
            }
            _ => {
                let Some(body) = body(node) else {
                    return Ok(());
                };
                node = body;
            }
        }
    }
}

#[cycle(write_tree)]
fn write_trees<W: Write>(parts: &[Node], depth: usize, f: &mut Formatter<W>) -> fmt::Result
    ensures { WritesOnOk W.write_str_gives f.old result (text.printed_in_list depth (trees parts.now)) f.new }
{
    for part in parts {
        write_tree(part, depth, f)?;
    }
    Ok(())
}

fn write_line<W: Write>(node: &Node, depth: usize, f: &mut Formatter<W>) -> fmt::Result
    ensures { WritesOnOk W.write_str_gives f.old result (text.line depth (text.node_text (tree node.now))) f.new }
{
    write_indent(depth, f)?;
    write_node(node, f)?;
    f.write_str("\n")
}

fn write_indent<W: Write>(depth: usize, f: &mut Formatter<W>) -> fmt::Result
    ensures { WritesOnOk W.write_str_gives f.old result (text.indent depth) f.new }
{
    for _level in 0..depth.min(MAX_DEPTH_DOTS) {
        f.write_str("..")?;
    }
    if depth > MAX_DEPTH_DOTS {
        let below = depth - MAX_DEPTH_DOTS;
        write!(f, "(+{below}).. ")?;
    }
    Ok(())
}

/// Writes the text of a node's line, after the indent.
fn write_node<W: Write>(node: &Node, f: &mut Formatter<W>) -> fmt::Result
    ensures { WritesOnOk W.write_str_gives f.old result (text.node_text (tree node.now)) f.new }
{
    match node {
        Node::Empty => f.write_str("Empty"),
        Node::Goal => f.write_str("Goal"),
        Node::Char { c } => write!(f, "'{c}'"),
        Node::ByteSequence(bytes) => write_byte_sequence(bytes, f),
        Node::ByteSet(bytes) => write_byte_set(bytes, f),
        Node::CharSet(characters) => write_char_set(characters, f),
        Node::Cat(_) => f.write_str("Cat"),
        Node::Alt(..) => f.write_str("Alt"),
        Node::MatchAny => f.write_str("MatchAny"),
        Node::MatchAnyExceptLineTerminator => f.write_str("MatchAnyExceptLineTerminator"),
        Node::CaptureGroup { id, name, .. } => write_group(*id, name, f),
        Node::Anchor {
            anchor_type,
            multiline,
        } => write_anchor(*anchor_type, *multiline, f),
        Node::WordBoundary { invert: false, .. } => f.write_str("WordBoundary \"\\\\b\" "),
        Node::WordBoundary { invert: true, .. } => f.write_str("WordBoundary \"\\\\B\" "),
        Node::Bracket(contents) => write_bracket(contents, f),
        Node::Loop {
            quant,
            enclosed_groups,
            ..
        } => write_loop(quant, enclosed_groups.start, enclosed_groups.end, f),
        Node::Loop1CharBody { quant, .. } => {
            f.write_str("Loop1Char ")?;
            write_quantifier(quant, f)
        }
        Node::LookaroundAssertion {
            negate,
            backwards,
            start_group,
            end_group,
            ..
        } => write_lookaround(*negate, *backwards, *start_group, *end_group, f),
        Node::BackRef { group, .. } => write!(f, "BackRef {group} "),
        Node::StringSet {
            alternatives,
            icase,
        } => write_string_set(alternatives.len(), *icase, f),
    }
}

fn write_group<W: Write>(
    id: CaptureGroupID,
    name: &Option<CaptureGroupName>,
    f: &mut Formatter<W>,
) -> fmt::Result
    ensures { WritesOnOk W.write_str_gives f.old result (text.wrapper_text (capture_group id (option_map string_bytes name.now))) f.new }
{
    match name {
        Some(name) => write!(f, "CaptureGroup {id} \"{name}\""),
        None => write!(f, "CaptureGroup {id}"),
    }
}

fn write_anchor<W: Write>(kind: AnchorType, multiline: bool, f: &mut Formatter<W>) -> fmt::Result
    ensures { WritesOnOk W.write_str_gives f.old result (text.leaf_text (anchor kind multiline)) f.new }
{
    let end = end_text(kind);
    write!(f, "Anchor {end} multiline={multiline}")
}

fn write_loop<W: Write>(
    quant: &Quantifier,
    start: CaptureGroupID,
    end: CaptureGroupID,
    f: &mut Formatter<W>,
) -> fmt::Result
    ensures { WritesOnOk W.write_str_gives f.old result (text.wrapper_text (loop quant.now start end)) f.new }
{
    write!(f, "Loop (groups {start}..{end}) ")?;
    write_quantifier(quant, f)
}

fn write_lookaround<W: Write>(
    negate: bool,
    backwards: bool,
    start: CaptureGroupID,
    end: CaptureGroupID,
    f: &mut Formatter<W>,
) -> fmt::Result
    ensures { WritesOnOk W.write_str_gives f.old result (text.wrapper_text (lookaround negate backwards start end)) f.new }
{
    let sense = if negate { "negative " } else { "positive " };
    let direction = if backwards { "backwards " } else { "forwards " };
    write!(f, "LookaroundAssertion {sense}{direction}{start} {end}")
}

fn write_string_set<W: Write>(count: usize, icase: bool, f: &mut Formatter<W>) -> fmt::Result
    ensures { WritesOnOk W.write_str_gives f.old result (codes "StringSet count=" ++ decimal count ++ codes ", icase=" ++ text.truth icase) f.new }
{
    write!(f, "StringSet count={count}, icase={icase}")
}

fn end_text(end: AnchorType) -> &'static str
    ensures { result.now ≡ text.anchored end }
{
    match end {
        AnchorType::StartOfLine => "StartOfLine",
        AnchorType::EndOfLine => "EndOfLine",
    }
}

fn write_quantifier<W: Write>(quant: &Quantifier, f: &mut Formatter<W>) -> fmt::Result
    ensures { WritesOnOk W.write_str_gives f.old result (text.quantifier quant.now) f.new }
{
    let (min, greedy) = (quant.min, quant.greedy);
    write!(f, "Quantifier {{ min: {min}, max: ")?;
    write_maximum(quant.max, f)?;
    write!(f, ", greedy: {greedy} }}")
}

fn write_maximum<W: Write>(max: Option<usize>, f: &mut Formatter<W>) -> fmt::Result
    ensures { WritesOnOk W.write_str_gives f.old result (text.maximum max) f.new }
{
    match max {
        Some(max) => write!(f, "Some({max})"),
        None => f.write_str("None"),
    }
}

fn write_bracket<W: Write>(contents: &BracketContents, f: &mut Formatter<W>) -> fmt::Result
    ensures { WritesOnOk W.write_str_gives f.old result (text.leaf_text (bracket contents.now.invert contents.now.cps)) f.new }
{
    let invert = contents.invert;
    write!(
        f,
        "Bracket BracketContents {{ invert: {invert}, cps: CodePointSet {{ ivs: ["
    )?;
    write_intervals(contents.cps.intervals(), f)?;
    f.write_str("] } }")
}

fn write_intervals<W: Write>(intervals: &[Interval], f: &mut Formatter<W>) -> fmt::Result
    ensures { WritesOnOk W.write_str_gives f.old result (join_by text.interval (codes ", ") intervals.now) f.new }
{
    if let [first, rest @ ..] = intervals {
        write_interval(*first, f)?;
        for interval in rest {
            f.write_str(", ")?;
            write_interval(*interval, f)?;
        }
    }
    Ok(())
}

fn write_interval<W: Write>(interval: Interval, f: &mut Formatter<W>) -> fmt::Result
    ensures { WritesOnOk W.write_str_gives f.old result (text.interval interval) f.new }
{
    write_code_point(interval.first(), f)?;
    f.write_str("-")?;
    write_code_point(interval.last(), f)
}

fn write_code_point<W: Write>(c: u32, f: &mut Formatter<W>) -> fmt::Result
    ensures { WritesOnOk W.write_str_gives f.old result (text.code_point c) f.new }
{
    write!(f, "U+{c:04X}")
}

fn write_byte_sequence<W: Write>(bytes: &[u8], f: &mut Formatter<W>) -> fmt::Result
    ensures { WritesOnOk W.write_str_gives f.old result (text.leaf_text (byte_sequence bytes.now)) f.new }
{
    let count = bytes.len();
    write!(f, "ByteSeq{count} 0x")?;
    for byte in bytes {
        write!(f, "{byte:x}")?;
    }
    Ok(())
}

fn write_byte_set<W: Write>(bytes: &[u8], f: &mut Formatter<W>) -> fmt::Result
    ensures { WritesOnOk W.write_str_gives f.old result (text.leaf_text (byte_set bytes.now)) f.new }
{
    let count = bytes.len();
    write!(f, "ByteSet{count}")?;
    for byte in bytes {
        write!(f, " 0x{byte:x}")?;
    }
    Ok(())
}

fn write_char_set<W: Write>(characters: &[u32], f: &mut Formatter<W>) -> fmt::Result
    ensures { WritesOnOk W.write_str_gives f.old result (text.leaf_text (char_set characters.now)) f.new }
{
    f.write_str("CharSet ")?;
    if let [first, rest @ ..] = characters {
        write!(f, "0x{first:x}")?;
        for c in rest {
            write!(f, ", 0x{c:x}")?;
        }
    }
    Ok(())
}
