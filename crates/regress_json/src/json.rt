//! Trees as JSON: one object for each node, with all of its fields.
ghost use Rattle.std.specs.Prelude.{◌≡◌, ◌++◌, ℕ, List, OnOk, Some, true, codes, drop, option_map, string_bytes, map};
ghost use Rattle.std.specs.Box.{boxed_slice_items};
ghost use Rattle.std.specs.List.{join_by};
ghost use Rattle.std.specs.Fmt.{WritesOnOk};
ghost use Rattle.std.specs.Slice.Iter.{iter_rest};
ghost use Rattle.regress_tree.specs.Tree.{tree, trees, capture_group, loop, loop_one, lookaround, anchor, word_boundary, bracket, char, char_set, back_ref, string_set};
ghost use Rattle.regress_tree.specs.Visits.{nodes, nodes_in_list};
ghost use Rattle.regress_parse.specs.declared.span.Span.{Span};
ghost use Rattle.regress_json.specs.Json as text;

use crate::marks::{Marks, pass_alternations, write_ending};
use crate::sides::sides;
use regress_base::codepointset::Interval;
use regress_base::types::{
    AnchorType, BracketContents, CaptureGroupID, CaptureGroupName, Flags, Quantifier,
};
use regress_parse::Span;
use regress_tree::ir::held::body;
use regress_tree::ir::{Node, Regex};
use std::boxed::BoxedSlice;
use std::fmt;
use std::fmt::{Formatter, Write};

/// A pattern that displays as JSON (RFC 8259), on one line without spaces: `{"flags":{..},"node":{..}}`.
///
/// Each node is an object with its `kind` and its fields, named as in `Node`. A `Cat` has `parts`, in reverse order
/// inside a lookbehind. An `Alt` has `alternatives`; those of a right side that is an `Alt` are in the same list. Code
/// points and bytes are numbers, an interval is a pair `[first,last]`, both inclusive, and a name is a string.
/// docs/tree.schema.json is the schema.
///
/// # Complexity
/// Linear in the size of the tree. The depth of recursion is the nesting depth of the tree; right sides of alternatives
/// take no stack.
#[derive(Clone, Copy)]
pub struct Json<'a>(pub &'a Regex);

impl fmt::Display for Json<'_> {
    ghost use Rattle.std.specs.Prelude.{Some};
    ghost use Rattle.regress_tree.specs.Tree.{tree};
    ghost use Rattle.regress_json.specs.Json.{json_of};

    ghost output = { λ json. Some (json_of json.0.now.flags (tree json.0.now.node)) };

    fn fmt<W: Write>(&self, f: &mut Formatter<W>) -> fmt::Result {
        write_pattern(self.0, &[], f)
    }
}

/// [`Json`] with a last member `"span":[start,end]` in the object of each node that has a span: half-open, in
/// code-point indices of the pattern. An `Alt` that is the right side of another one has no object, so its span is not
/// shown: it starts where its first alternative does.
#[derive(Clone, Copy)]
pub struct SpannedJson<'a> {
    /// The pattern's tree and flags.
    pub regex: &'a Regex,
    /// A span for each node in postorder, as `try_parse_with_spans` returns them. If there are fewer spans than nodes,
    /// the remaining nodes have none.
    pub spans: &'a [Span],
}

impl fmt::Display for SpannedJson<'_> {
    ghost use Rattle.std.specs.Prelude.{Some};
    ghost use Rattle.regress_tree.specs.Tree.{tree};
    ghost use Rattle.regress_json.specs.Json.{spanned_json_of};

    ghost output = { λ json. Some (spanned_json_of json.regex.now.flags (tree json.regex.now.node) json.spans.now) };

    fn fmt<W: Write>(&self, f: &mut Formatter<W>) -> fmt::Result {
        write_pattern(self.regex, self.spans, f)
    }
}

fn write_pattern<W: Write>(regex: &Regex, spans: &[Span], f: &mut Formatter<W>) -> fmt::Result
    ensures { WritesOnOk W.write_str_gives f.old result (text.spanned_json_of regex.now.flags (tree regex.now.node) spans.now) f.new }
{
    write_header(regex.flags, f)?;
    write_node(&regex.node, &mut spans.iter(), f)?;
    f.write_str("}")
}

/// Writes the text before the tree.
fn write_header<W: Write>(flags: Flags, f: &mut Formatter<W>) -> fmt::Result
    ensures { WritesOnOk W.write_str_gives f.old result (codes "{\"flags\":" ++ text.flags_json flags ++ codes ",\"node\":") f.new }
{
    let Flags {
        icase,
        multiline,
        dot_all,
        unicode,
        unicode_sets,
    } = flags;
    write!(
        f,
        "{{\"flags\":{{\"icase\":{icase},\"multiline\":{multiline},\"dot_all\":{dot_all},\"unicode\":{unicode},\"unicode_sets\":{unicode_sets}}},\"node\":"
    )
}

/// Writes a node, with the marks of all nodes inside it.
#[cycle(write_node)]
fn write_node<W: Write>(node: &Node, marks: &mut Marks<'_>, f: &mut Formatter<W>) -> fmt::Result
    ensures written { (all : List Span) (at : ℕ) → iter_rest marks.old ≡ drop at all →
        WritesOnOk W.write_str_gives f.old result (text.node_json (text.span_mark all) at (tree node.now)) f.new }
    ensures passed { OnOk result (iter_rest marks.new ≡ drop (nodes (tree node.now)) (iter_rest marks.old)) }
{
    write_opening(node, f)?;
    match node {
        Node::Cat(parts) => {
            write_parts(parts, marks, f)?;
        }
        Node::Alt(left, right) => {
            write_node(left, marks, f)?;
            write_further(right, marks, f)?;
        }
        _ => {
            if let Some(body) = body(node) {
                write_node(body, marks, f)?;
            }
        }
    }
    write_ending(marks, f)
}

/// Writes the alternatives of a right side, up to the end of the list, and skips the marks of its inner `Alt`s. It is a
/// loop: there may be as many nested right sides as alternatives.
#[cycle(write_node)]
fn write_further<W: Write>(right: &Node, marks: &mut Marks<'_>, f: &mut Formatter<W>) -> fmt::Result
    ensures written { (all : List Span) (at : ℕ) → iter_rest marks.old ≡ drop at all →
        WritesOnOk W.write_str_gives f.old result (text.further_json (text.span_mark all) at (tree right.now) ++ codes "]") f.new }
    ensures passed { OnOk result (iter_rest marks.new ≡ drop (nodes (tree right.now)) (iter_rest marks.old)) }
{
    let mut last = right;
    while let Some((left, right)) = sides(last) {
        f.write_str(",")?;
        write_node(left, marks, f)?;
        last = right;
    }
    f.write_str(",")?;
    write_node(last, marks, f)?;
    pass_alternations(marks, right);
    f.write_str("]")
}

/// Writes the parts of a `Cat`, up to the end of the list.
#[cycle(write_node)]
fn write_parts<W: Write>(parts: &[Node], marks: &mut Marks<'_>, f: &mut Formatter<W>) -> fmt::Result
    ensures written { (all : List Span) (at : ℕ) → iter_rest marks.old ≡ drop at all →
        WritesOnOk W.write_str_gives f.old result (text.list_json (text.span_mark all) at true (trees parts.now) ++ codes "]") f.new }
    ensures passed { OnOk result (iter_rest marks.new ≡ drop (nodes_in_list (trees parts.now)) (iter_rest marks.old)) }
{
    let mut first = true;
    for part in parts {
        write_comma(first, f)?;
        write_node(part, marks, f)?;
        first = false;
    }
    f.write_str("]")
}

/// Writes the text before a part.
fn write_comma<W: Write>(first: bool, f: &mut Formatter<W>) -> fmt::Result
    ensures { WritesOnOk W.write_str_gives f.old result (text.comma first) f.new }
{
    if first { Ok(()) } else { f.write_str(",") }
}

/// Writes the text before the nodes inside; all members, if there are none.
fn write_opening<W: Write>(node: &Node, f: &mut Formatter<W>) -> fmt::Result
    ensures { WritesOnOk W.write_str_gives f.old result (text.opening (tree node.now)) f.new }
{
    match node {
        Node::Empty => f.write_str("{\"kind\":\"Empty\""),
        Node::Goal => f.write_str("{\"kind\":\"Goal\""),
        Node::Char { c } => write_char(*c, f),
        Node::ByteSequence(bytes) => write_bytes("ByteSequence", bytes, f),
        Node::ByteSet(bytes) => write_bytes("ByteSet", bytes, f),
        Node::CharSet(characters) => write_char_set(characters, f),
        Node::Cat(_) => f.write_str("{\"kind\":\"Cat\",\"parts\":["),
        Node::Alt(..) => f.write_str("{\"kind\":\"Alt\",\"alternatives\":["),
        Node::MatchAny => f.write_str("{\"kind\":\"MatchAny\""),
        Node::MatchAnyExceptLineTerminator => {
            f.write_str("{\"kind\":\"MatchAnyExceptLineTerminator\"")
        }
        Node::CaptureGroup { id, name, .. } => write_group(*id, name, f),
        Node::Anchor {
            anchor_type,
            multiline,
        } => write_anchor(*anchor_type, *multiline, f),
        Node::WordBoundary {
            invert,
            unicode_icase,
        } => write_word_boundary(*invert, *unicode_icase, f),
        Node::Bracket(contents) => write_bracket(contents, f),
        Node::Loop {
            quant,
            enclosed_groups,
            ..
        } => write_loop(quant, enclosed_groups.start, enclosed_groups.end, f),
        Node::Loop1CharBody { quant, .. } => write_loop_one(quant, f),
        Node::LookaroundAssertion {
            negate,
            backwards,
            start_group,
            end_group,
            ..
        } => write_lookaround(*negate, *backwards, *start_group, *end_group, f),
        Node::BackRef { group, icase } => write_reference(*group, *icase, f),
        Node::StringSet {
            alternatives,
            icase,
        } => write_string_set(alternatives, *icase, f),
    }
}

fn write_char<W: Write>(c: u32, f: &mut Formatter<W>) -> fmt::Result
    ensures { WritesOnOk W.write_str_gives f.old result (text.leaf_json (char c)) f.new }
{
    write!(f, "{{\"kind\":\"Char\",\"c\":{c}")
}

fn write_word_boundary<W: Write>(
    invert: bool,
    unicode_icase: bool,
    f: &mut Formatter<W>,
) -> fmt::Result
    ensures { WritesOnOk W.write_str_gives f.old result (text.leaf_json (word_boundary invert unicode_icase)) f.new }
{
    write!(
        f,
        "{{\"kind\":\"WordBoundary\",\"invert\":{invert},\"unicode_icase\":{unicode_icase}"
    )
}

fn write_reference<W: Write>(group: u32, icase: bool, f: &mut Formatter<W>) -> fmt::Result
    ensures { WritesOnOk W.write_str_gives f.old result (text.leaf_json (back_ref group icase)) f.new }
{
    write!(
        f,
        "{{\"kind\":\"BackRef\",\"group\":{group},\"icase\":{icase}"
    )
}

fn write_anchor<W: Write>(kind: AnchorType, multiline: bool, f: &mut Formatter<W>) -> fmt::Result
    ensures { WritesOnOk W.write_str_gives f.old result (text.leaf_json (anchor kind multiline)) f.new }
{
    let end = match kind {
        AnchorType::StartOfLine => "StartOfLine",
        AnchorType::EndOfLine => "EndOfLine",
    };
    write!(
        f,
        "{{\"kind\":\"Anchor\",\"anchor_type\":\"{end}\",\"multiline\":{multiline}"
    )
}

fn write_group<W: Write>(
    id: CaptureGroupID,
    name: &Option<CaptureGroupName>,
    f: &mut Formatter<W>,
) -> fmt::Result
    ensures { WritesOnOk W.write_str_gives f.old result (text.front (capture_group id (option_map string_bytes name.now))) f.new }
{
    write!(f, "{{\"kind\":\"CaptureGroup\",\"id\":{id},\"name\":")?;
    write_name(name, f)?;
    f.write_str(",\"contents\":")
}

fn write_name<W: Write>(name: &Option<CaptureGroupName>, f: &mut Formatter<W>) -> fmt::Result
    ensures { WritesOnOk W.write_str_gives f.old result (text.name (option_map string_bytes name.now)) f.new }
{
    match name {
        None => f.write_str("null"),
        Some(name) if is_word(name.as_bytes()) => write!(f, "\"{name}\""),
        Some(name) => write_byte_list(name.as_bytes(), f),
    }
}

/// Returns whether these bytes need no escape in a JSON string. The test is stricter than that: it holds for each name
/// of a pattern.
fn is_word(bytes: &[u8]) -> bool
    ensures { result ≡ text.is_word bytes.now }
{
    for byte in bytes {
        if !is_word_byte(*byte) {
            return false;
        }
    }
    true
}

fn is_word_byte(byte: u8) -> bool
    ensures { result ≡ text.is_word_byte byte }
{
    matches!(byte, b'0'..=b'9' | b'A'..=b'Z' | b'a'..=b'z' | b'_' | b'$' | 128..=255)
}

fn write_loop<W: Write>(
    quant: &Quantifier,
    start: CaptureGroupID,
    end: CaptureGroupID,
    f: &mut Formatter<W>,
) -> fmt::Result
    ensures { WritesOnOk W.write_str_gives f.old result (text.front (loop quant.now start end)) f.new }
{
    write!(f, "{{\"kind\":\"Loop\",\"enclosed_groups\":[{start},{end}]")?;
    write_repeat(quant, f)
}

fn write_loop_one<W: Write>(quant: &Quantifier, f: &mut Formatter<W>) -> fmt::Result
    ensures { WritesOnOk W.write_str_gives f.old result (text.front (loop_one quant.now)) f.new }
{
    f.write_str("{\"kind\":\"Loop1CharBody\"")?;
    write_repeat(quant, f)
}

fn write_lookaround<W: Write>(
    negate: bool,
    backwards: bool,
    start: CaptureGroupID,
    end: CaptureGroupID,
    f: &mut Formatter<W>,
) -> fmt::Result
    ensures { WritesOnOk W.write_str_gives f.old result (text.front (lookaround negate backwards start end)) f.new }
{
    write!(
        f,
        "{{\"kind\":\"LookaroundAssertion\",\"negate\":{negate},\"backwards\":{backwards},\"start_group\":{start},\"end_group\":{end},\"contents\":"
    )
}

/// Writes a quantifier, up to the loop's body.
fn write_repeat<W: Write>(quant: &Quantifier, f: &mut Formatter<W>) -> fmt::Result
    ensures { WritesOnOk W.write_str_gives f.old result (codes ",\"quant\":" ++ text.quantifier quant.now ++ codes ",\"loopee\":") f.new }
{
    let Quantifier { min, max, greedy } = *quant;
    match max {
        Some(max) => write!(
            f,
            ",\"quant\":{{\"min\":{min},\"max\":{max},\"greedy\":{greedy}}},\"loopee\":"
        ),
        None => write!(
            f,
            ",\"quant\":{{\"min\":{min},\"max\":null,\"greedy\":{greedy}}},\"loopee\":"
        ),
    }
}

fn write_bracket<W: Write>(contents: &BracketContents, f: &mut Formatter<W>) -> fmt::Result
    ensures { WritesOnOk W.write_str_gives f.old result (text.leaf_json (bracket contents.now.invert contents.now.cps)) f.new }
{
    let invert = contents.invert;
    write!(f, "{{\"kind\":\"Bracket\",\"invert\":{invert},\"cps\":[")?;
    write_intervals(contents.cps.intervals(), f)?;
    f.write_str("]")
}

fn write_intervals<W: Write>(intervals: &[Interval], f: &mut Formatter<W>) -> fmt::Result
    ensures { WritesOnOk W.write_str_gives f.old result (join_by text.interval (codes ",") intervals.now) f.new }
{
    let mut comma = "";
    for interval in intervals {
        let (first, last) = (interval.first(), interval.last());
        write!(f, "{comma}[{first},{last}]")?;
        comma = ",";
    }
    Ok(())
}

fn write_string_set<W: Write>(
    strings: &[BoxedSlice<u32>],
    icase: bool,
    f: &mut Formatter<W>,
) -> fmt::Result
    ensures { WritesOnOk W.write_str_gives f.old result (text.leaf_json (string_set (map boxed_slice_items strings.now) icase)) f.new }
{
    f.write_str("{\"kind\":\"StringSet\",\"alternatives\":[")?;
    write_strings(strings, f)?;
    write!(f, "],\"icase\":{icase}")
}

fn write_strings<W: Write>(strings: &[BoxedSlice<u32>], f: &mut Formatter<W>) -> fmt::Result
    ensures { WritesOnOk W.write_str_gives f.old result (join_by text.numbers (codes ",") (map boxed_slice_items strings.now)) f.new }
{
    let mut comma = "";
    for string in strings {
        f.write_str(comma)?;
        write_numbers(string, f)?;
        comma = ",";
    }
    Ok(())
}

fn write_char_set<W: Write>(characters: &[u32], f: &mut Formatter<W>) -> fmt::Result
    ensures { WritesOnOk W.write_str_gives f.old result (text.leaf_json (char_set characters.now)) f.new }
{
    f.write_str("{\"kind\":\"CharSet\",\"characters\":")?;
    write_numbers(characters, f)
}

fn write_bytes<W: Write>(kind: &str, bytes: &[u8], f: &mut Formatter<W>) -> fmt::Result
    ensures { WritesOnOk W.write_str_gives f.old result (text.node_of_bytes kind.now bytes.now) f.new }
{
    write!(f, "{{\"kind\":\"{kind}\",\"bytes\":")?;
    write_byte_list(bytes, f)
}

fn write_byte_list<W: Write>(bytes: &[u8], f: &mut Formatter<W>) -> fmt::Result
    ensures { WritesOnOk W.write_str_gives f.old result (text.numbers bytes.now) f.new }
{
    write_list(bytes, f)
}

fn write_numbers<W: Write>(values: &[u32], f: &mut Formatter<W>) -> fmt::Result
    ensures { WritesOnOk W.write_str_gives f.old result (text.numbers values.now) f.new }
{
    write_list(values, f)
}

/// Writes values in brackets, separated by commas.
fn write_list<T: fmt::Display, W: Write>(values: &[T], f: &mut Formatter<W>) -> fmt::Result
    ensures { (shown : T → List ℕ) → ((x : T) → T.output x ≡ Some (shown x)) →
        WritesOnOk W.write_str_gives f.old result (codes "[" ++ join_by shown (codes ",") values.now ++ codes "]") f.new }
{
    f.write_str("[")?;
    let mut comma = "";
    for value in values {
        write!(f, "{comma}{value}")?;
        comma = ",";
    }
    f.write_str("]")
}
