//! The words of a single node, without those of its children.
ghost use Rattle.std.specs.Prelude.{◌≡◌, ◌∷◌, ◌++◌, flat_map, map, OnOk, option_map, string_bytes};
ghost use Rattle.std.specs.Box.{boxed_slice_items};
ghost use Rattle.regress_tree.specs.Tree.{tree, trees, cat, bracket, string_set, capture_group, loop, loop_one};
ghost use Rattle.regress_encoding.specs.Encoding as words_of;

use regress_base::codepointset::Interval;
use regress_base::types::{
    AnchorType, BracketContents, CaptureGroupID, CaptureGroupName, Quantifier,
};
use regress_tree::ir::Node;
use std::alloc::AllocError;
use std::boxed::BoxedSlice;

/// Appends the words of a node, without those of its children.
pub(crate) fn push_node(node: &Node, words: &mut Vec<u32>) -> Result<(), AllocError>
    ensures { OnOk result (words.new.items ≡ words.old.items ++ words_of.node_words (tree node.now)) }
{
    match node {
        Node::Empty => words.extend_from_slice(&[0]),
        Node::Goal => words.extend_from_slice(&[1]),
        Node::Char { c } => words.extend_from_slice(&[2, *c]),
        Node::ByteSequence(bytes) => push_byte_kind(3, bytes, words),
        Node::ByteSet(bytes) => push_byte_kind(4, bytes, words),
        Node::CharSet(characters) => {
            words.extend_from_slice(&[5])?;
            push_listed(characters, words)
        }
        Node::Cat(parts) => push_cat(parts, words),
        Node::Alt(..) => words.extend_from_slice(&[7]),
        Node::MatchAny => words.extend_from_slice(&[8]),
        Node::MatchAnyExceptLineTerminator => words.extend_from_slice(&[9]),
        Node::Anchor {
            anchor_type,
            multiline,
        } => words.extend_from_slice(&[10, anchor_word(*anchor_type), truth_word(*multiline)]),
        Node::WordBoundary {
            invert,
            unicode_icase,
        } => words.extend_from_slice(&[11, truth_word(*invert), truth_word(*unicode_icase)]),
        Node::CaptureGroup { id, name, .. } => push_group(*id, name, words),
        Node::Bracket(contents) => push_bracket(contents, words),
        Node::Loop {
            quant,
            enclosed_groups,
            ..
        } => push_loop(quant, enclosed_groups.start, enclosed_groups.end, words),
        Node::Loop1CharBody { quant, .. } => push_loop_one(quant, words),
        Node::LookaroundAssertion {
            negate,
            backwards,
            start_group,
            end_group,
            ..
        } => {
            let start = u32::from(*start_group);
            let end = u32::from(*end_group);
            words.extend_from_slice(&[16, truth_word(*negate), truth_word(*backwards), start, end])
        }
        Node::BackRef { group, icase } => {
            words.extend_from_slice(&[17, *group, truth_word(*icase)])
        }
        Node::StringSet {
            alternatives,
            icase,
        } => push_string_set(alternatives, *icase, words),
    }
}

fn truth_word(b: bool) -> u32
    ensures { result ≡ words_of.truth_word b }
{
    u32::from(b)
}

fn anchor_word(anchor: AnchorType) -> u32
    ensures { result ≡ words_of.anchor_word anchor }
{
    match anchor {
        AnchorType::StartOfLine => 0,
        AnchorType::EndOfLine => 1,
    }
}

fn push_wide(n: usize, words: &mut Vec<u32>) -> Result<(), AllocError>
    ensures { OnOk result (words.new.items ≡ words.old.items ++ words_of.wide n) }
{
    let low = (n % 0x1_0000_0000) as u32;
    let high = (n / 0x1_0000_0000) as u32;
    words.extend_from_slice(&[low, high])
}

fn push_listed(numbers: &[u32], words: &mut Vec<u32>) -> Result<(), AllocError>
    ensures { OnOk result (words.new.items ≡ words.old.items ++ words_of.listed numbers.now) }
{
    push_wide(numbers.len(), words)?;
    words.extend_from_slice(numbers)
}

fn push_bytes(bytes: &[u8], words: &mut Vec<u32>) -> Result<(), AllocError>
    ensures { OnOk result (words.new.items ≡ words.old.items ++ words_of.listed bytes.now) }
{
    push_wide(bytes.len(), words)?;
    for byte in bytes {
        words.push(u32::from(*byte))?;
    }
    Ok(())
}

fn push_byte_kind(kind: u32, bytes: &[u8], words: &mut Vec<u32>) -> Result<(), AllocError>
    ensures { OnOk result (words.new.items ≡ words.old.items ++ (kind ∷ words_of.listed bytes.now)) }
{
    words.push(kind)?;
    push_bytes(bytes, words)
}

fn push_cat(parts: &[Node], words: &mut Vec<u32>) -> Result<(), AllocError>
    ensures { OnOk result (words.new.items ≡ words.old.items ++ words_of.node_words (cat (trees parts.now))) }
{
    push_counted(6, parts.len(), words)
}

fn push_counted(kind: u32, count: usize, words: &mut Vec<u32>) -> Result<(), AllocError>
    ensures { OnOk result (words.new.items ≡ words.old.items ++ (kind ∷ words_of.wide count)) }
{
    words.push(kind)?;
    push_wide(count, words)
}

fn push_group(
    id: CaptureGroupID,
    name: &Option<CaptureGroupName>,
    words: &mut Vec<u32>,
) -> Result<(), AllocError>
    ensures { OnOk result (words.new.items ≡ words.old.items
        ++ words_of.wrapper_words (capture_group id (option_map string_bytes name.now))) }
{
    words.extend_from_slice(&[12, u32::from(id)])?;
    push_name(name, words)
}

fn push_name(name: &Option<CaptureGroupName>, words: &mut Vec<u32>) -> Result<(), AllocError>
    ensures { OnOk result (words.new.items ≡ words.old.items ++ words_of.name_words (option_map string_bytes name.now)) }
{
    match name {
        Some(name) => {
            words.push(1)?;
            push_bytes(name.as_bytes(), words)
        }
        None => Ok(words.push(0)?),
    }
}

fn push_bracket(contents: &BracketContents, words: &mut Vec<u32>) -> Result<(), AllocError>
    ensures { OnOk result (words.new.items ≡ words.old.items ++ words_of.leaf_words (bracket contents.now.invert contents.now.cps)) }
{
    let intervals = contents.cps.intervals();
    words.extend_from_slice(&[13, truth_word(contents.invert)])?;
    push_wide(intervals.len(), words)?;
    push_intervals(intervals, words)
}

fn push_intervals(intervals: &[Interval], words: &mut Vec<u32>) -> Result<(), AllocError>
    ensures { OnOk result (words.new.items ≡ words.old.items ++ flat_map words_of.interval_words intervals.now) }
{
    for interval in intervals {
        words.extend_from_slice(&[interval.first(), interval.last()])?;
    }
    Ok(())
}

fn push_loop(
    quantifier: &Quantifier,
    start: CaptureGroupID,
    end: CaptureGroupID,
    words: &mut Vec<u32>,
) -> Result<(), AllocError>
    ensures { OnOk result (words.new.items ≡ words.old.items ++ words_of.wrapper_words (loop quantifier.now start end)) }
{
    words.extend_from_slice(&[14, u32::from(start), u32::from(end)])?;
    push_quantifier(quantifier, words)
}

fn push_loop_one(quantifier: &Quantifier, words: &mut Vec<u32>) -> Result<(), AllocError>
    ensures { OnOk result (words.new.items ≡ words.old.items ++ words_of.wrapper_words (loop_one quantifier.now)) }
{
    words.push(15)?;
    push_quantifier(quantifier, words)
}

fn push_quantifier(quantifier: &Quantifier, words: &mut Vec<u32>) -> Result<(), AllocError>
    ensures { OnOk result (words.new.items ≡ words.old.items ++ words_of.quantifier_words quantifier.now) }
{
    words.push(truth_word(quantifier.greedy))?;
    push_wide(quantifier.min, words)?;
    match quantifier.max {
        Some(most) => {
            words.push(1)?;
            push_wide(most, words)
        }
        None => Ok(words.push(0)?),
    }
}

fn push_string_set(
    strings: &[BoxedSlice<u32>],
    icase: bool,
    words: &mut Vec<u32>,
) -> Result<(), AllocError>
    ensures { OnOk result (words.new.items ≡ words.old.items
        ++ words_of.leaf_words (string_set (map boxed_slice_items strings.now) icase)) }
{
    words.extend_from_slice(&[18, truth_word(icase)])?;
    push_wide(strings.len(), words)?;
    push_strings(strings, words)
}

fn push_strings(strings: &[BoxedSlice<u32>], words: &mut Vec<u32>) -> Result<(), AllocError>
    ensures { OnOk result (words.new.items ≡ words.old.items ++ flat_map words_of.listed (map boxed_slice_items strings.now)) }
{
    for string in strings {
        push_listed(string, words)?;
    }
    Ok(())
}
