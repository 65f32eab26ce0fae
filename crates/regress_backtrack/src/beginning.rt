//! Assertions at the start of a pattern.
ghost use Rattle.std.specs.Prelude.{◌≡◌, ◌≤◌, ◌<◌, ℕ, IfSome, false, length, true};
ghost use Rattle.regress_base.specs.Classes.{word_characters};
ghost use Rattle.regress_base.specs.Intervals.{is_member};
ghost use Rattle.regress_tree.specs.Assertions.{is_line_terminator};
ghost use Rattle.regress_tree.specs.Tree.{leaf, tree};
ghost use Rattle.regress_backtrack.specs.Next.{IsInput};
ghost use Rattle.regress_backtrack.specs.Beginning.{BeginsWithAssertion, IsExcluded, IsInsideLine, IsInsideWord, assertion};

use crate::input::{Input, instruction_in, test_at};
use regress_program::instruction::Instruction;
use regress_tree::ir::{AnchorType, Node};

/// An assertion with which a pattern begins.
#[derive(Clone, Copy)]
pub(crate) enum Beginning {
    /// A `\b`, for which word characters are those of ASCII.
    WordBoundary,
    /// A multiline `^`.
    LineStart,
}

/// Returns the assertion with which the pattern begins, if there is one.
///
/// # Preconditions
/// The input is one that `input_for` returns.
pub(crate) fn beginning_of(input: &Input<'_, '_>) -> Option<Beginning>
    requires { IsInput input.now }
    ensures { IfSome result (BeginsWithAssertion input.now) }
{
    let Instruction::Leaf { leaf, .. } = instruction_in(input, input.first)? else {
        return None;
    };
    assertion_of(&test_at(input, leaf)?.node)
}

/// Returns the assertion that a node is, if it is one of these.
fn assertion_of(node: &Node) -> Option<Beginning>
    ensures { IfSome result (λ beginning. tree node.now ≡ leaf (assertion beginning)) }
{
    match node {
        Node::WordBoundary {
            invert: false,
            unicode_icase: false,
        } => Some(Beginning::WordBoundary),
        Node::Anchor {
            anchor_type: AnchorType::StartOfLine,
            multiline: true,
        } => Some(Beginning::LineStart),
        _ => None,
    }
}

/// Returns the least position, `from` or later, at which the bytes next to it do not exclude the assertion, or the end
/// of the text.
///
/// # Preconditions
/// `from` is inside the text.
///
/// # Complexity
/// Linear in the number of bytes from `from` to the result.
pub(crate) fn next_possible(beginning: Beginning, text: &str, from: usize) -> usize
    requires { from ≤ length text.now }
    ensures low { from ≤ result }
    ensures high { result ≤ length text.now }
    ensures excluded { (k : ℕ) → from ≤ k → k < result → IsExcluded beginning text.now k }
{
    match beginning {
        Beginning::WordBoundary => outside_word(text, from),
        Beginning::LineStart => outside_line(text, from),
    }
}

/// Returns the least position, `from` or later, that is not between two word characters of ASCII.
///
/// # Preconditions
/// `from` is inside the text.
fn outside_word(text: &str, from: usize) -> usize
    requires { from ≤ length text.now }
    ensures low { from ≤ result }
    ensures high { result ≤ length text.now }
    ensures inside { (k : ℕ) → from ≤ k → k < result → IsInsideWord text.now k }
{
    let bytes = text.as_bytes();
    if from == 0 || !is_word(bytes[from - 1]) {
        return from;
    }
    let mut position = from;
    while position < bytes.len() && is_word(bytes[position]) {
        position += 1;
    }
    position
}

/// Returns the least position, `from` or later, that is not after a character of ASCII within a line, or the end of the
/// text.
///
/// # Preconditions
/// `from` is inside the text.
fn outside_line(text: &str, from: usize) -> usize
    requires { from ≤ length text.now }
    ensures low { from ≤ result }
    ensures high { result ≤ length text.now }
    ensures inside { (k : ℕ) → from ≤ k → k < result → IsInsideLine text.now k }
{
    let bytes = text.as_bytes();
    let mut position = from;
    while position > 0 && position < bytes.len() && is_in_line(bytes[position - 1]) {
        position += 1;
    }
    position
}

/// Returns whether a byte is a word character of ASCII.
#[inline(always)]
#[tactic(auto, unfolding(regress_base::specs::Intervals::is_member, regress_base::specs::Intervals::is_within))]
pub(crate) fn is_word(b: u8) -> bool
    ensures member { result ≡ is_member word_characters b }
    ensures ascii { result ≡ true → b < 128 }
{
    matches!(b, 0x30..=0x39 | 0x41..=0x5A | 0x5F | 0x61..=0x7A)
}

/// Returns whether a byte is a character of ASCII that does not end a line.
#[inline(always)]
#[tactic(auto, unfolding(regress_base::specs::Intervals::is_member, regress_base::specs::Intervals::is_within))]
fn is_in_line(b: u8) -> bool
    ensures ascii { result ≡ true → b < 128 }
    ensures goes_on { result ≡ true → is_line_terminator b ≡ false }
{
    matches!(b, 0..=0x9 | 0xB..=0xC | 0xE..=0x7F)
}
