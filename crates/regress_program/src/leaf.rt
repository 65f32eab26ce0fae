//! What leaves match, back references among them.
ghost use Rattle.std.specs.Prelude.{◌≡◌, ◌-◌, None, Some, get_or, length};
ghost use Rattle.regress_leaves.specs.Leaves.{put};
ghost use Rattle.regress_leaves.specs.Subject.{subject};
ghost use Rattle.regress_program.specs.Cost.{bytes_ahead, characters_cost, compared, copy_cost};
ghost use Rattle.regress_found.specs.Found.{state};
ghost use Rattle.regress_program.specs.Shape.{IsPart};
ghost use Rattle.regress_tree.specs.Matching.{steps};
ghost use Rattle.regress_tree.specs.Reading.{direction_if};
ghost use Rattle.regress_tree.specs.Tree.{tree};

use crate::blocks::blocks;
use regress_leaves::leaves::{all_of, exactly, simple_leaf};
use regress_leaves::references::match_again;
use regress_leaves::rules::MatchContext;
use regress_tree::ir::Node;

/// Returns the position at which a leaf, or a fixed number of characters, ends, or `None` if it fails. The comparison of a
/// back reference with its capture is subtracted from the remaining steps: one for each 64 bytes, or with `icase` for
/// each byte; and that of characters, one for each 64 after the first. What is longer than the rest of the text counts as
/// that.
///
/// # Preconditions
/// The node is a leaf, and no set of strings unless it has exactly one string; or a loop over one character whose minimum
/// is its maximum.
#[inline(always)]
pub fn leaf_end(
    text: &str,
    rules: MatchContext<'_>,
    node: &Node,
    position: usize,
    captures: &[Option<(usize, usize)>],
    left: &mut u64,
) -> Option<usize>
    requires { IsPart (tree node.now) }
    ensures to { let u = subject rules.entry text.now in
        steps u.setting u.bytes u.direction (tree node.now) (state captures.now position) ≡ put (state captures.now position) result }
    ensures costs { left.new ≡ left.old - compared (bytes_ahead (subject rules.entry text.now).direction (length text.now) position) (tree node.now) (state captures.now position) }
{
    match node {
        Node::BackRef { group, icase } => {
            // A reference to a group without a capture matches the empty text.
            let Some(span) = capture_of(captures, *group) else {
                return Some(position);
            };
            let ahead = bytes_ahead(text, rules.backwards, position);
            *left = left.saturating_sub(copy_steps(*icase, span, ahead));
            match_again(text, rules, *icase, span, position)
        }
        Node::StringSet {
            alternatives,
            icase,
        } => all_of(text, rules, *icase, &alternatives[0], position),
        Node::Loop1CharBody { loopee, quant } => {
            let ahead = bytes_ahead(text, rules.backwards, position);
            *left = left.saturating_sub(characters_steps(quant.min, ahead));
            exactly(text, rules, loopee, quant.min, position)
        }
        _ => simple_leaf(text, rules, node, position),
    }
}

/// Returns the capture of a group, which patterns number from 1.
fn capture_of(captures: &[Option<(usize, usize)>], group: u32) -> Option<(usize, usize)>
    ensures { result ≡ get_or captures.now (group - 1) None }
{
    let id = group.saturating_sub(1) as usize;
    if id < captures.len() {
        captures[id]
    } else {
        None
    }
}

/// Returns the number of bytes from a position to where the text ends in the direction of matching.
pub fn bytes_ahead(text: &str, backwards: bool, position: usize) -> usize
    ensures { result ≡ bytes_ahead (direction_if backwards) (length text.now) position }
{
    if backwards {
        position
    } else {
        text.len().saturating_sub(position)
    }
}

/// Returns the number of steps for an exact number of characters, where `ahead` bytes remain up to where the text ends.
fn characters_steps(count: usize, ahead: usize) -> u64
    ensures { result ≡ characters_cost ahead count }
{
    blocks(count.saturating_sub(1).min(ahead))
}

/// Returns the number of steps for a comparison with a capture, where `ahead` bytes remain up to where the text ends.
fn copy_steps(icase: bool, span: (usize, usize), ahead: usize) -> u64
    ensures { result ≡ copy_cost icase ahead (Some span) }
{
    let bytes = span.1.abs_diff(span.0).min(ahead);
    if icase { bytes as u64 } else { blocks(bytes) }
}
