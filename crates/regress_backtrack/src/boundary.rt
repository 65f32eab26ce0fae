//! Word boundaries next to characters of ASCII.
ghost use Rattle.std.specs.Prelude.{◌≡◌, IfSome};
ghost use Rattle.regress_base.specs.Classes.{word_characters};
ghost use Rattle.regress_base.specs.Intervals.{is_member};
ghost use Rattle.regress_leaves.specs.Leaves.{put};
ghost use Rattle.regress_tree.specs.Assertions.{at_boundary, passes};
ghost use Rattle.regress_tree.specs.Matching.{steps};
ghost use Rattle.regress_tree.specs.Reading.{Direction, of_bytes, read_after, read_before};
ghost use Rattle.regress_tree.specs.Steps.{MatchState, Setting};
ghost use Rattle.regress_tree.specs.Tree.{tree};

use crate::beginning::is_word;
use regress_leaves::ascii::next_ascii;
use regress_tree::ir::Node;

/// Returns where a word boundary ends, or `Some(None)` if it fails; `None` if the leaf is another one, or if one of the
/// characters next to the position is not ASCII.
#[inline(always)]
pub(crate) fn boundary_end(text: &str, node: &Node, position: usize) -> Option<Option<usize>>
    ensures { IfSome result (λ to. (setting : Setting) (d : Direction) (s : MatchState) → s.position ≡ position →
        steps setting text.now d (tree node.now) s ≡ put s to) }
{
    let Node::WordBoundary {
        invert,
        unicode_icase: false,
    } = node
    else {
        return None;
    };
    if is_at_boundary(text, *invert, position)? {
        Some(Some(position))
    } else {
        Some(None)
    }
}

/// Returns whether exactly one of the characters next to a position is a word character of ASCII, or with `invert` both or
/// neither; `None` if one of the characters is not ASCII.
#[inline(always)]
fn is_at_boundary(text: &str, invert: bool, position: usize) -> Option<bool>
    ensures { IfSome result (λ holds. holds ≡ at_boundary (of_bytes text.now) (is_member word_characters) invert position) }
{
    let before = is_after_word(text, position)?;
    let after = is_before_word(text, position)?;
    Some((before != after) != invert)
}

/// Returns whether the character before a position is a word character, or `None` if it is not ASCII.
#[inline(always)]
fn is_after_word(text: &str, position: usize) -> Option<bool>
    ensures { IfSome result (λ word. word ≡ passes (is_member word_characters) (read_before text.now position)) }
{
    if position == 0 {
        return Some(false);
    }
    let (b, _) = next_ascii(text, true, position)?;
    Some(is_word(b))
}

/// Returns whether the character after a position is a word character, or `None` if it is not ASCII.
#[inline(always)]
fn is_before_word(text: &str, position: usize) -> Option<bool>
    ensures { IfSome result (λ word. word ≡ passes (is_member word_characters) (read_after text.now position)) }
{
    if position >= text.len() {
        return Some(false);
    }
    let (b, _) = next_ascii(text, false, position)?;
    Some(is_word(b))
}
