//! Simplification of brackets.
ghost use Rattle.std.specs.Prelude.{◌≡◌, true, not, nat_le, nat_lt, length, flat_map, IfOk, OnErr};
ghost use Rattle.regress_base.specs.Limits.{max_char_set_length};
ghost use Rattle.regress_base.specs.Listing.{code_points};
ghost use Rattle.regress_tree.specs.Copies.{is_leaf};
ghost use Rattle.regress_tree.specs.Reading.{Direction};
ghost use Rattle.regress_tree.specs.Tree.{tree};
ghost use Rattle.regress_tree.specs.Shapes.{code_point_count, gap_count, is_simplified_away};
ghost use Rattle.regress_rewrite.specs.Law.{IsPart, after, ObeysLaw};
ghost use Rattle.regress_rewrite.specs.Simplify.{Simplifies};

use crate::action::PassAction;
use regress_base::codepointset::{CodePointSet, Interval};
use regress_base::types::{BracketContents, MAX_CHAR_SET_LENGTH};
use regress_tree::ir::Node;
use std::alloc::{AllocError, Global};

/// Replaces a bracket of at most four code points that is not inverted by a `CharSet` of these, in ascending order. Any
/// other bracket with more intervals than its complement gets the complement, with `invert` flipped. Keeps any other
/// node.
///
/// # Preconditions
/// The node is part of a well-formed tree.
///
/// # Complexity
/// Linear in the intervals if the complement is taken, else constant.
///
/// # Errors
/// Returns [`AllocError`] if an allocation fails. The node is unchanged.
pub fn simplify_brackets(alloc: Global, node: &mut Node) -> Result<PassAction, AllocError>
    requires { IsPart (tree node.old) }
    ensures lawful { (d : Direction) → IfOk result (ObeysLaw is_simplified_away true d (tree node.old) (tree node.new)) }
    ensures leaf { IfOk result (λ action. is_leaf (after action (tree node.new)) ≡ is_leaf (tree node.old)) }
    ensures err { OnErr result (tree node.new ≡ tree node.old) }
{
    match node {
        Node::Bracket(contents) => simplify_bracket(alloc, contents),
        _ => Ok(PassAction::Keep),
    }
}

/// Simplifies a bracket with these contents, or returns the node that replaces it.
fn simplify_bracket(alloc: Global, contents: &mut BracketContents) -> Result<PassAction, AllocError>
    ensures action { IfOk result (λ action. Simplifies action contents.old contents.new) }
    ensures err { OnErr result (contents.new ≡ contents.old) }
{
    if !contents.invert && is_small(contents.cps.intervals()) {
        let characters = code_points(alloc, contents.cps.intervals())?;
        return Ok(PassAction::Replace(Node::CharSet(characters)));
    }
    if is_long(&contents.cps) {
        contents.cps = contents.cps.inverted()?;
        contents.invert = !contents.invert;
        return Ok(PassAction::Modified);
    }
    Ok(PassAction::Keep)
}

/// Returns whether a `CharSet` can hold the code points. It looks at no more than five intervals.
fn is_small(intervals: &[Interval]) -> bool
    ensures { result ≡ nat_le (code_point_count intervals.now) max_char_set_length }
{
    let mut room = MAX_CHAR_SET_LENGTH;
    for iv in intervals {
        let count = iv.count_codepoints();
        if count > room {
            return false;
        }
        room -= count;
    }
    true
}

/// Returns whether the complement has fewer intervals. Constant.
fn is_long(set: &CodePointSet) -> bool
    ensures { result ≡ nat_lt (gap_count 0 set.now) (length set.now) }
{
    set.inverted_interval_count() < set.intervals().len()
}

/// Returns the code points of the intervals in order.
fn code_points(alloc: Global, intervals: &[Interval]) -> Result<Vec<u32>, AllocError>
    ensures { IfOk result (λ list. list.items ≡ flat_map code_points intervals.now) }
{
    intervals
        .iter()
        .flat_map(|iv| iv.codepoints())
        .collect(alloc)
}
