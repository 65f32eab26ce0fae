//! The test whether a tree is well formed.
ghost use Rattle.std.specs.Prelude.{◌≡◌, ◌↔◌, true, false, [], IsTrue, MatchOption, IfSome, All, map, option_map, string_bytes, ◌≢◌, ◌≤◌};
ghost use Rattle.std.specs.Box.{boxed_slice_items};
ghost use Rattle.regress_base.specs.Intervals.{code_point_max};
ghost use Rattle.regress_tree.specs.Tree.{tree, trees, cat};
ghost use Rattle.regress_tree.specs.WellFormed.{IsQuantifier, IsSmallSet, AreUtf8, root, inside, one_character};
ghost use Rattle.regress_tree.specs.Spine.{is_alt};
ghost use Rattle.regress_tree.specs.Copies.{is_leaf};
ghost use Rattle.regress_tree.specs.NodeTests.{is_goal};
ghost use Rattle.regress_tree.specs.Survey.{IsTally, reference, IsAllowedInside, SurveyedAt, RejectedAt, without_goal};

use super::brackets::accepts_none;
use super::groups::{GroupIds, Tally};
use super::node::{Node, Regex};
use regress_base::codepointset::{CODE_POINT_MAX, is_canonical};
use regress_base::sets::are_code_points;
use regress_base::types::{CaptureGroupName, MAX_CHAR_SET_LENGTH, Quantifier};
use std::boxed::BoxedSlice;
use std::str;

impl Regex {
    ghost use Rattle.std.specs.Prelude.{◌↔◌, IsTrue};
    ghost use Rattle.regress_tree.specs.Tree.{tree};
    ghost use Rattle.regress_tree.specs.WellFormed.{IsWellFormed};

    /// Returns whether the tree is well formed: each node is allowed where it is (`specs/WellFormed.antt`), and the ids
    /// of its n capture groups are 0 to n - 1, each once. Each parsed tree is well formed; a tree that was built by
    /// hand may not be.
    ///
    /// # Complexity
    /// One pass over the tree. It allocates nothing and takes 8 KiB of stack for the set of ids. The recursion is as
    /// deep as nodes are nested, where right sides of alternatives do not count.
    ///
    /// # Examples
    /// ```
    /// let node = Node::CaptureGroup {
    ///     id: 1,
    ///     contents: Box::new(alloc, Node::Empty)?,
    ///     name: None,
    /// };
    /// let flags = Flags::default();
    /// let regex = Regex { node, flags };
    /// // the id of the first group is 0
    /// assert!(rt; !regex.is_well_formed());
    /// ```
    pub fn is_well_formed(&self) -> bool
        ensures { IsTrue result ↔ IsWellFormed (tree self.now.node) }
    {
        let mut ids = GroupIds::new();
        match survey_root(&self.node, &mut ids) {
            Some(groups) => groups.are(0, groups.count) && groups.reference <= groups.count,
            None => false,
        }
    }
}

/// Surveys a whole tree. The result is `None` if a part is not allowed where it is or an id occurs twice.
fn survey_root(node: &Node, ids: &mut GroupIds) -> Option<Tally>
    ensures { MatchOption result (RejectedAt root (tree node.now) ids.old) (SurveyedAt root (tree node.now) ids.old ids.new) }
{
    match node {
        Node::Goal => Some(Tally::none(0)),
        Node::Cat(parts) => survey_parts(without_goal(parts), ids),
        _ => survey(node, ids),
    }
}

/// Returns the parts of a `Cat` that is the root, without a goal at the end.
fn without_goal(parts: &[Node]) -> &[Node]
    ensures { trees result.now ≡ without_goal (trees parts.now) }
{
    let Some((last, others)) = parts.split_last() else {
        return parts;
    };
    if is_goal(last) { others } else { parts }
}

fn is_goal(node: &Node) -> bool
    ensures { result ≡ is_goal (tree node.now) }
{
    matches!(node, Node::Goal)
}

/// Surveys a part that is inside a tree. A loop follows the right sides of alternatives, since an alternation nests as
/// deep as it has alternatives.
#[cycle(survey)]
fn survey(node: &Node, ids: &mut GroupIds) -> Option<Tally>
    ensures { MatchOption result (RejectedAt inside (tree node.now) ids.old) (SurveyedAt inside (tree node.now) ids.old ids.new) }
{
    let mut node = node;
    let mut groups = Tally::none(0);
    while let Node::Alt(left, right) = node {
        groups = groups.join(survey(left, ids)?);
        node = right;
    }
    Some(groups.join(survey_other(node, ids)?))
}

/// Surveys the parts of a `Cat`.
#[cycle(survey)]
fn survey_parts(parts: &[Node], ids: &mut GroupIds) -> Option<Tally>
    ensures { MatchOption result (RejectedAt inside (cat (trees parts.now)) ids.old)
        (SurveyedAt inside (cat (trees parts.now)) ids.old ids.new) }
{
    let mut groups = Tally::none(0);
    for part in parts {
        groups = groups.join(survey(part, ids)?);
    }
    Some(groups)
}

/// Surveys a part that is not an `Alt`.
#[cycle(survey)]
fn survey_other(node: &Node, ids: &mut GroupIds) -> Option<Tally>
    requires { is_alt (tree node.now) ≡ false }
    ensures { MatchOption result (RejectedAt inside (tree node.now) ids.old) (SurveyedAt inside (tree node.now) ids.old ids.new) }
{
    match node {
        Node::Cat(parts) => survey_parts(parts, ids),
        Node::CaptureGroup { id, contents, name } => {
            if !is_name(name) || !ids.insert(*id) {
                return None;
            }
            Some(survey(contents, ids)?.with(*id))
        }
        Node::Loop {
            loopee,
            quant,
            enclosed_groups,
        } => {
            let (start, end) = (enclosed_groups.start, enclosed_groups.end);
            let groups = survey(loopee, ids)?;
            if is_quantifier(quant) && groups.are(u32::from(start), u32::from(end)) {
                Some(groups)
            } else {
                None
            }
        }
        Node::Loop1CharBody { loopee, quant } => {
            if is_quantifier(quant) && is_one_character(loopee) {
                Some(Tally::none(0))
            } else {
                None
            }
        }
        Node::LookaroundAssertion {
            start_group,
            end_group,
            contents,
            ..
        } => {
            let (start, end) = (*start_group, *end_group);
            let groups = survey(contents, ids)?;
            if groups.are(u32::from(start), u32::from(end)) {
                Some(groups)
            } else {
                None
            }
        }
        _ => survey_leaf(node),
    }
}

/// Surveys a part that contains no node.
fn survey_leaf(node: &Node) -> Option<Tally>
    requires { is_leaf (tree node.now) ≡ true }
    ensures { MatchOption result (IsAllowedInside inside (tree node.now) → ⊥)
        (λ groups. IsAllowedInside inside (tree node.now) × IsTally groups [] (reference (tree node.now))) }
{
    if !leaf_is_allowed(node) {
        return None;
    }
    Some(Tally::none(match node {
        Node::BackRef { group, .. } => *group,
        _ => 0,
    }))
}

/// Returns whether a part that contains no node is allowed inside a tree of enough groups.
fn leaf_is_allowed(node: &Node) -> bool
    requires { is_leaf (tree node.now) ≡ true }
    ensures { IsTrue result ↔ IsAllowedInside inside (tree node.now) }
{
    match node {
        Node::Empty
        | Node::MatchAny
        | Node::MatchAnyExceptLineTerminator
        | Node::Anchor { .. }
        | Node::WordBoundary { .. } => true,
        Node::Goal => false,
        Node::Char { c } => *c <= CODE_POINT_MAX,
        Node::ByteSequence(bytes) => is_encoded(bytes),
        Node::ByteSet(bytes) => is_byte_set(bytes),
        Node::CharSet(characters) => is_char_set(characters),
        Node::Bracket(contents) => is_canonical(contents.cps.intervals()),
        Node::BackRef { group, .. } => *group >= 1,
        Node::StringSet { alternatives, .. } => are_strings(alternatives),
        _ => unreachable!(),
    }
}

/// Returns whether the node is allowed as the body of a `Loop1CharBody`.
fn is_one_character(node: &Node) -> bool
    ensures { IsTrue result ↔ IsAllowedInside one_character (tree node.now) }
{
    match node {
        Node::Char { c } => *c <= CODE_POINT_MAX,
        Node::ByteSequence(bytes) => is_encoded_character(bytes),
        Node::ByteSet(bytes) => !bytes.is_empty() && is_byte_set(bytes),
        Node::CharSet(characters) => !characters.is_empty() && is_char_set(characters),
        Node::MatchAny | Node::MatchAnyExceptLineTerminator => true,
        Node::Bracket(contents) => !accepts_none(contents),
        _ => false,
    }
}

/// Returns whether the name, if there is one, is not empty.
fn is_name(name: &Option<CaptureGroupName>) -> bool
    ensures { IsTrue result ↔ IfSome (option_map string_bytes name.now) (λ bytes. bytes ≢ []) }
{
    match name {
        Some(name) => !name.is_empty(),
        None => true,
    }
}

/// Returns whether the minimum is at most the maximum.
fn is_quantifier(quant: &Quantifier) -> bool
    ensures { IsTrue result ↔ IsQuantifier quant.now }
{
    match quant.max {
        Some(max) => quant.min <= max,
        None => true,
    }
}

/// Returns whether the bytes are the UTF-8 of characters.
fn is_encoded(bytes: &[u8]) -> bool
    ensures { IsTrue result ↔ AreUtf8 bytes.now inside }
{
    str::from_utf8(bytes).is_ok()
}

/// Returns whether the bytes are the UTF-8 of exactly one character.
fn is_encoded_character(bytes: &[u8]) -> bool
    ensures { IsTrue result ↔ AreUtf8 bytes.now one_character }
{
    match str::from_utf8(bytes) {
        Ok(text) => text.chars().count() == 1,
        Err(_) => false,
    }
}

/// Returns whether there are at most four bytes, and all are ASCII.
fn is_byte_set(bytes: &[u8]) -> bool
    ensures { IsTrue result ↔ IsSmallSet bytes.now 127 inside }
{
    bytes.len() <= MAX_CHAR_SET_LENGTH && bytes.iter().all(|b| *b <= 0x7F)
}

/// Returns whether there are at most four members, and all are code points.
fn is_char_set(characters: &[u32]) -> bool
    ensures { IsTrue result ↔ IsSmallSet characters.now code_point_max inside }
{
    characters.len() <= MAX_CHAR_SET_LENGTH && are_code_points(characters)
}

/// Returns whether all are strings of code points.
fn are_strings(strings: &[BoxedSlice<u32>]) -> bool
    ensures { IsTrue result ↔ All (All (λ c. c ≤ code_point_max)) (map boxed_slice_items strings.now) }
{
    for string in strings {
        if !are_code_points(string) {
            return false;
        }
    }
    true
}
