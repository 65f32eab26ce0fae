//! Applying a rewrite to all nodes of a tree.
ghost use Rattle.std.specs.Prelude.{◌≡◌, ◌≢◌, ◌≤◌, ℕ, Bool, true, false, IsTrue, IfOk, OnOk, OnErr, MatchBool};
ghost use Rattle.regress_tree.specs.Reading.{forwards};
ghost use Rattle.regress_tree.specs.Tree.{Tree, tree, trees, leaf, empty, cat, alt};
ghost use Rattle.regress_tree.specs.Walk.{direction_of};
ghost use Rattle.regress_tree.specs.WellFormed.{IsWellFormed, captures};
ghost use Rattle.regress_tree.specs.Units.{account, IsLess};
ghost use Rattle.regress_tree.specs.Shapes.{LacksShape, LacksInside, is_simplified_away};
ghost use Rattle.regress_rewrite.specs.Law.{IsPart, MeansTheSame};
ghost use Rattle.regress_passes.specs.Sweep.{Traversed, TraversedOf};
ghost use Rattle.regress_passes.specs.Passes.{Applied, Passed, is_success};
ghost use Rattle.regress_tree.specs.Spine.{reattach, spine_length, LeftsLackShape};
ghost use Rattle.regress_tree.specs.Visits.{Visited, Inside, ListVisited, deeper};
ghost use Rattle.regress_tree.specs.Climbs.{ClimbedMut};

use crate::rewrite::Rewrite;
use regress_tree::ir::held::{body_mut, walk_inside};
use regress_tree::ir::spine::{left_mut, restore_spine, rotate_right_spine};
use regress_tree::ir::{Node, NodeList, Regex, Walk};
use std::alloc::AllocError;

/// Applies a rewrite to every node, children before parents, in repeated traversals until one changes nothing. Returns
/// whether the tree changed. It is for rewrites of a caller's own: `optimize` does not call it.
///
/// The new tree has the same meaning and the same capture groups, and is no larger with loops counted as if they were
/// unrolled. It has none of the shapes that the rewrite removes.
///
/// # Preconditions
/// The tree is well formed.
///
/// # Complexity
/// Each traversal calls the rewrite once for each node. All traversals but the last change the tree, and make it less.
/// Recursion is as deep as nodes are nested, where the right sides of alternatives don't count.
///
/// # Errors
/// Returns the error of the rewrite. Some nodes are rewritten then and others not; the tree has the same meaning and is
/// well formed.
///
/// # Examples
/// This rewrite keeps each node, and counts its calls:
/// ```
/// #[derive(Drop)]
/// struct Counter {
///     nodes: usize,
/// }
///
/// impl Rewrite for Counter {
///     ghost use Rattle.std.specs.Prelude.{true, false};
///
///     ghost removes = { λ t. false };
///
///     ghost is_exact = { true };
///
///     fn apply(&mut self, _node: &mut Node, _walk: &Walk) -> Result<PassAction, AllocError> {
///         self.nodes = self.nodes.wrapping_add(1);
///         Ok(PassAction::Keep)
///     }
/// }
/// ```
/// It is called once for each node:
/// ```
/// let tables = Tables::small(alloc)?;
/// let points = code_points(alloc, "a|b")?;
/// let mut regex = try_parse(alloc, &points, Flags::default(), &tables)?;
/// let mut counter = Counter { nodes: 0 };
/// let changed = run_pass(&mut regex, &mut counter)?;
/// assert!(rt; !changed);
/// // the two letters, the alternation, the end, and the root
/// assert_eq!(rt; counter.nodes, 5);
/// ```
pub fn run_pass<R: Rewrite>(r: &mut Regex, pass: &mut R) -> Result<bool, AllocError>
    requires { IsWellFormed (tree r.old.node) }

    // Whatever the result is.
    ensures meaning { MeansTheSame forwards (tree r.old.node) (tree r.new.node) }
    ensures well_formed { IsWellFormed (tree r.new.node) }
    ensures captures { captures (tree r.new.node) ≡ captures (tree r.old.node) }
    ensures account { account (tree r.new.node) ≤ account (tree r.old.node) }
    ensures brackets { LacksShape is_simplified_away (tree r.old.node) → LacksShape is_simplified_away (tree r.new.node) }
    ensures flags { r.new.flags ≡ r.old.flags }

    // The calls of the rewrite, in order. An error is that of the rewrite.
    ensures passed { Passed R.step r.old.flags.unicode pass.old (tree r.old.node) (tree r.new.node) pass.new (is_success result) }

    // What is removed, and what is unchanged.
    ensures changed { IfOk result (λ changed. MatchBool changed (tree r.new.node ≢ tree r.old.node) (tree r.new.node ≡ tree r.old.node)) }
    ensures less { IfOk result (λ changed. IsTrue changed → IsLess (tree r.new.node) (tree r.old.node)) }
    ensures removed { OnOk result (LacksShape R.removes (tree r.new.node)) }
    ensures left { IsTrue R.is_exact → LacksShape R.removes (tree r.old.node) → tree r.new.node ≡ tree r.old.node }
{
    let walk = Walk::root(r.flags.unicode);
    let mut changed = false;
    while traverse(&mut r.node, pass, &walk)? {
        changed = true;
    }
    Ok(changed)
}

/// Rewrites the children of a node and then the node, and returns whether anything changed.
#[cycle(traverse)]
fn traverse<R: Rewrite>(node: &mut Node, pass: &mut R, walk: &Walk) -> Result<bool, AllocError>
    requires { IsPart (tree node.old) }
    ensures visited { Visited (Applied R.step walk.now.unicode) true walk.now.depth walk.now.in_lookbehind
        (tree node.old) (tree node.new) (pass.old, true) (pass.new, is_success result) }
    ensures swept { TraversedOf (LacksShape R.removes) R.is_exact (direction_of walk.now) (tree node.old) (tree node.new) result }
{
    let mut above = Node::Empty;
    let mut nesting = 0;
    match traverse_alternatives(node, &mut above, &mut nesting, pass, walk) {
        Ok(changed) => Ok(changed | rewrite_alternatives(node, above, nesting, pass, walk)?),
        Err(e) => {
            restore_spine(node, above);
            Err(e)
        }
    }
}

/// Descends the right sides of alternatives and traverses the left ones, and then the last alternative. The nodes of
/// the descent are in `above`, the last one first, and `nesting` is their number.
#[cycle(traverse)]
fn traverse_alternatives<R: Rewrite>(
    node: &mut Node,
    above: &mut Node,
    nesting: &mut usize,
    pass: &mut R,
    walk: &Walk,
) -> Result<bool, AllocError>
    requires part { IsPart (tree node.old) }
    requires above { tree above.old ≡ leaf empty }
    requires nesting { nesting.old ≡ 0 }
    ensures swept { Traversed (LacksShape R.removes (tree node.old))
        (LacksShape R.removes (tree node.new) × LeftsLackShape R.removes (tree above.new)) R.is_exact
        (direction_of walk.now) (tree node.old) (reattach (tree above.new) (tree node.new)) result }
    ensures nesting { OnOk result (nesting.new ≡ spine_length (tree above.new)) }
    ensures visited { (u : Tree) (b : R × Bool) → ClimbedMut (Applied R.step walk.now.unicode) (tree above.new) walk.now.depth walk.now.in_lookbehind
        (tree node.new) u (pass.new, is_success result) b →
        Visited (Applied R.step walk.now.unicode) true walk.now.depth walk.now.in_lookbehind (tree node.old) u (pass.old, true) b }
{
    let mut changed = false;
    while *nesting < usize::MAX && rotate_right_spine(node, above) {
        *nesting += 1;
        if let Some(left) = left_mut(above) {
            changed |= traverse(left, pass, &walk.inside(*nesting))?;
        }
    }
    Ok(changed | traverse_node(node, pass, &walk.inside(*nesting))?)
}

/// Rewrites the alternatives above a node, the last one first, each of which has the node as its right side.
fn rewrite_alternatives<R: Rewrite>(
    node: &mut Node,
    above: Node,
    nesting: usize,
    pass: &mut R,
    walk: &Walk,
) -> Result<bool, AllocError>
    requires part { IsPart (reattach (tree above) (tree node.old)) }
    requires nesting { nesting ≡ spine_length (tree above) }
    ensures climbed { ClimbedMut (Applied R.step walk.now.unicode) (tree above) walk.now.depth walk.now.in_lookbehind
        (tree node.old) (tree node.new) (pass.old, true) (pass.new, is_success result) }
    ensures swept { Traversed (LacksShape R.removes (reattach (tree above) (tree node.old)))
        ((LacksShape R.removes (tree node.old) × LeftsLackShape R.removes (tree above)) → LacksShape R.removes (tree node.new))
        R.is_exact (direction_of walk.now) (reattach (tree above) (tree node.old)) (tree node.new) result }
{
    let mut above = above;
    let mut nesting = nesting;
    let mut changed = false;
    while rotate_right_spine(&mut above, node) {
        nesting -= 1;
        match rewrite(node, pass, &walk.inside(nesting)) {
            Ok(here) => changed |= here,
            Err(e) => {
                restore_spine(node, above);
                return Err(e);
            }
        }
    }
    Ok(changed)
}

/// Traverses the children of a node, and rewrites the node.
#[cycle(traverse)]
fn traverse_node<R: Rewrite>(node: &mut Node, pass: &mut R, walk: &Walk) -> Result<bool, AllocError>
    requires part { IsPart (tree node.old) }
    requires fresh { walk.now.skip_children ≡ false }
    ensures visited { Visited (Applied R.step walk.now.unicode) true walk.now.depth walk.now.in_lookbehind
        (tree node.old) (tree node.new) (pass.old, true) (pass.new, is_success result) }
    ensures swept { TraversedOf (LacksShape R.removes) R.is_exact (direction_of walk.now) (tree node.old) (tree node.new) result }
{
    let changed = traverse_children(node, pass, walk)?;
    Ok(changed | rewrite(node, pass, walk)?)
}

/// Traverses the children of a node.
#[cycle(traverse)]
fn traverse_children<R: Rewrite>(
    node: &mut Node,
    pass: &mut R,
    walk: &Walk,
) -> Result<bool, AllocError>
    requires { IsPart (tree node.old) }
    ensures visited { Inside (Applied R.step walk.now.unicode) true walk.now.depth walk.now.in_lookbehind
        (tree node.old) (tree node.new) (pass.old, true) (pass.new, is_success result) }
    ensures swept { TraversedOf (LacksInside R.removes) R.is_exact (direction_of walk.now) (tree node.old) (tree node.new) result }
{
    let inner = walk_inside(walk, node);
    match node {
        Node::Cat(parts) => traverse_parts(parts, pass, &inner),
        Node::Alt(left, right) => traverse_sides(left, right, pass, &inner),
        _ => match body_mut(node) {
            Some(body) => traverse(body, pass, &inner),
            None => Ok(false),
        },
    }
}

/// Traverses the sides of an `Alt`.
#[cycle(traverse)]
fn traverse_sides<R: Rewrite>(
    left: &mut Node,
    right: &mut Node,
    pass: &mut R,
    walk: &Walk,
) -> Result<bool, AllocError>
    requires { IsPart (alt (tree left.old) (tree right.old)) }
    ensures visited { (depth : ℕ) → walk.now.depth ≡ deeper depth →
        Inside (Applied R.step walk.now.unicode) true depth walk.now.in_lookbehind (alt (tree left.old) (tree right.old))
        (alt (tree left.new) (tree right.new)) (pass.old, true) (pass.new, is_success result) }
    ensures swept { TraversedOf (LacksInside R.removes) R.is_exact (direction_of walk.now)
        (alt (tree left.old) (tree right.old)) (alt (tree left.new) (tree right.new)) result }
{
    let changed = traverse(left, pass, walk)?;
    Ok(changed | traverse(right, pass, walk)?)
}

/// Traverses the parts of a `Cat`.
#[cycle(traverse)]
fn traverse_parts<R: Rewrite>(
    parts: &mut NodeList,
    pass: &mut R,
    walk: &Walk,
) -> Result<bool, AllocError>
    requires { IsPart (cat (trees parts.old.items)) }
    ensures visited { ListVisited (Applied R.step walk.now.unicode) true walk.now.depth walk.now.in_lookbehind
        (trees parts.old.items) (trees parts.new.items) (pass.old, true) (pass.new, is_success result) }
    ensures swept { TraversedOf (LacksInside R.removes) R.is_exact (direction_of walk.now)
        (cat (trees parts.old.items)) (cat (trees parts.new.items)) result }
{
    let mut changed = false;
    for i in 0..parts.len() {
        changed |= traverse(&mut parts[i], pass, walk)?;
    }
    Ok(changed)
}

/// Applies the rewrite to one node, and carries out its action.
fn rewrite<R: Rewrite>(node: &mut Node, pass: &mut R, walk: &Walk) -> Result<bool, AllocError>
    requires part { IsPart (tree node.old) }
    requires fresh { walk.now.skip_children ≡ false }
    ensures applied { (skip : Bool) → Applied R.step walk.now.unicode (pass.old, true) (tree node.old) walk.now.depth walk.now.in_lookbehind
        (pass.new, is_success result) (tree node.new) skip }
    ensures swept { TraversedOf (λ t. R.removes t ≡ false) R.is_exact (direction_of walk.now) (tree node.old) (tree node.new) result }
{
    let action = pass.apply(node, walk)?;
    Ok(action.carry_out(node))
}
