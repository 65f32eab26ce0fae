//! Walks that may change the nodes.
ghost use Rattle.std.specs.Prelude.{◌≡◌, true, false};
ghost use Rattle.regress_tree.specs.Tree.{tree, trees, leaf, empty};
ghost use Rattle.regress_tree.specs.Spine.{spine_length};
ghost use Rattle.regress_tree.specs.Visits.{CallsMut, Visited, Inside, ListVisited, AddsNoNodes};
ghost use Rattle.regress_tree.specs.Climbs.{ClimbedMut};

use super::held::{body_mut, walk_inside};
use super::spine::{left_mut, restore_spine, rotate_right_spine};
use super::{Node, NodeList, Walk};

/// Calls `func` on each node of the tree, with the [`Walk`] there: on a node before its children, or with `postorder`
/// after them. In preorder the children are those of the node that the call left, and a call that sets `skip_children`
/// leaves them out. Whatever else a call writes to its `Walk` has no effect. `unicode` is the value of
/// [`Walk::unicode`] in each call.
///
/// # Preconditions
/// - `func` has no precondition: it may be called with any node and any walk.
/// - In preorder no call leaves a node with more nodes than it had, so the walk ends.
///
/// # Complexity
/// Linear in the number of nodes. The recursion is as deep as nodes are nested, where right sides of alternatives do
/// not count. Nothing is allocated.
///
/// # Examples
/// ```
/// let tables = Tables::small(alloc)?;
/// let points = code_points(alloc, "a.")?;
/// let mut regex = try_parse(alloc, &points, Flags::default(), &tables)?;
/// walk_mut(
///     true,
///     regex.flags.unicode,
///     &mut regex.node,
///     &mut |node: &mut Node, _walk: &mut Walk| {
///         if matches!(node, Node::MatchAnyExceptLineTerminator) {
///             *node = Node::MatchAny;
///         }
///     },
/// );
/// let printed = regex.to_string(alloc)?;
/// assert_eq!(rt;
///     printed.as_str(),
///     "Cat\n..Cat\n....'97'\n....MatchAny\n..Goal\n"
/// );
/// ```
pub fn walk_mut<F: FnMut(&mut Node, &mut Walk)>(
    postorder: bool,
    unicode: bool,
    n: &mut Node,
    func: &mut F,
)
    requires callable { F.IsAlwaysCallable func.old }
    requires ends { postorder ≡ false → AddsNoNodes F.step }
    ensures callable { F.IsAlwaysCallable func.new }
    ensures visited { Visited (CallsMut F.step unicode) postorder 0 false (tree n.old) (tree n.new) func.old func.new }
{
    visit_mut(postorder, n, &Walk::root(unicode), func);
}

/// Visits a node and what is inside it.
#[cycle(visit_mut)]
fn visit_mut<F: FnMut(&mut Node, &mut Walk)>(
    postorder: bool,
    n: &mut Node,
    walk: &Walk,
    func: &mut F,
)
    requires callable { F.IsAlwaysCallable func.old }
    requires ends { postorder ≡ false → AddsNoNodes F.step }
    ensures callable { F.IsAlwaysCallable func.new }
    ensures visited { Visited (CallsMut F.step walk.now.unicode) postorder walk.now.depth walk.now.in_lookbehind
        (tree n.old) (tree n.new) func.old func.new }
{
    if postorder {
        visit_after(n, walk, func);
    } else {
        visit_before(n, walk, func);
    }
}

/// Visits in preorder, in a loop down the right sides of alternatives, whose links are reversed for the way back.
#[cycle(visit_mut)]
fn visit_before<F: FnMut(&mut Node, &mut Walk)>(n: &mut Node, walk: &Walk, func: &mut F)
    requires callable { F.IsAlwaysCallable func.old }
    requires ends { AddsNoNodes F.step }
    ensures callable { F.IsAlwaysCallable func.new }
    ensures visited { Visited (CallsMut F.step walk.now.unicode) false walk.now.depth walk.now.in_lookbehind
        (tree n.old) (tree n.new) func.old func.new }
{
    let mut above = Node::Empty;
    let mut here = walk.fresh();
    while !call(n, &here, func) {
        if !rotate_right_spine(n, &mut above) {
            visit_inside(false, n, &here, func);
            break;
        }
        here = here.inside(1);
        if let Some(left) = left_mut(&mut above) {
            visit_mut(false, left, &here, func);
        }
    }
    restore_spine(n, above);
}

/// Visits in postorder: a loop down the right sides of alternatives, and the calls on the way back up.
#[cycle(visit_mut)]
fn visit_after<F: FnMut(&mut Node, &mut Walk)>(n: &mut Node, walk: &Walk, func: &mut F)
    requires { F.IsAlwaysCallable func.old }
    ensures callable { F.IsAlwaysCallable func.new }
    ensures visited { Visited (CallsMut F.step walk.now.unicode) true walk.now.depth walk.now.in_lookbehind
        (tree n.old) (tree n.new) func.old func.new }
{
    let mut above = Node::Empty;
    let mut here = walk.fresh();
    let mut nesting = 0;
    while nesting < usize::MAX && rotate_right_spine(n, &mut above) {
        here = here.inside(1);
        nesting += 1;
        if let Some(left) = left_mut(&mut above) {
            visit_mut(true, left, &here, func);
        }
    }
    visit_inside(true, n, &here, func);
    call(n, &here, func);
    climb(n, above, nesting, walk, func);
}

/// Visits what is inside a node.
#[cycle(visit_mut)]
fn visit_inside<F: FnMut(&mut Node, &mut Walk)>(
    postorder: bool,
    n: &mut Node,
    walk: &Walk,
    func: &mut F,
)
    requires callable { F.IsAlwaysCallable func.old }
    requires ends { postorder ≡ false → AddsNoNodes F.step }
    ensures callable { F.IsAlwaysCallable func.new }
    ensures visited { Inside (CallsMut F.step walk.now.unicode) postorder walk.now.depth walk.now.in_lookbehind
        (tree n.old) (tree n.new) func.old func.new }
{
    let inner = walk_inside(walk, n);
    match n {
        Node::Cat(parts) => visit_list(postorder, parts, &inner, func),
        Node::Alt(left, right) => {
            visit_mut(postorder, left, &inner, func);
            visit_mut(postorder, right, &inner, func);
        }
        _ => {
            if let Some(body) = body_mut(n) {
                visit_mut(postorder, body, &inner, func);
            }
        }
    }
}

/// Visits the nodes of a list in order.
#[cycle(visit_mut)]
fn visit_list<F: FnMut(&mut Node, &mut Walk)>(
    postorder: bool,
    parts: &mut NodeList,
    walk: &Walk,
    func: &mut F,
)
    requires callable { F.IsAlwaysCallable func.old }
    requires ends { postorder ≡ false → AddsNoNodes F.step }
    ensures callable { F.IsAlwaysCallable func.new }
    ensures visited { ListVisited (CallsMut F.step walk.now.unicode) postorder walk.now.depth walk.now.in_lookbehind
        (trees parts.old.items) (trees parts.new.items) func.old func.new }
{
    for i in 0..parts.len() {
        visit_mut(postorder, &mut parts[i], walk, func);
    }
}

/// Restores the reversed links, and calls `func` on each `Alt` on the way up.
fn climb<F: FnMut(&mut Node, &mut Walk)>(
    n: &mut Node,
    above: Node,
    nesting: usize,
    walk: &Walk,
    func: &mut F,
)
    requires callable { F.IsAlwaysCallable func.old }
    requires nesting { nesting ≡ spine_length (tree above) }
    ensures callable { F.IsAlwaysCallable func.new }
    ensures climbed { ClimbedMut (CallsMut F.step walk.now.unicode) (tree above) walk.now.depth walk.now.in_lookbehind
        (tree n.old) (tree n.new) func.old func.new }
{
    let mut above = above;
    let mut nesting = nesting;
    while rotate_right_spine(&mut above, n) {
        nesting -= 1;
        call(n, &walk.inside(nesting), func);
    }
}

/// Calls `func` on a node, and returns whether to leave its children out.
fn call<F: FnMut(&mut Node, &mut Walk)>(n: &mut Node, walk: &Walk, func: &mut F) -> bool
    requires { F.IsAlwaysCallable func.old }
    ensures callable { F.IsAlwaysCallable func.new }
    ensures called { CallsMut F.step walk.now.unicode func.old (tree n.old) walk.now.depth walk.now.in_lookbehind func.new
        (tree n.new) result }
{
    let mut shown = walk.fresh();
    func(n, &mut shown);
    shown.skip_children
}
