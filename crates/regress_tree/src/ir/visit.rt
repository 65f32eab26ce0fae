//! Walks that only inspect the nodes.
ghost use Rattle.std.specs.Prelude.{◌≡◌, true, false};
ghost use Rattle.regress_tree.specs.Tree.{tree, trees};
ghost use Rattle.regress_tree.specs.Visits.{Calls, Visited, Inside, ListVisited};
ghost use Rattle.regress_tree.specs.Climbs.{Climbed, down};

use super::held::{body, walk_inside};
use super::{Node, Walk};

/// Calls `func` on each node of the tree, with the [`Walk`] there: on a node before its children, or with `postorder`
/// after them. In preorder a call that sets `skip_children` leaves the children of its node out. Whatever else a call
/// writes to its `Walk` has no effect. `unicode` is the value of [`Walk::unicode`] in each call.
///
/// # Preconditions
/// `func` has no precondition: it may be called with any node and any walk.
///
/// # Complexity
/// Preorder makes a linear number of steps; in postorder an alternation of n alternatives takes a number of steps
/// proportional to n log n. The recursion is as deep as nodes are nested, where right sides of alternatives do not
/// count; in postorder it is deeper by the binary logarithm of the number of alternatives. Nothing is allocated.
///
/// # Examples
/// ```
/// let tables = Tables::small(alloc)?;
/// let points = code_points(alloc, "ab*|.")?;
/// let regex = try_parse(alloc, &points, Flags::default(), &tables)?;
/// let mut literals = 0_usize;
/// walk(
///     false,
///     regex.flags.unicode,
///     &regex.node,
///     &mut |node: &Node, _walk: &mut Walk| {
///         if matches!(node, Node::Char { .. }) {
///             literals = literals.wrapping_add(1);
///         }
///     },
/// );
/// assert_eq!(rt; literals, 2);
/// ```
pub fn walk<F: FnMut(&Node, &mut Walk)>(postorder: bool, unicode: bool, n: &Node, func: &mut F)
    requires { F.IsAlwaysCallable func.old }
    ensures callable { F.IsAlwaysCallable func.new }
    ensures visited { Visited (Calls F.step unicode) postorder 0 false (tree n.now) (tree n.now) func.old func.new }
{
    visit(postorder, n, &Walk::root(unicode), func);
}

/// Visits a node and what is inside it.
#[cycle(visit)]
fn visit<F: FnMut(&Node, &mut Walk)>(postorder: bool, n: &Node, walk: &Walk, func: &mut F)
    requires { F.IsAlwaysCallable func.old }
    ensures callable { F.IsAlwaysCallable func.new }
    ensures visited { Visited (Calls F.step walk.now.unicode) postorder walk.now.depth walk.now.in_lookbehind (tree n.now) (tree n.now) func.old func.new }
{
    if postorder {
        visit_after(n, walk, func);
    } else {
        visit_before(n, walk, func);
    }
}

/// Visits in preorder, in a loop along the right sides of alternatives.
#[cycle(visit)]
fn visit_before<F: FnMut(&Node, &mut Walk)>(n: &Node, walk: &Walk, func: &mut F)
    requires { F.IsAlwaysCallable func.old }
    ensures callable { F.IsAlwaysCallable func.new }
    ensures visited { Visited (Calls F.step walk.now.unicode) false walk.now.depth walk.now.in_lookbehind (tree n.now) (tree n.now) func.old func.new }
{
    let mut node = n;
    let mut here = walk.fresh();
    while !call(node, &here, func) {
        let Node::Alt(left, right) = node else {
            return visit_inside(false, node, &here, func);
        };
        here = here.inside(1);
        visit(false, left, &here, func);
        node = right;
    }
}

/// Visits in postorder: a loop down the right sides of alternatives, and the calls on the way back up.
#[cycle(visit)]
fn visit_after<F: FnMut(&Node, &mut Walk)>(n: &Node, walk: &Walk, func: &mut F)
    requires { F.IsAlwaysCallable func.old }
    ensures callable { F.IsAlwaysCallable func.new }
    ensures visited { Visited (Calls F.step walk.now.unicode) true walk.now.depth walk.now.in_lookbehind (tree n.now) (tree n.now) func.old func.new }
{
    let mut last = n;
    let mut here = walk.fresh();
    let mut nesting = 0;
    while nesting < usize::MAX {
        let Node::Alt(left, right) = last else {
            break;
        };
        here = here.inside(1);
        visit(true, left, &here, func);
        last = right;
        nesting += 1;
    }
    visit_inside(true, last, &here, func);
    call(last, &here, func);
    climb(n, nesting, walk, func);
}

/// Visits what is inside a node.
#[cycle(visit)]
fn visit_inside<F: FnMut(&Node, &mut Walk)>(postorder: bool, n: &Node, walk: &Walk, func: &mut F)
    requires { F.IsAlwaysCallable func.old }
    ensures callable { F.IsAlwaysCallable func.new }
    ensures visited { Inside (Calls F.step walk.now.unicode) postorder walk.now.depth walk.now.in_lookbehind (tree n.now) (tree n.now) func.old func.new }
{
    let inner = walk_inside(walk, n);
    match n {
        Node::Cat(parts) => visit_list(postorder, parts, &inner, func),
        Node::Alt(left, right) => {
            visit(postorder, left, &inner, func);
            visit(postorder, right, &inner, func);
        }
        _ => {
            if let Some(body) = body(n) {
                visit(postorder, body, &inner, func);
            }
        }
    }
}

/// Visits the nodes of a list in order.
#[cycle(visit)]
fn visit_list<F: FnMut(&Node, &mut Walk)>(
    postorder: bool,
    parts: &[Node],
    walk: &Walk,
    func: &mut F,
)
    requires { F.IsAlwaysCallable func.old }
    ensures callable { F.IsAlwaysCallable func.new }
    ensures visited { ListVisited (Calls F.step walk.now.unicode) postorder walk.now.depth walk.now.in_lookbehind (trees parts.now) (trees parts.now) func.old func.new }
{
    for part in parts {
        visit(postorder, part, walk, func);
    }
}

/// Calls `func` on `nesting` nodes along the right sides from `n`, the lowest one first. No link leads up, so the lower
/// half of the nodes takes a recursive call: the recursion is as deep as `nesting` has binary digits.
fn climb<F: FnMut(&Node, &mut Walk)>(n: &Node, nesting: usize, walk: &Walk, func: &mut F)
    requires { F.IsAlwaysCallable func.old }
    ensures callable { F.IsAlwaysCallable func.new }
    ensures climbed { Climbed (Calls F.step walk.now.unicode) nesting walk.now.depth walk.now.in_lookbehind (tree n.now) func.old func.new }
{
    let mut upper = nesting;
    while upper > 1 {
        let half = upper / 2;
        climb(right_side(n, half), upper - half, &walk.inside(half), func);
        upper = half;
    }
    if upper == 1 {
        call(n, walk, func);
    }
}

/// Returns the node that is `nesting` right sides below `n`.
fn right_side(n: &Node, nesting: usize) -> &Node
    ensures { tree result.now ≡ down nesting (tree n.now) }
{
    let mut below = n;
    for _ in 0..nesting {
        if let Node::Alt(_, right) = below {
            below = right;
        }
    }
    below
}

/// Calls `func` on a node, and returns whether to leave its children out.
fn call<F: FnMut(&Node, &mut Walk)>(n: &Node, walk: &Walk, func: &mut F) -> bool
    requires { F.IsAlwaysCallable func.old }
    ensures callable { F.IsAlwaysCallable func.new }
    ensures called { Calls F.step walk.now.unicode func.old (tree n.now) walk.now.depth walk.now.in_lookbehind func.new (tree n.now) result }
{
    let mut shown = walk.fresh();
    func(n, &mut shown);
    shown.skip_children
}
