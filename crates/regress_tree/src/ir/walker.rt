//! The context of a node during a walk over a tree.
ghost use Rattle.std.specs.Prelude.{◌≡◌, ◌+◌, min, false};

/// The context of the node that a walk is at.
#[derive(Clone, Debug, Drop)]
pub struct Walk {
    /// Set by the call on a node to leave its children out (in preorder). It is false when a call begins.
    pub skip_children: bool,
    /// The number of nodes around this one, 0 at the root. The count stops at `usize::MAX`.
    pub depth: usize,
    /// Whether the nearest lookaround around the node is a lookbehind, so that the node is matched backwards.
    pub in_lookbehind: bool,
    /// Whether the pattern has the flag u.
    pub unicode: bool,
}

impl Walk {
    /// Returns the walk at the root of a tree, which is matched forwards.
    pub fn root(unicode: bool) -> Walk
        ensures children { result.skip_children ≡ false }
        ensures depth { result.depth ≡ 0 }
        ensures direction { result.in_lookbehind ≡ false }
        ensures unicode { result.unicode ≡ unicode }
    {
        Walk {
            skip_children: false,
            depth: 0,
            in_lookbehind: false,
            unicode,
        }
    }

    /// Returns the walk at the same node with `skip_children` cleared, for a new call.
    pub(crate) fn fresh(&self) -> Walk
        ensures { result ≡ record self.now { skip_children = false } }
    {
        Walk {
            skip_children: false,
            ..*self
        }
    }

    /// Returns the walk `nesting` nodes further inside, where no node between is a lookaround.
    pub fn inside(&self, nesting: usize) -> Walk
        ensures children { result.skip_children ≡ false }
        ensures depth { result.depth ≡ min (self.now.depth + nesting) usize.MAX }
        ensures same { nesting ≡ 0 → result.depth ≡ self.now.depth }
        ensures direction { result.in_lookbehind ≡ self.now.in_lookbehind }
        ensures unicode { result.unicode ≡ self.now.unicode }
    {
        Walk {
            skip_children: false,
            depth: self.depth.saturating_add(nesting),
            in_lookbehind: self.in_lookbehind,
            unicode: self.unicode,
        }
    }

    /// Returns the walk at the same depth with the direction of a lookaround, whatever is around that.
    pub fn looking(&self, backwards: bool) -> Walk
        ensures children { result.skip_children ≡ false }
        ensures depth { result.depth ≡ self.now.depth }
        ensures direction { result.in_lookbehind ≡ backwards }
        ensures unicode { result.unicode ≡ self.now.unicode }
    {
        Walk {
            skip_children: false,
            depth: self.depth,
            in_lookbehind: backwards,
            unicode: self.unicode,
        }
    }
}
