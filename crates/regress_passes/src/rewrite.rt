//! The law of a rewrite.
ghost use Rattle.std.specs.Prelude.{◌≡◌, Bool, Result, IfOk, OnErr};
ghost use Rattle.std.specs.declared.alloc.AllocError.{AllocError};
ghost use Rattle.regress_tree.specs.Tree.{Tree, tree};
ghost use Rattle.regress_tree.specs.Walk.{direction_of};
ghost use Rattle.regress_tree.specs.declared.ir.walker.Walk.{Walk};
ghost use Rattle.regress_rewrite.specs.declared.action.PassAction.{PassAction};
ghost use Rattle.regress_rewrite.specs.Law.{IsPart, ObeysLaw};

use regress_rewrite::PassAction;
use regress_tree::ir::{Node, Walk};
use std::alloc::AllocError;

/// A rewrite of single nodes, which `run_pass` applies to every node of a tree. It is the extension point for rewrites
/// of a caller's own: `optimize` does not call it.
///
/// Its contract, the law, states how it may change a node, anywhere in a tree and in either direction of matching.
pub trait Rewrite {
    /// The shapes that the rewrite removes, as a test on a node.
    ghost removes: { Tree → Bool };

    /// Whether the rewrite leaves each node unchanged that has none of these shapes.
    ghost is_exact: { Bool };

    /// A relation of the rewrite's own that holds of each call, and that `run_pass` then states of all its calls: the
    /// rewrite before the call, the tree of the node, the walk, the result, the tree that the call left, and the
    /// rewrite after it. By default it states nothing.
    ghost step: { Self → Tree → Walk → Result PassAction AllocError → Tree → Self → Type 0 } = { λ before t walk response left after. Unit {0} };

    /// Rewrites a node whose children are already rewritten, and returns what it did.
    ///
    /// # Preconditions
    /// The node is part of a well-formed tree.
    ///
    /// # Errors
    /// Returns [`AllocError`] if an allocation fails. The node is unchanged.
    fn apply(&mut self, node: &mut Node, walk: &Walk) -> Result<PassAction, AllocError>
        requires { IsPart (tree node.old) }

        // The result of the action has the same meaning as the node, may appear wherever it may, has its groups, is no
        // larger, adds no bracket to be simplified and, unless the action is `Keep`, is less in the order `IsLess`, so
        // that passes end. `Keep` leaves the node unchanged, and is returned only if there is nothing to remove.
        ensures lawful { IfOk result (ObeysLaw removes is_exact (direction_of walk.now) (tree node.old) (tree node.new)) }

        // A failed allocation leaves the node unchanged.
        ensures err { OnErr result (tree node.new ≡ tree node.old) }

        ensures step { step self.old (tree node.old) walk.now result (tree node.new) self.new };
}
