//! The optimizer.
ghost use Rattle.std.specs.Prelude.{◌≡◌, ◌⊎◌, true, ◌≤◌, ◌+◌, ◌*◌, OnOk};
ghost use Rattle.regress_tree.specs.Reading.{forwards};
ghost use Rattle.regress_tree.specs.NodeTests.{match_always_fails};
ghost use Rattle.regress_tree.specs.Shapes.{ends_in_goal};
ghost use Rattle.regress_tree.specs.Tree.{tree};
ghost use Rattle.regress_tree.specs.WellFormed.{IsWellFormed, captures};
ghost use Rattle.regress_tree.specs.Units.{units, unrolling, loops, account};
ghost use Rattle.regress_tree.specs.NormalForm.{IsNormal};
ghost use Rattle.regress_rewrite.specs.Law.{MeansTheSame};

use crate::traversal::normalize;
use regress_tree::ir::{Regex, Walk};
use std::alloc::{AllocError, Global};

/// Brings the tree of a pattern into normal form, in which no node has a shape that a rewrite removes
/// (`specs/NormalForm.antt` of `regress_tree`). The tree keeps its meaning, its capture groups and its flags. A tree in
/// normal form is unchanged.
///
/// # Preconditions
/// The tree is well formed, as each parsed tree is (see `Regex::is_well_formed`).
///
/// # Errors
/// Returns [`AllocError`] if an allocation fails. The tree may not be in normal form then; it is well formed and has
/// the same meaning, and may be used, or optimized again.
///
/// # Complexity
/// One traversal, children before parents, which visits each node of the old tree once. Unrolling adds at most 6401
/// units for each loop with a minimum of at least one. The recursion is as deep as nodes are nested, where right sides
/// of alternatives do not count.
///
/// # Examples
/// ```
/// let tables = Tables::small(alloc)?;
/// let points = code_points(alloc, "[ab]")?;
/// let mut regex = try_parse(alloc, &points, Flags::default(), &tables)?;
/// optimize(alloc, &mut regex)?;
/// let printed = regex.to_string(alloc)?;
/// assert_eq!(rt; printed.as_str(), "Cat\n..ByteSet2 0x61 0x62\n..Goal\n");
/// ```
pub fn optimize(alloc: Global, r: &mut Regex) -> Result<(), AllocError>
    requires { IsWellFormed (tree r.old.node) }

    // Also after an error.
    ensures meaning { MeansTheSame forwards (tree r.old.node) (tree r.new.node) }
    ensures well_formed { IsWellFormed (tree r.new.node) }
    ensures captures { captures (tree r.new.node) ≡ captures (tree r.old.node) }
    ensures account { account (tree r.new.node) ≤ account (tree r.old.node) }
    ensures units { units (tree r.new.node) ≤ units (tree r.old.node) + unrolling * loops (tree r.old.node) }
    ensures flags { r.new.flags ≡ r.old.flags }
    // The new tree ends in `Goal` exactly if the old one does, or always fails.
    ensures goal { (ends_in_goal (tree r.new.node) ≡ ends_in_goal (tree r.old.node)) ⊎ (match_always_fails (tree r.new.node) ≡ true) }

    // ---- the normal form
    ensures normal { OnOk result (IsNormal (tree r.new.node)) }
    ensures left { IsNormal (tree r.old.node) → tree r.new.node ≡ tree r.old.node }
{
    normalize(alloc, &mut r.node, &Walk::root(r.flags.unicode))?;
    Ok(())
}
