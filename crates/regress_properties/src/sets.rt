//! Sets by name.
ghost use Rattle.std.specs.Prelude.{◌≡◌, ◌++◌, map, IfOk};
ghost use Rattle.regress_base.specs.Table.{named};
ghost use Rattle.regress_properties.specs.Listed.{named_set, AreSets};

use super::ends::set_at;
use super::lookup::find_range;
use regress_base::codepointset::CodePointSet;
use std::alloc::{AllocError, Global};

/// Makes the first set with that name in `names`, or else in `rest`, or returns `None`. Each name has the half-open
/// range of its set in `ends`.
pub(super) fn find_set(
    alloc: Global,
    names: &[(&str, usize, usize)],
    rest: &[(&str, usize, usize)],
    ends: &[u32],
    name: &str,
) -> Result<Option<CodePointSet>, AllocError>
    requires names { AreSets ends.now (map (λ n. (n.1, n.2)) names.now) }
    requires rest { AreSets ends.now (map (λ n. (n.1, n.2)) rest.now) }
    ensures { IfOk result (λ set. set ≡ named name.now (map (λ n. named_set ends.now n.0.now n.1 n.2) names.now
        ++ map (λ n. named_set ends.now n.0.now n.1 n.2) rest.now)) }
{
    match find_in(alloc, names, ends, name)? {
        Some(set) => Ok(Some(set)),
        None => find_in(alloc, rest, ends, name),
    }
}

/// Makes the first set with that name, or returns `None`.
pub(super) fn find_in(
    alloc: Global,
    names: &[(&str, usize, usize)],
    ends: &[u32],
    name: &str,
) -> Result<Option<CodePointSet>, AllocError>
    requires { AreSets ends.now (map (λ n. (n.1, n.2)) names.now) }
    ensures { IfOk result (λ set. set ≡ named name.now (map (λ n. named_set ends.now n.0.now n.1 n.2) names.now)) }
{
    match find_range(names, name) {
        Some((from, to)) => Ok(Some(set_at(alloc, ends, from, to)?)),
        None => Ok(None),
    }
}
