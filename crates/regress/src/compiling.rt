//! From a pattern to its tree in normal form.
ghost use Rattle.std.specs.Prelude.{◌≡◌, All, IfOk, IfErr};
ghost use Rattle.regress_ecma.specs.SurrogatePairs.{matches_outside_pairs};
ghost use Rattle.regress_front.specs.Accepted.{OfAcceptedIn};
ghost use Rattle.regress_front.specs.Dialects.{flags_in_force};
ghost use Rattle.regress_front.specs.Meaning.{setting_of};
ghost use Rattle.regress_front.specs.Source.{IsCodePoint};
ghost use Rattle.regress_front.specs.Tree.{tree};
ghost use Rattle.regress.specs.Compiled.{IsTreeOfIn};
ghost use Rattle.regress.specs.Failures.{IsDue};
ghost use Rattle.regress.specs.declared.limits.Options.{Options};

use crate::failure::{Error, syntax_error};
use crate::outside_pairs::matches_outside_pairs;
use regress_front::ir::Regex;
use regress_front::optimizer::optimize;
use regress_front::parse::{Dialect, try_parse_in};
use regress_front::types::Flags;
use regress_front::unicode::Tables;
use std::alloc::Global;

/// Parses and optimizes a pattern of a dialect, and returns its tree with whether it matches outside of surrogate pairs.
pub(crate) fn optimized(
    alloc: Global,
    points: &[u32],
    flags: Flags,
    tables: &Tables,
    dialect: Dialect,
) -> Result<(Regex, bool), Error>
    requires { All IsCodePoint points.now }
    ensures tree { let setting = setting_of (flags_in_force dialect flags) tables.now in
        IfOk result (λ r. IsTreeOfIn dialect setting points.now (tree r.0.node)) }
    ensures outside { let setting = setting_of (flags_in_force dialect flags) tables.now in
        IfOk result (λ r. OfAcceptedIn dialect setting points.now (λ p. r.1 ≡ matches_outside_pairs setting.table p)) }
    ensures flags { IfOk result (λ r. r.0.flags ≡ flags_in_force dialect flags) }
    ensures failed { let setting = setting_of (flags_in_force dialect flags) tables.now in
        (options : Options) → options.dialect ≡ dialect → IfErr result (IsDue setting points.now options) }
{
    let mut regex = match try_parse_in(alloc, points, flags, tables, dialect) {
        Ok(regex) => regex,
        Err(fault) => return Err(syntax_error(alloc, fault, points)),
    };
    let outside = matches_outside_pairs(&regex.node);
    optimize(alloc, &mut regex)?;
    Ok((regex, outside))
}
