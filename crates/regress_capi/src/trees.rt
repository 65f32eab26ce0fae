//! The encoding of a pattern's tree.
ghost use Rattle.std.specs.Prelude.{◌≤◌, All, IfOk, IfErr};
ghost use Rattle.regress_front.specs.Intervals.{code_point_max};
ghost use Rattle.regress_front.specs.Tree.{tree};
ghost use Rattle.regress_front.specs.Settled.{IsFaultIn};
ghost use Rattle.regress_capi.specs.Request.{front_dialect, front_setting};
ghost use Rattle.regress_capi.specs.Results.{IsResult, AreWords};

use super::request::{front_dialect, make_tables, parse_flags};
use regress_encoding::encode;
use regress_front::ir::Regex;
use regress_front::optimizer::optimize;
use regress_front::parse::{PlacedFault, try_parse_in};
use std::alloc::Global;

/// Returns the encoding of the pattern's tree, as parsed or optimized.
pub(crate) fn make_encoding(
    alloc: Global,
    pattern: &[u32],
    bits: u32,
    optimized: bool,
) -> Result<Vec<u32>, PlacedFault>
    requires { All (λ c. c ≤ code_point_max) pattern.now }
    ensures words { IfOk result (λ words. AreWords (front_dialect bits) (front_setting bits) pattern.now optimized words.items) }
    ensures rejected { IfErr result (IsFaultIn (front_dialect bits) (front_setting bits) pattern.now) }
{
    let regex = make_tree(alloc, pattern, bits, optimized)?;
    Ok(encode(alloc, &regex.node)?)
}

/// Returns the pattern's tree, as parsed or optimized.
fn make_tree(
    alloc: Global,
    pattern: &[u32],
    bits: u32,
    optimized: bool,
) -> Result<Regex, PlacedFault>
    requires { All (λ c. c ≤ code_point_max) pattern.now }
    ensures status { IfOk result (λ regex. IsResult (front_dialect bits) (front_setting bits) pattern.now optimized (tree regex.node)) }
    ensures rejected { IfErr result (IsFaultIn (front_dialect bits) (front_setting bits) pattern.now) }
{
    let (flags, dialect) = (parse_flags(bits), front_dialect(bits));
    let tables = make_tables(alloc, bits)?;
    let mut regex = try_parse_in(alloc, pattern, flags, &tables, dialect)?;
    if optimized {
        optimize(alloc, &mut regex)?;
    }
    Ok(regex)
}
