//! Parses a pattern only if its tree is small. docs/guide.md shows parts of it.
ghost use Rattle.std.specs.Prelude.{◌<◌, All, IfOk, IfSome};
ghost use Rattle.regress_front.specs.Source.{IsCodePoint};
ghost use Rattle.regress_front.specs.Tree.{tree};
ghost use Rattle.regress_front.specs.Visits.{nodes};

use regress_front::ir::Regex;
use regress_front::parse::{ParseFault, node_bound, try_parse};
use regress_front::types::Flags;
use regress_front::unicode::Tables;
use std::alloc::Global;

/// Returns the tree of a pattern if it is certain to have fewer than `limit` nodes, else `None`, without parsing the
/// pattern.
///
/// # Preconditions
/// Each element of `pattern` is a code point, at most U+10FFFF.
///
/// # Errors
/// Returns [`ParseFault::Syntax`] if the pattern is rejected, and [`ParseFault::Memory`] if an allocation fails.
pub fn parse_bounded(
    alloc: Global,
    pattern: &[u32],
    flags: Flags,
    tables: &Tables,
    limit: usize,
) -> Result<Option<Regex>, ParseFault>
    requires { All IsCodePoint pattern.now }
    ensures small { IfOk result (λ found. IfSome found (λ regex. nodes (tree regex.node) < limit)) }
{
    if node_bound(pattern, flags) >= limit {
        return Ok(None);
    }
    Ok(Some(try_parse(alloc, pattern, flags, tables)?))
}
