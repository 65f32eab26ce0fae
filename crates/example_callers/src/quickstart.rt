//! The callers that docs/guide.md shows: one parses a pattern, the next one compiles its tree, and the last one finds its
//! matches in a text.
ghost use Rattle.std.specs.Prelude.{◌≡◌, IfOk};
ghost use Rattle.regress_front.specs.Tree.{tree};
ghost use Rattle.regress_match.specs.Pattern.{matcher_tree};

use regress_front::ir::Regex;
use regress_front::optimizer::parse_and_optimize;
use regress_front::parse::ParseFault;
use regress_front::types::Flags;
use regress_front::unicode::Tables;
use regress_front::util::code_points;
use regress_match::{CompileFault, Limits, Matcher, MemoryFault, Outcome};
use std::alloc::Global;
use std::sync::Arc;

/// The number of steps that a search may take if it does not take linear time.
const STEPS: u64 = 1_000_000;

/// Returns the optimized tree of a pattern. The caller makes the tables once, for all patterns.
///
/// # Errors
/// Returns [`ParseFault::Syntax`] if the pattern is rejected, and [`ParseFault::Memory`] if an allocation fails.
pub fn compile(
    alloc: Global,
    pattern: &str,
    flags: Flags,
    tables: &Tables,
) -> Result<Regex, ParseFault> {
    let points = code_points(alloc, pattern)?;
    let (regex, optimized) = parse_and_optimize(alloc, &points, flags, tables)?;
    optimized?;
    Ok(regex)
}

/// Compiles a tree into a program.
///
/// # Errors
/// Returns [`CompileFault::TooLong`] if the program is too long, and [`CompileFault::Memory`] if an allocation fails.
pub fn prepare(alloc: Global, regex: Regex, tables: &Arc<Tables>) -> Result<Matcher, CompileFault>
    ensures { IfOk result (λ matcher. matcher_tree matcher ≡ tree regex.node) }
{
    Matcher::new(alloc, regex, tables, Limits::default())
}

/// Returns the spans of the first `most` matches of a pattern in `text`, in bytes, or of all matches if there are fewer;
/// `None` if the search takes too many steps.
///
/// # Errors
/// Returns [`MemoryFault`] if an allocation fails, or if the search needs more memory than the matcher's limit.
pub fn find_matches(
    alloc: Global,
    matcher: &Matcher,
    text: &str,
    most: usize,
) -> Result<Option<Vec<(usize, usize)>>, MemoryFault> {
    let mut spans = Vec::new(alloc);
    let mut matches = matcher.find_iter(text, 0, STEPS);
    for _ in 0..most {
        match matches.next(alloc)? {
            Outcome::Matched(found) => {
                spans.push((found.start(), found.end()))?;
            }
            Outcome::NoMatch => return Ok(Some(spans)),
            Outcome::OutOfSteps => return Ok(None),
        }
    }
    Ok(Some(spans))
}
