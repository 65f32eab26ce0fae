//! Bounds the number of nodes of a pattern's tree.
ghost use Rattle.std.specs.Prelude.{◌≡◌, ◌+◌, ◌-◌, ◌*◌, ◌^◌, ◌<◌, ◌≤◌, length, min};
ghost use Rattle.regress_parse.specs.Bound.{HasAtMost, opens_name, is_reference, positions, total, nodes_at, node_bound};

use crate::positions::{is_reference, nodes_at, opens_name};
use regress_base::types::Flags;

/// Returns an upper bound on the number of nodes of the tree that `try_parse` makes of `pattern`, and `try_parse_in` in
/// any dialect, whatever the table.
///
/// The bound is 3, plus 1 for each code point, plus 1 more for each `|`, plus 4 more for each `[` with the flag v,
/// plus, for each `\k`, 2 more for each `(?<` that begins no lookbehind. Without references by name it is at most 5
/// times the length of the pattern, plus 3. It saturates: `usize::MAX` is no bound.
///
/// The result is defined for any list of code points, also for one that is no pattern.
///
/// # Complexity
/// Linear in the length of the pattern. Nothing is allocated.
///
/// # Examples
/// ```
/// let points = code_points(alloc, "a|b")?;
/// // 3, one for each code point, and one more for the bar
/// assert_eq!(rt; node_bound(&points, Flags::default()), 7);
/// ```
pub fn node_bound(pattern: &[u32], flags: Flags) -> usize
    ensures nodes { result < 2 ^ 64 - 1 → HasAtMost flags pattern.now result }
    ensures value { result ≡ min (node_bound flags.unicode_sets pattern.now) (2 ^ 64 - 1) }
    ensures near { result ≤ 3 + 5 * length pattern.now + 2 * (positions opens_name pattern.now * positions is_reference pattern.now) }
{
    let counts = count(pattern, flags.unicode_sets);
    let referred = counts
        .named
        .saturating_mul(2)
        .saturating_mul(counts.references);
    counts.nodes.saturating_add(referred)
}

/// What bounds the number of nodes of a pattern.
#[derive(Clone, Copy)]
struct Counts {
    /// The number of nodes where no group has a name, at most `usize::MAX`.
    nodes: usize,
    /// At least the number of named groups.
    named: usize,
    /// At least the number of references by name.
    references: usize,
}

/// Counts nodes, named groups and references by name.
fn count(pattern: &[u32], sets: bool) -> Counts
    ensures nodes { result.nodes ≡ min (3 + total (nodes_at sets 0) pattern.now) (2 ^ 64 - 1) }
    ensures named { result.named ≡ positions opens_name pattern.now }
    ensures references { result.references ≡ positions is_reference pattern.now }
{
    let mut nodes: usize = 3;
    let mut named = 0;
    let mut references = 0;
    let mut rest = pattern;
    while let [_, after @ ..] = rest {
        nodes = nodes.saturating_add(nodes_at(rest, sets));
        if opens_name(rest) {
            named += 1;
        }
        if is_reference(rest) {
            references += 1;
        }
        rest = after;
    }
    Counts {
        nodes,
        named,
        references,
    }
}
