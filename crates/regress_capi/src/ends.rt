//! The ends of the spans of a match, as numbers.
ghost use Rattle.std.specs.Prelude.{◌≡◌, ◌≤◌, ◌++◌, ◌∷◌, [], IfOk, MatchOption, drop, length, true};
ghost use Rattle.regress.specs.Compiled.{match_of};
ghost use Rattle.regress.specs.Groups.{span_of};
ghost use Rattle.regress_capi.specs.Spans.{ends_of, match_ends};

use regress::Match;
use std::alloc::AllocError;
use std::ops::Range;

/// Writes the ends of a match, and then those of each group, to the start of the buffer, and returns their number. It
/// returns `None` if there is no room for them, and then the buffer is unchanged.
pub(crate) fn put_spans(found: &Match<'_>, buffer: &mut [usize]) -> Option<usize>
    ensures { MatchOption result (buffer.new ≡ buffer.old) (λ count. (count ≡ length (match_ends (match_of found.now)))
        × (buffer.new ≡ match_ends (match_of found.now) ++ drop (length (match_ends (match_of found.now))) buffer.old)) }
{
    if !have_room(found, buffer.len()) {
        return None;
    }
    let mut count = 0;
    for span in found.groups() {
        let (start, end) = ends_of(span);
        buffer[count] = start;
        buffer[count + 1] = end;
        count += 2;
    }
    Some(count)
}

/// Returns whether there is room for the ends of a match and of each group.
fn have_room(found: &Match<'_>, room: usize) -> bool
    ensures { result ≡ true → length (match_ends (match_of found.now)) ≤ room }
{
    let mut left = room;
    for _ in found.groups() {
        if left < 2 {
            return false;
        }
        left -= 2;
    }
    true
}

/// Appends the ends of a match, and then those of each group.
pub(crate) fn push_spans(found: &Match<'_>, ends: &mut Vec<usize>) -> Result<(), AllocError>
    ensures { IfOk result (λ _. ends.new.items ≡ ends.old.items ++ match_ends (match_of found.now)) }
{
    for span in found.groups() {
        let (start, end) = ends_of(span);
        ends.push(start)?;
        ends.push(end)?;
    }
    Ok(())
}

fn ends_of(span: Option<Range<usize>>) -> (usize, usize)
    ensures { ends_of (span_of span) ≡ result.0 ∷ result.1 ∷ [] }
{
    match span {
        Some(span) => (span.start, span.end),
        None => (usize::MAX, usize::MAX),
    }
}
