//! What back references match.
ghost use Rattle.std.specs.Prelude.{◌≡◌, ◌-◌, Some, chars, true};
ghost use Rattle.regress_base.specs.Table.{denotes};
ghost use Rattle.regress_tree.specs.Reading.{of_bytes};
ghost use Rattle.regress_tree.specs.References.{all_of, characters_from, in_order, match_again};
ghost use Rattle.regress_tree.specs.Steps.{MatchState};
ghost use Rattle.regress_leaves.specs.Leaves.{put};
ghost use Rattle.regress_leaves.specs.Subject.{subject};

use crate::characters::denotes;
use crate::leaves::these_bytes;
use crate::reading::next_read;
use crate::rules::MatchContext;

/// Returns the position after a copy of a span of the text (BackreferenceMatcher), in the direction of matching, or
/// `None` if there is none. With `icase` canonical forms are compared.
///
/// # Complexity
/// Linear in the length of the span.
pub fn match_again(
    text: &str,
    rules: MatchContext<'_>,
    icase: bool,
    span: (usize, usize),
    position: usize,
) -> Option<usize>
    ensures { (s : MatchState) → s.position ≡ position → (let u = subject rules.entry text.now in
        put s result ≡ match_again u.direction (of_bytes u.bytes) (denotes u.setting.table icase u.setting.flags.unicode) (Some span) s) }
{
    let part = characters_in(text, span.0, span.1);
    if icase {
        folded_copy(text, rules, part, position)
    } else {
        these_bytes(text.as_bytes(), rules.backwards, part.as_bytes(), position)
    }
}

/// Returns the characters that begin in a span of the text.
fn characters_in(text: &str, start: usize, end: usize) -> &str
    ensures { chars result.now ≡ characters_from (of_bytes text.now) (end - start) start end }
{
    if start >= end {
        return "";
    }
    match text.get(start..text.ceil_char_boundary(end)) {
        Some(part) => part,
        None => "",
    }
}

/// Returns the position after characters with the same canonical forms as those of `part`, in the direction of
/// matching, or `None` if the text has none there.
fn folded_copy(text: &str, rules: MatchContext<'_>, part: &str, position: usize) -> Option<usize>
    ensures { (s : MatchState) → s.position ≡ position → (let u = subject rules.entry text.now in
        put s result ≡ all_of u.direction (of_bytes u.bytes) (denotes u.setting.table true u.setting.flags.unicode) (in_order u.direction (chars part.now)) s) }
{
    let mut from = if rules.backwards { part.len() } else { 0 };
    let mut here = position;
    while let Some((c, after)) = next_read(part, rules.backwards, from) {
        let (x, to) = next_read(text, rules.backwards, here)?;
        if !denotes(rules, true, c, x) {
            return None;
        }
        from = after;
        here = to;
    }
    Some(here)
}
