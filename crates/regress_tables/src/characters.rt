//! An exact number of characters.
ghost use Rattle.std.specs.Prelude.{◌≡◌, ◌≤◌, length, true};
ghost use Rattle.regress_prefilter.specs.OneCharacter.{takes_one};
ghost use Rattle.regress_leaves.specs.Leaves.{GoesTo, exactly};
ghost use Rattle.regress_leaves.specs.Subject.{subject};
ghost use Rattle.regress_tree.specs.Tree.{tree};
ghost use Rattle.regress_tables.specs.Runs.{Repeats};

use crate::runs::bytes_on;
use regress_leaves::leaves::simple_leaf;
use regress_leaves::rules::MatchContext;
use regress_leaves::test::Test;
use regress_program::leaf::bytes_ahead;

/// Returns the position after exactly `count` characters, each of which matches a leaf, or `None` if there are fewer. Of the
/// next `run` characters it is known that they match, and that each has one byte.
///
/// # Preconditions
/// The leaf matches one character, and the position is inside the text.
#[inline(always)]
pub(crate) fn characters_end(
    text: &str,
    rules: MatchContext<'_>,
    test: &Test,
    count: usize,
    run: usize,
    position: usize,
) -> Option<usize>
    requires one { takes_one (tree test.now.node) ≡ true }
    requires inside { position ≤ length text.now }
    requires run { Repeats (subject rules text.now) (tree test.now.node) position run }
    ensures { GoesTo (subject rules.entry text.now) position (exactly count (tree test.now.node)) result }
{
    // each character has at least one byte
    if count > bytes_ahead(text, rules.backwards, position) {
        return None;
    }
    let known = run.min(count);
    let mut here = bytes_on(rules.backwards, position, known);
    for _i in known..count {
        here = character_end(text, rules, test, here)?;
    }
    Some(here)
}

/// Returns the position after one character that matches a leaf, or `None` if it fails.
///
/// # Preconditions
/// The leaf matches one character.
#[inline(always)]
fn character_end(text: &str, rules: MatchContext<'_>, test: &Test, position: usize) -> Option<usize>
    requires { takes_one (tree test.now.node) ≡ true }
    ensures { GoesTo (subject rules.entry text.now) position (tree test.now.node) result }
{
    match test.start.ascii_end(text, rules.backwards, position) {
        Some(to) => to,
        None => simple_leaf(text, rules, &test.node, position),
    }
}
