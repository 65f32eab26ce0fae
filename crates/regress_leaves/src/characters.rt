//! Tests on characters.
ghost use Rattle.std.specs.Prelude.{◌≡◌, true};
ghost use Rattle.regress_base.specs.Classes.{word_characters};
ghost use Rattle.regress_base.specs.Intervals.{is_member};
ghost use Rattle.regress_base.specs.Table.{denotes};
ghost use Rattle.regress_tree.specs.Assertions.{is_line_terminator, is_word_character};
ghost use Rattle.regress_unicode.specs.TableOf.{table_of};

use crate::known::Known;
use crate::rules::MatchContext;

/// Returns whether the character `x` of the text matches `c` of a backreference or a string: the same character, or
/// with `icase` one with the same canonical form (Canonicalize).
pub fn denotes(rules: MatchContext<'_>, icase: bool, c: u32, x: u32) -> bool
    ensures { result ≡ denotes (table_of rules.entry.known.tables.now) icase rules.entry.flags.unicode c x }
{
    if x == c {
        return true;
    }
    if !icase {
        return false;
    }
    if rules.flags.unicode {
        rules.known.fold(x) == rules.known.fold(c)
    } else {
        rules.known.uppercase(x) == rules.known.uppercase(c)
    }
}

/// Returns whether `c` is a LineTerminator.
#[tactic(auto, unfolding(regress_base::specs::Intervals::is_member, regress_base::specs::Intervals::is_within))]
pub fn is_line_terminator(c: u32) -> bool
    ensures { result ≡ is_line_terminator c }
{
    matches!(c, 0xA | 0xD | 0x2028..=0x2029)
}

/// Returns whether `c` is a word character (WordCharacters): one of `[A-Za-z0-9_]`, or with `unicode_icase` a character
/// with the same simple case folding as one of these.
pub fn is_word_character(known: Known<'_>, unicode_icase: bool, c: u32) -> bool
    ensures { result ≡ is_word_character (table_of known.entry.tables.now) unicode_icase c }
{
    if unicode_icase {
        folds_to_word(known, c)
    } else {
        is_word(c)
    }
}

/// Returns whether `c` is a word character: an ASCII letter, a digit or `_` (ECMA-262, WordCharacters, without folding).
#[tactic(auto, unfolding(regress_base::specs::Intervals::is_member, regress_base::specs::Intervals::is_within))]
pub fn is_word(c: u32) -> bool
    ensures { result ≡ is_member word_characters c }
{
    matches!(c, 0x30..=0x39 | 0x41..=0x5A | 0x5F | 0x61..=0x7A)
}

/// Returns whether `c` has the same simple case folding as a word character.
fn folds_to_word(known: Known<'_>, c: u32) -> bool
    ensures { result ≡ is_word_character (table_of known.entry.tables.now) true c }
{
    if c > 0x10_FFFF {
        return false;
    }
    if is_word(c) {
        return true;
    }
    let mapped = known.fold(c);
    if known.facts.ascii_fold {
        // each word character folds to a word character
        return is_word(mapped);
    }
    for m in 0x30..0x7B {
        if is_word(m) && known.fold(m) == mapped {
            return true;
        }
    }
    false
}
