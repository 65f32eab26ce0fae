//! Sets of class escapes.
ghost use Rattle.std.specs.Prelude.{◌≡◌, ◌++◌, IfOk};
ghost use Rattle.regress_base.specs.Classes.{white_space, line_terminators};
ghost use Rattle.regress_base.specs.Intervals.{IsCanonical};
ghost use Rattle.regress_classes.specs.ClassProductions.{class_letter, members_of};
ghost use Rattle.regress_classes.specs.ClassViews.{HasMembers};

use regress_base::charclasses::{CharacterClassType, digit_intervals, word_intervals};
use regress_base::codepointset::{CodePointSet, Interval};
use std::alloc::{AllocError, Global};

/// Returns the class that a letter names after a backslash, and whether the letter is a capital, which means the
/// complement (ECMA-262, CharacterClassEscape).
pub fn class_letter(c: u32) -> Option<(CharacterClassType, bool)>
    ensures { result ≡ class_letter c }
{
    match char::from_u32(c)? {
        'd' => Some((CharacterClassType::Digits, false)),
        'D' => Some((CharacterClassType::Digits, true)),
        's' => Some((CharacterClassType::Spaces, false)),
        'S' => Some((CharacterClassType::Spaces, true)),
        'w' => Some((CharacterClassType::Words, false)),
        'W' => Some((CharacterClassType::Words, true)),
        _ => None,
    }
}

/// Returns the members of the class of `\d`, `\s` or `\w`, as ECMA-262 has them without the flag i
/// (CharacterClassEscape).
///
/// # Errors
/// Returns [`AllocError`] if an allocation fails.
pub fn class_escape_set(alloc: Global, kind: CharacterClassType) -> Result<CodePointSet, AllocError>
    ensures { IfOk result (HasMembers (members_of kind)) }
{
    match kind {
        CharacterClassType::Digits => set_of(alloc, &digit_intervals()),
        CharacterClassType::Spaces => spaces(alloc),
        CharacterClassType::Words => set_of(alloc, &word_intervals()),
    }
}

/// Returns the members of `\s`: white space and line terminators, in order.
fn spaces(alloc: Global) -> Result<CodePointSet, AllocError>
    ensures { IfOk result (HasMembers (white_space ++ line_terminators)) }
{
    set_of(
        alloc,
        &[
            Interval::new(0x9, 0xD),
            Interval::new(0x20, 0x20),
            Interval::new(0xA0, 0xA0),
            Interval::new(0x1680, 0x1680),
            Interval::new(0x2000, 0x200A),
            Interval::new(0x2028, 0x2029),
            Interval::new(0x202F, 0x202F),
            Interval::new(0x205F, 0x205F),
            Interval::new(0x3000, 0x3000),
            Interval::new(0xFEFF, 0xFEFF),
        ],
    )
}

/// Returns the set of these intervals, in one copy.
fn set_of(alloc: Global, intervals: &[Interval]) -> Result<CodePointSet, AllocError>
    requires { IsCanonical intervals.now }
    ensures { IfOk result (HasMembers intervals.now) }
{
    let list = Vec::from_slice(alloc, intervals)?;
    Ok(CodePointSet::from_sorted_disjoint_intervals(list))
}
