//! Parses the modifiers of a group.
ghost use Rattle.std.specs.Prelude.{◌≡◌, ◌≤◌, not, ◌&&◌, ◌++◌, ◌==◌, length, option_map};
ghost use Rattle.std.specs.List.{prefix_len, list_all};
ghost use Rattle.regress_lexer.specs.Digits.{front, after};
ghost use Rattle.regress_lexer.specs.Modifiers.{is_modifier, is_in, are_different, switch, change_by, letters_off, after_letters_off, modifiers_at};
ghost use Rattle.regress_lexer.specs.Views.{change_of};

use crate::digits::{Read, strip_char};
use regress_base::types::Flags;

/// The change of flags that a group makes for its body: each flag is switched on, switched off, or unchanged (`None`).
#[derive(Clone, Copy)]
pub struct Change {
    /// The flag i.
    pub icase: Option<bool>,
    /// The flag m.
    pub multiline: Option<bool>,
    /// The flag s.
    pub dot_all: Option<bool>,
}

impl Change {
    ghost use Rattle.std.specs.Prelude.{◌≡◌};
    ghost use Rattle.regress_lexer.specs.Modifiers.{changed};
    ghost use Rattle.regress_lexer.specs.Views.{change_of};

    /// Returns the flags inside the group, where `flags` are those outside (ECMA-262, UpdateModifiers).
    pub fn apply(self, flags: Flags) -> Flags
        ensures { result ≡ changed (change_of self) flags }
    {
        Flags {
            icase: self.icase.unwrap_or(flags.icase),
            multiline: self.multiline.unwrap_or(flags.multiline),
            dot_all: self.dot_all.unwrap_or(flags.dot_all),
            ..flags
        }
    }
}

/// Whether `c` is `i`, `m` or `s`.
fn is_modifier(c: u32) -> bool
    ensures { result ≡ is_modifier c }
{
    c == u32::from('i') || c == u32::from('m') || c == u32::from('s')
}

/// Returns the number of modifier letters at the start of `source`.
fn letters_length(source: &[u32]) -> usize
    ensures value { result ≡ prefix_len is_modifier source.now }
    ensures within { result ≤ length source.now }
{
    source.iter().take_while(|c| is_modifier(**c)).count()
}

/// Returns the modifier letters at the start, and the source after them.
#[tactic(auto, using(crate::proofs::lemmas::Digits::front_taken, crate::proofs::lemmas::Digits::after_dropped))]
fn split_letters(source: &[u32]) -> (&[u32], &[u32])
    ensures letters { result.0.now ≡ front is_modifier source.now }
    ensures rest { result.1.now ≡ after is_modifier source.now }
{
    source.split_at(letters_length(source))
}

/// Returns the letters after a hyphen, if there is one, and the source after them.
fn split_letters_off(source: &[u32]) -> (&[u32], &[u32])
    ensures letters { result.0.now ≡ letters_off source.now }
    ensures rest { result.1.now ≡ after_letters_off source.now }
{
    match strip_char(source, '-') {
        Some(source) => split_letters(source),
        None => (&[], source),
    }
}

/// Whether no code point occurs twice.
fn are_different(letters: &[u32]) -> bool
    ensures { result ≡ are_different letters.now }
{
    let mut left = letters;
    while let [c, rest @ ..] = left {
        if rest.contains(c) {
            return false;
        }
        left = rest;
    }
    true
}

/// Whether no code point occurs in both lists.
fn are_apart(on: &[u32], off: &[u32]) -> bool
    ensures { result ≡ list_all (λ c. not (is_in c off.now)) on.now }
{
    on.iter().all(|c| !off.contains(c))
}

/// Returns the change of one flag.
fn switch(on: &[u32], off: &[u32], c: char) -> Option<bool>
    ensures { result ≡ switch on.now off.now c }
{
    if on.contains(&u32::from(c)) {
        Some(true)
    } else if off.contains(&u32::from(c)) {
        Some(false)
    } else {
        None
    }
}

/// Returns the change of each flag.
fn change_by(on: &[u32], off: &[u32]) -> Change
    ensures { change_of result ≡ change_by on.now off.now }
{
    Change {
        icase: switch(on, off, 'i'),
        multiline: switch(on, off, 'm'),
        dot_all: switch(on, off, 's'),
    }
}

/// Whether no letter occurs twice in the two lists. There are only three distinct letters, so this takes linear time.
#[tactic(auto, using(crate::proofs::ModifierLemmas::different_in_both))]
fn are_all_different(on: &[u32], off: &[u32]) -> bool
    ensures { result ≡ are_different (on.now ++ off.now) }
{
    are_different(on) && are_different(off) && are_apart(on, off)
}

/// Whether there is at least one letter, and none occurs twice.
fn may_switch(on: &[u32], off: &[u32]) -> bool
    ensures { result ≡ (not (length (on.now ++ off.now) == 0) && are_different (on.now ++ off.now)) }
{
    !(on.is_empty() && off.is_empty()) && are_all_different(on, off)
}

/// Parses modifiers and the colon after them (ECMA-262, RegularExpressionModifiers).
///
/// There is at least one letter, and none occurs twice; otherwise the result is `None`.
#[tactic(auto, unfolding(crate::specs::Modifiers::modifiers_at))]
pub fn parse_modifiers<'a>(source: &'a [u32]) -> Read<'a, Change>
    ensures { option_map (λ found. (change_of found.0, found.1.now)) result ≡ modifiers_at source.now }
{
    let (on, rest) = split_letters(source);
    let (off, rest) = split_letters_off(rest);
    let rest = strip_char(rest, ':')?;
    if !may_switch(on, off) {
        return None;
    }
    Some((change_by(on, off), rest))
}
