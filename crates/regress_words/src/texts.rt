//! Texts of several characters in words.
ghost use Rattle.std.specs.Prelude.{IfOk, OnOk, string_bytes};
ghost use Rattle.regress_labels.specs.Symbols.{IsShownText, ShowsAfter};

use crate::characters::{case_words, character_words, is_cased};
use regress_labels::{Character, is_seen, joins_emoji, push_symbol};
use std::alloc::{AllocError, Global};

/// The maximum number of characters that are shown of a text.
const TEXT_LENGTH: usize = 60;

/// The end of a text, which determines what may follow in it.
#[derive(Clone, Copy)]
pub struct TextEnd {
    last: Option<Character>,
    /// Whether the last character is shown as itself.
    shown: bool,
    /// The last character that may have another one in the other case.
    cased: Option<Character>,
}

impl TextEnd {
    /// Returns the end of an empty text.
    pub fn new() -> TextEnd {
        TextEnd {
            last: None,
            shown: false,
            cased: None,
        }
    }

    /// Returns the end after one more character.
    pub fn with(self, next: Character) -> TextEnd {
        TextEnd {
            last: Some(next),
            shown: is_shown_in_text(next.c) || self.joins_emoji(next),
            cased: if is_cased(next.c) {
                Some(next)
            } else {
                self.cased
            },
        }
    }

    /// Returns whether a character is shown as part of the text, which is matched in either case if that is said. A
    /// character that is no letter may follow any text; an invisible one is on its own, unless it joins emoji.
    pub fn joins(self, next: Character) -> bool {
        if self.joins_emoji(next) {
            return true;
        }
        if !self.shown || !is_shown_in_text(next.c) {
            return false;
        }
        match self.cased {
            Some(other) => !is_cased(next.c) || other.either_case == next.either_case,
            None => true,
        }
    }

    fn joins_emoji(self, next: Character) -> bool {
        self.last.is_some_and(|last| joins_emoji(last.c, next.c))
    }
}

fn is_shown_in_text(c: u32) -> bool {
    c == 0x20 || is_seen(c)
}

/// Returns the words of characters one after the other, such as `the text "hello"`.
///
/// # Errors
/// Returns [`AllocError`] if an allocation fails.
pub fn text_words(alloc: Global, text: &[Character]) -> Result<String, AllocError> {
    let either_case = text.iter().any(|one| one.either_case);
    if let [only] = text {
        return character_words(alloc, only.c, either_case);
    }
    let mut words = String::from_str(alloc, "the text \"")?;
    let mut before = 0;
    for one in text.iter().take(TEXT_LENGTH) {
        push_after(before, one.c, alloc, &mut words)?;
        before = one.c;
    }
    if text.len() > TEXT_LENGTH {
        words.push('…')?;
    }
    words.push('"')?;
    words.push_str(case_words(either_case))?;
    Ok(words)
}

/// Returns a text of a pattern as it is shown: invisible characters by their numbers, except spaces and those that join
/// emoji.
///
/// # Errors
/// Returns [`AllocError`] if an allocation fails.
pub fn shown(alloc: Global, text: &[u32]) -> Result<String, AllocError>
    ensures { IfOk result (λ shown. IsShownText text.now (string_bytes shown)) }
{
    let mut shown = String::new(alloc);
    let mut before = 0;
    for c in text {
        push_after(before, *c, alloc, &mut shown)?;
        before = *c;
    }
    Ok(shown)
}

/// Appends a character after another one.
fn push_after(before: u32, c: u32, alloc: Global, text: &mut String) -> Result<(), AllocError>
    ensures { OnOk result (ShowsAfter c (string_bytes text.old) (string_bytes text.new)) }
{
    match char::from_u32(c) {
        Some(shown) if c == 0x20 || joins_emoji(before, c) => text.push(shown),
        _ => push_symbol(c, alloc, text),
    }
}
