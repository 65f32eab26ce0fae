//! Display of characters.
ghost use Rattle.std.specs.Prelude.{◌≡◌, ◌≢◌, ◌≤◌, ◌++◌, true, OnOk, encode_utf8, string_bytes};
ghost use Rattle.regress_tree.specs.Display.{code_point};
ghost use Rattle.regress_labels.specs.Symbols.{ShowsAfter};

use std::alloc::{AllocError, Global};
use ucd_category::GeneralCategory;

/// Invisible characters, as alternating starts and ends of ranges: controls, most spaces, combining marks, the Ohm,
/// Kelvin and Ångström signs, which look like letters, surrogates and private-use characters.
const UNSEEN: [u32; 50] = [
    0, 0x20, 0x7F, 0xA1, 0xAD, 0xAE, 0x300, 0x370, 0x483, 0x48A, 0x600, 0x606, 0x61C, 0x61D,
    0x115F, 0x1161, 0x1680, 0x1681, 0x17B4, 0x17B6, 0x180B, 0x1810, 0x1AB0, 0x1B00, 0x1DC0, 0x1E00,
    0x2000, 0x2010, 0x2028, 0x2030, 0x205F, 0x2070, 0x20D0, 0x2100, 0x2126, 0x2127, 0x212A, 0x212C,
    0x3000, 0x3001, 0xD800, 0xF900, 0xFDD0, 0xFDF0, 0xFE00, 0xFE30, 0xFEFF, 0xFF00, 0xFFF0,
    0x10000,
];

/// Wide characters in the same form: East Asian wide characters and pictographs.
const WIDE: [u32; 22] = [
    0x1100, 0x1160, 0x2E80, 0x303F, 0x3041, 0xA4D0, 0xAC00, 0xD7A4, 0xF900, 0xFB00, 0xFE30, 0xFE70,
    0xFF00, 0xFF61, 0xFFE0, 0xFFE7, 0x1F300, 0x1F650, 0x1F680, 0x1FA00, 0x20000, 0x3FFFE,
];

/// Returns whether a number is inside a range, given the alternating starts and ends of the ranges.
fn is_within(ends: &[u32], c: u32) -> bool {
    match ends.binary_search(&c) {
        Ok(point) => point % 2 == 0,
        Err(point) => point % 2 == 1,
    }
}

/// Returns whether a character has a visible shape of its own. Fonts have none for those that are not assigned.
pub fn is_seen(c: u32) -> bool
    ensures { 33 ≤ c → c ≤ 126 → result ≡ true }
{
    matches!(c, 0x21..=0x7E) || (c < 0xE0000 && !is_within(&UNSEEN, c) && is_assigned(c))
}

fn is_assigned(c: u32) -> bool {
    match char::from_u32(c) {
        Some(c) => !matches!(GeneralCategory::for_char(c), GeneralCategory::Unassigned),
        None => false,
    }
}

/// Returns whether a character is a joiner or a variation selector that belongs to the emoji before it, so that both are
/// shown as one.
pub fn joins_emoji(before: u32, c: u32) -> bool {
    let is_joiner = matches!(c, 0x200D | 0xFE0F);
    is_joiner && matches!(before, 0xA9 | 0xAE | 0x2190..=0x2BFF | 0xFE0F | 0x1F000..=0x1FAFF)
}

/// Appends a character: itself, `␣` for a space, or its number, as `U+000A`, if it is invisible.
///
/// # Errors
/// Returns [`AllocError`] if an allocation fails.
pub fn push_symbol(c: u32, alloc: Global, text: &mut String) -> Result<(), AllocError>
    ensures shown { c ≢ 32 → OnOk result (ShowsAfter c (string_bytes text.old) (string_bytes text.new)) }
    ensures space { c ≡ 32 → OnOk result (string_bytes text.new ≡ string_bytes text.old ++ encode_utf8 0x2423) }
{
    match char::from_u32(c) {
        Some(' ') => text.push('␣'),
        Some(shown) if is_seen(c) => text.push(shown),
        _ => push_number(c, alloc, text),
    }
}

/// Appends the number of a character, as `U+000A`.
///
/// # Errors
/// Returns [`AllocError`] if an allocation fails.
pub fn push_number(c: u32, alloc: Global, text: &mut String) -> Result<(), AllocError>
    ensures { OnOk result (string_bytes text.new ≡ string_bytes text.old ++ code_point c) }
{
    text.push_str(&format!(in alloc; "U+{c:04X}")?)
}

/// Appends a character after another one, as [`push_symbol`] does, or itself if it joins emoji.
///
/// # Errors
/// Returns [`AllocError`] if an allocation fails.
pub fn push_symbol_after(
    before: u32,
    c: u32,
    alloc: Global,
    text: &mut String,
) -> Result<(), AllocError> {
    match char::from_u32(c) {
        Some(joiner) if joins_emoji(before, c) => text.push(joiner),
        _ => push_symbol(c, alloc, text),
    }
}

/// Returns the number of columns that a character takes.
pub fn columns_of(c: u32) -> u32 {
    if is_within(&WIDE, c) { 2 } else { 1 }
}

/// Returns the number of columns that a text takes, saturating.
pub fn columns(text: &str) -> u32 {
    let mut sum = 0_u32;
    for c in text.chars() {
        sum = sum.saturating_add(columns_of(u32::from(c)));
    }
    sum
}

/// The maximum number of characters that are displayed of a name or of a string of a set.
const QUOTED_LENGTH: usize = 20;

/// Returns characters in quotation marks, cut off if there are many.
///
/// # Errors
/// Returns [`AllocError`] if an allocation fails.
pub fn quoted(alloc: Global, characters: &[u32]) -> Result<String, AllocError> {
    let mut text = String::from_str(alloc, "\"")?;
    let mut before = 0;
    for c in characters.iter().take(QUOTED_LENGTH) {
        push_symbol_after(before, *c, alloc, &mut text)?;
        before = *c;
    }
    let end = if characters.len() > QUOTED_LENGTH {
        "…\""
    } else {
        "\""
    };
    text.push_str(end)?;
    Ok(text)
}
