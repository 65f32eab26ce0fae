//! The pattern that matches a text.
ghost use Rattle.std.specs.Prelude.{◌≡◌, ◌++◌, [], ◌∷◌, IfOk, OnOk, chars, encode_utf8_all, string_bytes};
ghost use Rattle.regress_lexer.specs.Source.{char};
ghost use Rattle.regress_escape.specs.Escape.{encoded, encoded_first, escaped, hex_digits, numeric_escape};

use crate::characters::{
    control_letter, hex_digit, is_other_punctuator, is_space, is_syntax_character,
};
use std::alloc::{AllocError, Global};

/// Returns the pattern that matches exactly `text` (ECMA-262, RegExp.escape).
///
/// The pattern is accepted under all flags, also inside a larger pattern, and with the flag i it matches up to case
/// folding: see [`escaped_texts_match_themselves`](crate::escaped_texts_match_themselves). A quantifier that follows it
/// applies to its last character only, so put it into a group first.
///
/// # Errors
/// Returns [`AllocError`] if an allocation fails.
///
/// # Complexity
/// Linear in the length of `text`.
///
/// # Examples
/// ```
/// let pattern = escape(alloc, "1+1 = 2?")?;
/// assert_eq!(rt; pattern.as_str(), "\\x31\\+1\\x20\\x3d\\x202\\?");
/// ```
pub fn escape(alloc: Global, text: &str) -> Result<String, AllocError>
    ensures { IfOk result (λ pattern. chars (string_bytes pattern) ≡ escaped (chars text.now)) }
{
    let mut characters = text.chars();
    let Some(first) = characters.next() else {
        return Ok(String::new(alloc));
    };
    let mut pattern = String::new(alloc);
    push_first(&mut pattern, first)?;
    for c in characters {
        push_character(&mut pattern, c)?;
    }
    Ok(pattern)
}

/// Appends the first character. A digit or a letter is escaped by its code, so that it does not continue an escape
/// before the pattern.
fn push_first(pattern: &mut String, c: char) -> Result<(), AllocError>
    ensures { OnOk result (string_bytes pattern.new ≡ string_bytes pattern.old ++ encode_utf8_all (encoded_first c)) }
{
    if c.is_ascii_alphanumeric() {
        push_code(pattern, c)
    } else {
        push_character(pattern, c)
    }
}

/// Appends a character, escaped if it has to be (ECMA-262, EncodeForRegExpEscape).
fn push_character(pattern: &mut String, c: char) -> Result<(), AllocError>
    ensures { OnOk result (string_bytes pattern.new ≡ string_bytes pattern.old ++ encode_utf8_all (encoded c)) }
{
    if is_syntax_character(c) {
        return push_escaped(pattern, c);
    }
    match control_letter(c) {
        Some(letter) => push_escaped(pattern, letter),
        None if is_other_punctuator(c) || is_space(c) => push_code(pattern, c),
        None => pattern.push(c),
    }
}

/// Appends a backslash and the character.
fn push_escaped(pattern: &mut String, c: char) -> Result<(), AllocError>
    ensures { OnOk result (string_bytes pattern.new ≡ string_bytes pattern.old ++ encode_utf8_all (char "\\" ∷ c ∷ [])) }
{
    pattern.push('\\')?;
    pattern.push(c)
}

/// Appends the escape of a character by its code: `\x` and two hexadecimal digits, or `\u` and four.
fn push_code(pattern: &mut String, c: char) -> Result<(), AllocError>
    ensures { OnOk result (string_bytes pattern.new ≡ string_bytes pattern.old ++ encode_utf8_all (numeric_escape c)) }
{
    let code = u32::from(c);
    if code <= 0xFF {
        push_escaped(pattern, 'x')?;
        return push_byte(pattern, code);
    }
    push_escaped(pattern, 'u')?;
    push_byte(pattern, code / 0x100)?;
    push_byte(pattern, code)
}

/// Appends the two hexadecimal digits of the lowest byte of `code`.
fn push_byte(pattern: &mut String, code: u32) -> Result<(), AllocError>
    ensures { OnOk result (string_bytes pattern.new ≡ string_bytes pattern.old ++ encode_utf8_all (hex_digits 2 code)) }
{
    pattern.push(hex_digit(code / 16))?;
    pattern.push(hex_digit(code))
}
