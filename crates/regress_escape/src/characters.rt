//! How characters are escaped.
ghost use Rattle.std.specs.Prelude.{◌≡◌, ◌%◌};
ghost use Rattle.std.specs.Char.{digit_char};
ghost use Rattle.regress_base.specs.Intervals.{is_member};
ghost use Rattle.regress_lexer.specs.Escapes.{is_syntax_character};
ghost use Rattle.regress_escape.specs.Escape.{control_letter, is_other_punctuator, is_space};

use regress_base::charclasses::{line_terminator_intervals, white_space_intervals};
use regress_base::codepointset::Interval;

/// Returns the last hexadecimal digit of `code`, in lower case.
pub(crate) fn hex_digit(code: u32) -> char
    ensures { result ≡ digit_char (code % 16) }
{
    match code % 16 {
        digit @ 0..=9 => char::from(b'0' + digit as u8),
        digit => char::from(b'a' + (digit - 10) as u8),
    }
}

/// Returns the letter of the control escape of a character, if it has one (ECMA-262, ControlEscape).
pub(crate) fn control_letter(c: char) -> Option<char>
    ensures { result ≡ control_letter c }
{
    match c {
        '\t' => Some('t'),
        '\n' => Some('n'),
        '\u{B}' => Some('v'),
        '\u{C}' => Some('f'),
        '\r' => Some('r'),
        _ => None,
    }
}

/// Returns whether the character is a syntax character or `/`, which a backslash makes literal.
pub(crate) fn is_syntax_character(c: char) -> bool
    ensures { result ≡ is_syntax_character c }
{
    matches!(
        c,
        '^' | '$' | '\\' | '.' | '*' | '+' | '?' | '(' | ')' | '[' | ']' | '{' | '}' | '|' | '/'
    )
}

/// Returns whether the character is a punctuator that is escaped by its code (ECMA-262, EncodeForRegExpEscape).
pub(crate) fn is_other_punctuator(c: char) -> bool
    ensures { result ≡ is_other_punctuator c }
{
    matches!(
        c,
        ',' | '-'
            | '='
            | '<'
            | '>'
            | '#'
            | '&'
            | '!'
            | '%'
            | ':'
            | ';'
            | '@'
            | '~'
            | '\''
            | '`'
            | '"'
    )
}

/// Returns whether the character is white space or a line terminator (ECMA-262, WhiteSpace and LineTerminator).
pub(crate) fn is_space(c: char) -> bool
    ensures { result ≡ is_space c }
{
    is_in(&white_space_intervals(), c) || is_in(&line_terminator_intervals(), c)
}

/// Returns whether one of the intervals contains the character.
fn is_in(intervals: &[Interval], c: char) -> bool
    ensures { result ≡ is_member intervals.now c }
{
    let code = u32::from(c);
    intervals.iter().any(|iv| iv.contains(code))
}
