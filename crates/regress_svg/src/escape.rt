//! Escaping of texts in markup.
ghost use Rattle.std.specs.Prelude.{◌≡◌};
ghost use Rattle.std.specs.Fmt.{WritesOnOk};
ghost use Rattle.regress_svg.specs.Escape.{escaped, escaped_text, is_legal};

use std::fmt;
use std::fmt::{Formatter, Write};

/// A text that is written escaped, for content between tags or for an attribute value in double quotes.
#[derive(Clone, Copy)]
pub struct Escaped<'a>(pub &'a str);

impl fmt::Display for Escaped<'_> {
    ghost use Rattle.std.specs.Prelude.{Some};
    ghost use Rattle.regress_svg.specs.Escape.{escaped_text};

    ghost output = { λ text. Some (escaped_text text.0.now) };

    fn fmt<W: Write>(&self, f: &mut Formatter<W>) -> fmt::Result {
        write_characters(self.0, f)
    }
}

fn write_characters<W: Write>(text: &str, f: &mut Formatter<W>) -> fmt::Result
    ensures { WritesOnOk W.write_str_gives f.old result (escaped_text text.now) f.new }
{
    for c in text.chars() {
        write_escaped(c, f)?;
    }
    Ok(())
}

/// Writes a character, as a reference if the character itself has a meaning in markup or would be normalized as white
/// space.
fn write_escaped<W: Write>(c: char, f: &mut Formatter<W>) -> fmt::Result
    ensures { WritesOnOk W.write_str_gives f.old result (escaped c) f.new }
{
    match c {
        '&' => f.write_str("&amp;"),
        '<' => f.write_str("&lt;"),
        '>' => f.write_str("&gt;"),
        '"' => f.write_str("&quot;"),
        '\t' => f.write_str("&#9;"),
        '\n' => f.write_str("&#10;"),
        '\r' => f.write_str("&#13;"),
        c if is_legal(c) => f.write_char(c),
        _ => f.write_char('\u{FFFD}'),
    }
}

/// Returns whether XML allows the character (XML 1.0, section 2.2). Tabs and line ends are handled before.
fn is_legal(c: char) -> bool
    ensures { result ≡ is_legal c }
{
    matches!(c, ' '..='\u{D7FF}' | '\u{E000}'..='\u{FFFD}' | '\u{10000}'..='\u{10FFFF}')
}
