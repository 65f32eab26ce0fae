//! What to write instead.

use crate::subject::write_character;
use std::fmt::{self, Formatter, Write};

/// What to write instead.
#[derive(Clone, Copy)]
pub(crate) enum Hint {
    /// Nothing is known.
    None,
    /// These words.
    Words(&'static str),
    /// This character, without a backslash.
    Bare(char),
    /// This character, with a backslash, for the character itself.
    Escaped(char),
}

impl Hint {
    /// Writes the hint in parentheses after a space, or nothing.
    pub(crate) fn write<W: Write>(self, f: &mut Formatter<W>) -> fmt::Result {
        match self {
            Hint::None => Ok(()),
            Hint::Words(words) => write!(f, " ({words})"),
            Hint::Bare(c) => {
                f.write_str(" (write `")?;
                write_character(c, f)?;
                f.write_str("`: with the flag u only syntax characters are escaped)")
            }
            Hint::Escaped(c) => {
                f.write_str(" (write `\\")?;
                write_character(c, f)?;
                f.write_str("` for the character)")
            }
        }
    }
}
