//! Why arguments are invalid.

use crate::command::find_command;
use crate::request::Arguments;
use regress_arguments::write_visible;
use std::alloc::AllocError;
use std::io::{self, Write};

/// Why arguments are invalid.
#[derive(Clone, Copy)]
pub enum UsageError<'a> {
    /// The argument with this name is missing.
    Missing(&'static str),
    /// This is no command.
    UnknownCommand(&'a str),
    /// This has no option, or one that the command lacks.
    UnknownOption(&'a str),
    /// This is not, or does not have, what its option needs.
    Invalid {
        /// What the argument of the option has to be.
        kind: &'static str,
        /// The argument.
        word: &'a str,
    },
    /// This has an option that only `match` has.
    OnlyOfMatch(&'a str),
    /// `--json` is given with an option that selects what `match` shows, or other lines to show.
    ExcludedByJson,
    /// `--on` is given without `--html`.
    TextWithoutPage,
    /// There is an argument more than the command has.
    Unexpected(&'a str),
}

/// Why arguments are not parsed.
#[derive(Clone, Copy)]
pub enum ParseError<'a> {
    /// They are invalid.
    Usage(UsageError<'a>),
    /// An allocation failed.
    Memory,
}

impl<'a> From<UsageError<'a>> for ParseError<'a> {
    ghost use Rattle.std.specs.Prelude.{◌≡◌};
    ghost use Rattle.regex_options.specs.declared.error.ParseError.TheVariants.{Usage};

    ghost from_gives = { λ usage error. error ≡ Usage usage };

    fn from(error: UsageError<'a>) -> ParseError<'a> {
        ParseError::Usage(error)
    }
}

impl<'a> From<AllocError> for ParseError<'a> {
    ghost use Rattle.std.specs.Prelude.{◌≡◌};
    ghost use Rattle.regex_options.specs.declared.error.ParseError.TheVariants.{Memory};

    ghost from_gives = { λ _ error. error ≡ Memory };

    fn from(_: AllocError) -> ParseError<'a> {
        ParseError::Memory
    }
}

/// Writes why these arguments are invalid, and which help to read.
///
/// # Errors
/// Returns the error of a write.
pub fn write_usage_error<E: Write>(
    error: UsageError<'_>,
    arguments: Arguments<'_>,
    to: &mut E,
) -> io::Result<()> {
    to.write_all(b"regex: ")?;
    write_error(error, to)?;
    to.write_all(b"\ntry 'regex ")?;
    if let [first, ..] = arguments.words {
        if let Some(entry) = find_command(arguments.commands, first.as_str()) {
            write!(to, "{} ", entry.name)?;
        }
    }
    to.write_all(b"--help'\n")
}

fn write_error<E: Write>(error: UsageError<'_>, to: &mut E) -> io::Result<()> {
    match error {
        UsageError::Missing(name) => write!(to, "missing {name}"),
        UsageError::UnknownCommand(word) => write_about("unknown command", word, to),
        UsageError::UnknownOption(word) => write_about("unknown option", word, to),
        UsageError::Invalid { kind, word } => {
            write!(to, "invalid {kind}: ")?;
            write_visible(word, to)
        }
        UsageError::OnlyOfMatch(word) => write_about("only match has the option", word, to),
        UsageError::ExcludedByJson => to.write_all(
            b"--json excludes -o, -c, -l, -q, -A, -B and -C",
        ),
        UsageError::TextWithoutPage => to.write_all(b"--on needs --html"),
        UsageError::Unexpected(word) => write_about("unexpected argument", word, to),
    }
}

/// Writes a text, and an argument after it.
fn write_about<E: Write>(text: &str, word: &str, to: &mut E) -> io::Result<()> {
    write!(to, "{text} ")?;
    write_visible(word, to)
}
