//! Parses options.
ghost use Rattle.std.specs.Prelude.{◌≡◌, ◌<◌, ◌++◌, ◌∷◌, [], OnOk, drop, find, length, map, option_map, slice_index, string_bytes};
ghost use Rattle.regex_options.specs.Given.{given_by};
ghost use Rattle.regex_options.specs.Reading.{is_option, lacked, listed, letters_of, noted, options_of, reading_of, start, unless_empty, without_lists, words_of, used, with_letters, with_long, with_option, with_switch, with_value, with_word, without_value};
ghost use Rattle.regex_options.specs.Table.{has_letter, has_long};
ghost use Rattle.regex_options.specs.Plain.{IsParsed, first_error, name_glob, plain_result, source, usage_error};

use crate::assignment::name_and_value;
use crate::command::Command;
use crate::error::{ParseError, UsageError};
use crate::files::NameGlob;
use crate::given::{Given, nothing_given};
use crate::source::PatternSource;
use crate::switches::switched;
use crate::table::{Argument, OptionEntry, Scope, Sets, Switch};
use crate::values::valued;
use std::alloc::{AllocError, Global};

/// What the arguments up to some point specify.
#[derive(Clone, Copy)]
pub(crate) struct Reading<'a> {
    pub(crate) given: Given<'a>,
    /// The first option that the command lacks.
    pub(crate) denied: Option<UsageError<'a>>,
    /// What the next argument is, if it belongs to the last option.
    pub(crate) awaits: Option<Argument>,
}

/// What the arguments of a command are.
#[derive(Drop)]
pub(crate) struct Words<'a> {
    /// What the options specify.
    pub(crate) reading: Reading<'a>,
    /// The patterns of options, in order.
    pub(crate) patterns: Vec<PatternSource<'a>>,
    /// The globs of options, in order.
    pub(crate) globs: Vec<NameGlob<'a>>,
    /// The arguments that are neither options nor arguments of options.
    pub(crate) operands: Vec<String>,
}

/// Parses the arguments of a command.
///
/// # Errors
/// Returns the first error, or [`ParseError::Memory`] if an allocation fails.
pub(crate) fn read_options<'a>(
    alloc: Global,
    options: &[OptionEntry],
    command: Command,
    args: &'a [String],
) -> Result<Words<'a>, ParseError<'a>>
    ensures { IsParsed words_of result (options_of options.now command start args.now) }
{
    let mut reading = Reading {
        given: nothing_given(),
        denied: None,
        awaits: None,
    };
    let mut patterns = Vec::new(alloc);
    let mut globs = Vec::new(alloc);
    let mut operands = Vec::new(alloc);
    let mut rest = args;
    while let [first, after @ ..] = rest {
        let word = first.as_str();
        if reading.awaits.is_none() && word == "--" {
            add_operands(alloc, after, &mut operands)?;
            return Ok(Words {
                reading,
                patterns,
                globs,
                operands,
            });
        }
        if reading.awaits.is_none() && !is_option(word) {
            add_operand(alloc, word, &mut operands)?;
        } else {
            reading = match read_word(options, command, reading, word) {
                Ok(next) => next,
                Err(error) => return Err(ParseError::Usage(first_error(reading.denied, error))),
            };
            add_pattern(reading.given.pattern, &mut patterns)?;
            add_glob(reading.given.glob, &mut globs)?;
            reading = without_lists(reading);
        }
        rest = after;
    }
    match reading.awaits {
        Some(argument) => {
            let error = UsageError::Missing(argument.name);
            Err(ParseError::Usage(first_error(reading.denied, error)))
        }
        None => Ok(Words {
            reading,
            patterns,
            globs,
            operands,
        }),
    }
}

/// Adds the pattern of the last option.
fn add_pattern<'a>(
    pattern: Option<PatternSource<'a>>,
    to: &mut Vec<PatternSource<'a>>,
) -> Result<(), AllocError>
    ensures { OnOk result (map source to.new.items ≡ map source to.old.items ++ listed (option_map source pattern.entry)) }
{
    if let Some(pattern) = pattern {
        to.push(pattern)?;
    }
    Ok(())
}

/// Adds the glob of the last option.
fn add_glob<'a>(glob: Option<NameGlob<'a>>, to: &mut Vec<NameGlob<'a>>) -> Result<(), AllocError>
    ensures { OnOk result (map name_glob to.new.items ≡ map name_glob to.old.items ++ listed (option_map name_glob glob.entry)) }
{
    if let Some(glob) = glob {
        to.push(glob)?;
    }
    Ok(())
}

/// Forgets the pattern and the glob of the last option.
fn without_lists<'a>(reading: Reading<'a>) -> Reading<'a>
    ensures { reading_of result ≡ without_lists (reading_of reading.entry) }
{
    Reading {
        given: Given {
            pattern: None,
            glob: None,
            ..reading.given
        },
        ..reading
    }
}

/// Adds arguments to the operands.
fn add_operands(alloc: Global, args: &[String], to: &mut Vec<String>) -> Result<(), AllocError>
    ensures { OnOk result (map string_bytes to.new.items ≡ map string_bytes to.old.items ++ map string_bytes args.now) }
{
    for arg in args {
        add_operand(alloc, arg.as_str(), to)?;
    }
    Ok(())
}

/// Adds an argument to the operands.
fn add_operand(alloc: Global, arg: &str, to: &mut Vec<String>) -> Result<(), AllocError>
    ensures { OnOk result (map string_bytes to.new.items ≡ map string_bytes to.old.items ++ (arg.now ∷ [])) }
{
    to.push(String::from_str(alloc, arg)?)?;
    Ok(())
}

/// Returns whether an argument has options.
fn is_option(word: &str) -> bool
    ensures { result ≡ is_option word.now }
{
    word.starts_with('-') && word != "-"
}

/// Returns the error that comes first.
fn first_error<'a>(denied: Option<UsageError<'a>>, error: UsageError<'a>) -> UsageError<'a>
    ensures { usage_error result ≡ first_error (option_map usage_error denied.entry) (usage_error error.entry) }
{
    match denied {
        Some(first) => first,
        None => error,
    }
}

/// Parses an argument that is an option, or belongs to the one before it.
fn read_word<'a>(
    options: &[OptionEntry],
    command: Command,
    reading: Reading<'a>,
    word: &'a str,
) -> Result<Reading<'a>, UsageError<'a>>
    ensures { plain_result reading_of result ≡ with_word options.now command word.now (reading_of reading.entry) }
{
    match reading.awaits {
        Some(argument) => with_value(argument, word, word, reading),
        None => with_option(options, command, reading, word),
    }
}

/// Adds the option that an argument names, or those of its letters.
fn with_option<'a>(
    options: &[OptionEntry],
    command: Command,
    reading: Reading<'a>,
    word: &'a str,
) -> Result<Reading<'a>, UsageError<'a>>
    ensures { plain_result reading_of result ≡ with_option options.now command word.now (reading_of reading.entry) }
{
    match word.strip_prefix("--") {
        Some(long) => with_long(options, command, word, long, reading),
        None => with_letters(options, command, word, letters_of(word), reading),
    }
}

/// Returns an argument without the hyphen in front.
fn letters_of(word: &str) -> &str
    ensures { result.now ≡ letters_of word.now }
{
    match word.strip_prefix("-") {
        Some(letters) => letters,
        None => word,
    }
}

/// Adds an option with this long name, and its argument after `=`.
fn with_long<'a>(
    options: &[OptionEntry],
    command: Command,
    word: &'a str,
    long: &'a str,
    reading: Reading<'a>,
) -> Result<Reading<'a>, UsageError<'a>>
    ensures { plain_result reading_of result ≡ with_long options.now command word.now long.now (reading_of reading.entry) }
{
    let (name, value) = name_and_value(long);
    match find_long(options, name) {
        Some(option) => used(command, option, word, value, reading),
        None => Err(UsageError::UnknownOption(word)),
    }
}

/// Adds the options with these letters of an argument. What follows the letter of an option with an argument is that
/// argument, if it is not empty.
fn with_letters<'a>(
    options: &[OptionEntry],
    command: Command,
    word: &'a str,
    letters: &'a str,
    reading: Reading<'a>,
) -> Result<Reading<'a>, UsageError<'a>>
    ensures { plain_result reading_of result ≡ with_letters options.now command word.now letters.now (reading_of reading.entry) }
{
    let mut reading = reading;
    let mut letters = letters;
    while let Some(letter) = letters.as_bytes().first() {
        if !letter.is_ascii() {
            return Err(UsageError::UnknownOption(word));
        }
        let Some(option) = find_letter(options, *letter) else {
            return Err(UsageError::UnknownOption(word));
        };
        let after = after_first(letters);
        if option.has_argument() {
            return used(command, option, word, unless_empty(after), reading);
        }
        reading = used(command, option, word, None, reading)?;
        letters = after;
    }
    Ok(reading)
}

/// Returns the text after its first byte, which is ASCII.
fn after_first(text: &str) -> &str
    requires some { 0 < length text.now }
    requires ascii { slice_index text.now 0 < 128 }
    ensures { result.now ≡ drop 1 text.now }
{
    &text[1..]
}

/// Returns the text, unless it is empty.
fn unless_empty(text: &str) -> Option<&str>
    ensures { option_map (λ text. text.now) result ≡ unless_empty text.now }
{
    if text.is_empty() { None } else { Some(text) }
}

/// Adds an option of this argument, with its own argument if that is here.
fn used<'a>(
    command: Command,
    option: OptionEntry,
    word: &'a str,
    value: Option<&'a str>,
    reading: Reading<'a>,
) -> Result<Reading<'a>, UsageError<'a>>
    ensures { plain_result reading_of result
        ≡ used word.now option.sets (option_map (λ text. text.now) value.entry) (noted command option.scope word.now (reading_of reading.entry)) }
{
    let noted = noted(command, option.scope, word, reading);
    match (option.sets, value) {
        (Sets::Switch(switch), None) => Ok(with_switch(switch, noted)),
        (Sets::Switch(_), Some(_)) => Err(UsageError::UnknownOption(word)),
        (Sets::Value(argument), Some(text)) => with_value(argument, text, word, noted),
        (Sets::Value(argument), None) => without_value(argument, word, noted),
    }
}

/// Adds an option that has no argument here: it takes effect with the default, or the next argument is its own.
fn without_value<'a>(
    argument: Argument,
    word: &'a str,
    reading: Reading<'a>,
) -> Result<Reading<'a>, UsageError<'a>>
    ensures { plain_result reading_of result ≡ without_value argument argument.default word.now (reading_of reading.entry) }
{
    match argument.default {
        Some(text) => with_value(argument, text, word, reading),
        None => Ok(Reading {
            awaits: Some(argument),
            ..reading
        }),
    }
}

/// Notes the error of an option that the command lacks.
fn noted<'a>(command: Command, scope: Scope, word: &'a str, reading: Reading<'a>) -> Reading<'a>
    ensures { reading_of result ≡ noted command scope word.now (reading_of reading.entry) }
{
    if scope.has(command) {
        reading
    } else {
        Reading {
            denied: Some(first_error(reading.denied, lacked(scope, word))),
            ..reading
        }
    }
}

fn lacked(scope: Scope, word: &str) -> UsageError<'_>
    ensures { usage_error result ≡ lacked scope word.now }
{
    if scope.is_of_match_only() {
        UsageError::OnlyOfMatch(word)
    } else {
        UsageError::UnknownOption(word)
    }
}

/// Adds an option without an argument.
fn with_switch<'a>(switch: Switch, reading: Reading<'a>) -> Reading<'a>
    ensures { reading_of result ≡ with_switch switch (reading_of reading.entry) }
{
    let given = reading.given;
    Reading {
        given: Given {
            options: switched(switch, given.options),
            ..given
        },
        ..reading
    }
}

/// Adds an option with its argument.
fn with_value<'a>(
    argument: Argument,
    text: &'a str,
    word: &'a str,
    reading: Reading<'a>,
) -> Result<Reading<'a>, UsageError<'a>>
    ensures { plain_result reading_of result ≡ with_value argument text.now word.now (reading_of reading.entry) }
{
    match valued(argument.value, text, reading.given) {
        Some(given) => Ok(Reading {
            given,
            denied: reading.denied,
            awaits: None,
        }),
        None => Err(UsageError::Invalid {
            kind: argument.kind,
            word,
        }),
    }
}

/// Returns the option with this long name.
fn find_long(options: &[OptionEntry], name: &str) -> Option<OptionEntry>
    ensures { result ≡ find (has_long name.now) options.now }
{
    for option in options {
        if option.has_long(name) {
            return Some(*option);
        }
    }
    None
}

/// Returns the option with this letter.
fn find_letter(options: &[OptionEntry], letter: u8) -> Option<OptionEntry>
    ensures { result ≡ find (has_letter letter) options.now }
{
    for option in options {
        if option.has_letter(letter) {
            return Some(*option);
        }
    }
    None
}
