//! What options with an argument set.
ghost use Rattle.std.specs.Prelude.{◌≡◌, option_map};
ghost use Rattle.regex_options.specs.Given.{around_with, color_of, count_of, dialect_of, encoding_of, given_by, valued, with_color, with_context, with_count, with_dialect, with_encoding, with_flags, with_glob, with_pattern, with_replacements};
ghost use Rattle.regex_options.specs.Plain.{source};

use crate::files::NameGlob;
use crate::given::{Around, Color, Given, Options};
use crate::source::PatternSource;
use crate::table::Value;
use crate::task::{Encoding, InputForm, Selection, Side};
use regress_arguments::parse_flags;
use regress_base::types::Flags;
use regress_lexer::Dialect;

/// Returns what is given with one more option; `None` if its argument is invalid.
pub(crate) fn valued<'a>(value: Value, text: &'a str, given: Given<'a>) -> Option<Given<'a>>
    ensures { option_map given_by result ≡ valued value text.now (given_by given.entry) }
{
    match value {
        Value::Pattern => Some(with_pattern(PatternSource::Text(text), given)),
        Value::File => Some(with_pattern(PatternSource::File(text), given)),
        Value::Text => Some(Given {
            text: Some(text),
            ..given
        }),
        Value::InPlace => Some(Given {
            in_place: Some(text),
            ..given
        }),
        Value::Include => Some(with_glob(text, true, given)),
        Value::Exclude => Some(with_glob(text, false, given)),
        Value::Flags => Some(Given {
            options: with_flags(given.options, text)?,
            ..given
        }),
        Value::Dialect => Some(Given {
            options: with_dialect(given.options, text)?,
            ..given
        }),
        Value::Encoding => Some(Given {
            options: with_encoding(given.options, text)?,
            ..given
        }),
        Value::Count => Some(Given {
            options: with_count(given.options, text)?,
            ..given
        }),
        Value::Replacements => Some(Given {
            options: with_replacements(given.options, text)?,
            ..given
        }),
        Value::Context(side) => Some(Given {
            options: with_context(side, given.options, text)?,
            ..given
        }),
        Value::Color => Some(Given {
            options: with_color(given.options, text)?,
            ..given
        }),
    }
}

/// Sets the pattern of the last option.
fn with_pattern<'a>(pattern: PatternSource<'a>, given: Given<'a>) -> Given<'a>
    ensures { given_by result ≡ with_pattern (source pattern.entry) (given_by given.entry) }
{
    Given {
        pattern: Some(pattern),
        ..given
    }
}

/// Sets the glob of the last option.
fn with_glob<'a>(text: &'a str, includes: bool, given: Given<'a>) -> Given<'a>
    ensures { given_by result ≡ with_glob text.now includes (given_by given.entry) }
{
    Given {
        glob: Some(NameGlob { text, includes }),
        ..given
    }
}

/// Sets the flags of letters, as JavaScript reads them: `v` includes `u`, and both together are invalid.
fn with_flags(options: Options, letters: &str) -> Option<Options>
    ensures { result ≡ with_flags letters.now options }
{
    let flags = parse_flags(letters)?;
    if flags.unicode && flags.unicode_sets {
        return None;
    }
    Some(Options {
        flags: Flags {
            icase: flags.icase || options.flags.icase,
            unicode: flags.unicode || flags.unicode_sets,
            ..flags
        },
        ..options
    })
}

/// Sets the dialect by its name.
fn with_dialect(options: Options, name: &str) -> Option<Options>
    ensures { result ≡ with_dialect name.now options }
{
    let dialect = dialect_of(name)?;
    Some(Options { dialect, ..options })
}

fn dialect_of(name: &str) -> Option<Dialect>
    ensures { result ≡ dialect_of name.now }
{
    match name {
        "regress" => Some(Dialect::Regress),
        "ecma" => Some(Dialect::Ecma),
        _ => None,
    }
}

/// Sets the encoding of inputs by its name.
fn with_encoding(options: Options, name: &str) -> Option<Options>
    ensures { result ≡ with_encoding name.now options }
{
    let encoding = encoding_of(name)?;
    Some(Options {
        input: InputForm {
            encoding,
            ..options.input
        },
        ..options
    })
}

fn encoding_of(name: &str) -> Option<Encoding>
    ensures { result ≡ encoding_of name.now }
{
    match name {
        "utf-8" => Some(Encoding::Utf8),
        "bytes" => Some(Encoding::Bytes),
        _ => None,
    }
}

/// Sets how many lines are selected at most.
fn with_count(options: Options, text: &str) -> Option<Options>
    ensures { result ≡ with_count text.now options }
{
    let count = read_count(text)?;
    Some(Options {
        selection: Selection {
            max_count: Some(count),
            ..options.selection
        },
        ..options
    })
}

/// Sets how many matches of a line are replaced at most.
fn with_replacements(options: Options, text: &str) -> Option<Options>
    ensures { result ≡ with_replacements text.now options }
{
    let count = read_count(text)?;
    Some(Options {
        max_replacements: Some(count),
        ..options
    })
}

/// Sets how many lines around selected ones are shown.
fn with_context(side: Side, options: Options, text: &str) -> Option<Options>
    ensures { result ≡ with_context side text.now options }
{
    let count = read_count(text)?;
    Some(Options {
        around: around_with(side, count, options.around),
        ..options
    })
}

fn around_with(side: Side, count: u64, around: Around) -> Around
    ensures { result ≡ around_with side count around }
{
    match side {
        Side::Before => Around {
            before: Some(count),
            ..around
        },
        Side::After => Around {
            after: Some(count),
            ..around
        },
        Side::Both => Around {
            both: Some(count),
            ..around
        },
    }
}

/// Parses decimal digits.
fn read_count(text: &str) -> Option<u64>
    ensures { result ≡ count_of text.now }
{
    if text.starts_with('+') {
        return None;
    }
    text.parse::<u64>().ok()
}

/// Sets when the output is in color.
fn with_color(options: Options, when: &str) -> Option<Options>
    ensures { result ≡ with_color when.now options }
{
    let color = color_of(when)?;
    Some(Options {
        color: Some(color),
        ..options
    })
}

fn color_of(when: &str) -> Option<Color>
    ensures { result ≡ color_of when.now }
{
    match when {
        "always" => Some(Color::Always),
        "never" => Some(Color::Never),
        "auto" => Some(Color::Auto),
        _ => None,
    }
}
