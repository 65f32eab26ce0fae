//! What the options specify.
ghost use Rattle.std.specs.Prelude.{◌≡◌};
ghost use Rattle.regex_options.specs.Given.{given_by, nothing_given};

use crate::files::NameGlob;
use crate::source::{PatternForm, PatternSource};
use crate::task::{Encoding, FileNames, InputForm, Selection, Shown};
use regress_base::types::Flags;
use regress_display::Stage;
use regress_lexer::Dialect;

/// When the output is in color.
#[derive(Clone, Copy)]
pub(crate) enum Color {
    Always,
    Never,
    /// If the output is a terminal.
    Auto,
}

/// How many lines around selected ones are shown.
#[derive(Clone, Copy)]
pub(crate) struct Around {
    pub(crate) before: Option<u64>,
    pub(crate) after: Option<u64>,
    /// How many on a side of which the number is not given.
    pub(crate) both: Option<u64>,
}

/// The options. The last one of a kind takes effect.
#[derive(Clone, Copy)]
pub(crate) struct Options {
    pub(crate) help: bool,
    pub(crate) version: bool,
    pub(crate) flags: Flags,
    pub(crate) dialect: Dialect,
    pub(crate) form: PatternForm,
    pub(crate) selection: Selection,
    pub(crate) around: Around,
    /// How many matches of a line are replaced at most.
    pub(crate) max_replacements: Option<u64>,
    /// How an input is read.
    pub(crate) input: InputForm,
    /// Whether files are searched for in directories.
    pub(crate) recursive: bool,
    /// Whether each line is written at once.
    pub(crate) line_buffered: bool,
    pub(crate) json: bool,
    pub(crate) color: Option<Color>,
    /// The tree to show.
    pub(crate) stage: Option<Stage>,
    /// Whether to use the small table instead of that of all of Unicode.
    pub(crate) small: bool,
    /// Whether a pattern is explained by a page.
    pub(crate) html: bool,
}

/// The options, and the texts that they have.
#[derive(Clone, Copy)]
pub(crate) struct Given<'a> {
    pub(crate) options: Options,
    /// The pattern of the last option, if that has one.
    pub(crate) pattern: Option<PatternSource<'a>>,
    /// The text of the page.
    pub(crate) text: Option<&'a str>,
    /// The glob of the last option, if that has one.
    pub(crate) glob: Option<NameGlob<'a>>,
    /// If files are rewritten, the suffix of their originals.
    pub(crate) in_place: Option<&'a str>,
}

/// What is specified where no option is given.
pub(crate) fn nothing_given() -> Given<'static>
    ensures { given_by result ≡ nothing_given }
{
    Given {
        options: Options {
            help: false,
            version: false,
            flags: Flags::default(),
            dialect: Dialect::Ecma,
            form: PatternForm {
                fixed: false,
                lines: false,
                words: false,
            },
            selection: Selection {
                invert: false,
                file_names: FileNames::IfSeveral,
                null: false,
                numbers: false,
                shown: Shown::Lines,
                max_count: None,
                context: None,
            },
            around: Around {
                before: None,
                after: None,
                both: None,
            },
            max_replacements: None,
            input: InputForm {
                multiline: false,
                encoding: Encoding::Bytes,
            },
            recursive: false,
            line_buffered: false,
            json: false,
            color: None,
            stage: None,
            small: false,
            html: false,
        },
        pattern: None,
        text: None,
        glob: None,
        in_place: None,
    }
}
