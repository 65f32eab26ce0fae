//! What options without an argument set.
ghost use Rattle.std.specs.Prelude.{◌≡◌};
ghost use Rattle.regex_options.specs.Given.{switched};

use crate::given::Options;
use crate::source::PatternForm;
use crate::table::Switch;
use crate::task::{InputForm, Selection};
use regress_base::types::Flags;

/// Returns the options with one more.
pub(crate) fn switched(switch: Switch, options: Options) -> Options
    ensures { result ≡ switched switch options }
{
    let form = options.form;
    let selection = options.selection;
    match switch {
        Switch::Help => Options {
            help: true,
            ..options
        },
        Switch::Version => Options {
            version: true,
            ..options
        },
        Switch::IgnoreCase => Options {
            flags: Flags {
                icase: true,
                ..options.flags
            },
            ..options
        },
        Switch::Fixed => Options {
            form: PatternForm {
                fixed: true,
                ..form
            },
            ..options
        },
        Switch::WholeLines => Options {
            form: PatternForm {
                lines: true,
                ..form
            },
            ..options
        },
        Switch::WholeWords => Options {
            form: PatternForm {
                words: true,
                ..form
            },
            ..options
        },
        Switch::Multiline => Options {
            input: InputForm {
                multiline: true,
                ..options.input
            },
            ..options
        },
        Switch::Recursive => Options {
            recursive: true,
            ..options
        },
        Switch::Json => Options {
            json: true,
            ..options
        },
        Switch::Stage(stage) => Options {
            stage: Some(stage),
            ..options
        },
        Switch::Small => Options {
            small: true,
            ..options
        },
        Switch::Html => Options {
            html: true,
            ..options
        },
        Switch::LineBuffered => Options {
            line_buffered: true,
            ..options
        },
        Switch::Binary => options,
        Switch::Invert => Options {
            selection: Selection {
                invert: true,
                ..selection
            },
            ..options
        },
        Switch::FileNames(file_names) => Options {
            selection: Selection {
                file_names,
                ..selection
            },
            ..options
        },
        Switch::Null => Options {
            selection: Selection {
                null: true,
                ..selection
            },
            ..options
        },
        Switch::Numbers => Options {
            selection: Selection {
                numbers: true,
                ..selection
            },
            ..options
        },
        Switch::Shown(shown) => Options {
            selection: Selection { shown, ..selection },
            ..options
        },
    }
}
