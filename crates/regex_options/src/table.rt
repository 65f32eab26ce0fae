//! The table of options.

use crate::command::{Command, Operation};
use crate::task::{FileNames, Shown, Side};
use regress_display::Stage;

/// An option.
#[derive(Clone, Copy)]
pub struct OptionEntry {
    /// A hyphen and a letter of ASCII.
    pub short: Option<&'static str>,
    /// The name after two hyphens.
    pub long: Option<&'static str>,
    /// What it sets.
    pub sets: Sets,
    /// The commands that have it.
    pub scope: Scope,
    /// Its lines of the help.
    pub line: &'static str,
}

/// What an option sets.
#[derive(Clone, Copy)]
pub enum Sets {
    /// The option has no argument.
    Switch(Switch),
    /// The option has an argument.
    Value(Argument),
}

/// What an option without an argument sets.
#[derive(Clone, Copy)]
pub enum Switch {
    /// The help is written.
    Help,
    /// The version is written.
    Version,
    /// The flag i.
    IgnoreCase,
    /// Patterns are texts.
    Fixed,
    /// Only whole lines match.
    WholeLines,
    /// No word character may be beside a match.
    WholeWords,
    /// A text is one line.
    Multiline,
    /// Files are searched for in directories.
    Recursive,
    /// Each line is written at once.
    LineBuffered,
    /// Lines that are not UTF-8 are searched, as they are without it.
    Binary,
    /// The lines without a match are selected.
    Invert,
    /// When the names of inputs are shown.
    FileNames(FileNames),
    /// Zero bytes are after the names of inputs.
    Null,
    /// Lines are numbered.
    Numbers,
    /// What is shown of the selected lines.
    Shown(Shown),
    /// Objects of JSON are written.
    Json,
    /// The tree to show.
    Stage(Stage),
    /// The small table is used.
    Small,
    /// A pattern is explained by a page.
    Html,
}

/// The argument of an option.
#[derive(Clone, Copy)]
pub struct Argument {
    /// What it sets.
    pub value: Value,
    /// Its name in the help.
    pub name: &'static str,
    /// What it is if the option has none. Without this the argument is required.
    pub default: Option<&'static str>,
    /// What it has to be.
    pub kind: &'static str,
}

/// What an option with an argument sets.
#[derive(Clone, Copy)]
pub enum Value {
    /// A pattern.
    Pattern,
    /// A file that has patterns.
    File,
    /// The flags.
    Flags,
    /// The dialect.
    Dialect,
    /// How many lines of an input are selected at most.
    Count,
    /// How many matches of a line are replaced at most.
    Replacements,
    /// Files are rewritten, with the suffix of their originals.
    InPlace,
    /// The encoding of inputs.
    Encoding,
    /// How many lines around selected ones are shown.
    Context(Side),
    /// When the output is in color.
    Color,
    /// The text of a page.
    Text,
    /// A glob of files to search.
    Include,
    /// A glob of files not to search.
    Exclude,
}

/// The commands that have an option.
#[derive(Clone, Copy)]
pub struct Scope {
    /// `escape` has it.
    pub escaping: bool,
    /// `match` has it.
    pub matching: bool,
    /// `replace` has it.
    pub replacing: bool,
    /// `split` has it.
    pub splitting: bool,
    /// `parse` has it.
    pub parsing: bool,
    /// `draw` has it.
    pub drawing: bool,
    /// `lint` has it.
    pub linting: bool,
    /// `explain` has it.
    pub explaining: bool,
}

impl OptionEntry {
    ghost use Rattle.std.specs.Prelude.{◌≡◌};
    ghost use Rattle.regex_options.specs.Table.{has_argument, has_letter, has_long};

    /// Returns whether the option has this long name.
    pub(crate) fn has_long(&self, name: &str) -> bool
        ensures { result ≡ has_long name.now self.now }
    {
        match self.long {
            Some(long) => long == name,
            None => false,
        }
    }

    /// Returns whether the option has this letter.
    pub(crate) fn has_letter(&self, letter: u8) -> bool
        ensures { result ≡ has_letter letter self.now }
    {
        match self.short {
            Some(short) => match short.as_bytes().get(1) {
                Some(found) => *found == letter,
                None => false,
            },
            None => false,
        }
    }

    /// Returns whether the option has an argument.
    pub(crate) fn has_argument(&self) -> bool
        ensures { result ≡ has_argument self.now }
    {
        match self.sets {
            Sets::Switch(_) => false,
            Sets::Value(_) => true,
        }
    }
}

impl Scope {
    ghost use Rattle.std.specs.Prelude.{◌≡◌};
    ghost use Rattle.regex_options.specs.Table.{has, is_of_match_only};

    /// Returns whether a command has the option.
    pub(crate) fn has(self, command: Command) -> bool
        ensures { result ≡ has self command }
    {
        match command {
            Command::Escape => self.escaping,
            Command::Pattern(Operation::Match) => self.matching,
            Command::Pattern(Operation::Replace) => self.replacing,
            Command::Pattern(Operation::Split) => self.splitting,
            Command::Pattern(Operation::Parse) => self.parsing,
            Command::Pattern(Operation::Draw) => self.drawing,
            Command::Pattern(Operation::Lint) => self.linting,
            Command::Pattern(Operation::Explain) => self.explaining,
        }
    }

    /// Returns whether no command but `match` has the option.
    pub(crate) fn is_of_match_only(self) -> bool
        ensures { result ≡ is_of_match_only self }
    {
        let others = self.escaping
            || self.replacing
            || self.splitting
            || self.parsing
            || self.drawing
            || self.linting
            || self.explaining;
        self.matching && !others
    }
}

const NO_COMMAND: Scope = Scope {
    escaping: false,
    matching: false,
    replacing: false,
    splitting: false,
    parsing: false,
    drawing: false,
    linting: false,
    explaining: false,
};

const OF_ALL: Scope = Scope {
    escaping: true,
    matching: true,
    replacing: true,
    splitting: true,
    parsing: true,
    drawing: true,
    linting: true,
    explaining: true,
};

const OF_PATTERNS: Scope = Scope {
    escaping: false,
    ..OF_ALL
};

const OF_LINES: Scope = Scope {
    matching: true,
    replacing: true,
    splitting: true,
    ..NO_COMMAND
};

const OF_MATCH: Scope = Scope {
    matching: true,
    ..NO_COMMAND
};

const OF_REPLACE: Scope = Scope {
    replacing: true,
    ..NO_COMMAND
};

const OF_MATCH_AND_REPLACE: Scope = Scope {
    matching: true,
    replacing: true,
    ..NO_COMMAND
};

const OF_MATCH_AND_PARSE: Scope = Scope {
    matching: true,
    parsing: true,
    ..NO_COMMAND
};

const OF_TREES: Scope = Scope {
    parsing: true,
    drawing: true,
    ..NO_COMMAND
};

const OF_EXPLAIN: Scope = Scope {
    explaining: true,
    ..NO_COMMAND
};

/// The options, in the order of the help.
pub const OPTIONS: [OptionEntry; 41] = [
    OptionEntry {
        short: Some("-e"),
        long: Some("regexp"),
        sets: Sets::Value(Argument {
            value: Value::Pattern,
            name: "PATTERN",
            default: None,
            kind: "PATTERN",
        }),
        scope: OF_PATTERNS,
        line: "  -e, --regexp PATTERN      a pattern, which may begin with a hyphen; no other\n                            argument is the pattern then. With several -e and -f\n                            match finds what one of the patterns matches\n",
    },
    OptionEntry {
        short: Some("-f"),
        long: Some("file"),
        sets: Sets::Value(Argument {
            value: Value::File,
            name: "FILE",
            default: None,
            kind: "FILE",
        }),
        scope: OF_PATTERNS,
        line: "  -f, --file FILE           each line of FILE is a pattern; no other argument is\n                            the pattern then\n",
    },
    OptionEntry {
        short: Some("-i"),
        long: Some("ignore-case"),
        sets: Sets::Switch(Switch::IgnoreCase),
        scope: OF_PATTERNS,
        line: "  -i, --ignore-case         ignore case, as --flags=i\n",
    },
    OptionEntry {
        short: None,
        long: Some("flags"),
        sets: Sets::Value(Argument {
            value: Value::Flags,
            name: "LETTERS",
            default: None,
            kind: "LETTERS (of imsuv, each at most once; v includes u)",
        }),
        scope: OF_PATTERNS,
        line: "      --flags LETTERS       flags of JavaScript, letters of imsuv, each at most\n                            once; v includes u; none by default\n",
    },
    OptionEntry {
        short: None,
        long: Some("dialect"),
        sets: Sets::Value(Argument {
            value: Value::Dialect,
            name: "NAME",
            default: None,
            kind: "NAME (regress or ecma)",
        }),
        scope: OF_PATTERNS,
        line: "      --dialect NAME        the dialect of PATTERN: ecma, the language of\n                            JavaScript, or regress; ecma by default\n",
    },
    OptionEntry {
        short: Some("-F"),
        long: Some("fixed-strings"),
        sets: Sets::Switch(Switch::Fixed),
        scope: OF_LINES,
        line: "  -F, --fixed-strings       PATTERN is a text, in which no character is special\n",
    },
    OptionEntry {
        short: Some("-w"),
        long: Some("word-regexp"),
        sets: Sets::Switch(Switch::WholeWords),
        scope: OF_LINES,
        line: "  -w, --word-regexp         match only where no word character (\\w) is before or\n                            after\n",
    },
    OptionEntry {
        short: Some("-x"),
        long: Some("line-regexp"),
        sets: Sets::Switch(Switch::WholeLines),
        scope: OF_LINES,
        line: "  -x, --line-regexp         match only whole lines; -w has no effect then\n",
    },
    OptionEntry {
        short: Some("-M"),
        long: Some("whole"),
        sets: Sets::Switch(Switch::Multiline),
        scope: OF_LINES,
        line: "  -M, --whole               search a file as one text, without the line feed at\n                            its end, and not line by line\n",
    },
    OptionEntry {
        short: None,
        long: Some("multiline"),
        sets: Sets::Switch(Switch::Multiline),
        scope: OF_LINES,
        line: "      --multiline           the same as --whole\n",
    },
    OptionEntry {
        short: Some("-r"),
        long: Some("recursive"),
        sets: Sets::Switch(Switch::Recursive),
        scope: OF_LINES,
        line: "  -r, --recursive           search all regular files below a FILE that is a\n                            directory; without FILE those below the current one\n",
    },
    OptionEntry {
        short: None,
        long: Some("include"),
        sets: Sets::Value(Argument {
            value: Value::Include,
            name: "GLOB",
            default: None,
            kind: "GLOB",
        }),
        scope: OF_LINES,
        line: "      --include GLOB        search only files whose name GLOB matches, with *, ?\n                            and [..]; a backslash quotes a character\n",
    },
    OptionEntry {
        short: None,
        long: Some("exclude"),
        sets: Sets::Value(Argument {
            value: Value::Exclude,
            name: "GLOB",
            default: None,
            kind: "GLOB",
        }),
        scope: OF_LINES,
        line: "      --exclude GLOB        search no files whose name GLOB matches; of several\n                            GLOB the last one that matches takes effect\n",
    },
    OptionEntry {
        short: None,
        long: Some("encoding"),
        sets: Sets::Value(Argument {
            value: Value::Encoding,
            name: "ENCODING",
            default: None,
            kind: "ENCODING (utf-8 or bytes)",
        }),
        scope: OF_LINES,
        line: "      --encoding ENCODING   utf-8: a line that is not UTF-8 is an error; bytes,\n                            the default: its bytes that are not match nowhere\n",
    },
    OptionEntry {
        short: Some("-a"),
        long: Some("text"),
        sets: Sets::Switch(Switch::Binary),
        scope: OF_LINES,
        line: "  -a, --text                no effect: lines that are not UTF-8 are searched,\n                            and their bytes that are not match nowhere\n",
    },
    OptionEntry {
        short: None,
        long: Some("line-buffered"),
        sets: Sets::Switch(Switch::LineBuffered),
        scope: OF_LINES,
        line: "      --line-buffered       write each line at once, as on a terminal\n",
    },
    OptionEntry {
        short: Some("-v"),
        long: Some("invert-match"),
        sets: Sets::Switch(Switch::Invert),
        scope: OF_MATCH,
        line: "  -v, --invert-match        select the lines without a match\n",
    },
    OptionEntry {
        short: Some("-m"),
        long: Some("max-count"),
        sets: Sets::Value(Argument {
            value: Value::Count,
            name: "NUM",
            default: None,
            kind: "NUM (a number from 0 to 2^64-1)",
        }),
        scope: OF_MATCH,
        line: "  -m, --max-count NUM       select at most NUM lines of each file, the first\n                            ones\n",
    },
    OptionEntry {
        short: Some("-H"),
        long: Some("with-filename"),
        sets: Sets::Switch(Switch::FileNames(FileNames::Always)),
        scope: OF_MATCH,
        line: "  -H, --with-filename       write the name of the file before each line; by\n                            default if there are several\n",
    },
    OptionEntry {
        short: Some("-I"),
        long: Some("no-filename"),
        sets: Sets::Switch(Switch::FileNames(FileNames::Never)),
        scope: OF_MATCH,
        line: "  -I, --no-filename         write no name of a file before lines\n",
    },
    OptionEntry {
        short: Some("-Z"),
        long: Some("null"),
        sets: Sets::Switch(Switch::Null),
        scope: OF_MATCH,
        line: "  -Z, --null                write a zero byte after the name of a file, instead\n                            of a colon or line feed\n",
    },
    OptionEntry {
        short: Some("-0"),
        long: None,
        sets: Sets::Switch(Switch::Null),
        scope: OF_MATCH,
        line: "  -0                        the same as --null\n",
    },
    OptionEntry {
        short: Some("-n"),
        long: Some("line-number"),
        sets: Sets::Switch(Switch::Numbers),
        scope: OF_MATCH,
        line: "  -n, --line-number         write the number of each line before it\n",
    },
    OptionEntry {
        short: Some("-A"),
        long: Some("after-context"),
        sets: Sets::Value(Argument {
            value: Value::Context(Side::After),
            name: "NUM",
            default: None,
            kind: "NUM (a number from 0 to 2^64-1)",
        }),
        scope: OF_MATCH,
        line: "  -A, --after-context NUM   write the NUM lines after each selected one, and\n                            -- between lines that are not adjacent\n",
    },
    OptionEntry {
        short: Some("-B"),
        long: Some("before-context"),
        sets: Sets::Value(Argument {
            value: Value::Context(Side::Before),
            name: "NUM",
            default: None,
            kind: "NUM (a number from 0 to 2^64-1)",
        }),
        scope: OF_MATCH,
        line: "  -B, --before-context NUM  write the NUM lines before each selected one, and\n                            -- between lines that are not adjacent\n",
    },
    OptionEntry {
        short: Some("-C"),
        long: Some("context"),
        sets: Sets::Value(Argument {
            value: Value::Context(Side::Both),
            name: "NUM",
            default: None,
            kind: "NUM (a number from 0 to 2^64-1)",
        }),
        scope: OF_MATCH,
        line: "  -C, --context NUM         as -A NUM -B NUM; -A or -B take precedence\n",
    },
    OptionEntry {
        short: Some("-o"),
        long: Some("only-matching"),
        sets: Sets::Switch(Switch::Shown(Shown::Matches)),
        scope: OF_MATCH,
        line: "  -o, --only-matching       write each match that is not empty on a line,\n                            instead of the lines\n",
    },
    OptionEntry {
        short: Some("-c"),
        long: Some("count"),
        sets: Sets::Switch(Switch::Shown(Shown::Count)),
        scope: OF_MATCH_AND_REPLACE,
        line: "  -c, --count               write only how many lines are selected; of replace,\n                            how many matches are replaced\n",
    },
    OptionEntry {
        short: None,
        long: Some("max-replacements"),
        sets: Sets::Value(Argument {
            value: Value::Replacements,
            name: "NUM",
            default: None,
            kind: "NUM (a number from 0 to 2^64-1)",
        }),
        scope: OF_REPLACE,
        line: "      --max-replacements NUM  replace at most NUM matches of each line, the\n                            first ones\n",
    },
    OptionEntry {
        short: None,
        long: Some("in-place"),
        sets: Sets::Value(Argument {
            value: Value::InPlace,
            name: "SUFFIX",
            default: Some(""),
            kind: "SUFFIX",
        }),
        scope: OF_REPLACE,
        line: "      --in-place[=SUFFIX]   rewrite each FILE; with SUFFIX the original is kept\n                            under its name with SUFFIX after it\n",
    },
    OptionEntry {
        short: Some("-l"),
        long: Some("files-with-matches"),
        sets: Sets::Switch(Switch::Shown(Shown::Names)),
        scope: OF_MATCH,
        line: "  -l, --files-with-matches  write only the names of the files in which a line is\n                            selected\n",
    },
    OptionEntry {
        short: Some("-q"),
        long: Some("quiet"),
        sets: Sets::Switch(Switch::Shown(Shown::Nothing)),
        scope: OF_MATCH,
        line: "  -q, --quiet               write nothing, and end at the first selected line\n",
    },
    OptionEntry {
        short: None,
        long: Some("color"),
        sets: Sets::Value(Argument {
            value: Value::Color,
            name: "WHEN",
            default: Some("auto"),
            kind: "WHEN (always, never or auto)",
        }),
        scope: OF_MATCH,
        line: "      --color[=WHEN]        in color, by GREP_COLORS: always, never, or auto, if\n                            the output is a terminal; auto by default\n",
    },
    OptionEntry {
        short: None,
        long: Some("json"),
        sets: Sets::Switch(Switch::Json),
        scope: OF_MATCH_AND_PARSE,
        line: "      --json                write an object of JSON on a line for each match, or\n                            one of the tree, which is the parsed one without\n                            --optimized\n",
    },
    OptionEntry {
        short: None,
        long: Some("parsed"),
        sets: Sets::Switch(Switch::Stage(Stage::Parsed)),
        scope: OF_TREES,
        line: "      --parsed              the parsed tree only\n",
    },
    OptionEntry {
        short: None,
        long: Some("optimized"),
        sets: Sets::Switch(Switch::Stage(Stage::Optimized)),
        scope: OF_TREES,
        line: "      --optimized           the optimized tree only\n",
    },
    OptionEntry {
        short: None,
        long: Some("small"),
        sets: Sets::Switch(Switch::Small),
        scope: OF_TREES,
        line: "      --small               with the small table: ASCII and a few more\n                            characters\n",
    },
    OptionEntry {
        short: None,
        long: Some("html"),
        sets: Sets::Switch(Switch::Html),
        scope: OF_EXPLAIN,
        line: "      --html                an HTML page that needs no other file, with a\n                            railroad diagram\n",
    },
    OptionEntry {
        short: None,
        long: Some("on"),
        sets: Sets::Value(Argument {
            value: Value::Text,
            name: "TEXT",
            default: None,
            kind: "TEXT",
        }),
        scope: OF_EXPLAIN,
        line: "      --on TEXT             with --html: the page has TEXT, with its matches\n                            marked\n",
    },
    OptionEntry {
        short: Some("-h"),
        long: Some("help"),
        sets: Sets::Switch(Switch::Help),
        scope: OF_ALL,
        line: "  -h, --help                this help\n",
    },
    OptionEntry {
        short: Some("-V"),
        long: Some("version"),
        sets: Sets::Switch(Switch::Version),
        scope: OF_ALL,
        line: "  -V, --version             the version\n",
    },
];
