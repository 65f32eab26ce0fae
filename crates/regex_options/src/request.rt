//! What the arguments ask for.
ghost use Rattle.std.specs.Prelude.{◌≡◌, map, option_map, string_bytes};
ghost use Rattle.regex_options.specs.Colors.{plain_colors};
ghost use Rattle.regex_options.specs.Given.{given_by};
ghost use Rattle.regex_options.specs.Plain.{IsParsed, file_list, job, name_glob, source, plain_result, usage_error};
ghost use Rattle.regex_options.specs.Reading.{words_of};
ghost use Rattle.regex_options.specs.Request.{action, action_of, after_patterns, alone, ask, asked_form, colors_in, conflict, context_by, context_of, escape_of, excludes_json, files_of, form_of, has_context, help_of, interpreted, is_lines, line_interpreted, line_of, no_more, paints, parsed_as, parsed_by, printed_format, replace_of, request_of, screen, search, selection_of, stage_of, taken_patterns, topic_of, unknown, view_in};
ghost use Rattle.regex_options.specs.Table.{topic_text};

use crate::colors::Colors;
use crate::command::{Command, CommandEntry, Operation, find_command};
use crate::error::{ParseError, UsageError};
use crate::files::{FileList, NameGlob};
use crate::given::{Around, Color, Given, Options};
use crate::help::Topic;
use crate::reading::{Reading, Words, read_options};
use crate::source::{PatternForm, PatternSource, Patterns};
use crate::table::OptionEntry;
use crate::task::{Context, InputForm, Replacement, Selection, Shown, Task};
use regress_base::types::Flags;
use regress_display::{Format, Stage};
use regress_lexer::Dialect;
use std::alloc::Global;

/// What the arguments ask for.
#[derive(Clone, Copy)]
pub enum Asked<'a> {
    /// Write about this topic.
    Help(Topic<'a>),
    /// Write this text, escaped.
    Escape(&'a str),
    /// Do something with a pattern.
    Apply(Request<'a>),
}

/// Patterns, their flags, and what to do with them.
#[derive(Clone, Copy)]
pub struct Request<'a> {
    /// The patterns.
    pub patterns: Patterns<'a>,
    /// Their flags.
    pub flags: Flags,
    /// Their dialect.
    pub dialect: Dialect,
    /// How they are read, and what a match has to be.
    pub form: PatternForm,
    /// What to do with them.
    pub action: Action<'a>,
}

/// What to do with a pattern.
#[derive(Clone, Copy)]
pub enum Action<'a> {
    /// Search for it.
    Search(Search<'a>),
    /// Show its tree.
    Show(View),
    /// Report where it may match otherwise than in ECMA-262, and what in it may be a mistake.
    Lint,
    /// Explain it in words.
    Explain(Form<'a>),
}

/// How a pattern is explained.
#[derive(Clone, Copy)]
pub enum Form<'a> {
    /// As lines of text.
    Lines,
    /// As a page, with the matches in a text if one is given.
    Page(Option<&'a str>),
}

/// A task for the lines of files, or of standard input if there are none.
#[derive(Clone, Copy)]
pub struct Search<'a> {
    /// What is done with each line.
    pub task: Task<'a>,
    /// How an input is read.
    pub form: InputForm,
    /// Whether each line is written at once, and not with those after it.
    pub at_once: bool,
    /// The files.
    pub files: FileList<'a>,
}

/// How a tree is shown.
#[derive(Clone, Copy)]
pub struct View {
    /// The format.
    pub format: Format,
    /// The tree.
    pub stage: Stage,
    /// Whether to use the small table instead of that of all of Unicode.
    pub small: bool,
}

/// The arguments of the program.
#[derive(Clone, Copy)]
pub struct Arguments<'a> {
    /// The table of commands.
    pub commands: &'a [CommandEntry],
    /// The table of options.
    pub options: &'a [OptionEntry],
    /// The arguments, without the program's own name.
    pub words: &'a [String],
    /// The output.
    pub output: Output<'a>,
}

/// What is known of the output.
#[derive(Clone, Copy)]
pub struct Output<'a> {
    /// Whether it is a terminal with colors, where it is in color by default.
    pub terminal: bool,
    /// Its colors.
    pub colors: &'a Colors<'a>,
    /// Whether it is a terminal, where each line is written at once.
    pub at_once: bool,
}

/// The arguments, parsed one by one.
#[derive(Drop)]
pub enum Parsed<'a> {
    /// They ask for what is written about this topic.
    Topic(Topic<'a>),
    /// They are those of a command.
    Line(CommandLine<'a>),
}

/// A command and its arguments.
#[derive(Drop)]
pub struct CommandLine<'a> {
    pub(crate) entry: CommandEntry,
    pub(crate) words: Words<'a>,
}

/// Parses the arguments of the program one by one.
///
/// # Errors
/// Returns the first error of an argument by itself in their order, or [`ParseError::Memory`] if an allocation fails.
pub fn parse_arguments<'a>(
    alloc: Global,
    arguments: Arguments<'a>,
) -> Result<Parsed<'a>, ParseError<'a>>
    ensures { IsParsed parsed_as result (parsed_by arguments.entry) }
{
    let [first, rest @ ..] = arguments.words else {
        return Err(ParseError::Usage(UsageError::Missing("COMMAND")));
    };
    let word = first.as_str();
    match find_command(arguments.commands, word) {
        Some(entry) => parse_line(alloc, arguments.options, entry, rest),
        None => Ok(Parsed::Topic(topic_of(arguments, word, rest)?)),
    }
}

/// Parses the arguments of a command.
fn parse_line<'a>(
    alloc: Global,
    options: &[OptionEntry],
    entry: CommandEntry,
    args: &'a [String],
) -> Result<Parsed<'a>, ParseError<'a>>
    ensures { IsParsed parsed_as result (line_of options.now entry args.now) }
{
    match read_options(alloc, options, entry.command, args) {
        Ok(words) => Ok(Parsed::Line(CommandLine { entry, words })),
        Err(error) => Err(error),
    }
}

/// Returns the topic that a word which is no command asks for with its arguments.
fn topic_of<'a>(
    arguments: Arguments<'a>,
    word: &'a str,
    args: &'a [String],
) -> Result<Topic<'a>, UsageError<'a>>
    ensures { plain_result topic_text result ≡ topic_of arguments.entry.commands.now arguments.entry.options.now word.now args.now }
{
    match word {
        "help" => help_of(arguments, args),
        "--help" | "-h" => {
            no_more(args)?;
            Ok(Topic::Program(arguments.commands))
        }
        "--version" | "-V" => {
            no_more(args)?;
            Ok(Topic::Version)
        }
        _ => Err(unknown(word)),
    }
}

/// Returns the topic of `help`: the program, or the command with this name.
fn help_of<'a>(arguments: Arguments<'a>, args: &'a [String]) -> Result<Topic<'a>, UsageError<'a>>
    ensures { plain_result topic_text result ≡ help_of arguments.entry.commands.now arguments.entry.options.now args.now }
{
    match args {
        [] => Ok(Topic::Program(arguments.commands)),
        [name] => match find_command(arguments.commands, name.as_str()) {
            Some(entry) => Ok(Topic::Command(entry, arguments.options)),
            None => Err(UsageError::UnknownCommand(name.as_str())),
        },
        [_, more, ..] => Err(UsageError::Unexpected(more.as_str())),
    }
}

fn unknown(word: &str) -> UsageError<'_>
    ensures { usage_error result ≡ unknown word.now }
{
    if word.starts_with('-') {
        UsageError::UnknownOption(word)
    } else {
        UsageError::UnknownCommand(word)
    }
}

/// Returns an error if there is an argument.
fn no_more(args: &[String]) -> Result<(), UsageError<'_>>
    ensures { plain_result (λ _. tt) result ≡ no_more (map string_bytes args.now) }
{
    match args {
        [] => Ok(()),
        [more, ..] => Err(UsageError::Unexpected(more.as_str())),
    }
}

/// Returns what parsed arguments ask for.
///
/// # Errors
/// Returns why the arguments are invalid: an option that the command lacks; otherwise which options exclude or need
/// others, or which operand is missing, or one too many.
pub fn interpret<'p, 'a: 'p>(
    arguments: Arguments<'p>,
    parsed: &'p Parsed<'a>,
) -> Result<Asked<'p>, UsageError<'p>>
    ensures { plain_result ask result ≡ interpreted arguments.entry.options.now (screen arguments.entry.output) (parsed_as parsed.now) }
{
    match parsed {
        Parsed::Topic(topic) => Ok(Asked::Help(*topic)),
        Parsed::Line(line) => interpret_line(arguments, line),
    }
}

/// Returns what a command with its options and operands asks for.
fn interpret_line<'p, 'a: 'p>(
    arguments: Arguments<'p>,
    line: &'p CommandLine<'a>,
) -> Result<Asked<'p>, UsageError<'p>>
    ensures { plain_result ask result ≡ line_interpreted arguments.entry.options.now (screen arguments.entry.output)
        line.now.entry (words_of line.now.words) }
{
    let words = &line.words;
    let Reading { given, denied, .. } = words.reading;
    if given.options.help {
        return Ok(Asked::Help(Topic::Command(line.entry, arguments.options)));
    }
    if given.options.version {
        return Ok(Asked::Help(Topic::Version));
    }
    if let Some(error) = denied {
        return Err(error);
    }
    if let Some(error) = conflict(given) {
        return Err(error);
    }
    match line.entry.command {
        Command::Escape => read_escape(&words.operands),
        Command::Pattern(operation) => read_request(operation, words, arguments.output),
    }
}

fn read_escape(args: &[String]) -> Result<Asked<'_>, UsageError<'_>>
    ensures { plain_result ask result ≡ escape_of (map string_bytes args.now) }
{
    match args {
        [] => Err(UsageError::Missing("TEXT")),
        [text] => Ok(Asked::Escape(text.as_str())),
        [_, more, ..] => Err(UsageError::Unexpected(more.as_str())),
    }
}

/// Returns why options exclude each other, or one lacks another, if they do.
fn conflict(given: Given<'_>) -> Option<UsageError<'_>>
    ensures { option_map usage_error result ≡ conflict (given_by given.entry) }
{
    if given.options.json && excludes_json(given.options) {
        Some(UsageError::ExcludedByJson)
    } else if given.text.is_some() && !given.options.html {
        Some(UsageError::TextWithoutPage)
    } else {
        None
    }
}

/// Returns whether options are given that `--json` excludes.
fn excludes_json(options: Options) -> bool
    ensures { result ≡ excludes_json options }
{
    !is_lines(options.selection.shown) || context_by(options.around).is_some()
}

fn is_lines(shown: Shown) -> bool
    ensures { result ≡ is_lines shown }
{
    matches!(shown, Shown::Lines)
}

/// Parses the patterns, and what follows them.
fn read_request<'p, 'a: 'p>(
    operation: Operation,
    words: &'p Words<'a>,
    output: Output<'p>,
) -> Result<Asked<'p>, UsageError<'p>>
    ensures { plain_result ask result ≡ request_of (screen output.entry) operation (words_of words.now) }
{
    let given = words.reading.given;
    let Some((patterns, rest)) = take_patterns(&words.patterns, &words.operands) else {
        return Err(UsageError::Missing("PATTERN"));
    };
    Ok(Asked::Apply(Request {
        patterns,
        flags: given.options.flags,
        dialect: given.options.dialect,
        form: given.options.form,
        action: read_action(operation, given, files_of(words, rest), output)?,
    }))
}

/// Returns the patterns, and the operands after them: without an option that has one it is the first operand.
fn take_patterns<'p, 'a: 'p>(
    given: &'p [PatternSource<'a>],
    args: &'p [String],
) -> Option<(Patterns<'p>, &'p [String])>
    ensures { option_map after_patterns result ≡ taken_patterns (map source given.now) (map string_bytes args.now) }
{
    match (given, args) {
        ([_, ..], _) => Some((Patterns::Options(given), args)),
        ([], [pattern, rest @ ..]) => Some((Patterns::Operand(pattern.as_str()), rest)),
        ([], []) => None,
    }
}

/// Returns the files with these names, and which ones are searched.
fn files_of<'p, 'a: 'p>(words: &'p Words<'a>, names: &'p [String]) -> FileList<'p>
    ensures { file_list result ≡ files_of (words_of words.now) (map string_bytes names.now) }
{
    FileList {
        names,
        recursive: words.reading.given.options.recursive,
        globs: &words.globs,
    }
}

/// Parses what follows the pattern.
fn read_action<'a>(
    operation: Operation,
    given: Given<'a>,
    rest: FileList<'a>,
    output: Output<'a>,
) -> Result<Action<'a>, UsageError<'a>>
    ensures { plain_result action result ≡ action_of (screen output.entry) operation (given_by given.entry) (file_list rest.entry) }
{
    let options = given.options;
    let args = rest.names;
    let form = LineForm {
        input: options.input,
        at_once: options.line_buffered || output.at_once,
    };
    match operation {
        Operation::Match => Ok(search_for(
            form,
            Task::Match(selection_of(options), colors_in(options.color, output)),
            rest,
        )),
        Operation::Replace => replace_of(form, given, rest),
        Operation::Split => Ok(search_for(form, Task::Replace(FEEDS), rest)),
        Operation::Parse => alone(
            Action::Show(view_in(options, printed_format(options.json))),
            args,
        ),
        Operation::Draw => alone(Action::Show(view_in(options, Format::Svg)), args),
        Operation::Lint => alone(Action::Lint, args),
        Operation::Explain => alone(Action::Explain(form_of(given)), args),
    }
}

/// How `split` replaces matches.
const FEEDS: Replacement<'static> = Replacement {
    template: "\n",
    limit: None,
    counts: false,
    in_place: None,
};

/// Parses a template, and the files after it.
fn replace_of<'a>(
    form: LineForm,
    given: Given<'a>,
    rest: FileList<'a>,
) -> Result<Action<'a>, UsageError<'a>>
    requires { form.input ≡ given.options.input }
    ensures { plain_result action result ≡ replace_of (given_by given.entry) (file_list rest.entry) }
{
    match rest.names {
        [template, names @ ..] => {
            let files = FileList { names, ..rest };
            let replacement = Replacement {
                template: template.as_str(),
                limit: given.options.max_replacements,
                counts: matches!(given.options.selection.shown, Shown::Count),
                in_place: given.in_place,
            };
            Ok(search_for(form, Task::Replace(replacement), files))
        }
        [] => Err(UsageError::Missing("TEMPLATE")),
    }
}

/// Returns an action, if there is no argument more.
fn alone<'a>(asked: Action<'a>, args: &'a [String]) -> Result<Action<'a>, UsageError<'a>>
    ensures { plain_result action result ≡ alone (action asked.entry) (map string_bytes args.now) }
{
    no_more(args)?;
    Ok(asked)
}

/// Returns how to explain a pattern.
fn form_of(given: Given<'_>) -> Form<'_>
    ensures { asked_form result ≡ form_of (given_by given.entry) }
{
    if given.options.html {
        Form::Page(given.text)
    } else {
        Form::Lines
    }
}

/// Returns what to show of which lines.
fn selection_of(options: Options) -> Selection
    ensures { result ≡ selection_of options }
{
    let selection = Selection {
        context: context_of(options),
        ..options.selection
    };
    if options.json {
        Selection {
            shown: Shown::Json,
            ..selection
        }
    } else {
        selection
    }
}

/// Returns how many lines around selected ones are shown, where lines or matches are.
fn context_of(options: Options) -> Option<Context>
    ensures { result ≡ context_of options }
{
    if has_context(options.selection.shown) {
        context_by(options.around)
    } else {
        None
    }
}

fn has_context(shown: Shown) -> bool
    ensures { result ≡ has_context shown }
{
    match shown {
        Shown::Lines | Shown::Matches => true,
        Shown::Json | Shown::Count | Shown::Names | Shown::Nothing => false,
    }
}

/// Returns how many lines around selected ones are shown, if an option says so.
fn context_by(around: Around) -> Option<Context>
    ensures { result ≡ context_by around }
{
    let Around {
        before,
        after,
        both,
    } = around;
    if before.is_none() && after.is_none() && both.is_none() {
        return None;
    }
    let both = both.unwrap_or(0);
    Some(Context {
        before: before.unwrap_or(both),
        after: after.unwrap_or(both),
    })
}

/// Returns the colors, if the output is in color.
fn colors_in<'a>(color: Option<Color>, output: Output<'a>) -> Option<&'a Colors<'a>>
    ensures { option_map (λ colors. plain_colors colors.now) result ≡ colors_in (screen output.entry) color }
{
    if paints(color, output.terminal) {
        Some(output.colors)
    } else {
        None
    }
}

/// Returns whether the output is in color.
fn paints(color: Option<Color>, terminal: bool) -> bool
    ensures { result ≡ paints terminal color }
{
    match color {
        Some(Color::Always) => true,
        Some(Color::Never) => false,
        Some(Color::Auto) | None => terminal,
    }
}

/// How lines are read and written.
#[derive(Clone, Copy)]
struct LineForm {
    input: InputForm,
    at_once: bool,
}

fn search_for<'a>(form: LineForm, task: Task<'a>, files: FileList<'a>) -> Action<'a>
    ensures { action result ≡ search (job task.entry) form.input (file_list files.entry) }
{
    Action::Search(Search {
        task,
        form: form.input,
        at_once: form.at_once,
        files,
    })
}

fn view_in(options: Options, format: Format) -> View
    ensures { result ≡ view_in options format }
{
    View {
        format,
        stage: stage_of(options.stage, format),
        small: options.small,
    }
}

/// Returns the format of a printed tree.
fn printed_format(json: bool) -> Format
    ensures { result ≡ printed_format json }
{
    if json { Format::Json } else { Format::Text }
}

/// Returns the requested tree. JSON and a picture show one tree only.
fn stage_of(stage: Option<Stage>, format: Format) -> Stage
    ensures { result ≡ stage_of stage format }
{
    match (stage, format) {
        (Some(stage), _) => stage,
        (None, Format::Text) => Stage::Both,
        (None, Format::Json | Format::Svg) => Stage::Parsed,
    }
}
