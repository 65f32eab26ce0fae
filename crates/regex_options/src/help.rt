//! The help.
ghost use Rattle.std.specs.Prelude.{◌≡◌, ◌++◌, IfOk, OnOk, string_bytes};
ghost use Rattle.regex_options.specs.Table.{command_help, option_lines, program_help, summaries, topic_text};

use crate::command::{Command, CommandEntry};
use crate::table::OptionEntry;
use std::alloc::{AllocError, Global};

/// What the program writes about itself.
#[derive(Clone, Copy)]
pub enum Topic<'a> {
    /// The help of the program, with these commands.
    Program(&'a [CommandEntry]),
    /// The help of a command, which has some of these options.
    Command(CommandEntry, &'a [OptionEntry]),
    /// The version.
    Version,
}

/// Returns what is written about a topic.
///
/// # Errors
/// Returns an error if an allocation fails.
pub fn topic_text(alloc: Global, topic: Topic<'_>) -> Result<String, AllocError>
    ensures { IfOk result (λ text. string_bytes text ≡ topic_text topic.entry) }
{
    match topic {
        Topic::Program(commands) => program_help(alloc, commands),
        Topic::Command(entry, options) => command_help(alloc, entry, options),
        Topic::Version => String::from_str(alloc, VERSION),
    }
}

/// Returns the help of the program: usage, a summary of each of these commands, and how to get more help.
fn program_help(alloc: Global, commands: &[CommandEntry]) -> Result<String, AllocError>
    ensures { IfOk result (λ text. string_bytes text ≡ program_help commands.now) }
{
    let mut text = String::from_str(alloc, HELP_BEFORE)?;
    add_summaries(commands, &mut text)?;
    text.push_str(HELP_AFTER)?;
    Ok(text)
}

/// Adds the summaries of commands.
fn add_summaries(commands: &[CommandEntry], to: &mut String) -> Result<(), AllocError>
    ensures { OnOk result (string_bytes to.new ≡ string_bytes to.old ++ summaries commands.now) }
{
    for entry in commands {
        to.push_str(entry.summary)?;
    }
    Ok(())
}

/// Returns the help of a command: usage, a line for each option that it has, exit statuses, and examples.
fn command_help(
    alloc: Global,
    entry: CommandEntry,
    options: &[OptionEntry],
) -> Result<String, AllocError>
    ensures { IfOk result (λ text. string_bytes text ≡ command_help entry options.now) }
{
    let mut text = String::from_str(alloc, entry.usage)?;
    add_options(entry.command, options, &mut text)?;
    text.push_str(OPTIONS_END)?;
    text.push_str(entry.examples)?;
    Ok(text)
}

/// Adds the lines of the options that a command has.
fn add_options(command: Command, options: &[OptionEntry], to: &mut String) -> Result<(), AllocError>
    ensures { OnOk result (string_bytes to.new ≡ string_bytes to.old ++ option_lines command options.now) }
{
    for option in options {
        if option.scope.has(command) {
            to.push_str(option.line)?;
        }
    }
    Ok(())
}

/// The version, on a line.
pub const VERSION: &str = "regex 0.1.0\n";

/// The line of the help after the options.
pub const OPTIONS_END: &str = "  --                        end of the options\n";

/// The help of the program up to the commands.
pub const HELP_BEFORE: &str = "\
usage: regex COMMAND [OPTION..] ARGUMENT..

Searches for PATTERN, a regular expression in ECMAScript syntax, over all of
Unicode, in the lines of files or of standard input, and explains patterns.

";

/// The help of the program after the commands.
pub const HELP_AFTER: &str = "\n\
regex COMMAND --help, or regex help COMMAND, writes the options of a command.
  -h, --help                this help
  -V, --version             the version

exit status:
  0  a line is selected, or the output of another command is written, or lint
     reports nothing
  1  no line is selected, or lint reports something
  2  PATTERN is rejected, or another error; its message is on standard error

examples:
  regex match -n '\\d+' notes.txt
  regex replace '(\\w+) (\\w+)' '$2, $1' names.txt
";
