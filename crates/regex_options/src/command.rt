//! The commands.
ghost use Rattle.std.specs.Prelude.{◌≡◌, find};
ghost use Rattle.regex_options.specs.Table.{is_named};

/// A command.
#[derive(Clone, Copy)]
pub enum Command {
    /// Escapes a text.
    Escape,
    /// Does something with a pattern.
    Pattern(Operation),
}

/// What a command does with a pattern.
#[derive(Clone, Copy)]
pub enum Operation {
    /// Shows lines by whether they match.
    Match,
    /// Replaces matches.
    Replace,
    /// Splits lines at matches.
    Split,
    /// Shows a tree.
    Parse,
    /// Draws a tree.
    Draw,
    /// Reports where a pattern may match otherwise than in ECMA-262, and what in it may be a mistake.
    Lint,
    /// Explains a pattern.
    Explain,
}

/// A command with its name and its help.
#[derive(Clone, Copy)]
pub struct CommandEntry {
    /// The command.
    pub command: Command,
    /// Its name.
    pub name: &'static str,
    /// Its lines in the help of the program.
    pub summary: &'static str,
    /// Its help up to the options.
    pub usage: &'static str,
    /// Its help after the options.
    pub examples: &'static str,
}

/// Returns the command with this name.
pub(crate) fn find_command(commands: &[CommandEntry], name: &str) -> Option<CommandEntry>
    ensures { result ≡ find (is_named name.now) commands.now }
{
    for entry in commands {
        if entry.name == name {
            return Some(*entry);
        }
    }
    None
}

/// The commands, in the order of the help.
pub const COMMANDS: [CommandEntry; 8] = [
    CommandEntry {
        command: Command::Pattern(Operation::Match),
        name: "match",
        summary: "  match    writes the lines with a match\n",
        usage: "\
usage: regex match [OPTION..] PATTERN [FILE..]

Writes the lines of the files, or of standard input, in which PATTERN matches.
A FILE - is standard input.

",
        examples: "\
\n\
exit status: 0 if a line is selected, 1 if none is, 2 after an error

examples:
  regex match -n '\\d+' notes.txt
  regex match --json '(?<year>\\d{4})-(\\d\\d)' notes.txt
",
    },
    CommandEntry {
        command: Command::Pattern(Operation::Replace),
        name: "replace",
        summary: "  replace  writes the lines with each match replaced by TEMPLATE\n",
        usage: "\
usage: regex replace [OPTION..] PATTERN TEMPLATE [FILE..]

Writes the lines of the files, or of standard input, with each match of PATTERN
replaced by TEMPLATE, in which $& is the match, $1 a group, $<name> a group with
a name, and $$ a dollar sign. A FILE - is standard input.

",
        examples: "\
\n\
exit status: 0, or 2 after an error

examples:
  regex replace '(\\w+) (\\w+)' '$2, $1' names.txt
  regex replace -M '\\n+' ' ' notes.txt
",
    },
    CommandEntry {
        command: Command::Pattern(Operation::Split),
        name: "split",
        summary: "  split    writes each piece of a line between matches on a line\n",
        usage: "\
usage: regex split [OPTION..] PATTERN [FILE..]

Writes each piece between the matches of PATTERN, in the lines of the files, or
of standard input, on a line. A FILE - is standard input.

",
        examples: "\
\n\
exit status: 0, or 2 after an error

examples:
  regex split ', *' names.csv
  regex split -i '<br>' page.html
",
    },
    CommandEntry {
        command: Command::Escape,
        name: "escape",
        summary: "  escape   writes a pattern that matches a text\n",
        usage: "\
usage: regex escape [OPTION..] TEXT

Writes a pattern that matches TEXT and nothing else.

",
        examples: "\
\n\
exit status: 0, or 2 after an error

examples:
  regex escape '1+1=2'
  regex escape -- --help
",
    },
    CommandEntry {
        command: Command::Pattern(Operation::Parse),
        name: "parse",
        summary: "  parse    writes the parsed tree of PATTERN and the optimized one\n",
        usage: "\
usage: regex parse [OPTION..] PATTERN

Writes the parsed tree of PATTERN, a line --, and the optimized tree.

",
        examples: "\
\n\
exit status: 0, or 2 if PATTERN is rejected or after another error

examples:
  regex parse '(?:ab)+'
  regex parse --json --flags=u '[a-f]+'
",
    },
    CommandEntry {
        command: Command::Pattern(Operation::Draw),
        name: "draw",
        summary: "  draw     writes a railroad diagram of PATTERN as an SVG picture\n",
        usage: "\
usage: regex draw [OPTION..] PATTERN

Writes a railroad diagram of PATTERN as an SVG picture.

",
        examples: "\
\n\
exit status: 0, or 2 if PATTERN is rejected or after another error

examples:
  regex draw '\\d{4}-\\d\\d' >date.svg
  regex draw --optimized 'abc|abd' >words.svg
",
    },
    CommandEntry {
        command: Command::Pattern(Operation::Explain),
        name: "explain",
        summary: "  explain  writes what the parts of PATTERN match, in words\n",
        usage: "\
usage: regex explain [OPTION..] PATTERN

Writes for each part of PATTERN its span and, in words, what it matches.

",
        examples: "\
\n\
exit status: 0, or 2 if PATTERN is rejected or after another error

examples:
  regex explain '\\d{4}-\\d\\d'
  regex explain --html --on 'in 2024-05' '\\d{4}-\\d\\d' >date.html
",
    },
    CommandEntry {
        command: Command::Pattern(Operation::Lint),
        name: "lint",
        summary: "  lint     reports what in PATTERN may be a mistake\n",
        usage: "\
usage: regex lint [OPTION..] PATTERN

Writes what in PATTERN may be a mistake, and why. With --dialect=regress it
writes before that where PATTERN may match otherwise than in ECMA-262.

",
        examples: "\
\n\
exit status: 0 if nothing is reported, 1 if something is, or 2 if PATTERN is
rejected or after another error

examples:
  regex lint 'foo$bar'
  regex lint 'a|ab'
",
    },
];
