//! The arguments of the program `regex`: tables of its commands and its options, by which arguments are parsed and the
//! help is written.
#![tactic(auto)]

mod assignment;
mod colors;
mod command;
mod environment;
mod error;
mod files;
mod given;
mod help;
mod reading;
mod request;
mod source;
mod switches;
mod table;
mod task;
mod values;

pub use colors::{Colors, parse_colors};
pub use command::{COMMANDS, Command, CommandEntry, Operation};
pub use environment::{allows_color, color_setting};
pub use error::{ParseError, UsageError, write_usage_error};
pub use files::{FileList, NameGlob};
pub use help::{HELP_AFTER, HELP_BEFORE, OPTIONS_END, Topic, VERSION, topic_text};
pub use request::{
    Action, Arguments, Asked, CommandLine, Form, Output, Parsed, Request, Search, View, interpret,
    parse_arguments,
};
pub use source::{PatternForm, PatternSource, Patterns};
pub use table::{Argument, OPTIONS, OptionEntry, Scope, Sets, Switch, Value};
pub use task::{
    Context, Encoding, FileNames, InputForm, Replacement, Selection, Shown, Side, Task,
};
