//! What to do with each line.

use crate::colors::Colors;

/// A task for the lines of a text.
#[derive(Clone, Copy)]
pub enum Task<'a> {
    /// Show the lines that match, or what the options select, in these colors if there are any.
    Match(Selection, Option<&'a Colors<'a>>),
    /// Replace matches.
    Replace(Replacement<'a>),
}

/// How an input is read.
#[derive(Clone, Copy)]
pub struct InputForm {
    /// Whether it is searched as one text, and not line by line.
    pub multiline: bool,
    /// What its lines are.
    pub encoding: Encoding,
}

/// What lines are.
#[derive(Clone, Copy)]
pub enum Encoding {
    /// Bytes: in a line that is not UTF-8 those that are not match nowhere.
    Bytes,
    /// UTF-8: another line is an error.
    Utf8,
}

/// How matches are replaced.
#[derive(Clone, Copy)]
pub struct Replacement<'a> {
    /// The template of which the expansion replaces a match.
    pub template: &'a str,
    /// How many matches of a line are replaced at most, the first ones: all by default.
    pub limit: Option<u64>,
    /// Whether how many matches are replaced is shown, and not the lines.
    pub counts: bool,
    /// If files are rewritten, the suffix with which the original of each is kept: none is if it is empty.
    pub in_place: Option<&'a str>,
}

/// Which lines are selected, and what is shown of them.
#[derive(Clone, Copy)]
pub struct Selection {
    /// Whether the lines without a match are selected.
    pub invert: bool,
    /// Whether the name of an input is shown in front of each line.
    pub file_names: FileNames,
    /// Whether a zero byte is after the name of an input, in place of a colon or a line feed.
    pub null: bool,
    /// Whether the number of a line is shown.
    pub numbers: bool,
    /// What is shown.
    pub shown: Shown,
    /// How many lines of an input are selected at most.
    pub max_count: Option<u64>,
    /// Which other lines are shown: none by default.
    pub context: Option<Context>,
}

/// How many lines around selected ones are shown. There is a separator between lines that are not adjacent.
#[derive(Clone, Copy)]
pub struct Context {
    /// The number of lines before a selected one.
    pub before: u64,
    /// The number of lines after a selected one.
    pub after: u64,
}

/// The lines around a selected one.
#[derive(Clone, Copy)]
pub enum Side {
    /// Those before it.
    Before,
    /// Those after it.
    After,
    /// Both.
    Both,
}

/// When the names of inputs are shown in front of lines.
#[derive(Clone, Copy)]
pub enum FileNames {
    /// If there are several files.
    IfSeveral,
    /// Always.
    Always,
    /// Never.
    Never,
}

/// What is shown of the selected lines.
#[derive(Clone, Copy)]
pub enum Shown {
    /// The lines.
    Lines,
    /// Each match that is not empty, on a line of its own.
    Matches,
    /// An object of JSON for each match, on a line of its own.
    Json,
    /// Only how many there are.
    Count,
    /// Only the name of the input, if there is one.
    Names,
    /// Nothing: the search ends at the first one.
    Nothing,
}
