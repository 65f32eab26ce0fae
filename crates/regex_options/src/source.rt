//! Where patterns are, and how they are read.

/// A pattern, or the file that has patterns.
#[derive(Clone, Copy)]
pub enum PatternSource<'a> {
    /// This pattern.
    Text(&'a str),
    /// The file with this name has one on each line.
    File(&'a str),
}

/// Where the patterns of a request are.
#[derive(Clone, Copy)]
pub enum Patterns<'a> {
    /// The only pattern is this operand.
    Operand(&'a str),
    /// The patterns are those of options, in order.
    Options(&'a [PatternSource<'a>]),
}

/// How patterns are read, and what a match has to be.
#[derive(Clone, Copy)]
pub struct PatternForm {
    /// Whether patterns are texts, in which no character is special.
    pub fixed: bool,
    /// Whether only whole lines match.
    pub lines: bool,
    /// Whether no word character may be beside a match.
    pub words: bool,
}
