//! What to show of a pattern.
ghost use Rattle.std.specs.Prelude.{◌≡◌};
ghost use Rattle.regress_display.specs.Shown.{shows_spans};

use regress_base::types::Flags;
use regress_parse::Dialect;

/// A pattern, its flags, and what to show of it.
#[derive(Clone, Copy)]
pub struct Request<'a> {
    /// The pattern.
    pub pattern: &'a str,
    /// The flags of the pattern.
    pub flags: Flags,
    /// The dialect of the pattern.
    pub dialect: Dialect,
    /// The format of the output.
    pub format: Format,
    /// The tree to show.
    pub stage: Stage,
    /// Whether to use the small table instead of that of all of Unicode.
    pub small: bool,
}

impl Request<'_> {
    /// Returns whether the output contains the spans of nodes. The text format has none, and those of an optimized tree
    /// are not known.
    pub(crate) fn reports_spans(&self) -> bool
        ensures { result ≡ shows_spans self.now.format self.now.stage }
    {
        match (self.format, self.stage) {
            (Format::Text, _) | (_, Stage::Optimized) => false,
            _ => true,
        }
    }
}

/// The format of a tree.
#[derive(Clone, Copy)]
pub enum Format {
    /// One line for each node.
    Text,
    /// An object of JSON on a line.
    Json,
    /// A railroad diagram, as an SVG document.
    Svg,
}

/// The tree to show.
#[derive(Clone, Copy)]
pub enum Stage {
    /// The parsed tree.
    Parsed,
    /// The optimized tree.
    Optimized,
    /// The parsed tree, a line `--`, and the optimized tree.
    Both,
}
