//! Lines and columns.
ghost use Rattle.std.specs.Prelude.{◌≡◌, chars};
ghost use Rattle.regress_display.specs.Fault.{column_at, line_at};

/// The line and the column of a code point, both from 1.
#[derive(Clone, Copy)]
pub(crate) struct Location {
    pub(crate) line: usize,
    pub(crate) column: usize,
}

impl Location {
    /// Returns the line and the column of the code point at a position, or of the end of the text if there is none.
    ///
    /// A line feed ends a line.
    pub(crate) fn at(text: &str, position: usize) -> Location
        ensures line { result.line ≡ line_at (chars text.now) position }
        ensures column { result.column ≡ column_at (chars text.now) position }
    {
        let mut line = 1;
        let mut column = 1;
        for c in text.chars().take(position) {
            if c == '\n' {
                line += 1;
                column = 1;
            } else {
                column += 1;
            }
        }
        Location { line, column }
    }
}
