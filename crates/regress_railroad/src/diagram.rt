//! Diagrams: nested parts, each with its extent.

use crate::style::{END, GAP, RADIUS};
use regress_labels::Label;

/// A point, in user units from the upper left corner. Sums saturate at `u32::MAX`, and differences at 0.
#[derive(Clone, Copy)]
pub(crate) struct Point {
    pub(crate) x: u32,
    pub(crate) y: u32,
}

impl Point {
    pub(crate) fn right(self, by: u32) -> Point {
        let x = self.x.saturating_add(by);
        Point { x, ..self }
    }

    pub(crate) fn left(self, by: u32) -> Point {
        let x = self.x.saturating_sub(by);
        Point { x, ..self }
    }

    pub(crate) fn down(self, by: u32) -> Point {
        let y = self.y.saturating_add(by);
        Point { y, ..self }
    }

    pub(crate) fn up(self, by: u32) -> Point {
        let y = self.y.saturating_sub(by);
        Point { y, ..self }
    }
}

/// The extent of a part. The connecting line enters at the left and leaves at the right, at the height of the baseline.
#[derive(Clone, Copy)]
pub(crate) struct Extent {
    pub(crate) width: u32,
    /// The height above the baseline.
    pub(crate) above: u32,
    /// The height below the baseline.
    pub(crate) below: u32,
}

/// The extent of a bare line.
pub(crate) const NO_EXTENT: Extent = Extent {
    width: 0,
    above: 0,
    below: 0,
};

impl Extent {
    pub(crate) fn height(self) -> u32 {
        self.above.saturating_add(self.below)
    }
}

/// Returns how far from the baseline a line with rounded corners passes a part of that height.
pub(crate) fn clear(height: u32) -> u32 {
    height.saturating_add(GAP).max(2 * RADIUS)
}

/// The kind of a box.
#[derive(Clone, Copy)]
pub(crate) enum BoxKind {
    /// Literal characters.
    Literal,
    /// One character of a set, or one string.
    Set,
    /// A position between characters: an anchor or a word boundary.
    Position,
    /// A backreference.
    Reference,
    /// Something that never matches.
    Never,
}

/// The kind of a frame.
#[derive(Clone, Copy)]
pub(crate) enum FrameKind {
    Group,
    /// A lookaround: it has to match, and consumes nothing.
    Around,
    /// A negated lookaround: it must not match.
    Without,
}

/// The lines of a loop.
#[derive(Drop)]
pub(crate) struct Iterations {
    /// Whether a line leads back below, for further iterations.
    pub(crate) again: bool,
    /// Whether a line bypasses the body above.
    pub(crate) none: bool,
    /// The label below.
    pub(crate) label: String,
}

/// What a page knows a part by.
#[derive(Drop)]
pub(crate) struct Marks {
    /// The classes for its span.
    pub(crate) class: String,
    /// The number of the line that explains it, if there is one.
    pub(crate) line: Option<usize>,
}

/// A part of a diagram.
#[derive(Drop)]
#[cycle(diagram)]
pub(crate) struct Diagram {
    pub(crate) shape: Shape,
    /// The source text of the part, if it is known.
    pub(crate) title: Option<String>,
    /// Its marks, if the picture is for a page.
    pub(crate) marks: Option<Marks>,
    pub(crate) extent: Extent,
}

#[derive(Drop)]
#[cycle(diagram)]
pub(crate) enum Shape {
    /// A bare line.
    Line,
    /// The end of the pattern.
    End,
    Boxed {
        kind: BoxKind,
        label: Label,
    },
    /// A sequence of parts.
    Row(Vec<Diagram>),
    /// A sequence that is wrapped into several lines.
    Rows(Vec<Diagram>),
    /// Alternative branches.
    Tracks(Vec<Diagram>),
    Loop {
        iterations: Iterations,
        body: Box<Diagram>,
    },
    Frame {
        kind: FrameKind,
        label: String,
        body: Box<Diagram>,
    },
    /// A frame below the line.
    Hung {
        kind: FrameKind,
        label: String,
        body: Box<Diagram>,
    },
}

impl Diagram {
    pub(crate) fn new(shape: Shape, extent: Extent) -> Diagram {
        Diagram {
            shape,
            title: None,
            marks: None,
            extent,
        }
    }

    pub(crate) fn line() -> Diagram {
        Diagram::new(Shape::Line, NO_EXTENT)
    }

    pub(crate) fn end() -> Diagram {
        let extent = Extent {
            width: 2 * END,
            above: END,
            below: END,
        };
        Diagram::new(Shape::End, extent)
    }

    /// Returns whether this is a sequence that ends with the end of the pattern.
    pub(crate) fn ends_the_line(&self) -> bool {
        match &self.shape {
            Shape::Row(parts) => parts
                .last()
                .is_some_and(|last| matches!(last.shape, Shape::End)),
            _ => false,
        }
    }
}
