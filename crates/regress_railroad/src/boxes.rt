//! Parts of a diagram with their extents.

use crate::diagram::{BoxKind, Diagram, Extent, FrameKind, Iterations, NO_EXTENT, Shape, clear};
use crate::style::{GAP, HALF, NOTE, PADDING, RADIUS, text_width};
use regress_labels::{Label, columns};
use std::alloc::{AllocError, Global};

/// Returns a box with a label.
pub(crate) fn boxed(kind: BoxKind, label: Label) -> Diagram {
    let extent = Extent {
        width: text_width(label.columns()).saturating_add(2 * PADDING),
        above: HALF,
        below: HALF,
    };
    Diagram::new(Shape::Boxed { kind, label }, extent)
}

/// Returns a box of literal characters, matched exactly or in either case.
pub(crate) fn literal(text: String, either_case: bool) -> Diagram {
    let label = Label {
        front: "",
        text,
        after: if either_case { "either case" } else { "" },
    };
    boxed(BoxKind::Literal, label)
}

/// Returns a box for a set; an empty set has a box for what never matches, not for the empty text.
pub(crate) fn set_box(alloc: Global, kind: BoxKind, label: Option<Label>) -> Diagram {
    match label {
        Some(label) => boxed(kind, label),
        None => boxed(BoxKind::Never, Label::words(alloc, "no character")),
    }
}

/// Returns the distance between the baselines of two branches, one below the other.
pub(crate) fn track_step(upper: Extent, lower: Extent) -> u32 {
    upper
        .below
        .saturating_add(lower.above)
        .saturating_add(GAP)
        .max(2 * RADIUS)
}

/// Returns alternative branches, joined by a fork at each side.
pub(crate) fn tracks(tracks: Vec<Diagram>) -> Diagram {
    let mut extent = NO_EXTENT;
    let mut last = NO_EXTENT;
    for (index, track) in tracks.iter().enumerate() {
        let next = track.extent;
        if index == 0 {
            extent.above = next.above;
        } else {
            extent.below = extent.below.saturating_add(track_step(last, next));
        }
        extent.width = extent.width.max(next.width);
        last = next;
    }
    extent.width = extent.width.saturating_add(4 * RADIUS);
    extent.below = extent.below.saturating_add(last.below);
    Diagram::new(Shape::Tracks(tracks), extent)
}

/// Returns a loop around a body, with room for its lines at each side.
pub(crate) fn loop_around(
    alloc: Global,
    iterations: Iterations,
    body: Diagram,
) -> Result<Diagram, AllocError> {
    let mut extent = body.extent;
    let label = text_width(columns(&iterations.label));
    if iterations.none {
        extent.above = clear(extent.above);
    }
    if iterations.again {
        extent.below = clear(extent.below);
    }
    if !iterations.label.is_empty() {
        extent.below = extent.below.saturating_add(NOTE);
    }
    extent.width = extent.width.max(label).saturating_add(4 * RADIUS);
    let body = Box::new(alloc, body)?;
    Ok(Diagram::new(Shape::Loop { iterations, body }, extent))
}

/// Returns a frame around a body, with its label at the top.
pub(crate) fn framed(
    alloc: Global,
    kind: FrameKind,
    label: String,
    body: Diagram,
) -> Result<Diagram, AllocError> {
    let extent = frame_extent(body.extent, &label);
    let body = Box::new(alloc, body)?;
    Ok(Diagram::new(Shape::Frame { kind, label, body }, extent))
}

/// Returns a frame that hangs below the line, since what is in it consumes nothing.
pub(crate) fn hung(
    alloc: Global,
    kind: FrameKind,
    label: String,
    body: Diagram,
) -> Result<Diagram, AllocError> {
    let frame = frame_extent(body.extent, &label);
    let extent = Extent {
        width: frame.width,
        above: 0,
        below: frame.height().saturating_add(GAP),
    };
    let body = Box::new(alloc, body)?;
    Ok(Diagram::new(Shape::Hung { kind, label, body }, extent))
}

/// Returns the extent of a frame around a body with this extent.
pub(crate) fn frame_extent(body: Extent, label: &str) -> Extent {
    let width = body.width.max(text_width(columns(label)));
    Extent {
        width: width.saturating_add(2 * PADDING),
        above: body.above.saturating_add(NOTE + 4),
        below: body.below.saturating_add(GAP),
    }
}
