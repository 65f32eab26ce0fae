//! Draws single parts, without their bodies.
ghost use Rattle.std.specs.Prelude.{◌≡◌, OnOk};

use crate::diagram::{BoxKind, Extent, FrameKind, Iterations, Point, clear};
use crate::style::{END, HALF, NOTE, PADDING, text_width};
use crate::ways::{Drawn, draw_line, draw_way_over, draw_way_under};
use regress_labels::{Label, columns};
use regress_svg::{Element, Sheet};

/// Where a part is drawn: its extent, and the point at which the connecting line enters.
#[derive(Clone, Copy)]
pub(crate) struct Place {
    pub(crate) extent: Extent,
    pub(crate) at: Point,
}

/// Draws a text from a point on its baseline, unless it is empty.
pub(crate) fn draw_text(class: &str, text: &str, at: Point, sheet: &mut Sheet) -> Drawn
    ensures { OnOk result (sheet.new.depth ≡ sheet.old.depth) }
{
    if text.is_empty() {
        return Ok(());
    }
    let (x, y) = (at.x, at.y);
    sheet.draw(Element::Text {
        class,
        x,
        y,
        text,
        note: "",
    })
}

fn draw_rectangle(class: &str, radius: u32, place: Place, sheet: &mut Sheet) -> Drawn
    ensures { OnOk result (sheet.new.depth ≡ sheet.old.depth) }
{
    let Place { extent, at } = place;
    sheet.draw(Element::Rectangle {
        class,
        x: at.x,
        y: at.up(extent.above).y,
        width: extent.width,
        height: extent.height(),
        radius,
    })
}

/// Draws a circle on the connecting line.
pub(crate) fn draw_circle(class: &str, radius: u32, middle: Point, sheet: &mut Sheet) -> Drawn
    ensures { OnOk result (sheet.new.depth ≡ sheet.old.depth) }
{
    let (x, y) = (middle.x, middle.y);
    sheet.draw(Element::Circle {
        class,
        x,
        y,
        radius,
    })
}

/// Draws the end of the pattern, a ring with a dot in it.
pub(crate) fn draw_end(at: Point, sheet: &mut Sheet) -> Drawn
    ensures { OnOk result (sheet.new.depth ≡ sheet.old.depth) }
{
    draw_circle("ring", END, at.right(END), sheet)?;
    draw_circle("mark", END - 3, at.right(END), sheet)
}

/// Titles the open group; it has to be the first element in it.
fn draw_title(title: Option<&String>, sheet: &mut Sheet) -> Drawn
    ensures { OnOk result (sheet.new.depth ≡ sheet.old.depth) }
{
    match title {
        Some(title) => sheet.draw(Element::Title(title)),
        None => Ok(()),
    }
}

/// Draws a box with its label.
pub(crate) fn draw_box(
    kind: BoxKind,
    label: &Label,
    title: Option<&String>,
    place: Place,
    sheet: &mut Sheet,
) -> Drawn
    ensures { OnOk result (sheet.new.depth ≡ sheet.old.depth) }
{
    let (class, radius) = match kind {
        BoxKind::Literal => ("literal", 4),
        BoxKind::Set => ("set", 4),
        BoxKind::Position => ("position", HALF),
        BoxKind::Reference => ("reference", 4),
        BoxKind::Never => ("never", 4),
    };
    sheet.open_group(class)?;
    draw_title(title, sheet)?;
    draw_rectangle("box", radius, place, sheet)?;
    draw_label(label, place.at.right(PADDING).down(5), sheet)?;
    sheet.close_group()
}

fn draw_label(label: &Label, at: Point, sheet: &mut Sheet) -> Drawn
    ensures { OnOk result (sheet.new.depth ≡ sheet.old.depth) }
{
    let text = at.right(text_width(label.text_column()));
    let after = at.right(text_width(label.after_column()));
    draw_text("word", label.front, at, sheet)?;
    draw_text("text", &label.text, text, sheet)?;
    draw_text("word", label.after, after, sheet)
}

/// Draws a frame and its label at the start of a group, and titles the group: with the source text, or else with the
/// frame's meaning.
pub(crate) fn draw_frame(
    kind: FrameKind,
    label: &str,
    title: Option<&String>,
    place: Place,
    sheet: &mut Sheet,
) -> Drawn
    ensures { OnOk result (sheet.new.depth ≡ sheet.old.depth) }
{
    let (class, meaning) = match kind {
        FrameKind::Group => ("frame", "What is matched here is captured."),
        FrameKind::Around => (
            "frame around",
            "This has to match there, and consumes nothing.",
        ),
        FrameKind::Without => ("frame without", "This must not match there."),
    };
    let title = title.map_or(meaning, |title| title.as_str());
    sheet.draw(Element::Title(title))?;
    draw_rectangle(class, 6, place, sheet)?;
    let top = place.at.up(place.extent.above);
    let point = top.right(PADDING).down(NOTE - 2);
    draw_text("small", label, point, sheet)
}

/// Draws the connecting lines at both sides of a body that is centred in an extent.
pub(crate) fn draw_sides(body: Extent, extent: Extent, at: Point, sheet: &mut Sheet) -> Drawn
    ensures { OnOk result (sheet.new.depth ≡ sheet.old.depth) }
{
    let start = middle(body.width, extent, at);
    draw_line(at, start, sheet)?;
    draw_line(start.right(body.width), at.right(extent.width), sheet)
}

/// Returns where something of that width begins if it is centred in an extent.
pub(crate) fn middle(width: u32, extent: Extent, at: Point) -> Point {
    at.right(extent.width.saturating_sub(width) / 2)
}

/// Draws the lines of a loop above and below its body, and its label.
pub(crate) fn draw_iterations(
    iterations: &Iterations,
    body: Extent,
    extent: Extent,
    at: Point,
    sheet: &mut Sheet,
) -> Drawn
    ensures { OnOk result (sheet.new.depth ≡ sheet.old.depth) }
{
    if iterations.none {
        draw_way_over(clear(body.above), at, at.right(extent.width), sheet)?;
    }
    let mut below = body.below;
    if iterations.again {
        below = clear(body.below);
        let start = middle(body.width, extent, at);
        draw_way_under(below, start, start.right(body.width), sheet)?;
    }
    let note = middle(text_width(columns(&iterations.label)), extent, at);
    draw_text(
        "small",
        &iterations.label,
        note.down(below).down(NOTE - 2),
        sheet,
    )
}
