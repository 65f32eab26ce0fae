//! Lines with rounded corners.
ghost use Rattle.std.specs.Prelude.{◌≡◌, OnOk};

use crate::diagram::{Extent, Point};
use crate::style::{GAP, RADIUS};
use regress_svg::{Element, PathCommand, Sheet};
use std::alloc::AllocError;

/// The result of drawing.
pub(crate) type Drawn = Result<(), AllocError>;

fn draw_path(class: &str, from: Point, commands: &[PathCommand], sheet: &mut Sheet) -> Drawn
    ensures { OnOk result (sheet.new.depth ≡ sheet.old.depth) }
{
    let (x, y) = (from.x, from.y);
    sheet.draw(Element::Path {
        class,
        x,
        y,
        commands,
    })
}

fn line_to(to: Point) -> PathCommand {
    PathCommand::Line { x: to.x, y: to.y }
}

/// Returns the point next to a corner, towards another point, where the rounding begins or ends.
fn adjoin(corner: Point, other: Point) -> Point {
    if corner.x < other.x {
        corner.right(RADIUS)
    } else if corner.x > other.x {
        corner.left(RADIUS)
    } else if corner.y < other.y {
        corner.down(RADIUS)
    } else {
        corner.up(RADIUS)
    }
}

/// Returns the rounded corner towards another point.
fn rounded_corner(corner: Point, to: Point) -> PathCommand {
    let end = adjoin(corner, to);
    PathCommand::Curve {
        control_x: corner.x,
        control_y: corner.y,
        x: end.x,
        y: end.y,
    }
}

/// Draws a horizontal line to the right, unless its length is 0.
pub(crate) fn draw_line(from: Point, to: Point, sheet: &mut Sheet) -> Drawn
    ensures { OnOk result (sheet.new.depth ≡ sheet.old.depth) }
{
    if from.x >= to.x {
        return Ok(());
    }
    draw_path("line", from, &[PathCommand::Horizontal { x: to.x }], sheet)
}

/// Draws the vertical line from which a frame hangs.
pub(crate) fn draw_thread(from: Point, sheet: &mut Sheet) -> Drawn
    ensures { OnOk result (sheet.new.depth ≡ sheet.old.depth) }
{
    let y = from.down(GAP).y;
    draw_path("thread", from, &[PathCommand::Vertical { y }], sheet)
}

/// Draws a line round a corner.
pub(crate) fn draw_corner(from: Point, corner: Point, to: Point, sheet: &mut Sheet) -> Drawn
    ensures { OnOk result (sheet.new.depth ≡ sheet.old.depth) }
{
    let commands = [
        line_to(adjoin(corner, from)),
        rounded_corner(corner, to),
        line_to(to),
    ];
    draw_path("line", from, &commands, sheet)
}

/// Draws a line round four corners.
pub(crate) fn draw_way(from: Point, corners: [Point; 4], to: Point, sheet: &mut Sheet) -> Drawn
    ensures { OnOk result (sheet.new.depth ≡ sheet.old.depth) }
{
    let [a, b, c, d] = corners;
    let commands = [
        rounded_corner(a, b),
        line_to(adjoin(b, a)),
        rounded_corner(b, c),
        line_to(adjoin(c, b)),
        rounded_corner(c, d),
        line_to(adjoin(d, c)),
        rounded_corner(d, to),
    ];
    draw_path("line", from, &commands, sheet)
}

/// Draws the line that bypasses a loop's body above.
pub(crate) fn draw_way_over(height: u32, start: Point, end: Point, sheet: &mut Sheet) -> Drawn
    ensures { OnOk result (sheet.new.depth ≡ sheet.old.depth) }
{
    let (left, right) = (start.right(RADIUS), end.left(RADIUS));
    let corners = [left, left.up(height), right.up(height), right];
    draw_way(start, corners, end, sheet)
}

/// Draws the line that leads back below a loop's body, with an arrowhead to the left on it.
pub(crate) fn draw_way_under(height: u32, start: Point, end: Point, sheet: &mut Sheet) -> Drawn
    ensures { OnOk result (sheet.new.depth ≡ sheet.old.depth) }
{
    let (left, right) = (start.left(RADIUS), end.right(RADIUS));
    let corners = [right, right.down(height), left.down(height), left];
    draw_way(end, corners, start, sheet)?;
    let half = end.x.saturating_sub(start.x) / 2;
    let tip = start.right(half).left(4).down(height);
    let back = tip.right(8);
    draw_path(
        "mark",
        tip,
        &[line_to(back.up(4)), line_to(back.down(4))],
        sheet,
    )
}

/// Draws the connection from the end of a line of a wrapped sequence to the start of the next, which leads back at the
/// distance `back` below the first.
pub(crate) fn draw_way_back(end: Point, back: u32, start: Point, sheet: &mut Sheet) -> Drawn
    ensures { OnOk result (sheet.new.depth ≡ sheet.old.depth) }
{
    let (right, left) = (end.right(RADIUS), start.left(RADIUS));
    let line = right.down(back);
    let corners = [right, line, Point { x: left.x, ..line }, left];
    draw_way(end, corners, start, sheet)
}

/// Draws the connection from the end of the last line up to where the first one would continue.
pub(crate) fn draw_way_up(end: Point, out: Point, sheet: &mut Sheet) -> Drawn
    ensures { OnOk result (sheet.new.depth ≡ sheet.old.depth) }
{
    let top = out.left(RADIUS);
    let under = top.down(RADIUS);
    draw_corner(end, Point { x: top.x, ..end }, under, sheet)?;
    draw_corner(under, top, out, sheet)
}

/// Draws where branches leave the baseline at both sides of an extent.
pub(crate) fn draw_fork(extent: Extent, at: Point, sheet: &mut Sheet) -> Drawn
    ensures { OnOk result (sheet.new.depth ≡ sheet.old.depth) }
{
    let end = at.right(extent.width);
    let (left, right) = (at.right(RADIUS), end.left(RADIUS));
    draw_corner(at, left, left.down(RADIUS), sheet)?;
    draw_corner(end, right, right.down(RADIUS), sheet)
}

/// Draws the connections from the branch above to both ends of a branch.
pub(crate) fn draw_branch(
    upper: Point,
    extent: Extent,
    start: Point,
    end: Point,
    sheet: &mut Sheet,
) -> Drawn
    ensures { OnOk result (sheet.new.depth ≡ sheet.old.depth) }
{
    let left = upper.right(RADIUS);
    let right = upper.right(extent.width).left(RADIUS);
    draw_corner(left, Point { x: left.x, ..start }, start, sheet)?;
    draw_corner(right, Point { x: right.x, ..end }, end, sheet)
}
