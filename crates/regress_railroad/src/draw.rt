//! Draws a diagram on a sheet.
ghost use Rattle.std.specs.Prelude.{◌≡◌, OnOk};

use crate::boxes::{frame_extent, track_step};
use crate::diagram::{Diagram, Extent, Iterations, Marks, NO_EXTENT, Point, Shape, clear};
use crate::parts::{Place, draw_box, draw_end, draw_frame, draw_iterations, draw_sides, middle};
use crate::row::{copied, row_step};
use crate::style::{GAP, RADIUS};
use crate::ways::{
    Drawn, draw_branch, draw_fork, draw_line, draw_thread, draw_way_back, draw_way_up,
};
use regress_svg::{Area, Element, Sheet};

/// Draws a part whose connecting line enters at a point, in a group of its own if it is marked.
#[cycle(draw)]
pub(crate) fn draw(diagram: &Diagram, at: Point, sheet: &mut Sheet) -> Drawn
    ensures { OnOk result (sheet.new.depth ≡ sheet.old.depth) }
{
    match &diagram.marks {
        Some(marks) => {
            add_area(diagram, marks, at, sheet)?;
            sheet.open_group(&marks.class)?;
            draw_shape(diagram, at, sheet)?;
            sheet.close_group()
        }
        None => draw_shape(diagram, at, sheet),
    }
}

/// Adds the area of a part that a line explains.
fn add_area(diagram: &Diagram, marks: &Marks, at: Point, sheet: &mut Sheet) -> Drawn
    ensures { OnOk result (sheet.new.depth ≡ sheet.old.depth) }
{
    let Some(line) = marks.line else {
        return Ok(());
    };
    let (alloc, extent) = (sheet.alloc(), diagram.extent);
    let class = String::from_str(alloc, &marks.class)?;
    let title = copied(alloc, diagram.title.as_ref())?.unwrap_or(String::new(alloc));
    sheet.add_area(Area {
        line,
        class,
        title,
        x: at.x,
        y: at.up(extent.above).y,
        width: extent.width,
        height: extent.height(),
    })
}

#[cycle(draw)]
fn draw_shape(diagram: &Diagram, at: Point, sheet: &mut Sheet) -> Drawn
    ensures { OnOk result (sheet.new.depth ≡ sheet.old.depth) }
{
    let extent = diagram.extent;
    let place = Place { extent, at };
    let title = diagram.title.as_ref();
    match &diagram.shape {
        Shape::Line => Ok(()),
        Shape::End => draw_end(at, sheet),
        Shape::Boxed { kind, label } => draw_box(*kind, label, title, place, sheet),
        Shape::Row(parts) => draw_row(parts, at, sheet),
        Shape::Rows(rows) => draw_rows(rows, extent, at, sheet),
        Shape::Tracks(tracks) => draw_tracks(tracks, extent, at, sheet),
        Shape::Loop { iterations, body } => match title {
            Some(title) => {
                sheet.open_group("loop")?;
                sheet.draw(Element::Title(title))?;
                draw_loop(iterations, body, extent, at, sheet)?;
                sheet.close_group()
            }
            None => draw_loop(iterations, body, extent, at, sheet),
        },
        Shape::Frame { kind, label, body } => {
            sheet.open_group("framed")?;
            draw_frame(*kind, label, title, place, sheet)?;
            draw_sides(body.extent, extent, at, sheet)?;
            draw(body, middle(body.extent.width, extent, at), sheet)?;
            sheet.close_group()
        }
        Shape::Hung { kind, label, body } => {
            let frame = frame_extent(body.extent, label);
            let inside = at.down(GAP).down(frame.above);
            draw_line(at, at.right(extent.width), sheet)?;
            draw_thread(at.right(extent.width / 2), sheet)?;
            sheet.open_group("framed")?;
            let framed = Place {
                extent: frame,
                at: inside,
            };
            draw_frame(*kind, label, title, framed, sheet)?;
            draw_sides(body.extent, frame, inside, sheet)?;
            draw(body, middle(body.extent.width, frame, inside), sheet)?;
            sheet.close_group()
        }
    }
}

#[cycle(draw)]
fn draw_loop(
    iterations: &Iterations,
    body: &Diagram,
    extent: Extent,
    at: Point,
    sheet: &mut Sheet,
) -> Drawn
    ensures { OnOk result (sheet.new.depth ≡ sheet.old.depth) }
{
    draw_iterations(iterations, body.extent, extent, at, sheet)?;
    draw_sides(body.extent, extent, at, sheet)?;
    draw(body, middle(body.extent.width, extent, at), sheet)
}

/// Draws a sequence of parts, connected by lines.
#[cycle(draw)]
fn draw_row(parts: &[Diagram], at: Point, sheet: &mut Sheet) -> Drawn
    ensures { OnOk result (sheet.new.depth ≡ sheet.old.depth) }
{
    let mut point = at;
    for (index, part) in parts.iter().enumerate() {
        if index > 0 {
            draw_line(point, point.right(GAP), sheet)?;
            point = point.right(GAP);
        }
        draw(part, point, sheet)?;
        point = point.right(part.extent.width);
    }
    Ok(())
}

/// Draws the lines of a wrapped sequence, and the connections between them.
#[cycle(draw)]
fn draw_rows(rows: &[Diagram], extent: Extent, at: Point, sheet: &mut Sheet) -> Drawn
    ensures { OnOk result (sheet.new.depth ≡ sheet.old.depth) }
{
    let mut point = at.right(2 * RADIUS);
    draw_line(at, point, sheet)?;
    let mut last = NO_EXTENT;
    let mut goes_on = true;
    for (index, row) in rows.iter().enumerate() {
        if index > 0 {
            let end = point.right(last.width);
            let start = point.down(row_step(last, row.extent));
            draw_way_back(end, clear(last.below), start, sheet)?;
            point = start;
        }
        draw(row, point, sheet)?;
        goes_on = !row.ends_the_line();
        last = row.extent;
    }
    if goes_on {
        draw_way_up(point.right(last.width), at.right(extent.width), sheet)?;
    }
    Ok(())
}

/// Draws alternative branches, the first one on the baseline.
#[cycle(draw)]
fn draw_tracks(tracks: &[Diagram], extent: Extent, at: Point, sheet: &mut Sheet) -> Drawn
    ensures { OnOk result (sheet.new.depth ≡ sheet.old.depth) }
{
    draw_fork(extent, at, sheet)?;
    let mut upper = at.down(RADIUS);
    let mut point = at.right(2 * RADIUS);
    let mut last = NO_EXTENT;
    for (index, track) in tracks.iter().enumerate() {
        let next = track.extent;
        if index == 0 {
            draw_line(at, point, sheet)?;
            draw_line(point.right(next.width), at.right(extent.width), sheet)?;
        } else {
            point = point.down(track_step(last, next));
            draw_branch(upper, extent, point, point.right(next.width), sheet)?;
            upper = Point { x: at.x, ..point }.up(RADIUS);
        }
        draw(track, point, sheet)?;
        last = next;
    }
    Ok(())
}
