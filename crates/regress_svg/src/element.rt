//! The elements of a picture.
ghost use Rattle.std.specs.Prelude.{◌≡◌};
ghost use Rattle.std.specs.Fmt.{WritesOnOk};
ghost use Rattle.regress_svg.specs.Markup.{note_bytes, path_bytes, command_bytes, commands_bytes, text_bytes};

use crate::escape::Escaped;
use std::fmt;
use std::fmt::{Formatter, Write};

/// An SVG element that contains no other element. Coordinates and lengths are user units, from the upper left corner; a
/// `class` is the name by which a style sheet selects the element. A text may contain any characters; one that XML does
/// not allow (XML 1.0, section 2.2) is written as U+FFFD.
#[derive(Clone, Copy)]
pub enum Element<'a> {
    /// `rect`, by its upper left corner. `radius` is the radius of its rounded corners.
    Rectangle {
        /// The class of the element.
        class: &'a str,
        /// The left edge.
        x: u32,
        /// The upper edge.
        y: u32,
        /// The width.
        width: u32,
        /// The height.
        height: u32,
        /// The radius of the corners, 0 for none.
        radius: u32,
    },
    /// `circle`, by its center.
    Circle {
        /// The class of the element.
        class: &'a str,
        /// The horizontal position of the center.
        x: u32,
        /// The vertical position of the center.
        y: u32,
        /// The radius.
        radius: u32,
    },
    /// `path`, from the point (`x`, `y`) along the commands in order.
    Path {
        /// The class of the element.
        class: &'a str,
        /// The horizontal position of the start.
        x: u32,
        /// The vertical position of the start.
        y: u32,
        /// The commands in order.
        commands: &'a [PathCommand],
    },
    /// `text`, at the point (`x`, `y`); its style determines how it is aligned there. The note, if it is not empty,
    /// follows the text in a `tspan` of the class `note`.
    Text {
        /// The class of the element.
        class: &'a str,
        /// The horizontal position.
        x: u32,
        /// The vertical position.
        y: u32,
        /// The text, which is escaped when it is written.
        text: &'a str,
        /// The note, or the empty text for none.
        note: &'a str,
    },
    /// `title`: the name of the group or picture that contains it, where it should be the first element.
    Title(&'a str),
    /// `desc`: a description of the group or picture that contains it.
    Description(&'a str),
    /// `style`: a style sheet.
    Style(&'a str),
}

/// A command of a path, from the end of the one before it to the given point.
#[derive(Clone, Copy)]
pub enum PathCommand {
    /// A new start, without a line.
    Move {
        /// The horizontal position of the point.
        x: u32,
        /// The vertical position of the point.
        y: u32,
    },
    /// A straight line.
    Line {
        /// The horizontal position of the point.
        x: u32,
        /// The vertical position of the point.
        y: u32,
    },
    /// A horizontal line.
    Horizontal {
        /// The horizontal position of the point.
        x: u32,
    },
    /// A vertical line.
    Vertical {
        /// The vertical position of the point.
        y: u32,
    },
    /// A quadratic Bézier curve with one control point.
    Curve {
        /// The horizontal position of the control point.
        control_x: u32,
        /// The vertical position of the control point.
        control_y: u32,
        /// The horizontal position of the point.
        x: u32,
        /// The vertical position of the point.
        y: u32,
    },
}

impl fmt::Display for Element<'_> {
    ghost use Rattle.std.specs.Prelude.{Some};
    ghost use Rattle.regress_svg.specs.Markup.{element_bytes};

    ghost output = { λ element. Some (element_bytes element) };

    fn fmt<W: Write>(&self, f: &mut Formatter<W>) -> fmt::Result {
        match *self {
            Element::Rectangle {
                class,
                x,
                y,
                width,
                height,
                radius,
            } => {
                let class = Escaped(class);
                write!(
                    f,
                    "<rect class=\"{class}\" x=\"{x}\" y=\"{y}\" width=\"{width}\" height=\"{height}\" rx=\"{radius}\"/>"
                )
            }
            Element::Circle {
                class,
                x,
                y,
                radius,
            } => {
                let class = Escaped(class);
                write!(
                    f,
                    "<circle class=\"{class}\" cx=\"{x}\" cy=\"{y}\" r=\"{radius}\"/>"
                )
            }
            Element::Path {
                class,
                x,
                y,
                commands,
            } => write_path(class, x, y, commands, f),
            Element::Text {
                class,
                x,
                y,
                text,
                note,
            } => write_text(class, (x, y), text, note, f),
            Element::Title(text) => write!(f, "<title>{}</title>", Escaped(text)),
            Element::Description(text) => write!(f, "<desc>{}</desc>", Escaped(text)),
            Element::Style(text) => write!(f, "<style>{}</style>", Escaped(text)),
        }
    }
}

fn write_path<W: Write>(
    class: &str,
    x: u32,
    y: u32,
    commands: &[PathCommand],
    f: &mut Formatter<W>,
) -> fmt::Result
    ensures { WritesOnOk W.write_str_gives f.old result (path_bytes class.now x y commands.now) f.new }
{
    write!(f, "<path class=\"{}\" d=\"M{x} {y}", Escaped(class))?;
    write_commands(commands, f)?;
    f.write_str("\"/>")
}

fn write_text<W: Write>(
    class: &str,
    point: (u32, u32),
    text: &str,
    note: &str,
    f: &mut Formatter<W>,
) -> fmt::Result
    ensures { WritesOnOk W.write_str_gives f.old result (text_bytes class.now point.0 point.1 text.now note.now) f.new }
{
    let (x, y) = point;
    let (class, text) = (Escaped(class), Escaped(text));
    write!(f, "<text class=\"{class}\" x=\"{x}\" y=\"{y}\">{text}")?;
    write_note(note, f)?;
    f.write_str("</text>")
}

/// Writes the note after a text, if it is not empty.
fn write_note<W: Write>(note: &str, f: &mut Formatter<W>) -> fmt::Result
    ensures { WritesOnOk W.write_str_gives f.old result (note_bytes note.now) f.new }
{
    if note.is_empty() {
        return Ok(());
    }
    write!(f, "<tspan class=\"note\">{}</tspan>", Escaped(note))
}

fn write_commands<W: Write>(commands: &[PathCommand], f: &mut Formatter<W>) -> fmt::Result
    ensures { WritesOnOk W.write_str_gives f.old result (commands_bytes commands.now) f.new }
{
    for command in commands {
        write_command(*command, f)?;
    }
    Ok(())
}

/// Writes a command of the path data.
fn write_command<W: Write>(command: PathCommand, f: &mut Formatter<W>) -> fmt::Result
    ensures { WritesOnOk W.write_str_gives f.old result (command_bytes command) f.new }
{
    match command {
        PathCommand::Move { x, y } => write!(f, "M{x} {y}"),
        PathCommand::Line { x, y } => write!(f, "L{x} {y}"),
        PathCommand::Horizontal { x } => write!(f, "H{x}"),
        PathCommand::Vertical { y } => write!(f, "V{y}"),
        PathCommand::Curve {
            control_x,
            control_y,
            x,
            y,
        } => write!(f, "Q{control_x} {control_y} {x} {y}"),
    }
}
