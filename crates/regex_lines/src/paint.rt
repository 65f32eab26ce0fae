//! How output is painted on a terminal.
ghost use Rattle.std.specs.Prelude.{◌≡◌, ◌++◌, OnOk, option_map};
ghost use Rattle.regex_options.specs.Colors.{plain_colors};
ghost use Rattle.regex_lines.specs.Paint.{begun, change, color_of, is_colored, line_paint_in, line_paint_of, paint_in, paint_of, painted};

use regex_options::Colors;
use std::alloc::AllocError;

/// A part of the output.
#[derive(Clone, Copy)]
pub(crate) enum Part {
    /// The name of an input.
    Name,
    /// The number of a line.
    Number,
    /// What is after these, and between lines that are not adjacent.
    Separator,
    /// A match in a line, which is selected, or near a selected one.
    Match { near: bool },
    /// The rest of a line. With `inverted` lines without a match are selected.
    Line { near: bool, inverted: bool },
}

/// Parameters of SGR, or none, and whether a change of the color clears the line to its right.
#[derive(Clone, Copy)]
pub(crate) struct Paint<'a> {
    pub(crate) color: &'a str,
    pub(crate) clears: bool,
}

/// How the matches in a line are painted, and the rest of it.
#[derive(Clone, Copy)]
pub(crate) struct LinePaint<'a> {
    pub(crate) matched: Paint<'a>,
    pub(crate) rest: Paint<'a>,
}

/// Returns how a line is painted that is selected, or near a selected one.
pub(crate) fn line_paint_in<'a>(
    colors: Option<&'a Colors<'a>>,
    near: bool,
    inverted: bool,
) -> LinePaint<'a>
    ensures { line_paint_of result ≡ line_paint_in (option_map (λ colors. plain_colors colors.now) colors.entry) near inverted }
{
    LinePaint {
        matched: paint_in(colors, Part::Match { near }),
        rest: paint_in(colors, Part::Line { near, inverted }),
    }
}

/// Returns how a part of the output is painted.
pub(crate) fn paint_in<'a>(colors: Option<&'a Colors<'a>>, part: Part) -> Paint<'a>
    ensures { paint_of result ≡ paint_in (option_map (λ colors. plain_colors colors.now) colors.entry) part }
{
    match colors {
        Some(colors) => Paint {
            color: color_of(part, colors),
            clears: colors.clears,
        },
        None => Paint {
            color: "",
            clears: false,
        },
    }
}

/// Returns the parameters for a part of the output.
fn color_of<'a>(part: Part, colors: &'a Colors<'a>) -> &'a str
    ensures { result.now ≡ color_of part (plain_colors colors.now) }
{
    match part {
        Part::Name => colors.name,
        Part::Number => colors.number,
        Part::Separator => colors.separator,
        Part::Match { near: true } => colors.context_match,
        Part::Match { near: false } => colors.selected_match,
        Part::Line { near, inverted } => {
            if near == (inverted && colors.exchanged) {
                colors.selected_line
            } else {
                colors.context_line
            }
        }
    }
}

/// Returns whether there is a color.
pub(crate) fn is_colored(paint: Paint<'_>) -> bool
    ensures { result ≡ is_colored (paint_of paint.entry) }
{
    !paint.color.is_empty()
}

/// Adds a text, painted.
pub(crate) fn add_painted(paint: Paint<'_>, text: &[u8], to: &mut Vec<u8>) -> Result<(), AllocError>
    ensures { OnOk result (to.new.items ≡ to.old.items ++ painted (paint_of paint.entry) text.now) }
{
    if !is_colored(paint) || text.is_empty() {
        return to.extend_from_slice(text);
    }
    add_change(paint.color, paint.clears, to)?;
    to.extend_from_slice(text)?;
    add_change("", paint.clears, to)
}

/// Adds the beginning of a text in color.
pub(crate) fn add_begun(paint: Paint<'_>, to: &mut Vec<u8>) -> Result<(), AllocError>
    ensures { OnOk result (to.new.items ≡ to.old.items ++ begun (paint_of paint.entry)) }
{
    if is_colored(paint) {
        add_change(paint.color, paint.clears, to)
    } else {
        Ok(())
    }
}

/// Adds a change of the color.
fn add_change(color: &str, clears: bool, to: &mut Vec<u8>) -> Result<(), AllocError>
    ensures { OnOk result (to.new.items ≡ to.old.items ++ change color.now clears) }
{
    to.extend_from_slice(b"\x1b[")?;
    to.extend_from_slice(color.as_bytes())?;
    to.push(b'm')?;
    if clears {
        to.extend_from_slice(b"\x1b[K")?;
    }
    Ok(())
}
