//! What is in front of what is shown of a line.
ghost use Rattle.std.specs.Prelude.{◌≡◌, ◌++◌, codes, IfOk, OnOk, option_map, string_bytes};
ghost use Rattle.regex_options.specs.Colors.{plain_colors};
ghost use Rattle.regex_options.specs.Plain.{job};
ghost use Rattle.regex_lines.specs.Paint.{paint_in, painted};
ghost use Rattle.regex_lines.specs.declared.paint.Part.TheVariants.{Name};
ghost use Rattle.regex_lines.specs.Reply.{json_prefix};
ghost use Rattle.regex_lines.specs.Searched.{colors_of, named, has_numbers, mark_of, name_of, name_with, number_with, shows_json, text_prefix};
ghost use Rattle.regex_lines.specs.Prefix.{text_of};

use crate::paint::{Part, add_painted, paint_in};
use crate::place::Place;
use regex_options::{Colors, Shown, Task};
use regress_display::JsonText;
use std::alloc::{AllocError, Global};

/// What is in front of what a task shows of the line with this number: only a line that is shown needs its text.
#[derive(Clone, Copy)]
pub(crate) struct Prefix<'a> {
    pub(crate) task: Task<'a>,
    pub(crate) place: Place<'a>,
    pub(crate) number: u64,
    /// Whether the line is near a selected one.
    pub(crate) near: bool,
}

/// Returns the text of a prefix.
pub(crate) fn prefix_text(alloc: Global, prefix: Prefix<'_>) -> Result<Vec<u8>, AllocError>
    ensures { IfOk result (λ text. text.items ≡ text_of prefix.entry) }
{
    if shows_json(prefix.task) {
        let text = json_prefix(alloc, prefix.place.name(), prefix.number)?;
        Ok(text.into_bytes())
    } else {
        text_prefix(alloc, prefix)
    }
}

fn shows_json(task: Task<'_>) -> bool
    ensures { result ≡ shows_json (job task.entry) }
{
    match task {
        Task::Match(selection, _) => matches!(selection.shown, Shown::Json),
        Task::Replace(_) => false,
    }
}

/// Returns the members of an object of JSON that are in front of a match.
fn json_prefix(alloc: Global, name: &str, number: u64) -> Result<String, AllocError>
    ensures { IfOk result (λ text. string_bytes text ≡ json_prefix name.now number) }
{
    let file = JsonText(name);
    Ok(format!(in alloc; "{{\"file\":\"{file}\",\"line\":{number},")?)
}

/// Returns the name of an input and the number of a line, if they are shown in front.
fn text_prefix(alloc: Global, prefix: Prefix<'_>) -> Result<Vec<u8>, AllocError>
    ensures { IfOk result (λ text. text.items ≡ text_prefix prefix.entry.near (job prefix.entry.task) (named prefix.entry.place) prefix.entry.number) }
{
    let colors = colors_of(prefix.task);
    let mut text = Vec::new(alloc);
    add_name_in_front(colors, prefix.place, prefix.near, &mut text)?;
    if has_numbers(prefix.task) {
        add_number(alloc, colors, prefix, &mut text)?;
    }
    Ok(text)
}

/// Returns the colors of what a task shows, if there are any.
pub(crate) fn colors_of(task: Task<'_>) -> Option<&Colors<'_>>
    ensures { option_map (λ colors. plain_colors colors.now) result ≡ colors_of (job task.entry) }
{
    match task {
        Task::Match(_, colors) => colors,
        Task::Replace(_) => None,
    }
}

/// Adds the name of an input and what is after it, if it is shown in front.
pub(crate) fn add_name_in_front(
    colors: Option<&Colors<'_>>,
    place: Place<'_>,
    near: bool,
    to: &mut Vec<u8>,
) -> Result<(), AllocError>
    ensures { let colors = option_map (λ colors. plain_colors colors.now) colors.entry in
        OnOk result (to.new.items ≡ to.old.items ++ name_of colors (named place.entry) (mark_of colors near)) }
{
    if !place.in_front {
        return Ok(());
    }
    add_name(colors, place, to)?;
    if place.null {
        Ok(to.push(0)?)
    } else {
        add_mark(colors, near, to)
    }
}

/// Adds the name of an input and a line feed, or a zero byte in place of it.
pub(crate) fn add_name_line(
    colors: Option<&Colors<'_>>,
    place: Place<'_>,
    to: &mut Vec<u8>,
) -> Result<(), AllocError>
    ensures { OnOk result (to.new.items ≡ to.old.items ++ name_with (option_map (λ colors. plain_colors colors.now) colors.entry) (named place.entry) (codes "\n")) }
{
    add_name(colors, place, to)?;
    to.push(if place.null { 0 } else { b'\n' })?;
    Ok(())
}

/// Adds the name of an input.
fn add_name(
    colors: Option<&Colors<'_>>,
    place: Place<'_>,
    to: &mut Vec<u8>,
) -> Result<(), AllocError>
    ensures { OnOk result (to.new.items ≡ to.old.items ++ painted (paint_in (option_map (λ colors. plain_colors colors.now) colors.entry) Name) (named place.entry).name) }
{
    add_painted(paint_in(colors, Part::Name), place.name().as_bytes(), to)
}

/// Adds the number of a line and what is after it.
fn add_number(
    alloc: Global,
    colors: Option<&Colors<'_>>,
    prefix: Prefix<'_>,
    to: &mut Vec<u8>,
) -> Result<(), AllocError>
    ensures { let colors = option_map (λ colors. plain_colors colors.now) colors.entry in
        OnOk result (to.new.items ≡ to.old.items ++ number_with colors prefix.entry.number (mark_of colors prefix.entry.near)) }
{
    let number = format!(in alloc; "{}", prefix.number)?;
    add_painted(paint_in(colors, Part::Number), number.as_bytes(), to)?;
    add_mark(colors, prefix.near, to)
}

/// Adds what is after the name of an input and the number of a line.
fn add_mark(colors: Option<&Colors<'_>>, near: bool, to: &mut Vec<u8>) -> Result<(), AllocError>
    ensures { OnOk result (to.new.items ≡ to.old.items ++ mark_of (option_map (λ colors. plain_colors colors.now) colors.entry) near) }
{
    let mark = if near { "-" } else { ":" };
    add_painted(paint_in(colors, Part::Separator), mark.as_bytes(), to)
}

fn has_numbers(task: Task<'_>) -> bool
    ensures { result ≡ has_numbers (job task.entry) }
{
    match task {
        Task::Match(selection, _) => selection.numbers,
        Task::Replace(_) => false,
    }
}
