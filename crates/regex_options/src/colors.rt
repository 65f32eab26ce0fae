//! The colors of `match`.
ghost use Rattle.std.specs.Prelude.{◌≡◌, ◌==◌, IfOk, map, option_map};
ghost use Rattle.regex_options.specs.Assignment.{parts_of};
ghost use Rattle.std.specs.List.{slice_split};
ghost use Rattle.regex_options.specs.Colors.{are_parameters, colors_by, colors_of, is_among, is_given, is_valid, last_value, plain_colors};

use crate::assignment::name_and_value;
use std::alloc::{AllocError, Global};

/// Parameters of SGR (ECMA-48), such as `01;31`, for each part of the output. Without parameters a part has no color.
#[derive(Clone, Copy)]
pub struct Colors<'a> {
    /// Matches in selected lines.
    pub selected_match: &'a str,
    /// Matches in lines near selected ones.
    pub context_match: &'a str,
    /// The rest of selected lines.
    pub selected_line: &'a str,
    /// The rest of lines near selected ones.
    pub context_line: &'a str,
    /// The names of inputs.
    pub name: &'a str,
    /// The numbers of lines.
    pub number: &'a str,
    /// What is after these, and between lines that are not adjacent.
    pub separator: &'a str,
    /// Whether the colors of lines are exchanged where lines without a match are selected.
    pub exchanged: bool,
    /// Whether each change of a color clears the line to its right.
    pub clears: bool,
}

/// Parses the value of `GREP_COLORS` as GNU grep does. Without a value, as with an empty one, colors are those of GNU grep.
///
/// # Errors
/// Returns an error if an allocation fails.
pub fn parse_colors(alloc: Global, text: &str) -> Result<Colors<'_>, AllocError>
    ensures { IfOk result (λ colors. plain_colors colors ≡ colors_of text.now) }
{
    let items = items(alloc, text)?;
    Ok(colors_by(&items))
}

/// Returns the texts between colons.
fn items(alloc: Global, text: &str) -> Result<Vec<&str>, AllocError>
    ensures { IfOk result (λ items. map (λ item. item.now) items.items ≡ slice_split (λ b. b == 58) text.now) }
{
    text.split(':').collect(alloc)
}

/// Returns the colors by the items of the variable.
fn colors_by<'a>(items: &[&'a str]) -> Colors<'a>
    ensures { plain_colors result ≡ colors_by (map (λ item. item.now) items.now) }
{
    Colors {
        selected_match: last_value(items, &["mt", "ms"], "01;31"),
        context_match: last_value(items, &["mt", "mc"], "01;31"),
        selected_line: last_value(items, &["sl"], ""),
        context_line: last_value(items, &["cx"], ""),
        name: last_value(items, &["fn"], "35"),
        number: last_value(items, &["ln"], "32"),
        separator: last_value(items, &["se"], "36"),
        exchanged: is_given(items, "rv"),
        clears: !is_given(items, "ne"),
    }
}

/// Returns the value of the last item that has one of these names and a value, or `default`. An item that is not valid
/// ends the items.
fn last_value<'a>(items: &[&'a str], names: &[&str], default: &'a str) -> &'a str
    ensures { result.now ≡ last_value (map (λ name. name.now) names.now) default.now (map (λ item. item.now) items.now) }
{
    let mut last = default;
    for item in items {
        let (name, value) = name_and_value(item);
        if !is_valid(name, value) {
            return last;
        }
        if is_among(names, name) {
            last = value.unwrap_or(last);
        }
    }
    last
}

/// Returns whether an item has this name. An item that is not valid ends the items.
fn is_given(items: &[&str], wanted: &str) -> bool
    ensures { result ≡ is_given wanted.now (map (λ item. item.now) items.now) }
{
    for item in items {
        let (name, value) = name_and_value(item);
        if !is_valid(name, value) {
            return false;
        }
        if name == wanted {
            return true;
        }
    }
    false
}

fn is_among(names: &[&str], wanted: &str) -> bool
    ensures { result ≡ is_among wanted.now (map (λ name. name.now) names.now) }
{
    for name in names {
        if *name == wanted {
            return true;
        }
    }
    false
}

/// Returns whether an item is a name, or a name that is not empty and parameters.
fn is_valid(name: &str, value: Option<&str>) -> bool
    ensures { result ≡ is_valid name.now (option_map (λ value. value.now) value.entry) }
{
    match value {
        Some(value) => !name.is_empty() && are_parameters(value),
        None => true,
    }
}

/// Returns whether a text has nothing but digits and semicolons.
fn are_parameters(text: &str) -> bool
    ensures { result ≡ are_parameters text.now }
{
    for byte in text.as_bytes() {
        if !byte.is_ascii_digit() && *byte != b';' {
            return false;
        }
    }
    true
}
