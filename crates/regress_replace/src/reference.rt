//! The references of a template.
ghost use Rattle.std.specs.Prelude.{◌≡◌, ◌<◌, ◌+◌, ◌-◌, ◌*◌, ◌&&◌, None, Some, drop, if◌then◌else◌, length, nat_le, slice_index};
ghost use Rattle.std.specs.Char.{is_ascii_digit};
ghost use Rattle.regress_replace.specs.Parsed.{Parses};
ghost use Rattle.regress_replace.specs.Template.{name_reference, number_reference, reference};

/// A reference of a template.
#[derive(Clone, Copy)]
pub(crate) enum Reference<'a> {
    /// A `$`.
    Dollar,
    /// The text before the match.
    Before,
    /// The match.
    Matched,
    /// The text after the match.
    After,
    /// The capture of the group with this id, from 0.
    Group(usize),
    /// The capture of the group with this name.
    Named(&'a str),
}

/// Returns the reference that follows a `$` in a template, and the rest of the template; `None` if the `$` is taken as
/// it is.
pub(crate) fn parse_reference(
    after: &str,
    groups: usize,
    has_names: bool,
) -> Option<(Reference<'_>, &str)>
    ensures { Parses (reference groups has_names after.now) after.now 0 result }
{
    let first = *after.as_bytes().first()?;
    if !first.is_ascii() {
        return None;
    }
    let rest = after_first(after);
    match first {
        b'$' => Some((Reference::Dollar, rest)),
        b'`' => Some((Reference::Before, rest)),
        b'&' => Some((Reference::Matched, rest)),
        b'\'' => Some((Reference::After, rest)),
        b'0'..=b'9' => parse_number(usize::from(first - b'0'), rest, groups),
        b'<' if has_names => parse_name(rest),
        _ => None,
    }
}

/// Returns the text after its first byte, which is ASCII.
fn after_first(text: &str) -> &str
    requires some { 0 < length text.now }
    requires ascii { slice_index text.now 0 < 128 }
    ensures { result.now ≡ drop 1 text.now }
{
    &text[1..]
}

/// Returns the reference by a number, whose first digit is given, and the rest of the template.
fn parse_number(first: usize, after: &str, groups: usize) -> Option<(Reference<'_>, &str)>
    requires { first < 10 }
    ensures { Parses (number_reference groups first after.now) after.now 1 result }
{
    if let Some(number) = two_digits(first, after) {
        if number <= groups {
            return Some((group(number, groups)?, after_first(after)));
        }
    }
    Some((group(first, groups)?, after))
}

/// Returns the number with a digit and the one that a text starts with, if it starts with one.
fn two_digits(first: usize, text: &str) -> Option<usize>
    requires { first < 10 }
    ensures { result ≡ (if is_ascii_digit (slice_index text.now 0) then Some (first * 10 + (slice_index text.now 0 - 48)) else None) }
{
    match *text.as_bytes().first()? {
        second @ b'0'..=b'9' => Some(first * 10 + usize::from(second - b'0')),
        _ => None,
    }
}

/// Returns the reference to the group with a number, from 1.
fn group<'a>(number: usize, groups: usize) -> Option<Reference<'a>>
    ensures { result ≡ (if nat_le 1 number && nat_le number groups then Some (Reference.Group (number - 1)) else None) }
{
    if number >= 1 && number <= groups {
        Some(Reference::Group(number - 1))
    } else {
        None
    }
}

/// Returns the reference by a name, which ends at the first `>`, and the rest of the template.
fn parse_name(after: &str) -> Option<(Reference<'_>, &str)>
    ensures { Parses (name_reference after.now) after.now 1 result }
{
    let (name, rest) = after.split_once('>')?;
    Some((Reference::Named(name), rest))
}
