//! What is written in a class: an ASCII character twice, or a range from an upper-case to a lower-case letter.
ghost use Rattle.std.specs.Prelude.{◌≡◌, ◌≤◌, ◌==◌, take, drop, length};
ghost use Rattle.std.specs.List.{list_any};
ghost use Rattle.regress_lexer.specs.Source.{char, is_at};
ghost use Rattle.regress_warnings.specs.Classes.{is_letter_range, IsPartEnd, after_caret, inside, parts, have_twice, some_below, is_class, repeats_some, writes_letter_range};

use crate::classes::is_letter_range;
use regress_base::codepointset::CODE_POINT_MAX;
use regress_parse::Span;

/// Returns whether two parts of a class have the same ASCII character, given its members.
///
/// # Complexity
/// Linear in the number of members, 128 times at most.
pub(crate) fn repeats_some(members: &[u32]) -> bool
    ensures { result ≡ repeats_some members.now }
{
    some_twice(128, members)
}

/// Returns whether a part is a range from an upper-case to a lower-case letter, given the members of a class.
pub(crate) fn some_letter_range(inside: &[u32]) -> bool
    ensures { result ≡ writes_letter_range inside.now }
{
    let mut rest = inside;
    while let [first, after @ ..] = rest {
        let (last, others) = part_end(*first, after);
        if is_letter_range(*first, last) {
            return true;
        }
        rest = others;
    }
    false
}

/// Returns whether the source of a node with this span is a class in brackets.
pub(crate) fn is_class(pattern: &[u32], span: Span) -> bool
    ensures { result ≡ is_class pattern.now span }
{
    match pattern.get(span.start..) {
        Some([c, ..]) => *c == u32::from('['),
        _ => false,
    }
}

/// Returns what is between the brackets of a class with this span.
pub(crate) fn inside(pattern: &[u32], span: Span) -> &[u32]
    ensures { result.now ≡ inside pattern.now span }
{
    let length = span.end.saturating_sub(span.start).saturating_sub(2);
    after_caret(front(
        after_first(pattern.get(span.start..).unwrap_or(&[])),
        length,
    ))
}

/// Returns what is after the first code point.
fn after_first(source: &[u32]) -> &[u32]
    ensures { result.now ≡ drop 1 source.now }
{
    match source {
        [_, rest @ ..] => rest,
        [] => source,
    }
}

/// Returns the first code points, as many as there are up to `length`.
fn front(source: &[u32], length: usize) -> &[u32]
    ensures { result.now ≡ take length source.now }
{
    source.get(..length).unwrap_or(source)
}

/// Returns a source without a `^` at its start.
fn after_caret(source: &[u32]) -> &[u32]
    ensures { result.now ≡ after_caret source.now }
{
    match source {
        [c, rest @ ..] if *c == u32::from('^') => rest,
        _ => source,
    }
}

/// Returns whether two parts have the same character less than `limit`.
fn some_twice(limit: u32, inside: &[u32]) -> bool
    ensures { result ≡ some_below limit (λ c. have_twice c (parts inside.now)) }
{
    for c in 0..limit {
        if have_twice(c, inside) {
            return true;
        }
    }
    false
}

/// Returns whether two parts have this character.
fn have_twice(c: u32, inside: &[u32]) -> bool
    ensures { result ≡ have_twice c (parts inside.now) }
{
    let mut found = false;
    let mut rest = inside;
    while let [first, after @ ..] = rest {
        let (last, others) = part_end(*first, after);
        let has = *first <= c && c <= last && last <= CODE_POINT_MAX;
        if has && found {
            return true;
        }
        found = found || has;
        rest = others;
    }
    false
}

/// Returns the last character of a part that begins with this one, and the source after the part.
fn part_end(first: u32, after: &[u32]) -> (u32, &[u32])
    ensures part { IsPartEnd first after.now result.0 result.1.now }
    ensures shorter { length result.1.now ≤ length after.now }
{
    match after {
        [hyphen, last, others @ ..] if *hyphen == u32::from('-') => (*last, others),
        _ => (first, after),
    }
}
