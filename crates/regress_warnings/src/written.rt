//! What is written and means something else in other engines: in a class, and as an escape.
ghost use Rattle.std.specs.Prelude.{◌≡◌, drop};
ghost use Rattle.std.specs.List.{list_any};
ghost use Rattle.regress_lexer.specs.Source.{char, is_at, is_one_of};
ghost use Rattle.regress_warnings.specs.Written.{is_alphanumeric, is_divided, divides, has_name, has_class_in_range, is_of_surrogates, is_above, escapes_letter, is_identity_escape};

use crate::members::NO_MEMBER;
use regress_base::codepointset::Interval;
use regress_lexer::digits::{is_decimal, is_letter};
use regress_parse::Span;

/// Returns whether a `|` is between a letter or a digit and a letter, a digit or an escape.
pub(crate) fn divides(written: &[u32]) -> bool
    ensures { result ≡ divides written.now }
{
    let mut rest = written;
    while let [a, others @ ..] = rest {
        if is_divided(*a, others) {
            return true;
        }
        rest = others;
    }
    false
}

/// Returns whether `a` is a letter or a digit, and a `|` and a letter, a digit or an escape are after it.
fn is_divided(a: u32, after: &[u32]) -> bool
    ensures { result ≡ is_divided a after.now }
{
    match after {
        [b, c, ..] => {
            is_alphanumeric(a)
                && *b == u32::from('|')
                && (is_alphanumeric(*c) || *c == u32::from('\\'))
        }
        _ => false,
    }
}

fn is_alphanumeric(c: u32) -> bool
    ensures { result ≡ is_alphanumeric c }
{
    is_letter(c) || is_decimal(c)
}

/// Returns whether `[` and `:` follow one another.
pub(crate) fn has_name(written: &[u32]) -> bool
    ensures { result ≡ has_name written.now }
{
    let mut rest = written;
    while let [c, others @ ..] = rest {
        if *c == u32::from('[') && is_colon_at(others) {
            return true;
        }
        rest = others;
    }
    false
}

fn is_colon_at(source: &[u32]) -> bool
    ensures { result ≡ is_at (char ":") source.now }
{
    match source {
        [c, ..] => *c == u32::from(':'),
        [] => false,
    }
}

/// Returns whether a part of a class is a range one of whose ends is no character, given its members.
pub(crate) fn has_class_in_range(members: &[u32]) -> bool
    ensures { result ≡ has_class_in_range members.now }
{
    let mut rest = members;
    while let [a, others @ ..] = rest {
        match others {
            [b, c, after @ ..] if *b == u32::from('-') => {
                if *a == NO_MEMBER || *c == NO_MEMBER {
                    return true;
                }
                rest = after;
            }
            _ => rest = others,
        }
    }
    false
}

/// Returns whether an interval has surrogates only.
pub(crate) fn has_surrogates(intervals: &[Interval]) -> bool
    ensures { result ≡ list_any is_of_surrogates intervals.now }
{
    let mut rest = intervals;
    while let [interval, others @ ..] = rest {
        if interval.first() >= 0xD800 && interval.last() <= 0xDFFF {
            return true;
        }
        rest = others;
    }
    false
}

/// Returns whether a code point is above U+FFFF.
pub(crate) fn has_above(written: &[u32]) -> bool
    ensures { result ≡ list_any is_above written.now }
{
    let mut rest = written;
    while let [c, others @ ..] = rest {
        if *c >= 0x10000 {
            return true;
        }
        rest = others;
    }
    false
}

/// Returns whether the source of a node with this span is an escape of a letter, other than one for a class or a control
/// character.
pub(crate) fn is_identity_escape(pattern: &[u32], span: Span) -> bool
    ensures { result ≡ is_identity_escape pattern.now span }
{
    if span.end < 2 || span.end - 2 != span.start {
        return false;
    }
    escapes_letter(pattern.get(span.start..).unwrap_or(&[]))
}

fn escapes_letter(source: &[u32]) -> bool
    ensures { result ≡ escapes_letter source.now }
{
    match source {
        [a, b, ..] => *a == u32::from('\\') && is_letter(*b) && !has_meaning(*b),
        _ => false,
    }
}

/// Returns whether an escape of this letter is a class or a control character.
fn has_meaning(c: u32) -> bool
    ensures { result ≡ is_one_of "dDsSwWtnvfr" c }
{
    matches!(
        c,
        0x64 | 0x44 | 0x73 | 0x53 | 0x77 | 0x57 | 0x74 | 0x6E | 0x76 | 0x66 | 0x72
    )
}
