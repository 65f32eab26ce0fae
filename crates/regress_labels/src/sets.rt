//! Labels of sets of characters and of strings.
ghost use Rattle.regress_base.specs.Intervals.{IsCanonical};

use crate::labels::Label;
use crate::listing::Listing;
use crate::symbols::{push_symbol, quoted};
use regress_base::charclasses::{
    digit_intervals, line_terminator_intervals, white_space_intervals, word_intervals,
};
use regress_base::codepointset::{CODE_POINT_MAX, CodePointSet, Interval};
use regress_base::types::BracketContents;
use std::alloc::{AllocError, Global};
use std::boxed::BoxedSlice;

pub(crate) fn set_of_bytes(alloc: Global, bytes: &[u8]) -> Result<CodePointSet, AllocError> {
    let mut set = CodePointSet::new(alloc);
    for byte in bytes {
        set.add_one(u32::from(*byte))?;
    }
    Ok(set)
}

pub(crate) fn set_of_characters(alloc: Global, all: &[u32]) -> Result<CodePointSet, AllocError> {
    let mut set = CodePointSet::new(alloc);
    for c in all {
        if *c <= CODE_POINT_MAX {
            set.add_one(*c)?;
        }
    }
    Ok(set)
}

/// Returns whether a bracket is displayed by its complement, and the set that is displayed. A set that contains both
/// the first and the last code point is displayed by its complement.
pub(crate) fn written(
    alloc: Global,
    set: &BracketContents,
) -> Result<(bool, CodePointSet), AllocError> {
    if set.cps.contains(0) && set.cps.contains(CODE_POINT_MAX) {
        Ok((!set.invert, set.cps.inverted()?))
    } else {
        Ok((set.invert, set.cps.try_clone(alloc)?))
    }
}

/// A character, matched exactly or in either case.
#[derive(Clone, Copy)]
pub struct Character {
    /// The code point.
    pub c: u32,
    /// Whether it is matched in either case.
    pub either_case: bool,
}

impl Character {
    /// Returns a character that is matched exactly.
    pub fn plain(c: u32) -> Character {
        let either_case = false;
        Character { c, either_case }
    }
}

/// Returns the only character of a set, or the ASCII letter that the set contains in both cases.
pub(crate) fn only_character(intervals: &[Interval]) -> Option<Character> {
    match intervals {
        [only] if only.first() == only.last() => Some(Character::plain(only.first())),
        [upper, lower] => letter(*upper, *lower),
        // With the flag u, U+017F (long s) and U+212A (Kelvin sign) are case variants too.
        [upper, lower, other]
            if matches!(
                (upper.first(), other.first()),
                (0x53, 0x17F) | (0x4B, 0x212A)
            ) => { letter(*upper, *lower) }
        _ => None,
    }
}

/// Returns the lower-case letter if the two intervals are an ASCII letter in both cases.
fn letter(upper: Interval, lower: Interval) -> Option<Character> {
    let (first, second) = (upper.first(), lower.first());
    let are_two = upper.last() == first && lower.last() == second;
    if are_two && matches!(first, 0x41..=0x5A) && second == first + 0x20 {
        let (c, either_case) = (second, true);
        Some(Character { c, either_case })
    } else {
        None
    }
}

/// Returns the label of a set or, if `negated`, of its complement; `None` if it never matches.
///
/// # Errors
/// Returns [`AllocError`] if an allocation fails.
pub fn set_label(
    alloc: Global,
    negated: bool,
    set: CodePointSet,
) -> Result<Option<Label>, AllocError> {
    if set.is_empty() {
        return Ok(if negated {
            Some(Label::words(alloc, "any character"))
        } else {
            None
        });
    }
    let listing = listed(alloc, set)?;
    let front = match (negated, listing.is_single()) {
        (false, false) => "one of",
        (false, true) => "",
        (true, false) => "none of",
        (true, true) => "not",
    };
    Ok(Some(Label {
        front,
        text: listing.finish(alloc)?,
        after: "",
    }))
}

/// Lists the members of a set: the classes that it contains, and the intervals of the rest.
fn listed(alloc: Global, mut set: CodePointSet) -> Result<Listing, AllocError> {
    let mut listing = Listing::new(alloc);
    list_classes(alloc, &mut set, &mut listing)?;
    for interval in set.intervals() {
        list_interval(*interval, alloc, &mut listing)?;
    }
    Ok(listing)
}

/// Removes the classes that a set contains from it, and lists them; `\d` only if it is the whole set.
fn list_classes(
    alloc: Global,
    set: &mut CodePointSet,
    listing: &mut Listing,
) -> Result<(), AllocError> {
    if set.intervals().len() == 1 {
        list_class(alloc, set, &digit_intervals(), "\\d", listing)?;
    }
    list_class(alloc, set, &word_intervals(), "\\w", listing)?;
    list_class(alloc, set, spaces(alloc)?.intervals(), "\\s", listing)
}

/// Removes a class from a set, and lists it, if [`take`] does.
fn list_class(
    alloc: Global,
    set: &mut CodePointSet,
    class: &[Interval],
    name: &str,
    listing: &mut Listing,
) -> Result<(), AllocError>
    requires { IsCanonical class.now }
{
    if take(alloc, set, class)? {
        listing.push(name)?;
    }
    Ok(())
}

/// Returns the characters of `\s`.
fn spaces(alloc: Global) -> Result<CodePointSet, AllocError> {
    let mut set = CodePointSet::new(alloc);
    for interval in white_space_intervals() {
        set.add(interval)?;
    }
    for interval in line_terminator_intervals() {
        set.add(interval)?;
    }
    Ok(set)
}

/// Removes a class from a set if the set contains all of it and the rest does not become fragmented. Returns whether it
/// did.
fn take(alloc: Global, set: &mut CodePointSet, class: &[Interval]) -> Result<bool, AllocError>
    requires { IsCanonical class.now }
{
    let mut rest = set.try_clone(alloc)?;
    rest.remove(class)?;
    let is_all = count(rest.intervals()).saturating_add(count(class)) == count(set.intervals());
    if !is_all || rest.intervals().len() > set.intervals().len().saturating_add(2) {
        return Ok(false);
    }
    *set = rest;
    Ok(true)
}

/// Returns the number of code points in intervals.
fn count(intervals: &[Interval]) -> usize {
    let mut sum = 0_usize;
    for interval in intervals {
        sum = sum.saturating_add(interval.count_codepoints());
    }
    sum
}

/// Lists an interval: by its ends, or character by character if it has two or is a short run of punctuation, whose
/// order is not obvious.
fn list_interval(
    interval: Interval,
    alloc: Global,
    listing: &mut Listing,
) -> Result<(), AllocError> {
    let (first, last) = (interval.first(), interval.last());
    let more = last - first;
    if more < 2 || (more < 16 && is_punctuation(first) && is_punctuation(last)) {
        for c in interval.codepoints() {
            let mut item = String::new(alloc);
            push_symbol(c, alloc, &mut item)?;
            listing.push(&item)?;
        }
        return Ok(());
    }
    let mut item = String::new(alloc);
    push_symbol(first, alloc, &mut item)?;
    item.push('-')?;
    push_symbol(last, alloc, &mut item)?;
    listing.push(&item)
}

/// Returns whether an ASCII character is the space or punctuation.
fn is_punctuation(c: u32) -> bool {
    matches!(c, 0x20..=0x2F | 0x3A..=0x40 | 0x5B..=0x60 | 0x7B..=0x7E)
}

/// Returns the label of a set of strings, or `None` if it is empty.
///
/// # Errors
/// Returns [`AllocError`] if an allocation fails.
pub fn strings_label(
    alloc: Global,
    strings: &[BoxedSlice<u32>],
    icase: bool,
) -> Result<Option<Label>, AllocError> {
    if strings.is_empty() {
        return Ok(None);
    }
    let mut listing = Listing::new(alloc);
    for string in strings {
        listing.push(&quoted(alloc, string)?)?;
    }
    Ok(Some(Label {
        front: if strings.len() == 1 { "" } else { "one of" },
        text: listing.finish(alloc)?,
        after: if icase { "in either case" } else { "" },
    }))
}
