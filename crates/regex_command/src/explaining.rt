//! `explain`.
ghost use Rattle.std.specs.Prelude.{◌≡◌, ◌++◌, ℕ, List, true, Ok, IfOk, IfErr, chars, codes, map, option_map, string_bytes};
ghost use Rattle.regress_arguments.specs.Output.{Took};
ghost use Rattle.regress.specs.Compiled.{match_of};
ghost use Rattle.regex_lines.specs.Ending.{OrOutput, setting_in};
ghost use Rattle.regress_explain.specs.Page.{IsPageOf};
ghost use Rattle.regex_command.specs.Patterns.{AreMatchRanges, HasForm, IsAcceptedPattern, IsExplanationIn, MayFailToExplain, MayFailToFind, range_of};
ghost use Rattle.regex_options.specs.Request.{asked_form};

use crate::compiling::compiled;
use crate::pattern::Pattern;
use regex_lines::{Failure, print, reject};
use regex_options::Form;
use regress::Match;
use regress_base::util::code_points;
use regress_explain::{Matched, explain, page};
use regress_parse::SpannedRegex;
use regress_spans::try_parse_with_spans_in;
use regress_ucd::unicode_tables;
use std::alloc::{AllocError, Global};
use std::io::Write;
use std::ops::Range;

/// Writes an explanation of a pattern, or to `err` why it is rejected. Returns whether it is accepted.
pub(crate) fn print_explanation<'f, W: Write, E: Write>(
    alloc: Global,
    pattern: Pattern<'_>,
    form: Form<'_>,
    out: &mut W,
    err: &mut E,
) -> Result<bool, Failure<'f>>
    ensures explained { IfOk result (λ accepted. Took (W.contents out.old) (W.contents out.new)
        (IsExplanationIn pattern.entry.dialect (asked_form form.entry) accepted (setting_in pattern.entry.dialect pattern.entry.flags) pattern.entry.text.now)) }
    ensures quiet { result ≡ Ok true → err.new ≡ err.old }
    ensures first { IfErr result (OrOutput (out.new ≡ out.old)) }
    ensures due { IfErr result (MayFailToExplain pattern.entry.dialect (asked_form form.entry) (setting_in pattern.entry.dialect pattern.entry.flags) pattern.entry.text.now) }
{
    let points = code_points(alloc, pattern.text)?;
    let tables = unicode_tables(alloc)?;
    match try_parse_with_spans_in(alloc, &points, pattern.flags, &tables, pattern.dialect) {
        Ok(parsed) => {
            let text = explanation(alloc, pattern, form, &points, &parsed)?;
            print(text.as_bytes(), out)?;
            Ok(true)
        }
        Err(fault) => reject(alloc, fault, pattern.text, err),
    }
}

/// Returns an explanation of an accepted pattern: of its code points and its tree.
fn explanation<'f>(
    alloc: Global,
    pattern: Pattern<'_>,
    form: Form<'_>,
    points: &[u32],
    parsed: &SpannedRegex,
) -> Result<String, Failure<'f>>
    requires accepted { IsAcceptedPattern pattern.dialect (setting_in pattern.dialect pattern.flags) (chars pattern.text.now) }
    requires characters { points.now ≡ chars pattern.text.now }
    ensures form { IfOk result (λ text. HasForm pattern.entry.dialect (asked_form form.entry) (setting_in pattern.entry.dialect pattern.entry.flags) pattern.entry.text.now (string_bytes text)) }
    ensures due { IfErr result (MayFailToExplain pattern.entry.dialect (asked_form form.entry) (setting_in pattern.entry.dialect pattern.entry.flags) pattern.entry.text.now) }
{
    match form {
        Form::Lines => Ok(explain(alloc, points, parsed)?),
        Form::Page(None) => Ok(page_line(alloc, points, parsed, None)?),
        Form::Page(Some(text)) => {
            let found = found_in(alloc, pattern, text)?;
            let matched = Matched {
                text,
                ranges: &found.ranges,
                captures: &found.captures,
            };
            Ok(page_line(alloc, points, parsed, Some(matched))?)
        }
    }
}

/// Returns a page and a line feed.
fn page_line(
    alloc: Global,
    points: &[u32],
    parsed: &SpannedRegex,
    matched: Option<Matched<'_>>,
) -> Result<String, AllocError>
    ensures { IfOk result (λ text. (html : List ℕ)
        × IsPageOf points.now (option_map (λ matched. (matched.text.now, matched.ranges.now)) matched.entry) html × (string_bytes text ≡ html ++ codes "\n")) }
{
    let mut html = page(alloc, points, parsed, matched)?;
    html.push_str("\n")?;
    Ok(html)
}

/// The matches of a pattern in a text.
#[derive(Drop)]
struct Found {
    ranges: Vec<Range<usize>>,
    /// The ranges of the groups: those of the first match, then those of the next.
    captures: Vec<Option<Range<usize>>>,
}

/// Returns all matches of an accepted pattern in a text.
fn found_in<'f>(alloc: Global, pattern: Pattern<'_>, text: &str) -> Result<Found, Failure<'f>>
    requires { IsAcceptedPattern pattern.dialect (setting_in pattern.dialect pattern.flags) (chars pattern.text.now) }
    ensures ranges { IfOk result (λ found. AreMatchRanges pattern.entry.dialect (setting_in pattern.entry.dialect pattern.entry.flags) pattern.entry.text.now text.now found.ranges.items) }
    ensures due { IfErr result (MayFailToFind pattern.entry.dialect (setting_in pattern.entry.dialect pattern.entry.flags) pattern.entry.text.now) }
{
    let regex = compiled(alloc, pattern)?;
    let matches = regex.find_all(alloc, text)?;
    let ranges = ranges_of(alloc, &matches)?;
    let captures = captures_of(alloc, regex.group_count(), &matches)?;
    Ok(Found { ranges, captures })
}

fn ranges_of(alloc: Global, matches: &[Match<'_>]) -> Result<Vec<Range<usize>>, AllocError>
    ensures { IfOk result (λ ranges. ranges.items ≡ map range_of (map match_of matches.now)) }
{
    let mut ranges = Vec::new(alloc);
    for found in matches {
        ranges.push(found.range())?;
    }
    Ok(ranges)
}

/// Returns the ranges of the groups, from 1 up to `groups`, of each match.
fn captures_of(
    alloc: Global,
    groups: usize,
    matches: &[Match<'_>],
) -> Result<Vec<Option<Range<usize>>>, AllocError> {
    let mut captures = Vec::new(alloc);
    for found in matches {
        for number in 0..groups {
            captures.push(found.group(number + 1))?;
        }
    }
    Ok(captures)
}
