//! Matches as JSON.
ghost use Rattle.std.specs.Prelude.{◌≡◌, ◌++◌, All, IfOk, IfSome, None, OnOk, drop, flat_map, map, option_map, slice_index_or, string_bytes};
ghost use Rattle.regress_found.specs.Found.{IsInside};
ghost use Rattle.regress_tree.specs.Inside.{IsSpanInside};
ghost use Rattle.regress.specs.Compiled.{groups_of, match_of};
ghost use Rattle.regress.specs.Groups.{names_left, span_of};
ghost use Rattle.regex_lines.specs.Reply.{comma_before, group_json, groups_json, located_json, match_json, matches_json, name_json, part_json, matches_of, run_of};
ghost use Rattle.regex_lines.specs.InLine.{AreInText, HasOffsets};

use crate::runs::{Run, TextMatches};
use regress::{GroupNames, Match, Regex};
use regress_display::JsonText;
use std::alloc::{AllocError, Global};
use std::ops::Range;

/// Returns an object for each match, each on a line with `prefix` in front.
pub(crate) fn all_json(
    alloc: Global,
    regex: &Regex,
    prefix: &[u8],
    found: &[TextMatches<'_>],
) -> Result<Vec<u8>, AllocError>
    requires offsets { All (λ f. HasOffsets (run_of f.run)) found.now }
    requires inside { All AreInText found.now }
    ensures { IfOk result (λ bytes. bytes.items ≡ flat_map (matches_json (groups_of regex.now) prefix.now) (map matches_of found.now)) }
{
    let mut bytes = Vec::new(alloc);
    for text in found {
        add_json(alloc, regex, prefix, text, &mut bytes)?;
    }
    Ok(bytes)
}

/// Adds an object for each match in a text, each on a line with `prefix` in front.
fn add_json(
    alloc: Global,
    regex: &Regex,
    prefix: &[u8],
    text: &TextMatches<'_>,
    to: &mut Vec<u8>,
) -> Result<(), AllocError>
    requires offsets { HasOffsets (run_of text.now.run) }
    requires inside { AreInText text.now }
    ensures { OnOk result (to.new.items ≡ to.old.items ++ matches_json (groups_of regex.now) prefix.now (matches_of text.now)) }
{
    for found in &text.matches {
        add_match_json(alloc, regex, prefix, text.run, found, to)?;
    }
    Ok(())
}

/// Adds an object for a match on a line, with `prefix` in front.
pub(crate) fn add_match_json(
    alloc: Global,
    regex: &Regex,
    prefix: &[u8],
    run: Run<'_>,
    found: &Match<'_>,
    to: &mut Vec<u8>,
) -> Result<(), AllocError>
    requires offsets { HasOffsets (run_of run) }
    requires inside { IsInside run.text.now (match_of found.now) }
    ensures { OnOk result (to.new.items ≡ to.old.items ++ (prefix.now ++ match_json (run_of run.entry) (groups_of regex.now) (match_of found.now))) }
{
    to.extend_from_slice(prefix)?;
    to.extend_from_slice(match_json(alloc, regex, run, found)?.as_bytes())
}

/// Returns the members of the object of a match, and its end.
fn match_json(
    alloc: Global,
    regex: &Regex,
    run: Run<'_>,
    found: &Match<'_>,
) -> Result<String, AllocError>
    requires offsets { HasOffsets (run_of run) }
    requires inside { IsInside run.text.now (match_of found.now) }
    ensures { IfOk result (λ json. string_bytes json ≡ match_json (run_of run.entry) (groups_of regex.now) (match_of found.now)) }
{
    let part = part_json(alloc, run, Some(found.range()))?;
    let groups = groups_json(alloc, regex, run, found)?;
    Ok(format!(in alloc; "{part},\"groups\":[{groups}]}}\n")?)
}

/// Returns the objects of the groups of a match, in the order of their numbers.
fn groups_json(
    alloc: Global,
    regex: &Regex,
    run: Run<'_>,
    found: &Match<'_>,
) -> Result<String, AllocError>
    requires offsets { HasOffsets (run_of run) }
    requires inside { IsInside run.text.now (match_of found.now) }
    ensures { IfOk result (λ json. string_bytes json
        ≡ groups_json (run_of run.entry) (match_of found.now) 0 (map (λ c. c.name) (groups_of regex.now))) }
{
    let mut names = regex.group_names();
    let mut json = String::new(alloc);
    for number in 0..regex.group_count() {
        let name = next_name(&mut names);
        json.push_str(comma_before(number))?;
        json.push_str(&group_json(alloc, run, name, found.group(number + 1))?)?;
    }
    Ok(json)
}

/// Returns the name of the next group, if it has one.
fn next_name<'r>(names: &mut GroupNames<'r>) -> Option<&'r str>
    ensures first { option_map (λ name. name.now) result ≡ slice_index_or (names_left names.old) 0 None }
    ensures rest { names_left names.new ≡ drop 1 (names_left names.old) }
{
    match names.next() {
        Some(name) => name,
        None => None,
    }
}

/// Returns what is in front of the object of a group; the first one has the number 0.
fn comma_before(number: usize) -> &'static str
    ensures { result.now ≡ comma_before number }
{
    if number == 0 { "" } else { "," }
}

/// Returns the object of a group.
fn group_json(
    alloc: Global,
    run: Run<'_>,
    name: Option<&str>,
    span: Option<Range<usize>>,
) -> Result<String, AllocError>
    requires offsets { HasOffsets (run_of run) }
    requires inside { IfSome (span_of span) (IsSpanInside run.text.now) }
    ensures { IfOk result (λ json. string_bytes json ≡ group_json (run_of run.entry) (option_map (λ name. name.now) name.entry) (span_of span)) }
{
    let name = name_json(alloc, name)?;
    let part = part_json(alloc, run, span)?;
    Ok(format!(in alloc; "{{\"name\":{name},{part}}}")?)
}

/// Returns the name of a group as a string, or `null`.
fn name_json(alloc: Global, name: Option<&str>) -> Result<String, AllocError>
    ensures { IfOk result (λ json. string_bytes json ≡ name_json (option_map (λ name. name.now) name.entry)) }
{
    match name {
        Some(name) => format!(in alloc; "\"{}\"", JsonText(name)),
        None => String::from_str(alloc, "null"),
    }
}

/// Returns the members for a part of a text.
fn part_json(alloc: Global, run: Run<'_>, span: Option<Range<usize>>) -> Result<String, AllocError>
    requires offsets { HasOffsets (run_of run) }
    requires inside { IfSome (span_of span) (IsSpanInside run.text.now) }
    ensures { IfOk result (λ json. string_bytes json ≡ part_json (run_of run.entry) (span_of span)) }
{
    match span {
        Some(Range { start, end }) => located_json(
            alloc,
            run.start + start,
            run.start + end,
            &run.text[start..end],
        ),
        None => String::from_str(alloc, "\"span\":null,\"text\":null"),
    }
}

/// Returns the members for a text with this span.
fn located_json(alloc: Global, start: usize, end: usize, text: &str) -> Result<String, AllocError>
    ensures { IfOk result (λ json. string_bytes json ≡ located_json start end text.now) }
{
    let text = JsonText(text);
    Ok(format!(in alloc; "\"span\":[{start},{end}],\"text\":\"{text}\"")?)
}
