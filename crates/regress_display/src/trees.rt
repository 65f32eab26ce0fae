//! Shows the trees of a pattern.
ghost use Rattle.std.specs.Prelude.{◌≡◌, ◌⊎◌, IfOk, IfErr, OnOk, All, chars};
ghost use Rattle.regress_arguments.specs.Output.{Took};
ghost use Rattle.regress_parse.specs.Source.{IsCodePoint};
ghost use Rattle.regress_parse.specs.Settled.{IsFaultIn};
ghost use Rattle.regress_lexer.specs.Dialects.{flags_in_force};
ghost use Rattle.regress_syntax.specs.Meaning.{setting_of};
ghost use Rattle.regress_tree.specs.Tree.{tree};
ghost use Rattle.regress_tree.specs.WellFormed.{IsWellFormed};
ghost use Rattle.regress_unicode.specs.TableOf.{table_of};
ghost use Rattle.regress_display.specs.Request.{setting_of_request, requested, table_asked};
ghost use Rattle.regress_display.specs.Ending.{IsDue, Leaves};
ghost use Rattle.regress_display.specs.Shown.{IsFirstOutput, IsFirstShown, IsOptimizedShown, IsOutput, IsParsed, IsShown, IsShownWith, shows_spans};
ghost use Rattle.regress_display.specs.declared.error.ShowError.TheVariants.{Memory, Output};

use crate::error::ShowError;
use crate::output::write_out;
use crate::request::{Format, Request, Stage};
use regress_base::util::code_points;
use regress_json::SpannedJson;
use regress_normalize::optimize;
use regress_parse::{PlacedFault, try_parse_in};
use regress_railroad::svg_with_titles;
use regress_spans::{Span, SpannedRegex, try_parse_with_spans_in};
use regress_tree::ir::Regex;
use regress_ucd::unicode_tables;
use regress_unicode::Tables;
use std::alloc::{AllocError, Global};
use std::io::Write;

/// How a tree is shown: the pattern's source, the spans of the tree's nodes in it, and the format. There are no spans if
/// they are not known or not shown.
#[derive(Clone, Copy)]
struct Written<'a> {
    pattern: &'a [u32],
    spans: &'a [Span],
    format: Format,
}

/// Writes what the request asks for, and flushes the output.
///
/// A picture is built completely before any of it is written. Of two trees, the first is flushed before the pattern is
/// optimized.
///
/// # Errors
/// - [`ShowError::Syntax`] if the pattern is rejected.
/// - [`ShowError::Memory`] if an allocation fails.
/// - [`ShowError::Output`] if a write fails.
pub fn show<W: Write>(alloc: Global, request: &Request<'_>, out: &mut W) -> Result<(), ShowError>
    ensures due { IfErr result (IsDue (requested request.now)) }
    ensures shown { OnOk result (Took (W.contents out.old) (W.contents out.new) (IsOutput (requested request.now))) }
    ensures leaves { IfErr result (Leaves (out.new ≡ out.old)
        (Took (W.contents out.old) (W.contents out.new) (IsFirstOutput (requested request.now)))) }
{
    let points = code_points(alloc, request.pattern)?;
    let mut parsed = parse(alloc, &points, request)?;
    let written = Written {
        pattern: &points,
        spans: &parsed.spans,
        format: request.format,
    };
    show_trees(alloc, &mut parsed.regex, &written, request.stage, out)
}

/// Parses a pattern, given as code points, as the request specifies.
fn parse(alloc: Global, points: &[u32], request: &Request<'_>) -> Result<SpannedRegex, PlacedFault>
    requires { All IsCodePoint points.now }
    ensures rejected { IfErr result (IsFaultIn request.now.dialect (setting_of_request (requested request.now)) points.now) }
    ensures parsed { IfOk result (IsParsed (shows_spans request.now.format request.now.stage)
        request.now.dialect (setting_of_request (requested request.now)) points.now) }
    ensures flags { IfOk result (λ r. r.regex.flags ≡ flags_in_force request.now.dialect request.now.flags) }
    ensures well_formed { IfOk result (λ r. IsWellFormed (tree r.regex.node)) }
{
    let tables = tables(alloc, request.small)?;
    parse_with(alloc, points, request, &tables)
}

/// Parses a pattern with these tables. Spans are recorded only if they are shown.
fn parse_with(
    alloc: Global,
    points: &[u32],
    request: &Request<'_>,
    tables: &Tables,
) -> Result<SpannedRegex, PlacedFault>
    requires { All IsCodePoint points.now }
    ensures rejected { let setting = setting_of (flags_in_force request.now.dialect request.now.flags) tables.now in
        IfErr result (IsFaultIn request.now.dialect setting points.now) }
    ensures parsed { let setting = setting_of (flags_in_force request.now.dialect request.now.flags) tables.now in
        IfOk result (IsParsed (shows_spans request.now.format request.now.stage) request.now.dialect setting points.now) }
    ensures flags { IfOk result (λ r. r.regex.flags ≡ flags_in_force request.now.dialect request.now.flags) }
    ensures well_formed { IfOk result (λ r. IsWellFormed (tree r.regex.node)) }
{
    if request.reports_spans() {
        return try_parse_with_spans_in(alloc, points, request.flags, tables, request.dialect);
    }
    match try_parse_in(alloc, points, request.flags, tables, request.dialect) {
        Ok(regex) => Ok(SpannedRegex {
            regex,
            spans: Vec::new(alloc),
        }),
        Err(fault) => Err(fault),
    }
}

fn tables(alloc: Global, small: bool) -> Result<Tables, AllocError>
    ensures { IfOk result (λ tables. table_of tables ≡ table_asked small) }
{
    if small {
        Tables::small(alloc)
    } else {
        unicode_tables(alloc)
    }
}

/// Shows the parsed pattern. The parsed tree is written and flushed before it is optimized.
fn show_trees<W: Write>(
    alloc: Global,
    regex: &mut Regex,
    written: &Written<'_>,
    stage: Stage,
    out: &mut W,
) -> Result<(), ShowError>
    requires { IsWellFormed (tree regex.old.node) }
    ensures shown { OnOk result (Took (W.contents out.old) (W.contents out.new)
        (IsShown stage written.now.format regex.old.flags (tree regex.old.node) written.now.spans.now)) }
    ensures failed { IfErr result (λ failure. (failure ≡ Memory) ⊎ (failure ≡ Output)) }
    ensures leaves { IfErr result (Leaves (out.new ≡ out.old) (Took (W.contents out.old) (W.contents out.new)
        (IsFirstShown stage written.now.format regex.old.flags (tree regex.old.node) written.now.spans.now))) }
{
    match stage {
        Stage::Parsed => write_tree(alloc, regex, written, "", out),
        Stage::Optimized => show_optimized(alloc, regex, written.pattern, written.format, out),
        Stage::Both => {
            write_tree(alloc, regex, written, "--\n", out)?;
            show_optimized(alloc, regex, written.pattern, written.format, out)
        }
    }
}

/// Optimizes the tree and shows it, without spans.
fn show_optimized<W: Write>(
    alloc: Global,
    regex: &mut Regex,
    pattern: &[u32],
    format: Format,
    out: &mut W,
) -> Result<(), ShowError>
    requires { IsWellFormed (tree regex.old.node) }
    ensures shown { OnOk result (Took (W.contents out.old) (W.contents out.new)
        (IsOptimizedShown format regex.old.flags (tree regex.old.node))) }
    ensures failed { IfErr result (λ failure. ((failure ≡ Memory) × (out.new ≡ out.old)) ⊎ (failure ≡ Output)) }
{
    optimize(alloc, regex)?;
    let written = Written {
        pattern,
        spans: &[],
        format,
    };
    write_tree(alloc, regex, &written, "", out)
}

/// Writes a tree and the text after it.
fn write_tree<W: Write>(
    alloc: Global,
    regex: &Regex,
    written: &Written<'_>,
    after: &str,
    out: &mut W,
) -> Result<(), ShowError>
    ensures written { OnOk result (Took (W.contents out.old) (W.contents out.new)
        (IsShownWith written.now.format regex.now.flags (tree regex.now.node) written.now.spans.now after.now)) }
    ensures failed { IfErr result (λ failure. ((failure ≡ Memory) × (out.new ≡ out.old)) ⊎ (failure ≡ Output)) }
{
    match written.format {
        Format::Text => write_out(regex, "", after, out),
        Format::Json => {
            let spans = written.spans;
            write_out(&SpannedJson { regex, spans }, "\n", after, out)
        }
        Format::Svg => {
            let picture = svg_with_titles(alloc, regex, written.pattern, written.spans)?;
            write_out(&picture, "\n", after, out)
        }
    }
}
