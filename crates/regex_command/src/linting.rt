//! `lint`.
ghost use Rattle.std.specs.Prelude.{◌≡◌, ◌==◌, ◌++◌, ℕ, List, All, IfOk, IfErr, OnOk, Option, chars, length, string_bytes, map, zip};
ghost use Rattle.std.specs.List.{FoldsTo};
ghost use Rattle.regress_arguments.specs.Output.{Took};
ghost use Rattle.regress_spans.specs.Paired.{postorder};
ghost use Rattle.regress_spans.specs.Remarks.{said, said_by};
ghost use Rattle.regress_tree.specs.Tree.{tree};
ghost use Rattle.regex_lines.specs.Ending.{IsLate, OrOutput, setting_in};
ghost use Rattle.regress_parse.specs.Settled.{IsFaultIn};
ghost use Rattle.regress_front.specs.Meaning.{setting_of};
ghost use Rattle.regress_front.specs.Source.{IsCodePoint};
ghost use Rattle.regress_front.specs.declared.parse.Dialect.{Dialect};
ghost use Rattle.regress_tree.specs.Steps.{Setting};
ghost use Rattle.regex_command.specs.Patterns.{AreDifferencesIn, IsAcceptedPattern, IsListed, IsListedNext, IsReport, MayFailToLint, line_of};
ghost use Rattle.regex_command.specs.Remarks.{AreRemarks};
ghost use Rattle.regex_command.specs.Size.{IsSizeWarning, said_of_size};
ghost use Rattle.regex_command.specs.declared.size.SizeWarning.{SizeWarning};

use crate::pattern::Pattern;
use crate::size::size_remark;
use regex_lines::{Failure, print};
use regress::Dialect;
use regress_arguments::write_with_carets;
use regress_base::util::code_points;
use regress_differences::remarks_of as differences;
use regress_messages::sentence;
use regress_parse::PlacedFault;
use regress_spans::{Remark, Span, SpannedRegex, try_parse_with_spans_in};
use regress_ucd::unicode_tables;
use regress_unicode::Tables;
use regress_warnings::remarks_of as warnings;
use std::alloc::{AllocError, Global};
use std::io::Write;

/// How many code points of the pattern are shown at most before a position, and after it. A line has room for fewer.
const REACH: usize = 200;

/// Writes what in the dialect `Regress` may match otherwise than in ECMA-262, then what is warned of in the parts of a
/// pattern, and then what in its size. Returns whether nothing is written.
pub(crate) fn print_lint<'f, W: Write>(
    alloc: Global,
    pattern: Pattern<'_>,
    out: &mut W,
) -> Result<bool, Failure<'f>>
    ensures reported { IfOk result (λ clean. Took (W.contents out.old) (W.contents out.new)
        (IsReport pattern.entry.dialect clean (setting_in pattern.entry.dialect pattern.entry.flags) pattern.entry.text.now)) }
    ensures first { IfErr result (OrOutput (out.new ≡ out.old)) }
    ensures due { IfErr result (MayFailToLint pattern.entry.dialect (setting_in pattern.entry.dialect pattern.entry.flags) (chars pattern.entry.text.now)) }
{
    let points = code_points(alloc, pattern.text)?;
    let tables = unicode_tables(alloc)?;
    match try_parse_with_spans_in(alloc, &points, pattern.flags, &tables, pattern.dialect) {
        Ok(parsed) => {
            let mut remarks = remarks_on(alloc, pattern.dialect, &points, &parsed, &tables)?;
            add_size_remark(alloc, pattern, points.len(), &mut remarks)?;
            print_remarks(alloc, &points, &remarks, out)
        }
        Err(fault) => Err(rejection(alloc, fault, pattern.text, &points)),
    }
}

/// Returns why a pattern with these code points is rejected.
fn rejection<'f>(alloc: Global, fault: PlacedFault, pattern: &str, points: &[u32]) -> Failure<'f>
    ensures { (dialect : Dialect) (setting : Setting) (source : List ℕ) → IsFaultIn dialect setting source fault → MayFailToLint dialect setting source result }
{
    match fault {
        PlacedFault::Syntax { kind, position, .. } => {
            match (
                String::from_str(alloc, pattern),
                sentence(alloc, &kind, points, position),
            ) {
                (Ok(pattern), Ok(text)) => Failure::Syntax {
                    pattern,
                    text,
                    position,
                },
                _ => Failure::Memory,
            }
        }
        PlacedFault::Memory(_) => Failure::Memory,
    }
}

/// Adds what is said of the size of an accepted pattern.
fn add_size_remark<'f>(
    alloc: Global,
    pattern: Pattern<'_>,
    length: usize,
    remarks: &mut Vec<Remark>,
) -> Result<(), Failure<'f>>
    requires { IsAcceptedPattern pattern.dialect (setting_in pattern.dialect pattern.flags) (chars pattern.text.now) }
    ensures added { OnOk result ((warning : Option SizeWarning)
        × IsSizeWarning pattern.entry.dialect (setting_in pattern.entry.dialect pattern.entry.flags) pattern.entry.text.now warning
        × (said_by remarks.new.items ≡ said_by remarks.old.items ++ said_of_size length warning)) }
    ensures late { IfErr result IsLate }
{
    if let Some(remark) = size_remark(alloc, pattern, length)? {
        remarks.push(remark)?;
    }
    Ok(())
}

/// Returns what is said of the differences of a parsed pattern, and then of what is warned of.
fn remarks_on(
    alloc: Global,
    dialect: Dialect,
    pattern: &[u32],
    parsed: &SpannedRegex,
    tables: &Tables,
) -> Result<Vec<Remark>, AllocError>
    requires { All IsCodePoint pattern.now }
    ensures { IfOk result (λ remarks. AreRemarks dialect (setting_of parsed.now.regex.flags tables.now) pattern.now (tree parsed.now.regex.node) parsed.now.spans.items (said_by remarks.items)) }
{
    let mut remarks = differences_in(alloc, dialect, pattern, parsed, tables)?;
    let mut others = warnings(alloc, pattern, parsed)?;
    remarks.append(&mut others)?;
    Ok(remarks)
}

/// Returns what is said of the differences of a parsed pattern: nothing in the dialect `Ecma`.
fn differences_in(
    alloc: Global,
    dialect: Dialect,
    pattern: &[u32],
    parsed: &SpannedRegex,
    tables: &Tables,
) -> Result<Vec<Remark>, AllocError>
    requires { All IsCodePoint pattern.now }
    ensures { let t = tree parsed.now.regex.node in
        IfOk result (λ remarks. AreDifferencesIn dialect (setting_of parsed.now.regex.flags tables.now) pattern.now t
        (zip (postorder t) parsed.now.spans.items) (said_by remarks.items)) }
{
    match dialect {
        Dialect::Regress => differences(alloc, pattern, parsed, tables),
        Dialect::Ecma => Ok(Vec::new(alloc)),
    }
}

/// Writes the remarks, and returns whether there is none.
fn print_remarks<'f, W: Write>(
    alloc: Global,
    pattern: &[u32],
    remarks: &[Remark],
    out: &mut W,
) -> Result<bool, Failure<'f>>
    ensures written { IfOk result (λ _. Took (W.contents out.old) (W.contents out.new) (IsListed (said_by remarks.now))) }
    ensures clean { IfOk result (λ clean. clean ≡ (length (said_by remarks.now) == 0)) }
    ensures first { IfErr result (OrOutput (out.new ≡ out.old)) }
    ensures late { IfErr result IsLate }
{
    let mut text = Vec::new(alloc);
    add_remarks(alloc, pattern, remarks, &mut text)?;
    print(&text, out)?;
    Ok(remarks.is_empty())
}

/// Adds the remarks.
fn add_remarks(
    alloc: Global,
    pattern: &[u32],
    remarks: &[Remark],
    to: &mut Vec<u8>,
) -> Result<(), AllocError>
    ensures { OnOk result (FoldsTo IsListedNext to.old.items (map line_of (said_by remarks.now)) to.new.items) }
{
    for remark in remarks {
        add_remark(alloc, pattern, remark, to)?;
    }
    Ok(())
}

/// Adds the line of a remark, and below it the pattern with carets below its span.
fn add_remark(
    alloc: Global,
    pattern: &[u32],
    remark: &Remark,
    to: &mut Vec<u8>,
) -> Result<(), AllocError>
    ensures { OnOk result (IsListedNext to.old.items (line_of (said remark.now)) to.new.items) }
{
    let line = line_of(alloc, remark)?;
    to.extend_from_slice(line.as_bytes())?;
    let mut shown = Vec::new(alloc);
    show(alloc, pattern, remark.span, &mut shown)?;
    to.extend_from_slice(&shown)?;
    Ok(())
}

/// Writes the pattern with carets below a span. Only what is near its start is looked at, so that the time for all remarks
/// together is linear in the length of the pattern.
fn show(alloc: Global, pattern: &[u32], span: Span, to: &mut Vec<u8>) -> Result<(), AllocError> {
    let start = span.start.saturating_sub(REACH);
    let end = span.start.saturating_add(REACH).min(pattern.len());
    let mut text = String::new(alloc);
    for c in pattern.get(start..end).unwrap_or(&[]) {
        text.push(char::from_u32(*c).unwrap_or(char::REPLACEMENT_CHARACTER))?;
    }
    let marked = span.start.saturating_sub(start)..span.end.saturating_sub(start);
    write_with_carets(&text, marked, to).map_err(|_| AllocError)
}

/// Returns a line with the span of a remark in code points, its name and its text.
fn line_of(alloc: Global, remark: &Remark) -> Result<String, AllocError>
    ensures { IfOk result (λ line. string_bytes line ≡ line_of (said remark.now)) }
{
    let Span { start, end } = remark.span;
    let name = remark.name;
    let text = remark.text.as_str();
    Ok(format!(in alloc; "{start}..{end}: {name}: {text}\n")?)
}
