//! Prints the two trees of a pattern.
ghost use Rattle.std.specs.Prelude.{◌≡◌, ◌≢◌, ◌≤◌, ◌⊎◌, ◌++◌, All, Some, IfOk, IfErr, OnOk, chars};
ghost use Rattle.std.specs.Io.KnownBytes.{Appends};
ghost use Rattle.regress_front.specs.TableOf.{table_of};
ghost use Rattle.regress_front.specs.SmallTable.{small_table};
ghost use Rattle.regress_front.specs.Tree.{tree};
ghost use Rattle.regress_front.specs.Display.{printed};
ghost use Rattle.regex_front.specs.declared.failure.Failure.TheVariants.{Memory, Output};
ghost use Rattle.regex_front.specs.Printed.{IsAcceptedPattern, IsParsedText, IsOptimizedText, IsOutput};
ghost use Rattle.regress_arguments.specs.Output.{Took};
ghost use Rattle.regex_front.specs.Ending.{Ends, IsDue};

use crate::failure::Failure;
use regress_front::codepointset::CODE_POINT_MAX;
use regress_front::ir::Regex;
use regress_front::optimizer::parse_and_optimize;
use regress_front::parse::try_parse;
use regress_front::types::Flags;
use regress_front::unicode::Tables;
use regress_front::util::code_points;
use std::alloc::Global;
use std::io::{self, Write};

/// Prints the tree of a pattern, as parsed and then as optimized.
pub(crate) fn print_trees<W: Write>(
    alloc: Global,
    pattern: &str,
    flags: Flags,
    out: &mut W,
) -> Result<(), Failure>
    ensures ends { Ends (Some (chars pattern.now, flags)) result }
    ensures printed { OnOk result (Took (W.contents out.old) (W.contents out.new) (IsOutput (chars pattern.now, flags))) }
    ensures untouched { IfErr result (λ failure. failure ≢ Output → failure ≢ Memory → out.new ≡ out.old) }
    ensures out_of_memory { IfErr result (λ failure. failure ≡ Memory → (out.new ≡ out.old)
        ⊎ Took (W.contents out.old) (W.contents out.new) (IsParsedText (chars pattern.now, flags))) }
{
    let points = code_points(alloc, pattern)?;
    let tables = Tables::small(alloc)?;
    print_parsed(alloc, &points, flags, &tables, out)?;
    print_optimized(alloc, &points, flags, &tables, out)
}

/// Prints the parsed tree of a pattern, and the line `--`.
fn print_parsed<W: Write>(
    alloc: Global,
    points: &[u32],
    flags: Flags,
    tables: &Tables,
    out: &mut W,
) -> Result<(), Failure>
    requires in_range { All (λ c. c ≤ CODE_POINT_MAX) points.now }
    requires small { table_of tables.now ≡ small_table }
    ensures printed { OnOk result (Took (W.contents out.old) (W.contents out.new) (IsParsedText (points.now, flags))) }
    ensures due { IfErr result (IsDue (points.now, flags)) }
    ensures untouched { IfErr result (λ failure. failure ≢ Output → out.new ≡ out.old) }
{
    let parsed = try_parse(alloc, points, flags, tables)?;
    write_tree(&parsed, "--\n", out).map_err(|_| Failure::Output)
}

/// Prints the optimized tree of a pattern.
fn print_optimized<W: Write>(
    alloc: Global,
    points: &[u32],
    flags: Flags,
    tables: &Tables,
    out: &mut W,
) -> Result<(), Failure>
    requires in_range { All (λ c. c ≤ CODE_POINT_MAX) points.now }
    requires small { table_of tables.now ≡ small_table }
    requires accepted { IsAcceptedPattern (points.now, flags) }
    ensures printed { OnOk result (Took (W.contents out.old) (W.contents out.new) (IsOptimizedText (points.now, flags))) }
    ensures failed { IfErr result (λ failure. ((failure ≡ Memory) × (out.new ≡ out.old)) ⊎ (failure ≡ Output)) }
{
    let (optimized, done) = parse_and_optimize(alloc, points, flags, tables)?;
    done?;
    write_tree(&optimized, "", out).map_err(|_| Failure::Output)
}

/// Writes a tree and the text after it, and flushes the output, so that it is printed even if the program fails later.
fn write_tree<W: Write>(regex: &Regex, after: &str, out: &mut W) -> io::Result<()>
    ensures { OnOk result (Appends (W.contents out.old) (W.contents out.new) (printed (tree regex.now.node) ++ after.now)) }
{
    write!(out, "{regex}{after}")?;
    out.flush()
}
