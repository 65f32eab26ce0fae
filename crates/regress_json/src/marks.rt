//! The span of a node, written at the end of its object.
ghost use Rattle.std.specs.Prelude.{◌≡◌, ◌++◌, Some, codes, drop};
ghost use Rattle.std.specs.Fmt.{WritesOnOk};
ghost use Rattle.std.specs.Slice.Iter.{iter_rest};
ghost use Rattle.regress_tree.specs.Tree.{tree};
ghost use Rattle.regress_json.specs.Json as text;
ghost use Rattle.regress_json.specs.Passed.{alternations};

use crate::sides::sides;
use regress_parse::Span;
use regress_tree::ir::Node;
use std::fmt::{Formatter, Write};
use std::{fmt, slice};

/// The spans of the nodes whose objects have not ended yet, in postorder. It is empty if no spans are given.
pub(crate) type Marks<'a> = slice::Iter<'a, Span>;

/// Ends the object of the next node, with its span, if it has one.
pub(crate) fn write_ending<W: Write>(marks: &mut Marks<'_>, f: &mut Formatter<W>) -> fmt::Result
    ensures written { WritesOnOk W.write_str_gives f.old result (text.ending (text.span_mark (iter_rest marks.old)) 0) f.new }
    ensures passed { iter_rest marks.new ≡ drop 1 (iter_rest marks.old) }
{
    match marks.next() {
        Some(span) => write_span(*span, f),
        None => f.write_str("}"),
    }
}

/// Writes a span, and ends the object.
fn write_span<W: Write>(span: Span, f: &mut Formatter<W>) -> fmt::Result
    ensures { WritesOnOk W.write_str_gives f.old result (text.span_or_none (Some span) ++ codes "}") f.new }
{
    let Span { start, end } = span;
    write!(f, ",\"span\":[{start},{end}]}}")
}

/// Skips the marks of the `Alt`s on the right spine of a right side: they have no objects of their own.
pub(crate) fn pass_alternations(marks: &mut Marks<'_>, right: &Node)
    ensures { iter_rest marks.new ≡ drop (alternations (tree right.now)) (iter_rest marks.old) }
{
    let mut rest = right;
    while let Some((_, right)) = sides(rest) {
        marks.next();
        rest = right;
    }
}
