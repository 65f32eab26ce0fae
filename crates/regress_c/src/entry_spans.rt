//! The functions that C calls for a tree with the spans of its nodes. include/regress_front.h documents them.
ghost use Rattle.std.specs.Prelude.{chars};
ghost use Rattle.regress_capi.specs.Request.{front_dialect, front_setting, IsRequest, IsTextRequest};
ghost use Rattle.regress_capi.specs.SpannedResults.{SpannedResult};

use regress_capi::spanning::{
    NodeSpan, write_encoding_of_text_with_spans, write_encoding_with_spans,
};
use std::alloc::Global;

/// Writes the encoding of the tree of a pattern in code points to `words`, and its length in words to `needed`; and the
/// span of each node, in the order of the words, to `spans`, and their number to `spans_needed`. Or, if the pattern is
/// rejected, writes the number of the kind of its syntax error to `kind`, and the code-point index to `position`.
///
/// Both are written only if both fit. Otherwise `words` and `spans` are unchanged.
///
/// # Errors
/// As `regress_front_parse_code_points`; the status is 3 if `words` or `spans` is too small.
#[unsafe(no_mangle)]
pub extern "C" fn regress_front_parse_code_points_with_spans(
    alloc: Global,
    pattern: &[u32],
    flags: u32,
    words: &mut [u32],
    needed: &mut usize,
    spans: &mut [NodeSpan],
    spans_needed: &mut usize,
    kind: &mut u32,
    position: &mut usize,
) -> u32
    ensures status { SpannedResult (IsRequest pattern.now flags 0) (front_dialect flags) (front_setting flags) pattern.now words.old spans.old
        result needed.new spans_needed.new kind.new position.new words.new spans.new }
{
    let report = write_encoding_with_spans(alloc, pattern, flags, words, spans);
    *needed = report.reply.needed;
    *spans_needed = report.spans_needed;
    *kind = report.reply.kind;
    *position = report.reply.position;
    report.reply.status
}

/// As `regress_front_parse_code_points_with_spans`, for a pattern in UTF-8. Spans and `position` count code points here
/// too.
///
/// # Errors
/// As `regress_front_parse_code_points_with_spans`; a pattern that is not UTF-8 is an invalid argument.
#[unsafe(no_mangle)]
pub extern "C" fn regress_front_parse_text_with_spans(
    alloc: Global,
    pattern: &[u8],
    flags: u32,
    words: &mut [u32],
    needed: &mut usize,
    spans: &mut [NodeSpan],
    spans_needed: &mut usize,
    kind: &mut u32,
    position: &mut usize,
) -> u32
    ensures status { SpannedResult (IsTextRequest pattern.now flags 0) (front_dialect flags) (front_setting flags) (chars pattern.now) words.old spans.old
        result needed.new spans_needed.new kind.new position.new words.new spans.new }
{
    let report = write_encoding_of_text_with_spans(alloc, pattern, flags, words, spans);
    *needed = report.reply.needed;
    *spans_needed = report.spans_needed;
    *kind = report.reply.kind;
    *position = report.reply.position;
    report.reply.status
}
