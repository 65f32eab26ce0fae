//! The source text of a pattern.

use crate::scan::Scan;
use regress_parse::Span;
use std::alloc::Global;

/// A pattern, and what is known of it.
#[derive(Clone, Copy)]
pub struct Source<'a> {
    /// The allocator of the words.
    pub alloc: Global,
    /// The pattern as code points.
    pub pattern: &'a [u32],
    /// The names of its groups, as they are displayed.
    pub names: &'a [Option<String>],
    /// Its groups with modifiers, and where it ignores case.
    pub scan: &'a Scan,
}

impl<'a> Source<'a> {
    /// Returns the source text at a span; an empty one if the span is not inside the pattern.
    pub fn text(&self, span: Span) -> &'a [u32] {
        self.pattern.get(span.start..span.end).unwrap_or(&[])
    }
}
