//! What is said of a part of a pattern.

use regress_parse::Span;

/// A sentence about a part of a pattern.
#[derive(Debug, Drop)]
pub struct Remark {
    /// Where the part is in the pattern.
    pub span: Span,
    /// The name of the kind of remark, such as `letter-range`.
    pub name: &'static str,
    /// The sentence, without a full stop.
    pub text: String,
}
