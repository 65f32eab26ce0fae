//! Parses patterns with source positions: a span for each node of the tree. Lists the nodes in the order of the spans.
#![tactic(auto)]

mod pattern;
mod postorder;
mod remark;

pub use pattern::{try_parse_with_spans, try_parse_with_spans_in};
pub use postorder::nodes_in_postorder;
pub use regress_parse::{Span, SpannedRegex};
pub use remark::Remark;
