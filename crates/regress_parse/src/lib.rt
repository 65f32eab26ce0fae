//! Parses the text of a pattern into its tree.
#![tactic(auto)]

mod atom;
mod bound;
mod build;
mod fault;
mod heads;
mod parser;
mod pattern;
mod positions;
mod productions;
mod recording;
mod span;

pub use bound::node_bound;
pub use fault::{Error, ParseFault, PlacedFault, text_of_number};
pub use pattern::{
    SpannedRegex, parse_with_spans_in, try_parse, try_parse_in, try_parse_with_position,
};
pub use regress_lexer::{Dialect, FaultKind};
pub use span::Span;
