//! Replacing the matches of a pattern in a text by a template, splitting a text at them, and captures by name.
#![tactic(auto)]

mod context;
mod names;
mod reference;
mod replace;
mod split;

pub use names::named_capture;
pub use replace::{expand, replace_matches};
pub use split::{split_at_matches, split_spans, split_with_captures};
