//! The parts of a pattern, as an explanation has them, and their lines.
#![tactic(auto)]

mod lines;
mod parts;

pub use lines::{Line, lines_of, spans_of};
pub use parts::{Kind, Part, Parts};
