//! What the programs have in common: the parsing of their arguments, and how messages show them.
#![tactic(auto)]

mod environment;
mod flags;
mod pattern;
mod shown;

pub use environment::{ArgumentsError, arguments};
pub use flags::parse_flags;
pub use pattern::parse_pattern;
pub use shown::{write_visible, write_with_caret, write_with_carets};
