//! The tree of a pattern as JSON.
#![tactic(auto)]

mod json;
mod law;
mod marks;
mod sides;

pub use json::{Json, SpannedJson};
pub use law::json_determines_the_pattern;
