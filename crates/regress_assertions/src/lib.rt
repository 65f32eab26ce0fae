//! Assertions of a pattern that can never hold, such as `$` before a letter.
#![tactic(auto)]

mod edges;
mod marks;
mod never;
mod place;
mod set;

pub use marks::impossible_assertions;
pub use never::impossible_assertion;
