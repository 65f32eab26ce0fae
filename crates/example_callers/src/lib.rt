//! Callers of the library, as another crate would write them: a linter, a recursive function, and more. Their tests are
//! in `test_api`.
#![tactic(auto)]

pub mod bounded;
pub mod caller;
pub mod caret;
pub mod length;
pub mod linter;
pub mod quickstart;
pub mod remarks;
pub mod slice;
pub mod underline;

pub use quickstart::{compile, find_matches, prepare};
