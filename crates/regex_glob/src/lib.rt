//! Globs, which match names of files, as `fnmatch` of POSIX defines them.
#![tactic(auto)]

mod glob;
mod piece;
mod row;
mod token;

pub use glob::Glob;
pub use piece::{Characters, Piece};
