//! Regular expressions with the syntax of ECMAScript: a pattern is compiled once, and then searched for in texts.
//!
//! The names are those of the Rust crate `regress`. Every call that allocates is passed the allocator, and returns an
//! error if an allocation fails.
#![tactic(auto)]

mod compiling;
mod ecma;
mod exact;
mod expanding;
mod failure;
mod found;
mod groups;
mod letters;
mod limits;
mod outside_pairs;
mod pattern;
mod replacing;
mod search;
mod searcher;
mod source;
mod splitting;

pub use ecma::{compiles_what_ecma_accepts, find_returns_the_match_of_ecma};
pub use failure::{Error, SearchError};
pub use found::Match;
pub use groups::{GroupNames, Groups, NamedGroups};
pub use letters::{FlagsError, parse_flags};
pub use limits::Options;
pub use pattern::Regex;
pub use regress_escape::escape;
pub use regress_front::parse::{Dialect, FaultKind};
pub use regress_front::types::Flags;
pub use regress_front::unicode::Tables;
pub use regress_match::Nonlinear;
pub use search::Matches;
pub use searcher::Searcher;
