//! Searches with a pattern that is compiled into a program: by backtracking, and in linear time by tables where the
//! program is linear, or for one match where its lookarounds capture.
#![tactic(auto)]

mod compiling;
mod iteration;
mod limits;
mod linear_time;
mod matcher;
mod matcher_matches;
mod memory;
pub mod names;
mod nonlinear;
mod one_match;
mod required;
mod runs;
mod searches;

pub use limits::Limits;
pub use matcher::Matcher;
pub use matcher_matches::MatcherMatches;
pub use names::{Group, groups};
pub use nonlinear::Nonlinear;
pub use regress_backtrack::Cache;
pub use regress_found::{Found, Match, MemoryFault, Outcome};
pub use regress_prefilter::{first_bytes, next_candidate};
pub use regress_program::CompileFault;
