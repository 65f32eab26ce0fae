//! A backtracking search with the programs of `regress_program`, within a step limit.
#![tactic(auto)]

mod alternatives;
mod backtracker;
mod beginning;
mod boundary;
mod cache;
mod input;
mod lead;
mod leaf_body;
mod machine;
mod run;
mod search;
mod step;
mod sweep;

pub use backtracker::Backtracker;
pub use cache::Cache;
pub use search::match_at;
