//! Matches, and the results of searches.
#![tactic(auto)]

mod fault;
mod found;
mod outcome;
mod room;

pub use fault::MemoryFault;
pub use found::Match;
pub use outcome::{Found, Outcome};
pub use room::push_within;
