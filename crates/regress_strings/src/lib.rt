//! Strings of bytes, for finding those that occur at a position of a text.
#![tactic(auto)]

mod keys;
mod link;
mod links;
mod order;
mod strings;

pub use strings::Strings;
