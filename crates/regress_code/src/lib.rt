//! What is known of a program before it is run: the next byte at each instruction, and where matches can begin.
#![tactic(auto)]

pub mod analysis;
mod choices;
mod code;
pub mod next_bytes;
pub mod possessive;
pub mod rows;
pub mod skips;

pub use code::Code;
