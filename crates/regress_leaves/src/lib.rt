//! What the leaves of a tree match in a text, and the decoding of the text.
#![tactic(auto)]

pub mod ascii;
mod ascii_sets;
pub mod case_facts;
pub mod characters;
pub mod known;
pub mod leaves;
pub mod reading;
pub mod references;
pub mod rules;
pub mod start;
pub mod test;
