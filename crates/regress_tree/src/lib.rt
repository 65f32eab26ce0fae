//! The tree of a pattern (IR), and the definition of what it matches (`specs/Matching.antt`).
#![tactic(auto)]

pub mod ir;
pub mod small_sets;
