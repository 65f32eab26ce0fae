//! Lowering of literals to leaves of a tree: bytes and small sets.
#![tactic(auto)]

pub mod literal;
