//! The optimizer. It brings a tree into normal form in one traversal, children before parents, which returns facts about
//! each part to its parent.
#![tactic(auto)]

mod alternatives;
mod cat;
mod facts;
mod leaf;
mod optimizer;
mod traversal;
mod wrapper;

pub use optimizer::optimize;
