//! The contract of a rewrite, the pass that applies one to a tree, and the rewrites of the Rust crate. `optimize` uses
//! none of these, but the steps of `regress_rewrite`.
#![tactic(auto)]

pub mod flatten;
pub mod form_literal_bytes;
pub mod has_group;
mod pass;
pub mod promote_1char_loops;
pub mod propagate_early_fails;
pub mod remove_empties;
mod rewrite;
pub mod rewrites;
pub mod unroll_loops;

pub use pass::run_pass;
pub use rewrite::Rewrite;
