//! The law of rewrites, and the steps of `optimize` that obey it: what each makes of a node, and of parts of it.
#![tactic(auto)]

mod action;
pub mod flatten;
pub mod form_literal_bytes;
pub mod promote_1char_loops;
pub mod remove_empties;
pub mod simplify_brackets;
pub mod unroll_loops;

pub use action::PassAction;
