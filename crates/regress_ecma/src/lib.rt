//! ECMA-262's grammar and its algorithm of matching, transcribed, and the theorems that the definitions of the other crates agree
//! with them.
#![tactic(auto)]

mod code_units;
mod law;
mod patterns;

pub use code_units::{characters_are_code_points, code_units_have_the_same_matches};
pub use law::{accepts_what_ecma_accepts, first_outcome_is_the_match};
pub use patterns::accepts_patterns_of_ecma;
