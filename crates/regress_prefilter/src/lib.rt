//! What of the matches of a tree is known without matching: the positions at which they can begin, and a byte and a
//! literal that each of them contains.
#![tactic(auto)]

pub mod candidates;
pub mod first_pairs;
pub mod first_sets;
pub mod literal;
pub mod near;
pub mod required;

pub use candidates::{Candidates, FirstBytes, candidates_of, next_candidate_from};
pub use first_pairs::{first_pair, next_pair};
pub use first_sets::{first_bytes, next_candidate};
pub use literal::required_literal;
pub use near::{Near, near_byte};
pub use required::required_byte;
