//! Escaping of texts, so that they can be used as patterns.
#![tactic(auto)]

mod characters;
mod law;
mod pattern;

pub use law::escaped_texts_match_themselves;
pub use pattern::escape;
