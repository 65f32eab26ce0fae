//! The encoding of trees as 32-bit words, for callers in other languages.
#![tactic(auto)]

mod encoding;
mod order;
mod parts;

pub use encoding::{encode, encoding_determines_the_tree};
pub use order::postorder_numbers;
