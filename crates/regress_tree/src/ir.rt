//! The intermediate representation: a pattern as a tree of nodes, with walks, copies, printing and the test whether a
//! tree is well formed.

mod brackets;
mod copies;
mod display;
mod groups;
pub mod held;
mod node;
mod node_tests;
mod reversal;
pub mod spine;
mod visit;
mod visit_mut;
mod walker;
mod well_formed;

pub use node::{Node, NodeList, Regex};
pub use regress_base::types::{AnchorType, Quantifier};
pub use visit::walk;
pub use visit_mut::walk_mut;
pub use walker::Walk;
