//! The calls of test cases on trees, literals and rewrites, and checks of what a rewritten tree keeps. A program
//! compares their results with the expected ones.
#![tactic(auto)]

mod census;
mod literals;
mod named;
mod nodes;
mod out_of_memory;
mod printing;
mod rewriting;
mod same;
mod shapes;

pub use census::Census;
pub use literals::{copy_pieces, lower};
pub use named::response;
pub use nodes::{ask, first_part, iteration, parts};
pub use printing::report_tree;
pub use rewriting::{check_kept, is_changed, pass, rewrite};
pub use same::is_same;
pub use shapes::is_normal;
