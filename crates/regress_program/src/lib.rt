//! Patterns compiled into instructions: what a program matches, and whether it is searched by tables.
#![tactic(auto)]

pub mod blocks;
mod capturing;
mod characters;
mod collect;
mod compile;
mod compiler;
mod contents;
mod copies;
mod counts;
mod fault;
mod groups;
mod inner;
pub mod instruction;
pub mod leaf;
mod lookarounds;
mod loops;
mod nonlinear;
mod program;
pub mod ranges;
mod strings;
mod tabled;

pub use fault::CompileFault;
pub use nonlinear::Nonlinear;
pub use program::Program;
