//! Parses classes: class escapes, properties, and classes in brackets without and with the flag v.
#![tactic(auto)]

pub mod class;
mod class_atom;
pub mod class_escape;
pub mod class_sets;
mod closing;
mod code_units;
mod gathered;
mod parameters;
pub mod property;

pub use class_escape::class_escape_set;
pub use class_sets::Value;
pub use parameters::Parameters;
