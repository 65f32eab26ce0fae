//! Writes the tree of a pattern as text, as JSON or as a picture.
#![tactic(auto)]

mod error;
mod fault;
mod location;
mod output;
mod request;
mod trees;

pub use error::ShowError;
pub use fault::{JsonText, write_json_fault};
pub use request::{Format, Request, Stage};
pub use trees::show;
