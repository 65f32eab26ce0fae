//! The Unicode data of patterns, complete for one version of Unicode.
#![tactic(auto)]

mod data;
mod tables;
mod whole;

pub use data::cases::UNICODE_VERSION;
pub use whole::unicode_tables;
