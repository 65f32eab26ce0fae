//! A validator for the keyword `pattern` of JSON Schema, as another crate would write it.
#![tactic(auto)]

mod validator;

pub use validator::{SchemaError, Violation, violations};
