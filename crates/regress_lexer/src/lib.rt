//! The lexical part of the parser, without tables and classes: the cursor, syntax errors, digits, escapes of
//! characters, quantifiers, modifiers and dialects.
#![tactic(auto)]

pub mod cursor;
pub mod dialect;
pub mod digits;
pub mod escape;
pub mod fault;
pub mod modifiers;
pub mod quantifier;

pub use cursor::Cursor;
pub use dialect::Dialect;
pub use fault::{Fault, FaultKind};
pub use modifiers::Change;
