//! The syntax of patterns: the syntax tree and what it matches (in `specs/`), the productions of the grammar that need
//! no recursion, and the syntax errors of a pattern that the grammar rejects.
#![tactic(auto)]

mod group;
mod groups;
mod names;
mod references;
mod scan;
mod scope;
mod times;

pub use group::{Group, parse_group};
pub use groups::Groups;
pub use names::{Name, name_text};
pub use references::{has_references_by_name, parse_group_number, parse_reference};
pub use regress_classes::{Value, class_escape_set};
pub use regress_lexer::{Change, Cursor, Dialect, Fault, FaultKind, fault};
pub use scan::{Findings, FirstErrors, scan as scan_groups};
pub use scope::Scope;
pub use times::parse_optional_quantifier;
