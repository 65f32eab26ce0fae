//! Reports the parts of a pattern that match otherwise than in ECMA-262, with their positions.
#![tactic(auto)]

mod case_mode;
mod in_ecma;
mod kind;
mod law;
mod parts;
mod pattern;
mod text;

pub use kind::{Difference, DifferenceKind};
pub use law::few_characters_differ_without_u;
pub use pattern::{differences, differences_of, remarks_of};
pub use regress_parse::{PlacedFault, Span};
pub use regress_spans::{Remark, SpannedRegex};
