//! Warns of what people get wrong in patterns, with the position in the pattern.
#![tactic(auto)]

mod alternatives;
mod captures;
mod classes;
mod digits;
mod empty;
mod finder;
mod impossible;
mod kind;
mod members;
mod pattern;
mod repeated;
mod written;

pub use kind::{Warning, WarningKind};
pub use pattern::{remarks_of, warnings, warnings_of};
pub use regress_parse::{PlacedFault, Span};
pub use regress_spans::{Remark, SpannedRegex};
