//! Pictures as SVG with well-formed markup: they consist of elements of a fixed list, and each text is escaped.
#![tactic(auto)]

mod element;
mod escape;
mod law;
mod link;
mod sheet;

pub use element::{Element, PathCommand};
pub use escape::Escaped;
pub use law::texts_hold_no_markup;
pub use link::Area;
pub use sheet::{Linked, Sheet};
