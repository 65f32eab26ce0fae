//! Explanations of patterns in words: as lines of text, and as a page with a railroad diagram.
#![tactic(auto)]

mod conditions;
mod elements;
mod gathering;
mod html;
mod lengths;
mod listing;
mod markup;
mod matched;
mod outline;
mod shown;
mod source;
mod style;
mod subjects;
mod summary;
mod table;
mod text;

pub use html::page;
pub use matched::Matched;
pub use text::explain;
