//! What the parts of a pattern match, in plain English.
#![tactic(auto)]

mod atoms;
mod characters;
mod class;
mod counts;
mod escape;
mod member;
mod nodes;
mod properties;
mod scan;
mod source;
mod texts;
mod units;

pub use atoms::{is_atom_after, is_one_atom, literal};
pub use characters::{character_words, name_of_character};
pub use nodes::words;
pub use scan::{Modifier, Scan, scanned};
pub use source::Source;
pub use texts::{TextEnd, shown, text_words};
pub use units::{has_character, is_as_written};
