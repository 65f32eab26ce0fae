//! What diagrams and explanations write of a pattern: labels, names of groups, sets and symbols.
#![tactic(auto)]

mod labels;
mod listing;
mod names;
mod sets;
mod symbols;
mod words;

pub use labels::{Label, anchor_words, flags_text, group_text, iterations_text, lookaround_words};
pub use names::{Names, group_names, name_of};
pub use sets::{Character, set_label, strings_label};
pub use symbols::{
    columns, columns_of, is_seen, joins_emoji, push_number, push_symbol, push_symbol_after, quoted,
};
pub use words::{set_of, set_words, single_character};
