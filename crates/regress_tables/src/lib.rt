//! Programs matched by tables, in time linear in the length of the text if no back reference prevents it.
#![tactic(auto)]

mod bits;
mod cells;
mod characters;
mod ends;
mod evaluate;
mod fill;
mod filled;
mod first;
mod found;
mod keys;
mod leftmost;
mod linear;
mod memo;
mod memory;
mod numbers;
mod probe;
mod repeated;
mod repetitions;
mod resolve;
mod row_set;
mod rows;
mod runs;
mod search;
mod slots;
mod step;
mod symbols;
mod table;
mod tables;
mod text;
mod text_search;
mod walk;
mod walker;
mod words;

pub use found::Search;
pub use linear::Linear;
pub use text::TextSearch;
