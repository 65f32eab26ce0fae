//! The library for C. include/regress.h and include/regress_front.h document its functions.
#![tactic(auto)]

mod bound;
mod entry;
mod entry_differences;
mod entry_matches;
mod entry_regex;
mod entry_replace;
mod entry_replaced;
mod entry_searcher;
mod entry_spans;
