//! What the functions for C do: handles, requests, statuses and results. include/regress.h and include/regress_front.h
//! list the statuses.
#![tactic(auto)]

pub mod bounds;
mod buffer;
pub mod compiling;
pub mod differing;
mod ends;
pub mod escaping;
pub mod expanding;
pub mod handle;
pub mod keeping;
pub mod limits;
pub mod list_handle;
pub mod listing;
mod loose;
pub mod match_list;
pub mod reasons;
pub mod replaced_handle;
pub mod replaced_text;
pub mod replacing;
mod reply;
mod request;
pub mod results;
pub mod searcher_handle;
pub mod searches;
pub mod sentences;
pub mod spanning;
pub mod splitting;
pub mod texts;
mod trees;

pub use reply::Reply;
