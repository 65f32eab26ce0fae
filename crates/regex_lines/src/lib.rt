//! Searches in the lines of texts, what is written for them, and why a run of the program `regex` fails.
#![tactic(auto)]

mod failure;
mod inputs;
mod json;
mod matches;
mod paint;
mod painting;
mod place;
mod prefix;
mod printing;
mod reading;
mod reply;
mod rewriting;
mod runs;
mod searcher;
mod searching;
mod spans;
mod successor;
mod unread;
mod walk;
mod window;
mod words;

pub use failure::{
    Failure, Rejection, detached, read_failure, reject, report, report_paths, report_unread,
    write_rejection,
};
pub use inputs::{FileSearch, Searched, search_all};
pub use printing::{flush, print};
pub use reading::remove_line_feed;
pub use unread::{Reason, Unread, UnreadPath};
pub use walk::{Found, find_files};
