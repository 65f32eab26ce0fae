//! Syntax errors as sentences for people: what is wrong, and for the syntax of another engine, what to write.
#![tactic(auto)]

mod escapes;
mod groups;
mod hint;
mod hints;
mod message;
mod properties;
mod quantifiers;
mod sentences;
mod source;
mod subject;
mod text;
mod topic;

pub use message::Message;
pub use text::{sentence, sentence_of_text};
