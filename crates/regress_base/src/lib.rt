//! The lowest layer of the library: the plain values, flags and limits that every layer shares, sets of code points,
//! sets of bytes with their searches, and the bytes of UTF-8.
#![tactic(auto)]

pub mod bytesearch;
pub mod charclasses;
pub mod codepointset;
mod interval;
pub mod sets;
pub mod types;
pub mod util;
