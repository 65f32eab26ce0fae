//! The calls of test cases for the two lowest crates: on sets, intervals, searches, UTF-8, plain values and tables. A
//! program compares their results with the expected ones.
#![tactic(auto)]

mod calls;
mod intervals;
mod lookups;
mod plain;
mod searches;
mod sets;
mod tables;
mod unicode;
mod utf8;
mod whole;

pub use calls::response;
