//! Tests of `regress`, the examples of its doc comments, and tests of `example_schema`. They are in a crate of their own,
//! since a crate with tests is proved twice.
#![tactic(auto)]

#[cfg(test)]
mod tests;
