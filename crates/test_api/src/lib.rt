//! Tests of the callers in `example_callers`, and of what test cases in data files cannot express, and the examples of doc
//! comments up to `regress_match`. They are in a crate of their own, since a crate with tests is proved twice.
#![tactic(auto)]

#[cfg(test)]
mod tests;
