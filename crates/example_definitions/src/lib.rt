//! Worked examples for the definitions, computed on trees, tables, classes, names and patterns, in `proofs/`. No other
//! crate depends on this one, and it has no code.
#![tactic(auto)]
