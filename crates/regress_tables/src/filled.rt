//! A program with its tables for a text.

use crate::evaluate::Input;

/// A program, with the full tables of all its routines for a text.
#[derive(Clone, Copy)]
pub(crate) struct Filled<'k, 't> {
    /// The text, the program and its tables.
    pub(crate) input: Input<'k, 't>,
    /// An upper bound for the ids of the groups that lookarounds set, which are below it.
    pub(crate) inner: usize,
}
