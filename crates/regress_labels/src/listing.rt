//! Lists inside boxes, which are cut off when they are long.

use crate::symbols::columns;
use std::alloc::{AllocError, Global};

/// The maximum width of a list in columns, without the note about omitted items.
const LIST_COLUMNS: u32 = 44;

/// A list of items, separated by spaces. After the first item that does not fit, none is written.
#[derive(Drop)]
pub(crate) struct Listing {
    text: String,
    columns: u32,
    /// The number of items written.
    written: usize,
    /// The number of items that do not fit.
    left_out: usize,
}

impl Listing {
    pub(crate) fn new(alloc: Global) -> Listing {
        Listing {
            text: String::new(alloc),
            columns: 0,
            written: 0,
            left_out: 0,
        }
    }

    /// Adds an item. The first one always fits.
    pub(crate) fn push(&mut self, item: &str) -> Result<(), AllocError> {
        let wider = self.columns.saturating_add(columns(item)).saturating_add(1);
        if self.left_out > 0 || (self.written > 0 && wider > LIST_COLUMNS) {
            self.left_out = self.left_out.saturating_add(1);
            return Ok(());
        }
        if self.written > 0 {
            self.text.push(' ')?;
        }
        self.columns = wider;
        self.written = self.written.saturating_add(1);
        self.text.push_str(item)
    }

    /// Returns whether the list has one item.
    pub(crate) fn is_single(&self) -> bool {
        self.written == 1 && self.left_out == 0
    }

    /// Returns the text, with the number of omitted items.
    pub(crate) fn finish(self, alloc: Global) -> Result<String, AllocError> {
        let left_out = self.left_out;
        let mut text = self.text;
        if left_out > 0 {
            text.push_str(&format!(in alloc; " … {left_out} more")?)?;
        }
        Ok(text)
    }
}
