//! The tables that test cases use.

use crate::response::difference_over;
use regress_ucd::unicode_tables;
use regress_unicode::Tables;
use std::alloc::{AllocError, Global};
use std::sync::Arc;
use test_notation::{Fault, Lines};

/// The small table, and the one of all of Unicode once a test case has used it.
#[derive(Drop)]
pub(crate) struct TablesOfLines {
    small: Arc<Tables>,
    unicode: Option<Arc<Tables>>,
}

impl TablesOfLines {
    /// Returns the small table only.
    pub(crate) fn new(alloc: Global) -> Result<TablesOfLines, AllocError> {
        Ok(TablesOfLines {
            small: Arc::new(alloc, Tables::small(alloc)?)?,
            unicode: None,
        })
    }

    /// Returns the table of all of Unicode, which is made at its first use.
    fn unicode(&mut self, alloc: Global) -> Result<&Arc<Tables>, AllocError> {
        let made = match self.unicode.take() {
            Some(made) => made,
            None => Arc::new(alloc, unicode_tables(alloc)?)?,
        };
        Ok(self.unicode.insert(made))
    }
}

/// A test case that begins with `unicode` uses the table of all of Unicode, any other the small one.
impl Lines for TablesOfLines {
    fn difference(&mut self, alloc: Global, line: &str) -> Result<Option<String>, Fault> {
        let Some(rest) = line.strip_prefix("unicode\t") else {
            return difference_over(alloc, line, &self.small);
        };
        match self.unicode(alloc) {
            Ok(tables) => difference_over(alloc, rest, tables),
            Err(_) => Err(Fault::Memory),
        }
    }
}
