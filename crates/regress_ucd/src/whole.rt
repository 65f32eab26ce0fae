//! The complete table.
ghost use Rattle.std.specs.Prelude.{◌≡◌, IfOk};
ghost use Rattle.regress_unicode.specs.TableOf.{table_of};
ghost use Rattle.regress_ucd.specs.UnicodeTable.{unicode_table};

use super::data::cases::{FOLDS, UPPERS};
use super::tables::mappings;
use regress_unicode::Tables;
use std::alloc::{AllocError, Global};

/// Returns the table with all data of Unicode that patterns use, in the version
/// [`UNICODE_VERSION`](super::UNICODE_VERSION).
///
/// It has every property that ECMA-262 permits in `\p{..}`, with all aliases; the properties ID_Start and ID_Continue
/// of identifiers; simple case folding; and the upper case of Canonicalize. A caller builds the table once and passes
/// references to it.
///
/// # Errors
/// Returns [`AllocError`] if an allocation fails.
///
/// # Complexity
/// The case mappings and the characters of identifiers are copied to memory from `alloc`. A property is copied when it
/// is looked up.
///
/// # Examples
/// ```
/// let tables = unicode_tables(alloc)?;
/// // the simple case folding of LATIN CAPITAL LETTER SHARP S
/// assert_eq!(rt; fold(0x1E9E, &tables), 0xDF);
/// match tables.script(alloc, "Greek")? {
///     Some(greek) => assert!(rt; greek.contains(0x3B1)),
///     None => assert!(rt; false, "Unicode has this script"),
/// }
/// ```
pub fn unicode_tables(alloc: Global) -> Result<Tables, AllocError>
    ensures { IfOk result (λ tables. table_of tables ≡ unicode_table) }
{
    let folds = mappings(alloc, FOLDS)?;
    let uppers = mappings(alloc, UPPERS)?;
    Tables::with_unicode_properties(alloc, folds, uppers)
}
