//! Case mapping of single code points.
ghost use Rattle.std.specs.Prelude.{◌≡◌, ℕ, IsTrue};
ghost use Rattle.regress_unicode.specs.FoldEntries.{mapped as mapped_of};
ghost use Rattle.regress_unicode.specs.ValidEntries.{is_in_order, are_targets_in_range};
ghost use Rattle.regress_unicode.specs.TableOf.{table_of};

use super::Tables;
use super::fold_range::FoldRange;

/// Returns what the entries map `c` to. A binary search.
pub(super) fn mapped(mappings: &[FoldRange], c: u32) -> u32
    requires in_order { IsTrue (is_in_order mappings.now) }
    requires in_range { IsTrue (are_targets_in_range mappings.now) }
    ensures { result ≡ mapped_of mappings.now c }
{
    match mappings.binary_search_by(|mapping| mapping.compare(c)) {
        Ok(position) => mappings[position].apply(c),
        Err(_) => c,
    }
}

/// Returns the simple case folding of `c` (ECMA-262, scf in Canonicalize).
///
/// # Complexity
/// A binary search in the entries.
///
/// # Examples
/// ```
/// let tables = Tables::small(alloc)?;
/// // K, and KELVIN SIGN
/// assert_eq!(rt; fold(0x4B, &tables), 0x6B);
/// assert_eq!(rt; fold(0x212A, &tables), 0x6B);
/// ```
pub fn fold(c: u32, tables: &Tables) -> u32
    ensures { result ≡ (table_of tables.now).fold c }
{
    mapped(&tables.folds, c)
}

/// Returns the upper case of `c`, if it is one code point, and else `c` (ECMA-262, Canonicalize without the flags u and
/// v).
///
/// # Complexity
/// A binary search in the entries.
///
/// # Examples
/// ```
/// let tables = Tables::small(alloc)?;
/// assert_eq!(rt; uppercase(0x6B, &tables), 0x4B);
/// // the upper case of LATIN SMALL LETTER SHARP S is two letters
/// assert_eq!(rt; uppercase(0xDF, &tables), 0xDF);
/// ```
pub fn uppercase(c: u32, tables: &Tables) -> u32
    ensures { result ≡ (table_of tables.now).uppercase c }
{
    mapped(&tables.uppers, c)
}
