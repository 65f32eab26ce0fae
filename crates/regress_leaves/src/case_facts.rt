//! What is precomputed about case mappings.
ghost use Rattle.std.specs.Prelude.{◌≡◌, ◌↔◌, true, false, IsTrue};
ghost use Rattle.std.specs.Char.{to_ascii_lowercase, to_ascii_uppercase};
ghost use Rattle.regress_unicode.specs.TableOf.{table_of};
ghost use Rattle.regress_leaves.specs.Known.{AreFactsOf, HasAsciiFold, HasAsciiUppercase};

use regress_base::types::Flags;
use regress_unicode::{Tables, fold, fold_keeps_caseless, uppercase, uppercase_keeps_caseless};

/// What is precomputed about case mappings, once for any number of searches.
#[derive(Clone, Copy)]
pub struct CaseFacts {
    /// Whether the simple case folding of each ASCII character is known to be its small letter, or itself.
    pub(crate) ascii_fold: bool,
    /// Whether the upper case of each ASCII character is known to be its capital letter, or itself.
    pub(crate) ascii_uppercase: bool,
    /// Whether a character without case is known to have its simple case folding alone.
    pub(crate) caseless_fold: bool,
    /// Whether a character without case is known to have its upper case alone.
    pub(crate) caseless_uppercase: bool,
}

impl CaseFacts {
    /// Returns what a pattern with these flags can use. With the flag `u` it is about the simple case folding, also
    /// without `i`, which a modifier may set. With `i` alone it is about the upper case.
    ///
    /// # Complexity
    /// At most one lookup for each ASCII character, and linear in the number of entries.
    pub fn find(tables: &Tables, flags: Flags) -> CaseFacts
        ensures holds { AreFactsOf (table_of tables.now) result }
        ensures fold { flags.unicode ≡ true → HasAsciiFold (table_of tables.now) → result.ascii_fold ≡ true }
        ensures uppercase { flags.unicode ≡ false → flags.icase ≡ true → HasAsciiUppercase (table_of tables.now) → result.ascii_uppercase ≡ true }
    {
        let uppercase = flags.icase && !flags.unicode;
        CaseFacts {
            ascii_fold: flags.unicode && has_ascii_fold(tables),
            ascii_uppercase: uppercase && has_ascii_uppercase(tables),
            caseless_fold: flags.unicode && fold_keeps_caseless(tables),
            caseless_uppercase: uppercase && uppercase_keeps_caseless(tables),
        }
    }
}

/// Returns whether the simple case folding of each ASCII character is its small letter, or itself.
fn has_ascii_fold(tables: &Tables) -> bool
    ensures { IsTrue result ↔ HasAsciiFold (table_of tables.now) }
{
    for c in 0..0x80 {
        if fold(c, tables) != to_ascii_lowercase(c) {
            return false;
        }
    }
    true
}

/// Returns whether the upper case of each ASCII character is its capital letter, or itself.
fn has_ascii_uppercase(tables: &Tables) -> bool
    ensures { IsTrue result ↔ HasAsciiUppercase (table_of tables.now) }
{
    for c in 0..0x80 {
        if uppercase(c, tables) != to_ascii_uppercase(c) {
            return false;
        }
    }
    true
}

/// Returns the small letter of an ASCII capital letter, and any other character itself.
pub(crate) fn to_ascii_lowercase(c: u32) -> u32
    ensures { result ≡ to_ascii_lowercase c }
{
    if matches!(c, 0x41..=0x5A) {
        c + 0x20
    } else {
        c
    }
}

/// Returns the capital letter of an ASCII small letter, and any other character itself.
pub(crate) fn to_ascii_uppercase(c: u32) -> u32
    ensures { result ≡ to_ascii_uppercase c }
{
    if matches!(c, 0x61..=0x7A) {
        c - 0x20
    } else {
        c
    }
}
