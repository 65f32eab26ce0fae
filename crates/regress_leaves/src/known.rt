//! The case mappings, with what a search knows of them.
ghost use Rattle.std.specs.Prelude.{◌≡◌, true};
ghost use Rattle.regress_unicode.specs.TableOf.{table_of};
ghost use Rattle.regress_leaves.specs.Known.{AreFactsOf, AreFactsOf-prop, HasAsciiCase};

use crate::case_facts::{CaseFacts, to_ascii_lowercase, to_ascii_uppercase};
use regress_base::types::Flags;
use regress_unicode::{Tables, fold, uppercase};

/// The case mappings, with what is precomputed about them.
#[derive(Clone, Copy)]
pub struct Known<'t> {
    /// The case mappings.
    pub tables: &'t Tables,
    /// What is precomputed about them.
    pub(crate) facts: CaseFacts,
    ghost holds: { AreFactsOf (table_of tables.now) facts } by { AreFactsOf-prop (table_of tables.now) facts },
}

impl<'t> Known<'t> {
    /// Returns the tables with what a pattern with these flags can use. [`Known::with_facts`] does not compute it anew.
    pub fn new(tables: &'t Tables, flags: Flags) -> Known<'t>
        ensures { result.tables.now ≡ tables.now }
    {
        Known::with_facts(tables, CaseFacts::find(tables, flags))
    }

    /// Returns the tables with what was found of them before.
    ///
    /// # Preconditions
    /// The facts are of these tables.
    pub fn with_facts(tables: &'t Tables, facts: CaseFacts) -> Known<'t>
        requires { AreFactsOf (table_of tables.now) facts }
        ensures { result.tables.now ≡ tables.now }
    {
        Known { tables, facts }
    }

    /// Returns whether the canonical form of each ASCII character (Canonicalize) is known to be its small letter with the
    /// flag `u`, and without it its capital letter, or itself if it is no letter, and that a character without case
    /// ([`is_caseless`]) has its canonical form alone.
    ///
    /// [`is_caseless`]: regress_unicode::is_caseless
    pub fn has_ascii_case(self, flags: Flags) -> bool
        ensures { result ≡ true → HasAsciiCase (record { flags = flags; table = table_of self.entry.tables.now }) }
    {
        if flags.unicode {
            self.facts.ascii_fold && self.facts.caseless_fold
        } else {
            self.facts.ascii_uppercase && self.facts.caseless_uppercase
        }
    }

    /// Returns the simple case folding of `c`.
    pub fn fold(self, c: u32) -> u32
        ensures { result ≡ (table_of self.entry.tables.now).fold c }
    {
        if self.facts.ascii_fold && c < 0x80 {
            to_ascii_lowercase(c)
        } else {
            fold(c, self.tables)
        }
    }

    /// Returns the upper case of `c`, if it is one code point, and else `c`.
    pub fn uppercase(self, c: u32) -> u32
        ensures { result ≡ (table_of self.entry.tables.now).uppercase c }
    {
        if self.facts.ascii_uppercase && c < 0x80 {
            to_ascii_uppercase(c)
        } else {
            uppercase(c, self.tables)
        }
    }
}
