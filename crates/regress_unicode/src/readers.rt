//! Lookups in a table.

use super::Tables;
use super::lookup::{find_set, find_strings};
use regress_base::codepointset::CodePointSet;
use std::alloc::{AllocError, Global};

impl Tables {
    ghost use Rattle.std.specs.Prelude.{◌≡◌, option_map, IfOk};
    ghost use Rattle.regress_base.specs.Table.{named};
    ghost use Rattle.regress_properties.specs.Listed.{values_of};
    ghost use Rattle.regress_unicode.specs.TableOf.{table_of};

    /// Returns the characters that can begin an identifier (ECMA-262, ID_Start).
    pub fn id_start(&self) -> &CodePointSet
        ensures { result.now ≡ (table_of self.now).id_start }
    {
        &self.id_start
    }

    /// Returns the characters that can continue an identifier (ECMA-262, ID_Continue).
    pub fn id_continue(&self) -> &CodePointSet
        ensures { result.now ≡ (table_of self.now).id_continue }
    {
        &self.id_continue
    }

    /// Returns a copy of the code points with the general category `name`, or `None` if no entry has that name.
    ///
    /// If several entries have the name, the first one counts. Names are compared exactly.
    ///
    /// # Errors
    /// Returns [`AllocError`] if an allocation fails.
    ///
    /// # Complexity
    /// Linear in the number of entries and in the size of the set.
    pub fn general_category(
        &self,
        alloc: Global,
        name: &str,
    ) -> Result<Option<CodePointSet>, AllocError>
        ensures { IfOk result (λ set. set ≡ named name.now (table_of self.now).general_category) }
    {
        if self.whole {
            return regress_properties::general_category(alloc, name);
        }
        find_set(alloc, &self.general_category, name)
    }

    /// Returns a copy of the code points of the script `name`, or `None`. The lookup is that of
    /// [`general_category`](Tables::general_category).
    ///
    /// # Errors
    /// Returns [`AllocError`] if an allocation fails.
    pub fn script(&self, alloc: Global, name: &str) -> Result<Option<CodePointSet>, AllocError>
        ensures { IfOk result (λ set. set ≡ named name.now (table_of self.now).script) }
    {
        if self.whole {
            return regress_properties::script(alloc, name);
        }
        find_set(alloc, &self.script, name)
    }

    /// Returns a copy of the code points with the script extension `name`, or `None`. The lookup is that of
    /// [`general_category`](Tables::general_category).
    ///
    /// # Errors
    /// Returns [`AllocError`] if an allocation fails.
    pub fn script_extensions(
        &self,
        alloc: Global,
        name: &str,
    ) -> Result<Option<CodePointSet>, AllocError>
        ensures { IfOk result (λ set. set ≡ named name.now (table_of self.now).script_extensions) }
    {
        if self.whole {
            return regress_properties::script_extensions(alloc, name);
        }
        find_set(alloc, &self.script_extensions, name)
    }

    /// Returns a copy of the code points with the binary property `name`, or `None`. The lookup is that of
    /// [`general_category`](Tables::general_category).
    ///
    /// # Errors
    /// Returns [`AllocError`] if an allocation fails.
    pub fn binary(&self, alloc: Global, name: &str) -> Result<Option<CodePointSet>, AllocError>
        ensures { IfOk result (λ set. set ≡ named name.now (table_of self.now).binary) }
    {
        if self.whole {
            return regress_properties::binary(alloc, name);
        }
        find_set(alloc, &self.binary, name)
    }

    /// Returns a copy of the strings with the property of strings `name`, or `None`. The lookup is that of
    /// [`general_category`](Tables::general_category).
    ///
    /// # Errors
    /// Returns [`AllocError`] if an allocation fails.
    pub fn strings(&self, alloc: Global, name: &str) -> Result<Option<Vec<Vec<u32>>>, AllocError>
        ensures { IfOk result (λ strings. option_map values_of strings ≡ named name.now (table_of self.now).strings) }
    {
        if self.whole {
            return regress_properties::strings_with_property(alloc, name);
        }
        find_strings(alloc, &self.strings, name)
    }
}
