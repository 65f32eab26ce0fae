//! Lookups by name.
ghost use Rattle.std.specs.Prelude.{◌≡◌, IfOk, option_map};
ghost use Rattle.regress_base.specs.Table.{named};
ghost use Rattle.regress_properties.specs.Listed.{values_of};
ghost use Rattle.regress_properties.specs.Properties.{unicode_id_start, unicode_id_continue, unicode_general_category, unicode_script, unicode_script_extensions, unicode_binary, unicode_strings};

use super::data::names::{ID_CONTINUE, ID_START};
use super::data::strings::STRING_NAMES;
use super::ends::set_at;
use super::lists::{
    binary_properties, extended_scripts, general_categories, intervals, other_extended_scripts,
    other_scripts, points, scripts, strings,
};
use super::sets::{find_in, find_set};
use super::texts::find_strings;
use regress_base::codepointset::CodePointSet;
use std::alloc::{AllocError, Global};

/// Returns the characters that can begin an identifier (ID_Start).
///
/// # Errors
/// Returns [`AllocError`] if an allocation fails.
pub fn id_start(alloc: Global) -> Result<CodePointSet, AllocError>
    ensures { IfOk result (λ set. set ≡ unicode_id_start) }
{
    set_at(alloc, intervals(), ID_START.0, ID_START.1)
}

/// Returns the characters that can continue an identifier (ID_Continue).
///
/// # Errors
/// Returns [`AllocError`] if an allocation fails.
pub fn id_continue(alloc: Global) -> Result<CodePointSet, AllocError>
    ensures { IfOk result (λ set. set ≡ unicode_id_continue) }
{
    set_at(alloc, intervals(), ID_CONTINUE.0, ID_CONTINUE.1)
}

/// Returns the code points with the general category `name`, or `None` if there is none of that name.
///
/// The names are those that ECMA-262 permits in `\p{..}`, with all aliases. They are compared exactly.
///
/// # Errors
/// Returns [`AllocError`] if an allocation fails.
///
/// # Complexity
/// Linear in the number of names and in the size of the set.
///
/// # Examples
/// ```
/// match general_category(alloc, "Lu")? {
///     Some(uppercase) => assert!(rt; uppercase.contains(0x41)),
///     None => assert!(rt; false, "Unicode has this category"),
/// }
/// ```
pub fn general_category(alloc: Global, name: &str) -> Result<Option<CodePointSet>, AllocError>
    ensures { IfOk result (λ set. set ≡ named name.now unicode_general_category) }
{
    find_in(alloc, general_categories(), intervals(), name)
}

/// Returns the code points of the script `name`, or `None`. The lookup is that of [`general_category`].
///
/// # Errors
/// Returns [`AllocError`] if an allocation fails.
pub fn script(alloc: Global, name: &str) -> Result<Option<CodePointSet>, AllocError>
    ensures { IfOk result (λ set. set ≡ named name.now unicode_script) }
{
    find_set(alloc, scripts(), other_scripts(), intervals(), name)
}

/// Returns the code points with the script extension `name`, or `None`. The lookup is that of [`general_category`].
///
/// # Errors
/// Returns [`AllocError`] if an allocation fails.
pub fn script_extensions(alloc: Global, name: &str) -> Result<Option<CodePointSet>, AllocError>
    ensures { IfOk result (λ set. set ≡ named name.now unicode_script_extensions) }
{
    find_set(
        alloc,
        extended_scripts(),
        other_extended_scripts(),
        intervals(),
        name,
    )
}

/// Returns the code points with the binary property `name`, or `None`. The lookup is that of [`general_category`].
///
/// # Errors
/// Returns [`AllocError`] if an allocation fails.
pub fn binary(alloc: Global, name: &str) -> Result<Option<CodePointSet>, AllocError>
    ensures { IfOk result (λ set. set ≡ named name.now unicode_binary) }
{
    find_in(alloc, binary_properties(), intervals(), name)
}

/// Returns the strings with the property of strings `name`, longest first, or `None`. The lookup is that of
/// [`general_category`].
///
/// # Errors
/// Returns [`AllocError`] if an allocation fails.
pub fn strings_with_property(alloc: Global, name: &str) -> Result<Option<Vec<Vec<u32>>>, AllocError>
    ensures { IfOk result (λ strings. option_map values_of strings ≡ named name.now unicode_strings) }
{
    find_strings(alloc, STRING_NAMES, strings(), points(), name)
}
