//! Lookups by name.
ghost use Rattle.std.specs.Prelude.{◌≡◌, map, option_copied, option_map, IfOk};
ghost use Rattle.regress_base.specs.Table.{named};
ghost use Rattle.regress_properties.specs.Listed.{values_of};
ghost use Rattle.regress_unicode.specs.Parts.{entry_of, sets_of, strings_of};

use regress_base::codepointset::CodePointSet;
use std::alloc::{AllocError, Global};

/// Returns a copy of the first set with that name, or `None`. Linear in the number of entries and in the size of the
/// set.
pub(super) fn find_set(
    alloc: Global,
    entries: &[(String, CodePointSet)],
    name: &str,
) -> Result<Option<CodePointSet>, AllocError>
    ensures { IfOk result (λ set. set ≡ named name.now (sets_of entries.now)) }
{
    match find(entries, name) {
        Some(set) => Ok(Some(set.try_clone(alloc)?)),
        None => Ok(None),
    }
}

/// Returns a copy of the first strings with that name, or `None`. Linear in the number of entries and in the size of
/// the strings.
pub(super) fn find_strings(
    alloc: Global,
    entries: &[(String, Vec<Vec<u32>>)],
    name: &str,
) -> Result<Option<Vec<Vec<u32>>>, AllocError>
    ensures { IfOk result (λ strings. option_map values_of strings ≡ named name.now (strings_of entries.now)) }
{
    match find(entries, name) {
        Some(strings) => Ok(Some(copy(alloc, strings)?)),
        None => Ok(None),
    }
}

/// Returns the value of the first entry with that name, or `None`. Linear in the number of entries.
fn find<'a, T>(entries: &'a [(String, T)], name: &str) -> Option<&'a T>
    ensures { option_copied result ≡
        named name.now (map entry_of entries.now) }
{
    for (entry, value) in entries {
        if entry.as_str() == name {
            return Some(value);
        }
    }
    None
}

/// Returns copies of these strings.
fn copy(alloc: Global, strings: &[Vec<u32>]) -> Result<Vec<Vec<u32>>, AllocError>
    ensures { IfOk result (λ copies. values_of copies ≡ map (λ string. string.items) strings.now) }
{
    let mut copies = Vec::with_capacity(alloc, strings.len())?;
    for string in strings {
        copies.push(Vec::from_slice(alloc, string)?)?;
    }
    Ok(copies)
}
