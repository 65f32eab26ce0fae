//! The small table.
ghost use Rattle.std.specs.Prelude.{◌≡◌, ◌++◌, ◌∷◌, [], IfOk, OnOk};
ghost use Rattle.regress_base.specs.Intervals.{IsCanonical};
ghost use Rattle.regress_unicode.specs.Parts.{sets_of, strings_of};
ghost use Rattle.regress_unicode.specs.SmallTable.{small_folds, small_uppers, small_parts, small_table, set};

use super::{FoldRange, Tables};
use regress_base::codepointset::{CODE_POINT_MAX, CodePointSet, Interval};
use std::alloc::{AllocError, Global};

impl Tables {
    ghost use Rattle.std.specs.Prelude.{◌≡◌, IfOk};
    ghost use Rattle.regress_unicode.specs.SmallTable.{small_table};
    ghost use Rattle.regress_unicode.specs.TableOf.{table_of};

    /// Returns the small table: a selection from the data of Unicode with an example of each way in which case mappings
    /// relate characters.
    ///
    /// # Errors
    /// Returns [`AllocError`] if an allocation fails.
    ///
    /// # Examples
    /// ```
    /// let tables = Tables::small(alloc)?;
    /// assert_eq!(rt; fold(0x41, &tables), 0x61);
    /// assert!(rt; tables.script(alloc, "Ogham")?.is_some());
    /// assert!(rt; tables.script(alloc, "Greek")?.is_none());
    /// ```
    pub fn small(alloc: Global) -> Result<Tables, AllocError>
        ensures { IfOk result (λ tables. table_of tables ≡ small_table) }
    {
        Ok(Tables::from_sound_parts(
            small_folds(alloc)?,
            small_uppers(alloc)?,
            small_id_start(alloc)?,
            small_id_continue(alloc)?,
            small_general_category(alloc)?,
            small_script(alloc)?,
            small_script(alloc)?,
            small_binary(alloc)?,
            small_strings(alloc)?,
        ))
    }
}

fn small_folds(alloc: Global) -> Result<Vec<FoldRange>, AllocError>
    ensures { IfOk result (λ mappings. mappings.items ≡ small_folds) }
{
    let mappings = vec![in alloc;
        FoldRange::from(0x41, 26, 32, 1),
        FoldRange::from(0xB5, 1, 775, 1),
        FoldRange::from(0xC0, 23, 32, 1),
        FoldRange::from(0xD8, 7, 32, 1),
        FoldRange::from(0x17F, 1, -268, 1),
        FoldRange::from(0x1B8, 1, 1, 1),
        FoldRange::from(0x1BC, 1, 1, 1),
        FoldRange::from(0x1F8, 39, 1, 2),
        FoldRange::from(0x37F, 1, 116, 1),
        FoldRange::from(0x398, 1, 32, 1),
        FoldRange::from(0x39C, 1, 32, 1),
        FoldRange::from(0x3D1, 1, -25, 1),
        FoldRange::from(0x3F4, 1, -60, 1),
        FoldRange::from(0x212A, 1, -8383, 1),
        FoldRange::from(0x16E40, 32, 32, 1),
        FoldRange::from(0x1E900, 34, 34, 1),
    ]?;
    Ok(mappings)
}

fn small_uppers(alloc: Global) -> Result<Vec<FoldRange>, AllocError>
    ensures { IfOk result (λ mappings. mappings.items ≡ small_uppers) }
{
    let mappings = vec![in alloc;
        FoldRange::from(0x61, 26, -32, 1),
        FoldRange::from(0xB5, 1, 743, 1),
        FoldRange::from(0xE0, 23, -32, 1),
        FoldRange::from(0xF8, 7, -32, 1),
        FoldRange::from(0x1B9, 1, -1, 1),
        FoldRange::from(0x1BD, 1, -1, 1),
        FoldRange::from(0x1F9, 39, -1, 2),
        FoldRange::from(0x3B8, 1, -32, 1),
        FoldRange::from(0x3BC, 1, -32, 1),
        FoldRange::from(0x3D1, 1, -57, 1),
        FoldRange::from(0x3F3, 1, -116, 1),
        FoldRange::from(0x16E60, 32, -32, 1),
        FoldRange::from(0x1E922, 34, -34, 1),
    ]?;
    Ok(mappings)
}

fn small_id_start(alloc: Global) -> Result<CodePointSet, AllocError>
    ensures { IfOk result (λ set. set ≡ small_parts.id_start) }
{
    let intervals = vec![in alloc;
        Interval::new(0x41, 0x5A),
        Interval::new(0x61, 0x7A),
        Interval::new(0xC0, 0xD6),
        Interval::new(0xD8, 0xF6),
    ]?;
    Ok(CodePointSet::from_sorted_disjoint_intervals(intervals))
}

fn small_id_continue(alloc: Global) -> Result<CodePointSet, AllocError>
    ensures { IfOk result (λ set. set ≡ small_parts.id_continue) }
{
    let intervals = vec![in alloc;
        Interval::new(0x30, 0x39),
        Interval::new(0x41, 0x5A),
        Interval::new(0x5F, 0x5F),
        Interval::new(0x61, 0x7A),
        Interval::new(0xC0, 0xD6),
        Interval::new(0xD8, 0xF6),
    ]?;
    Ok(CodePointSet::from_sorted_disjoint_intervals(intervals))
}

/// Appends an entry with a named set.
fn push_entry(
    entries: &mut Vec<(String, CodePointSet)>,
    name: &str,
    intervals: &[Interval],
) -> Result<(), AllocError>
    requires { IsCanonical intervals.now }
    ensures { OnOk result (sets_of entries.new.items ≡ sets_of entries.old.items ++ set name.now intervals.now ∷ []) }
{
    let alloc = *entries.allocator();
    let intervals = Vec::from_slice(alloc, intervals)?;
    let name = String::from_str(alloc, name)?;
    entries.push((
        name,
        CodePointSet::from_sorted_disjoint_intervals(intervals),
    ))?;
    Ok(())
}

fn small_general_category(alloc: Global) -> Result<Vec<(String, CodePointSet)>, AllocError>
    ensures { IfOk result (λ entries. sets_of entries.items ≡ small_parts.general_category) }
{
    let mut entries = Vec::new(alloc);
    let (line, paragraph) = (Interval::new(0x2028, 0x2028), Interval::new(0x2029, 0x2029));
    push_entry(&mut entries, "Zl", &[line])?;
    push_entry(&mut entries, "Line_Separator", &[line])?;
    push_entry(&mut entries, "Zp", &[paragraph])?;
    push_entry(&mut entries, "Paragraph_Separator", &[paragraph])?;
    Ok(entries)
}

fn small_script(alloc: Global) -> Result<Vec<(String, CodePointSet)>, AllocError>
    ensures { IfOk result (λ entries. sets_of entries.items ≡ small_parts.script) }
{
    let mut entries = Vec::new(alloc);
    let ogham = Interval::new(0x1680, 0x169C);
    push_entry(&mut entries, "Ogam", &[ogham])?;
    push_entry(&mut entries, "Ogham", &[ogham])?;
    Ok(entries)
}

fn small_binary(alloc: Global) -> Result<Vec<(String, CodePointSet)>, AllocError>
    ensures { IfOk result (λ entries. sets_of entries.items ≡ small_parts.binary) }
{
    let mut entries = Vec::new(alloc);
    push_entry(&mut entries, "ASCII", &[Interval::new(0, 0x7F)])?;
    push_entry(&mut entries, "Any", &[Interval::new(0, CODE_POINT_MAX)])?;
    let hex_digits = [
        Interval::new(0x30, 0x39),
        Interval::new(0x41, 0x46),
        Interval::new(0x61, 0x66),
    ];
    push_entry(&mut entries, "ASCII_Hex_Digit", &hex_digits)?;
    Ok(entries)
}

/// Returns the keycap sequences: each key of a telephone, followed by the two code points that make it an emoji.
fn small_strings(alloc: Global) -> Result<Vec<(String, Vec<Vec<u32>>)>, AllocError>
    ensures { IfOk result (λ entries. strings_of entries.items ≡ small_parts.strings) }
{
    let mut keycaps = Vec::new(alloc);
    for key in b"#*0123456789" {
        keycaps.push(vec![in alloc; *key as u32, 0xFE0F, 0x20E3]?)?;
    }
    let entries = vec![in alloc; (String::from_str(alloc, "Emoji_Keycap_Sequence")?, keycaps)]?;
    Ok(entries)
}
