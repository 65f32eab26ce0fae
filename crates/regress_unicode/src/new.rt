//! Construction of a table from its parts.
ghost use Rattle.std.specs.Prelude.{◌≡◌, ◌≢◌, ◌<◌, [], alloc_error, IfOk, IfErr};
ghost use Rattle.regress_unicode.specs.declared.tables_error.TablesError.TheVariants.{Memory};
ghost use Rattle.regress_unicode.specs.Parts.{mappings_alone};
ghost use Rattle.regress_unicode.specs.ValidEntries.{AreValidEntries};
ghost use Rattle.regress_unicode.specs.ConstructionErrors.{IsFirstError, position};

use super::checks::{
    check_classes, check_idempotent, check_order, check_targets, collect_mapped, have_strings,
    have_word_ascii, sets_are_canonical,
};
use super::index::SourceIndex;
use super::{FoldRange, Tables, TablesError, Which};
use regress_base::codepointset::CodePointSet;
use regress_base::sets::set_is_canonical;
use std::alloc::{AllocError, Global};

/// Rejects entries that are no case mapping. Tests each code point of the entries, and sorts those that are mapped to
/// another one.
fn check_entries(
    alloc: Global,
    folds: &[FoldRange],
    uppers: &[FoldRange],
) -> Result<(), TablesError>
    ensures ok { IfOk result (λ _. AreValidEntries folds.now × AreValidEntries uppers.now) }
    ensures err { IfErr result (λ e. e ≢ Memory alloc_error → (position e < 8) × IsFirstError (mappings_alone folds.now uppers.now) e) }
{
    check_order(Which::Fold, folds)?;
    check_order(Which::Upper, uppers)?;
    check_targets(Which::Fold, folds)?;
    check_targets(Which::Upper, uppers)?;
    let fold_targets = collect_mapped(alloc, folds)?;
    let upper_targets = collect_mapped(alloc, uppers)?;
    check_idempotent(Which::Fold, folds, &fold_targets)?;
    check_idempotent(Which::Upper, uppers, &upper_targets)?;
    check_classes(Which::Fold, fold_targets)?;
    check_classes(Which::Upper, upper_targets)
}

impl Tables {
    ghost use Rattle.std.specs.Prelude.{◌≡◌, ◌≢◌, alloc_error, IfOk, IfErr};
    ghost use Rattle.regress_unicode.specs.declared.tables_error.TablesError.{TablesError as Rejection};
    ghost use Rattle.regress_unicode.specs.declared.tables_error.TablesError.TheVariants.{Memory};
    ghost use Rattle.regress_unicode.specs.Parts.{parts_from, with_unicode_properties, table_from};
    ghost use Rattle.regress_unicode.specs.ValidEntries.{AreValidEntries, IsSound};
    ghost use Rattle.regress_unicode.specs.ConstructionErrors.{Meets, IsFirstError};
    ghost use Rattle.regress_unicode.specs.TableOf.{table_of};

    /// Returns the table with these parts: the entries of both case mappings, the characters that can begin and
    /// continue an identifier, and the named sets and strings.
    ///
    /// If several entries of a list have the same name, the first one counts. Names are compared exactly, so an alias,
    /// such as `Lu` for `Uppercase_Letter`, is an entry of its own with the same members.
    ///
    /// # Errors
    /// Returns the first error that applies, in the order of [`TablesError`]. If an allocation fails, returns
    /// [`TablesError::Memory`], possibly instead of an error later in that order. The parts are dropped.
    ///
    /// # Complexity
    /// With n code points in the ranges of the entries: time n log n, and memory for n numbers. Linear in the named
    /// sets and strings.
    ///
    /// # Examples
    /// ```
    /// // the letters of ASCII and their cases
    /// let folds = vec![in alloc; FoldRange::from(0x41, 26, 32, 1)]?;
    /// let uppers = vec![in alloc; FoldRange::from(0x61, 26, -32, 1)]?;
    /// let mut letters = CodePointSet::new(alloc);
    /// letters.add(Interval::new(0x41, 0x5A))?;
    /// letters.add(Interval::new(0x61, 0x7A))?;
    /// let tables = Tables::new(
    ///     alloc,
    ///     folds,
    ///     uppers,
    ///     letters.try_clone(alloc)?,
    ///     letters,
    ///     Vec::new(alloc),
    ///     Vec::new(alloc),
    ///     Vec::new(alloc),
    ///     Vec::new(alloc),
    ///     Vec::new(alloc),
    /// )?;
    /// assert_eq!(rt; fold(0x41, &tables), 0x61);
    /// assert!(rt; tables.id_start().contains(0x61));
    /// ```
    pub fn new(
        alloc: Global,
        folds: Vec<FoldRange>,
        uppers: Vec<FoldRange>,
        id_start: CodePointSet,
        id_continue: CodePointSet,
        general_category: Vec<(String, CodePointSet)>,
        script: Vec<(String, CodePointSet)>,
        script_extensions: Vec<(String, CodePointSet)>,
        binary: Vec<(String, CodePointSet)>,
        strings: Vec<(String, Vec<Vec<u32>>)>,
    ) -> Result<Tables, TablesError>
        ensures table { IfOk result (λ tables. table_of tables ≡ table_from (parts_from folds.items uppers.items id_start id_continue general_category.items script.items script_extensions.items binary.items strings.items)) }
        ensures accepted { IfOk result (λ _. (rejection : Rejection) → Meets (parts_from folds.items uppers.items id_start id_continue general_category.items script.items script_extensions.items binary.items strings.items) rejection) }
        ensures rejected { IfErr result (λ rejection. rejection ≢ Memory alloc_error → IsFirstError (parts_from folds.items uppers.items id_start id_continue general_category.items script.items script_extensions.items binary.items strings.items) rejection) }
    {
        check_entries(alloc, &folds, &uppers)?;
        if !have_word_ascii(&id_start, &id_continue) {
            return Err(TablesError::IdentifierPunctuation);
        }
        if !have_strings(&strings) {
            return Err(TablesError::BadString);
        }
        set_is_canonical(&id_start);
        set_is_canonical(&id_continue);
        sets_are_canonical(&general_category);
        sets_are_canonical(&script);
        sets_are_canonical(&script_extensions);
        sets_are_canonical(&binary);
        Ok(Tables::from_sound_parts(
            folds,
            uppers,
            id_start,
            id_continue,
            general_category,
            script,
            script_extensions,
            binary,
            strings,
        ))
    }

    /// Returns the table with these parts, as [`new`](Tables::new) does, without tests and without allocations. The
    /// parts can be constants with a proof that they are valid.
    ///
    /// # Preconditions
    /// No error of [`TablesError`] applies to the parts.
    pub fn from_sound_parts(
        folds: Vec<FoldRange>,
        uppers: Vec<FoldRange>,
        id_start: CodePointSet,
        id_continue: CodePointSet,
        general_category: Vec<(String, CodePointSet)>,
        script: Vec<(String, CodePointSet)>,
        script_extensions: Vec<(String, CodePointSet)>,
        binary: Vec<(String, CodePointSet)>,
        strings: Vec<(String, Vec<Vec<u32>>)>,
    ) -> Tables
        requires { IsSound (parts_from folds.items uppers.items id_start id_continue general_category.items script.items script_extensions.items binary.items strings.items) }
        ensures { table_of result ≡ table_from (parts_from folds.items uppers.items id_start id_continue general_category.items script.items script_extensions.items binary.items strings.items) }
    {
        let fold_index = SourceIndex::new(&folds);
        let upper_index = SourceIndex::new(&uppers);
        Tables {
            folds,
            uppers,
            fold_index,
            upper_index,
            id_start,
            id_continue,
            whole: false,
            general_category,
            script,
            script_extensions,
            binary,
            strings,
        }
    }

    /// Returns the table with these case mappings, and with the characters of identifiers and the properties of
    /// Unicode. Properties are constants: one is copied when it is looked up.
    ///
    /// # Errors
    /// Returns [`AllocError`] if an allocation fails.
    ///
    /// # Preconditions
    /// No error of [`TablesError`] applies to the case mappings.
    pub fn with_unicode_properties(
        alloc: Global,
        folds: Vec<FoldRange>,
        uppers: Vec<FoldRange>,
    ) -> Result<Tables, AllocError>
        requires folds { AreValidEntries folds.items }
        requires uppers { AreValidEntries uppers.items }
        ensures { IfOk result (λ tables. table_of tables ≡ table_from (with_unicode_properties folds.items uppers.items)) }
    {
        let fold_index = SourceIndex::new(&folds);
        let upper_index = SourceIndex::new(&uppers);
        Ok(Tables {
            folds,
            uppers,
            fold_index,
            upper_index,
            id_start: regress_properties::id_start(alloc)?,
            id_continue: regress_properties::id_continue(alloc)?,
            whole: true,
            general_category: Vec::new(alloc),
            script: Vec::new(alloc),
            script_extensions: Vec::new(alloc),
            binary: Vec::new(alloc),
            strings: Vec::new(alloc),
        })
    }
}
