//! Closes sets under case folding, and folds strings.
ghost use Rattle.std.specs.Prelude.{◌≡◌, ℕ, map, IfOk, List};
ghost use Rattle.regress_base.specs.Intervals.{Bounds};
ghost use Rattle.regress_classes.specs.ClassProductions.{closed_members};
ghost use Rattle.regress_classes.specs.ClassSets.{folded_strings};
ghost use Rattle.regress_classes.specs.ClassViews.{HasMembers, strings_of};
ghost use Rattle.regress_unicode.specs.TableOf.{table_of};

use crate::parameters::Parameters;
use regress_base::codepointset::CodePointSet;
use regress_base::sets::set_is_canonical;
use regress_unicode::{Tables, add_icase_code_points, fold};
use std::alloc::{AllocError, Global};

/// Returns the set, or its closure under case folding if the parameters ask for it.
#[inline(always)]
pub(crate) fn close(
    set: CodePointSet,
    tables: &Tables,
    parameters: &Parameters,
) -> Result<CodePointSet, AllocError>
    ensures { IfOk result (λ closed. (members : List Bounds) → HasMembers members set →
        HasMembers (closed_members (table_of tables.now) parameters.now members) closed) }
{
    if parameters.closes() {
        add_icase_code_points(set, tables)
    } else {
        Ok(set)
    }
}

/// Returns the strings, with each character folded if the parameters ask for it.
#[inline(always)]
pub(crate) fn fold_strings(
    strings: Vec<Vec<u32>>,
    tables: &Tables,
    parameters: &Parameters,
) -> Result<Vec<Vec<u32>>, AllocError>
    ensures { IfOk result (λ folded. strings_of folded.items ≡ folded_strings (table_of tables.now) parameters.now (strings_of strings.items)) }
{
    if parameters.closes() {
        let alloc = *strings.allocator();
        fold_each(alloc, &strings, tables)
    } else {
        Ok(strings)
    }
}

/// Returns the strings with each character folded.
fn fold_each(
    alloc: Global,
    strings: &[Vec<u32>],
    tables: &Tables,
) -> Result<Vec<Vec<u32>>, AllocError>
    ensures { IfOk result (λ folded. strings_of folded.items ≡ map (map (table_of tables.now).fold) (strings_of strings.now)) }
{
    let mut folded = Vec::with_capacity(alloc, strings.len())?;
    for string in strings {
        folded.push(fold_string(alloc, string, tables)?)?;
    }
    Ok(folded)
}

/// Returns the string with each character folded.
fn fold_string(alloc: Global, string: &[u32], tables: &Tables) -> Result<Vec<u32>, AllocError>
    ensures { IfOk result (λ folded. folded.items ≡ map (table_of tables.now).fold string.now) }
{
    string.iter().map(|c| fold(*c, tables)).collect(alloc)
}
