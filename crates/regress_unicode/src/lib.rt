//! The Unicode data of patterns: case mappings, the characters of identifiers, and properties.
#![tactic(auto)]

ghost use Rattle.std.proofs.Props.{props};
ghost use Rattle.regress_unicode.specs.Parts.{parts_from, parts_with};
ghost use Rattle.regress_unicode.specs.SourceIndex.{IsIndexOf};
ghost use Rattle.regress_unicode.specs.ValidEntries.{IsSound};

mod caseless;
mod checks;
mod closure;
mod fold_range;
mod index;
mod lookup;
mod mapping;
mod new;
mod range;
mod readers;
mod shift;
mod small;
mod tables_error;
mod unfold;

pub use caseless::{are_caseless, fold_keeps_caseless, is_caseless, uppercase_keeps_caseless};
pub use closure::{add_icase_code_points, add_uppercase_code_points};
pub use fold_range::FoldRange;
use index::SourceIndex;
pub use mapping::{fold, uppercase};
pub use range::CodePointRange;
use regress_base::codepointset::CodePointSet;
pub use tables_error::{TablesError, Which};
pub use unfold::{expand_code_point, unfold_char, unfold_uppercase_char};

/// The Unicode data that the meaning of a pattern depends on: case mappings, the characters of identifiers, and named
/// sets of code points and of strings.
///
/// Every value satisfies these invariants: a canonical form is its own canonical form, at most four code points have
/// the same one, the ASCII characters of identifiers are letters, digits and `_`, and no string is empty.
#[derive(Debug, Drop)]
pub struct Tables {
    folds: Vec<FoldRange>,
    uppers: Vec<FoldRange>,
    /// Which entries of `folds` map code points to a given one.
    fold_index: SourceIndex,
    /// Likewise of `uppers`.
    upper_index: SourceIndex,
    id_start: CodePointSet,
    id_continue: CodePointSet,
    /// Whether the properties are those of Unicode, which are constants. The lists below are not read then.
    whole: bool,
    general_category: Vec<(String, CodePointSet)>,
    script: Vec<(String, CodePointSet)>,
    script_extensions: Vec<(String, CodePointSet)>,
    binary: Vec<(String, CodePointSet)>,
    strings: Vec<(String, Vec<Vec<u32>>)>,
    ghost sound: { IsSound (parts_with whole (parts_from folds.items uppers.items id_start id_continue general_category.items script.items script_extensions.items binary.items strings.items)) } by { Prim.hlevel props },
    ghost indexed: { IsIndexOf fold_index folds.items × IsIndexOf upper_index uppers.items } by { Prim.hlevel props },
}
