//! Why the parts of a table are rejected.
ghost use Rattle.std.specs.Prelude.{◌≡◌, alloc_error};
ghost use Rattle.regress_unicode.specs.declared.tables_error.TablesError.TheVariants.{Memory};

use std::alloc::{AllocError, AllocFailed};

/// One of the two case mappings of a table.
#[derive(Clone, Copy, Debug, PartialEq, Eq)]
pub enum Which {
    /// Simple case folding.
    Fold,
    /// Upper case.
    Upper,
}

/// Why the parts of a table are rejected. The variants are in the order of the tests; each test is made for the folds
/// before the upper cases.
#[derive(Debug, Drop, thiserror::Error)]
pub enum TablesError {
    /// The ranges do not ascend, or two of them have a code point in common, such as a range from `a` to `z` after one
    /// that begins at `x`.
    #[error("RangeOrder({0:?})")]
    RangeOrder(Which),
    /// The first or the last code point of a range is mapped below 0 or above U+10FFFF, such as U+0005 with a delta of
    /// -6.
    #[error("TargetOutOfRange({0:?})")]
    TargetOutOfRange(Which),
    /// A canonical form has another canonical form: `a` is mapped to `b`, and `b` to `c`.
    #[error("NotIdempotent({0:?})")]
    NotIdempotent(Which),
    /// More than four code points have the same canonical form, which is counted as one of them: `b`, `c`, `d` and `e`
    /// are mapped to `a`.
    #[error("ClassTooLarge({0:?})")]
    ClassTooLarge(Which),
    /// A set of identifier characters has an ASCII member other than a letter, a digit or `_`, such as `-`.
    #[error("IdentifierPunctuation")]
    IdentifierPunctuation,
    /// A string is empty, or has a number above U+10FFFF.
    #[error("BadString")]
    BadString,
    /// An allocation failed. Nothing is known of the parts that were not tested before.
    #[error("out of memory")]
    Memory(AllocError),
}

impl From<AllocError> for TablesError {
    ghost from_gives = { λ _ error. error ≡ Memory alloc_error };

    fn from(given: AllocError) -> TablesError {
        TablesError::Memory(given)
    }
}

impl<T: Drop> From<AllocFailed<T>> for TablesError {
    ghost from_gives = { λ _ error. error ≡ Memory alloc_error };

    fn from(given: AllocFailed<T>) -> TablesError {
        TablesError::Memory(AllocError::from(given))
    }
}
