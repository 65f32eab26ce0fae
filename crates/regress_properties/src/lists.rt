//! The long constants, each returned by a function: proofs that cite the function never unfold the constant, which
//! takes long.
ghost use Rattle.std.specs.Prelude.{◌≡◌, map};
ghost use Rattle.regress_properties.specs.Listed.{range_of};

use super::data::intervals::INTERVALS;
use super::data::names::{
    BINARY, GENERAL_CATEGORY, SCRIPT, SCRIPT_EXTENSIONS, SCRIPT_EXTENSIONS_REST, SCRIPT_REST,
};
use super::data::strings::{POINTS, STRINGS};

/// Returns the first and last code points, alternating, of the intervals of all sets.
pub(super) fn intervals() -> &'static [u32]
    ensures { result.now ≡ INTERVALS.now }
{
    INTERVALS
}

/// Returns the half-open range in `points` of each string.
pub(super) fn strings() -> &'static [(usize, usize)]
    ensures { result.now ≡ STRINGS.now }
{
    STRINGS
}

/// Returns the code points of all strings.
pub(super) fn points() -> &'static [u32]
    ensures { result.now ≡ POINTS.now }
{
    POINTS
}

/// Returns the names of general categories, each with its range in `intervals`.
pub(super) fn general_categories() -> &'static [(&'static str, usize, usize)]
    ensures { map (λ n. range_of n.0.now n.1 n.2) result.now ≡ map (λ n. range_of n.0.now n.1 n.2) GENERAL_CATEGORY.now }
{
    GENERAL_CATEGORY
}

/// Returns the names of scripts, each with its range in `intervals`.
pub(super) fn scripts() -> &'static [(&'static str, usize, usize)]
    ensures { map (λ n. range_of n.0.now n.1 n.2) result.now ≡ map (λ n. range_of n.0.now n.1 n.2) SCRIPT.now }
{
    SCRIPT
}

/// Returns the rest of the names of scripts.
pub(super) fn other_scripts() -> &'static [(&'static str, usize, usize)]
    ensures { map (λ n. range_of n.0.now n.1 n.2) result.now ≡ map (λ n. range_of n.0.now n.1 n.2) SCRIPT_REST.now }
{
    SCRIPT_REST
}

/// Returns the names of script extensions, each with its range in `intervals`.
pub(super) fn extended_scripts() -> &'static [(&'static str, usize, usize)]
    ensures { map (λ n. range_of n.0.now n.1 n.2) result.now ≡ map (λ n. range_of n.0.now n.1 n.2) SCRIPT_EXTENSIONS.now }
{
    SCRIPT_EXTENSIONS
}

/// Returns the rest of the names of script extensions.
pub(super) fn other_extended_scripts() -> &'static [(&'static str, usize, usize)]
    ensures { map (λ n. range_of n.0.now n.1 n.2) result.now ≡ map (λ n. range_of n.0.now n.1 n.2) SCRIPT_EXTENSIONS_REST.now }
{
    SCRIPT_EXTENSIONS_REST
}

/// Returns the names of binary properties, each with its range in `intervals`.
pub(super) fn binary_properties() -> &'static [(&'static str, usize, usize)]
    ensures { map (λ n. range_of n.0.now n.1 n.2) result.now ≡ map (λ n. range_of n.0.now n.1 n.2) BINARY.now }
{
    BINARY
}
