//! Strings by name.
ghost use Rattle.std.specs.Prelude.{◌≡◌, map, All, IfOk, IsTrue, length, slice_range, option_map};
ghost use Rattle.regress_base.specs.Table.{named};
ghost use Rattle.regress_properties.specs.Listed.{named_strings, strings_at, is_range_within, values_of, AreStringsAt, AreStrings};

use super::lookup::find_range;
use std::alloc::{AllocError, Global};

/// Makes the first strings with that name, or returns `None`. Each name has the half-open range of its strings in
/// `positions`, where each string has its half-open range in `points`.
pub(super) fn find_strings(
    alloc: Global,
    names: &[(&str, usize, usize)],
    positions: &[(usize, usize)],
    points: &[u32],
    name: &str,
) -> Result<Option<Vec<Vec<u32>>>, AllocError>
    requires { AreStrings positions.now points.now (map (λ n. (n.1, n.2)) names.now) }
    ensures { IfOk result (λ strings. option_map values_of strings ≡
        named name.now (map (λ n. named_strings positions.now points.now n.0.now n.1 n.2) names.now)) }
{
    match find_range(names, name) {
        Some((from, to)) => Ok(Some(strings_at(alloc, points, positions, from, to)?)),
        None => Ok(None),
    }
}

/// Returns the strings whose ranges are in the half-open range from `from` to `to` of `positions`.
fn strings_at(
    alloc: Global,
    points: &[u32],
    positions: &[(usize, usize)],
    from: usize,
    to: usize,
) -> Result<Vec<Vec<u32>>, AllocError>
    requires { AreStringsAt positions.now points.now from to }
    ensures { IfOk result (λ strings. values_of strings ≡ strings_at positions.now points.now from to) }
{
    strings(alloc, points, &positions[from..to])
}

/// Returns the strings whose code points are in these half-open ranges.
fn strings(
    alloc: Global,
    points: &[u32],
    positions: &[(usize, usize)],
) -> Result<Vec<Vec<u32>>, AllocError>
    requires { All (λ p. IsTrue (is_range_within (length points.now) p.0 p.1)) positions.now }
    ensures { IfOk result (λ strings. values_of strings ≡ map (λ p. slice_range points.now p.0 p.1) positions.now) }
{
    let mut strings = Vec::with_capacity(alloc, positions.len())?;
    for position in positions {
        let (from, to) = *position;
        strings.push(string_at(alloc, points, from, to)?)?;
    }
    Ok(strings)
}

/// Returns the string whose code points are in the half-open range from `from` to `to`.
fn string_at(alloc: Global, points: &[u32], from: usize, to: usize) -> Result<Vec<u32>, AllocError>
    requires { IsTrue (is_range_within (length points.now) from to) }
    ensures { IfOk result (λ string. string.items ≡ slice_range points.now from to) }
{
    Vec::from_slice(alloc, &points[from..to])
}
