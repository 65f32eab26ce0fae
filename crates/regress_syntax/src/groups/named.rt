//! Capture groups by name.
ghost use Rattle.std.specs.Prelude.{◌≡◌, ◌≤◌, true, false, min, length};
ghost use Rattle.std.specs.List.{prefix_len};
ghost use Rattle.std.specs.List.Sorted.{IsPartitionPoint};
ghost use Rattle.std.specs.Ordering.{is_lt, is_eq};
ghost use Rattle.regress_base.specs.Limits.{max_capture_groups};
ghost use Rattle.regress_syntax.specs.Syntax.{groups_named};
ghost use Rattle.regress_syntax.specs.Numbering.{names_of, name_order, AreSortedByName};
ghost use Rattle.regress_syntax.specs.Productions.{has_names};
ghost use Rattle.regress_syntax.specs.Views.{names_in};

use crate::groups::Groups;
use crate::names::Name;
use std::cmp::Ordering;

impl Groups {
    /// Creates the groups with these names. `sorted` has the numbers of those that have one.
    ///
    /// # Preconditions
    /// `sorted` has the numbers of the named groups, from 1, in the order of their names and ascending for equal names.
    pub(crate) fn new(names: Vec<Option<Name>>, sorted: Vec<u32>) -> Groups
        requires { AreSortedByName (names_of names.items) sorted.items }
        ensures names { names_in result ≡ names_of names.items }
        ensures count { result.count ≡ min (length names.items) max_capture_groups }
    {
        Groups {
            count: u16::try_from(names.len()).unwrap_or(u16::MAX),
            named: is_any_named(&names),
            names,
            sorted,
        }
    }

    /// Returns whether some group has a name.
    pub(crate) fn has_names(&self) -> bool
        ensures { result ≡ has_names (names_in self.now) }
    {
        self.named
    }

    /// Returns the numbers, from 1 and ascending, of the groups with this name. A binary search finds the first.
    pub(crate) fn numbers_of(&self, name: &[char]) -> &[u32]
        ensures { result.now ≡ groups_named name.now 1 (names_in self.now) }
    {
        let from = &self.sorted[first_of(&self.names, &self.sorted, name)..];
        &from[..how_many_of(&self.names, from, name)]
    }
}

/// Whether some group has a name.
fn is_any_named(names: &[Option<Name>]) -> bool
    ensures { result ≡ has_names (names_of names.now) }
{
    names.iter().any(|name| name.is_some())
}

/// Compares the name of group `number` with `name`. A group without a name is greater than every name.
fn name_order(names: &[Option<Name>], number: u32, name: &[char]) -> Ordering
    ensures { result ≡ name_order (names_of names.now) name.now number }
{
    match names.get(number.saturating_sub(1) as usize) {
        Some(Some(other)) => other.as_slice().cmp(name),
        _ => Ordering::Greater,
    }
}

/// Returns the index of the first number in `sorted` whose group's name is not less than `name`.
fn first_of(names: &[Option<Name>], sorted: &[u32], name: &[char]) -> usize
    requires { AreSortedByName (names_of names.now) sorted.now }
    ensures within { result ≤ length sorted.now }
    ensures position { IsPartitionPoint (λ k. is_lt (name_order (names_of names.now) name.now k) ≡ true)
        (λ k. is_lt (name_order (names_of names.now) name.now k) ≡ false) sorted.now result }
{
    sorted.partition_point(|number| is_lower(names, *number, name))
}

/// Whether the name of group `number` is less than `name`.
fn is_lower(names: &[Option<Name>], number: u32, name: &[char]) -> bool
    ensures { result ≡ is_lt (name_order (names_of names.now) name.now number) }
{
    name_order(names, number, name).is_lt()
}

/// Returns the number of groups at the start of `numbers` that have this name.
fn how_many_of(names: &[Option<Name>], numbers: &[u32], name: &[char]) -> usize
    ensures value { result ≡ prefix_len (λ k. is_eq (name_order (names_of names.now) name.now k)) numbers.now }
    ensures within { result ≤ length numbers.now }
{
    numbers
        .iter()
        .take_while(|number| name_order(names, **number, name).is_eq())
        .count()
}
