//! Searches in canonical lists of intervals.
ghost use Rattle.std.specs.Prelude.{◌≡◌, ◌↔◌, IsTrue};
ghost use Rattle.regress_base.specs.Intervals.{is_member, IsCanonical, CanonicalFormIsUnique};

use crate::interval::Interval;

/// Returns whether the intervals ascend with at least one code point missing between neighbors, so that none overlap
/// and none touch.
///
/// # Complexity
/// Linear in the number of intervals.
pub fn is_canonical(ivs: &[Interval]) -> bool
    ensures { IsTrue result ↔ IsCanonical ivs.now }
{
    let mut low = 0;
    for iv in ivs {
        if iv.first() < low {
            return false;
        }
        low = iv.last() + 2;
    }
    true
}

/// States that canonical lists with the same members are equal.
///
/// The function has no effect: a function whose proof needs the fact calls it.
pub fn canonical_form_is_unique()
    ensures { CanonicalFormIsUnique }
{}

/// Returns whether one of the intervals contains `cp`. A binary search.
pub(super) fn contains(ivs: &[Interval], cp: u32) -> bool
    requires { IsCanonical ivs.now }
    ensures { result ≡ is_member ivs.now cp }
{
    ivs.binary_search_by(|iv| iv.compare(cp)).is_ok()
}
