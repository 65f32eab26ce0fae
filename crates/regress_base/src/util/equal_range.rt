//! The range of the elements equal to a key.
ghost use Rattle.std.specs.Prelude.{◌≡◌, ◌≤◌, length};
ghost use Rattle.std.specs.List.Sorted.{IsNonDecreasingBy};
ghost use Rattle.std.specs.Fn.{ComputesKey};
ghost use Rattle.std.specs.Ordering.{ordering_index};
ghost use Rattle.std.specs.declared.cmp.Ordering.{Ordering};
ghost use Rattle.regress_base.specs.Ranges.{IsEqualRange, SplitsAt};

use std::cmp::Ordering;
use std::ops::Range;

/// Returns the half-open range of the indices of the elements for which `f` returns `Equal`.
///
/// If the results of `f` along `s` are `Less`, then `Equal`, then `Greater`, the range is exact. It is empty if there
/// is no `Equal`, and then its bounds are the index at which an equal element would be inserted. For results in any
/// other order the range is within bounds, and otherwise unspecified.
///
/// # Preconditions
/// `f` can always be called.
///
/// # Complexity
/// Two binary searches.
pub fn equal_range_by<T, F: FnMut(&T) -> Ordering>(s: &[T], mut f: F) -> Range<usize>
    requires { F.IsAlwaysCallable f }
    ensures in_order { result.start ≤ result.end }
    ensures in_bounds { result.end ≤ length s.now }
    ensures equal { (ord : T → Ordering) → ComputesKey F.FnMut ord f
        → IsNonDecreasingBy (λ x. ordering_index (ord x)) s.now
        → IsEqualRange ord s.now result.start result.end }
{
    let start = boundary(s, 0, &mut f, Ordering::Equal);
    let end = boundary(s, start, &mut f, Ordering::Greater);
    start..end
}

/// Returns the least index, `low` or greater, at which `f` returns `least` or greater.
fn boundary<T, F: FnMut(&T) -> Ordering>(
    s: &[T],
    mut low: usize,
    f: &mut F,
    least: Ordering,
) -> usize
    requires callable { F.IsAlwaysCallable f.old }
    requires in_bounds { low ≤ length s.now }
    ensures callable { F.IsAlwaysCallable f.new }
    ensures keeps { (ord : T → Ordering) →
        ComputesKey F.FnMut ord f.old → ComputesKey F.FnMut ord f.new }
    ensures from { low ≤ result }
    ensures in_bounds { result ≤ length s.now }
    ensures splits { (ord : T → Ordering) →
        ComputesKey F.FnMut ord f.old → SplitsAt ord s.now least low result }
{
    let mut high = s.len();
    while low < high {
        let mid = low + (high - low) / 2;
        if f(&s[mid]) < least {
            low = mid + 1;
        } else {
            high = mid;
        }
    }
    low
}
