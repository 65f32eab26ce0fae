//! A class with all characters from an upper-case to a lower-case letter.
ghost use Rattle.std.specs.Prelude.{◌≡◌};
ghost use Rattle.regress_warnings.specs.Classes.{is_letter_range, has_letter_range};

use regress_base::codepointset::Interval;

/// Returns whether an interval of a set runs from an upper-case to a lower-case ASCII letter.
pub(crate) fn has_letter_range(intervals: &[Interval]) -> bool
    ensures { result ≡ has_letter_range intervals.now }
{
    let mut rest = intervals;
    while let [interval, others @ ..] = rest {
        if is_letter_range(interval.first(), interval.last()) {
            return true;
        }
        rest = others;
    }
    false
}

/// Returns whether the first is an upper-case and the last a lower-case ASCII letter.
pub(crate) fn is_letter_range(first: u32, last: u32) -> bool
    ensures { result ≡ is_letter_range (record { first = first; last = last }) }
{
    u32::from('A') <= first
        && first <= u32::from('Z')
        && u32::from('a') <= last
        && last <= u32::from('z')
}
