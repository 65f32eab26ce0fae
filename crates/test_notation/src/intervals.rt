//! The notation of intervals.

use crate::numbers::read_point;
use regress_base::codepointset::Interval;

/// Parses an interval, as `10-20` or `10`.
pub(crate) fn read_interval(text: &str) -> Option<Interval> {
    let (first, last) = match text.split_once('-') {
        Some((first, last)) => (read_point(first)?, read_point(last)?),
        None => (read_point(text)?, read_point(text)?),
    };
    if first <= last {
        Some(Interval::new(first, last))
    } else {
        None
    }
}
