//! The printed form of a byte set: its runs of members, as `a` or `a-b` in decimal.

ghost use Rattle.std.specs.Prelude.{◌<◌, ◌≤◌};

use std::fmt;

/// One more than the greatest byte.
const BYTES: u16 = 256;

/// Writes `name` and, in brackets, the bytes for which `contains` returns true: as runs in ascending order, separated
/// by single spaces.
pub(super) fn write_members<W: fmt::Write, F: Fn(u8) -> bool>(
    f: &mut fmt::Formatter<W>,
    name: &str,
    contains: F,
) -> fmt::Result
    requires { F.IsAlwaysCallable contains }
{
    write!(f, "{name}[")?;
    let mut is_first_run = true;
    let mut first = 0;
    while first < BYTES {
        let end = end_of_run(first, &contains);
        if first < end {
            if !is_first_run {
                f.write_str(" ")?;
            }
            write_run(f, first, end)?;
            is_first_run = false;
        }
        first = end + 1;
    }
    write!(f, "]")
}

// Returns the first number, `first` or greater, that is no member; at most 256.
fn end_of_run<F: Fn(u8) -> bool>(first: u16, contains: &F) -> u16
    requires callable { F.IsAlwaysCallable contains.now }
    requires within { first ≤ 256 }
    ensures from_first { first ≤ result }
    ensures within { result ≤ 256 }
{
    let mut end = first;
    while end < BYTES && contains(end as u8) {
        end += 1;
    }
    end
}

// Writes the run of numbers from `first` up to `end`, `end` excluded.
fn write_run<W: fmt::Write>(f: &mut fmt::Formatter<W>, first: u16, end: u16) -> fmt::Result
    requires { first < end }
{
    let last = end - 1;
    if first == last {
        write!(f, "{first}")
    } else {
        write!(f, "{first}-{last}")
    }
}
