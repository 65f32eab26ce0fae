//! The notation of numbers.
ghost use Rattle.std.specs.Prelude.{◌≤◌, IfSome};

use regress_base::codepointset::CODE_POINT_MAX;

/// Parses a number: decimal, or hexadecimal after `0x`.
pub fn parse_decimal(text: &str) -> Option<u32> {
    match text.strip_prefix("0x") {
        Some(digits) => u32::from_str_radix(digits, 16).ok(),
        None => text.parse::<u32>().ok(),
    }
}

/// Parses a code point.
pub(crate) fn read_point(text: &str) -> Option<u32>
    ensures { IfSome result (λ point. point ≤ CODE_POINT_MAX) }
{
    let point = parse_decimal(text)?;
    if point <= CODE_POINT_MAX {
        Some(point)
    } else {
        None
    }
}
