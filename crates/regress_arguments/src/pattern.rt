//! `PATTERN [FLAGS]`.
ghost use Rattle.std.specs.Prelude.{◌≡◌, option_map, chars};
ghost use Rattle.regress_arguments.specs.Request.{request_of};

use crate::flags::parse_flags;
use regress_base::types::Flags;

/// Parses the arguments `PATTERN [FLAGS]`, and returns the pattern and its flags.
///
/// The result is `None` if there are fewer or more arguments, or if [`parse_flags`] rejects the letters.
pub fn parse_pattern(args: &[String]) -> Option<(&str, Flags)>
    ensures { option_map (λ found. (chars found.0.now, found.1)) result ≡ request_of args.now }
{
    match args {
        [pattern] => Some((pattern.as_str(), Flags::default())),
        [pattern, letters] => Some((pattern.as_str(), parse_flags(letters.as_str())?)),
        _ => None,
    }
}
