//! Parses quantifiers.
ghost use Rattle.std.specs.Prelude.{◌≡◌};
ghost use Rattle.regress_lexer.specs.FirstCodePoint.{may_begin};
ghost use Rattle.regress_lexer.specs.Quantifiers.{maximum_at, quantifier_prefix_by, quantifier_at, is_ordered};
ghost use Rattle.regress_lexer.specs.Reads.{returned};

use crate::digits::{Read, parse_number, strip_char};
use regress_base::types::Quantifier;

/// Minimum and maximum; `None` if there is no maximum.
type RepeatBounds = (usize, Option<usize>);

/// Parses what follows the minimum: `}`, `,}`, or `,`, the maximum and `}`.
fn parse_maximum<'a>(least: usize, source: &'a [u32]) -> Read<'a, RepeatBounds>
    ensures { returned result ≡ maximum_at (least, source.now) }
{
    let Some(source) = strip_char(source, ',') else {
        return Some(((least, Some(least)), strip_char(source, '}')?));
    };
    if let Some(rest) = strip_char(source, '}') {
        return Some(((least, None), rest));
    }
    let (most, rest) = parse_number(source)?;
    Some(((least, Some(most)), strip_char(rest, '}')?))
}

/// Parses `*`, `+`, `?` or numbers in braces, of which `c` is the first code point (ECMA-262, QuantifierPrefix).
fn read_prefix<'a>(c: u32, source: &'a [u32]) -> Read<'a, RepeatBounds>
    ensures { returned result ≡ quantifier_prefix_by c source.now }
{
    if c == u32::from('*') {
        Some(((0, None), source))
    } else if c == u32::from('+') {
        Some(((1, None), source))
    } else if c == u32::from('?') {
        Some(((0, Some(1)), source))
    } else if c == u32::from('{') {
        let (least, rest) = parse_number(source)?;
        parse_maximum(least, rest)
    } else {
        None
    }
}

/// Returns whether a quantifier may begin here, by the first code point alone.
pub fn may_begin(source: &[u32]) -> bool
    ensures { result ≡ may_begin source.now }
{
    match source {
        [c, ..] => {
            *c == u32::from('*')
                || *c == u32::from('+')
                || *c == u32::from('?')
                || *c == u32::from('{')
        }
        [] => false,
    }
}

/// Parses a quantifier (ECMA-262, Quantifier). The result is `None` if none begins here.
///
/// Numbers saturate at `usize::MAX`. The minimum may exceed the maximum; [`is_ordered`] tests this.
#[tactic(auto, unfolding(crate::specs::Quantifiers::quantifier_at))]
pub fn parse_quantifier<'a>(source: &'a [u32]) -> Read<'a, Quantifier>
    ensures { returned result ≡ quantifier_at source.now }
{
    let (c, rest) = source.split_first()?;
    let ((min, max), rest) = read_prefix(*c, rest)?;
    let (greedy, rest) = match strip_char(rest, '?') {
        Some(rest) => (false, rest),
        None => (true, rest),
    };
    Some((Quantifier { min, max, greedy }, rest))
}

/// Returns whether the minimum is at most the maximum.
pub fn is_ordered(quantifier: Quantifier) -> bool
    ensures { result ≡ is_ordered quantifier }
{
    match quantifier.max {
        Some(max) => quantifier.min <= max,
        None => true,
    }
}
