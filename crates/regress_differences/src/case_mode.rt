//! Whether a pattern may be matched with the flag i somewhere.
ghost use Rattle.std.specs.Prelude.{◌≡◌};
ghost use Rattle.regress_differences.specs.CaseMode.{is_somewhere, switches_on, widest_flags};

use regress_base::types::Flags;
use regress_lexer::modifiers::parse_modifiers;

/// Returns the flags, with i if the pattern has what looks like modifiers that switch it on.
///
/// # Complexity
/// Linear in the length of the pattern.
pub(crate) fn widest_flags(pattern: &[u32], flags: Flags) -> Flags
    ensures { result ≡ widest_flags flags pattern.now }
{
    Flags {
        icase: flags.icase || is_switched_on(pattern),
        ..flags
    }
}

/// Whether modifiers that switch the flag i on begin somewhere.
fn is_switched_on(pattern: &[u32]) -> bool
    ensures { result ≡ is_somewhere switches_on pattern.now }
{
    let mut rest = pattern;
    while let [_, after @ ..] = rest {
        if switches_on(rest) {
            return true;
        }
        rest = after;
    }
    false
}

/// Whether the source begins with modifiers that switch the flag i on.
fn switches_on(source: &[u32]) -> bool
    ensures { result ≡ switches_on source.now }
{
    match source {
        [opening, mark, rest @ ..] if *opening == u32::from('(') && *mark == u32::from('?') => {
            match parse_modifiers(rest) {
                Some((change, _)) => change.icase.unwrap_or(false),
                None => false,
            }
        }
        _ => false,
    }
}
