//! Why searches for all matches may take more than linear time.
ghost use Rattle.std.specs.Prelude.{◌≡◌, is_none, is_some};
ghost use Rattle.regress_match.specs.Matcher.{factor_of, nonlinear_by, nonlinear_of};

use crate::matcher::Matcher;
use regress_program::Nonlinear as Reason;

/// Why searches for all matches are not known to take linear time. [`Matcher::nonlinear`] returns it.
#[derive(Clone, Copy, Debug, PartialEq, Eq, thiserror::Error)]
pub enum Nonlinear {
    /// The pattern has a back reference.
    #[error("the pattern has a back reference")]
    BackReference,
    /// A lookaround that is not negated contains a capture group, or a loop around one. Each match is then found in linear
    /// time if [`Matcher::is_find_linear`], all together are not.
    #[error("a lookaround contains a capture group")]
    CapturingLookaround,
    /// The program has more instructions than the limit on tables, or would store more than it may if each matched at most
    /// 64 characters.
    #[error("the pattern needs too many instructions")]
    TooManyInstructions,
}

impl Matcher {
    /// Returns why searches for all matches are not known to take linear time, and `None` if they do. If several reasons
    /// hold, it is the first in the order of [`Nonlinear`].
    pub fn nonlinear(&self) -> Option<Nonlinear>
        ensures reason { result ≡ nonlinear_of self.now }
        ensures linear { is_none result ≡ is_some (factor_of self.now) }
    {
        nonlinear_by(self.code.nonlinear(), self.within)
    }
}

/// Returns why a program is not searched in linear time: by its instructions, or else because it is not within the limit
/// on tables.
fn nonlinear_by(reason: Option<Reason>, within: bool) -> Option<Nonlinear>
    ensures { result ≡ nonlinear_by reason within }
{
    match reason {
        Some(Reason::BackReference) => Some(Nonlinear::BackReference),
        Some(Reason::CapturingLookaround) => Some(Nonlinear::CapturingLookaround),
        None => {
            if within {
                None
            } else {
                Some(Nonlinear::TooManyInstructions)
            }
        }
    }
}
