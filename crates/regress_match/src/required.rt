//! What each match contains.
ghost use Rattle.std.specs.Prelude.{◌≡◌, ◌<◌, ◌≤◌, ◌+◌, IfSome, MatchOption, None, length, true};
ghost use Rattle.regress_found.specs.Found.{Finds};
ghost use Rattle.regress_match.specs.Pattern.{matcher_outcomes, matcher_tree};
ghost use Rattle.regress_prefilter.specs.Literals.{bytes_in, literals, longest};
ghost use Rattle.regress_prefilter.specs.Required.{IsRequired, IsRequiredLiteral, NoneFrom};

use crate::matcher::Matcher;
use memchr::memchr;
use regress_prefilter::required_literal;

/// The length in bytes from which on a search first looks for a byte that each match contains.
const LONG_TEXT: usize = 4096;

impl Matcher {
    /// Returns whether a byte that each match contains does not follow from the byte offset `from` on, and subtracts the
    /// number of bytes that it looks at from `remaining`.
    ///
    /// It looks at none in a text that is shorter than the program, or so short that finding out which byte it is does not
    /// pay, or if there may be too few steps.
    pub(crate) fn lacks_required_byte(&self, text: &str, from: usize, remaining: &mut u64) -> bool
        ensures none { result ≡ true → Finds text.now (matcher_outcomes self.now text.now) from None }
        ensures remaining { remaining.new ≤ remaining.old }
        ensures costs { remaining.old ≤ remaining.new + (length text.now + 1) }
    {
        let len = text.len();
        if len < LONG_TEXT || len as u64 > *remaining {
            return false;
        }
        let Some(byte) = self.required_byte_within(len) else {
            return false;
        };
        match offset_of(byte, text, from) {
            Some(ahead) => {
                *remaining -= ahead as u64 + 1;
                false
            }
            None => {
                *remaining -= len.saturating_sub(from) as u64;
                true
            }
        }
    }

    /// Returns a byte that each match contains, if one is known, and if the program has at most `limit` instructions.
    pub(crate) fn required_byte_within(&self, limit: usize) -> Option<u8>
        ensures { IfSome result (λ b. IsRequired b (matcher_tree self.now)) }
    {
        if self.code.instructions() > limit {
            None
        } else {
            self.required_byte
        }
    }

    /// Returns a literal that each match contains, not empty, or `None` if none is known.
    ///
    /// # Complexity
    /// One pass over the tree of the pattern, without allocations.
    pub fn required_literal(&self) -> Option<&[u8]>
        ensures required { IfSome result (λ literal. IsRequiredLiteral literal.now (matcher_tree self.now)) }
        ensures not_empty { IfSome result (λ literal. 0 < length literal.now) }
        ensures longest { bytes_in result ≡ longest (literals (matcher_tree self.now)) }
    {
        required_literal(&self.regex.node)
    }
}

/// Returns the distance from the byte offset `from` to the next occurrence of a byte.
fn offset_of(byte: u8, text: &str, from: usize) -> Option<usize>
    ensures { MatchOption result (NoneFrom byte text.now from) (λ ahead. from + ahead < length text.now) }
{
    let bytes = text.as_bytes();
    if from >= bytes.len() {
        return None;
    }
    memchr(byte, &bytes[from..])
}
