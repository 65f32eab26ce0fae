//! Which texts are searched in linear time, and the step limit of the others.
ghost use Rattle.std.specs.Prelude.{◌≡◌, ◌+◌, ◌*◌, is_some, length, min, nat_le};
ghost use Rattle.regress_match.specs.Matcher.{factor_in, find_factor_in, find_limit_in, limit_in};

use crate::matcher::Matcher;

impl Matcher {
    /// Returns whether a search for all matches in a text takes linear time: if [`Matcher::is_linear`], and its bound is
    /// within the limit on the steps of such searches.
    pub(crate) fn is_linear_in(&self, text: &str) -> bool
        ensures { result ≡ is_some (factor_in self.now text.now) }
    {
        let Some(limit) = self.linear_steps else {
            return self.is_linear();
        };
        match self.steps_per_byte() {
            Some(each) => are_within(each, text, limit),
            None => false,
        }
    }

    /// Returns the same for a search for one match.
    pub(crate) fn is_find_linear_in(&self, text: &str) -> bool
        ensures { result ≡ is_some (find_factor_in self.now text.now) }
    {
        let Some(limit) = self.linear_steps else {
            return self.is_find_linear();
        };
        match self.find_steps_per_byte() {
            Some(each) => are_within(each, text, limit),
            None => false,
        }
    }

    /// Returns the step limit of a search for all matches that only backtracks: that of the caller, but if
    /// [`Matcher::is_linear`], that of searches in linear time.
    pub(crate) fn step_limit(&self, steps: u64) -> u64
        ensures { result ≡ limit_in self.now steps }
    {
        if self.is_linear() {
            self.linear_steps.unwrap_or(steps)
        } else {
            steps
        }
    }

    /// Returns the same for a search for one match.
    pub(crate) fn find_step_limit(&self, steps: u64) -> u64
        ensures { result ≡ find_limit_in self.now steps }
    {
        if self.is_find_linear() {
            self.linear_steps.unwrap_or(steps)
        } else {
            steps
        }
    }
}

/// Returns whether a number of steps for each byte of a text, and once more, is within a limit.
fn are_within(each: u64, text: &str, limit: u64) -> bool
    ensures { result ≡ nat_le (min (each * (length text.now + 1)) u64.MAX) limit }
{
    each.saturating_mul(text.len() as u64 + 1) <= limit
}
