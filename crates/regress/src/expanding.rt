//! What a template expands to at a match, and a match from its spans.
ghost use Rattle.std.specs.Prelude.{◌≡◌, ◌↔◌, ◌∷◌, All, IfNone, IfOk, IfSome, IsTrue, Some, length, map, string_bytes};
ghost use Rattle.regress_tree.specs.Inside.{IsCaptureInside, IsSpanInside};
ghost use Rattle.regress_found.specs.Found.{IsInside};
ghost use Rattle.regress_replace.specs.Expansion.{expansion};
ghost use Rattle.regress.specs.Compiled.{groups_of, groups_in, match_of};
ghost use Rattle.regress.specs.Groups.{all_spans};

use crate::found::Match;
use crate::pattern::Regex;
use regress_match::Match as Found;
use regress_replace::expand;
use std::alloc::{AllocError, Global};

impl Regex {
    /// Returns what `template` expands to at a match in `text`: what [`Regex::replace`] puts in place of it.
    ///
    /// # Preconditions
    /// The match and its groups are inside `text`, as those that a search of `text` returns.
    ///
    /// # Errors
    /// Returns [`AllocError`] if an allocation fails. No template is rejected.
    ///
    /// # Examples
    /// ```
    /// let regex = Regex::new(alloc, "(?<month>\\d\\d)-(\\d\\d)")?;
    /// if let Some(found) = regex.find(alloc, "on 12-31")? {
    ///     let date = regex.expand(alloc, "$2.$<month>.", "on 12-31", &found)?;
    ///     assert_eq!(rt; date.as_str(), "31.12.");
    /// }
    /// ```
    pub fn expand(
        &self,
        alloc: Global,
        template: &str,
        text: &str,
        found: &Match<'_>,
    ) -> Result<String, AllocError>
        requires { IsInside text.now (match_of found.now) }
        ensures { IfOk result (λ out. string_bytes out ≡ expansion text.now (match_of found.now) (groups_of self.now) template.now) }
    {
        expand(alloc, template, text, &found.found, &self.groups)
    }

    /// Returns the match with a span and the captures of the groups, `None` for a group that is unset, such as a caller has
    /// kept of a match in `text`.
    ///
    /// The result is `None` unless there are as many captures as the pattern has groups, and all spans are inside
    /// `text`: each starts no later than it ends, and both are on character boundaries.
    pub fn match_with_spans(
        &self,
        text: &str,
        span: (usize, usize),
        groups: Vec<Option<(usize, usize)>>,
    ) -> Option<Match<'_>>
        ensures spans { IfSome result (λ m. all_spans (match_of m) ≡ Some span ∷ groups.items) }
        ensures count { IfSome result (λ _. length groups.items ≡ length (groups_of self.now)) }
        ensures inside { IfSome result (λ m. IsInside text.now (match_of m)) }
        ensures groups { IfSome result (λ m. groups_in m ≡ groups_of self.now) }
        ensures none { IfNone result (length groups.items ≡ length (groups_of self.now) → IsSpanInside text.now span →
            All (IsCaptureInside text.now) groups.items → ⊥) }
    {
        if groups.len() != self.groups.len() {
            return None;
        }
        if !is_inside(text, Some(span)) {
            return None;
        }
        if !are_inside(text, &groups) {
            return None;
        }
        Some(Match {
            found: Found::new(span.0, span.1, groups),
            groups: &self.groups,
        })
    }
}

/// Returns whether the captures of groups that are set are inside a text, on character boundaries.
fn are_inside(text: &str, groups: &[Option<(usize, usize)>]) -> bool
    ensures { IsTrue result ↔ All (IsCaptureInside text.now) groups.now }
{
    for group in groups {
        if !is_inside(text, *group) {
            return false;
        }
    }
    true
}

/// Returns whether a capture is inside a text, on character boundaries, if the group is set.
fn is_inside(text: &str, span: Option<(usize, usize)>) -> bool
    ensures { IsTrue result ↔ IsCaptureInside text.now span }
{
    match span {
        Some((start, end)) => {
            start <= end && text.is_char_boundary(start) && text.is_char_boundary(end)
        }
        None => true,
    }
}
