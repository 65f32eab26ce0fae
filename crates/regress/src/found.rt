//! A match, and the spans of its groups.
ghost use Rattle.std.specs.Prelude.{◌≡◌};
ghost use Rattle.regress_found.specs.Found.{start_of, state_of};
ghost use Rattle.regress_match.specs.Names.{named_span};
ghost use Rattle.regress.specs.Groups.{all_spans, group_span, named_left, named_spans, span_of, spans_left};
ghost use Rattle.regress.specs.Compiled.{groups_in, match_of};

use crate::groups::{Groups, NamedGroups};
use regress_match::{Group, Match as Found};
use regress_replace::named_capture;
use std::ops::Range;

/// A match of a regular expression in a text. All positions are byte offsets of the text.
#[derive(Debug, Drop)]
pub struct Match<'r> {
    pub(crate) found: Found,
    /// The capture groups of the pattern in the order of their ids.
    pub(crate) groups: &'r [Group],
}

impl<'r> Match<'r> {
    /// Returns the span of the whole match.
    pub fn range(&self) -> Range<usize>
        ensures start { result.start ≡ start_of (match_of self.now) }
        ensures end { result.end ≡ (state_of (match_of self.now)).position }
    {
        self.start()..self.end()
    }

    /// Returns the byte offset at which the match starts.
    pub fn start(&self) -> usize
        ensures { result ≡ start_of (match_of self.now) }
    {
        self.found.start()
    }

    /// Returns the byte offset at which the match ends, which is not part of it.
    pub fn end(&self) -> usize
        ensures { result ≡ (state_of (match_of self.now)).position }
    {
        self.found.end()
    }

    /// Returns the span that a group has captured last, by its number: 0 is the whole match, and the groups count from
    /// 1 in the order of their opening parentheses, as in references.
    ///
    /// The result is `None` if the group is unset, or if the pattern has no group with this number.
    pub fn group(&self, number: usize) -> Option<Range<usize>>
        ensures { span_of result ≡ group_span (match_of self.now) number }
    {
        match number {
            0 => Some(self.range()),
            _ => range_of(self.found.group(number - 1)),
        }
    }

    /// Returns the span that the group with a name has captured last.
    ///
    /// If several groups share the name it is the first one that is set. The result is `None` if none is set, or if the
    /// pattern has no group with this name.
    pub fn named_group(&self, name: &str) -> Option<Range<usize>>
        ensures { span_of result ≡ named_span name.now (state_of (match_of self.now)).captures (groups_in self.now) }
    {
        range_of(named_capture(&self.found, self.groups, name))
    }

    /// Returns the span of the whole match, and then that of each group, `None` for an unset one.
    pub fn groups(&self) -> Groups<'_>
        ensures { spans_left result ≡ all_spans (match_of self.now) }
    {
        Groups {
            found: &self.found,
            next: 0,
        }
    }

    /// Returns the name and the span of each group that has a name, in the order of the opening parentheses; `None` for
    /// an unset group.
    pub fn named_groups(&self) -> NamedGroups<'_>
        ensures { named_left result ≡ named_spans (match_of self.now) (groups_in self.now) }
    {
        NamedGroups {
            found: &self.found,
            rest: self.groups,
        }
    }
}

/// Returns a span as a range.
pub(crate) fn range_of(span: Option<(usize, usize)>) -> Option<Range<usize>>
    ensures { span_of result ≡ span }
{
    match span {
        Some((start, end)) => Some(start..end),
        None => None,
    }
}
