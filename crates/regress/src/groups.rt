//! The groups of a match, and their names, as iterators.
ghost use Rattle.std.specs.Prelude.{◌≡◌, length, option_map};
ghost use Rattle.std.specs.Iterator.{YieldsFirstBy, at_most};
ghost use Rattle.regress_match.specs.Pattern.{capture_of};
ghost use Rattle.regress.specs.Groups.{named_left, names_left, span_of, spans_left};

use crate::found::range_of;
use regress_match::{Group, Match as Found};
use std::ops::Range;

/// The spans of a match and of its groups. [`Match::groups`](crate::Match::groups) returns it.
#[derive(Drop)]
pub struct Groups<'m> {
    pub(crate) found: &'m Found,
    /// The number of the next group.
    pub(crate) next: usize,
}

impl Iterator for Groups<'_> {
    type Item = Option<Range<usize>>;

    ghost next_gives = { YieldsFirstBy span_of spans_left };

    ghost remaining = { λ s. at_most (length (spans_left s)) };

    fn next(&mut self) -> Option<Option<Range<usize>>> {
        let number = self.next;
        if number > self.found.group_count() {
            return None;
        }
        self.next = number + 1;
        if number == 0 {
            Some(Some(self.found.start()..self.found.end()))
        } else {
            Some(range_of(self.found.group(number - 1)))
        }
    }
}

/// The names and spans of the named groups. [`Match::named_groups`](crate::Match::named_groups) returns it.
#[derive(Drop)]
pub struct NamedGroups<'m> {
    pub(crate) found: &'m Found,
    pub(crate) rest: &'m [Group],
}

impl<'m> Iterator for NamedGroups<'m> {
    type Item = (&'m str, Option<Range<usize>>);

    ghost next_gives = { YieldsFirstBy (λ item. (item.0.now, span_of item.1)) named_left };

    ghost remaining = { λ s. at_most (length s.rest.now) };

    fn next(&mut self) -> Option<(&'m str, Option<Range<usize>>)> {
        while let [group, after @ ..] = self.rest {
            self.rest = after;
            if let Some(name) = &group.name {
                let span = range_of(self.found.group(usize::from(group.id)));
                return Some((name.as_str(), span));
            }
        }
        None
    }
}

/// The names of the capture groups. [`Regex::group_names`](crate::Regex::group_names) returns it.
#[derive(Drop)]
pub struct GroupNames<'r> {
    pub(crate) rest: &'r [Group],
}

impl<'r> Iterator for GroupNames<'r> {
    type Item = Option<&'r str>;

    ghost next_gives = { YieldsFirstBy (λ item. option_map (λ name. name.now) item) names_left };

    ghost remaining = { λ s. at_most (length s.rest.now) };

    fn next(&mut self) -> Option<Option<&'r str>> {
        match self.rest {
            [group, after @ ..] => {
                self.rest = after;
                Some(name_of(group))
            }
            [] => None,
        }
    }
}

fn name_of(group: &Group) -> Option<&str>
    ensures { option_map (λ name. name.now) result ≡ (capture_of group.now).name }
{
    match &group.name {
        Some(name) => Some(name.as_str()),
        None => None,
    }
}
