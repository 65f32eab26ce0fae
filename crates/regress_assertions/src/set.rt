//! Sets of characters, as far as single intervals tell.
ghost use Rattle.std.specs.Prelude.{◌≡◌, option_map};
ghost use Rattle.std.specs.List.{list_all, list_any};
ghost use Rattle.regress_tree.specs.Tree.{tree};
ghost use Rattle.regress_assertions.specs.Characters.{view, one, meets, is_inside, some_meets, some_has, has_all, has_all_except, has_tree, set_of_tree, complement};

use regress_base::charclasses::line_terminator_intervals;
use regress_base::codepointset::Interval;
use regress_tree::ir::Node;
use std::slice;

/// The characters of the intervals and the points, or if it is inverted all others.
#[derive(Clone, Copy)]
pub(crate) struct Set<'a> {
    pub(crate) inverted: bool,
    pub(crate) intervals: &'a [Interval],
    pub(crate) points: &'a [u32],
}

/// The first and the last character of an interval.
#[derive(Clone, Copy)]
pub(crate) struct Range {
    pub(crate) first: u32,
    pub(crate) last: u32,
}

impl Set<'_> {
    /// Returns whether a node matches one character, which is in the set.
    pub(crate) fn has(self, node: &Node) -> bool
        ensures { result ≡ has_tree (view self.entry) (tree node.now) }
    {
        match node {
            Node::Char { c } => self.has_point(*c),
            Node::CharSet(points) => self.has_points(points),
            Node::Bracket(contents) => {
                if contents.invert {
                    self.has_all_except(contents.cps.intervals())
                } else {
                    self.has_intervals(contents.cps.intervals())
                }
            }
            Node::MatchAny => self.has_all_except(&[]),
            Node::MatchAnyExceptLineTerminator => {
                let ends = line_terminator_intervals();
                self.has_all_except(&ends)
            }
            _ => false,
        }
    }

    /// Returns the characters that are not in the set.
    pub(crate) fn complement(self) -> Self
        ensures { view result ≡ complement (view self.entry) }
    {
        Set {
            inverted: !self.inverted,
            intervals: self.intervals,
            points: self.points,
        }
    }

    fn has_point(self, c: u32) -> bool
        ensures { result ≡ has_all (view self.entry) (one c) }
    {
        self.has_all(Range { first: c, last: c })
    }

    /// Returns whether the set has these characters.
    fn has_points(self, points: &[u32]) -> bool
        ensures { result ≡ list_all (λ c. has_all (view self.entry) (one c)) points.now }
    {
        let mut rest = points;
        while let [c, others @ ..] = rest {
            if !self.has_point(*c) {
                return false;
            }
            rest = others;
        }
        true
    }

    /// Returns whether the set has all of these intervals.
    fn has_intervals(self, intervals: &[Interval]) -> bool
        ensures { result ≡ list_all (has_all (view self.entry)) intervals.now }
    {
        let mut rest = intervals;
        while let [interval, others @ ..] = rest {
            if !self.has_all(range_of(*interval)) {
                return false;
            }
            rest = others;
        }
        true
    }

    /// Returns whether the set has all of a range.
    fn has_all(self, range: Range) -> bool
        ensures { result ≡ has_all (view self.entry) (record { first = range.first; last = range.last }) }
    {
        if self.inverted {
            !some_meets(range, self.intervals) && !some_point_meets(range, self.points)
        } else {
            is_inside_some(range, self.intervals) || is_some_point(range, self.points)
        }
    }

    /// Returns whether the set has all characters outside of these intervals.
    fn has_all_except(self, others: &[Interval]) -> bool
        ensures { result ≡ has_all_except (view self.entry) others.now }
    {
        self.inverted
            && are_inside(self.intervals, others)
            && are_points_inside(self.points, others)
    }
}

/// Returns the characters that a node matches, if it matches one character of a set.
pub(crate) fn set_of(node: &Node) -> Option<Set<'_>>
    ensures { option_map view result ≡ set_of_tree (tree node.now) }
{
    let (inverted, intervals, points): (bool, &[Interval], &[u32]) = match node {
        Node::Char { c } => (false, &[], slice::from_ref(c)),
        Node::CharSet(points) => (false, &[], points),
        Node::Bracket(contents) => (contents.invert, contents.cps.intervals(), &[]),
        Node::MatchAny => (true, &[], &[]),
        _ => return None,
    };
    Some(Set {
        inverted,
        intervals,
        points,
    })
}

fn range_of(interval: Interval) -> Range
    ensures { record { first = result.first; last = result.last } ≡ interval }
{
    Range {
        first: interval.first(),
        last: interval.last(),
    }
}

/// Returns whether an interval shares a character with a range.
fn some_meets(range: Range, intervals: &[Interval]) -> bool
    ensures { result ≡ list_any (meets (record { first = range.first; last = range.last })) intervals.now }
{
    let mut rest = intervals;
    while let [interval, others @ ..] = rest {
        if range.first <= interval.last() && interval.first() <= range.last {
            return true;
        }
        rest = others;
    }
    false
}

/// Returns whether a character is in a range.
fn some_point_meets(range: Range, points: &[u32]) -> bool
    ensures { result ≡ list_any (λ c. meets (record { first = range.first; last = range.last }) (one c)) points.now }
{
    let mut rest = points;
    while let [c, others @ ..] = rest {
        if range.first <= *c && *c <= range.last {
            return true;
        }
        rest = others;
    }
    false
}

/// Returns whether an interval has all of a range.
fn is_inside_some(range: Range, intervals: &[Interval]) -> bool
    ensures { result ≡ list_any (is_inside (record { first = range.first; last = range.last })) intervals.now }
{
    let mut rest = intervals;
    while let [interval, others @ ..] = rest {
        if interval.first() <= range.first && range.last <= interval.last() {
            return true;
        }
        rest = others;
    }
    false
}

/// Returns whether a range is one of these characters.
fn is_some_point(range: Range, points: &[u32]) -> bool
    ensures { result ≡ list_any (λ c. is_inside (record { first = range.first; last = range.last }) (one c)) points.now }
{
    let mut rest = points;
    while let [c, others @ ..] = rest {
        if *c <= range.first && range.last <= *c {
            return true;
        }
        rest = others;
    }
    false
}

/// Returns whether each interval is inside of one of the others.
fn are_inside(intervals: &[Interval], others: &[Interval]) -> bool
    ensures { result ≡ list_all (λ a. list_any (is_inside a) others.now) intervals.now }
{
    let mut rest = intervals;
    while let [interval, after @ ..] = rest {
        if !is_inside_some(range_of(*interval), others) {
            return false;
        }
        rest = after;
    }
    true
}

/// Returns whether each character is in one of the intervals.
fn are_points_inside(points: &[u32], intervals: &[Interval]) -> bool
    ensures { result ≡ list_all (λ c. list_any (is_inside (one c)) intervals.now) points.now }
{
    let mut rest = points;
    while let [c, after @ ..] = rest {
        if !is_inside_some(
            Range {
                first: *c,
                last: *c,
            },
            intervals,
        ) {
            return false;
        }
        rest = after;
    }
    true
}
