//! Lists the warnings.
ghost use Rattle.std.specs.Prelude.{◌≡◌, ◌||◌, ◌&&◌, ◌==◌, ℕ, [], false, not, zip, IfOk, OnOk};
ghost use Rattle.regress_tree.specs.Tree.{tree, alt};
ghost use Rattle.regress_spans.specs.Children.{trees_at};
ghost use Rattle.regress_warnings.specs.Warned.{is_same_span, warn_if, warned_at, warned, warned_of_members, warned_of_written, warned_of_set};
ghost use Rattle.regress_warnings.specs.Walked.{Adds, Closes, is_recorded, is_span};

use crate::alternatives::{has_empty_alternative, hides_next, splits_anchors};
use crate::captures::captures;
use crate::classes::has_letter_range;
use crate::digits::has_dot_between_digits;
use crate::empty::can_be_empty;
use crate::kind::{Warning, WarningKind};
use crate::members::members;
use crate::repeated::{inside, is_class, repeats_some, some_letter_range};
use crate::written::{
    divides, has_above, has_class_in_range, has_name, has_surrogates, is_identity_escape,
};
use regress_base::codepointset::Interval;
use regress_parse::Span;
use regress_tree::ir::Node;
use std::alloc::{AllocError, Global};

/// Returns what is warned of in nodes in postorder, given their spans, and whether the pattern has the flag v.
///
/// # Errors
/// Returns [`AllocError`] if an allocation fails.
pub(crate) fn find_warnings(
    alloc: Global,
    pattern: &[u32],
    sets: bool,
    nodes: &[&Node],
    spans: &[Span],
) -> Result<Vec<Warning>, AllocError>
    ensures { IfOk result (λ found. found.items ≡ warned sets pattern.now [] (zip (trees_at nodes.now) spans.now)) }
{
    let mut finder = Finder {
        alloc,
        sets,
        pattern,
        closed: Vec::new(alloc),
        found: Vec::new(alloc),
    };
    let mut spans = spans;
    let mut previous = None;
    for node in nodes {
        let [span, others @ ..] = spans else {
            return Ok(finder.found);
        };
        let is_first = !is_span(previous, *span);
        finder.warn(node, *span, is_first)?;
        finder.close(node)?;
        previous = Some(*span);
        spans = others;
    }
    Ok(finder.found)
}

/// Returns whether there is such a span, and it is this one.
fn is_span(other: Option<Span>, span: Span) -> bool
    ensures { result ≡ is_span other span }
{
    match other {
        Some(other) => is_same_span(span, other),
        None => false,
    }
}

fn is_same_span(span: Span, other: Span) -> bool
    ensures { result ≡ is_same_span span other }
{
    span.start == other.start && span.end == other.end
}

/// The state of a walk in postorder.
#[derive(Drop)]
struct Finder<'a> {
    alloc: Global,
    /// Whether the pattern has the flag v.
    sets: bool,
    pattern: &'a [u32],
    /// Whether the group with this number was visited, for numbers from 0 on; the others were not.
    closed: Vec<bool>,
    found: Vec<Warning>,
}

impl Finder<'_> {
    /// Lists what is warned of in a node with this span, given whether the node before it has another one.
    fn warn(&mut self, node: &Node, span: Span, is_first: bool) -> Result<(), AllocError>
        ensures adds { OnOk result (Adds self.old self.new (warned_at self.old.sets self.old.pattern.now (is_recorded self.old.closed.items) span is_first (tree node.now))) }
    {
        match node {
            Node::BackRef { group, .. } => {
                let unset = is_first && !self.is_closed(*group as usize);
                self.add_if(unset, WarningKind::UnsetReference, span)?;
                self.add_if(is_first, WarningKind::BackReference, span)
            }
            Node::Char { .. } | Node::CharSet(_) => {
                let holds = is_identity_escape(self.pattern, span);
                self.add_if(holds, WarningKind::IdentityEscape, span)
            }
            Node::Bracket(contents) => self.warn_of_set(contents.cps.intervals(), span),
            Node::Cat(parts) => {
                let holds = has_dot_between_digits(parts);
                self.add_if(holds, WarningKind::DotBetweenDigits, span)
            }
            Node::Alt(left, right) => self.warn_of_alternation(left, right, span),
            Node::Loop { loopee, .. } | Node::Loop1CharBody { loopee, .. } => {
                let holds = can_be_empty(loopee);
                self.add_if(holds, WarningKind::EmptyIteration, span)
            }
            Node::LookaroundAssertion {
                negate,
                contents,
                ..
            } => {
                let holds = !*negate && captures(contents);
                self.add_if(holds, WarningKind::CapturingLookaround, span)
            }
            _ => Ok(()),
        }
    }

    /// Lists what is warned of in an alternation.
    fn warn_of_alternation(
        &mut self,
        left: &Node,
        right: &Node,
        span: Span,
    ) -> Result<(), AllocError>
        ensures adds { OnOk result (Adds self.old self.new (warned_at self.old.sets self.old.pattern.now (is_recorded self.old.closed.items) span false (alt (tree left.now) (tree right.now)))) }
    {
        let empty = has_empty_alternative(self.pattern, span, right);
        let hides = hides_next(left, right);
        let splits = splits_anchors(left, right);
        self.add_if(empty, WarningKind::EmptyAlternative, span)?;
        self.add_if(hides, WarningKind::HiddenAlternative, span)?;
        self.add_if(splits, WarningKind::SplitAnchors, span)
    }

    /// Lists a warning, if it holds.
    fn add_if(&mut self, holds: bool, kind: WarningKind, span: Span) -> Result<(), AllocError>
        ensures adds { OnOk result (Adds self.old self.new (warn_if holds kind span)) }
    {
        if holds {
            self.found.push(Warning { kind, span })?;
        }
        Ok(())
    }

    /// Lists what is warned of in a set, which may be written as a class.
    fn warn_of_set(&mut self, intervals: &[Interval], span: Span) -> Result<(), AllocError>
        ensures adds { OnOk result (Adds self.old self.new (warned_of_set self.old.sets self.old.pattern.now intervals.now span)) }
    {
        if !self.sets && is_class(self.pattern, span) {
            let written = inside(self.pattern, span);
            self.warn_of_members(intervals, written, span)?;
            self.warn_of_written(intervals, written, span)
        } else {
            let holds = has_letter_range(intervals);
            self.add_if(holds, WarningKind::LetterRange, span)
        }
    }

    /// Lists what is warned of in the members of a class.
    fn warn_of_members(
        &mut self,
        intervals: &[Interval],
        written: &[u32],
        span: Span,
    ) -> Result<(), AllocError>
        ensures adds { OnOk result (Adds self.old self.new (warned_of_members intervals.now written.now span)) }
    {
        let members = members(self.alloc, written)?;
        let letters = has_letter_range(intervals) || some_letter_range(&members);
        let repeats = !(letters || has_name(written)) && repeats_some(&members);
        let ranges = has_class_in_range(&members);
        self.add_if(letters, WarningKind::LetterRange, span)?;
        self.add_if(repeats, WarningKind::RepeatedMember, span)?;
        self.add_if(ranges, WarningKind::ClassInRange, span)
    }

    /// Lists what is warned of in what is written in a class.
    fn warn_of_written(
        &mut self,
        intervals: &[Interval],
        written: &[u32],
        span: Span,
    ) -> Result<(), AllocError>
        ensures adds { OnOk result (Adds self.old self.new (warned_of_written intervals.now written.now span)) }
    {
        let divides = divides(written);
        let splits = has_surrogates(intervals) && has_above(written);
        let names = has_name(written);
        self.add_if(divides, WarningKind::BarInClass, span)?;
        self.add_if(splits, WarningKind::SplitCharacter, span)?;
        self.add_if(names, WarningKind::PosixClass, span)
    }

    fn is_closed(&self, number: usize) -> bool
        ensures { result ≡ is_recorded self.now.closed.items number }
    {
        match self.closed.get(number) {
            Some(closed) => *closed,
            None => false,
        }
    }

    /// Records a node that is a capture group.
    fn close(&mut self, node: &Node) -> Result<(), AllocError>
        ensures closes { OnOk result (Closes self.old self.new (tree node.now)) }
    {
        if let Node::CaptureGroup { id, .. } = node {
            mark(&mut self.closed, usize::from(*id) + 1)?;
        }
        Ok(())
    }
}

/// Records a number in a list that has `true` at each recorded number, and `false` or nothing at the others.
///
/// # Errors
/// Returns [`AllocError`] if an allocation fails.
fn mark(numbers: &mut Vec<bool>, number: usize) -> Result<(), AllocError>
    ensures { OnOk result ((n : ℕ) → is_recorded numbers.new.items n ≡ (is_recorded numbers.old.items n || number == n)) }
{
    while numbers.len() <= number {
        numbers.push(false)?;
    }
    numbers[number] = true;
    Ok(())
}
