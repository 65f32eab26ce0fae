//! What is beside an assertion.
ghost use Rattle.std.specs.Prelude.{◌≡◌};
ghost use Rattle.regress_tree.specs.Tree.{tree, wrapped, lookaround};
ghost use Rattle.regress_assertions.specs.Characters.{view};
ghost use Rattle.regress_assertions.specs.Holding.{inside_line, word, no_word, is_after, is_before, fails_anchor, fails_boundary, is_beside, fails_lookaround, fails};

use crate::edges::{closes, first_part, opens};
use crate::set::{Set, set_of};
use regress_base::charclasses::{line_terminator_intervals, word_intervals};
use regress_base::types::AnchorType;
use regress_tree::ir::Node;

/// The nodes directly before and after a node, in the order of the list that they are in.
#[derive(Clone, Copy)]
pub(crate) struct Place<'a> {
    /// Whether that order is the one of the text backwards, as in a lookbehind.
    pub(crate) backwards: bool,
    pub(crate) previous: &'a Node,
    pub(crate) next: &'a Node,
}

impl<'a> Place<'a> {
    /// Returns a place of which nothing is known, given a node that matches the empty text.
    pub(crate) fn unknown(backwards: bool, empty: &'a Node) -> Place<'a>
        ensures { result ≡ record { backwards = backwards; previous = empty.entry; next = empty.entry } }
    {
        Place {
            backwards,
            previous: empty,
            next: empty,
        }
    }

    /// Returns whether a node is an assertion that never holds here.
    pub(crate) fn fails(self, node: &Node) -> bool
        ensures { result ≡ fails self.entry.backwards (tree self.entry.previous.now) (tree self.entry.next.now) (tree node.now) }
    {
        match node {
            Node::Anchor {
                anchor_type,
                multiline,
            } => self.fails_anchor(*anchor_type, *multiline),
            Node::WordBoundary { invert, .. } => self.fails_boundary(*invert),
            Node::LookaroundAssertion {
                negate,
                backwards,
                contents,
                ..
            } => self.fails_lookaround(*negate, *backwards, contents),
            _ => false,
        }
    }

    /// Returns whether `^` or `$` never holds here: what is on that side is a character, and with m none that ends a line.
    fn fails_anchor(self, end: AnchorType, multiline: bool) -> bool
        ensures { result ≡ fails_anchor self.entry.backwards (tree self.entry.previous.now) (tree self.entry.next.now) end multiline }
    {
        let ends = line_terminator_intervals();
        let inside = Set {
            inverted: true,
            intervals: if multiline { &ends } else { &[] },
            points: &[],
        };
        match end {
            AnchorType::StartOfLine => self.is_after(inside),
            AnchorType::EndOfLine => self.is_before(inside),
        }
    }

    /// Returns whether `\b` or `\B` never holds here.
    fn fails_boundary(self, invert: bool) -> bool
        ensures { result ≡ fails_boundary self.entry.backwards (tree self.entry.previous.now) (tree self.entry.next.now) invert }
    {
        let intervals = word_intervals();
        let word = Set {
            inverted: false,
            intervals: &intervals,
            points: &[],
        };
        // With the flags i and u these two are word characters too.
        let other = Set {
            inverted: true,
            intervals: &intervals,
            points: &[0x17F, 0x212A],
        };
        if invert {
            self.is_after(word) && self.is_before(other)
                || self.is_after(other) && self.is_before(word)
        } else {
            self.is_after(word) && self.is_before(word)
                || self.is_after(other) && self.is_before(other)
        }
    }

    /// Returns whether a lookaround never holds here.
    fn fails_lookaround(self, negate: bool, behind: bool, body: &Node) -> bool
        ensures { result ≡ fails_lookaround self.entry.backwards (tree self.entry.previous.now) (tree self.entry.next.now) negate behind (tree body.now) }
    {
        let set = if negate {
            set_of(body)
        } else {
            set_of(first_part(body))
        };
        match set {
            Some(set) if negate => self.is_beside(behind, set),
            Some(set) => self.is_beside(behind, set.complement()),
            None => false,
        }
    }

    fn is_beside(self, behind: bool, set: Set<'_>) -> bool
        ensures { result ≡ is_beside self.entry.backwards (tree self.entry.previous.now) (tree self.entry.next.now) behind (view set.entry) }
    {
        if behind {
            self.is_after(set)
        } else {
            self.is_before(set)
        }
    }

    /// Returns whether what the text has directly before is a character of the set.
    fn is_after(self, set: Set<'_>) -> bool
        ensures { result ≡ is_after self.entry.backwards (tree self.entry.previous.now) (tree self.entry.next.now) (view set.entry) }
    {
        if self.backwards {
            opens(self.next, set)
        } else {
            closes(self.previous, set)
        }
    }

    /// Returns whether what the text has directly after is a character of the set.
    fn is_before(self, set: Set<'_>) -> bool
        ensures { result ≡ is_before self.entry.backwards (tree self.entry.previous.now) (tree self.entry.next.now) (view set.entry) }
    {
        if self.backwards {
            closes(self.previous, set)
        } else {
            opens(self.next, set)
        }
    }
}
