//! The state of the parser, and the context of a part of the pattern.
ghost use Rattle.std.specs.Prelude.{◌≤◌};
ghost use Rattle.regress_base.specs.Limits.{max_capture_groups, max_loops};

use crate::recording::record_if;
use crate::span::Span;
use regress_base::types::{CaptureGroupID, LoopID, MAX_CAPTURE_GROUPS, MAX_LOOPS};
use regress_syntax::fault::{FaultKind, rejected};
use regress_syntax::{Cursor, Fault, Group, Scope};
use std::alloc::AllocError;

/// The remaining input, and what was found before it: the number of groups and loops, and the spans.
#[derive(Drop)]
pub(crate) struct Parser<'a> {
    pub(crate) cursor: Cursor<'a>,
    pub(crate) group_count: CaptureGroupID,
    pub(crate) loop_count: LoopID,
    /// The spans of the nodes, in postorder, where they are recorded.
    pub(crate) spans: Vec<Span>,
    ghost groups_within: { group_count ≤ max_capture_groups },
    ghost loops_within: { loop_count ≤ max_loops },
}

/// The context of a part of the pattern.
#[derive(Clone, Copy)]
pub(crate) struct PartContext<'a> {
    pub(crate) scope: Scope<'a>,
    /// Whether the part is matched backwards.
    pub(crate) backwards: bool,
    /// The nesting depth of the part.
    pub(crate) depth: u32,
    /// The length of the whole pattern, in code points.
    pub(crate) whole: usize,
}

impl<'a> PartContext<'a> {
    ghost use Rattle.std.specs.Prelude.{◌≡◌};
    ghost use Rattle.regress_lexer.specs.Views.{source};
    ghost use Rattle.regress_syntax.specs.Productions.{context_inside};
    ghost use Rattle.regress_syntax.specs.Syntax.{direction_of_group};
    ghost use Rattle.regress_syntax.specs.Views.{group_of};
    ghost use Rattle.regress_parse.specs.Parsing.{context_in, direction_of};
    ghost use Rattle.regress_parse.specs.Recorded.{span_to};

    /// Returns the context of the parts inside a group, with the same nesting depth.
    pub(crate) fn inside(&self, kind: &Group) -> PartContext<'a>
        ensures context { context_in result ≡ context_inside (group_of kind.now) (context_in self.now) }
        ensures direction { direction_of result ≡ direction_of_group (group_of kind.now) (direction_of self.now) }
        ensures depth { result.depth ≡ self.now.depth }
        ensures whole { result.whole ≡ self.now.whole }
    {
        match kind {
            Group::Grouping | Group::Capture(_) => *self,
            Group::Modified(change) => PartContext {
                scope: Scope {
                    flags: change.apply(self.scope.flags),
                    ..self.scope
                },
                ..*self
            },
            Group::Look { backwards, .. } => PartContext {
                backwards: *backwards,
                ..*self
            },
        }
    }

    /// Returns the span from the position where `left` code points remained to the cursor.
    pub(crate) fn span(&self, left: usize, cursor: &Cursor) -> Span
        ensures { result ≡ span_to self.now.whole left (source cursor.now) }
    {
        Span {
            start: self.whole.saturating_sub(left),
            end: self.whole.saturating_sub(cursor.rest.len()),
        }
    }
}

impl Parser<'_> {
    ghost use Rattle.std.specs.Prelude.{◌≡◌, ◌+◌, ◌<◌, true, [], ◌∷◌, ◌++◌, OnOk};
    ghost use Rattle.regress_lexer.specs.Fault.{FailsBy};
    ghost use Rattle.regress_lexer.specs.declared.fault.FaultKind.TheVariants.{TooManyGroups, TooManyLoops};
    ghost use Rattle.regress_syntax.specs.Syntax.{added, one_loop, opened_by, counts_of_group};
    ghost use Rattle.regress_syntax.specs.Views.{group_of};
    ghost use Rattle.regress_parse.specs.Parsing.{text, counted};
    ghost use Rattle.regress_parse.specs.Recorded.{span_to};

    /// Counts a group, if it captures. Fails if that exceeds `MAX_CAPTURE_GROUPS`. `left` is the number of code points
    /// that remained at the group.
    pub(crate) fn count_group(&mut self, kind: &Group, left: usize) -> Result<(), Fault>
        ensures ok { OnOk result (counted self.new ≡ added (counted self.old) (counts_of_group (group_of kind.now))) }
        ensures err { FailsBy result (λ reported. (reported ≡ TooManyGroups) × (max_capture_groups < self.old.group_count + opened_by (group_of kind.now))) }
        ensures text { text self.new ≡ text self.old }
        ensures spans { self.new.spans.items ≡ self.old.spans.items }
    {
        if let Group::Capture(_) = kind {
            if usize::from(self.group_count) >= MAX_CAPTURE_GROUPS {
                return Err(rejected(left, FaultKind::TooManyGroups));
            }
            self.group_count += 1;
        }
        Ok(())
    }

    /// Counts a loop. Fails if that exceeds `MAX_LOOPS`. `left` is the number of code points that remained at the
    /// quantifier.
    pub(crate) fn count_loop(&mut self, left: usize) -> Result<(), Fault>
        ensures ok { OnOk result (counted self.new ≡ added (counted self.old) one_loop) }
        ensures err { FailsBy result (λ reported. (reported ≡ TooManyLoops) × (max_loops < self.old.loop_count + 1)) }
        ensures text { text self.new ≡ text self.old }
        ensures spans { self.new.spans.items ≡ self.old.spans.items }
    {
        if usize::from(self.loop_count) >= MAX_LOOPS {
            return Err(rejected(left, FaultKind::TooManyLoops));
        }
        self.loop_count += 1;
        Ok(())
    }

    /// Appends the spans of the final `Goal` and of the root, if spans are recorded.
    pub(crate) fn record_end<const RECORDS: bool>(
        &mut self,
        around: &PartContext,
    ) -> Result<(), AllocError>
        ensures { RECORDS ≡ true → OnOk result (self.new.spans.items ≡ self.old.spans.items
            ++ span_to around.now.whole 0 (text self.old) ∷ span_to around.now.whole around.now.whole (text self.old) ∷ []) }
    {
        record_if::<RECORDS>(true, &mut self.spans, around, 0, &self.cursor)?;
        record_if::<RECORDS>(true, &mut self.spans, around, around.whole, &self.cursor)
    }
}
