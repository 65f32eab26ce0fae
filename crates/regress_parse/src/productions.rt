//! Parses the productions of the grammar.
ghost use Rattle.std.specs.Prelude.{◌≡◌, ◌≤◌, ◌+◌, ◌∷◌, true, false, Bool, List, Some, OnOk, length};
ghost use Rattle.regress_lexer.specs.Fault.{FailsBy};
ghost use Rattle.regress_lexer.specs.FirstCodePoint.{may_begin};
ghost use Rattle.regress_lexer.specs.Source.{Source, opening, ends_alternative};
ghost use Rattle.regress_syntax.specs.Views.{group_of};
ghost use Rattle.regress_syntax.specs.Syntax.{Item, Counts};
ghost use Rattle.regress_syntax.specs.Productions.{opens, allows, group_allows, head_at, head_of_item};
ghost use Rattle.regress_base.specs.Limits.{max_nesting_depth};
ghost use Rattle.regress_parse.specs.Reader.{Term, pattern_at, terms_at, term_at, item_after_head, with_quantifier};
ghost use Rattle.regress_parse.specs.Parsing.{text, counted, direction_of, context_in, table_in, names_in_context, pattern_part, terms_part, term_part, item_part, Builds, Yields, Reaches};
ghost use Rattle.regress_parse.specs.Recorded.{RecordsPattern, RecordsAlternative, RecordsTerm, RecordsItem};
ghost use Rattle.regress_parse.specs.declared.span.Span.{Span};

use crate::atom::{begins_lone, parse_atom, push_simple_term};
use crate::build::{make_alt, make_cat, make_group, make_literal, make_loop};
use crate::heads::{parse_head, try_open};
use crate::parser::{Parser, PartContext};
use crate::recording::{
    has_node, note_start, push_reversed, record_alternations, record_if, record_nodes, set_apart,
};
use regress_base::types::{CaptureGroupID, MAX_NESTING_DEPTH};
use regress_lexer::quantifier::may_begin;
use regress_syntax::fault::FaultKind;
use regress_syntax::{Fault, Group, parse_optional_quantifier};
use regress_tree::ir::Node;

/// The number of terms for which a list of several terms has room at first.
const USUAL_LENGTH: usize = 8;

/// Where an item begins.
#[derive(Clone, Copy)]
struct ItemStart {
    /// The number of groups before it.
    groups: CaptureGroupID,
    /// The number of code points that remained there.
    left: usize,
}

impl Parser<'_> {
    /// Parses alternatives up to a `)` or the end (ECMA-262, Disjunction).
    #[cycle(parser)]
    pub(crate) fn consume_disjunction<const RECORDS: bool>(
        &mut self,
        around: &PartContext,
    ) -> Result<Node, Fault>
        ensures value { Yields (pattern_part (table_in around.now) (names_in_context around.now)) (direction_of around.now) around.now.depth (counted self.old) self.new result
            (pattern_at (context_in around.now) (text self.old)) }
        ensures reached { FailsBy result (λ kind. Reaches kind (counted self.old) (around.now.depth + 1) (text self.old)) }
        ensures spans { RECORDS ≡ true → OnOk result
            (RecordsPattern around.now.whole (context_in around.now) (direction_of around.now) (text self.old) self.old.spans.items (text self.new) self.new.spans.items) }
    {
        if around.depth >= MAX_NESTING_DEPTH {
            return Err(self.cursor.reject(FaultKind::TooDeep));
        }
        let inside = PartContext {
            depth: around.depth + 1,
            ..*around
        };
        let mut start = self.cursor.rest.len();
        let first = self.consume_alternative::<RECORDS>(&inside);
        if !self.cursor.is_at('|') {
            return first;
        }
        // The number of code points that remained at the start of each alternative before the last.
        let mut starts = Vec::new(self.cursor.alloc);
        let mut before = Vec::new(self.cursor.alloc);
        let mut last = first?;
        while self.cursor.try_consume('|') {
            before.push(last)?;
            note_start::<RECORDS>(&mut starts, start)?;
            start = self.cursor.rest.len();
            last = self.consume_alternative::<RECORDS>(&inside)?;
        }
        record_alternations(&mut self.spans, starts, around, &self.cursor)?;
        Ok(make_alt(self.cursor.alloc, before, last)?)
    }

    /// Parses terms up to the end of the alternative (ECMA-262, Alternative). A single term needs no list.
    #[cycle(parser)]
    fn consume_alternative<const RECORDS: bool>(
        &mut self,
        around: &PartContext,
    ) -> Result<Node, Fault>
        requires { around.now.depth ≤ max_nesting_depth }
        ensures value { Yields (terms_part (table_in around.now) (names_in_context around.now)) (direction_of around.now) around.now.depth (counted self.old) self.new result
            (terms_at (context_in around.now) (text self.old)) }
        ensures reached { FailsBy result (λ kind. Reaches kind (counted self.old) around.now.depth (text self.old)) }
        ensures spans { RECORDS ≡ true → OnOk result
            (RecordsAlternative around.now.whole (context_in around.now) (direction_of around.now) (text self.old) self.old.spans.items (text self.new) self.new.spans.items) }
    {
        if RECORDS {
            return self.consume_recorded::<RECORDS>(around);
        }
        if self.cursor.ends_alternative() {
            return Ok(Node::Empty);
        }
        let first = self.consume_first_term::<RECORDS>(around);
        if self.cursor.ends_alternative() {
            return first;
        }
        self.consume_terms::<RECORDS>(first?, around)
    }

    /// Parses terms up to the end of the alternative as [`Parser::consume_alternative`] does, and records spans. The parts
    /// of a lookbehind are in reverse order in the tree, so there each span is copied.
    #[cycle(parser)]
    fn consume_recorded<const RECORDS: bool>(&mut self, around: &PartContext) -> Result<Node, Fault>
        requires depth { around.now.depth ≤ max_nesting_depth }
        requires records { RECORDS ≡ true }
        ensures value { Yields (terms_part (table_in around.now) (names_in_context around.now)) (direction_of around.now) around.now.depth (counted self.old) self.new result
            (terms_at (context_in around.now) (text self.old)) }
        ensures reached { FailsBy result (λ kind. Reaches kind (counted self.old) around.now.depth (text self.old)) }
        ensures spans { OnOk result
            (RecordsAlternative around.now.whole (context_in around.now) (direction_of around.now) (text self.old) self.old.spans.items (text self.new) self.new.spans.items) }
    {
        let start = self.cursor.rest.len();
        let mut nodes = Vec::new(self.cursor.alloc);
        let mut parts = Vec::new(self.cursor.alloc);
        while !self.cursor.ends_alternative() {
            let begin = self.spans.len();
            nodes.push(self.consume_term::<RECORDS>(around)?)?;
            set_apart(&mut parts, &mut self.spans, begin, around.backwards)?;
        }
        push_reversed(&mut self.spans, parts)?;
        // A single term has no further node.
        record_if::<RECORDS>(
            nodes.len() != 1,
            &mut self.spans,
            around,
            start,
            &self.cursor,
        )?;
        Ok(make_cat(nodes, around.backwards))
    }

    /// Parses the first term. Most often it is a literal character, which needs no test of the other productions.
    #[cycle(parser)]
    fn consume_first_term<const RECORDS: bool>(
        &mut self,
        around: &PartContext,
    ) -> Result<Node, Fault>
        requires { around.now.depth ≤ max_nesting_depth }
        ensures value { Yields (term_part (table_in around.now) (names_in_context around.now)) (direction_of around.now) around.now.depth (counted self.old) self.new result
            (term_at (context_in around.now) (text self.old)) }
        ensures reached { FailsBy result (λ kind. Reaches kind (counted self.old) around.now.depth (text self.old)) }
        ensures shorter { OnOk result (length (text self.new) ≤ length (text self.old)) }
    {
        match self.cursor.next_plain() {
            Some(c) => Ok(make_literal(self.cursor.alloc, c, &around.scope)?),
            None => self.consume_term::<RECORDS>(around),
        }
    }

    /// Parses the terms after the first one, up to the end of the alternative. Most of them need no test of the other
    /// productions.
    #[cycle(parser)]
    fn consume_terms<const RECORDS: bool>(
        &mut self,
        first: Node,
        around: &PartContext,
    ) -> Result<Node, Fault>
        requires { around.now.depth ≤ max_nesting_depth }
        ensures value { (t : Source) (before : Counts) (x : Term) → ends_alternative t ≡ false →
            term_at (context_in around.now) t ≡ Some (x, text self.old) →
            Builds (direction_of around.now) around.now.depth before self.old first (term_part (table_in around.now) (names_in_context around.now) x) (text self.old) →
            Yields (terms_part (table_in around.now) (names_in_context around.now)) (direction_of around.now) around.now.depth before self.new result
            (terms_at (context_in around.now) t) }
        ensures reached { FailsBy result (λ kind. Reaches kind (counted self.old) around.now.depth (text self.old)) }
    {
        let mut parts = Vec::with_capacity(self.cursor.alloc, USUAL_LENGTH)?;
        parts.push(first)?;
        while !self.cursor.ends_alternative() {
            let taken = push_simple_term(&mut self.cursor, &around.scope, &mut parts)?;
            if taken {
                continue;
            }
            parts.push(self.consume_term::<RECORDS>(around)?)?;
        }
        Ok(make_cat(parts, around.backwards))
    }

    /// Parses an item and the quantifier after it (ECMA-262, Term).
    #[cycle(parser)]
    fn consume_term<const RECORDS: bool>(&mut self, around: &PartContext) -> Result<Node, Fault>
        requires { around.now.depth ≤ max_nesting_depth }
        ensures value { Yields (term_part (table_in around.now) (names_in_context around.now)) (direction_of around.now) around.now.depth (counted self.old) self.new result
            (term_at (context_in around.now) (text self.old)) }
        ensures reached { FailsBy result (λ kind. Reaches kind (counted self.old) around.now.depth (text self.old)) }
        ensures spans { RECORDS ≡ true → OnOk result
            (RecordsTerm around.now.whole (context_in around.now) (direction_of around.now) (text self.old) self.old.spans.items (text self.new) self.new.spans.items) }
    {
        let start = ItemStart {
            groups: self.group_count,
            left: self.cursor.rest.len(),
        };
        if try_open(&mut self.cursor) {
            let kind = parse_head(&mut self.cursor, &around.scope)?;
            let allowed = kind.allows_quantifier(around.scope.flags.unicode);
            let item = self.consume_group::<RECORDS>(kind, start.left, around)?;
            return self.consume_times::<RECORDS>(item, allowed, start, around);
        }
        let front = self.cursor.rest;
        let left = MAX_NESTING_DEPTH - around.depth;
        let item = parse_atom(&mut self.cursor, &around.scope, left)?;
        record_nodes::<RECORDS>(&item, &mut self.spans, around, start.left, &self.cursor)?;
        // Most items have no quantifier.
        if !may_begin(self.cursor.rest) {
            return Ok(item);
        }
        let allowed = !begins_lone(front, around.scope.dialect);
        self.consume_quantifier::<RECORDS>(item, allowed, start, around)
    }

    /// Parses the quantifier after an item, if there is one (ECMA-262, Quantifier).
    #[inline(always)]
    fn consume_times<const RECORDS: bool>(
        &mut self,
        item: Node,
        allowed: bool,
        start: ItemStart,
        around: &PartContext,
    ) -> Result<Node, Fault>
        ensures value { (x : Item) (before : Counts) → before.groups ≡ start.groups → allowed ≡ allows (context_in around.now) (head_of_item x) →
            Builds (direction_of around.now) around.now.depth before self.old item (item_part (table_in around.now) (names_in_context around.now) x) (text self.old) →
            Yields (term_part (table_in around.now) (names_in_context around.now)) (direction_of around.now) around.now.depth before self.new result
            (with_quantifier (context_in around.now) (Some (x, text self.old))) }
        ensures reached { FailsBy result (λ kind. Reaches kind (counted self.old) around.now.depth (text self.old)) }
        ensures spans { (t : Source) (before : List Span) → RECORDS ≡ true → start.left ≡ length t →
            RecordsItem around.now.whole (context_in around.now) (direction_of around.now) t before (text self.old) self.old.spans.items allowed →
            OnOk result (RecordsTerm around.now.whole (context_in around.now) (direction_of around.now) t before (text self.new) self.new.spans.items) }
    {
        if !may_begin(self.cursor.rest) {
            return Ok(item);
        }
        self.consume_quantifier::<RECORDS>(item, allowed, start, around)
    }

    /// Parses the quantifier after an item, where one may begin, as [`Self::consume_times`] does.
    #[inline(always)]
    fn consume_quantifier<const RECORDS: bool>(
        &mut self,
        item: Node,
        allowed: bool,
        start: ItemStart,
        around: &PartContext,
    ) -> Result<Node, Fault>
        requires { may_begin (text self.old) ≡ true }
        ensures value { (x : Item) (before : Counts) → before.groups ≡ start.groups → allowed ≡ allows (context_in around.now) (head_of_item x) →
            Builds (direction_of around.now) around.now.depth before self.old item (item_part (table_in around.now) (names_in_context around.now) x) (text self.old) →
            Yields (term_part (table_in around.now) (names_in_context around.now)) (direction_of around.now) around.now.depth before self.new result
            (with_quantifier (context_in around.now) (Some (x, text self.old))) }
        ensures reached { FailsBy result (λ kind. Reaches kind (counted self.old) around.now.depth (text self.old)) }
        ensures spans { (t : Source) (before : List Span) → RECORDS ≡ true → start.left ≡ length t →
            RecordsItem around.now.whole (context_in around.now) (direction_of around.now) t before (text self.old) self.old.spans.items allowed →
            OnOk result (RecordsTerm around.now.whole (context_in around.now) (direction_of around.now) t before (text self.new) self.new.spans.items) }
    {
        let left = self.cursor.rest.len();
        let times = parse_optional_quantifier(&mut self.cursor, &around.scope, allowed)?;
        let Some(quantifier) = times else {
            return Ok(item);
        };
        self.count_loop(left)?;
        record_if::<RECORDS>(true, &mut self.spans, around, start.left, &self.cursor)?;
        Ok(make_loop(
            self.cursor.alloc,
            item,
            quantifier,
            start.groups..self.group_count,
        )?)
    }

    /// Parses a group, after the code points that open it. `opened` is the number of code points that remained before
    /// them.
    #[cycle(parser)]
    fn consume_group<const RECORDS: bool>(
        &mut self,
        kind: Group,
        opened: usize,
        around: &PartContext,
    ) -> Result<Node, Fault>
        ensures value { Yields (item_part (table_in around.now) (names_in_context around.now)) (direction_of around.now) around.now.depth (counted self.old) self.new result
            (item_after_head pattern_at (context_in around.now) (opens (group_of kind), text self.old)) }
        ensures reached { FailsBy result (λ kind. Reaches kind (counted self.old) around.now.depth (opening ∷ text self.old)) }
        ensures spans { (t : Source) → RECORDS ≡ true → opened ≡ length t →
            head_at (context_in around.now) t ≡ Some (opens (group_of kind), text self.old) → OnOk result
            (RecordsItem around.now.whole (context_in around.now) (direction_of around.now) t self.old.spans.items (text self.new) self.new.spans.items
            (group_allows around.now.scope.flags.unicode (group_of kind))) }
    {
        let first = self.group_count;
        self.count_group(&kind, opened)?;
        let contents = self.consume_disjunction::<RECORDS>(&around.inside(&kind))?;
        self.cursor.consume_closing(opened)?;
        record_if::<RECORDS>(
            has_node(&kind),
            &mut self.spans,
            around,
            opened,
            &self.cursor,
        )?;
        Ok(make_group(self.cursor.alloc, kind, first..self.group_count, contents)?)
    }
}
