//! Evaluating an instruction: whether there is an outcome from a state.
ghost use Rattle.std.specs.Prelude.{◌≡◌, ℕ, ◌<◌, ◌≤◌, IfSome, MatchOption, None, Some, false, length, option_map, slice_get, true};
ghost use Rattle.regress_prefilter.specs.OneCharacter.{takes_one};
ghost use Rattle.regress_leaves.specs.Leaves.{GoesTo, read_of};
ghost use Rattle.regress_leaves.specs.Subject.{subject};
ghost use Rattle.regress_tree.specs.Reading.{direction_if, next_character, of_bytes};
ghost use Rattle.regress_tree.specs.Steps.{MatchState};
ghost use Rattle.regress_tree.specs.Tree.{tree};
ghost use Rattle.regress_program.specs.Linear.{is_back_ref};
ghost use Rattle.regress_program.specs.Program.{Out, matcher_of, outcomes_by};
ghost use Rattle.regress_program.specs.Shape.{IsPart};
ghost use Rattle.regress_code.specs.Code.{code_routines};
ghost use Rattle.regress_program.specs.Views.{op_in};
ghost use Rattle.regress_tables.specs.Evaluated.{CanEvaluate, IsOneEnd, reached_cell};
ghost use Rattle.regress_tables.specs.Runs.{AreRuns};
ghost use Rattle.regress_tables.specs.Table.{AreRight, AreTables, IsRight, TellsOf, has_outcome};

use crate::characters::characters_end;
use crate::runs::Runs;
use crate::table::Table;
use regress_code::Code;
use regress_leaves::leaves::{accepts, all_of, exactly, simple_leaf};
use regress_leaves::rules::MatchContext;
use regress_leaves::test::Test;
use regress_program::instruction::Instruction;
use regress_tree::ir::Node;

/// What the bits of a routine are evaluated from.
#[derive(Clone, Copy)]
pub(crate) struct Input<'k, 't> {
    /// The text.
    pub(crate) text: &'t str,
    /// The flags and case mappings, with the direction of the routine.
    pub(crate) rules: MatchContext<'k>,
    /// The program.
    pub(crate) code: &'t Code,
    /// The full tables of the routines before this one.
    pub(crate) tables: &'t [Table],
}

impl<'t> Input<'_, 't> {
    /// Returns a leaf of the program, or `None` if it has none with this index.
    pub(crate) fn test(&self, leaf: usize) -> Option<&'t Test>
        ensures { MatchOption result (slice_get self.now.code.now.program.leaves.items leaf ≡ None)
            (λ test. slice_get self.now.code.now.program.leaves.items leaf ≡ Some test.now) }
    {
        let tests = &self.code.program.leaves;
        if leaf < tests.len() {
            Some(&tests[leaf])
        } else {
            None
        }
    }
}

/// Returns whether there is an outcome from an instruction, by the bits that are evaluated already and the next character.
pub(crate) fn evaluate(
    input: Input<'_, '_>,
    table: &Table,
    runs: &Runs,
    instruction: Instruction,
    moved: bool,
    position: usize,
    read: Option<(u32, usize)>,
) -> bool
    requires tables { AreTables input.text.now (code_routines input.code.now) input.tables.now }
    requires read { option_map read_of read ≡ next_character (direction_if input.rules.backwards) (of_bytes input.text.now) position }
    requires can { CanEvaluate input table.now (op_in input.code.now.program.leaves.items instruction) moved position }
    requires runs { AreRuns (subject input.rules input.text.now) input.code.now.program.leaves.items runs.now }
    ensures { (outs : ℕ → Out) → AreRight outs input.entry.tables.now → IsRight (outs (length input.entry.tables.now)) table.now →
        (let u = subject input.entry.rules input.entry.text.now in
        TellsOf (outcomes_by u.setting u.bytes u.direction (matcher_of u.setting u.bytes (code_routines input.entry.code.now) outs)
        (outs (length input.entry.tables.now)) (op_in input.entry.code.now.program.leaves.items instruction)) moved position result) }
{
    match instruction {
        Instruction::Accept => true,
        Instruction::Fail => false,
        Instruction::Leaf { leaf, next } => {
            let Some(test) = input.test(leaf) else {
                return false;
            };
            let to = end_after(input.text, input.rules, &test.node, position, read);
            reached(table, next, moved, position, to)
        }
        Instruction::Characters { leaf, count, next } => {
            let Some(test) = input.test(leaf) else {
                return false;
            };
            let run = runs.known_at(leaf, position);
            let to = characters_end(input.text, input.rules, test, count, run, position);
            reached(table, next, moved, position, to)
        }
        Instruction::Split { first, second } => {
            table.cell(first, moved, position) | table.cell(second, moved, position)
        }
        Instruction::BeginLoop { body, next, .. } => {
            table.cell(body, false, position) | table.cell(next, moved, position)
        }
        Instruction::Repeat { body, next, .. } => {
            moved & (table.cell(body, false, position) | table.cell(next, true, position))
        }
        Instruction::EndLoop { next } => moved & table.cell(next, true, position),
        Instruction::Unset { next, .. } => table.cell(next, moved, position),
        Instruction::BeginGroup { next } => table.cell(next, moved, position),
        Instruction::EndGroup { next, .. } => table.cell(next, moved, position),
        Instruction::Look {
            negate,
            routine,
            next,
        } => (looks(input, routine, position) != negate) & table.cell(next, moved, position),
    }
}

/// Returns the position at which a leaf ends, as `leaf_end` does, by the next character if it matches one.
pub(crate) fn end_after(
    text: &str,
    rules: MatchContext<'_>,
    node: &Node,
    position: usize,
    read: Option<(u32, usize)>,
) -> Option<usize>
    requires part { IsPart (tree node.now) }
    requires captures { is_back_ref (tree node.now) ≡ false }
    requires read { option_map read_of read ≡ next_character (direction_if rules.backwards) (of_bytes text.now) position }
    ensures { GoesTo (subject rules.entry text.now) position (tree node.now) result }
{
    if is_set(node) {
        one_end(node, read)
    } else {
        leaf_end(text, rules, node, position)
    }
}

/// Returns whether a leaf matches one character, and is no literal in UTF-8.
fn is_set(node: &Node) -> bool
    ensures { result ≡ true → takes_one (tree node.now) ≡ true }
{
    match node {
        Node::Char { .. }
        | Node::ByteSet(_)
        | Node::CharSet(_)
        | Node::MatchAny
        | Node::MatchAnyExceptLineTerminator
        | Node::Bracket(_) => true,
        _ => false,
    }
}

/// Returns the position after the next character, if the leaf accepts it.
fn one_end(node: &Node, read: Option<(u32, usize)>) -> Option<usize>
    ensures { IsOneEnd (tree node.now) read result }
{
    let (c, to) = read?;
    if accepts(node, c) { Some(to) } else { None }
}

/// Returns the position at which a leaf ends, or a loop over one character with an exact count; `None` if it fails. It is
/// no back reference, and a set of strings has only one.
pub(crate) fn leaf_end(
    text: &str,
    rules: MatchContext<'_>,
    node: &Node,
    position: usize,
) -> Option<usize>
    requires part { IsPart (tree node.now) }
    requires captures { is_back_ref (tree node.now) ≡ false }
    ensures { GoesTo (subject rules.entry text.now) position (tree node.now) result }
{
    match node {
        Node::StringSet {
            alternatives,
            icase,
        } => all_of(text, rules, *icase, &alternatives[0], position),
        Node::Loop1CharBody { loopee, quant } => {
            exactly(text, rules, loopee, quant.min, position)
        }
        _ => simple_leaf(text, rules, node, position),
    }
}

/// Returns whether there is an outcome after a part that ends at a position, if it matches.
fn reached(table: &Table, next: usize, moved: bool, position: usize, to: Option<usize>) -> bool
    requires next { next < table.now.width }
    requires to { IfSome to (λ q. q ≤ table.now.length) }
    ensures { result ≡ reached_cell table.now next moved position to }
{
    match to {
        Some(q) => table.cell(next, moved | (q != position), q),
        None => false,
    }
}

/// Returns whether another routine has an outcome from a position.
pub(crate) fn looks(input: Input<'_, '_>, routine: usize, position: usize) -> bool
    requires tables { AreTables input.text.now (code_routines input.code.now) input.tables.now }
    requires earlier { routine < length input.tables.now }
    requires position { position ≤ length input.text.now }
    ensures { (outs : ℕ → Out) → AreRight outs input.entry.tables.now → (s : MatchState) → s.position ≡ position →
        (let u = subject input.entry.rules input.entry.text.now in
        has_outcome (matcher_of u.setting u.bytes (code_routines input.entry.code.now) outs routine s) ≡ result) }
{
    input.tables[routine].cell(input.code.program.routines[routine].entry, true, position)
}
