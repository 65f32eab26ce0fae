//! What a run of a routine reads.
ghost use Rattle.std.specs.Prelude.{◌≡◌, ◌<◌, [], ℕ, IfSome, List, MatchOption, None, Option, Some, length, slice_get, true};
ghost use Rattle.regress_leaves.specs.Subject.{subject};
ghost use Rattle.regress_unicode.specs.TableOf.{table_of};
ghost use Rattle.regress_code.specs.Code.{code_routines};
ghost use Rattle.regress_code.specs.NextBytes.{FoldsIf};
ghost use Rattle.regress_tree.specs.Steps.{CaptureSpan};
ghost use Rattle.regress_found.specs.Found.{state};
ghost use Rattle.regress_program.specs.Program.{Out, matcher_of};
ghost use Rattle.regress_backtrack.specs.Next.{IsInput, Solve, instructions_in};
ghost use Rattle.regress_program.specs.declared.instruction.Instruction.TheVariants.{Leaf, Repeat, Split};
ghost use Rattle.regress_code.specs.Possessive.{IsPossessive};
ghost use Rattle.regress_code.specs.Rows.{IsRow};

use regress_code::Code;
use regress_code::analysis::Analysis;
use regress_code::next_bytes::NextBytes;
use regress_code::rows::Row;
use regress_code::skips::Skip;
use regress_leaves::rules::MatchContext;
use regress_leaves::test::Test;
use regress_program::instruction::{Instruction, Routine};

/// The text, the program, and the routine that is run.
#[derive(Clone, Copy)]
pub struct Input<'c, 'x> {
    /// The text.
    pub text: &'x str,
    /// The flags and case mappings, with the direction of the routine.
    pub rules: MatchContext<'x>,
    /// The program.
    pub code: &'c Code,
    /// The index of the routine.
    pub index: usize,
    /// The routine.
    pub routine: &'c Routine,
    /// The first instructions of the routine: those that are stored one by one.
    pub leading: &'c [Instruction],
    /// The next bytes of the first instructions.
    pub next_bytes: &'c [NextBytes],
    /// The skips of the first instructions.
    pub skips: &'c [Skip],
    /// The rows of choices between strings.
    pub rows: &'c [Row],
    /// For each of the first instructions whether it is known to end an iteration of a possessive loop; empty if the
    /// next bytes do not hold.
    pub possessive: &'c [bool],
    /// The index of the instruction at which a match starts.
    pub first: usize,
    /// The number of entries for which each backtrack stack may have room.
    pub room: usize,
}

/// Returns the input for the routine with this index. Each backtrack stack may have room for `room` entries.
///
/// # Preconditions
/// There is a routine with this index.
pub fn input_for<'c, 'x>(
    text: &'x str,
    rules: MatchContext<'x>,
    code: &'c Code,
    index: usize,
    room: usize,
) -> Input<'c, 'x>
    requires { index < length (code_routines code.now) }
    ensures input { IsInput result }
    ensures text { result.text.now ≡ text.now }
    ensures setting { (subject result.rules text.now).setting ≡ (subject rules.entry text.now).setting }
    ensures tables { result.rules.known.tables.now ≡ rules.entry.known.tables.now }
    ensures code { result.code.now ≡ code.now }
    ensures index { result.index ≡ index }
    ensures room { result.room ≡ room }
{
    let routine = &code.program.routines[index];
    let input = Input {
        text,
        rules: MatchContext {
            backwards: routine.backwards,
            ..rules
        },
        code,
        index,
        routine,
        leading: routine.leading(),
        next_bytes: &[],
        skips: &[],
        rows: &[],
        possessive: &[],
        first: routine.entry,
        room,
    };
    match analysis_of(code, rules, index) {
        Some(analysis) => Input {
            next_bytes: &analysis.next_bytes,
            skips: &analysis.skips,
            rows: &analysis.rows,
            possessive: &analysis.possessive,
            ..input
        },
        None => input,
    }
}

/// Returns the analysis of a routine, or `None` if it does not hold under these flags and case mappings.
#[inline(always)]
fn analysis_of<'c>(code: &'c Code, rules: MatchContext<'_>, index: usize) -> Option<&'c Analysis>
    ensures analysis { IfSome result (λ a. slice_get code.now.analyses.items index ≡ Some a.now) }
    ensures folds { IfSome result (λ a. FoldsIf code.now.folds (record { flags = rules.entry.flags; table = table_of rules.entry.known.tables.now })) }
{
    if uses_next_bytes(code, rules) && index < code.analyses.len() {
        Some(&code.analyses[index])
    } else {
        None
    }
}

/// Returns whether a routine is known to fail at a position, by the byte next to it.
///
/// # Preconditions
/// There is a routine with this index.
#[inline(always)]
pub(crate) fn routine_fails(input: &Input<'_, '_>, index: usize, position: usize) -> bool
    requires { index < length (code_routines input.now.code.now) }
    ensures { result ≡ true → (outs : ℕ → Out) → Solve input.now outs → (captures : List (Option CaptureSpan)) →
        (let u = subject input.now.rules input.now.text.now in
        matcher_of u.setting u.bytes (code_routines input.now.code.now) outs index (state captures position) ≡ []) }
{
    let Some(analysis) = analysis_of(input.code, input.rules, index) else {
        return false;
    };
    let routine = &input.code.program.routines[index];
    if routine.entry >= analysis.next_bytes.len() {
        return false;
    }
    analysis.next_bytes[routine.entry].excludes(input.text, routine.backwards, position)
}

/// Returns whether the next bytes of a program hold under these flags and case mappings.
#[inline(always)]
fn uses_next_bytes(code: &Code, rules: MatchContext<'_>) -> bool
    ensures { result ≡ true → FoldsIf code.now.folds (record { flags = rules.entry.flags; table = table_of rules.entry.known.tables.now }) }
{
    !code.folds || rules.known.has_ascii_case(rules.flags)
}

/// Returns an instruction of the routine.
///
/// # Preconditions
/// The input is one that `input_for` returns, and there is an instruction with this index.
#[inline(always)]
pub fn instruction_at(input: &Input<'_, '_>, pc: usize) -> Instruction
    requires input { IsInput input.now }
    requires pc { pc < length (instructions_in input.now) }
    ensures { slice_get (instructions_in input.now) pc ≡ Some result }
{
    if pc < input.leading.len() {
        input.leading[pc]
    } else {
        later_copied(input, pc)
    }
}

/// Returns an instruction of the routine that is not one of the first ones. Its result is copied, so that that of the other
/// branch of [`instruction_at`] can stay in registers.
///
/// # Preconditions
/// There is an instruction with this index.
#[inline(always)]
fn later_copied(input: &Input<'_, '_>, pc: usize) -> Instruction
    requires { pc < length (instructions_in input.now) }
    ensures { slice_get (instructions_in input.now) pc ≡ Some result }
{
    let later = later_instruction(input, pc);
    later
}

/// Returns an instruction of the routine that is not one of the first ones. It is seldom called.
///
/// # Preconditions
/// There is an instruction with this index.
#[cold]
#[inline(never)]
fn later_instruction(input: &Input<'_, '_>, pc: usize) -> Instruction
    requires { pc < length (instructions_in input.now) }
    ensures { slice_get (instructions_in input.now) pc ≡ Some result }
{
    input.routine.at(pc)
}

/// Returns the alternatives of a choice, or `None` if the instruction is none.
///
/// # Preconditions
/// The input is one that `input_for` returns, and there is an instruction with this index.
#[inline(always)]
pub(crate) fn choice_at(input: &Input<'_, '_>, pc: usize) -> Option<(usize, usize)>
    requires input { IsInput input.now }
    requires pc { pc < length (instructions_in input.now) }
    ensures { IfSome result (λ r. slice_get (instructions_in input.now) pc ≡ Some (Split r.0 r.1)) }
{
    if pc < input.leading.len() {
        choice_of(&input.leading[pc])
    } else {
        later_choice(input, pc)
    }
}

/// Returns the same as [`choice_at`], for an instruction that is not one of the first ones.
///
/// # Preconditions
/// There is an instruction with this index.
#[inline(always)]
fn later_choice(input: &Input<'_, '_>, pc: usize) -> Option<(usize, usize)>
    requires { pc < length (instructions_in input.now) }
    ensures { IfSome result (λ r. slice_get (instructions_in input.now) pc ≡ Some (Split r.0 r.1)) }
{
    choice_of(&later_instruction(input, pc))
}

/// Returns the alternatives of a choice, or `None` if the instruction is none.
#[inline(always)]
fn choice_of(instruction: &Instruction) -> Option<(usize, usize)>
    ensures { IfSome result (λ r. instruction.now ≡ Split r.0 r.1) }
{
    match *instruction {
        Instruction::Split { first, second } => Some((first, second)),
        _ => None,
    }
}

/// Returns the leaf that an instruction matches and the instruction after it, or `None` if it matches no leaf.
///
/// # Preconditions
/// The input is one that `input_for` returns, and there is an instruction with this index.
#[inline(always)]
pub(crate) fn leaf_at(input: &Input<'_, '_>, pc: usize) -> Option<(usize, usize)>
    requires input { IsInput input.now }
    requires pc { pc < length (instructions_in input.now) }
    ensures { IfSome result (λ r. slice_get (instructions_in input.now) pc ≡ Some (Leaf r.0 r.1)) }
{
    if pc < input.leading.len() {
        leaf_of(&input.leading[pc])
    } else {
        later_leaf(input, pc)
    }
}

/// Returns the same as [`leaf_at`], for an instruction that is not one of the first ones.
///
/// # Preconditions
/// There is an instruction with this index.
#[inline(always)]
fn later_leaf(input: &Input<'_, '_>, pc: usize) -> Option<(usize, usize)>
    requires { pc < length (instructions_in input.now) }
    ensures { IfSome result (λ r. slice_get (instructions_in input.now) pc ≡ Some (Leaf r.0 r.1)) }
{
    leaf_of(&later_instruction(input, pc))
}

/// Returns the leaf that an instruction matches and the instruction after it, or `None` if it matches no leaf.
#[inline(always)]
fn leaf_of(instruction: &Instruction) -> Option<(usize, usize)>
    ensures { IfSome result (λ r. instruction.now ≡ Leaf r.0 r.1) }
{
    match *instruction {
        Instruction::Leaf { leaf, next } => Some((leaf, next)),
        _ => None,
    }
}

/// Returns whether there is an instruction with this index that ends the iterations of a greedy loop.
///
/// # Preconditions
/// The input is one that `input_for` returns.
#[inline(always)]
pub(crate) fn repeats_at(input: &Input<'_, '_>, pc: usize, body: usize, next: usize) -> bool
    requires { IsInput input.now }
    ensures within { result ≡ true → pc < length (instructions_in input.now) }
    ensures repeats { result ≡ true → slice_get (instructions_in input.now) pc ≡ Some (Repeat true body next) }
{
    if pc < input.leading.len() {
        repeats(&input.leading[pc], body, next)
    } else {
        later_repeats(input, pc, body, next)
    }
}

/// Returns the same as [`repeats_at`], for an instruction that is not one of the first ones. It is seldom called.
#[cold]
#[inline(never)]
fn later_repeats(input: &Input<'_, '_>, pc: usize, body: usize, next: usize) -> bool
    ensures within { result ≡ true → pc < length (instructions_in input.now) }
    ensures repeats { result ≡ true → slice_get (instructions_in input.now) pc ≡ Some (Repeat true body next) }
{
    pc < input.routine.len() && repeats(&later_instruction(input, pc), body, next)
}

/// Returns whether an instruction ends the iterations of a greedy loop.
#[inline(always)]
fn repeats(instruction: &Instruction, body: usize, next: usize) -> bool
    ensures { result ≡ true → instruction.now ≡ Repeat true body next }
{
    match *instruction {
        Instruction::Repeat {
            greedy,
            body: start,
            next: after,
        } => greedy && start == body && after == next,
        _ => false,
    }
}

/// Returns an instruction of the routine, or `None` if it has none with this index.
///
/// # Preconditions
/// The input is one that `input_for` returns.
pub(crate) fn instruction_in(input: &Input<'_, '_>, pc: usize) -> Option<Instruction>
    requires { IsInput input.now }
    ensures { IfSome result (λ instruction. (pc < length (instructions_in input.now))
        × (slice_get (instructions_in input.now) pc ≡ Some instruction)) }
{
    if pc < input.routine.len() {
        Some(instruction_at(input, pc))
    } else {
        None
    }
}

/// Returns a leaf of the program, or `None` if it has none with this index.
#[inline(always)]
pub fn test_at<'c>(input: &Input<'c, '_>, leaf: usize) -> Option<&'c Test>
    ensures { MatchOption result (slice_get input.now.code.now.program.leaves.items leaf ≡ None)
        (λ test. slice_get input.now.code.now.program.leaves.items leaf ≡ Some test.now) }
{
    let leaves = &input.code.program.leaves;
    if leaf < leaves.len() {
        Some(&leaves[leaf])
    } else {
        None
    }
}

/// Returns the next bytes of an instruction of the routine, or `None` if there is none with this index.
#[inline(always)]
pub fn next_bytes_at<'c>(input: &Input<'c, '_>, pc: usize) -> Option<&'c NextBytes>
    ensures { IfSome result (λ next_byte. slice_get input.now.next_bytes.now pc ≡ Some next_byte.now) }
{
    if pc < input.next_bytes.len() {
        Some(&input.next_bytes[pc])
    } else {
        None
    }
}

/// Returns the skip of an instruction of the routine, or `None` if there is none with this index.
#[inline(always)]
pub(crate) fn skip_at<'c>(input: &Input<'c, '_>, pc: usize) -> Option<&'c Skip>
    ensures { IfSome result (λ skip. slice_get input.now.skips.now pc ≡ Some skip.now) }
{
    if pc < input.skips.len() {
        Some(&input.skips[pc])
    } else {
        None
    }
}

/// Returns the row of choices between strings that an instruction is in, or `None` if it is in none.
///
/// # Preconditions
/// The input is one that `input_for` returns.
#[inline(always)]
pub(crate) fn row_at<'c>(input: &Input<'c, '_>, pc: usize) -> Option<&'c Row>
    requires { IsInput input.now }
    ensures row { IfSome result (λ row. IsRow input.now.code.now.folds input.now.code.now.program.leaves.items (instructions_in input.now) input.now.rules.backwards row.now) }
    ensures folds { IfSome result (λ row. FoldsIf input.now.code.now.folds (subject input.now.rules input.now.text.now).setting) }
{
    let Some(Skip::Row(row)) = skip_at(input, pc) else {
        return None;
    };
    if *row < input.rows.len() {
        Some(&input.rows[*row])
    } else {
        None
    }
}

/// Returns whether an instruction is known to end an iteration of a possessive loop.
///
/// # Preconditions
/// The input is one that `input_for` returns.
#[inline(always)]
pub(crate) fn is_possessive(input: &Input<'_, '_>, pc: usize) -> bool
    requires { IsInput input.now }
    ensures { result ≡ true → IsPossessive input.now.next_bytes.now input.now.code.now.program.leaves.items (instructions_in input.now) pc }
{
    pc < input.possessive.len() && input.possessive[pc]
}
