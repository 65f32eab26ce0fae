//! A loop over one character at the start of a pattern.
ghost use Rattle.std.specs.Prelude.{◌≡◌, ◌≤◌, ◌<◌, ◌+◌, [], ℕ, IfSome, None, false, length, slice_index, true};
ghost use Rattle.regress_unicode.specs.declared.Tables.{Tables};
ghost use Rattle.regress_program.specs.Program.{IsSolution, Out};
ghost use Rattle.regress_code.specs.Code.{code_routines, outcomes_from, setting_with};
ghost use Rattle.regress_code.specs.declared.code.Code.{Code};
ghost use Rattle.regress_backtrack.specs.Next.{Fails, IsInput};
ghost use Rattle.regress_backtrack.specs.Lead.{BeginsAt, BeginsFrom, BeginsWithin, IsBeforeLeaf, IsBegun, IsIn, IsLead, IsLed, IsRequired, LeadsInto};
ghost use Rattle.regress_backtrack.specs.Searched.{IsFor};
ghost use Rattle.regress_backtrack.specs.Sweep.{IsCharacterAt};

use crate::alternatives::{Looping, fails};
use crate::input::{Input, instruction_in, is_possessive, test_at};
use crate::machine::Place;
use crate::sweep::sole_leaf;
use regress_base::bytesearch::ByteBitmap;
use regress_leaves::ascii::count_of;
use regress_leaves::start::Start;
use regress_program::instruction::Instruction;

/// A loop at the start of a pattern that is greedy and without a maximum, over a leaf that matches one character: that of
/// `a*`, of `ab*`, of `-?ab*`, or of `(ab*)`.
#[derive(Clone, Copy)]
pub(crate) struct Lead<'c> {
    /// The ASCII characters that an optional leaf at the start matches, if there is one. It matches one character, too.
    pub(crate) optional: Option<&'c ByteBitmap>,
    /// The ASCII characters that the leaf before the loop matches, if there is one. It matches one character, too.
    pub(crate) before: Option<&'c ByteBitmap>,
    /// The ASCII characters that the leaf of the loop matches.
    pub(crate) set: &'c ByteBitmap,
    /// The loop.
    pub(crate) looping: Looping,
    /// Whether the loop is known to be possessive.
    pub(crate) possessive: bool,
    /// Whether a capture group may begin before the loop.
    pub(crate) grouped: bool,
}

/// Returns the loop at the start of the pattern, if there is one.
///
/// # Preconditions
/// The input is one that `input_for` returns.
pub(crate) fn lead_of<'c>(input: &Input<'c, '_>) -> Option<Lead<'c>>
    requires { IsInput input.now }
    ensures { IfSome result (IsLead input.now) }
{
    let start = contents_at(input, input.first);
    let lead = lead_from(input, start)?;
    Some(Lead {
        grouped: lead.grouped || start != input.first,
        ..lead
    })
}

/// Returns the contents of the capture group that an instruction begins, or the instruction, if it begins none.
///
/// # Preconditions
/// The input is one that `input_for` returns.
fn contents_at(input: &Input<'_, '_>, pc: usize) -> usize
    requires { IsInput input.now }
    ensures { LeadsInto input.now pc result }
{
    match instruction_in(input, pc) {
        Some(Instruction::BeginGroup { next }) => next,
        _ => pc,
    }
}

/// Returns the loop that an instruction begins, also after an optional leaf, and in a capture group after that.
///
/// # Preconditions
/// The input is one that `input_for` returns.
fn lead_from<'c>(input: &Input<'c, '_>, start: usize) -> Option<Lead<'c>>
    requires { IsInput input.now }
    ensures { IfSome result (λ lead. BeginsFrom input.now lead start) }
{
    let Instruction::Split { first, second } = instruction_in(input, start)? else {
        return lead_in(input, start);
    };
    let (optional, next) = character_at(input, first)?;
    if next != second {
        return None;
    }
    let lead = lead_in(input, second)?;
    Some(Lead {
        optional: Some(optional),
        ..lead
    })
}

/// Returns the loop that an instruction begins, also in a capture group.
///
/// # Preconditions
/// The input is one that `input_for` returns.
fn lead_in<'c>(input: &Input<'c, '_>, pc: usize) -> Option<Lead<'c>>
    requires { IsInput input.now }
    ensures begins { IfSome result (λ lead. BeginsWithin input.now lead pc) }
    ensures required { IfSome result (λ lead. lead.optional ≡ None) }
{
    let contents = contents_at(input, pc);
    let lead = lead_at(input, contents)?;
    Some(Lead {
        grouped: contents != pc,
        ..lead
    })
}

/// Returns the loop that an instruction begins, also after a leaf, if it is such a loop, with no optional leaf before it.
///
/// # Preconditions
/// The input is one that `input_for` returns.
fn lead_at<'c>(input: &Input<'c, '_>, pc: usize) -> Option<Lead<'c>>
    requires { IsInput input.now }
    ensures begins { IfSome result (λ lead. BeginsAt input.now lead pc) }
    ensures required { IfSome result (λ lead. lead.optional ≡ None) }
{
    let Some((before, next)) = character_at(input, pc) else {
        return loop_at(input, pc);
    };
    let lead = loop_at(input, next)?;
    Some(Lead {
        before: Some(before),
        ..lead
    })
}

/// Returns the loop that an instruction begins, if it is such a loop, with no leaf before it.
///
/// # Preconditions
/// The input is one that `input_for` returns.
#[inline(always)]
fn loop_at<'c>(input: &Input<'c, '_>, pc: usize) -> Option<Lead<'c>>
    requires { IsInput input.now }
    ensures begun { IfSome result (λ lead. IsBegun input.now lead pc) }
    ensures bare { IfSome result (λ lead. lead.before ≡ None) }
    ensures required { IfSome result (λ lead. lead.optional ≡ None) }
{
    let Instruction::BeginLoop { greedy, body, next } = instruction_in(input, pc)? else {
        return None;
    };
    if !greedy || body >= input.routine.len() {
        return None;
    }
    let looping = Looping { greedy, body, next };
    let swept = sole_leaf(input, looping)?;
    Some(Lead {
        optional: None,
        before: None,
        set: swept.set,
        looping,
        possessive: is_possessive(input, swept.repeat_pc),
        grouped: false,
    })
}

/// Returns the ASCII characters of the leaf that an instruction matches, if it matches one character, and the instruction
/// after it.
///
/// # Preconditions
/// The input is one that `input_for` returns.
fn character_at<'c>(input: &Input<'c, '_>, pc: usize) -> Option<(&'c ByteBitmap, usize)>
    requires { IsInput input.now }
    ensures { IfSome result (λ r. IsCharacterAt input.now pc r.1 r.0.now) }
{
    let Instruction::Leaf { leaf, next } = instruction_in(input, pc)? else {
        return None;
    };
    match &test_at(input, leaf)?.start {
        Start::Ascii(set) => Some((set, next)),
        _ => None,
    }
}

/// Returns a byte offset after `position`. Where no match begins at `position`, none begins before that offset: it is the
/// end of the characters of the loop with which the pattern begins, or the offset of the last one if an optional leaf
/// matches it.
///
/// # Preconditions
/// The position is inside the text.
///
/// # Complexity
/// Linear in the number of bytes up to the result.
#[inline(always)]
pub(crate) fn next_after(
    input: &Input<'_, '_>,
    lead: &Option<Lead<'_>>,
    text: &str,
    position: usize,
) -> usize
    requires lead { IfSome lead.now (IsLead input.now) }
    requires position { position ≤ length text.now }
    ensures low { position < result }
    ensures high { result ≤ length text.now + 1 }
    ensures skipped { (code : Code) (tables : Tables) → IsFor code tables text.now input.now →
        (outs : ℕ → Out) → IsSolution (setting_with code tables) text.now (code_routines code) outs →
        outcomes_from code tables text.now outs position ≡ [] →
        (k : ℕ) → position < k → k < result → outcomes_from code tables text.now outs k ≡ [] }
{
    let Some(lead) = lead else {
        return position + 1;
    };
    // in a group the captures differ, on which what follows may depend
    if lead.grouped {
        return position + 1;
    }
    match loop_end(lead, text, position) {
        Some(end) => without_optional(lead, text, position, end).max(position + 1),
        None => position + 1,
    }
}

/// Returns a byte offset after `position` before which no match begins, if that is known: if the loop at the start of the
/// pattern is possessive, and neither an iteration nor what follows begins at the end of its characters.
///
/// # Preconditions
/// The input is one that `input_for` returns, for this text, and the position is inside the text.
///
/// # Complexity
/// Linear in the number of characters of the loop.
#[inline(always)]
pub(crate) fn passed(
    input: &Input<'_, '_>,
    lead: &Option<Lead<'_>>,
    text: &str,
    position: usize,
) -> Option<usize>
    requires input { IsInput input.now }
    requires lead { IfSome lead.now (IsLead input.now) }
    requires text { input.now.text.now ≡ text.now }
    requires position { position ≤ length text.now }
    ensures low { IfSome result (λ to. position < to) }
    ensures high { IfSome result (λ to. to ≤ length text.now) }
    ensures skipped { IfSome result (λ to. (code : Code) (tables : Tables) → IsFor code tables text.now input.now →
        (outs : ℕ → Out) → IsSolution (setting_with code tables) text.now (code_routines code) outs →
        (k : ℕ) → position ≤ k → k < to → outcomes_from code tables text.now outs k ≡ []) }
{
    match lead {
        Some(lead) if lead.possessive => passed_by(input, lead, text, position),
        _ => None,
    }
}

/// Returns the same, by a loop that is possessive.
///
/// # Preconditions
/// As for [`passed`]; the loop is the one with which the pattern begins, and possessive.
#[inline(never)]
fn passed_by(input: &Input<'_, '_>, lead: &Lead<'_>, text: &str, position: usize) -> Option<usize>
    requires input { IsInput input.now }
    requires lead { IsLead input.now lead.now }
    requires possessive { lead.now.possessive ≡ true }
    requires text { input.now.text.now ≡ text.now }
    requires position { position ≤ length text.now }
    ensures low { IfSome result (λ to. position < to) }
    ensures high { IfSome result (λ to. to ≤ length text.now) }
    ensures skipped { IfSome result (λ to. (code : Code) (tables : Tables) → IsFor code tables text.now input.now →
        (outs : ℕ → Out) → IsSolution (setting_with code tables) text.now (code_routines code) outs →
        (k : ℕ) → position ≤ k → k < to → outcomes_from code tables text.now outs k ≡ []) }
{
    let start = after_optional(lead, text, position);
    let end = loop_end(lead, text, start)?;
    let to = without_optional(lead, text, start, end);
    // next bytes say nothing at the start of the text
    if start > 0 && to > start && fails_after(input, lead, end) {
        Some(to)
    } else {
        None
    }
}

/// Returns the offset after the character at a position, if only an optional leaf can match it, or the position.
///
/// # Preconditions
/// The position is inside the text.
#[inline(always)]
fn after_optional(lead: &Lead<'_>, text: &str, position: usize) -> usize
    requires { position ≤ length text.now }
    ensures low { position ≤ result }
    ensures near { result ≤ position + 1 }
    ensures high { result ≤ length text.now }
    ensures other { position < result → IsBeforeLeaf lead.now text.now position }
{
    match (lead.optional, lead.before) {
        (Some(_), Some(before)) if is_other(before, text, position) => position + 1,
        _ => position,
    }
}

/// Returns whether the character at a position is an ASCII character that is not in the set.
#[inline(always)]
fn is_other(set: &ByteBitmap, text: &str, position: usize) -> bool
    ensures inside { result ≡ true → position < length text.now }
    ensures ascii { result ≡ true → slice_index text.now position < 128 }
    ensures other { result ≡ true → IsIn set.now text.now position → ⊥ }
{
    let bytes = text.as_bytes();
    position < bytes.len() && bytes[position].is_ascii() && !set.contains(bytes[position])
}

/// Returns the end of the characters that the loop matches from a position on, with the leaf before it, or `None` if that
/// leaf matches no ASCII character there.
///
/// # Preconditions
/// The position is inside the text.
///
/// # Complexity
/// Linear in the number of these characters.
#[inline(always)]
fn loop_end(lead: &Lead<'_>, text: &str, position: usize) -> Option<usize>
    requires { position ≤ length text.now }
    ensures led { IfSome result (IsLed lead.now text.now position) }
    ensures low { IfSome result (λ end. position ≤ end) }
    ensures high { IfSome result (λ end. end ≤ length text.now) }
{
    match lead.before {
        Some(before) if is_in(before, text, position) => {
            Some(position + 1 + count_of(text, lead.set, position + 1))
        }
        Some(_) => None,
        None => Some(position + count_of(text, lead.set, position)),
    }
}

/// Returns `end`, or the offset of the last character before it, `from` or later, if an optional leaf matches that.
#[inline(always)]
fn without_optional(lead: &Lead<'_>, text: &str, from: usize, end: usize) -> usize
    requires { from ≤ end }
    ensures low { from ≤ result }
    ensures high { result ≤ end }
    ensures required { (k : ℕ) → k + 1 ≡ end → k < result → from ≤ k → IsRequired lead.now text.now k }
{
    match lead.optional {
        Some(optional) if from < end && is_in(optional, text, end - 1) => end - 1,
        _ => end,
    }
}

/// Returns whether no iteration of the loop begins at a position, and nothing that follows it.
#[inline(always)]
fn fails_after(input: &Input<'_, '_>, lead: &Lead<'_>, position: usize) -> bool
    requires { IsInput input.now }
    ensures next { result ≡ true → Fails input.now (record { pc = lead.now.looping.next; moved = true; position = position }) }
    ensures body { result ≡ true → Fails input.now (record { pc = lead.now.looping.body; moved = false; position = position }) }
{
    let next = Place {
        pc: lead.looping.next,
        moved: true,
        position,
    };
    let body = Place {
        pc: lead.looping.body,
        moved: false,
        position,
    };
    fails(input, next) && fails(input, body)
}

/// Returns whether the character at a position is an ASCII character of the set.
#[inline(always)]
fn is_in(set: &ByteBitmap, text: &str, position: usize) -> bool
    ensures is_in { result ≡ true → IsIn set.now text.now position }
    ensures tests { IsIn set.now text.now position → result ≡ true }
{
    let bytes = text.as_bytes();
    position < bytes.len() && bytes[position].is_ascii() && set.contains(bytes[position])
}
