//! Rows that were filled, by what they were computed from.
ghost use Rattle.std.specs.Prelude.{◌≡◌, ◌≢◌, ◌<◌, ℕ, ◌⊎◌, All, IfOk, IfSome, None, Some, false, slice_get, true};
ghost use Rattle.regress_leaves.specs.Subject.{subject};
ghost use Rattle.regress_program.specs.Listed.{listed};
ghost use Rattle.regress_program.specs.Program.{Op};
ghost use Rattle.regress_program.specs.Views.{op_in, ops_in};
ghost use Rattle.regress_tables.specs.Repetitions.{AreRepetitions, IsCoded};
ghost use Rattle.regress_tables.specs.Runs.{AreRuns};
ghost use Rattle.regress_tables.specs.declared.table.Table.{Table};
ghost use Rattle.regress_tables.specs.Memo.{AreBytesOf, AreFarBytes, Covers, IsDirect, IsKept, IsNear, direct_index};

use crate::evaluate::Input;
use crate::repeated::is_one;
use crate::repetitions::Repetitions;
use crate::runs::Runs;
use crate::symbols::Symbols;
use regress_base::bytesearch::ByteBitmap;
use regress_code::next_bytes::{NextBytes, instruction_next_bytes};
use regress_program::instruction::{Instruction, Routine};
use std::alloc::{AllocError, Global};

/// What the row at a position is computed from.
#[derive(Clone, Copy)]
pub struct Key {
    /// The representative of the next character, plus 1; 0 if there is none.
    pub symbol: u64,
    /// The number of the row at the position after that character, in the direction of matching.
    pub from: usize,
    /// What the other instructions lead to that look at the text, as digits.
    pub probes: u64,
}

/// A row, and what it was computed from.
#[derive(Clone, Copy)]
pub struct Entry {
    /// What it was computed from.
    pub key: Key,
    /// Its number.
    pub row: usize,
}

/// The rows that were filled so far.
#[derive(Drop)]
pub(crate) struct Memo<'t> {
    /// The instructions that look at the text, but for those that match one character. Those that match an exact number of
    /// characters are last.
    pub(crate) far: Vec<usize>,
    /// The next bytes of all of those.
    pub(crate) far_bytes: NextBytes,
    /// Those of them that match an exact number of characters.
    pub(crate) repetitions: Repetitions,
    /// The characters in a row that leaves of those match.
    pub(crate) runs: Runs,
    /// The representatives of characters.
    pub(crate) symbols: Symbols<'t>,
    /// Rows by the number of the row that they follow and the representative of the next character, for ASCII characters at
    /// which no other instruction leads anywhere: 128 for each row. It is the number of the row and 1, or 0 if none was filled.
    pub(crate) direct: Vec<u32>,
    /// Other rows by the hash of what they were computed from.
    pub(crate) slots: Vec<Option<Entry>>,
    /// Rows by the hash of their bits.
    pub(crate) heads: Vec<usize>,
}

/// The largest number of slots.
const SLOTS: usize = 1024;

/// The largest number of rows for which those that follow are found directly.
const DIRECT_ROWS: usize = 64;

/// The number of positions for each of these rows, so that they take no more time than the text.
const POSITIONS: usize = 64;

impl<'t> Memo<'t> {
    /// Returns a memo for a routine, without a row. For a short text it has a slot for each position.
    ///
    /// # Errors
    /// Returns [`AllocError`] if an allocation fails.
    pub(crate) fn new(
        alloc: Global,
        input: Input<'_, 't>,
        routine: &Routine,
    ) -> Result<Memo<'t>, AllocError>
        ensures covers { IfOk result (λ memo. Covers (ops_in input.entry.code.now.program.leaves.items (listed routine.now)) memo.far.items) }
        ensures bytes { IfOk result (λ memo. (let u = subject input.entry.rules input.entry.text.now in
            AreFarBytes u.setting u.bytes u.direction (ops_in input.entry.code.now.program.leaves.items (listed routine.now)) memo.far.items memo.far_bytes)) }
        ensures tests { IfOk result (λ memo. memo.symbols.tests.now ≡ input.entry.code.now.program.leaves.items) }
        ensures repetitions { IfOk result (λ memo. AreRepetitions input.entry.code.now.program.leaves.items
            (ops_in input.entry.code.now.program.leaves.items (listed routine.now)) memo.far.items memo.repetitions) }
        ensures digits { IfOk result (λ memo. (t : Table) → IsCoded t memo.repetitions) }
        ensures runs { IfOk result (λ memo. AreRuns (subject input.entry.rules input.entry.text.now) input.entry.code.now.program.leaves.items memo.runs) }
        ensures empty { IfOk result (λ memo. (key : Key) (row : ℕ) → IsKept memo (Some key) row → ⊥) }
    {
        let count = SLOTS.min(input.text.len() + 1);
        let rows = DIRECT_ROWS.min(input.text.len() / POSITIONS);
        let listed = far_of(alloc, input, routine)?;
        let (far, repetitions) = Repetitions::new(alloc, input, routine, &listed)?;
        let far_bytes = far_bytes_of(input, routine, &far);
        Ok(Memo {
            far,
            far_bytes,
            repetitions,
            runs: Runs::new(),
            symbols: Symbols::new(&input.code.program.leaves, rows > 0),
            direct: vec![in alloc; 0; rows * 128]?,
            slots: empty_slots(alloc, count)?,
            heads: vec![in alloc; 0; count]?,
        })
    }

    /// Returns the number of a row that was computed from this, below `rows`, or `None` if none is found.
    pub(crate) fn find(&self, key: Option<Key>, rows: usize) -> Option<usize>
        ensures row { IfSome result (λ row. row < rows) }
        ensures found { IfSome result (λ row. IsKept self.now key row) }
    {
        let key = key?;
        if let Some(index) = direct_index(key, self.direct.len()) {
            let next = self.direct[index] as usize;
            if next == 0 || next > rows {
                return None;
            }
            return Some(next - 1);
        }
        let slot = slot_of(hash_of(key), self.slots.len());
        if slot >= self.slots.len() {
            return None;
        }
        let entry = self.slots[slot]?;
        if !is_same(entry.key, key) || entry.row >= rows {
            return None;
        }
        Some(entry.row)
    }

    /// Keeps the number of a row by what it was computed from, if that is known.
    pub(crate) fn add(&mut self, key: Option<Key>, row: usize)
        ensures far { self.new.far.items ≡ self.old.far.items }
        ensures bytes { self.new.far_bytes ≡ self.old.far_bytes }
        ensures tests { self.new.symbols.tests ≡ self.old.symbols.tests }
        ensures repetitions { self.new.repetitions ≡ self.old.repetitions }
        ensures runs { self.new.runs ≡ self.old.runs }
        ensures kept { (k : Key) (n : ℕ) → IsKept self.new (Some k) n → IsKept self.old (Some k) n ⊎ ((key ≡ Some k) × (n ≡ row)) }
    {
        let Some(key) = key else {
            return;
        };
        if let Some(index) = direct_index(key, self.direct.len()) {
            if row < u32::MAX as usize {
                self.direct[index] = row as u32 + 1;
            }
            return;
        }
        let slot = slot_of(hash_of(key), self.slots.len());
        if slot < self.slots.len() {
            self.slots[slot] = Some(Entry { key, row });
        }
    }
}

/// Returns the index of a key among `count` rows that are found directly, or `None` if it has none.
fn direct_index(key: Key, count: usize) -> Option<usize>
    ensures index { IfSome result (λ index. index ≡ direct_index key) }
    ensures direct { IfSome result (λ _. IsDirect key) }
    ensures within { IfSome result (λ index. index < count) }
{
    if key.probes != 0 || key.symbol == 0 || key.symbol > 128 || key.from >= DIRECT_ROWS {
        return None;
    }
    let index = key.from * 128 + (key.symbol as usize - 1);
    if index < count { Some(index) } else { None }
}

/// Returns the slot for a hash, of this number of slots.
pub(crate) fn slot_of(hash: u64, slots: usize) -> usize {
    ((hash >> 32).wrapping_mul(slots as u64) >> 32) as usize
}

/// Returns the hash of a key.
fn hash_of(key: Key) -> u64 {
    let others = (key.from as u64) ^ key.probes.rotate_left(32);
    key.symbol
        .wrapping_mul(0x9E37_79B9_7F4A_7C15)
        .wrapping_add(others.wrapping_mul(0xC2B2_AE3D_27D4_EB4F))
}

/// Returns whether two keys are equal.
fn is_same(a: Key, b: Key) -> bool
    ensures { result ≡ true → a ≡ b }
{
    a.symbol == b.symbol && a.from == b.from && a.probes == b.probes
}

/// Returns the instructions that look at the text, but for those that match one character.
///
/// # Errors
/// Returns [`AllocError`] if an allocation fails.
fn far_of(alloc: Global, input: Input<'_, '_>, routine: &Routine) -> Result<Vec<usize>, AllocError>
    ensures { IfOk result (λ far. Covers (ops_in input.entry.code.now.program.leaves.items (listed routine.now)) far.items) }
{
    let mut far = Vec::new(alloc);
    for pc in 0..routine.len() {
        if is_far(input, routine.at(pc)) {
            far.push(pc)?;
        }
    }
    Ok(far)
}

/// Returns the next bytes of these instructions, together.
fn far_bytes_of(input: Input<'_, '_>, routine: &Routine, far: &[usize]) -> NextBytes
    ensures { let u = subject input.entry.rules input.entry.text.now in
        AreFarBytes u.setting u.bytes u.direction (ops_in input.entry.code.now.program.leaves.items (listed routine.now)) far.now result }
{
    let mut bytes = NextBytes::Bytes(ByteBitmap::default());
    for k in 0..far.len() {
        bytes = bytes.or(bytes_at(input, routine, far[k]));
    }
    bytes
}

/// Returns the next bytes of an instruction, whatever follows it; none if there is no instruction with this index.
fn bytes_at(input: Input<'_, '_>, routine: &Routine, pc: usize) -> NextBytes
    ensures { (op : Op) → slice_get (ops_in input.entry.code.now.program.leaves.items (listed routine.now)) pc ≡ Some op →
        (let u = subject input.entry.rules input.entry.text.now in AreBytesOf u.setting u.bytes u.direction op result) }
{
    if pc >= routine.len() {
        return NextBytes::Bytes(ByteBitmap::default());
    }
    let folds = input.rules.known.has_ascii_case(input.rules.flags);
    instruction_next_bytes(
        &input.code.program.leaves,
        &[],
        &[],
        routine.at(pc),
        input.rules.backwards,
        folds,
    )
}

/// Returns whether an instruction looks at the text, and does not match one character.
fn is_far(input: Input<'_, '_>, instruction: Instruction) -> bool
    ensures { result ≡ false → IsNear (op_in input.entry.code.now.program.leaves.items instruction) }
{
    match instruction {
        Instruction::Leaf { leaf, .. } => !is_one(input, leaf),
        Instruction::Characters { .. } | Instruction::Look { .. } => true,
        _ => false,
    }
}

/// Returns `count` slots without entries.
///
/// # Errors
/// Returns [`AllocError`] if an allocation fails.
fn empty_slots(alloc: Global, count: usize) -> Result<Vec<Option<Entry>>, AllocError>
    ensures { IfOk result (λ slots. (k : ℕ) (entry : Entry) → slice_get slots.items k ≡ Some (Some entry) → ⊥) }
{
    let mut slots = Vec::with_capacity(alloc, count)?;
    for _i in 0..count {
        slots.push(None)?;
    }
    Ok(slots)
}
