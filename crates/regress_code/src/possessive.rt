//! Loops that give back no iteration, since what follows excludes their characters: possessive loops.
ghost use Rattle.std.specs.Prelude.{◌≡◌, ◌<◌, ℕ, IfOk, IfSome, false, length, true};
ghost use Rattle.regress_base.specs.ByteBitmap.{contains};
ghost use Rattle.regress_code.specs.Possessive.{ArePossessive, ExcludesAscii, IsCharacter, IsPossessive};

use crate::next_bytes::NextBytes;
use regress_base::bytesearch::ByteBitmap;
use regress_leaves::start::Start;
use regress_leaves::test::Test;
use regress_program::instruction::Instruction;
use std::alloc::{AllocError, Global};

/// Returns for each instruction of a routine whether it ends an iteration of a greedy loop over a leaf that matches one
/// character, and the next bytes of what follows the loop exclude each ASCII character that the leaf matches. Next to
/// such a character what follows has no outcome, unless at the start of the text.
///
/// # Errors
/// Returns [`AllocError`] if an allocation fails.
pub fn possessive_of(
    alloc: Global,
    next_bytes: &[NextBytes],
    leaves: &[Test],
    instructions: &[Instruction],
) -> Result<Vec<bool>, AllocError>
    ensures { IfOk result (λ possessive. ArePossessive possessive.items next_bytes.now leaves.now instructions.now) }
{
    let mut possessive = Vec::with_capacity(alloc, instructions.len())?;
    for pc in 0..instructions.len() {
        possessive.push(is_possessive(next_bytes, leaves, instructions, pc))?;
    }
    Ok(possessive)
}

/// Returns whether an instruction ends an iteration of such a loop.
///
/// # Preconditions
/// There is an instruction with this index.
fn is_possessive(
    next_bytes: &[NextBytes],
    leaves: &[Test],
    instructions: &[Instruction],
    pc: usize,
) -> bool
    requires { pc < length instructions.now }
    ensures { result ≡ true → IsPossessive next_bytes.now leaves.now instructions.now pc }
{
    let Instruction::Repeat {
        greedy: true,
        body,
        next,
    } = instructions[pc]
    else {
        return false;
    };
    match character_at(leaves, instructions, body, pc) {
        Some(set) => excludes_ascii(next_bytes, next, &set),
        None => false,
    }
}

/// Returns the ASCII characters that an instruction matches, if it matches a leaf that matches one character, and goes
/// on at `next`.
fn character_at(
    leaves: &[Test],
    instructions: &[Instruction],
    pc: usize,
    next: usize,
) -> Option<ByteBitmap>
    ensures { IfSome result (IsCharacter leaves.now instructions.now pc next) }
{
    let Instruction::Leaf { leaf, next: after } = *instructions.get(pc)? else {
        return None;
    };
    if after != next {
        return None;
    }
    match leaves.get(leaf)?.start {
        Start::Ascii(set) => Some(set),
        _ => None,
    }
}

/// Returns whether the next bytes of an instruction exclude each ASCII character of a set.
fn excludes_ascii(next_bytes: &[NextBytes], pc: usize, set: &ByteBitmap) -> bool
    ensures { result ≡ true → ExcludesAscii next_bytes.now pc set.now }
{
    match next_bytes.get(pc) {
        Some(NextBytes::Bytes(bytes)) => !has_common_ascii(set, bytes),
        _ => false,
    }
}

/// Returns whether an ASCII character is in both sets.
fn has_common_ascii(one: &ByteBitmap, two: &ByteBitmap) -> bool
    ensures { result ≡ false → (b : ℕ) → b < 128 → contains one.now b ≡ true → contains two.now b ≡ false }
{
    for b in 0..128u8 {
        if one.contains(b) && two.contains(b) {
            return true;
        }
    }
    false
}
