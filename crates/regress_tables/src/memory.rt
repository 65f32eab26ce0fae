//! The memory of tables.
ghost use Rattle.std.specs.Prelude.{◌≡◌, ◌<◌, ◌≤◌, ◌-◌, ◌*◌, IfErr, IfOk, IfSome, IsSome, MatchOption, option_map};
ghost use Rattle.regress_found.specs.declared.fault.MemoryFault.TheVariants.{Memory};
ghost use Rattle.regress_program.specs.Compiled.{total};
ghost use Rattle.regress_code.specs.Code.{code_routines};
ghost use Rattle.regress_tables.specs.Memory.{stored_in, table_bytes};

use crate::linear::Linear;
use crate::table::Table;
use regress_found::MemoryFault;

impl Linear<'_, '_> {
    /// Returns how many bytes the tables of a text may store: `memory`, or any number if `memory` suffices for each text of
    /// its length.
    ///
    /// # Errors
    /// Returns [`MemoryFault::Memory`] if the program has at least `usize::MAX` instructions.
    pub(crate) fn room_for(&self, text: &str, memory: usize) -> Result<Option<usize>, MemoryFault>
        ensures room { IfOk result (λ room. MatchOption room (table_bytes (total (code_routines self.now.code.now)) text.now ≤ memory)
            (λ most. (most ≡ memory) × (memory < table_bytes (total (code_routines self.now.code.now)) text.now))) }
        ensures fault { IfErr result (λ fault. fault ≡ Memory) }
    {
        let instructions = self.code.instructions();
        if instructions == usize::MAX {
            return Err(MemoryFault::Memory);
        }
        let each = instructions.div_ceil(4) + 8;
        match each.checked_mul(text.len() + 1) {
            Some(bytes) if bytes <= memory => Ok(None),
            _ => Ok(Some(memory)),
        }
    }
}

impl Table {
    /// Returns how many bytes the table stores.
    pub(crate) fn stored_bytes(&self) -> usize
        ensures { result ≡ stored_in self.now }
    {
        self.bits.bytes() + self.rows.width() * (self.length + 1)
    }

    /// Tests whether the table stores at most as many bytes as there is room for.
    ///
    /// # Errors
    /// Returns [`MemoryFault::TooMuchMemory`] if it stores more.
    #[inline(always)]
    pub(crate) fn test_room(&self, room: Option<usize>) -> Result<(), MemoryFault>
        ensures fits { IfOk result (λ _. IfSome room (λ most. stored_in self.now ≤ most)) }
        ensures limited { IfErr result (λ _. IsSome room) }
    {
        match room {
            Some(most) if self.stored_bytes() > most => Err(MemoryFault::TooMuchMemory),
            _ => Ok(()),
        }
    }
}

/// Tests whether there is room for a byte for each position of a text, which each table takes.
///
/// # Errors
/// Returns [`MemoryFault::TooMuchMemory`] if there is not.
pub(crate) fn test_positions(length: usize, room: Option<usize>) -> Result<(), MemoryFault>
    ensures limited { IfErr result (λ _. IsSome room) }
{
    match room {
        Some(most) if length >= most => Err(MemoryFault::TooMuchMemory),
        _ => Ok(()),
    }
}

/// Returns the room that is left after this number of bytes.
pub(crate) fn room_after(room: Option<usize>, bytes: usize) -> Option<usize>
    requires { IfSome room (λ most. bytes ≤ most) }
    ensures { result ≡ option_map (λ most. most - bytes) room }
{
    match room {
        Some(most) => Some(most - bytes),
        None => None,
    }
}

/// Returns for how many words of bits there is room, of those that a table takes if all rows differ. A row is added before
/// the room is tested.
pub(crate) fn most_words(room: Option<usize>, words: usize, width: usize) -> usize
    ensures { result ≤ words }
{
    match room {
        Some(most) => words.min((most / 8).saturating_add(width / 32 + 2)),
        None => words,
    }
}
