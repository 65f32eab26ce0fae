//! Filling the tables of the routines of a program in order.
ghost use Rattle.std.specs.Prelude.{◌≡◌, ◌≤◌, ◌+◌, ◌*◌, IfErr, IfOk, IfSome, IsSome, length, min};
ghost use Rattle.regress_found.specs.declared.fault.MemoryFault.TheVariants.{TooMuchMemory};
ghost use Rattle.regress_program.specs.Compiled.{total};
ghost use Rattle.regress_code.specs.Code.{code_routines, setting_with};
ghost use Rattle.regress_tables.specs.Filled.{AreFilled};
ghost use Rattle.regress_tables.specs.Memory.{stored_bytes};

use crate::evaluate::Input;
use crate::fill::fill;
use crate::linear::Linear;
use crate::memory::room_after;
use crate::table::Table;
use regress_found::MemoryFault;
use regress_leaves::rules::MatchContext;
use std::alloc::Global;

impl Linear<'_, '_> {
    /// Returns the full tables of all routines for a text, and adds the number of their bits to `steps`, up to `u64::MAX`.
    /// They store at most as many bytes as there is room for.
    ///
    /// # Errors
    /// - [`MemoryFault::TooMuchMemory`] if they would store more.
    /// - [`MemoryFault::Memory`] if an allocation fails.
    pub(crate) fn fill_all(
        &self,
        alloc: Global,
        text: &str,
        room: Option<usize>,
        steps: &mut u64,
    ) -> Result<Vec<Table>, MemoryFault>
        ensures filled { IfOk result (λ tables. AreFilled (setting_with self.now.code.now self.now.known.tables.now) text.now (code_routines self.now.code.now) tables.items) }
        ensures counted { IfOk result (λ _. steps.new ≡ min (steps.old + 2 * total (code_routines self.now.code.now) * (length text.now + 1)) u64.MAX) }
        ensures stored { IfOk result (λ tables. IfSome room (λ most. stored_bytes tables.items ≤ most)) }
        ensures too_much { IfErr result (λ fault. fault ≡ TooMuchMemory → IsSome room) }
    {
        let rules = MatchContext {
            flags: self.code.program.flags,
            known: self.known,
            backwards: false,
        };
        let mut tables = Vec::new(alloc);
        let mut bits: u64 = 0;
        let mut left = room;
        for routine in &self.code.program.routines {
            let input = Input {
                text: &*text,
                rules,
                code: self.code,
                tables: &tables,
            };
            let table = fill(alloc, input, routine, left)?;
            left = room_after(left, table.stored_bytes());
            bits = bits.saturating_add(table.size() as u64);
            tables.push(table)?;
        }
        *steps = steps.saturating_add(bits);
        Ok(tables)
    }
}
