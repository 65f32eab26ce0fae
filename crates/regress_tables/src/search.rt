//! Searching with a program, by tables.
ghost use Rattle.std.specs.Prelude.{◌≡◌, ◌≤◌, ◌<◌, ◌+◌, ◌*◌, ℕ, IfErr, IfOk, IfSome, Some, length, min};
ghost use Rattle.regress_tree.specs.Tree.{Tree};
ghost use Rattle.regress_program.specs.Compiled.{IsPattern, total};
ghost use Rattle.regress_found.specs.Found.{Finds};
ghost use Rattle.regress_found.specs.Tried.{positions_tried};
ghost use Rattle.regress_found.specs.declared.fault.MemoryFault.TheVariants.{TooMuchMemory};
ghost use Rattle.regress_program.specs.Program.{IsSolution, Out};
ghost use Rattle.regress_code.specs.Code.{captures_cost, code_routines, outcomes_from, setting_with, tree_outcomes_from};
ghost use Rattle.regress_tables.specs.Memory.{table_bytes};
ghost use Rattle.regress_tables.specs.Search.{per_byte};
ghost use Rattle.regress_tables.specs.TextSearch.{searched_bytes, searched_code, searched_size, searched_tables, searched_text};

use crate::found::Search;
use crate::linear::Linear;
use crate::text::TextSearch;
use crate::text_search::find_filled;
use regress_found::MemoryFault;
use regress_program::blocks::blocks;
use std::alloc::Global;

impl Linear<'_, '_> {
    /// Returns an upper bound for the steps of a search for each byte of a text, counting its end as one more; at most
    /// `u64::MAX`.
    pub fn steps_per_byte(&self) -> u64
        ensures { result ≡ min (per_byte self.now.code.now) u64.MAX }
    {
        let instructions = self.code.instructions() as u64;
        let weight = blocks(self.code.groups()).saturating_add(1);
        let inner = self.inner as u64;
        let bits = instructions.saturating_mul(2);
        bits.saturating_add(weight.saturating_mul(bits.saturating_add(1)))
            .saturating_add(bits.saturating_mul(inner).saturating_mul(weight))
    }

    /// Returns the leftmost match in `text` that starts at the byte offset `from` or later, on a character boundary, by
    /// tables of at most `memory` bytes.
    ///
    /// # Complexity
    /// The steps are at most [`Linear::steps_per_byte`] for each byte of the text, and once more. A step takes constant
    /// time, but for literals and sets, and unless [`Code::has_bounded_counts`](regress_code::Code::has_bounded_counts)
    /// a loop over one character, whose iterations are one step. The tables take at most a quarter of a byte for each
    /// instruction, and 8 bytes, for each byte of the text, and once more; and 4 bytes more for each lookaround. So much it
    /// is if all rows differ. Equal rows are stored once.
    ///
    /// # Errors
    /// - [`MemoryFault::TooMuchMemory`] if the tables store more than `memory` bytes, and a quarter of a byte for each
    ///   instruction, and 8 bytes, for each byte of the text, and once more, are more than that too.
    /// - [`MemoryFault::Memory`] if an allocation fails.
    ///
    /// # Examples
    /// ```
    /// let tables = Tables::small(alloc)?;
    /// let points = code_points(alloc, "(a*)*b")?;
    /// let regex = try_parse(alloc, &points, Flags::default(), &tables)?;
    /// let code = Code::compile(alloc, &regex, 1000)?;
    /// let mut end = 0;
    /// if let Some(linear) = Linear::new(&code, Known::new(&tables, regex.flags)) {
    ///     let search = linear.find(alloc, "xaaab", 0, 1000)?;
    ///     if let Some(found) = &search.found {
    ///         assert_eq!(rt; found.start(), 1);
    ///         assert_eq!(rt; found.group(0), Some((1, 4)));
    ///         end = found.end();
    ///     }
    /// }
    /// assert_eq!(rt; end, 5);
    /// ```
    pub fn find(
        &self,
        alloc: Global,
        text: &str,
        from: usize,
        memory: usize,
    ) -> Result<Search, MemoryFault>
        ensures solved { IfOk result (λ search. (let code = self.now.code.now in let tables = self.now.known.tables.now in
            (outs : ℕ → Out) → IsSolution (setting_with code tables) text.now (code_routines code) outs →
            Finds text.now (outcomes_from code tables text.now outs) from search.found)) }
        ensures finds { IfOk result (λ search. (let code = self.now.code.now in let tables = self.now.known.tables.now in
            (t : Tree) → IsPattern (code_routines code) t → Finds text.now (tree_outcomes_from code tables text.now t) from search.found)) }
        ensures steps { IfOk result (λ search. search.steps ≤ per_byte self.now.code.now * (length text.now + 1)) }
        ensures counted { IfOk result (λ search. min (2 * total (code_routines self.now.code.now) * (length text.now + 1)) u64.MAX ≤ search.steps) }
        ensures tried { IfOk result (λ search. positions_tried text.now from search.found ≤ search.steps) }
        ensures charged { IfOk result (λ search. IfSome search.found (λ m.
            captures_cost self.now.code.now + positions_tried text.now from (Some m) ≤ search.steps)) }
        ensures too_much { IfErr result (λ fault. fault ≡ TooMuchMemory → memory < table_bytes (total (code_routines self.now.code.now)) text.now) }
    {
        let room = self.room_for(text, memory)?;
        let mut steps = 0;
        let tables = self.fill_all(alloc, text, room, &mut steps)?;
        let search = find_filled(alloc, self, text, &tables, from)?;
        Ok(Search {
            found: search.found,
            steps: search.steps.saturating_add(steps),
        })
    }
}

impl<'p> Linear<'p, 'p> {
    /// Prepares the search of a text: one that is made once for many calls of [`TextSearch::find`], by tables of at most
    /// `memory` bytes.
    ///
    /// # Complexity
    /// The steps are at most twice the number of instructions for each byte of the text, and once more. The memory is as
    /// for [`Linear::find`].
    ///
    /// # Errors
    /// As for [`Linear::find`].
    pub fn search(
        self,
        alloc: Global,
        text: &'p str,
        memory: usize,
    ) -> Result<TextSearch<'p>, MemoryFault>
        ensures code { IfOk result (λ search. searched_code search ≡ self.entry.code.now) }
        ensures tables { IfOk result (λ search. searched_tables search ≡ self.entry.known.tables.now) }
        ensures text { IfOk result (λ search. searched_text search ≡ text.now) }
        ensures fits { IfOk result (λ search. memory < table_bytes (searched_size search) text.now → searched_bytes search ≤ memory) }
        ensures too_much { IfErr result (λ fault. fault ≡ TooMuchMemory → memory < table_bytes (total (code_routines self.entry.code.now)) text.now) }
    {
        let room = self.room_for(text, memory)?;
        let mut steps = 0;
        let tables = self.fill_all(alloc, text, room, &mut steps)?;
        Ok(TextSearch {
            linear: self,
            text,
            tables,
            steps,
        })
    }
}
