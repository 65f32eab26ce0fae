//! A text, prepared for searches with a program.
ghost use Rattle.std.specs.Prelude.{◌≡◌, ◌+◌, ◌*◌, length, min};
ghost use Rattle.regress_program.specs.Compiled.{total};
ghost use Rattle.regress_code.specs.Code.{code_routines, setting_with};
ghost use Rattle.regress_tables.specs.Filled.{AreFilled, AreFilled-prop};

use crate::linear::Linear;
use crate::table::Table;

/// A text that is searched with a program: for each state whether there is an outcome.
#[derive(Drop)]
pub struct TextSearch<'p> {
    /// The program.
    pub(crate) linear: Linear<'p, 'p>,
    /// The text.
    pub(crate) text: &'p str,
    /// The table of each routine.
    pub(crate) tables: Vec<Table>,
    /// The number of bits of all tables, at most `u64::MAX`.
    pub(crate) steps: u64,
    ghost filled: { AreFilled (setting_with linear.code.now linear.known.tables.now) text.now (code_routines linear.code.now) tables.items } by { AreFilled-prop (setting_with linear.code.now linear.known.tables.now) text.now (code_routines linear.code.now) tables.items },
    ghost counted: { steps ≡ min (2 * total (code_routines linear.code.now) * (length text.now + 1)) 18446744073709551615 },
}
