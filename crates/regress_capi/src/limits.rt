//! The limits that a caller passes.
ghost use Rattle.std.specs.Prelude.{◌≡◌};
ghost use Rattle.regress_capi.specs.CompileResults.{options_of, or_default};

use regress::{Dialect, Options};

/// The limits of a compiled pattern, 0 for the default of each.
#[repr(C)]
pub struct Limits {
    pub steps: u64,
    pub nodes: usize,
    pub instructions: usize,
    pub linear_instructions: usize,
    pub memory: usize,
    pub linear_steps: u64,
}

impl Limits {
    /// Returns the options of a pattern of a dialect with these limits, where 0 is the default.
    pub(crate) fn options(&self, dialect: Dialect) -> Options
        ensures { result ≡ options_of dialect self.now }
    {
        let default = Options::default();
        Options {
            dialect,
            steps: if self.steps == 0 {
                default.steps
            } else {
                self.steps
            },
            nodes: or_default(self.nodes, default.nodes),
            instructions: or_default(self.instructions, default.instructions),
            linear_instructions: or_default(self.linear_instructions, default.linear_instructions),
            memory: or_default(self.memory, default.memory),
            linear_steps: if self.linear_steps == 0 {
                default.linear_steps
            } else {
                Some(self.linear_steps)
            },
        }
    }
}

/// Returns a limit, where 0 is the default.
fn or_default(limit: usize, default: usize) -> usize
    ensures { result ≡ or_default limit default }
{
    if limit == 0 { default } else { limit }
}
