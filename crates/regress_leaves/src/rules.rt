//! The context of a match.

use crate::known::Known;
use regress_base::types::Flags;

/// The flags and the case mappings of a pattern, and the direction in which a part of it is matched.
#[derive(Clone, Copy)]
pub struct MatchContext<'t> {
    /// The flags of the pattern.
    pub flags: Flags,
    /// The case mappings.
    pub known: Known<'t>,
    /// Whether the part is matched backwards, as in a lookbehind.
    pub backwards: bool,
}
