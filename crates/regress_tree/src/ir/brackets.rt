//! The test whether a bracket accepts no code point.
ghost use Rattle.std.specs.Prelude.{◌≡◌};
ghost use Rattle.regress_base.specs.Intervals.{IsCanonical};
ghost use Rattle.regress_tree.specs.NodeTests.{accepts_none};

use regress_base::types::BracketContents;

/// Returns whether the bracket accepts no code point.
///
/// # Complexity
/// Constant.
pub fn accepts_none(contents: &BracketContents) -> bool
    ensures value { result ≡ accepts_none contents.now.invert contents.now.cps }
    ensures canonical { IsCanonical contents.now.cps }
{
    // The contract of `intervals` states that they are canonical.
    let _intervals = contents.cps.intervals();
    contents.is_empty()
}
