//! What the productions of a class depend on, besides the Unicode table.

use regress_lexer::Dialect;

/// The parameters of the productions of a class (ECMA-262, UnicodeMode and NamedCaptureGroups), with the dialect and the
/// flag i.
#[derive(Clone, Copy)]
pub struct Parameters {
    /// The dialect.
    pub dialect: Dialect,
    /// The flag i.
    pub icase: bool,
    /// The flag u.
    pub unicode: bool,
    /// Whether some group of the pattern has a name.
    pub named: bool,
}

impl Parameters {
    ghost use Rattle.std.specs.Prelude.{◌≡◌, ◌&&◌};
    ghost use Rattle.regress_classes.specs.ClassProductions.{closes, is_pair, point, splits};

    /// Returns whether sets are closed under case folding before a complement is taken.
    pub(crate) fn closes(&self) -> bool
        ensures { result ≡ closes self.now }
    {
        self.icase && self.unicode && self.dialect.compiles_case()
    }

    /// Returns whether a code point is two code units.
    pub(crate) fn splits_point(&self, c: u32) -> bool
        ensures { result ≡ (splits self.now && is_pair (point c)) }
    {
        c >= 0x10000 && self.dialect.splits_pairs(self.unicode)
    }
}
