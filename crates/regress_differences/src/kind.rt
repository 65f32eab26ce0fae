//! What is reported.
ghost use Rattle.std.specs.Prelude.{◌≡◌};
ghost use Rattle.regress_differences.specs.Kinds.{name_of, number_of, text_of};

use regress_parse::Span;

/// Why a part of a pattern is reported. `docs/differences.md` has the differences.
#[derive(Clone, Copy, Debug, PartialEq, Eq)]
pub enum DifferenceKind {
    /// A class, a class escape such as `\w`, or a property of code points, where the flag i may be in force: its set is
    /// closed under case folding.
    CaseClosure,
    /// A property of strings, which ECMA-262 tries in another order.
    StringSet,
    /// A reference by name to several groups, which is an alternation.
    SameName,
    /// ECMA-262 rejects the pattern here, or parses it otherwise.
    Grammar,
}

impl DifferenceKind {
    /// Returns the name of the kind, which never changes: `case-closure`, `string-set`, `same-name` or `grammar`.
    pub fn name(&self) -> &'static str
        ensures { result.now ≡ name_of self.now }
    {
        match self {
            DifferenceKind::CaseClosure => "case-closure",
            DifferenceKind::StringSet => "string-set",
            DifferenceKind::SameName => "same-name",
            DifferenceKind::Grammar => "grammar",
        }
    }

    /// Returns the number of the kind, which never changes: from 1 to 4, in the order of the variants.
    pub fn number(&self) -> u32
        ensures { result ≡ number_of self.now }
    {
        match self {
            DifferenceKind::CaseClosure => 1,
            DifferenceKind::StringSet => 2,
            DifferenceKind::SameName => 3,
            DifferenceKind::Grammar => 4,
        }
    }

    /// Returns a sentence about the difference, with an example, without a full stop.
    pub fn text(&self) -> &'static str
        ensures { result.now ≡ text_of self.now }
    {
        match self {
            DifferenceKind::CaseClosure =>
                "with the flag i other characters may match than in JavaScript: \
                 [k] without u also matches U+212A, and [\\W] with u also matches k",
            DifferenceKind::StringSet =>
                "the strings of a property such as \\p{RGI_Emoji} are tried in the order of the Unicode table, \
                 in JavaScript the longest first",
            DifferenceKind::SameName =>
                "a reference to several groups of one name tries each of them, and an unset group gives the empty \
                 string: (?:(?<a>x)|(?<a>y))\\k<a> matches y of yy, in JavaScript yy",
            DifferenceKind::Grammar =>
                "JavaScript parses the pattern otherwise or rejects it: without u \\u{61} is u, 61 times, and \\b* is a \
                 syntax error",
        }
    }
}

/// A part of a pattern that matches otherwise than in ECMA-262.
#[derive(Clone, Copy, Debug, PartialEq, Eq)]
pub struct Difference {
    /// Why it is reported.
    pub kind: DifferenceKind,
    /// Where it is in the pattern.
    pub span: Span,
}
