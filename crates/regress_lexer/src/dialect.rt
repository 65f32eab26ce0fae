//! The dialects of the syntax.

use regress_base::types::Flags;

/// A dialect: which rules the grammar has where the two dialects differ.
#[derive(Clone, Copy, Debug, PartialEq, Eq)]
pub enum Dialect {
    /// The dialect of `try_parse`: each flag has its effect independently, a quantifier may follow `\b` and `\B`, and
    /// `\u{..}` is an escape under all flags.
    Regress,
    /// The syntax of ECMA-262 (2025 edition) with Annex B, but for the limits that `docs/differences.md` lists. Unlike in
    /// `Regress`, the flag v implies the flag u, no quantifier may follow `\b` and `\B`, `\u{..}` is an escape only with
    /// the flag u, and beside a group with a name `\k` is an error in a class. A class has the characters of
    /// CompileToCharSet with the flag i, and the grammar of ClassSetExpression with the flag v; without the flag u a code
    /// point above U+FFFF in it is two code units. A reference to several groups of one name matches what the one that is
    /// set has captured, and of the strings of a property the longest are tried first.
    Ecma,
}

impl Dialect {
    ghost use Rattle.std.specs.Prelude.{◌≡◌};
    ghost use Rattle.regress_lexer.specs.Dialects.{flags_in_force, quantifies_boundaries, has_braces, tries_references, keeps_listed_order, reserves_k, splits_pairs, compiles_case, reserves_pairs, isolates_ampersand, judges_contents};

    /// Returns the flags in force for a pattern with the flags `given`.
    pub fn flags_in_force(self, given: Flags) -> Flags
        ensures { result ≡ flags_in_force self given }
    {
        match self {
            Dialect::Regress => given,
            Dialect::Ecma => Flags {
                unicode: given.unicode || given.unicode_sets,
                ..given
            },
        }
    }

    /// Returns whether a quantifier may follow `\b` and `\B`.
    pub fn quantifies_boundaries(self) -> bool
        ensures { result ≡ quantifies_boundaries self }
    {
        match self {
            Dialect::Regress => true,
            Dialect::Ecma => false,
        }
    }

    /// Returns whether braces after `\u` make an escape, outside of the name of a group. `unicode` is the flag u.
    pub fn has_braces(self, unicode: bool) -> bool
        ensures { result ≡ has_braces self unicode }
    {
        match self {
            Dialect::Regress => true,
            Dialect::Ecma => unicode,
        }
    }

    /// Returns whether a reference by name to several groups tries one after the other. Otherwise it matches what the one
    /// that is set has captured.
    pub fn tries_references(self) -> bool
        ensures { result ≡ tries_references self }
    {
        match self {
            Dialect::Regress => true,
            Dialect::Ecma => false,
        }
    }

    /// Returns whether the strings of a property outside of a class are tried in the order in which the table lists them.
    /// Otherwise the longest are tried first.
    pub fn keeps_listed_order(self) -> bool
        ensures { result ≡ keeps_listed_order self }
    {
        match self {
            Dialect::Regress => true,
            Dialect::Ecma => false,
        }
    }

    /// Returns whether in a class `\k` is a syntax error where some group has a name.
    pub fn reserves_k(self) -> bool
        ensures { result ≡ reserves_k self }
    {
        match self {
            Dialect::Regress => false,
            Dialect::Ecma => true,
        }
    }

    /// Returns whether in a class a code point above U+FFFF is two members, its surrogates. `unicode` is the flag u.
    pub fn splits_pairs(self, unicode: bool) -> bool
        ensures { result ≡ splits_pairs self unicode }
    {
        match self {
            Dialect::Regress => false,
            Dialect::Ecma => !unicode,
        }
    }

    /// Returns whether with the flag i a class has the characters of ECMA-262 (CompileToCharSet). Otherwise it is closed
    /// under case folding once it is built, with all flags.
    pub fn compiles_case(self) -> bool
        ensures { result ≡ compiles_case self }
    {
        match self {
            Dialect::Regress => false,
            Dialect::Ecma => true,
        }
    }

    /// Returns whether in a class with the flag v no two of the punctuators that may not be doubled may follow each other.
    /// Otherwise only the same one twice is an error.
    pub fn reserves_pairs(self) -> bool
        ensures { result ≡ reserves_pairs self }
    {
        match self {
            Dialect::Regress => true,
            Dialect::Ecma => false,
        }
    }

    /// Returns whether in a class with the flag v a `&` after the first operand begins no range, and one after `&&` is an
    /// operand. Otherwise the former may begin one, and the latter is an error.
    pub fn isolates_ampersand(self) -> bool
        ensures { result ≡ isolates_ampersand self }
    {
        match self {
            Dialect::Regress => true,
            Dialect::Ecma => false,
        }
    }

    /// Returns whether a negated class with the flag v is judged by its contents, which must have no string, and not by
    /// what is written in it.
    pub fn judges_contents(self) -> bool
        ensures { result ≡ judges_contents self }
    {
        match self {
            Dialect::Regress => true,
            Dialect::Ecma => false,
        }
    }
}
