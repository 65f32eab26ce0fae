//! Why a pattern is rejected, or could not be parsed.

ghost use Rattle.std.specs.Prelude.{◌≡◌, alloc_error};
ghost use Rattle.regress_lexer.specs.FaultKinds.{name_of, number_of};
ghost use Rattle.regress_lexer.specs.declared.fault.Fault.TheVariants.{Rejected, Memory};

use std::alloc::{AllocError, AllocFailed};

/// A kind of syntax error. `docs/errors.md` lists the name, the number and the text of each kind.
#[derive(Debug, Drop)]
pub enum FaultKind {
    /// A `)` too many, or a missing one.
    UnbalancedParenthesis,
    /// Deeper nesting than `MAX_NESTING_DEPTH`.
    TooDeep,
    /// More capture groups than `MAX_CAPTURE_GROUPS`.
    TooManyGroups,
    /// More loops than `MAX_LOOPS`.
    TooManyLoops,
    /// A backslash at the end of the pattern, outside of a class.
    IncompleteEscape,
    /// A backslash at the end of the pattern, inside a class.
    UnterminatedEscape,
    /// A backslash that begins no valid escape.
    InvalidEscape,
    /// With the flag u, a `\u` that denotes no code point.
    InvalidUnicodeEscape,
    /// Without the flag u, a quantifier in braces where an item is expected.
    InvalidBracedQuantifier,
    /// A `*`, `+` or `?` where an item is expected, or, with the flag u, a `{`, `}` or `]`.
    InvalidAtom,
    /// A quantifier after an item that takes none.
    QuantifierNotAllowed,
    /// A quantifier whose minimum exceeds its maximum, or, with the flag u, a `{` that begins no quantifier.
    InvalidQuantifier,
    /// A class without its `]`.
    UnbalancedBracket,
    /// A range that ends before it begins.
    ReversedRange,
    /// With the flag u, a range one of whose ends is a class.
    InvalidRange,
    /// With the flag v, a class without its `]`, or half an operator.
    UnbalancedSet,
    /// With the flag v, a range that ends before it begins, or one of whose ends is no character.
    InvalidSetRange,
    /// With the flag v, an operand of `&&` that is followed by neither `&&` nor `]`.
    UnexpectedInIntersection,
    /// With the flag v, an operand of `--` that is followed by neither `--` nor `]`.
    UnexpectedInSubtraction,
    /// With the flag v, the end of the pattern where an operand is expected.
    EmptyOperand,
    /// With the flag v, a backslash at the end of the pattern, inside a class.
    IncompleteSetEscape,
    /// A `\q` that no `{` follows.
    StringsWithoutBrace,
    /// A `\q{` without its `}`.
    UnbalancedStrings,
    /// With the flag v, a code point that is no literal inside a class.
    InvalidSetCharacter,
    /// With the flag v, an inverted class that contains strings.
    InvalidNegatedClass,
    /// A `\p` or `\P` that no `{` follows.
    PropertyWithoutBrace,
    /// A property without its `}`, or one that is not in the table.
    InvalidProperty,
    /// A `(?` at the end of the pattern, or a `(?<` that begins neither a lookbehind nor a valid name.
    InvalidGroupName,
    /// A `(?` that is followed neither by `:`, `=`, `!` or `<` nor by valid modifiers.
    InvalidModifier,
    /// A `\k` that no valid name follows.
    InvalidReference,
    /// A `\k` with a name that no group has. The field is the name in UTF-8.
    UnknownName(String),
    /// Two groups of the same name that conflict.
    DuplicateName,
}

impl FaultKind {
    /// Returns the name of the kind, which never changes: that of the variant.
    pub fn name(&self) -> &'static str
        ensures { result.now ≡ name_of self.now }
    {
        match self {
            FaultKind::UnbalancedParenthesis => "UnbalancedParenthesis",
            FaultKind::TooDeep => "TooDeep",
            FaultKind::TooManyGroups => "TooManyGroups",
            FaultKind::TooManyLoops => "TooManyLoops",
            FaultKind::IncompleteEscape => "IncompleteEscape",
            FaultKind::UnterminatedEscape => "UnterminatedEscape",
            FaultKind::InvalidEscape => "InvalidEscape",
            FaultKind::InvalidUnicodeEscape => "InvalidUnicodeEscape",
            FaultKind::InvalidBracedQuantifier => "InvalidBracedQuantifier",
            FaultKind::InvalidAtom => "InvalidAtom",
            FaultKind::QuantifierNotAllowed => "QuantifierNotAllowed",
            FaultKind::InvalidQuantifier => "InvalidQuantifier",
            FaultKind::UnbalancedBracket => "UnbalancedBracket",
            FaultKind::ReversedRange => "ReversedRange",
            FaultKind::InvalidRange => "InvalidRange",
            FaultKind::UnbalancedSet => "UnbalancedSet",
            FaultKind::InvalidSetRange => "InvalidSetRange",
            FaultKind::UnexpectedInIntersection => "UnexpectedInIntersection",
            FaultKind::UnexpectedInSubtraction => "UnexpectedInSubtraction",
            FaultKind::EmptyOperand => "EmptyOperand",
            FaultKind::IncompleteSetEscape => "IncompleteSetEscape",
            FaultKind::StringsWithoutBrace => "StringsWithoutBrace",
            FaultKind::UnbalancedStrings => "UnbalancedStrings",
            FaultKind::InvalidSetCharacter => "InvalidSetCharacter",
            FaultKind::InvalidNegatedClass => "InvalidNegatedClass",
            FaultKind::PropertyWithoutBrace => "PropertyWithoutBrace",
            FaultKind::InvalidProperty => "InvalidProperty",
            FaultKind::InvalidGroupName => "InvalidGroupName",
            FaultKind::InvalidModifier => "InvalidModifier",
            FaultKind::InvalidReference => "InvalidReference",
            FaultKind::UnknownName(_) => "UnknownName",
            FaultKind::DuplicateName => "DuplicateName",
        }
    }

    /// Returns the number of the kind, which never changes: from 1 to 32, in the order of the variants.
    pub fn number(&self) -> u32
        ensures { result ≡ number_of self.now }
    {
        match self {
            FaultKind::UnbalancedParenthesis => 1,
            FaultKind::TooDeep => 2,
            FaultKind::TooManyGroups => 3,
            FaultKind::TooManyLoops => 4,
            FaultKind::IncompleteEscape => 5,
            FaultKind::UnterminatedEscape => 6,
            FaultKind::InvalidEscape => 7,
            FaultKind::InvalidUnicodeEscape => 8,
            FaultKind::InvalidBracedQuantifier => 9,
            FaultKind::InvalidAtom => 10,
            FaultKind::QuantifierNotAllowed => 11,
            FaultKind::InvalidQuantifier => 12,
            FaultKind::UnbalancedBracket => 13,
            FaultKind::ReversedRange => 14,
            FaultKind::InvalidRange => 15,
            FaultKind::UnbalancedSet => 16,
            FaultKind::InvalidSetRange => 17,
            FaultKind::UnexpectedInIntersection => 18,
            FaultKind::UnexpectedInSubtraction => 19,
            FaultKind::EmptyOperand => 20,
            FaultKind::IncompleteSetEscape => 21,
            FaultKind::StringsWithoutBrace => 22,
            FaultKind::UnbalancedStrings => 23,
            FaultKind::InvalidSetCharacter => 24,
            FaultKind::InvalidNegatedClass => 25,
            FaultKind::PropertyWithoutBrace => 26,
            FaultKind::InvalidProperty => 27,
            FaultKind::InvalidGroupName => 28,
            FaultKind::InvalidModifier => 29,
            FaultKind::InvalidReference => 30,
            FaultKind::UnknownName(_) => 31,
            FaultKind::DuplicateName => 32,
        }
    }
}

/// Why parsing failed.
#[derive(Drop)]
pub enum Fault {
    /// A syntax error: the grammar does not derive the pattern, or the pattern exceeds a limit.
    Rejected {
        /// What is wrong.
        kind: FaultKind,
        /// The position of the error, as the number of code points of the pattern that remain from there on.
        left: usize,
    },
    /// An allocation failure, which implies nothing about the pattern.
    Memory(AllocError),
}

/// Returns a syntax error of this kind, at the position from which `left` code points remain.
pub fn rejected(left: usize, kind: FaultKind) -> Fault
    ensures { result ≡ Rejected kind left }
{
    Fault::Rejected { kind, left }
}

impl From<AllocError> for Fault {
    ghost from_gives = { λ _ fault. fault ≡ Memory alloc_error };

    fn from(given: AllocError) -> Fault {
        Fault::Memory(given)
    }
}

impl<T: Drop> From<AllocFailed<T>> for Fault {
    ghost from_gives = { λ _ fault. fault ≡ Memory alloc_error };

    fn from(given: AllocFailed<T>) -> Fault {
        Fault::Memory(AllocError::from(given))
    }
}
