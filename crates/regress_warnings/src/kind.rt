//! What is warned of.
ghost use Rattle.std.specs.Prelude.{◌≡◌};
ghost use Rattle.regress_warnings.specs.Kinds.{name_of, number_of, text_of};

use regress_parse::Span;

/// Why a part of a pattern may not be what its author meant.
#[derive(Clone, Copy, Debug, PartialEq, Eq)]
pub enum WarningKind {
    /// An alternation with an empty alternative: nothing before, between or after two `|`.
    EmptyAlternative,
    /// An alternative that begins with all of the literals that the one before it consists of.
    HiddenAlternative,
    /// An alternation that begins with an alternative that has `^`, and ends with one that has `$`.
    SplitAnchors,
    /// A quantifier after a part that can match the empty text.
    EmptyIteration,
    /// A back reference to a group that ends after it.
    UnsetReference,
    /// A class with all code points from an upper-case to a lower-case ASCII letter.
    LetterRange,
    /// A `.` between two digits.
    DotBetweenDigits,
    /// A class with an ASCII character in two of its parts.
    RepeatedMember,
    /// A back reference.
    BackReference,
    /// A lookaround that is not negated and contains a capture group.
    CapturingLookaround,
    /// An assertion that can never hold between what is directly before and after it.
    ImpossibleAssertion,
    /// A class with a `|` between letters, digits or escapes.
    BarInClass,
    /// A class with a hyphen between a class escape and another member.
    ClassInRange,
    /// A class without the flag u in which a character above U+FFFF is its two surrogates.
    SplitCharacter,
    /// An escape of a letter that is that letter.
    IdentityEscape,
    /// A class that contains `[:` and ends with `:]`.
    PosixClass,
}

impl WarningKind {
    /// Returns the name of the kind, which never changes, such as `empty-alternative`.
    pub fn name(&self) -> &'static str
        ensures { result.now ≡ name_of self.now }
    {
        match self {
            WarningKind::EmptyAlternative => "empty-alternative",
            WarningKind::HiddenAlternative => "hidden-alternative",
            WarningKind::SplitAnchors => "split-anchors",
            WarningKind::EmptyIteration => "empty-iteration",
            WarningKind::UnsetReference => "unset-reference",
            WarningKind::LetterRange => "letter-range",
            WarningKind::DotBetweenDigits => "dot-between-digits",
            WarningKind::RepeatedMember => "repeated-member",
            WarningKind::BackReference => "back-reference",
            WarningKind::CapturingLookaround => "capturing-lookaround",
            WarningKind::ImpossibleAssertion => "impossible-assertion",
            WarningKind::BarInClass => "bar-in-class",
            WarningKind::ClassInRange => "class-in-range",
            WarningKind::SplitCharacter => "split-character",
            WarningKind::IdentityEscape => "identity-escape",
            WarningKind::PosixClass => "posix-class",
        }
    }

    /// Returns the number of the kind, which never changes: from 1 to 16, in the order of the variants.
    pub fn number(&self) -> u32
        ensures { result ≡ number_of self.now }
    {
        match self {
            WarningKind::EmptyAlternative => 1,
            WarningKind::HiddenAlternative => 2,
            WarningKind::SplitAnchors => 3,
            WarningKind::EmptyIteration => 4,
            WarningKind::UnsetReference => 5,
            WarningKind::LetterRange => 6,
            WarningKind::DotBetweenDigits => 7,
            WarningKind::RepeatedMember => 8,
            WarningKind::BackReference => 9,
            WarningKind::CapturingLookaround => 10,
            WarningKind::ImpossibleAssertion => 11,
            WarningKind::BarInClass => 12,
            WarningKind::ClassInRange => 13,
            WarningKind::SplitCharacter => 14,
            WarningKind::IdentityEscape => 15,
            WarningKind::PosixClass => 16,
        }
    }

    /// Returns a sentence about what the pattern does, with an example, without a full stop. It has the word "may" where
    /// the pattern can be what its author meant.
    pub fn text(&self) -> &'static str
        ensures { result.now ≡ text_of self.now }
    {
        match self {
            WarningKind::EmptyAlternative =>
                "an alternative is empty, so it matches the empty text everywhere: a||b matches before c",
            WarningKind::HiddenAlternative =>
                "an alternative begins with all of the one before it, so it is tried only where that one leads to no \
                 match: a|ab matches a of ab",
            WarningKind::SplitAnchors =>
                "^ belongs to one alternative only, and $ to another one, so they may be meant for all: ^a|b$ matches \
                 ac, ^(?:a|b)$ does not",
            WarningKind::EmptyIteration =>
                "what is repeated can match the empty text, which may hide a mistake: (a*)* matches no more than a*",
            WarningKind::UnsetReference =>
                "the group ends after this back reference, so it is not set there, and the reference matches the empty \
                 text: \\1(a) matches a",
            WarningKind::LetterRange =>
                "the class has all characters from an upper-case to a lower-case letter, which may be more than letters: \
                 [A-z] matches _ and ^",
            WarningKind::DotBetweenDigits =>
                ". between digits matches any character, and may be meant as the character itself: 1.5 matches 1x5, \
                 1\\.5 does not",
            WarningKind::RepeatedMember =>
                "a character is in a class twice, where another one may be meant: [aab] matches what [ab] matches",
            WarningKind::BackReference =>
                "with a back reference a search may take more than linear time, and stop at a step limit: (a*)*\\1b in a \
                 long text of a",
            WarningKind::CapturingLookaround =>
                "with a group in a lookaround a search for all matches may take more than linear time: (?=(a*b)?)a in a \
                 long text of a",
            WarningKind::ImpossibleAssertion =>
                "a ^, $, \\b, \\B or lookaround that can never hold between what is before and after it, so what \
                 needs it never matches: a$b",
            WarningKind::BarInClass =>
                "| in a class is that character, and does not separate alternatives: [a|b] matches |, (?:a|b) \
                 does not",
            WarningKind::ClassInRange =>
                "- beside a class escape is that character, and no range; with the flag u it is an error: [\\w-.] \
                 matches -",
            WarningKind::SplitCharacter =>
                "without the flag u a class has the two halves of a character above U+FFFF in place of it, which \
                 no text here contains",
            WarningKind::IdentityEscape =>
                "without the flag u this escape is the letter itself, and with it an error; other engines may \
                 have a meaning for it: \\A matches A",
            WarningKind::PosixClass =>
                "[: and :] name no class here, but are characters of one: [[:alpha:]] matches a], \\p{Alphabetic} \
                 with the flag u is a letter",
        }
    }
}

/// A part of a pattern that may not be what its author meant.
#[derive(Clone, Copy, Debug, PartialEq, Eq)]
pub struct Warning {
    /// Why it is listed.
    pub kind: WarningKind,
    /// Where it is in the pattern.
    pub span: Span,
}
