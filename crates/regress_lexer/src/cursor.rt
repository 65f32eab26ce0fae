//! A position in the source of a pattern.
ghost use Rattle.std.specs.Prelude.{◌≡◌, All};
ghost use Rattle.std.proofs.Props.{props};
ghost use Rattle.regress_lexer.specs.Source.{IsCodePoint, is_special, is_plain};

use crate::digits::is_letter;
use crate::fault::{Fault, FaultKind, rejected};
use crate::quantifier::may_begin;
use std::alloc::Global;

/// Whether `c` is no literal by itself (ECMA-262, SyntaxCharacter).
fn is_special(c: u32) -> bool
    ensures { result ≡ is_special c }
{
    // The split in two halves lets each be tested by the bits of one word.
    if c < u32::from('@') {
        c == u32::from('*')
            || c == u32::from('+')
            || c == u32::from('?')
            || c == u32::from('(')
            || c == u32::from(')')
            || c == u32::from('$')
            || c == u32::from('.')
    } else {
        c == u32::from('{')
            || c == u32::from(']')
            || c == u32::from('}')
            || c == u32::from('[')
            || c == u32::from('|')
            || c == u32::from('\\')
            || c == u32::from('^')
    }
}

/// Returns whether the code point is a literal by itself (ECMA-262, PatternCharacter).
pub fn is_plain(c: u32) -> bool
    ensures { result ≡ is_plain c }
{
    // Most code points are letters.
    is_letter(c) || !is_special(c)
}

/// A position in the source of a pattern: `rest` has the code points that remain to be parsed, each at most U+10FFFF.
#[derive(Drop)]
pub struct Cursor<'a> {
    /// The code points that remain to be parsed.
    pub rest: &'a [u32],
    /// The allocator for what is parsed.
    pub alloc: Global,
    pub ghost in_range: { All IsCodePoint rest.now } by { Prim.hlevel props },
}

impl Cursor<'_> {
    ghost use Rattle.std.specs.Prelude.{◌≡◌, [], ◌∷◌, drop, length, if◌then◌else◌, IfSome, IfNone, OnOk, OnErr, true, false};
    ghost use Rattle.regress_lexer.specs.FirstCodePoint.{may_begin};
    ghost use Rattle.regress_lexer.specs.Fault.{FailsByNoLimit};
    ghost use Rattle.regress_lexer.specs.Source.{is_at, ends_alternative, closing};
    ghost use Rattle.regress_lexer.specs.Views.{source};
    ghost use Rattle.regress_lexer.specs.declared.fault.Fault.TheVariants.{Rejected};

    /// Returns a syntax error of this kind at the cursor's position.
    pub fn reject(&self, kind: FaultKind) -> Fault
        ensures { result ≡ Rejected kind (length (source self.now)) }
    {
        rejected(self.rest.len(), kind)
    }

    /// Returns whether `c` is the next code point.
    pub fn is_at(&self, c: char) -> bool
        ensures { result ≡ is_at c (source self.now) }
    {
        match self.rest {
            [next, ..] => *next == u32::from(c),
            [] => false,
        }
    }

    /// Returns whether the alternative ends here: at a `)`, a `|` or the end of the source.
    pub fn ends_alternative(&self) -> bool
        ensures { result ≡ ends_alternative (source self.now) }
    {
        match self.rest {
            [next, ..] => *next == u32::from(')') || *next == u32::from('|'),
            [] => true,
        }
    }

    /// Moves past `c` if it is the next code point, and returns whether it was.
    pub fn try_consume(&mut self, c: char) -> bool
        ensures found { result ≡ is_at c (source self.old) }
        ensures moves { source self.new ≡ (if result then drop 1 (source self.old) else source self.old) }
    {
        let found = self.is_at(c);
        if found {
            self.rest = &self.rest[1..];
        }
        found
    }

    /// Takes the next code point and returns it, or returns `None` at the end of the source.
    pub fn next(&mut self) -> Option<u32>
        ensures some { IfSome result (λ c. source self.old ≡ c ∷ source self.new) }
        ensures none { IfNone result (source self.old ≡ []) }
    {
        let (next, rest) = self.rest.split_first()?;
        self.rest = rest;
        Some(*next)
    }

    /// Takes the next code point if it is a literal and the one after it begins no quantifier, as most often. Otherwise
    /// returns `None` and does not move.
    pub fn next_plain(&mut self) -> Option<u32>
        ensures some { IfSome result (λ c. source self.old ≡ c ∷ source self.new) }
        ensures plain { IfSome result (λ c. is_plain c ≡ true) }
        ensures alone { IfSome result (λ c. may_begin (source self.new) ≡ false) }
        ensures none { IfNone result (source self.new ≡ source self.old) }
    {
        let (next, rest) = self.rest.split_first()?;
        if !is_plain(*next) || may_begin(rest) {
            return None;
        }
        self.rest = rest;
        Some(*next)
    }

    /// Moves past the `)` that closes a group. `opened` is the number of code points that remained at the group's `(`.
    ///
    /// # Errors
    /// Returns [`FaultKind::UnbalancedParenthesis`], at the position of the group's `(`, if the next code point is no
    /// `)`. The cursor does not move then.
    pub fn consume_closing(&mut self, opened: usize) -> Result<(), Fault>
        ensures ok { OnOk result (source self.old ≡ closing ∷ source self.new) }
        ensures err { OnErr result (is_at closing (source self.old) ≡ false) }
        ensures kind { FailsByNoLimit result }
    {
        if self.try_consume(')') {
            Ok(())
        } else {
            Err(rejected(opened, FaultKind::UnbalancedParenthesis))
        }
    }
}
