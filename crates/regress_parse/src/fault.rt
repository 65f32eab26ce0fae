//! Syntax errors with their texts.

ghost use Rattle.std.specs.Prelude.{◌≡◌, alloc_error, string_bytes, IfOk, MatchOption};
ghost use Rattle.regress_parse.specs.Fault.{HasKind, IsTextOf, text_before_name, text_of, without_position};
ghost use Rattle.regress_parse.specs.Parsing.{HasMessageAndPosition};
ghost use Rattle.regress_parse.specs.declared.fault.ParseFault.TheVariants.{Memory};
ghost use Rattle.regress_parse.specs.declared.fault.PlacedFault.TheVariants.{Memory as PlacedMemory};

use regress_syntax::{Fault, FaultKind};
use std::alloc::{AllocError, AllocFailed, Global};

/// A syntax error, as a text. Errors are compared, ordered and hashed by the bytes of their texts.
#[derive(Debug, Drop, PartialEq, Eq, PartialOrd, Ord, Hash, thiserror::Error)]
#[error("{text}")]
pub struct Error {
    /// What is wrong, as a message for a person. `docs/errors.md` lists the texts.
    pub text: String,
}

impl Error {
    /// Returns a copy of the error, allocated from `alloc`.
    ///
    /// # Errors
    /// Returns [`AllocError`] if the allocation fails.
    pub fn try_clone(&self, alloc: Global) -> Result<Error, AllocError>
        ensures { IfOk result (λ copy. string_bytes copy.text ≡ string_bytes self.now.text) }
    {
        Ok(Error {
            text: String::from_str(alloc, &self.text)?,
        })
    }
}

/// Why a pattern was not parsed.
#[derive(Debug, Drop, thiserror::Error)]
pub enum ParseFault {
    /// The pattern is rejected: the grammar does not derive it within the limits.
    #[error("{0}")]
    Syntax(Error),
    /// An allocation failed, whether or not the pattern is valid.
    #[error("out of memory")]
    Memory(AllocError),
}

impl From<AllocError> for ParseFault {
    ghost from_gives = { λ _ fault. fault ≡ Memory alloc_error };

    fn from(given: AllocError) -> ParseFault {
        ParseFault::Memory(given)
    }
}

impl<T: Drop> From<AllocFailed<T>> for ParseFault {
    ghost from_gives = { λ _ fault. fault ≡ Memory alloc_error };

    fn from(given: AllocFailed<T>) -> ParseFault {
        ParseFault::Memory(AllocError::from(given))
    }
}

/// Why a pattern was not parsed, with the kind and the position of a syntax error.
#[derive(Debug, Drop, thiserror::Error)]
pub enum PlacedFault {
    /// The pattern is rejected: the grammar does not derive it within the limits.
    #[error("{error}")]
    Syntax {
        /// What is wrong, as a kind for a program.
        kind: FaultKind,
        /// What is wrong, as the text of the kind.
        error: Error,
        /// The position of the error: a code-point index of the pattern, at most its length. `docs/errors.md` specifies
        /// it for each kind.
        position: usize,
    },
    /// An allocation failed, whether or not the pattern is valid.
    #[error("out of memory")]
    Memory(AllocError),
}

impl From<AllocError> for PlacedFault {
    ghost from_gives = { λ _ fault. fault ≡ PlacedMemory alloc_error };

    fn from(given: AllocError) -> PlacedFault {
        PlacedFault::Memory(given)
    }
}

impl From<PlacedFault> for ParseFault {
    ghost from_gives = { λ placed fault. fault ≡ without_position placed };

    fn from(given: PlacedFault) -> ParseFault {
        match given {
            PlacedFault::Syntax { error, .. } => ParseFault::Syntax(error),
            PlacedFault::Memory(fault) => ParseFault::Memory(fault),
        }
    }
}

/// Returns the error with the text of its kind, and its position in a pattern of `length` code points. If the text
/// cannot be allocated, returns `Memory`.
pub(crate) fn position(alloc: Global, fault: Fault, length: usize) -> PlacedFault
    ensures { HasMessageAndPosition length fault result }
{
    match fault {
        Fault::Rejected { kind, left } => match report(alloc, &kind) {
            Ok(error) => PlacedFault::Syntax {
                kind,
                error,
                position: length.saturating_sub(left),
            },
            Err(fault) => PlacedFault::Memory(fault),
        },
        Fault::Memory(fault) => PlacedFault::Memory(fault),
    }
}

/// Returns the error of this kind, with its text.
fn report(alloc: Global, kind: &FaultKind) -> Result<Error, AllocError>
    ensures { IfOk result (λ error. string_bytes error.text ≡ text_of kind.now) }
{
    let mut text = String::from_str(alloc, text_before_name(kind))?;
    if let FaultKind::UnknownName(name) = kind {
        text.push_str(name)?;
    }
    Ok(Error { text })
}

/// Returns the text of this kind of syntax error, up to a name.
fn text_before_name(kind: &FaultKind) -> &'static str
    ensures { result.now ≡ text_before_name kind.now }
{
    match text_of_number(kind.number()) {
        Some(text) => text,
        None => "",
    }
}

/// Returns the text of the kind of syntax error with this number, up to a name; `None` if there is no such kind.
pub fn text_of_number(number: u32) -> Option<&'static str>
    ensures { MatchOption result (HasKind number → ⊥) (λ text. HasKind number × IsTextOf number text.now) }
{
    match number {
        1 => Some("Unbalanced parenthesis"),
        2 => Some("Regular expression is too deeply nested"),
        3 => Some("Capture group count limit exceeded"),
        4 => Some("Loop count limit exceeded"),
        5 => Some("Incomplete escape"),
        6 => Some("Unterminated escape"),
        7 => Some("Invalid character escape"),
        8 => Some("Invalid unicode escape"),
        9 => Some("Invalid braced quantifier"),
        10 => Some("Invalid atom character"),
        11 => Some("Quantifier not allowed here"),
        12 => Some("Invalid quantifier"),
        13 => Some("Unbalanced bracket"),
        14 => Some("Range values reversed, start char code is greater than end char code."),
        15 => Some("Invalid character range"),
        16 => Some("Unbalanced class set bracket"),
        17 => Some("Invalid class set range"),
        18 => Some("Unexpected character in class set intersection"),
        19 => Some("Unexpected character in class set subtraction"),
        20 => Some("Empty class set operand"),
        21 => Some("Incomplete class set escape"),
        22 => Some("Invalid class set escape: expected {"),
        23 => Some("Unbalanced class set string disjunction"),
        24 => Some("Invalid class set character"),
        25 => Some("Invalid negated class"),
        26 => Some("Invalid character at property escape start"),
        27 => Some("Invalid property name"),
        28 => Some("Invalid token at named capture group identifier"),
        29 => Some("Invalid group modifier"),
        30 => Some("Invalid named backreference syntax"),
        31 => Some("Backreference to invalid named capture group: "),
        32 => Some("Duplicate capture group name"),
        _ => None,
    }
}
