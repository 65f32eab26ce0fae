//! The positions at which a pattern has a `)` too many, or is nested too deeply.
ghost use Rattle.std.specs.Prelude.{◌≡◌, Bool, Some, None, if◌then◌else◌};
ghost use Rattle.std.specs.Option.{option_or};
ghost use Rattle.regress_syntax.specs.FirstErrors.{Flaw, unopened, too_deep, is_flaw};
ghost use Rattle.regress_syntax.specs.Scanning.{mode_of, noted, noted_for, located};

use super::token::Mode;
use regress_base::types::MAX_NESTING_DEPTH;
use regress_lexer::fault::{Fault, FaultKind, rejected};

/// The first position of each kind of error that no continuation of the pattern can repair, as the number of code
/// points that remain from it on.
#[derive(Clone, Copy)]
pub struct FirstErrors {
    /// The first `)` that closes nothing.
    pub(crate) unopened: Option<usize>,
    /// The first parenthesis or bracket that nests the pattern deeper than `MAX_NESTING_DEPTH`.
    pub(crate) too_deep: Option<usize>,
}

/// Where a code point is.
#[derive(Clone, Copy)]
pub(super) struct Place {
    pub(super) mode: Mode,
    /// The number of open groups, the whole pattern included.
    pub(super) nesting: usize,
}

impl FirstErrors {
    /// Returns a value in which nothing is noted.
    pub(super) fn none() -> FirstErrors
        ensures { (flaw : Flaw) → noted flaw result ≡ None }
    {
        FirstErrors {
            unopened: None,
            too_deep: None,
        }
    }

    /// Notes the code point `c`, which begins no escape, if it is one of these errors. `left` is the number of code
    /// points that remain from it on.
    pub(super) fn note(&mut self, place: Place, c: u32, sets: bool, left: usize)
        ensures { (flaw : Flaw) → noted flaw self.new
            ≡ option_or (noted flaw self.old) (if is_flaw flaw sets (mode_of place.mode) place.nesting c then Some left else None) }
    {
        note_first(&mut self.unopened, is_unopened(place, c), left);
        note_first(&mut self.too_deep, is_too_deep(place, c, sets), left);
    }

    /// Returns `fault` with the position that was noted for its kind, or unchanged if none was.
    pub fn locate(self, fault: Fault) -> Fault
        ensures { result ≡ located self fault }
    {
        match fault {
            Fault::Rejected { kind, left } => {
                rejected(self.noted_for(&kind).unwrap_or(left), kind)
            }
            Fault::Memory(_) => fault,
        }
    }

    /// Returns the position that was noted for errors of this kind.
    fn noted_for(self, kind: &FaultKind) -> Option<usize>
        ensures { result ≡ noted_for self kind.now }
    {
        match kind {
            FaultKind::UnbalancedParenthesis => self.unopened,
            FaultKind::TooDeep => self.too_deep,
            _ => None,
        }
    }
}

/// Sets `position` to `left` if `is_one` is `true` and no position was noted before.
fn note_first(position: &mut Option<usize>, is_one: bool, left: usize)
    ensures { position.new ≡ option_or position.old (if is_one then Some left else None) }
{
    if is_one && position.is_none() {
        *position = Some(left);
    }
}

/// Whether `c` is a `)` that closes nothing.
fn is_unopened(place: Place, c: u32) -> bool
    ensures { (sets : Bool) → result ≡ is_flaw unopened sets (mode_of place.mode) place.nesting c }
{
    match place.mode {
        Mode::Plain => c == u32::from(')') && place.nesting == 1,
        Mode::Class { .. } => false,
    }
}

/// Whether `c` nests the pattern deeper than the limit.
fn is_too_deep(place: Place, c: u32, sets: bool) -> bool
    ensures { result ≡ is_flaw too_deep sets (mode_of place.mode) place.nesting c }
{
    let most = MAX_NESTING_DEPTH as usize;
    match place.mode {
        Mode::Plain => c == u32::from('(') && place.nesting >= most,
        Mode::Class { depth, .. } => {
            sets && c == u32::from('[') && place.nesting.saturating_add(depth) >= most
        }
    }
}
