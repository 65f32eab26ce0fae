//! Parses the quantifier after an item.
ghost use Rattle.regress_lexer.specs.Fault.{FailsByNoLimit};
ghost use Rattle.regress_lexer.specs.Reads.{ParsesWithoutAllocating};
ghost use Rattle.regress_syntax.specs.Productions.{optional_quantifier_at};
ghost use Rattle.regress_syntax.specs.Views.{context_of};
ghost use Rattle.regress_lexer.specs.Views.{source};

use crate::scope::Scope;
use regress_lexer::cursor::Cursor;
use regress_lexer::fault::{Fault, FaultKind};
use regress_lexer::quantifier::{is_ordered, may_begin, parse_quantifier};
use regress_tree::ir::Quantifier;

/// Parses the quantifier after an item (ECMA-262, Quantifier), or returns `None` if none begins here.
///
/// `allowed` means that the item before it may take a quantifier. On success `cursor` ends after the quantifier.
///
/// # Errors
/// After an error the position of `cursor` is unspecified.
/// - [`FaultKind::QuantifierNotAllowed`] if a quantifier follows although `allowed` is `false`.
/// - [`FaultKind::InvalidQuantifier`] if the quantifier's minimum exceeds its maximum, or, with the flag u, if a `{`
///   begins no quantifier.
#[tactic(auto, unfolding(crate::specs::Productions::optional_quantifier_at))]
pub fn parse_optional_quantifier(
    cursor: &mut Cursor,
    scope: &Scope,
    allowed: bool,
) -> Result<Option<Quantifier>, Fault>
    ensures value { ParsesWithoutAllocating (λ q. q) (source cursor.new) result (optional_quantifier_at (context_of scope.now) allowed (source cursor.old)) }
    ensures kind { FailsByNoLimit result }
{
    if !may_begin(cursor.rest) {
        return Ok(None);
    }
    let Some((quantifier, rest)) = parse_quantifier(cursor.rest) else {
        if scope.flags.unicode && cursor.is_at('{') {
            return Err(cursor.reject(FaultKind::InvalidQuantifier));
        }
        return Ok(None);
    };
    if !allowed {
        return Err(cursor.reject(FaultKind::QuantifierNotAllowed));
    }
    if !is_ordered(quantifier) {
        return Err(cursor.reject(FaultKind::InvalidQuantifier));
    }
    cursor.rest = rest;
    Ok(Some(quantifier))
}
