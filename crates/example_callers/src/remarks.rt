//! A linter that explains where a pattern matches otherwise than in JavaScript.
ghost use Rattle.std.specs.Prelude.{◌≡◌, [], IfOk, chars, map};
ghost use Rattle.regress_front.specs.Meaning.{setting_of};
ghost use Rattle.regress_front.specs.TableOf.{table_of};
ghost use Rattle.regress_differences.specs.Accepted.{OfAccepted};
ghost use Rattle.regress_differences.specs.Compared.{IsOfUnicode};
ghost use Rattle.regress_differences.specs.InEcma.{FindsMatchesOfEcma};
ghost use Rattle.regress_differences.specs.TreeOf.{tree_of};
ghost use Rattle.example_callers.specs.Remarks.{AreRemarksOn, explained, shown};

use regress_differences::{Difference, Span, differences};
use regress_front::parse::PlacedFault;
use regress_front::types::Flags;
use regress_front::unicode::Tables;
use regress_front::util::code_points;
use std::alloc::{AllocError, Global};

/// A part of a pattern that matches otherwise than in JavaScript.
#[derive(Debug, Drop)]
pub struct Remark {
    /// Where the part is, in code-point indices of the pattern.
    pub span: Span,
    /// The name of the difference, as `case-closure`.
    pub name: &'static str,
    /// What differs, with an example.
    pub text: &'static str,
}

/// Returns a remark for each part of a pattern that matches otherwise than in JavaScript, in the order of
/// [`differences`].
///
/// # Errors
/// Returns [`PlacedFault::Syntax`] if the pattern is rejected, and [`PlacedFault::Memory`] if an allocation fails.
pub fn remarks(
    alloc: Global,
    pattern: &str,
    flags: Flags,
    tables: &Tables,
) -> Result<Vec<Remark>, PlacedFault>
    // The remarks are those of the differences that are reported.
    ensures listed { IfOk result (λ remarks.
        AreRemarksOn (setting_of flags tables.now) (chars pattern.now) remarks.items) }
    // Without remarks each match of the pattern's tree is that of ECMA-262.
    ensures matches { IfOk result (λ remarks. remarks.items ≡ [] → IsOfUnicode (table_of tables.now) →
        OfAccepted (setting_of flags tables.now) (chars pattern.now)
        (λ p. FindsMatchesOfEcma (setting_of flags tables.now) (chars pattern.now) (tree_of (table_of tables.now) p))) }
{
    let points = code_points(alloc, pattern)?;
    let found = differences(alloc, &points, flags, tables)?;
    Ok(explain_all(alloc, &found)?)
}

/// Returns a remark for each difference, in order.
pub fn explain_all(alloc: Global, found: &[Difference]) -> Result<Vec<Remark>, AllocError>
    ensures { IfOk result (λ remarks. map shown remarks.items ≡ map explained found.now) }
{
    let mut remarks = Vec::new(alloc);
    for difference in found {
        remarks.push(Remark {
            span: difference.span,
            name: difference.kind.name(),
            text: difference.kind.text(),
        })?;
    }
    Ok(remarks)
}
