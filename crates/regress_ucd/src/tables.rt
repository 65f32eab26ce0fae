//! Construction of case mappings from the constants.
ghost use Rattle.std.specs.Prelude.{◌≡◌, All, IfOk, map};
ghost use Rattle.regress_unicode.specs.ValidEntries.{IsPackableEntry};
ghost use Rattle.regress_ucd.specs.Data.{mapping};

use regress_unicode::FoldRange;
use std::alloc::{AllocError, Global};

/// Returns the listed entries of a case mapping.
pub(super) fn mappings(
    alloc: Global,
    listed: &[(u32, u32, i32, u8)],
) -> Result<Vec<FoldRange>, AllocError>
    requires { All (λ r. IsPackableEntry (mapping r)) listed.now }
    ensures { IfOk result (λ mappings. mappings.items ≡ map mapping listed.now) }
{
    let mut mappings = Vec::with_capacity(alloc, listed.len())?;
    for (start, length, delta, modulo) in listed {
        mappings.push_reserved(FoldRange::from(*start, *length, *delta, *modulo));
    }
    Ok(mappings)
}
