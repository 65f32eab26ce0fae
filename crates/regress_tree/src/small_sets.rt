//! Small sets of code points.
ghost use Rattle.std.specs.Prelude.{◌≡◌, IfOk, Some, None, option_map, if◌then◌else◌};
ghost use Rattle.regress_tree.specs.SmallSets.{is_ascii};

use std::alloc::{AllocError, Global};

/// Returns the members as bytes, or `None` if one of them is not ASCII (greater than 0x7F).
///
/// # Errors
/// Returns [`AllocError`] if an allocation fails.
pub fn ascii(alloc: Global, members: &[u32]) -> Result<Option<Vec<u8>>, AllocError>
    ensures { IfOk result (λ found. option_map (λ bytes. bytes.items) found
        ≡ (if is_ascii members.now then Some members.now else None)) }
{
    let mut bytes = Vec::new(alloc);
    for c in members {
        if *c > 0x7F {
            return Ok(None);
        }
        bytes.push(*c as u8)?;
    }
    Ok(Some(bytes))
}
