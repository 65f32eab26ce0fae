//! The text of a pattern of code points.
ghost use Rattle.std.specs.Prelude.{◌≡◌, IfOk, string_bytes};
ghost use Rattle.regress.specs.Source.{shown, text_of};

use std::alloc::{AllocError, Global};

/// Returns the text of code points, with U+FFFD in place of each surrogate.
pub(crate) fn text_of(alloc: Global, points: &[u32]) -> Result<String, AllocError>
    ensures { IfOk result (λ text. string_bytes text ≡ text_of points.now) }
{
    let mut text = String::with_capacity(alloc, points.len())?;
    for c in points {
        text.push(shown(*c))?;
    }
    Ok(text)
}

fn shown(c: u32) -> char
    ensures { result ≡ shown c }
{
    char::from_u32(c).unwrap_or(char::REPLACEMENT_CHARACTER)
}
