//! The notation of patterns.
ghost use Rattle.std.specs.Prelude.{◌≤◌, All, IfOk, IfSome};

use regress_base::codepointset::CODE_POINT_MAX;
use std::alloc::{AllocError, Global};

/// Returns the code points of a pattern in the notation of test cases; `None` if a `⟨` has no matching `⟩`, or if the
/// text between them is neither a code point nor a repetition.
pub(crate) fn parse_pattern(alloc: Global, text: &str) -> Result<Option<Vec<u32>>, AllocError>
    ensures { IfOk result (λ read. IfSome read (λ points. All (λ c. c ≤ CODE_POINT_MAX) points.items)) }
{
    let mut points = Vec::new(alloc);
    let mut parts = text.split('⟨');
    if let Some(front) = parts.next() {
        push_text(&mut points, front)?;
    }
    for part in parts {
        let Some((inside, after)) = part.split_once('⟩') else {
            return Ok(None);
        };
        if !push_bracketed(&mut points, inside)? {
            return Ok(None);
        }
        push_text(&mut points, after)?;
    }
    let in_range = points.iter().all(|c| *c <= CODE_POINT_MAX);
    Ok(if in_range { Some(points) } else { None })
}

/// Appends the characters of a text.
fn push_text(points: &mut Vec<u32>, text: &str) -> Result<(), AllocError> {
    for c in text.chars() {
        points.push(u32::from(c))?;
    }
    Ok(())
}

/// Appends what the text between `⟨` and `⟩` denotes, and returns whether it is well formed.
fn push_bracketed(points: &mut Vec<u32>, inside: &str) -> Result<bool, AllocError> {
    match inside.split_once('×') {
        Some((number, text)) => {
            let Ok(times) = number.parse::<usize>() else {
                return Ok(false);
            };
            for _ in 0..times {
                push_text(points, text)?;
            }
        }
        None => {
            let Ok(point) = u32::from_str_radix(inside, 16) else {
                return Ok(false);
            };
            points.push(point)?;
        }
    }
    Ok(true)
}
