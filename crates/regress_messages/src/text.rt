//! Sentences as texts.

use crate::message::Message;
use regress_base::util::code_points;
use regress_lexer::FaultKind;
use std::alloc::{AllocError, Global};

/// Returns the sentence for a syntax error of a kind at a position of a pattern, as [`Message`] displays it.
///
/// # Errors
/// Returns [`AllocError`] if an allocation fails.
pub fn sentence(
    alloc: Global,
    kind: &FaultKind,
    pattern: &[u32],
    position: usize,
) -> Result<String, AllocError> {
    let message = Message::new(kind, pattern, position);
    format!(in alloc; "{message}")
}

/// Returns the same for a pattern that is a text. The position is a code-point index.
///
/// # Errors
/// Returns [`AllocError`] if an allocation fails.
pub fn sentence_of_text(
    alloc: Global,
    kind: &FaultKind,
    pattern: &str,
    position: usize,
) -> Result<String, AllocError> {
    let points = code_points(alloc, pattern)?;
    sentence(alloc, kind, &points, position)
}
