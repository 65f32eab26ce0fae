//! What the environment says of colors.

use std::alloc::AllocError;
use std::env::{self, Env, FillError, VarError};

/// Returns whether the environment allows colors on a terminal: `TERM` is set, and not to `dumb`, and `NO_COLOR` is not
/// set, or empty.
pub fn allows_color<R: Env>(rt: &R) -> bool {
    is_of_colors(rt) && !is_set(rt, "NO_COLOR")
}

/// Returns the value of `GREP_COLORS`, or an empty text if it is not set or not UTF-8.
///
/// # Errors
/// Returns an error if an allocation fails.
pub fn color_setting<R: Env + AllocGlobal>(rt: &R) -> Result<String, AllocError> {
    match env::var(rt, "GREP_COLORS") {
        Ok(text) => Ok(text),
        Err(VarError::NotPresent | VarError::NotUnicode) => Ok(String::new(rt.alloc())),
        Err(VarError::OutOfMemory) => Err(AllocError),
    }
}

/// Returns whether `TERM` is set, and not to `dumb`.
fn is_of_colors<R: Env>(rt: &R) -> bool {
    let mut name = [0; 4];
    match rt.var("TERM", &mut name) {
        Ok(4) => name != *b"dumb",
        Ok(_) | Err(FillError::TooLong) => true,
        Err(FillError::NotPresent) => false,
    }
}

/// Returns whether a variable is set, and not empty.
fn is_set<R: Env>(rt: &R, name: &str) -> bool {
    match rt.var(name, &mut [0]) {
        Ok(length) => length > 0,
        Err(FillError::TooLong) => true,
        Err(FillError::NotPresent) => false,
    }
}
