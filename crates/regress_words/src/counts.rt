//! How many iterations a loop takes, in words.

use regress_base::types::Quantifier;
use std::alloc::{AllocError, Global};

/// Returns how many iterations a loop takes, and whether few are preferred.
pub(crate) fn count_words(alloc: Global, quant: &Quantifier) -> Result<String, AllocError> {
    let mut words = times(alloc, quant.min, quant.max)?;
    if !quant.greedy && quant.max != Some(quant.min) {
        words.push_str(match (quant.min, quant.max) {
            (0, Some(1)) => ", left out if possible",
            _ => ", as few as possible",
        })?;
    }
    Ok(words)
}

fn times(alloc: Global, min: usize, max: Option<usize>) -> Result<String, AllocError> {
    if let Some(words) = fixed(min, max) {
        return String::from_str(alloc, words);
    }
    match (min, max) {
        (min, None) => number_of_times(alloc, "at least ", min),
        (0, Some(max)) => number_of_times(alloc, "at most ", max),
        (min, Some(max)) if min == max => number_of_times(alloc, "exactly ", min),
        (min, Some(max)) => { number_of_times(alloc, &format!(in alloc; "{min} to ")?, max) }
    }
}

fn number_of_times(alloc: Global, front: &str, number: usize) -> Result<String, AllocError> {
    Ok(format!(in alloc; "{front}{number} times")?)
}

fn fixed(min: usize, max: Option<usize>) -> Option<&'static str> {
    Some(match (min, max) {
        (0, None) => "any number of times",
        (1, None) => "at least once",
        (2, None) => "at least twice",
        (0, Some(0)) => "exactly 0 times, so nothing",
        (0, Some(1)) => "optional",
        (0, Some(2)) => "at most twice",
        (1, Some(1)) => "exactly once",
        (1, Some(2)) => "once or twice",
        (2, Some(2)) => "exactly twice",
        _ => return None,
    })
}
