//! The notation of test cases: what a call is made on, and its result.
//!
//! - Flags are letters of `imsuv`, possibly none, each at most once.
//! - A pattern is literal text, backslashes too. `⟨HEX⟩` denotes a code point in hexadecimal, surrogates included, and
//!   `⟨N×TEXT⟩` denotes N repetitions of TEXT, N in decimal.
//! - A number is decimal, or hexadecimal after `0x`. Code points and bytes are numbers, separated by spaces.
//! - An interval is `10-20`, or `10` for `10-10`, both ends inclusive. A set is its intervals, separated by spaces.
//!
//! Results have their numbers in decimal, and their intervals with both ends.
#![tactic(auto)]

mod call;
mod fault;
mod intervals;
mod letters;
mod lines;
mod numbers;
mod pattern;

pub use call::Call;
pub use fault::{Fault, Promise};
pub use letters::parse_flags;
pub use lines::{Failure, Lines, Run, report_run, run_lines};
pub use numbers::parse_decimal;
