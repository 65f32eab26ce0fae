//! Calls of the functions that state theorems of `regress`.

use regress::{compiles_what_ecma_accepts, find_returns_the_match_of_ecma};

#[test]
fn the_functions_that_state_theorems_return(_rt: HostRuntime) {
    compiles_what_ecma_accepts();
    find_returns_the_match_of_ecma();
}
