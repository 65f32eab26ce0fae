//! Calls of the functions that state theorems.

use regress_ecma::{
    accepts_what_ecma_accepts, characters_are_code_points, code_units_have_the_same_matches,
    first_outcome_is_the_match,
};
use regress_escape::escaped_texts_match_themselves;
use regress_front::codepointset::canonical_form_is_unique;
use regress_front::types::limits_are_as_defined;

#[test]
fn functions_that_state_theorems_return(_rt: HostRuntime) {
    accepts_what_ecma_accepts();
    canonical_form_is_unique();
    characters_are_code_points();
    code_units_have_the_same_matches();
    escaped_texts_match_themselves();
    first_outcome_is_the_match();
    limits_are_as_defined();
}
