//! The offsets at which a search tries a pattern: those whose first two bytes can begin a match, or else the first, and
//! near which there is a byte that each match contains.

use super::parsed;
use regress_front::optimizer::optimize;
use regress_prefilter::{candidates_of, next_candidate_from};
use std::test::Fail;

#[test]
fn a_match_begins_with_two_bytes_that_the_pattern_determines(rt: HostRuntime) -> Result<(), Fail> {
    for (pattern, text, wanted) in &[
        ("[a-z][A-Z]", "ab AB cD", 6),
        ("\\d{3}x", "1 12 123x", 2),
        ("(?:x|yz)w", "x y yz", 4),
        ("\\b(?=a)(a+)c", "a aa", 2),
        ("a?b", "xax", 1),
    ] {
        let regex = parsed(rt.alloc(), pattern, false)?;
        let found = next_candidate_from(&candidates_of(&regex.node), text, 0);
        assert!(rt; found == Some(*wanted), "{}", pattern);
    }
    Ok(())
}

#[test]
fn a_match_begins_near_a_byte_that_it_contains(rt: HostRuntime) -> Result<(), Fail> {
    for (pattern, text, wanted) in &[
        ("\\d{3}-", "1 12 123-", Some(5)),
        ("\\d{1,3}\\(", "1 22 333(", Some(5)),
        ("(?:ab|c){1,2}=", "ab ab abc=", Some(6)),
        ("(a\\d?);", "a1 a a1;", Some(5)),
        ("(?<=\\$)\\d", "12 $3", Some(4)),
        ("(?<=a-)b", "b ab -b a-b", Some(6)),
        ("\\d{1,3}\\(", "123 456", None),
    ] {
        let mut regex = parsed(rt.alloc(), pattern, false)?;
        optimize(rt.alloc(), &mut regex)?;
        let found = next_candidate_from(&candidates_of(&regex.node), text, 0);
        assert!(rt; found == *wanted, "{}", pattern);
    }
    Ok(())
}
