//! The examples of the doc comments of `regress_strings`.

use regress_strings::Strings;
use std::test::Fail;

#[test]
fn the_last_string_at_a_position(rt: HostRuntime) -> Result<(), Fail> {
    let alloc = rt.alloc();
    let mut list = Vec::new(alloc);
    for name in ["Jan", "January", "Jun"] {
        list.push(name.as_bytes().to_vec(alloc)?)?;
    }
    let strings = Strings::new(alloc, list)?;
    expect_eq!(rt; strings.len(), 3);
    assert!(rt; !strings.is_empty());
    let text = "in January".as_bytes();
    expect_eq!(rt; strings.last_at(text, 3, 3), Some(1));
    expect_eq!(rt; strings.last_at(text, 3, 1), Some(0));
    expect_eq!(rt; strings.last_at(text, 0, 3), None);
    Ok(())
}
