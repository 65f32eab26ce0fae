//! The samples of docs/cookbook.md. Expected values are from ECMA-262.

use regress::{Error, Flags, Options, Regex, Tables, escape};
use std::sync::Arc;
use std::test::Fail;

#[test]
fn an_address_is_validated(rt: HostRuntime) -> Result<(), Fail> {
    let alloc = rt.alloc();
    let label = "[a-zA-Z0-9](?:[a-zA-Z0-9-]{0,61}[a-zA-Z0-9])?";
    let local = "[a-zA-Z0-9.!#$%&'*+\\/=?^_`{|}~-]+";
    let pattern = format!(in alloc; "^{local}@{label}(?:\\.{label})*$")?;
    let email = Regex::new(alloc, pattern.as_str())?;
    assert!(rt; email.is_match(alloc, "ann@example.org")?);
    assert!(rt; !email.is_match(alloc, "ann@-example.org")?);
    Ok(())
}

#[test]
fn links_are_found(rt: HostRuntime) -> Result<(), Fail> {
    let alloc = rt.alloc();
    let link = Regex::new(alloc, "https?:\\/\\/[^\\s<>\"()]*[^\\s<>\"().,;:!?]")?;
    let mut ends = Vec::new(alloc);
    for found in link.find_iter(alloc, "http://a.b, or (https://c/d).") {
        ends.push(found?.end())?;
    }
    expect_eq!(rt; ends.as_slice(), [10, 27].as_slice());
    Ok(())
}

#[test]
fn secrets_are_redacted(rt: HostRuntime) -> Result<(), Fail> {
    let alloc = rt.alloc();
    let secret = Regex::with_flags(alloc, "\\b(token|password|secret)=[^\\s&,]+", "i")?;
    let line = secret.replace_all(alloc, "GET /a?user=ann&Token=s3cr3t HTTP/1.1", "$1=***")?;
    expect_eq!(rt; line.as_str(), "GET /a?user=ann&Token=*** HTTP/1.1");
    Ok(())
}

#[test]
fn a_text_is_highlighted(rt: HostRuntime) -> Result<(), Fail> {
    let alloc = rt.alloc();
    let pattern = escape(alloc, "1+1")?;
    let regex = Regex::with_flags(alloc, pattern.as_str(), "i")?;
    let text = regex.replace_all(alloc, "Is 1+1 = 2?", "<b>$&</b>")?;
    expect_eq!(rt; text.as_str(), "Is <b>1+1</b> = 2?");
    Ok(())
}

#[test]
fn an_untrusted_pattern_has_limits(rt: HostRuntime) -> Result<(), Fail> {
    let alloc = rt.alloc();
    let options = Options {
        steps: 1_000_000,
        nodes: 10_000,
        instructions: 10_000,
        ..Options::default()
    };
    let tables = Arc::new(alloc, Tables::small(alloc)?)?;
    let pattern = "(?:(?:ab){9999999999}){9999999999}";
    match Regex::with_options(alloc, pattern, Flags::default(), options, &tables) {
        Err(Error::TooLarge) => {}
        _ => assert!(rt; false, "it is too large"),
    }
    Ok(())
}
