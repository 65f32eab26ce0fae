//! The validator of docs/guide.md. Expected values are from JSON Schema, draft 2020-12, and RFC 6901.

use example_schema::{SchemaError, violations};
use regress::Tables;
use serde_json::Value;
use std::alloc::Global;
use std::fmt::Write;
use std::sync::Arc;
use std::test::Fail;

/// Returns the pointer and the pattern of each violation, each on a line.
fn listed(alloc: Global, schema: &str, document: &str) -> Result<String, Fail> {
    let tables = Arc::new(alloc, Tables::small(alloc)?)?;
    let schema = Value::from_str(alloc, schema)?;
    let document = Value::from_str(alloc, document)?;
    let mut lines = String::new(alloc);
    for violation in &violations(alloc, &schema, &document, &tables)? {
        writeln!(lines, "{} {}", violation.pointer, violation.pattern)?;
    }
    Ok(lines)
}

/// `/` and `~` are escaped in pointers.
const MEMBERS: &str =
    "{\"properties\": {\"a/b\": {\"pattern\": \"x\"}, \"m~n\": {\"properties\": {\"\": {\"pattern\": \"y\"}}}, \"0\": {\"pattern\": \"z\"}}}";

const MATCHING: &str =
    "{\"patternProperties\": {\"[0-9]{2,}\": {\"pattern\": \"x\"}, \"X_\": {\"pattern\": \"y\"}}}";

#[test]
fn a_document_is_validated_by_the_patterns_of_a_schema(rt: HostRuntime) -> Result<(), Fail> {
    let alloc = rt.alloc();
    for (schema, document, wanted) in &[
        ("{\"pattern\": \"^a*$\"}", "\"aaa\"", ""),
        ("{\"pattern\": \"^a*$\"}", "\"abc\"", " ^a*$\n"),
        // it is not anchored
        ("{\"pattern\": \"a+\"}", "\"xxaayy\"", ""),
        // it applies to strings only
        ("{\"pattern\": \"^a*$\"}", "[\"b\", true, null]", ""),
        ("{\"pattern\": \"^a*$\"}", "123", ""),
        ("{\"pattern\": \"^a*$\"}", "{\"b\": \"c\"}", ""),
        // `$` does not match before a line terminator at the end, and `\d` matches ASCII only
        ("{\"pattern\": \"^abc$\"}", "\"abc\\n\"", " ^abc$\n"),
        ("{\"pattern\": \"^\\\\d$\"}", "\"\\u07C0\"", " ^\\d$\n"),
        // with the flag u a character outside of the BMP is one character
        (
            "{\"pattern\": \"^\u{1F432}*$\"}",
            "\"\\uD83D\\uDC32\u{1F432}\"",
            "",
        ),
        (
            "{\"pattern\": \"^\u{1F432}*$\"}",
            "\"\u{1F409}\"",
            " ^\u{1F432}*$\n",
        ),
        ("true", "\"a\"", ""),
        (
            MEMBERS,
            "{\"a/b\": \"y\", \"m~n\": {\"\": \"x\"}, \"c\": \"\"}",
            "/a~1b x\n/m~0n/ y\n",
        ),
        // the items of an array are no members
        (MEMBERS, "[\"a\"]", ""),
        (MATCHING, "{\"answer 1\": \"\", \"a_x_3\": \"\"}", ""),
        (MATCHING, "{\"a31b\": \"\"}", "/a31b x\n"),
        (MATCHING, "{\"a_X_31\": \"\"}", "/a_X_31 y\n/a_X_31 x\n"),
    ] {
        let found = listed(alloc, schema, document)?;
        expect_eq!(rt; found.as_str(), *wanted, "{schema} {document}");
    }
    Ok(())
}

#[test]
fn a_pattern_of_another_syntax_is_an_error(rt: HostRuntime) -> Result<(), Fail> {
    let alloc = rt.alloc();
    let tables = Arc::new(alloc, Tables::small(alloc)?)?;
    let schema = Value::from_str(alloc, "{\"pattern\": \"^\\\\S(|(.|\\\\n)*\\\\S)\\\\Z\"}")?;
    let document = Value::from_str(alloc, "\"a\"")?;
    let result = violations(alloc, &schema, &document, &tables);
    assert!(rt; matches!(&result, Err(SchemaError::Pattern(_))));
    Ok(())
}
