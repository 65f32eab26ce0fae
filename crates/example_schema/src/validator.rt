//! Validates a JSON document by the patterns of a schema. docs/guide.md shows parts of it.
ghost use Rattle.std.specs.Prelude.{◌≡◌, Some, All, IfOk, OnOk};
ghost use Rattle.std.specs.Arc.{arc_value};
ghost use Rattle.serde_json.specs.Data.{string};
ghost use Rattle.serde_json.specs.Find.{pointer};
ghost use Rattle.serde_json.specs.View.{view};
ghost use Rattle.regress_front.specs.Meaning.{setting_of};
ghost use Rattle.regress_front.specs.declared.parse.Dialect.TheVariants.{Ecma};
ghost use Rattle.regress.specs.Compiled.{IsCompiledIn};
ghost use Rattle.example_schema.specs.Violated.{IsViolation, Keeps, unicode_flags};

use regress::{Error, Flags, Options, Regex, SearchError, Tables};
use serde_json::{Map, Value};
use std::alloc::{AllocError, Global};
use std::sync::Arc;

/// A string of the document that a pattern of the schema does not match.
#[derive(Debug, Drop)]
pub struct Violation {
    /// Where the string is in the document, as a JSON pointer (RFC 6901).
    pub pointer: String,
    pub pattern: String,
}

/// Why a document was not validated.
#[derive(Debug, Drop, thiserror::Error)]
pub enum SchemaError {
    /// A pattern is rejected.
    #[error("{0}")]
    Pattern(#[from] Error),
    /// A search takes too many steps.
    #[error("{0}")]
    Search(#[from] SearchError),
    #[error("out of memory")]
    Memory(#[from(alloc)] AllocError),
}

/// Returns the strings of the document that a `pattern` of the schema applies to and does not match, in the order of the
/// schema's names.
///
/// Patterns are those of ECMA-262 with the flag u, are not anchored, and apply to strings only (JSON Schema, draft
/// 2020-12: Core, 6.4, and Validation, 6.3.3). Of the other keywords `properties` and `patternProperties` are
/// supported, and the rest is ignored, `$ref` too.
///
/// No clause states that every violation is returned, or only where the schema applies: that is tested.
///
/// # Errors
/// - [`SchemaError::Pattern`] if a pattern is rejected or too large, in a schema that applies to a part of the document.
/// - [`SchemaError::Search`] if a search takes too many steps.
/// - [`SchemaError::Memory`] if an allocation fails.
///
/// # Complexity
/// Recursion is one deeper than the document is nested, so at most 128 deep for what `Value::from_str` returns. A pattern
/// is compiled once for each part of the document that it applies to.
pub fn violations(
    alloc: Global,
    schema: &Value,
    document: &Value,
    tables: &Arc<Tables>,
) -> Result<Vec<Violation>, SchemaError>
    ensures { IfOk result (λ found. All (IsViolation (arc_value tables.now) (view document.now)) found.items) }
{
    let mut found = Vec::new(alloc);
    let validator = Validator {
        alloc,
        document,
        tables,
    };
    validator.check(schema, "", &mut found)?;
    Ok(found)
}

/// What each step of a validation needs.
#[derive(Drop)]
struct Validator<'a> {
    alloc: Global,
    document: &'a Value,
    tables: &'a Arc<Tables>,
}

impl Validator<'_> {
    /// Applies a schema to the part of the document at a JSON pointer, if there is one.
    #[cycle(check)]
    fn check(&self, schema: &Value, at: &str, found: &mut Vec<Violation>) -> Result<(), SchemaError>
        ensures { OnOk result (Keeps self.now found.old.items found.new.items) }
    {
        let (Value::Object(keywords), Some(part)) = (schema, self.document.pointer(at)) else {
            return Ok(());
        };
        for (keyword, value) in keywords.iter() {
            match (keyword.as_str(), value, part) {
                ("pattern", Value::String(pattern), Value::String(text)) => {
                    self.check_text(pattern, text, at, found)?;
                }
                ("properties", Value::Object(schemas), Value::Object(_)) => {
                    self.check_members(schemas, at, found)?;
                }
                ("patternProperties", Value::Object(schemas), Value::Object(members)) => {
                    self.check_matching_members(schemas, members, at, found)?;
                }
                _ => {}
            }
        }
        Ok(())
    }

    /// Applies each schema to the member that has its name.
    #[cycle(check)]
    fn check_members(
        &self,
        schemas: &Map<String, Value>,
        at: &str,
        found: &mut Vec<Violation>,
    ) -> Result<(), SchemaError>
        ensures { OnOk result (Keeps self.now found.old.items found.new.items) }
    {
        for (name, schema) in schemas.iter() {
            self.check(schema, &member(self.alloc, at, name)?, found)?;
        }
        Ok(())
    }

    /// Applies each schema to the members whose names its pattern matches.
    #[cycle(check)]
    fn check_matching_members(
        &self,
        schemas: &Map<String, Value>,
        members: &Map<String, Value>,
        at: &str,
        found: &mut Vec<Violation>,
    ) -> Result<(), SchemaError>
        ensures { OnOk result (Keeps self.now found.old.items found.new.items) }
    {
        for (pattern, schema) in schemas.iter() {
            let regex = self.compile(pattern)?;
            for name in members.keys() {
                if regex.is_match(self.alloc, name)? {
                    self.check(schema, &member(self.alloc, at, name)?, found)?;
                }
            }
        }
        Ok(())
    }

    /// Adds a violation if the pattern does not match the text, which is at the pointer.
    fn check_text(
        &self,
        pattern: &str,
        text: &str,
        at: &str,
        found: &mut Vec<Violation>,
    ) -> Result<(), SchemaError>
        requires { pointer at.now (view self.now.document.now) ≡ Some (string text.now) }
        ensures { OnOk result (Keeps self.now found.old.items found.new.items) }
    {
        let regex = self.compile(pattern)?;
        if regex.is_match(self.alloc, text)? {
            return Ok(());
        }
        found.push(Violation {
            pointer: String::from_str(self.alloc, at)?,
            pattern: String::from_str(self.alloc, pattern)?,
        })?;
        Ok(())
    }

    fn compile(&self, pattern: &str) -> Result<Regex, Error>
        ensures { IfOk result (IsCompiledIn Ecma (setting_of unicode_flags (arc_value self.now.tables.now)) pattern.now) }
    {
        let flags = Flags {
            unicode: true,
            ..Flags::default()
        };
        Regex::with_options(self.alloc, pattern, flags, Options::default(), self.tables)
    }
}

/// Returns the JSON pointer of a member of the object at a JSON pointer.
fn member(alloc: Global, at: &str, name: &str) -> Result<String, AllocError> {
    let mut pointer = format!(in alloc; "{at}/")?;
    for c in name.chars() {
        match c {
            '~' => pointer.push_str("~0")?,
            '/' => pointer.push_str("~1")?,
            _ => pointer.push(c)?,
        }
    }
    Ok(pointer)
}
