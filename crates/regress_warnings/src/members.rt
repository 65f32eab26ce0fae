//! The members that are written in a class.
ghost use Rattle.std.specs.Prelude.{◌≡◌, IfOk};
ghost use Rattle.regress_lexer.specs.Source.{char, is_at};
ghost use Rattle.regress_warnings.specs.Classes.{after_brace, other_member, escaped_member, next_member, members};

use regress_lexer::digits::{is_decimal, is_letter};
use regress_lexer::escape::parse_escape;
use std::alloc::{AllocError, Global};

/// What stands for a class escape or a property, which is no character.
pub(crate) const NO_MEMBER: u32 = 0x110000;

/// What stands for an escaped hyphen, which begins no range.
const NO_HYPHEN: u32 = 0x110001;

/// Returns the members that are written between the brackets of a class: characters, also those of escapes, and hyphens.
///
/// # Errors
/// Returns [`AllocError`] if an allocation fails.
#[tactic(auto, using(crate::proofs::MemberLemmas::stepped, crate::proofs::MemberLemmas::none))]
pub(crate) fn members(alloc: Global, written: &[u32]) -> Result<Vec<u32>, AllocError>
    ensures { IfOk result (λ found. found.items ≡ members written.now) }
{
    let mut found = Vec::new(alloc);
    let mut rest = written;
    let mut left = written.len();
    while left > 0 {
        let [c, after @ ..] = rest else {
            return Ok(found);
        };
        let (member, others) = next_member(*c, after);
        found.push(member)?;
        rest = others;
        left -= 1;
    }
    Ok(found)
}

/// Returns the member that begins with `c`, and the source after it.
fn next_member(c: u32, after: &[u32]) -> (u32, &[u32])
    ensures { (result.0, result.1.now) ≡ next_member c after.now }
{
    if c == u32::from('\\') {
        escaped_member(after)
    } else {
        (c, after)
    }
}

/// Returns the member that an escape is, after its backslash, and the source after it.
fn escaped_member(source: &[u32]) -> (u32, &[u32])
    ensures { (result.0, result.1.now) ≡ escaped_member source.now }
{
    let [c, after @ ..] = source else {
        return (NO_MEMBER, source);
    };
    match parse_escape(source, true) {
        Some(found) => found,
        None => other_member(*c, after),
    }
}

/// Returns the same for an escape that starts with `c` and is none of a code point.
fn other_member(c: u32, after: &[u32]) -> (u32, &[u32])
    ensures { (result.0, result.1.now) ≡ other_member c after.now }
{
    if (c == u32::from('p') || c == u32::from('P')) && is_brace_at(after) {
        (NO_MEMBER, after_brace(after))
    } else if c == u32::from('-') {
        (NO_HYPHEN, after)
    } else if is_letter(c) || is_decimal(c) {
        (NO_MEMBER, after)
    } else {
        (c, after)
    }
}

fn is_brace_at(source: &[u32]) -> bool
    ensures { result ≡ is_at (char "{") source.now }
{
    match source {
        [c, ..] => *c == u32::from('{'),
        [] => false,
    }
}

/// Returns the source after the next `}`.
fn after_brace(source: &[u32]) -> &[u32]
    ensures { result.now ≡ after_brace source.now }
{
    let mut rest = source;
    while let [c, others @ ..] = rest {
        if *c == u32::from('}') {
            return others;
        }
        rest = others;
    }
    rest
}
