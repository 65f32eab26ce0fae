//! The marks of a pattern: the code points that determine its groups and its nesting depth.
ghost use Rattle.std.specs.Prelude.{◌≡◌, ℕ, ◌<◌, ◌≤◌, ◌+◌, ◌^◌, ◌==◌, Bool, false, drop, length, option_map, IfOk};
ghost use Rattle.regress_base.specs.Table.{Table};
ghost use Rattle.regress_unicode.specs.TableOf.{table_of};
ghost use Rattle.regress_lexer.specs.Source.{char, is_at};
ghost use Rattle.regress_syntax.specs.Scan.{opened_at, mode_after, is_insignificant, token_at, tokens};
ghost use Rattle.regress_syntax.specs.FirstErrors.{Flaw, remaining_at};
ghost use Rattle.regress_syntax.specs.Scanning.{mode_of, token_of, depth_of, tokens_down_to};
ghost use Rattle.regress_syntax.specs.declared.scan.token.Mode.{Mode as CodeMode};

use crate::names::{Name, parse_group_name};
use regress_lexer::digits::strip_char;
use regress_unicode::Tables;
use std::alloc::{AllocError, Global};

/// Where the scan is, outside of escapes: in plain text or in a class.
#[derive(Clone, Copy)]
pub(super) enum Mode {
    Plain,
    Class {
        /// The number of classes that are open inside the outermost one.
        depth: usize,
        /// The greatest `depth` in this outermost class so far.
        deepest: usize,
    },
}

/// What determines the marks of a pattern, besides its source.
#[derive(Clone, Copy)]
pub(super) struct TokenContext<'a> {
    /// The flag v, with which classes nest.
    pub(super) sets: bool,
    pub(super) tables: &'a Tables,
}

/// A parenthesis, a `|`, or, with the flag v, a whole class.
#[derive(Drop)]
pub(super) enum GroupToken {
    /// A parenthesis that opens no capture group.
    Opens,
    /// A parenthesis that opens a capture group, with its name if it has one.
    Captures(Option<Name>),
    Closes,
    /// A `|`.
    Next,
    /// A class, with the nesting depth of the classes inside it.
    Nests(usize),
}

impl Mode {
    /// Returns the mode after the code point `c`, which begins no escape.
    pub(super) fn after(self, c: u32, sets: bool) -> Mode
        requires room { depth_of (mode_of self) + 1 < 2 ^ 64 }
        requires unescaped { (c == char "\\") ≡ false }
        ensures { mode_of result ≡ mode_after sets (mode_of self) c }
    {
        match (self, char::from_u32(c)) {
            (Mode::Class { depth, deepest }, Some('[')) if sets => Mode::Class {
                depth: depth + 1,
                deepest: deepest.max(depth + 1),
            },
            (Mode::Class { depth: 0, .. }, Some(']')) => Mode::Plain,
            (Mode::Class { depth, deepest }, Some(']')) => Mode::Class {
                depth: depth - 1,
                deepest,
            },
            (Mode::Class { .. }, _) => self,
            (Mode::Plain, Some('[')) => Mode::Class {
                depth: 0,
                deepest: 0,
            },
            (Mode::Plain, _) => Mode::Plain,
        }
    }
}

/// Whether the code point is no mark and never changes the mode.
fn is_insignificant(c: u32) -> bool
    ensures { result ≡ is_insignificant c }
{
    // The split in two halves lets each be tested by few comparisons.
    if c < u32::from('@') {
        c != u32::from('(') && c != u32::from(')')
    } else {
        c != u32::from('[') && c != u32::from('\\') && c != u32::from(']') && c != u32::from('|')
    }
}

/// Returns the source after the escaped code point, if there is one.
fn skip_escaped(source: &[u32]) -> &[u32]
    ensures { result.now ≡ drop 1 source.now }
{
    match source {
        [_, rest @ ..] => rest,
        [] => source,
    }
}

/// Skips escapes, and code points that are no marks and never change the mode: nearly all of a pattern.
pub(super) fn skip_insignificant(source: &[u32]) -> &[u32]
    ensures same { (sets : Bool) (table : Table) (mode : CodeMode) →
        tokens sets table (mode_of mode) source.now ≡ tokens sets table (mode_of mode) result.now }
    ensures places { (left : ℕ) (sets : Bool) (table : Table) (mode : CodeMode) →
        tokens_down_to left sets table (mode_of mode) source.now ≡ tokens_down_to left sets table (mode_of mode) result.now }
    ensures flaws { (flaw : Flaw) (sets : Bool) (mode : CodeMode) (n : ℕ) →
        remaining_at flaw sets (mode_of mode) n source.now ≡ remaining_at flaw sets (mode_of mode) n result.now }
    ensures unescaped { is_at (char "\\") result.now ≡ false }
    ensures within { length result.now ≤ length source.now }
{
    let mut rest = source;
    while let Some((c, after)) = rest.split_first() {
        if is_insignificant(*c) {
            rest = after;
        } else if *c == u32::from('\\') {
            rest = skip_escaped(after);
        } else {
            return rest;
        }
    }
    rest
}

/// Returns the mark that the code point `c` is, if it is one; `after` is the source after it.
pub(super) fn find_token(
    alloc: Global,
    context: TokenContext,
    mode: Mode,
    c: u32,
    after: &[u32],
) -> Result<Option<GroupToken>, AllocError>
    ensures { IfOk result (λ token. option_map token_of token ≡ token_at context.entry.sets (table_of context.entry.tables.now) (mode_of mode) c after.now) }
{
    Ok(match (mode, char::from_u32(c)) {
        (Mode::Plain, Some('(')) => Some(read_opening(alloc, after, context.tables)?),
        (Mode::Plain, Some(')')) => Some(GroupToken::Closes),
        (Mode::Plain, Some('|')) => Some(GroupToken::Next),
        (Mode::Class { depth: 0, deepest }, Some(']')) if context.sets => {
            Some(GroupToken::Nests(deepest))
        }
        _ => None,
    })
}

/// Returns the mark of an opening parenthesis: it opens a capture group if no `?` follows, or `?` and a name.
fn read_opening(alloc: Global, text: &[u32], tables: &Tables) -> Result<GroupToken, AllocError>
    ensures { IfOk result (λ token. token_of token ≡ opened_at (table_of tables.now) text.now) }
{
    let Some(after) = strip_char(text, '?') else {
        return Ok(GroupToken::Captures(None));
    };
    Ok(match parse_group_name(alloc, after, tables)? {
        Some((name, _)) => GroupToken::Captures(Some(name)),
        None => GroupToken::Opens,
    })
}
