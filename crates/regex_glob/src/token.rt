//! The characters of a glob.
ghost use Rattle.std.specs.Prelude.{◌≡◌, IfOk, false};
ghost use Rattle.regex_glob.specs.Glob.{is_mark, tokens_of};

use std::alloc::{AllocError, Global};

/// A code point of a glob, and whether a backslash quotes it.
#[derive(Clone, Copy)]
pub(crate) struct Token {
    pub(crate) c: u32,
    pub(crate) quoted: bool,
}

/// Returns the tokens of the code points of a glob. A backslash at the end is itself.
pub(crate) fn tokens(alloc: Global, points: &[u32]) -> Result<Vec<Token>, AllocError>
    ensures { IfOk result (λ tokens. tokens.items ≡ tokens_of false points.now) }
{
    let mut tokens = Vec::new(alloc);
    let mut quoted = false;
    for c in points {
        if !quoted && *c == u32::from('\\') {
            quoted = true;
        } else {
            tokens.push(Token { c: *c, quoted })?;
            quoted = false;
        }
    }
    if quoted {
        tokens.push(Token {
            c: u32::from('\\'),
            quoted,
        })?;
    }
    Ok(tokens)
}

/// Returns whether a token is this character, not quoted.
pub(crate) fn is_mark(token: Token, mark: char) -> bool
    ensures { result ≡ is_mark mark token }
{
    !token.quoted && token.c == u32::from(mark)
}
