//! Texts as they are shown: invisible characters by their numbers.
ghost use Rattle.std.specs.Prelude.{◌≡◌, ◌++◌, IfOk, OnOk, string_bytes};
ghost use Rattle.regress_explain.specs.Shown.{is_hidden, shown_character, shown_text};

use regress_labels::push_number;
use regress_parse::Span;
use regress_railroad::excerpt;
use std::alloc::{AllocError, Global};

/// Returns the source text at a span, cut off if it is long.
pub(crate) fn written(alloc: Global, pattern: &[u32], span: Span) -> Result<String, AllocError> {
    Ok(excerpt(alloc, pattern, Some(span))?.unwrap_or(String::new(alloc)))
}

/// Returns a text in which controls, other than tabs and line feeds, and invisible format characters are shown by their
/// numbers.
pub(crate) fn shown_text(alloc: Global, text: &str) -> Result<String, AllocError>
    ensures { IfOk result (λ shown. string_bytes shown ≡ shown_text text.now) }
{
    let mut shown = String::new(alloc);
    for c in text.chars() {
        push_shown(c, alloc, &mut shown)?;
    }
    Ok(shown)
}

fn push_shown(c: char, alloc: Global, text: &mut String) -> Result<(), AllocError>
    ensures { OnOk result (string_bytes text.new ≡ string_bytes text.old ++ shown_character c) }
{
    if is_hidden(c) {
        push_number(u32::from(c), alloc, text)
    } else {
        text.push(c)
    }
}

fn is_hidden(c: char) -> bool
    ensures { result ≡ is_hidden c }
{
    match c {
        '\t' | '\n' => false,
        '\0'..='\u{1F}' | '\u{7F}'..='\u{9F}' => true,
        '\u{61C}' | '\u{200B}'..='\u{200F}' | '\u{2028}'..='\u{202E}' => true,
        '\u{2060}'..='\u{206F}' | '\u{FEFF}' | '\u{FFFE}'..='\u{FFFF}' => true,
        _ => false,
    }
}
