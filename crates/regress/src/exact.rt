//! Code points that are one character of ECMA-262 each.
ghost use Rattle.std.specs.Prelude.{◌≡◌, chars};
ghost use Rattle.regress_ecma.specs.CodeUnits.{is_exact, is_one_character};

/// Returns whether each code point of a pattern is one character.
pub(crate) fn is_exact_source(points: &[u32], unicode: bool) -> bool
    ensures { result ≡ is_exact unicode points.now }
{
    points.iter().all(|c| is_one_character(*c, unicode))
}

/// Returns whether each character of a text is one.
pub(crate) fn is_exact_text(text: &str, unicode: bool) -> bool
    ensures { result ≡ is_exact unicode (chars text.now) }
{
    unicode || text.chars().all(|c| c <= '\u{FFFF}')
}

fn is_one_character(c: u32, unicode: bool) -> bool
    ensures { result ≡ is_one_character unicode c }
{
    if unicode {
        char::from_u32(c).is_some()
    } else {
        c <= 0xFFFF
    }
}
