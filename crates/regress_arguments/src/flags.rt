//! Flags by their letters.
ghost use Rattle.std.specs.Prelude.{◌≡◌};
ghost use Rattle.regress_arguments.specs.Letters.{no_flags, with_letter, with_letters};

use regress_base::types::Flags;

/// Returns the flags that `letters` specifies, in any order; `None` if one is not in `imsuv` or occurs twice.
///
/// The letters mean ignoreCase, multiline, dotAll, unicode and unicodeSets (ECMA-262, RegExpInitialize). Dialect: `u`
/// and `v` may be given together.
pub fn parse_flags(letters: &str) -> Option<Flags>
    ensures { result ≡ with_letters no_flags letters.now }
{
    let mut flags = Flags::default();
    for letter in letters.as_bytes() {
        flags = with_letter(flags, *letter)?;
    }
    Some(flags)
}

/// Sets the flag of one more letter; `None` if it is set already or there is no such flag.
fn with_letter(flags: Flags, letter: u8) -> Option<Flags>
    ensures { result ≡ with_letter flags letter }
{
    match letter {
        b'i' if !flags.icase => Some(Flags {
            icase: true,
            ..flags
        }),
        b'm' if !flags.multiline => Some(Flags {
            multiline: true,
            ..flags
        }),
        b's' if !flags.dot_all => Some(Flags {
            dot_all: true,
            ..flags
        }),
        b'u' if !flags.unicode => Some(Flags {
            unicode: true,
            ..flags
        }),
        b'v' if !flags.unicode_sets => Some(Flags {
            unicode_sets: true,
            ..flags
        }),
        _ => None,
    }
}
