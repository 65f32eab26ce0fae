//! Characters as they are written in a pattern.

/// A character, and the index after what it is written as.
#[derive(Clone, Copy)]
pub(crate) struct Decoded {
    pub(crate) c: u32,
    pub(crate) end: usize,
}

/// Returns the character that begins at an index: itself, or that of an escape. `None` for an escape that is no
/// character, such as `\d`, or that depends on the rest of the pattern, such as `\1`.
pub(crate) fn character_at(text: &[u32], at: usize) -> Option<Decoded> {
    let c = *text.get(at)?;
    if c != 0x5C {
        return plain(c, at, 1);
    }
    let after = at.checked_add(1)?;
    let letter = *text.get(after)?;
    match letter {
        0x74 => plain(0x09, at, 2),
        0x6E => plain(0x0A, at, 2),
        0x76 => plain(0x0B, at, 2),
        0x66 => plain(0x0C, at, 2),
        0x72 => plain(0x0D, at, 2),
        0x78 => number(text, after, 2),
        0x75 => unicode(text, after),
        0x63 => control(text, after),
        0x30..=0x39 | 0x41..=0x5A | 0x61..=0x7A => None,
        other => plain(other, at, 2),
    }
}

/// Returns a character that is written as that many code points.
fn plain(c: u32, at: usize, length: usize) -> Option<Decoded> {
    let end = at.checked_add(length)?;
    Some(Decoded { c, end })
}

/// Returns the number of that many hexadecimal digits after a letter. A surrogate is none, since it may be half of a
/// pair.
fn number(text: &[u32], letter: usize, count: usize) -> Option<Decoded> {
    let start = letter.checked_add(1)?;
    let end = start.checked_add(count)?;
    let c = value(text.get(start..end)?)?;
    Some(Decoded { c, end })
}

/// Returns the character of `u0041` or `u{41}`, at the index of the `u`.
fn unicode(text: &[u32], letter: usize) -> Option<Decoded> {
    let start = letter.checked_add(1)?;
    if *text.get(start)? != 0x7B {
        return number(text, letter, 4);
    }
    let first = start.checked_add(1)?;
    let length = text.get(first..)?.iter().position(|c| *c == 0x7D)?;
    let last = first.checked_add(length)?;
    let c = value(text.get(first..last)?)?;
    let end = last.checked_add(1)?;
    Some(Decoded { c, end })
}

/// Returns the character of `cA`, at the index of the `c`.
fn control(text: &[u32], letter: usize) -> Option<Decoded> {
    let start = letter.checked_add(1)?;
    let c = match *text.get(start)? {
        c @ (0x41..=0x5A | 0x61..=0x7A) => c % 32,
        _ => return None,
    };
    plain(c, start, 1)
}

/// Returns the value of hexadecimal digits, if it is a character.
fn value(digits: &[u32]) -> Option<u32> {
    let mut sum = 0_u32;
    for digit in digits {
        let digit = match *digit {
            c @ 0x30..=0x39 => c - 0x30,
            c @ 0x41..=0x46 => c - 0x37,
            c @ 0x61..=0x66 => c - 0x57,
            _ => return None,
        };
        sum = sum.saturating_mul(16).saturating_add(digit);
    }
    char::from_u32(sum).map(u32::from)
}
