//! Parses digits and letters at the start of a source.
ghost use Rattle.std.specs.Prelude.{◌≡◌, ◌≤◌, ◌-◌, ◌^◌, true, [], ◌∷◌, min, length, drop, Some, None, IfSome, IfNone, option_map, if◌then◌else◌};
ghost use Rattle.std.specs.List.{prefix_len, list_all};
ghost use Rattle.regress_lexer.specs.Source.{is_at};
ghost use Rattle.regress_lexer.specs.Digits.{is_between, is_decimal, is_octal, is_letter, is_hex, digit, control, number_from, front, after, hex_at};
ghost use Rattle.regress_lexer.specs.Quantifiers.{count_at};
ghost use Rattle.regress_lexer.specs.Reads.{returned};

/// What a source has at its start, and the source after it; `None` if the source does not start with it.
pub type Read<'a, T> = Option<(T, &'a [u32])>;

/// Returns the source after `c`, or `None` if `source` does not start with `c`.
pub fn strip_char(source: &[u32], c: char) -> Option<&[u32]>
    ensures { option_map (λ rest. rest.now) result ≡ (if is_at c source.now then Some (drop 1 source.now) else None) }
{
    match source {
        [first, rest @ ..] if *first == u32::from(c) => Some(rest),
        _ => None,
    }
}

/// Returns whether `c` is one of the characters from `first` to `last`, both included.
pub fn is_between(first: char, last: char, c: u32) -> bool
    ensures { result ≡ is_between first last c }
{
    u32::from(first) <= c && c <= u32::from(last)
}

/// Returns whether `c` is a decimal digit, 0 to 9.
pub fn is_decimal(c: u32) -> bool
    ensures { result ≡ is_decimal c }
{
    is_between('0', '9', c)
}

/// Returns whether `c` is an octal digit, 0 to 7.
pub fn is_octal(c: u32) -> bool
    ensures { result ≡ is_octal c }
{
    is_between('0', '7', c)
}

/// Returns whether `c` is an ASCII letter, A to Z or a to z.
pub fn is_letter(c: u32) -> bool
    ensures { result ≡ is_letter c }
{
    is_between('A', 'Z', c) || is_between('a', 'z', c)
}

/// Returns whether `c` is a hexadecimal digit, 0 to 9, A to F or a to f.
pub fn is_hex(c: u32) -> bool
    ensures { result ≡ is_hex c }
{
    is_decimal(c) || is_between('A', 'F', c) || is_between('a', 'f', c)
}

/// Returns the value of a decimal or hexadecimal digit. For any other code point the result has no meaning.
pub fn digit(c: u32) -> u32
    ensures { result ≡ digit c }
{
    if is_decimal(c) {
        c - u32::from('0')
    } else if is_between('A', 'F', c) {
        c - (u32::from('A') - 10)
    } else {
        c.saturating_sub(u32::from('a') - 10)
    }
}

/// Returns the value of a control letter, which is its code modulo 32 (ECMA-262, CharacterValue).
pub fn control(c: u32) -> u32
    ensures { result ≡ control c }
{
    c % 32
}

/// Returns the number that `digits` denote in this base after digits that denote `first`. It saturates at `usize::MAX`.
///
/// # Preconditions
/// `base` is at least 2.
pub fn number_from(base: usize, first: usize, digits: &[u32]) -> usize
    requires { 2 ≤ base }
    ensures { result ≡ min (number_from base first digits.now) (2 ^ 64 - 1) }
{
    let mut number = first;
    for c in digits {
        number = number
            .saturating_mul(base)
            .saturating_add(digit(*c) as usize);
    }
    number
}

/// Returns the number of hexadecimal digits at the start of `source`.
pub fn hex_length(source: &[u32]) -> usize
    ensures value { result ≡ prefix_len is_hex source.now }
    ensures within { result ≤ length source.now }
{
    source.iter().take_while(|c| is_hex(**c)).count()
}

/// Returns the number of octal digits at the start of `source`.
pub fn octal_length(source: &[u32]) -> usize
    ensures value { result ≡ prefix_len is_octal source.now }
    ensures within { result ≤ length source.now }
{
    source.iter().take_while(|c| is_octal(**c)).count()
}

/// Parses one decimal digit.
#[tactic(auto, unfolding(crate::specs::Digits::front, crate::specs::Digits::after))]
fn read_decimal<'a>(source: &'a [u32]) -> Read<'a, u32>
    ensures some { IfSome result (λ found. (source.now ≡ found.0 ∷ found.1.now) × (is_decimal found.0 ≡ true)) }
    ensures no_digit { IfNone result (front is_decimal source.now ≡ []) }
    ensures none { IfNone result (after is_decimal source.now ≡ source.now) }
{
    let (c, rest) = source.split_first()?;
    if !is_decimal(*c) {
        return None;
    }
    Some((*c, rest))
}

/// Parses decimal digits, as many as there are, and returns the number that they denote after digits that denote
/// `first`. It saturates.
fn read_on<'a>(first: usize, source: &'a [u32]) -> (usize, &'a [u32])
    ensures number { result.0 ≡ min (number_from 10 first (front is_decimal source.now)) (2 ^ 64 - 1) }
    ensures rest { result.1.now ≡ after is_decimal source.now }
{
    let mut number = first;
    let mut rest = source;
    while let Some((c, after)) = read_decimal(rest) {
        number = number.saturating_mul(10).saturating_add(digit(c) as usize);
        rest = after;
    }
    (number, rest)
}

/// Parses a decimal number, the longest run of digits. It saturates at `usize::MAX`, after all its digits are parsed.
pub fn parse_number<'a>(source: &'a [u32]) -> Read<'a, usize>
    ensures { returned result ≡ count_at source.now }
{
    let (c, rest) = read_decimal(source)?;
    Some(read_on(digit(c) as usize, rest))
}

/// Whether all code points are hexadecimal digits.
fn all_hex(digits: &[u32]) -> bool
    ensures { result ≡ list_all is_hex digits.now }
{
    digits.iter().all(|c| is_hex(*c))
}

/// Parses exactly `count` hexadecimal digits and returns the number that they denote.
///
/// # Preconditions
/// `count` is at most 4.
#[tactic(auto, using(crate::proofs::lemmas::Digits::hex_fits))]
pub fn parse_hex<'a>(source: &'a [u32], count: usize) -> Read<'a, u32>
    requires { count ≤ 4 }
    ensures { returned result ≡ hex_at count source.now }
{
    if source.len() < count {
        return None;
    }
    let (digits, rest) = source.split_at(count);
    if !all_hex(digits) {
        return None;
    }
    Some((number_from(16, 0, digits) as u32, rest))
}
