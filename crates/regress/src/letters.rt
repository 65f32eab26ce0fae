//! Flags by their letters, as JavaScript writes them.
ghost use Rattle.std.specs.Prelude.{◌≡◌, ◌≤◌, true, All, IfOk, IfErr, chars, min};
ghost use Rattle.regress.specs.Letters.{AreFlags, IsErrorOf, count, flags_of, has, is_known};

use regress_front::types::Flags;

/// Why letters specify no flags.
#[derive(Clone, Copy, Debug, PartialEq, Eq, Drop, thiserror::Error)]
pub enum FlagsError {
    /// This is no letter of a flag.
    #[error("unknown flag {0}")]
    Unknown(char),
    /// This letter occurs twice.
    #[error("flag {0} occurs twice")]
    Repeated(char),
    /// The flags u and v exclude each other.
    #[error("flags u and v exclude each other")]
    UnicodeAndSets,
}

/// Returns the flags that the letters specify, in any order, as in JavaScript: `i`, `m`, `s`, `u` and `v`.
///
/// The flag v includes u here: it sets `unicode` and `unicode_sets`. The letters `d`, `g` and `y` are accepted and set
/// nothing: a match always has the spans of its groups, and the caller chooses between the calls that find one match
/// and all matches.
///
/// # Errors
/// Returns [`FlagsError`] if a letter is unknown, if one occurs twice, or if `u` and `v` both occur.
///
/// # Examples
/// ```
/// let flags = parse_flags("gi")?;
/// assert!(rt; flags.icase);
/// assert!(rt; !flags.unicode);
/// assert!(rt; parse_flags("uv").is_err());
/// ```
pub fn parse_flags(letters: &str) -> Result<Flags, FlagsError>
    ensures accepted { IfOk result (λ _. AreFlags (chars letters.now)) }
    ensures flags { IfOk result (λ flags. flags ≡ flags_of (chars letters.now)) }
    ensures rejected { IfErr result (IsErrorOf (chars letters.now)) }
{
    check_letters(letters)?;
    let unicode_sets = has(letters, 'v');
    let unicode = has(letters, 'u');
    if unicode && unicode_sets {
        return Err(FlagsError::UnicodeAndSets);
    }
    Ok(Flags {
        icase: has(letters, 'i'),
        multiline: has(letters, 'm'),
        dot_all: has(letters, 's'),
        unicode: unicode || unicode_sets,
        unicode_sets,
    })
}

/// Returns an error if a letter is unknown or occurs twice.
fn check_letters(letters: &str) -> Result<(), FlagsError>
    ensures known { IfOk result (λ _. All (λ c. is_known c ≡ true) (chars letters.now)) }
    ensures once { IfOk result (λ _. All (λ c. count (chars letters.now) c ≤ 1) (chars letters.now)) }
    ensures rejected { IfErr result (IsErrorOf (chars letters.now)) }
{
    for letter in letters.chars() {
        if !is_known(letter) {
            return Err(FlagsError::Unknown(letter));
        }
        if count(letters, letter) > 1 {
            return Err(FlagsError::Repeated(letter));
        }
    }
    Ok(())
}

fn is_known(letter: char) -> bool
    ensures { result ≡ is_known letter }
{
    matches!(letter, 'd' | 'g' | 'i' | 'm' | 's' | 'u' | 'v' | 'y')
}

fn has(letters: &str, letter: char) -> bool
    ensures { result ≡ has (chars letters.now) letter }
{
    count(letters, letter) > 0
}

/// Returns how often a letter occurs, at most `usize::MAX`.
fn count(letters: &str, letter: char) -> usize
    ensures { result ≡ min (count (chars letters.now) letter) usize.MAX }
{
    let mut times: usize = 0;
    for c in letters.chars() {
        times = times.saturating_add(usize::from(c == letter));
    }
    times
}
