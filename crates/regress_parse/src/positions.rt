//! Counts the nodes that each code point of a pattern can make.
ghost use Rattle.std.specs.Prelude.{◌≡◌, drop};
ghost use Rattle.regress_lexer.specs.Source.{is_at};
ghost use Rattle.regress_parse.specs.Bound.{opens_name, is_reference, nodes_at};

/// Whether `c` is the code point at index `position`.
fn occurs(c: char, source: &[u32], position: usize) -> bool
    ensures { result ≡ is_at c (drop position source.now) }
{
    match source.get(position) {
        Some(there) => *there == u32::from(c),
        None => false,
    }
}

/// Whether a named group begins here: a `(?<` that neither `=` nor `!` follows.
pub(crate) fn opens_name(source: &[u32]) -> bool
    ensures { result ≡ opens_name source.now }
{
    occurs('(', source, 0)
        && occurs('?', source, 1)
        && occurs('<', source, 2)
        && !occurs('=', source, 3)
        && !occurs('!', source, 3)
}

/// Whether a reference by name may begin here.
pub(crate) fn is_reference(source: &[u32]) -> bool
    ensures { result ≡ is_reference source.now }
{
    occurs('\\', source, 0) && occurs('k', source, 1)
}

/// Returns how many nodes the first code point makes at most where no group has a name.
pub(crate) fn nodes_at(source: &[u32], sets: bool) -> usize
    ensures { result ≡ nodes_at sets 0 source.now }
{
    if occurs('|', source, 0) {
        2
    } else if occurs('[', source, 0) && sets {
        5
    } else {
        1
    }
}
