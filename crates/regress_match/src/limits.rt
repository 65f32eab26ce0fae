//! Limits on the size of a program, and on the memory of its searches.

/// How many instructions of a program may be stored, and how much memory its searches may take.
#[derive(Clone, Copy, Debug, PartialEq, Eq)]
pub struct Limits {
    /// The number of instructions of a program that may be stored, where the body of a loop `{n,m}` counts m times, or if it
    /// is one character, about m / 64 times; but if that is too much, at most twice for n and twice for what m allows beyond,
    /// or if it is one character, once for n, and a few times for each bit of m. A pattern that needs more is not compiled.
    /// 250,000 by default: up to some 100 MiB.
    pub instructions: usize,
    /// The number of instructions up to which a program is searched by tables, in linear time, where a body of one character
    /// always counts about m / 64 times. The tables take up to two bits for each instruction and byte of a text. 4,000 by
    /// default, so at most 1,000 times the length of the text.
    pub linear_instructions: usize,
    /// The number of steps that a search may take that takes linear time; `None` by default: no limit. Where the bound for
    /// a text exceeds it ([`Matcher::steps_per_byte`](crate::Matcher::steps_per_byte) for each byte and once more, for one
    /// match [`Matcher::find_steps_per_byte`](crate::Matcher::find_steps_per_byte)), the search only backtracks, within this
    /// number of steps. Searches with a pattern that is not linear have the limit that their callers give.
    pub linear_steps: Option<u64>,
    /// The memory in bytes that the tables of a search may take; also each backtrack stack, and a list of matches. 256 MiB
    /// by default. A search that needs more ends with [`MemoryFault::TooMuchMemory`](crate::MemoryFault::TooMuchMemory), but
    /// one whose stack is full goes on by tables, if it takes linear time.
    ///
    /// There is a backtrack stack for the pattern, and one for each level of nested lookarounds, with 40 bytes for each
    /// entry. Tables take at most a quarter of a byte for each instruction, and 8 bytes, for each byte of the text, and once
    /// more: a search by tables never ends so if that is within the limit. It takes less where positions are alike, and up to
    /// 4 bytes more for each lookaround and byte of the text. A match in a list counts 56 bytes, and 24 for each group of the
    /// pattern.
    pub memory: usize,
}

impl Default for Limits {
    ghost use Rattle.std.specs.Prelude.{◌≡◌};
    ghost use Rattle.regress_match.specs.Limits.{default_limits};

    ghost is_default = { λ limits. limits ≡ default_limits };

    fn default() -> Limits {
        Limits {
            instructions: 250_000,
            linear_instructions: 4_000,
            linear_steps: None,
            memory: 256 << 20,
        }
    }
}
