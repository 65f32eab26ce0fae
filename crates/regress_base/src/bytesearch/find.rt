//! The traversal of a text that the searches for bytes share.

ghost use Rattle.std.specs.Prelude.{ℕ, ◌<◌, Bool, length, IfSome};
ghost use Rattle.regress_base.specs.Positions.{IsLeast, IsMemberAt, DecidesMembership};

/// The number of bytes that one iteration of the traversal tests.
const LANES: usize = 4;

/// Returns the least index of `text` whose byte passes `test`, or `None`. Each byte up to there is tested once.
pub(super) fn find_byte<F: Fn(u8) -> bool>(text: &[u8], test: F) -> Option<usize>
    requires { F.IsAlwaysCallable test }
    ensures { (set : ℕ → Bool) → DecidesMembership (F.post test) set
        → IsLeast (IsMemberAt set text.now) (length text.now) result }
{
    let (chunks, rest) = text.as_chunks::<LANES>();
    for (i, chunk) in chunks.iter().enumerate() {
        if let Some(lane) = first_index(chunk, &test) {
            return Some(i * LANES + lane);
        }
    }
    let after = first_index(rest, &test)?;
    Some(chunks.len() * LANES + after)
}

// Returns the same index within one chunk, or within the remaining bytes after the last chunk.
fn first_index<F: Fn(u8) -> bool>(part: &[u8], test: &F) -> Option<usize>
    requires { F.IsAlwaysCallable test.now }
    ensures inside { IfSome result (λ i. i < length part.now) }
    ensures least { (set : ℕ → Bool) → DecidesMembership (F.post test.now) set
        → IsLeast (IsMemberAt set part.now) (length part.now) result }
{
    for (i, b) in part.iter().enumerate() {
        if test(*b) {
            return Some(i);
        }
    }
    None
}
