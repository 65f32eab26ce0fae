//! What steps count besides instructions.
ghost use Rattle.std.specs.Prelude.{◌≡◌, ◌≤◌};
ghost use Rattle.regress_program.specs.Cost.{blocks, unset_cost};

/// How many bytes that are compared at once, or captures that are written, count one step.
const BLOCK: usize = 64;

/// Returns the number of steps for `count` bytes that are compared or skipped at once, or for `count` captures that are
/// written, besides that of their instruction: one for each 64 of them.
#[inline(always)]
pub fn blocks(count: usize) -> u64
    ensures { result ≡ blocks count }
{
    (count / BLOCK) as u64
}

/// Returns the number of steps for unsetting the groups `start` to `end - 1` of `groups` groups, besides that of the
/// instruction.
#[inline(always)]
pub fn unset_cost(start: usize, end: usize, groups: usize) -> u64
    ensures steps { result ≡ unset_cost start end groups }
    ensures within { result ≤ blocks groups }
{
    blocks(end.min(groups).saturating_sub(start))
}
