//! Lists within a limit on their length.
ghost use Rattle.std.specs.Prelude.{◌≡◌, ◌+◌, ◌≤◌, ◌++◌, ◌∷◌, [], IfErr, IfOk, length};
ghost use Rattle.std.specs.Vec.{vec_capacity};
ghost use Rattle.regress_found.specs.declared.fault.MemoryFault.TheVariants.{TooMuchMemory};

use crate::fault::MemoryFault;

/// The number of elements that the first allocation of a list has room for.
const LEAST_ROOM: usize = 8;

/// Appends an element to a list that may have room for at most `limit` elements.
///
/// # Complexity
/// Constant on average. Where the list is full, its room is doubled, but not beyond the limit.
///
/// # Errors
/// - [`MemoryFault::TooMuchMemory`] if the list has at least `limit` elements already.
/// - [`MemoryFault::Memory`] if an allocation fails.
#[inline(always)]
pub fn push_within<T: Drop>(list: &mut Vec<T>, value: T, limit: usize) -> Result<(), MemoryFault>
    ensures items { IfOk result (λ _. list.new.items ≡ list.old.items ++ value ∷ []) }
    ensures within { vec_capacity list.old ≤ limit → vec_capacity list.new ≤ limit }
    ensures too_much { IfErr result (λ fault. fault ≡ TooMuchMemory → limit ≤ length list.old.items) }
{
    if list.len() == list.capacity() {
        grow(list, limit)?;
    }
    list.push_reserved(value);
    Ok(())
}

/// Makes room in a full list.
#[cold]
fn grow<T: Drop>(list: &mut Vec<T>, limit: usize) -> Result<(), MemoryFault>
    requires { vec_capacity list.old ≡ length list.old.items }
    ensures items { list.new.items ≡ list.old.items }
    ensures room { IfOk result (λ _. length list.new.items + 1 ≤ vec_capacity list.new) }
    ensures within { vec_capacity list.old ≤ limit → vec_capacity list.new ≤ limit }
    ensures too_much { IfErr result (λ fault. fault ≡ TooMuchMemory → limit ≤ length list.old.items) }
{
    let len = list.len();
    if len >= limit {
        return Err(MemoryFault::TooMuchMemory);
    }
    list.reserve_exact(len.max(LEAST_ROOM).min(limit - len))?;
    Ok(())
}
