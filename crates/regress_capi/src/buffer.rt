//! Copies items to a caller's buffer.
ghost use Rattle.std.specs.Prelude.{◌≡◌, ◌<◌, ◌++◌, drop, length, MatchBool};

/// Copies the items to the start of the buffer, and returns whether they fit. Otherwise the buffer is unchanged.
pub(crate) fn copy_to<T: Copy>(items: &[T], buffer: &mut [T]) -> bool
    ensures { MatchBool result (buffer.new ≡ items.now ++ drop (length items.now) buffer.old)
        ((buffer.new ≡ buffer.old) × (length buffer.old < length items.now)) }
{
    if buffer.len() < items.len() {
        return false;
    }
    buffer[..items.len()].copy_from_slice(items);
    true
}
