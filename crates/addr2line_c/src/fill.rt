//! Lists in buffers of a fixed length.

ghost use Rattle.std.specs.Prelude.{◌≡◌, ◌++◌, List, length};
ghost use Rattle.addr2line_c.specs.Filled.{IsFilled};

/// Adds items after the first `used` of a buffer, where it has room for all of them, and gives how
/// many places are needed now, up to the greatest number.
pub(crate) fn fill<T: Copy + Drop>(out: &mut [T], used: usize, items: &[T]) -> usize
    ensures gives { (before : List T) → IsFilled used out.old before
        → IsFilled result out.new (before ++ items.now) }
    ensures kept { length out.new ≡ length out.old }
{
    if used <= out.len() && items.len() <= out.len() - used {
        let (_, rest) = out.split_at_mut(used);
        let (place, _) = rest.split_at_mut(items.len());
        place.copy_from_slice(items);
    }
    used.saturating_add(items.len())
}
