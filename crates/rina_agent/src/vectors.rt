//! Vectors in which one value changes, whatever its type.
ghost use Rattle.std.specs.Prelude.{◌≡◌, ◌<◌, ◌∷◌, ◌++◌, [], length, remove, slice_set, OnOk, OnErr};

use rina_base::Memory;

/// Adds a value at the end. Without memory nothing changes.
pub(crate) fn push<T: Drop>(values: &mut Vec<T>, value: T) -> Result<(), Memory>
    ensures ok { OnOk result (values.new.items ≡ values.old.items ++ value ∷ []) }
    ensures err { OnErr result (values.new.items ≡ values.old.items) }
{
    match values.push(value) {
        Ok(()) => Ok(()),
        Err(_) => Err(Memory),
    }
}

/// Takes the value at a place away. Takes no memory.
pub(crate) fn remove<T: Drop>(values: &mut Vec<T>, at: usize)
    requires { at < length values.old.items }
    ensures { values.new.items ≡ remove values.old.items at }
{
    let _ = values.remove(at);
}

/// Swaps a value with the one at a place. Takes no memory.
pub(crate) fn swap<T>(values: &mut Vec<T>, at: usize, value: &mut T)
    requires { at < length values.old.items }
    ensures set { values.new.items ≡ slice_set values.old.items at value.old }
    ensures back { slice_set values.new.items at value.new ≡ values.old.items }
{
    std::mem::swap(&mut values[at], value);
}
