//! Out of memory.
use std::alloc::AllocError;

/// An allocation failed. Each call that takes an allocator may fail so.
#[derive(Clone, Copy, Debug, PartialEq, Eq)]
pub struct Memory;

impl From<AllocError> for Memory {
    ghost from_gives = { λ _ _. Unit {0} };

    fn from(_error: AllocError) -> Memory {
        Memory
    }
}
