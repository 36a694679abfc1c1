//! Cutting an SDU into pieces.
ghost use Rattle.std.specs.Prelude.{◌≡◌, ◌≤◌, ◌<◌, ℕ, length, slice_get, IfOk};
ghost use Rattle.rina_delim.specs.Parts.{part_count, part_at, parts_of};

use crate::memory::Memory;
use std::alloc::Global;

/// A piece of an SDU, by the place of its bytes.
#[derive(Clone, Copy, Debug, PartialEq, Eq)]
pub struct Part {
    /// It begins the SDU.
    pub first: bool,
    /// It ends the SDU.
    pub last: bool,
    /// How many bytes of the SDU stand before it.
    pub at: u32,
    /// How many bytes it has.
    pub len: u32,
}

#[tactic(auto, unfolding(crate::specs::Parts::part_count))]
fn count_parts(len: u32, size: u32) -> u32
    requires { 1 ≤ size }
    ensures { result ≡ part_count len size }
{
    len.saturating_sub(1) / size + 1
}

/// The part of a number, counted from 0.
#[tactic(auto, unfolding(crate::specs::Parts::part_at))]
fn numbered(number: u32, count: u32, len: u32, size: u32) -> Part
    requires size { 1 ≤ size }
    requires count { count ≡ part_count len size }
    requires number { number < count }
    ensures { result ≡ part_at len size number }
{
    let at = number * size;
    Part {
        first: number == 0,
        last: number + 1 == count,
        at,
        len: size.min(len - at),
    }
}

/// The parts of an SDU of `len` bytes: each of `size` bytes, the last one shorter if need be, and one
/// empty part for an empty SDU. The first alone is `first`, the last alone is `last`.
#[tactic(auto, unfolding(crate::specs::Parts::parts_of))]
pub fn cut(alloc: Global, len: u32, size: u32) -> Result<Vec<Part>, Memory>
    requires { 1 ≤ size }
    ensures parts { IfOk result (λ v. v.items ≡ parts_of len size) }
    ensures count { IfOk result (λ v. length v.items ≡ part_count len size) }
    ensures each { IfOk result (λ v. (i : ℕ) → i < part_count len size → slice_get v.items i ≡ Some (part_at len size i)) }
{
    let count = count_parts(len, size);
    let mut parts = Vec::with_capacity(alloc, count as usize)?;
    for number in 0..count {
        parts.push(numbered(number, count, len, size))?;
    }
    Ok(parts)
}
