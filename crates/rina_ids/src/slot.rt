//! What is known of one id, and the search for a free one among neighbours.
ghost use Rattle.std.specs.Prelude.{◌≡◌, ◌+◌, ◌*◌, ◌^◌, ◌<◌, ◌≤◌, IfSome, MatchOption, length, position};
ghost use Rattle.rina_ids.specs.Ids.{is_free, AllHeld, HasFree, IsBelow, IsLowest};

use rina_base::Tick;

/// How many ids share one bound.
pub(crate) const BLOCK: usize = 64;

/// What is known of an id that was drawn.
#[derive(Clone, Copy, Debug, PartialEq, Eq)]
pub enum Slot {
    /// A connection has it.
    InUse,
    /// It was given back, and is free from tick `until` on.
    Resting { until: Tick },
}

/// Whether an id can be drawn.
#[tactic(auto, unfolding(crate::specs::Ids::is_free))]
fn is_free(slot: Slot, tick: Tick) -> bool
    ensures { result ≡ is_free tick slot }
{
    match slot {
        Slot::InUse => false,
        Slot::Resting { until } => until <= tick,
    }
}

/// The first free id of those from one place to before another.
pub(crate) fn first_free(slots: &[Slot], from: usize, to: usize, tick: Tick) -> Option<usize>
    requires order { from ≤ to }
    requires within { to ≤ length slots.now }
    ensures found { IfSome result (λ k. (from ≤ k) × (k < to) × HasFree tick slots.now k) }
    ensures least { MatchOption result (AllHeld tick slots.now from to) (λ k. AllHeld tick slots.now from k) }
{
    for at in from..to {
        if is_free(slots[at], tick) {
            return Some(at);
        }
    }
    None
}

/// The first free id of a block.
#[tactic(auto, unfolding(crate::specs::Ids::is_free))]
fn free_in_block(slots: &[Slot], bounds: &[Tick], block: usize, tick: Tick) -> Option<usize>
    requires inside { block < length bounds.now }
    requires below { IsBelow bounds.now slots.now }
    requires few { 64 * length bounds.now ≤ length slots.now + 64 }
    requires fits { length slots.now < 2 ^ 32 }
    ensures found { IfSome result (λ k. (64 * block ≤ k) × HasFree tick slots.now k) }
    ensures least { MatchOption result (AllHeld tick slots.now (64 * block) (64 * block + 64)) (λ k. AllHeld tick slots.now (64 * block) k) }
{
    if bounds[block] > tick {
        return None;
    }
    let from = block * BLOCK;
    first_free(slots, from, (from + BLOCK).min(slots.len()), tick)
}

/// The first free id of all.
fn free_of_all(slots: &[Slot], bounds: &[Tick], tick: Tick) -> Option<usize>
    requires below { IsBelow bounds.now slots.now }
    requires covered { length slots.now ≤ 64 * length bounds.now }
    requires few { 64 * length bounds.now ≤ length slots.now + 64 }
    requires fits { length slots.now < 2 ^ 32 }
    ensures found { IfSome result (HasFree tick slots.now) }
    ensures least { MatchOption result (AllHeld tick slots.now 0 (length slots.now)) (λ k. AllHeld tick slots.now 0 k) }
{
    for block in 0..bounds.len() {
        let free = free_in_block(slots, bounds, block, tick);
        if free.is_some() {
            return free;
        }
    }
    None
}

/// The place of the first id that is free, of those that were drawn.
pub(crate) fn free_place(slots: &[Slot], bounds: &[Tick], tick: Tick) -> Option<usize>
    requires below { IsBelow bounds.now slots.now }
    requires covered { length slots.now ≤ 64 * length bounds.now }
    requires few { 64 * length bounds.now ≤ length slots.now + 64 }
    requires fits { length slots.now < 2 ^ 32 }
    ensures place { result ≡ position (is_free tick) slots.now }
    ensures within { IfSome result (λ k. k < length slots.now) }
{
    free_of_all(slots, bounds, tick)
}

/// The first tick at which an id of a block that rests may be free; the greatest where none rests.
pub(crate) fn bound_of(slots: &[Slot], block: usize) -> Tick
    requires inside { 64 * block ≤ length slots.now }
    requires fits { length slots.now < 2 ^ 32 }
    ensures { IsLowest result slots.now (64 * block) (64 * block + 64) }
{
    let from = block * BLOCK;
    let mut bound = Tick::MAX;
    for at in from..(from + BLOCK).min(slots.len()) {
        if let Slot::Resting { until } = slots[at] {
            bound = bound.min(until);
        }
    }
    bound
}
