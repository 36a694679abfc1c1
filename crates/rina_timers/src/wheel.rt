//! A wheel of four levels of 64 slots, in which timers stand by their ticks.
ghost use Rattle.std.specs.Prelude.{◌≡◌, ◌+◌, ◌*◌, ◌<◌, ◌≤◌, Option, Some, None, MatchOption};
ghost use Rattle.rina_timers.specs.Times.{IsNoneBefore};
ghost use Rattle.rina_timers.specs.Wheel.{slot, slot_start, reach, place, IsPlaced, IsPlacedBut, IsNextSlot, IsReached};

use crate::chains::{Chains, tick_of};
use rina_base::Tick;

/// The slots of a level. A slot of the next level is as long as a level.
const SLOTS: u32 = 64;

/// How many levels there are. Behind them stand 256 slots, for ticks beyond their reach.
const LEVELS: u32 = 4;

/// The chain of the timers whose ticks the clock has reached. Those of the slots follow.
pub(crate) const DUE: u32 = 1;

/// The slot of a tick after the clock: that of its digit at the first of these levels above which both agree.
fn slot(levels: u32, clock: Tick, at: Tick) -> u32
    requires levels { levels ≤ 4 }
    requires reach { at < reach levels }
    ensures slot { result ≡ slot levels clock at }
    ensures few { result < 256 + 64 * levels }
{
    if levels == 0 {
        at
    } else if clock / SLOTS == at / SLOTS {
        at % SLOTS
    } else {
        SLOTS + slot(levels - 1, clock / SLOTS, at / SLOTS)
    }
}

/// The first tick of that slot.
fn slot_start(levels: u32, clock: Tick, at: Tick) -> Tick
    requires { clock < at }
    ensures start { result ≡ slot_start levels clock at }
    ensures after { clock < result }
    ensures within { result ≤ at }
{
    if levels == 0 {
        at
    } else if clock / SLOTS == at / SLOTS {
        at
    } else {
        SLOTS * slot_start(levels - 1, clock / SLOTS, at / SLOTS)
    }
}

/// The chain in which a timer belongs.
pub(crate) fn place(clock: Tick, at: Option<Tick>) -> u32
    ensures place { result ≡ place clock at }
    ensures within { result < 514 }
{
    match at {
        None => 0,
        Some(at) if at <= clock => DUE,
        Some(at) => DUE + 1 + slot(LEVELS, clock, at),
    }
}

/// Moves the timers of a slot that the clock has reached to where they belong now.
fn spread(chains: &mut Chains, times: &[Option<Tick>], clock: Tick, chain: u32)
    requires slot { 1 < chain }
    requires within { chain < 514 }
    requires placed { IsPlacedBut times.now chains.old clock chain }
    ensures { IsPlaced times.now chains.new clock }
{
    while let Some(id) = chains.first(chain) {
        chains.put(id, place(clock, times[id as usize]));
    }
}

/// The first slot with timers, and its first tick, where that has come and no timer is due yet.
fn next_slot(
    chains: &mut Chains,
    times: &[Option<Tick>],
    clock: Tick,
    now: Tick,
) -> Option<(u32, Tick)>
    requires { IsPlaced times.now chains.old clock }
    ensures slot { MatchOption result (IsReached times.now chains.old now) (λ r. IsNextSlot times.now chains.old clock now r.0 r.1) }
    ensures same { chains.new ≡ chains.old }
{
    let chain = chains.first_chain()?;
    if chain == DUE {
        return None;
    }
    let id = chains.first(chain)?;
    let start = slot_start(LEVELS, clock, tick_of(times, id));
    if start <= now {
        Some((chain, start))
    } else {
        None
    }
}

/// A tick before which no timer is set: the first one of the first slot with timers, 0 where one is due, the greatest u32
/// where none is set.
pub(crate) fn none_until(chains: &mut Chains, times: &[Option<Tick>], clock: Tick) -> Tick
    requires { IsPlaced times.now chains.old clock }
    ensures none { IsNoneBefore result times.now }
    ensures same { chains.new ≡ chains.old }
{
    let Some(chain) = chains.first_chain() else {
        return Tick::MAX;
    };
    if chain == DUE {
        return 0;
    }
    let Some(id) = chains.first(chain) else {
        return 0;
    };
    let at = tick_of(times, id);
    slot_start(LEVELS, clock, at)
}

/// Goes on to the first timers that are due, and answers the new clock.
pub(crate) fn advance(chains: &mut Chains, times: &[Option<Tick>], clock: Tick, now: Tick) -> Tick
    requires { IsPlaced times.now chains.old clock }
    ensures placed { IsPlaced times.now chains.new result }
    ensures reached { IsReached times.now chains.new now }
{
    let mut reached = clock;
    while let Some((chain, start)) = next_slot(chains, times, reached, now) {
        spread(chains, times, start, chain);
        reached = start;
    }
    reached
}
